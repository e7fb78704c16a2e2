ghost use Rattle.std.specs.Prelude.{◌≡◌, ◌≢◌, ◌<◌, ◌≤◌, ◌+◌, ◌^◌, ◌==◌, ◌&&◌, not, [], length, Some, true, false, IfOk, OnOk, OnErr};
ghost use Rattle.std.specs.Option.{option_copied};
ghost use Rattle.std.specs.List.{insert};
ghost use Rattle.std.specs.List.Sorted.{IsPartitionPoint};
ghost use Rattle.np_values.specs.Name.{is_before};
ghost use Rattle.np_objects.specs.Fields.{field_at, is_new_for, set_outcome, fields_set, without_field};
ghost use Rattle.np_objects.specs.LiveObjects.{is_rising, is_there, object_at, holds_of, class_of, fields_of, is_free_of, at_name, raised, lowered, pin_set, fields_changed, fresh, with_object, without_object, names_in, are_rising, IsAt, Finds};

use crate::{FieldSet, Fields, LiveObject};
use np_idents::IdKey;
use np_name_search::{NumberedName, count_before};
use np_values::{Name, NameList, NoMemory, Value};
use std::alloc::Global;
use std::marker::Model;

// The live objects in rising order of names. Each look-up is a search by halves; the names stand by themselves too, so that
// it reads little memory.
#[derive(Drop)]
pub struct LiveObjects {
    names: Vec<NumberedName>,
    objects: Vec<LiveObject>,
}

impl Model for LiveObjects {
    ghost use Rattle.std.specs.Prelude.{List};
    ghost use Rattle.np_objects.specs.declared.object.LiveObject.{LiveObject};

    ghost Value = { List LiveObject };

    ghost use Rattle.np_objects.specs.LiveObjects.{AreNamed};

    ghost view = { λ s. s.objects.items };

    ghost invariant = { λ s. AreNamed s.names.items s.objects.items };
}

fn is_free(holds: u64, pinned: bool) -> bool
    ensures value { result ≡ (holds == 0 && not pinned) }
{
    (holds == 0) & !pinned
}

// Puts an object at a place, and its name beside it; or neither.
fn put_beside(
    names: &mut Vec<NumberedName>,
    objects: &mut Vec<LiveObject>,
    place: usize,
    object: LiveObject,
) -> Result<(), NoMemory>
    requires names { place ≤ length names.old.items }
    requires objects { place ≤ length objects.old.items }
    ensures names { OnOk result (names.new.items ≡ insert names.old.items place object.name) }
    ensures objects { OnOk result (objects.new.items ≡ insert objects.old.items place object) }
    ensures same_names { OnErr result (names.new.items ≡ names.old.items) }
    ensures same_objects { OnErr result (objects.new.items ≡ objects.old.items) }
{
    names.insert(place, NumberedName::new(object.name))?;
    match objects.insert(place, object) {
        Ok(()) => return Ok(()),
        Err(_) => {}
    }
    names.remove(place);
    Err(NoMemory)
}

impl LiveObjects {
    pub fn new(alloc: Global) -> LiveObjects
        ensures value { result ≡ [] }
    {
        LiveObjects {
            names: Vec::new(alloc),
            objects: Vec::new(alloc),
        }
    }

    pub fn len(&self) -> usize
        ensures value { result ≡ length self.now }
    {
        self.objects.len()
    }

    // How many names stand before this one.
    fn count_before(&self, name: Name) -> usize
        ensures within { result ≤ length self.now }
        ensures rising { is_rising self.now ≡ true }
        ensures parts { IsPartitionPoint (λ o. is_before o.name name ≡ true) (λ o. is_before o.name name ≡ false) self.now result }
    {
        count_before(self.names.as_slice(), name)
    }

    // The place of a live object.
    fn place_of(&self, name: Name) -> usize
        requires live { is_there name self.now ≡ true }
        ensures at { IsAt name self.now result }
    {
        self.count_before(name)
    }

    // The place of the object of this name, if it lives.
    fn find(&self, name: Name) -> Option<usize>
        ensures found { Finds name self.now result }
    {
        let place = self.count_before(name);
        if place == self.objects.len() {
            return None;
        }
        if name.before(self.objects[place].name) {
            return None;
        }
        Some(place)
    }

    // A new object at its place, with no holds, no pin and no fields.
    pub fn insert(&mut self, name: Name, class: u32) -> Result<(), NoMemory>
        requires absent { is_there name self.old ≡ false }
        ensures ok { OnOk result (self.new ≡ with_object (fresh name class) self.old) }
        ensures object { OnOk result (object_at name self.new ≡ Some (fresh name class)) }
        ensures err { OnErr result (self.new ≡ self.old) }
    {
        let place = self.count_before(name);
        let alloc = *self.objects.allocator();
        let object = LiveObject {
            name,
            class,
            fields: Fields::new(alloc),
            holds: 0,
            pinned: false,
        };
        put_beside(&mut self.names, &mut self.objects, place, object)?;
        Ok(())
    }

    pub fn hold(&mut self, name: Name)
        requires live { is_there name self.old ≡ true }
        requires room { holds_of (object_at name self.old) + 1 < 2 ^ 64 }
        ensures value { self.new ≡ at_name name raised self.old }
    {
        let place = self.place_of(name);
        let object = &mut self.objects[place];
        object.holds += 1;
    }

    pub fn unhold(&mut self, name: Name) -> bool
        requires held { 0 < holds_of (object_at name self.old) }
        ensures value { self.new ≡ at_name name lowered self.old }
        ensures free { result ≡ is_free_of (object_at name self.new) }
    {
        let place = self.place_of(name);
        let object = &mut self.objects[place];
        object.holds -= 1;
        is_free(object.holds, object.pinned)
    }

    pub fn pin(&mut self, name: Name)
        requires live { is_there name self.old ≡ true }
        ensures value { self.new ≡ at_name name (pin_set true) self.old }
    {
        let place = self.place_of(name);
        let object = &mut self.objects[place];
        object.pinned = true;
    }

    pub fn unpin(&mut self, name: Name) -> bool
        requires live { is_there name self.old ≡ true }
        ensures value { self.new ≡ at_name name (pin_set false) self.old }
        ensures free { result ≡ is_free_of (object_at name self.new) }
    {
        let place = self.place_of(name);
        let object = &mut self.objects[place];
        object.pinned = false;
        is_free(object.holds, false)
    }

    pub fn set_field(&mut self, name: Name, key: &IdKey, value: Value) -> Result<FieldSet, NoMemory>
        requires live { is_there name self.old ≡ true }
        ensures outcome { IfOk result (λ r. r ≡ set_outcome key.now value (fields_of (object_at name self.old))) }
        ensures ok { OnOk result (self.new ≡ at_name name (fields_changed (fields_set key.now value)) self.old) }
        ensures err { OnErr result (self.new ≡ self.old) }
        ensures memory { OnErr result (is_new_for key.now (fields_of (object_at name self.old)) ≡ true) }
    {
        let place = self.place_of(name);
        let object = &mut self.objects[place];
        object.fields.set(key, value)
    }

    pub fn remove_field(&mut self, name: Name, key: &IdKey) -> Option<Value>
        ensures value { result ≡ field_at key.now (fields_of (object_at name self.old)) }
        ensures list { self.new ≡ at_name name (fields_changed (without_field key.now)) self.old }
    {
        match self.find(name) {
            Some(place) => {
                let object = &mut self.objects[place];
                object.fields.remove(key)
            }
            None => None,
        }
    }

    pub fn class_of(&self, name: Name) -> Option<u32>
        ensures value { result ≡ class_of (object_at name self.now) }
    {
        match self.find(name) {
            Some(place) => Some(self.objects[place].class),
            None => None,
        }
    }

    pub fn holds_of(&self, name: Name) -> u64
        ensures value { result ≡ holds_of (object_at name self.now) }
    {
        match self.find(name) {
            Some(place) => self.objects[place].holds,
            None => 0,
        }
    }

    pub fn field(&self, name: Name, key: &IdKey) -> Option<&Value>
        ensures value { option_copied result ≡ field_at key.now (fields_of (object_at name self.now)) }
    {
        match self.find(name) {
            Some(place) => self.objects[place].fields.get(key),
            None => None,
        }
    }

    pub fn fields(&self, name: Name) -> &Fields
        requires live { is_there name self.now ≡ true }
        ensures value { result.now ≡ fields_of (object_at name self.now) }
    {
        let place = self.place_of(name);
        &self.objects[place].fields
    }

    // Takes the object out, and gives its fields.
    pub fn take(&mut self, name: Name) -> Fields
        requires live { is_there name self.old ≡ true }
        ensures value { result ≡ fields_of (object_at name self.old) }
        ensures list { self.new ≡ without_object name self.old }
        ensures gone { is_there name self.new ≡ false }
    {
        let place = self.place_of(name);
        self.names.remove(place);
        self.objects.remove(place).fields
    }

    // The names of an instance's objects, rising.
    pub fn names_in(&self, instance: u8) -> Result<NameList, NoMemory>
        ensures value { IfOk result (λ names. names ≡ names_in instance self.now) }
        ensures memory { OnErr result (names_in instance self.now ≢ []) }
        ensures rising { are_rising (names_in instance self.now) ≡ true }
    {
        let objects = self.objects.as_slice();
        let mut names = NameList::new(*self.objects.allocator());
        for object in objects {
            if object.name.instance == instance {
                names.push(object.name)?;
            }
        }
        Ok(names)
    }
}
