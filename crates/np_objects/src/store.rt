ghost use Rattle.std.specs.Prelude.{◌≡◌, ◌≢◌, ◌<◌, ◌+◌, ◌^◌, ◌↔◌, [], length, true, false, None, Some, Ok, IsSome, IfOk, IfSome, OnOk, OnErr};
ghost use Rattle.std.specs.Option.{option_copied};
ghost use Rattle.np_objects.specs.Fields.{field_at, is_new_for, set_outcome};
ghost use Rattle.np_objects.specs.LiveObjects.{object_at, fresh, are_rising};
ghost use Rattle.np_objects.specs.Objects.{IsKept, no_objects, last_serial, is_killed as is_killed_in, names_of, is_live, holds_in, class_in, fields_in, is_free, may_die, next_name, after_create, after_hold, after_unhold, after_pin, after_unpin, after_set, after_remove, after_take, after_kill};

use crate::live::LiveObjects;
use crate::{Dead, FieldSet, Fields, Numbering};
use np_idents::IdKey;
use np_values::{Name, NameList, NoMemory, Side, Value};
use std::alloc::Global;
use std::marker::Model;

/// How many objects of a side live at most. (This project's own.)
pub const MAX_OBJECTS: usize = 1024;

/// The objects of one side. (npruntime.h, NPObject.)
///
/// The caller keeps `holds` as the number of places of this side that name the object, and the pin set while the other side
/// may name it. Look-ups are binary searches.
#[derive(Drop)]
pub struct Store {
    side: Side,
    live: LiveObjects,
    instances: [Numbering; 256],
}

impl Model for Store {
    ghost use Rattle.np_objects.specs.Objects.{Objects, IsKept};

    ghost Value = { Objects };

    ghost view = { λ s. record { side = s.side; live = s.live; instances = s.instances } };

    ghost invariant = { λ s. IsKept s.side s.live s.instances };
}

impl Store {
    /// No object. It takes no memory yet.
    pub fn new(alloc: Global, side: Side) -> Store
        ensures value { result ≡ no_objects side }
    {
        Store {
            side,
            live: LiveObjects::new(alloc),
            instances: [Numbering {
                last_serial: 0,
                killed: false,
            }; 256],
        }
    }

    /// The serial of the instance's newest object; 0 where it has had none.
    pub fn last_serial(&self, instance: u8) -> u32
        ensures value { result ≡ last_serial instance self.now }
        ensures kept { IsKept self.now.side self.now.live self.now.instances }
    {
        self.instances[instance as usize].last_serial
    }

    /// Whether the instance was killed.
    pub fn is_killed(&self, instance: u8) -> bool
        ensures value { result ≡ is_killed_in instance self.now }
    {
        self.instances[instance as usize].killed
    }

    /// Makes an object with the instance's next serial, with no holds, no pin and no fields.
    /// `None`, at 1,024 live objects, takes no memory and uses no serial. (npruntime.h, NPN_CreateObject.)
    pub fn create(&mut self, instance: u8, class: u32) -> Result<Option<Name>, NoMemory>
        requires numbers { last_serial instance self.old + 1 < 2 ^ 32 }

        ensures full { result ≡ Ok None ↔ (length self.old.live ≡ 1024) }
        ensures full_same { result ≡ Ok None → self.new ≡ self.old }

        ensures name { IfOk result (λ o. IfSome o (λ name. name ≡ next_name instance self.old)) }
        ensures created { IfOk result (λ o. IfSome o (λ name. self.new ≡ after_create instance class self.old)) }
        ensures object { IfOk result (λ o. IfSome o (λ name. object_at name self.new.live ≡ Some (fresh name class))) }
        ensures unused { is_live (next_name instance self.old) self.old ≡ false }
        ensures err { OnErr result (self.new ≡ self.old) }
    {
        if self.live.len() == MAX_OBJECTS {
            return Ok(None);
        }
        let numbering = self.instances[instance as usize];
        let serial = numbering.last_serial + 1;
        let name = Name {
            side: self.side,
            instance,
            serial,
        };
        self.live.insert(name, class)?;
        self.instances[instance as usize] = Numbering {
            last_serial: serial,
            killed: numbering.killed,
        };
        Ok(Some(name))
    }

    /// How many times the object is held; 0 where it doesn't live.
    pub fn holds_of(&self, name: Name) -> u64
        ensures value { result ≡ holds_in name self.now }
    {
        self.live.holds_of(name)
    }

    /// One more place of this side names the object. (npruntime.h, NPN_RetainObject.)
    pub fn hold(&mut self, name: Name)
        requires live { is_live name self.old ≡ true }
        requires room { holds_in name self.old + 1 < 2 ^ 64 }
        ensures value { self.new ≡ after_hold name self.old }
    {
        self.live.hold(name);
    }

    /// One place fewer of this side names the object. Whether it now has neither holds nor a pin, so that it may be taken out.
    /// (npruntime.h, NPN_ReleaseObject.)
    pub fn unhold(&mut self, name: Name) -> bool
        requires held { 0 < holds_in name self.old }
        ensures value { self.new ≡ after_unhold name self.old }
        ensures free { result ≡ is_free name self.new }
    {
        self.live.unhold(name)
    }

    /// The other side may name the object from now on.
    pub fn pin(&mut self, name: Name)
        requires live { is_live name self.old ≡ true }
        ensures value { self.new ≡ after_pin name self.old }
    {
        self.live.pin(name);
    }

    /// The other side names the object no more. Whether it now has neither holds nor a pin, so that it may be taken out.
    pub fn unpin(&mut self, name: Name) -> bool
        requires live { is_live name self.old ≡ true }
        ensures value { self.new ≡ after_unpin name self.old }
        ensures free { result ≡ is_free name self.new }
    {
        self.live.unpin(name)
    }

    /// The object's place among the script's classes; `None` exactly where it doesn't live.
    pub fn class_of(&self, name: Name) -> Option<u32>
        ensures value { result ≡ class_in name self.now }
        ensures live { IsSome result ↔ (is_live name self.now ≡ true) }
    {
        self.live.class_of(name)
    }

    /// The value of a field; `None` exactly where the object has no such field. (npruntime.h, NPN_GetProperty.)
    pub fn field(&self, name: Name, key: &IdKey) -> Option<&Value>
        ensures value { option_copied result ≡ field_at key.now (fields_in name self.now) }
    {
        self.live.field(name, key)
    }

    /// The object's fields, in the order in which they were first set. (npruntime.h, NPN_Enumerate.)
    pub fn fields(&self, name: Name) -> &Fields
        requires live { is_live name self.now ≡ true }
        ensures value { result.now ≡ fields_in name self.now }
    {
        self.live.fields(name)
    }

    /// Sets a field. One that is there keeps its place and takes no memory; a new one goes last. The value is dropped where memory
    /// runs out. (npruntime.h, NPN_SetProperty.)
    pub fn set_field(&mut self, name: Name, key: &IdKey, value: Value) -> Result<FieldSet, NoMemory>
        requires live { is_live name self.old ≡ true }
        ensures outcome { IfOk result (λ r. r ≡ set_outcome key.now value (fields_in name self.old)) }
        ensures ok { OnOk result (self.new ≡ after_set name key.now value self.old) }
        ensures err { OnErr result (self.new ≡ self.old) }
        ensures memory { OnErr result (is_new_for key.now (fields_in name self.old) ≡ true) }
    {
        self.live.set_field(name, key, value)
    }

    /// Takes a field away and gives its value; `None` exactly where the object has no such field. The others keep their order.
    /// (npruntime.h, NPN_RemoveProperty.)
    pub fn remove_field(&mut self, name: Name, key: &IdKey) -> Option<Value>
        ensures value { result ≡ field_at key.now (fields_in name self.old) }
        ensures change { self.new ≡ after_remove name key.now self.old }
    {
        self.live.remove_field(name, key)
    }

    /// Takes an object out. (npruntime.h, NPClass, `deallocate`.)
    pub fn take_dead(&mut self, name: Name) -> Dead
        requires dead { may_die name self.old ≡ true }
        ensures fields { result ≡ fields_in name self.old }
        ensures change { self.new ≡ after_take name self.old }
        ensures gone { is_live name self.new ≡ false }
    {
        Dead::new(self.live.take(name))
    }

    /// Kills an instance, so that its objects may be taken out, and gives their names, rising.
    /// (npruntime.h, NPClass, `invalidate`.)
    pub fn kill(&mut self, instance: u8) -> Result<NameList, NoMemory>
        ensures names { IfOk result (λ names. names ≡ names_of instance self.old) }
        ensures rising { IfOk result (λ names. are_rising names ≡ true) }
        ensures ok { OnOk result (self.new ≡ after_kill instance self.old) }
        ensures err { OnErr result (self.new ≡ self.old) }
        ensures memory { OnErr result (names_of instance self.old ≢ []) }
    {
        let names = self.live.names_in(instance)?;
        let numbering = self.instances[instance as usize];
        self.instances[instance as usize] = Numbering {
            last_serial: numbering.last_serial,
            killed: true,
        };
        Ok(names)
    }
}
