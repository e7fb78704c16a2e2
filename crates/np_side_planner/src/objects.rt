//! Look-ups of the objects of a side.
ghost use Rattle.std.specs.Prelude.{◌≡◌, ◌≤◌, length, true, None, Some, IfOk, MatchOption};
ghost use Rattle.np_machine_plans.specs.Classes.{class_at as class_of_place, object_of as object_in, has_property as has_property_of, keys_of};
ghost use Rattle.np_machine.specs.Objects.{property_at};
ghost use Rattle.np_side_places.specs.StoredObjects.{objects_of, properties_of_fields};
ghost use Rattle.np_objects.specs.Objects.{fields_in, is_live};
ghost use Rattle.np_side_planner.specs.Objects.{IsObject};

use np_idents::{IdKey, Keys};
use np_objects::{Store, same_names_are_equal};
use np_script_grammar::ClassDef;
use np_values::{Name, NoMemory, TryCopy, Value};
use std::alloc::Global;

/// The place of the class of an object, where it lives.
pub fn class_of(store: &Store, name: Name) -> Option<u32>
    ensures value { MatchOption result (object_in name (objects_of store.now.live) ≡ None) (λ class. IsObject store.now name class) }
{
    same_names_are_equal();
    store.class_of(name)
}

/// The class at this place of a script.
pub fn class_at(classes: &[ClassDef], place: u32) -> Option<&ClassDef>
    ensures value { MatchOption result (class_of_place place classes.now ≡ None) (λ class. class_of_place place classes.now ≡ Some class.now) }
{
    let place = place as usize;
    if classes.len() <= place {
        return None;
    }
    Some(&classes[place])
}

/// Whether the object keeps a property under this identifier.
pub fn has_property(store: &Store, name: Name, key: &IdKey) -> bool
    ensures value { result ≡ has_property_of key.now (properties_of_fields (fields_in name store.now)) }
{
    match store.field(name, key) {
        Some(_) => true,
        None => false,
    }
}

/// How many properties the object keeps; none where it doesn't live.
pub fn property_count(store: &Store, name: Name) -> usize
    requires live { is_live name store.now ≡ true }
    ensures value { result ≡ length (properties_of_fields (fields_in name store.now)) }
{
    store.fields(name).len()
}

/// A property's value, copied; Void where there is none.
pub fn property_value(
    alloc: Global,
    store: &Store,
    name: Name,
    key: &IdKey,
) -> Result<Value, NoMemory>
    ensures value { IfOk result (λ v. v ≡ property_at key.now (properties_of_fields (fields_in name store.now))) }
{
    match store.field(name, key) {
        Some(value) => value.try_copy(alloc),
        None => Ok(Value::Void),
    }
}

/// The identifiers of the object's properties, in their order.
pub fn property_keys(alloc: Global, store: &Store, name: Name) -> Result<Keys, NoMemory>
    requires live { is_live name store.now ≡ true }
    ensures value { IfOk result (λ keys. keys ≡ keys_of (properties_of_fields (fields_in name store.now))) }
    ensures few { IfOk result (λ keys. length keys ≤ 64) }
{
    let fields = store.fields(name);
    let mut keys = Keys::new(alloc);
    for place in 0..fields.len() {
        match fields.at(place) {
            Some((key, _)) => keys.push(key.try_copy(alloc)?)?,
            None => return Err(NoMemory), // there are so many fields
        }
    }
    Ok(keys)
}
