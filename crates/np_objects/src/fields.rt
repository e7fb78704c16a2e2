ghost use Rattle.std.specs.Prelude.{◌≡◌, ◌<◌, ◌≤◌, ◌↔◌, [], length, slice_get, true, IsSome, IfOk, OnOk, OnErr};
ghost use Rattle.std.specs.Option.{option_map, option_copied};
ghost use Rattle.std.specs.Map.Iter.{deref_pair};
ghost use Rattle.np_objects.specs.Fields.{field_at, is_new_for, set_outcome, fields_set, without_field};

use indexmap::IndexMap;
use np_idents::IdKey;
use np_values::{NoMemory, Value};
use std::alloc::Global;
use std::marker::Model;
use std::mem::replace;

/// How many fields an object has at most. (This project's own.)
pub const MAX_FIELDS: usize = 64;

/// What setting a field gives.
#[derive(Drop, PartialEq, Eq)]
pub enum FieldSet {
    /// The field has the new value; this is the old one, or `Void` for a new field.
    Done(Value),
    /// The object has 64 fields and not this one; this is the value that was to be set.
    Full(Value),
}

/// The properties that an object keeps, seen as the list of their keys and values in the order in which they were first set.
/// (npruntime.h, NPN_SetProperty. That the order is kept, and the limit of 64, are this project's own.)
#[derive(Drop)]
pub struct Fields {
    map: IndexMap<IdKey, Value>,
}

impl Model for Fields {
    ghost use Rattle.std.specs.Prelude.{List, ◌≤◌, length};
    ghost use Rattle.np_idents.specs.declared.key.IdKey.{IdKey as Key};
    ghost use Rattle.np_values.specs.declared.value.Value.{Value as FieldValue};

    ghost Value = { List (Key × FieldValue) };

    ghost view = { λ f. f.map.entries };

    ghost invariant = { λ f. length f.map.entries ≤ 64 };
}

impl Fields {
    // No field. It takes no memory yet.
    pub(crate) fn new(alloc: Global) -> Fields
        ensures value { result ≡ [] }
    {
        Fields {
            map: IndexMap::new(alloc),
        }
    }

    /// How many fields there are.
    pub fn len(&self) -> usize
        ensures value { result ≡ length self.now }
        ensures few { length self.now ≤ 64 }
    {
        self.map.len()
    }

    /// The field at a place, counted from 0.
    pub fn at(&self, place: usize) -> Option<(&IdKey, &Value)>
        ensures value { option_map deref_pair result ≡ slice_get self.now place }
        ensures some { IsSome result ↔ place < length self.now }
    {
        self.map.get_index(place)
    }

    // The value of the field of this key.
    pub(crate) fn get(&self, key: &IdKey) -> Option<&Value>
        ensures value { option_copied result ≡ field_at key.now self.now }
    {
        self.map.get(key)
    }

    // Sets the field of this key. A field that is there keeps its place and takes no memory; a new one goes last.
    pub(crate) fn set(&mut self, key: &IdKey, value: Value) -> Result<FieldSet, NoMemory>
        ensures outcome { IfOk result (λ r. r ≡ set_outcome key.now value self.old) }
        ensures ok { OnOk result (self.new ≡ fields_set key.now value self.old) }
        ensures err { OnErr result (self.new ≡ self.old) }
        ensures memory { OnErr result (is_new_for key.now self.old ≡ true) }
    {
        if let Some(field) = self.map.get_mut(key) {
            return Ok(FieldSet::Done(replace(field, value)));
        }
        if self.map.len() >= MAX_FIELDS {
            return Ok(FieldSet::Full(value));
        }
        let alloc = *self.map.allocator();
        self.map.insert(key.try_copy(alloc)?, value)?;
        Ok(FieldSet::Done(Value::Void))
    }

    // Takes the field of this key away; the later ones keep their order.
    pub(crate) fn remove(&mut self, key: &IdKey) -> Option<Value>
        ensures value { result ≡ field_at key.now self.old }
        ensures list { self.new ≡ without_field key.now self.old }
    {
        self.map.shift_remove(key)
    }
}
