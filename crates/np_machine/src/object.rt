use np_idents::IdKey;
use np_values::{Name, Seq, Value};

/// A stored property of an object. (npruntime.h, NPClass: getProperty and setProperty.)
#[derive(Drop)]
pub struct Property {
    pub key: IdKey,
    pub value: Value,
}

/// The stored properties of an object, each key once, in the order in which the keys were first set.
pub type Properties = Seq<Property>;

/// An object that a side owns and has not deallocated. (npruntime.h, NPObject.)
#[derive(Drop)]
pub struct Object {
    pub name: Name,
    /// The place of its class among the classes of the script, from 0.
    pub class: u32,
    pub properties: Properties,
}
