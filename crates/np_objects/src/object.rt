use crate::Fields;
use np_values::Name;

/// A live object, as contracts see it. (npruntime.h, NPObject.)
#[derive(Drop)]
pub struct LiveObject {
    pub name: Name,
    /// The place of its class among the script's classes, counted from 0.
    pub class: u32,
    /// The properties that it keeps.
    pub fields: Fields,
    /// Its local reference count: how many places of the owner's side name it.
    pub holds: u64,
    /// Whether the other side may name it.
    pub pinned: bool,
}
