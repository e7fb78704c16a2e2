//! Classes of objects.

use crate::action::Body;
use np_idents::IdKey;
use np_values::{Seq, Text};

/// An entry of a class. (npruntime.h, NPClass.)
#[derive(Drop)]
pub enum Member {
    Method(IdKey, Body),
    Default(Body),
    Construct(Body),
    Getter(IdKey, Body),
    Setter(IdKey, Body),
}

/// The entries of a class, at most 64 and no two alike, in the order of their lines.
pub type Members = Seq<Member>;

/// A class of objects. The structure version is 1 to 3; `stored` says whether properties without a
/// getter or setter are kept in the object. (npruntime.h, NPClass.)
#[derive(Drop)]
pub struct ClassDef {
    pub name: Text,
    pub version: u8,
    pub stored: bool,
    pub members: Members,
}

/// The classes of a script, at most 64 and no two of one name, in the order of their lines.
pub type Classes = Seq<ClassDef>;
