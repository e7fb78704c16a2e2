//! The objects of one side: their names, classes and fields, and how often they are held.
#![tactic(auto)]

mod dead;
mod fields;
mod laws;
mod live;
mod numbering;
mod object;
mod store;

pub use dead::Dead;
pub use fields::{FieldSet, Fields};
pub use laws::{
    each_numbering_is_known, each_object_is_known, holds_are_counted, live_objects_are_kept,
    no_name_lives_again, same_names_are_equal, serials_only_rise,
};
pub use numbering::Numbering;
pub use object::LiveObject;
pub use store::Store;
