use np_idents::Keys;
use np_values::{NpError, Text, Value};

/// The result of a command, as its line prints it. (This project's own.)
#[derive(Drop)]
pub enum Printed {
    /// What a call of the plug-in interface returned.
    Code(NpError),
    /// A value; true where it names an object of a dead instance.
    Yes(Value, bool),
    /// The call failed.
    No,
    /// The exception that was thrown.
    Threw(Text),
    /// The identifiers that were enumerated.
    Ids(Keys),
    /// How many stream calls were answered.
    Pumped(u32),
}
