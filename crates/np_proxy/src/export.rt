use crate::named::Named;
use np_name_search::NumberedName;
use np_values::Name;

/// An object of this side that the other side may name.
#[derive(Drop)]
pub struct Export {
    /// Its name, which keeps its number for searches.
    pub name: NumberedName,
    /// How many references to it the other side has, or will have: those sent, without those released.
    pub out: u64,
}

impl Named for Export {
    ghost use Rattle.np_proxy.specs.Exports.{export_name};

    ghost name_of = { export_name };

    fn name(&self) -> Name {
        self.name.name()
    }

    fn number(&self) -> u64 {
        self.name.number()
    }
}
