use crate::named::Named;
use np_name_search::NumberedName;
use np_values::Name;

/// A proxy: what this side knows of an object of the other side that it names.
#[derive(Drop)]
pub struct Import {
    /// The object's name, which keeps its number for searches.
    pub name: NumberedName,
    /// How often the name came since its last release arose.
    pub received: u32,
    /// How many references of this side name the object.
    pub holders: u64,
}

impl Named for Import {
    ghost use Rattle.np_proxy.specs.Imports.{import_name};

    ghost name_of = { import_name };

    fn name(&self) -> Name {
        self.name.name()
    }

    fn number(&self) -> u64 {
        self.name.number()
    }
}
