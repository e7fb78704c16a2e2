ghost use Rattle.std.specs.Prelude.{◌≡◌};

use crate::Fields;
use std::marker::Model;

/// An object that was taken out of its store, seen as the list of its fields. Its references have still to be dropped,
/// so it can't be let go: only `into_fields` spends it.
pub struct Dead {
    fields: Fields,
}

impl Model for Dead {
    ghost use Rattle.std.specs.Prelude.{List};
    ghost use Rattle.np_idents.specs.declared.key.IdKey.{IdKey as Key};
    ghost use Rattle.np_values.specs.declared.value.Value.{Value as FieldValue};

    ghost Value = { List (Key × FieldValue) };

    ghost view = { λ d. d.fields };
}

impl Dead {
    pub(crate) fn new(fields: Fields) -> Dead
        ensures value { result ≡ fields }
    {
        Dead { fields }
    }

    /// The object's fields; the caller drops the references in them, in their order.
    pub fn into_fields(self) -> Fields
        ensures value { result ≡ self }
    {
        let Dead { fields } = self;
        fields
    }
}
