ghost use Rattle.std.specs.Prelude.{◌≡◌, ◌++◌, ◌↔◌, IsTrue, IfOk, OnOk, OnErr};
ghost use Rattle.np_idents.specs.IdKey.{printed_key};

use crate::IdText;
use np_values::{NoMemory, Seq, TryCopy, push_int, push_quoted};
use std::alloc::Global;

/// What an identifier stands for: a string or an integer. The string `12` and the integer 12 are two keys.
/// (npruntime.h, NPN_GetStringIdentifier, NPN_GetIntIdentifier.)
#[derive(Drop, Hash)]
pub enum IdKey {
    Str(IdText),
    Int(i32),
}

/// Identifiers in their order, such as the result of an enumeration, at most 64.
pub type Keys = Seq<IdKey>;

impl IdKey {
    /// An equal key with bytes of its own. An `Err` means that memory ran out.
    pub fn try_copy(&self, alloc: Global) -> Result<IdKey, NoMemory>
        ensures value { IfOk result (λ copy. copy ≡ self.now) }
    {
        match self {
            IdKey::Str(text) => Ok(IdKey::Str(text.try_copy(alloc)?)),
            IdKey::Int(number) => Ok(IdKey::Int(*number)),
        }
    }

    /// Appends the key as journals print it: a string as a quoted text, an integer in base 10. An `Err` means
    /// that memory ran out; `out` is then as it was.
    pub fn print(&self, out: &mut Vec<u8>) -> Result<(), NoMemory>
        ensures ok { OnOk result (out.new.items ≡ out.old.items ++ printed_key self.now) }
        ensures err { OnErr result (out.new.items ≡ out.old.items) }
    {
        match self {
            IdKey::Str(text) => push_quoted(out, text.as_str().as_bytes()),
            IdKey::Int(number) => push_int(out, *number),
        }
    }
}

impl TryCopy for IdKey {
    fn try_copy(&self, alloc: Global) -> Result<IdKey, NoMemory> {
        IdKey::try_copy(self, alloc)
    }
}

impl PartialEq for IdKey {
    ghost use Rattle.np_idents.specs.IdKey.{is_same_key, same_key_equivalence};
    ghost use Rattle.std.specs.Cmp.{partial_equiv_from_equiv};

    ghost eq = { is_same_key };

    ghost laws = { partial_equiv_from_equiv same_key_equivalence };

    fn eq(&self, other: &IdKey) -> bool
        ensures value { result ≡ is_same_key self.now other.now }
        ensures exact { IsTrue result ↔ (self.now ≡ other.now) }
    {
        match (self, other) {
            (IdKey::Str(text), IdKey::Str(other_text)) => text == other_text,
            (IdKey::Int(number), IdKey::Int(other_number)) => number == other_number,
            _ => false,
        }
    }
}

impl Eq for IdKey {
    ghost use Rattle.np_idents.specs.IdKey.{same_key_equivalence};

    ghost laws = { same_key_equivalence };
}
