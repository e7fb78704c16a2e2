ghost use Rattle.std.specs.Prelude.{◌≡◌, ◌<◌, ◌≤◌, ◌↔◌, length, IfOk, IsErrOf, true};
ghost use Rattle.np_idents.specs.IdText.{is_id_text};

use crate::IdentError;
use np_values::NoMemory;
use std::alloc::Global;
use std::hash::{Hash, Hasher};
use std::marker::Model;

/// The most bytes that an identifier's text has. (This project's own limit; npruntime.h has none.)
const MAX_BYTES: usize = 256;

/// The text of an identifier: at most 256 bytes of UTF-8, seen as the list of its bytes. (npruntime.h, NPIdentifier.)
#[derive(Drop)]
pub struct IdText {
    text: String,
}

impl Model for IdText {
    ghost use Rattle.std.specs.Prelude.{◌≡◌, List, ℕ, true};
    ghost use Rattle.std.specs.String.{string_bytes};
    ghost use Rattle.np_idents.specs.IdText.{is_id_text};

    ghost Value = { List ℕ };

    ghost view = { λ t. string_bytes t.text };

    ghost invariant = { λ t. is_id_text (string_bytes t.text) ≡ true };
}

impl IdText {
    /// Copies a text into an identifier. `TooLong` means more than 256 bytes, `NoMemory` that memory ran out.
    #[tactic(auto, using(crate::proofs::IdTexts::is_valid))]
    pub fn new(alloc: Global, text: &str) -> Result<IdText, IdentError>
        ensures value { IfOk result (λ t. t ≡ text.now) }
        ensures valid { IfOk result (λ t. is_id_text text.now ≡ true) }
        ensures too_long { IsErrOf result IdentError.TooLong ↔ 256 < length text.now }
    {
        if text.len() > MAX_BYTES {
            return Err(IdentError::TooLong);
        }
        Ok(IdText {
            text: String::from_str(alloc, text)?,
        })
    }

    /// Lends the text, at most 256 bytes.
    #[tactic(auto, using(crate::proofs::IdTexts::is_short))]
    pub fn as_str(&self) -> &str
        ensures same { result.now ≡ self.now }
        ensures short { length self.now ≤ 256 }
        ensures valid { is_id_text self.now ≡ true }
    {
        self.text.as_str()
    }

    /// An equal text with bytes of its own. An `Err` means that memory ran out.
    pub fn try_copy(&self, alloc: Global) -> Result<IdText, NoMemory>
        ensures value { IfOk result (λ copy. copy ≡ self.now) }
    {
        Ok(IdText {
            text: String::from_str(alloc, self.text.as_str())?,
        })
    }
}

impl PartialEq for IdText {
    ghost use Rattle.std.specs.Str.{bytes_eq};
    ghost use Rattle.std.specs.Cmp.{partial_equiv_from_equiv};
    ghost use Rattle.std.specs.Cmp.Lexicographic.{nat_list_eq_equiv};

    ghost eq = { bytes_eq };

    ghost laws = { partial_equiv_from_equiv nat_list_eq_equiv };

    fn eq(&self, other: &IdText) -> bool {
        self.as_str() == other.as_str()
    }
}

impl Eq for IdText {
    ghost use Rattle.std.specs.Cmp.Lexicographic.{nat_list_eq_equiv};

    ghost laws = { nat_list_eq_equiv };
}

impl Hash for IdText {
    ghost use Rattle.std.specs.Hash as fed;
    ghost use Rattle.std.proofs.Common.{ap};
    ghost use Rattle.std.specs.Cmp.Lexicographic.{bytes_decides};

    ghost hash_input = { fed.str };

    ghost respects_eq = { λ x y same. ap fed.str ((bytes_decides x y).0 same) };

    fn hash<H: Hasher>(&self, state: &mut H) {
        self.as_str().hash(state);
    }
}
