ghost use Rattle.std.specs.Prelude.{◌≡◌, ◌<◌, ◌≤◌, ◌↔◌, length, IfOk, IsErrOf, IsTrue, true, false};
ghost use Rattle.std.specs.Str.{is_utf8};
ghost use Rattle.np_values.specs.Text.{is_text};

use crate::{NoMemory, TryCopy};
use std::alloc::{AllocError, Global};
use std::marker::Model;
use thiserror::Error;

/// A text value: at most 2,048 bytes of UTF-8, seen as the list of its bytes.
/// (This project's own limit; npruntime.h, NPString, has none.)
#[derive(Drop)]
pub struct Text {
    text: String,
}

impl Model for Text {
    ghost use Rattle.std.specs.Prelude.{◌≡◌, List, ℕ, true};
    ghost use Rattle.std.specs.String.{string_bytes};
    ghost use Rattle.np_values.specs.Text.{is_text};

    ghost Value = { List ℕ };

    ghost view = { λ t. string_bytes t.text };

    ghost invariant = { λ t. is_text (string_bytes t.text) ≡ true };
}

/// Why bytes weren't made into a text.
#[derive(Clone, Copy, Debug, PartialEq, Eq, Error)]
pub enum TextError {
    /// There are more than 2,048 bytes.
    #[error("TooLong")]
    TooLong,
    /// There are no more, but they aren't UTF-8.
    #[error("NotUtf8")]
    NotUtf8,
    #[error("NoMemory")]
    NoMemory,
}

impl From<AllocError> for TextError {
    ghost use Rattle.std.specs.Prelude.{◌≡◌};
    ghost use Rattle.np_values.specs.declared.text.TextError.TheVariants.{NoMemory as of_memory};

    ghost from_gives = { λ _ e. e ≡ of_memory };

    fn from(_: AllocError) -> Self {
        TextError::NoMemory
    }
}

impl Text {
    /// Copies bytes into a text. `TooLong` means more than 2,048 bytes, `NotUtf8` that they are short enough
    /// but not UTF-8, `NoMemory` that memory ran out.
    #[tactic(auto, using(crate::proofs::Texts::is_valid, crate::proofs::Texts::is_whole, crate::proofs::Texts::is_broken))]
    pub fn new(alloc: Global, bytes: &[u8]) -> Result<Text, TextError>
        ensures value { IfOk result (λ t. t ≡ bytes.now) }
        ensures valid { IfOk result (λ t. is_text bytes.now ≡ true) }

        // Each refusal, exactly where it comes.
        ensures too_long { IsErrOf result TextError.TooLong ↔ 2048 < length bytes.now }
        ensures not_utf8 { IsErrOf result TextError.NotUtf8 ↔
            ((length bytes.now ≤ 2048) × (is_utf8 bytes.now ≡ false)) }
    {
        if bytes.len() > 2048 {
            return Err(TextError::TooLong);
        }
        match str::from_utf8(bytes) {
            Ok(text) => Ok(Text {
                text: String::from_str(alloc, text)?,
            }),
            Err(_) => Err(TextError::NotUtf8),
        }
    }

    /// Lends the text, at most 2,048 bytes.
    #[tactic(auto, using(crate::proofs::Texts::is_short))]
    pub fn as_str(&self) -> &str
        ensures same { result.now ≡ self.now }
        ensures short { length self.now ≤ 2048 }
        ensures valid { is_text self.now ≡ true }
    {
        self.text.as_str()
    }

    /// An equal text with bytes of its own. An `Err` means that memory ran out.
    #[tactic(auto, using(crate::proofs::Texts::is_short))]
    pub fn try_copy(&self, alloc: Global) -> Result<Text, NoMemory>
        ensures value { IfOk result (λ t. t ≡ self.now) }
        ensures short { length self.now ≤ 2048 }
        ensures valid { is_text self.now ≡ true }
    {
        Ok(Text {
            text: String::from_str(alloc, self.text.as_str())?,
        })
    }
}

impl TryCopy for Text {
    fn try_copy(&self, alloc: Global) -> Result<Text, NoMemory> {
        Text::try_copy(self, alloc)
    }
}

impl PartialEq for Text {
    ghost use Rattle.std.specs.Str.{bytes_eq};
    ghost use Rattle.std.specs.Cmp.{partial_equiv_from_equiv};
    ghost use Rattle.std.specs.Cmp.Lexicographic.{nat_list_eq_equiv};

    ghost eq = { bytes_eq };

    ghost laws = { partial_equiv_from_equiv nat_list_eq_equiv };

    fn eq(&self, other: &Text) -> bool
        ensures value { result ≡ bytes_eq self.now other.now }
        ensures exact { IsTrue result ↔ (self.now ≡ other.now) }
    {
        self.as_str() == other.as_str()
    }
}

impl Eq for Text {
    ghost use Rattle.std.specs.Cmp.Lexicographic.{nat_list_eq_equiv};

    ghost laws = { nat_list_eq_equiv };
}
