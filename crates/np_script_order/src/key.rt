//! What a line declares, as a key of a set.
ghost use Rattle.std.specs.Prelude.{◌≡◌, ◌≢◌, [], ◌∷◌, ◌++◌, ◌↔◌, bytes_eq, true, false, IfOk, OnOk, OnErr, IsErrOf, Err};
ghost use Rattle.std.specs.List.{list_any};
ghost use Rattle.np_script_order.specs.Keys.{joined, key_of, has_key};

use crate::OrderError;
use indexmap::IndexSet;
use np_script_words::next_word;
use np_values::NoMemory;
use std::alloc::Global;
use std::hash::{Hash, Hasher};
use std::marker::Model;

/// What a line declares, by its first two words: seen as their bytes, with a space between them.
#[derive(Drop)]
pub struct Key {
    bytes: Vec<u8>,
}

impl Model for Key {
    ghost use Rattle.std.specs.Prelude.{List, ℕ};

    ghost Value = { List ℕ };

    ghost view = { λ k. k.bytes.items };
}

impl PartialEq for Key {
    ghost use Rattle.std.specs.Str.{bytes_eq};
    ghost use Rattle.std.specs.Cmp.{partial_equiv_from_equiv};
    ghost use Rattle.std.specs.Cmp.Lexicographic.{nat_list_eq_equiv};

    ghost eq = { bytes_eq };

    ghost laws = { partial_equiv_from_equiv nat_list_eq_equiv };

    fn eq(&self, other: &Key) -> bool {
        self.bytes.as_slice() == other.bytes.as_slice()
    }
}

impl Eq for Key {
    ghost use Rattle.std.specs.Cmp.Lexicographic.{nat_list_eq_equiv};

    ghost laws = { nat_list_eq_equiv };
}

impl Hash for Key {
    ghost use Rattle.std.specs.Hash as fed;
    ghost use Rattle.std.proofs.Common.{ap};
    ghost use Rattle.std.specs.Cmp.Lexicographic.{bytes_decides};

    ghost hash_input = { fed.slice fed.u8 };

    ghost respects_eq = { λ x y same. ap (fed.slice fed.u8) ((bytes_decides x y).0 same) };

    fn hash<H: Hasher>(&self, state: &mut H) {
        self.bytes.as_slice().hash(state);
    }
}

/// Whether bytes are a space and this word.
fn is_spaced(bytes: &[u8], word: &[u8]) -> bool
    ensures value { result ≡ bytes_eq (32 ∷ word.now) bytes.now }
{
    match bytes {
        [b' ', behind @ ..] => word == behind,
        _ => false,
    }
}

impl Key {
    /// A copy of these words.
    fn new(alloc: Global, word: &[u8], name: Option<&[u8]>) -> Result<Key, NoMemory>
        ensures value { IfOk result (λ key. key ≡ joined word.now name.entry) }
    {
        let mut bytes = Vec::new(alloc);
        bytes.extend_from_slice(word)?;
        match name {
            None => Ok(Key { bytes }),
            Some(name) => {
                bytes.push(b' ')?;
                bytes.extend_from_slice(name)?;
                Ok(Key { bytes })
            }
        }
    }

    /// Whether it is the key of these words. It takes no memory.
    #[tactic(auto, using(crate::proofs::Keys::begins_with_word, crate::proofs::Keys::begins_with_other))]
    fn is_of(&self, word: &[u8], name: Option<&[u8]>) -> bool
        ensures value { result ≡ bytes_eq (joined word.now name.entry) self.now }
    {
        match name {
            None => word == self.bytes.as_slice(),
            Some(name) => match self.bytes.as_slice().strip_prefix(word) {
                Some(behind) => is_spaced(behind, name),
                None => false,
            },
        }
    }
}

/// Whether one of the keys is that of these words. It looks at each, and takes no memory.
fn is_among(keys: &[Key], word: &[u8], name: Option<&[u8]>) -> bool
    ensures value { result ≡ list_any (bytes_eq (joined word.now name.entry)) keys.now }
{
    for key in keys {
        if key.is_of(word, name) {
            return true;
        }
    }
    false
}

/// Adds a key, if it isn't there.
fn insert(declared: &mut IndexSet<Key>, key: Key) -> Result<(), OrderError>
    ensures ok { OnOk result (declared.new.keys ≡ declared.old.keys ++ key ∷ []) }
    ensures fits { OnOk result (list_any (bytes_eq key) declared.old.keys ≡ false) }
    ensures twice { IsErrOf result OrderError.Twice ↔ (list_any (bytes_eq key) declared.old.keys ≡ true) }
    ensures no_limit { result ≢ Err OrderError.Limit }
    ensures err { OnErr result (declared.new.keys ≡ declared.old.keys) }
{
    let (_, added) = declared.insert_full(key)?;
    if added {
        Ok(())
    } else {
        Err(OrderError::Twice)
    }
}

/// The word at the front of a line's rest, if there is one.
fn name_in(rest: &[u8]) -> Option<&[u8]>
    ensures value { (word : _) → joined word result ≡ key_of word rest.now }
{
    match next_word(rest) {
        Some((name, _)) => Some(name),
        None => None,
    }
}

/// Adds what the line of this word and this rest declares, if it isn't there.
pub fn declare(declared: &mut IndexSet<Key>, word: &[u8], rest: &[u8]) -> Result<(), OrderError>
    ensures ok { OnOk result (declared.new.keys ≡ declared.old.keys ++ key_of word.now rest.now ∷ []) }
    ensures fits { OnOk result (has_key declared.old.keys word.now rest.now ≡ false) }
    ensures twice { IsErrOf result OrderError.Twice ↔ (has_key declared.old.keys word.now rest.now ≡ true) }
    ensures no_limit { result ≢ Err OrderError.Limit }
    ensures err { OnErr result (declared.new.keys ≡ declared.old.keys) }
{
    let alloc = *declared.allocator();
    let name = name_in(rest);
    match Key::new(alloc, word, name) {
        Ok(key) => insert(declared, key),
        // Without memory for a key to look up, the keys are looked through.
        Err(NoMemory) => {
            if is_among(declared.as_slice(), word, name) {
                Err(OrderError::Twice)
            } else {
                Err(OrderError::NoMemory)
            }
        }
    }
}
