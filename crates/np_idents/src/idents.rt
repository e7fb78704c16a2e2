ghost use Rattle.std.specs.Prelude.{◌≡◌, ◌<◌, ◌≤◌, ◌↔◌, ◌==◌, [], ℕ, List, length, slice_get, Some, None, IsTrue, IsSome, IfSome, IfOk, OnOk, OnErr, IsErrOf, true, false};
ghost use Rattle.np_idents.specs.Idents.{AreDistinct, Interns, SamePlaceForSameKey};

use crate::{IdKey, IdText, IdentError};
use indexmap::IndexSet;
use np_values::NoMemory;
use std::alloc::Global;
use std::marker::Model;

/// An identifier: the place of its key in the table that interned it. (npruntime.h, NPIdentifier.)
#[derive(Clone, Copy, Debug, PartialEq, Eq)]
pub struct Ident {
    pub place: usize,
}

impl Ident {
    /// Compares two identifiers of one table in constant time.
    pub fn same(self, other: Ident) -> bool
        ensures value { IsTrue result ↔ (self.place ≡ other.place) }
    {
        self.place == other.place
    }
}

/// Two identifiers of one table are the same exactly where their keys are.
pub fn same_key_same_place()
    ensures law { SamePlaceForSameKey }
{}

/// The identifiers that were used, seen as the list of their keys in the order of their first use.
/// (npruntime.h, NPIdentifier: the same string gives the same identifier, and so does the same integer.)
#[derive(Drop)]
pub struct Idents {
    table: IndexSet<IdKey>,
}

impl Model for Idents {
    ghost use Rattle.std.specs.Prelude.{List};
    ghost use Rattle.np_idents.specs.declared.key.IdKey.{IdKey as Key};
    ghost use Rattle.np_idents.specs.Idents.{AreDistinct};

    ghost Value = { List Key };

    ghost view = { λ s. s.table.keys };

    ghost invariant = { λ s. AreDistinct s.table.keys };
}

impl Idents {
    ghost use Rattle.np_idents.specs.declared.key.IdKey.TheVariants.{Str, Int};

    /// A table without identifiers. It allocates with the first one.
    pub fn new(alloc: Global) -> Idents
        ensures value { result ≡ [] }
    {
        Idents {
            table: IndexSet::new(alloc),
        }
    }

    /// Interns a string: the same text gives the same identifier. `TooLong` means more than 256 bytes,
    /// `NoMemory` that memory ran out; the table is then as it was. (npruntime.h, NPN_GetStringIdentifier.)
    pub fn string(&mut self, text: &str) -> Result<Ident, IdentError>
        ensures ok { IfOk result (λ id. Interns self.old (Str text.now) self.new id.place) }
        ensures too_long { IsErrOf result IdentError.TooLong ↔ 256 < length text.now }
        ensures err { OnErr result (self.new ≡ self.old) }
        ensures distinct { OnOk result (AreDistinct self.new) }
    {
        let alloc = *self.table.allocator();
        let key = IdKey::Str(IdText::new(alloc, text)?);
        Ok(self.intern(key)?)
    }

    /// Interns an integer. An `Err` means that memory ran out; the table is then as it was. (npruntime.h,
    /// NPN_GetIntIdentifier.)
    pub fn int(&mut self, number: i32) -> Result<Ident, NoMemory>
        ensures ok { IfOk result (λ id. Interns self.old (Int number) self.new id.place) }
        ensures err { OnErr result (self.new ≡ self.old) }
        ensures distinct { OnOk result (AreDistinct self.new) }
    {
        self.intern(IdKey::Int(number))
    }

    #[tactic(auto, using(crate::proofs::Interning::are_distinct, crate::proofs::Interning::interns))]
    fn intern(&mut self, key: IdKey) -> Result<Ident, NoMemory>
        ensures ok { IfOk result (λ id. Interns self.old key self.new id.place) }
        ensures err { OnErr result (self.new ≡ self.old) }
        ensures distinct { OnOk result (AreDistinct self.new) }
    {
        let (place, _) = self.table.insert_full(key)?;
        Ok(Ident { place })
    }

    fn key(&self, id: Ident) -> Option<&IdKey>
        ensures found { IfSome result (λ key. slice_get self.now id.place ≡ Some key.now) }
        ensures none { result ≡ None ↔ length self.now ≤ id.place }
        ensures distinct { AreDistinct self.now }
    {
        self.table.get_index(id.place)
    }

    /// Whether it is a string's; `None` for an identifier that isn't of this table. (npruntime.h, NPN_IdentifierIsString.)
    pub fn is_string(&self, id: Ident) -> Option<bool>
        ensures string { result ≡ Some true ↔ ((text : List ℕ) × (slice_get self.now id.place ≡ Some (Str text))) }
        ensures none { result ≡ None ↔ length self.now ≤ id.place }
        ensures distinct { AreDistinct self.now }
    {
        match self.key(id)? {
            IdKey::Str(_) => Some(true),
            IdKey::Int(_) => Some(false),
        }
    }

    /// The text of a string's identifier. (npruntime.h, NPN_UTF8FromIdentifier.)
    pub fn text(&self, id: Ident) -> Option<&str>
        ensures found { IfSome result (λ text. slice_get self.now id.place ≡ Some (Str text.now)) }
        ensures some { IsSome result ↔ ((text : List ℕ) × (slice_get self.now id.place ≡ Some (Str text))) }
    {
        match self.key(id)? {
            IdKey::Str(text) => Some(text.as_str()),
            IdKey::Int(_) => None,
        }
    }

    /// The number of an integer's identifier. (npruntime.h, NPN_IntFromIdentifier.)
    pub fn number(&self, id: Ident) -> Option<i32>
        ensures exact { (number : _) → (result ≡ Some number) ↔ (slice_get self.now id.place ≡ Some (Int number)) }
    {
        match self.key(id)? {
            IdKey::Str(_) => None,
            IdKey::Int(number) => Some(*number),
        }
    }
}
