ghost use Rattle.std.specs.Prelude.{◌≡◌, ◌<◌, [], ◌∷◌, ◌++◌, ◌↔◌, length, slice_index_or, slice_set, IsTrue, IfOk, OnOk, OnErr, MatchOption};

use crate::{NoMemory, TryCopy};
use std::alloc::Global;
use std::marker::Model;
use std::mem;

/// A list that owns its items and keeps its allocator.
#[derive(Drop)]
pub struct Seq<T> {
    items: Vec<T>,
}

impl<T> Model for Seq<T> {
    ghost use Rattle.std.specs.Prelude.{List};

    ghost Value = { List T };

    ghost view = { λ s. s.items.items };
}

impl<T> Seq<T> {
    /// An empty list. It takes no memory yet.
    pub fn new(alloc: Global) -> Seq<T>
        ensures value { result ≡ [] }
    {
        Seq {
            items: Vec::new(alloc),
        }
    }

    /// Lends the items, the first one first.
    pub fn as_slice(&self) -> &[T]
        ensures same { result.now ≡ self.now }
    {
        self.items.as_slice()
    }

    /// The number of items.
    pub fn len(&self) -> usize
        ensures value { result ≡ length self.now }
    {
        self.items.len()
    }

    /// Whether there are no items.
    pub fn is_empty(&self) -> bool
        ensures value { IsTrue result ↔ (self.now ≡ []) }
    {
        self.items.is_empty()
    }

    /// Puts the item at the place, and gives back what was there. No memory is taken.
    pub fn replace(&mut self, place: usize, item: T) -> T
        requires within { place < length self.old }
        ensures list { self.new ≡ slice_set self.old place item }
        ensures value { result ≡ slice_index_or self.old place result }
    {
        mem::replace(&mut self.items[place], item)
    }

    /// Takes the last item off, if there is one. The list keeps its room.
    pub fn pop(&mut self) -> Option<T>
        ensures value { MatchOption result ((self.old ≡ []) × (self.new ≡ [])) (λ item. self.old ≡ self.new ++ item ∷ []) }
    {
        self.items.pop()
    }
}

impl<T: Drop> Seq<T> {
    /// Appends an item, which the list then owns. An `Err` means that memory ran out; the item is dropped.
    pub fn push(&mut self, item: T) -> Result<(), NoMemory>
        ensures ok { OnOk result (self.new ≡ self.old ++ item ∷ []) }
        ensures err { OnErr result (self.new ≡ self.old) }
    {
        self.items.push(item)?;
        Ok(())
    }
}

impl<T: TryCopy + Drop> TryCopy for Seq<T> {
    fn try_copy(&self, alloc: Global) -> Result<Seq<T>, NoMemory> {
        let items = self.as_slice();
        let mut copy = Seq::new(alloc);
        for item in items {
            copy.push(item.try_copy(alloc)?)?;
        }
        Ok(copy)
    }
}
