//! Where a reader of a script stands.
ghost use Rattle.std.specs.Prelude.{◌≡◌, map, true, false, OnOk, OnErr, IsErrOf};
ghost use Rattle.np_script_grammar.specs.Words.{words_of};
ghost use Rattle.np_script_grammar.specs.Fields.{field_word};
ghost use Rattle.np_script_grammar.specs.Order.{at_first, standing_after, counts_after, are_few, declares_twice};

use crate::OrderError;
use crate::count::{NOTHING, Tally, counted};
use crate::key::{Key, declare};
use crate::step::behind;
use indexmap::IndexSet;
use np_script_grammar::{Fields, Place};
use std::alloc::Global;
use std::marker::Model;

/// Where a script stands after some of its lines: its place, how much there is, and what was declared at
/// the top and in the class that was opened last.
#[derive(Drop)]
pub struct Order {
    place: Place,
    counts: Tally,
    at_top: IndexSet<Key>,
    in_class: IndexSet<Key>,
}

impl Model for Order {
    ghost use Rattle.std.specs.Prelude.{◌≡◌, true};
    ghost use Rattle.np_script_grammar.specs.Order.{Standing, are_few};
    ghost use Rattle.np_script_order.specs.Counts.{counts_of};

    ghost Value = { Standing };

    ghost view = { λ o. record { place = o.place; counts = counts_of o.counts; at_top = o.at_top.keys; in_class = o.in_class.keys } };

    ghost invariant = { λ o. are_few (counts_of o.counts) ≡ true };
}

impl Order {
    /// Where a script stands before its first line. It takes no memory yet.
    pub fn new(alloc: Global) -> Order
        ensures value { result ≡ at_first }
    {
        Order {
            place: Place::Head,
            counts: NOTHING,
            at_top: IndexSet::new(alloc),
            in_class: IndexSet::new(alloc),
        }
    }

    /// Which lines may come next.
    pub fn place(&self) -> Place
        ensures value { result ≡ self.now.place }
    {
        self.place
    }

    /// Continues after a line of this word and these fields. `rest` is what stands after the word: its words are
    /// those of the fields, so that a second declaration is found without memory.
    #[tactic(auto, using(crate::proofs::Keys::key_of_line))]
    pub fn accept(&mut self, word: &[u8], rest: &[u8], fields: &Fields) -> Result<(), OrderError>
        requires spelled { words_of rest.now ≡ map field_word fields.now }

        ensures ok { OnOk result (self.new ≡ standing_after self.old (word.now, fields.now)) }
        ensures fits { OnOk result ((are_few (counts_after self.old.place self.old.counts (word.now, fields.now)) ≡ true)
            × (declares_twice self.old (word.now, fields.now) ≡ false)) }

        // Each refusal, exactly where it comes; a limit comes before a second declaration. So memory can run out
        // only where the line would be accepted.
        ensures limit { IsErrOf result OrderError.Limit →
            are_few (counts_after self.old.place self.old.counts (word.now, fields.now)) ≡ false }
        ensures limit_only { are_few (counts_after self.old.place self.old.counts (word.now, fields.now)) ≡ false →
            IsErrOf result OrderError.Limit }
        ensures twice { IsErrOf result OrderError.Twice →
            (are_few (counts_after self.old.place self.old.counts (word.now, fields.now)) ≡ true)
            × (declares_twice self.old (word.now, fields.now) ≡ true) }
        ensures twice_only { are_few (counts_after self.old.place self.old.counts (word.now, fields.now)) ≡ true →
            declares_twice self.old (word.now, fields.now) ≡ true → IsErrOf result OrderError.Twice }
        ensures err { OnErr result (self.new ≡ self.old) }
    {
        let counts = counted(self.place, self.counts, word, fields);
        if !counts.is_small() {
            return Err(OrderError::Limit);
        }
        match self.place {
            Place::Top => {
                declare(&mut self.at_top, word, rest)?;
                self.in_class.clear();
            }
            Place::Class => declare(&mut self.in_class, word, rest)?,
            _ => {}
        }
        self.place = behind(self.place, word);
        self.counts = counts;
        Ok(())
    }
}
