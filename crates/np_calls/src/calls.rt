ghost use Rattle.std.specs.Prelude.{◌≡◌, ◌++◌, [], ◌∷◌};
ghost use Rattle.np_calls.specs.Calls.{MayBegin, Answers, place_of};

use crate::Place;
use crate::place::{page_place, plugin_place};
use np_message::Depth;
use np_values::Side;
use std::marker::Model;

/// A task's call and 64 others: as many calls as one side may have outstanding.
const MOST: usize = 65;

/// The outstanding calls of a side: those that it made and that weren't answered yet, oldest first.
/// It takes no memory. (This project's own.)
#[derive(Drop)]
pub struct Calls {
    side: Side,
    depths: [Depth; MOST],
    count: usize,
}

impl Model for Calls {
    ghost use Rattle.std.specs.Prelude.{◌≤◌, take};
    ghost use Rattle.np_calls.specs.Calls.{Outstanding, AreOutstanding};

    ghost Value = { Outstanding };

    ghost view = { λ c. record { side = c.side; calls = take c.count c.depths } };

    ghost invariant = { λ c. (c.count ≤ 65) × AreOutstanding (take c.count c.depths) };
}

impl Calls {
    /// A side without open calls.
    pub fn new(side: Side) -> Calls
        ensures value { result ≡ record { side = side; calls = [] } }
    {
        Calls {
            side,
            depths: [Depth {
                level: 1,
                task: false,
            }; MOST],
            count: 0,
        }
    }

    /// Notes that this side makes a call. `place` and `answered` count it until its reply comes.
    pub fn begin(&mut self, depth: Depth)
        requires may { MayBegin self.old.calls depth }
        ensures value { self.new ≡ record self.old { calls = self.old.calls ++ depth ∷ [] } }
    {
        self.depths[self.count] = depth;
        self.count += 1;
    }

    /// Says how a call of the other side stands to this side's open calls: nested in the last one, racing
    /// with a task's call, or out of turn.
    pub fn place(&self, depth: &Depth) -> Place
        ensures value { result ≡ place_of self.now depth.now }
    {
        match self.side {
            Side::Page => page_place(self.outstanding(), depth),
            Side::Plug => plugin_place(self.outstanding(), depth),
        }
    }

    /// A reply came, which has its call's depth: it takes the last call away, or answers the level of the
    /// last call, 0 where none is outstanding.
    pub fn answered(&mut self, depth: &Depth) -> Option<u8>
        ensures value { Answers self.old self.new depth.now result }
    {
        if self.count == 0 {
            return Some(0);
        }
        let last = self.depths[self.count - 1];
        if last.level != depth.level || last.task != depth.task {
            return Some(last.level);
        }
        self.count -= 1;
        None
    }

    fn outstanding(&self) -> &[Depth]
        ensures value { result.now ≡ self.now.calls }
    {
        &self.depths[..self.count]
    }
}
