ghost use Rattle.std.specs.Prelude.{◌≡◌, ◌++◌, true, IfOk, OnOk};
ghost use Rattle.np_proxy.specs.Imports.{names_of, other_name, are_others};

use np_values::{Name, NoMemory, Side, Value};
use std::alloc::Global;
use std::marker::Model;

/// References that a message brought to a side: names of the other side, in the order in which they came.
/// They must be counted by `Imports::accept`, or discarded.
pub struct Incoming {
    side: Side,
    names: Vec<Name>,
}

impl Model for Incoming {
    ghost use Rattle.std.specs.Prelude.{◌≡◌, true};
    ghost use Rattle.np_proxy.specs.Imports.{Referenced, are_others};

    ghost Value = { Referenced };

    ghost view = { λ i. record { side = i.side; names = i.names.items } };

    ghost invariant = { λ i. are_others i.side i.names.items ≡ true };
}

impl Incoming {
    /// The other side's names among the values that came to this side.
    pub fn new(alloc: Global, side: Side, values: &[Value]) -> Result<Incoming, NoMemory>
        ensures value { IfOk result (λ incoming. incoming ≡ record { side = side; names = names_of side values.now }) }
    {
        let mut names = Vec::new(alloc);
        for value in values {
            if let Value::Object(name) = value {
                push_other(&mut names, side, *name)?;
            }
        }
        Ok(Incoming { side, names })
    }

    /// The names.
    pub fn names(&self) -> &[Name]
        ensures same { result.now ≡ self.now.names }
        ensures others { are_others self.now.side self.now.names ≡ true }
    {
        self.names.as_slice()
    }

    /// Lets the references go uncounted: nothing of the message takes effect.
    pub fn discard(self) {
        let Incoming { side: _, names: _ } = self;
    }
}

// Appends a name of the other side.
fn push_other(names: &mut Vec<Name>, side: Side, name: Name) -> Result<(), NoMemory>
    ensures ok { OnOk result (names.new.items ≡ names.old.items ++ other_name side name) }
{
    if name.side != side {
        names.push(name)?;
    }
    Ok(())
}
