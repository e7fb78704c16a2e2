ghost use Rattle.std.specs.Prelude.{◌≡◌, ◌<◌, ◌^◌};
ghost use Rattle.np_name_search.specs.Numbers.{as_number, IsTypedName};

use np_proxy_release::Release;
use np_values::{Name, Side};
use std::marker::Model;

/// An entry of a name.
pub trait Named {
    ghost use Rattle.np_values.specs.declared.name.Name.{Name};

    ghost name_of: { Self → Name };

    /// Its name.
    fn name(&self) -> Name
        ensures value { result ≡ name_of self.now };

    /// Its name as a number, by which a search goes.
    fn number(&self) -> u64
        ensures value { result ≡ as_number (name_of self.now) }
        ensures small { result < 2 ^ 41 }
        ensures typed { IsTypedName (name_of self.now) };
}

/// A name as one number; numbers rise as names do.
pub fn number_of(name: Name) -> u64
    ensures value { result ≡ as_number name }
    ensures small { result < 2 ^ 41 }
    ensures typed { IsTypedName name }
{
    u64::from(name.side as u8) * 0x100_0000_0000
        + u64::from(name.instance) * 0x1_0000_0000
        + u64::from(name.serial)
}

/// A name that keeps its number, for searches that are to be fast.
#[derive(Drop)]
pub struct NumberedName {
    name: Name,
    number: u64,
}

impl Model for NumberedName {
    ghost use Rattle.np_values.specs.declared.name.Name.{Name};
    ghost use Rattle.np_name_search.specs.Numbers.{IsNumbered};

    ghost Value = { Name };

    ghost view = { λ n. n.name };

    ghost invariant = { λ n. IsNumbered n.name n.number };
}

impl NumberedName {
    /// The name with its number.
    pub fn new(name: Name) -> NumberedName
        ensures value { result ≡ name }
    {
        NumberedName {
            name,
            number: number_of(name),
        }
    }
}

impl Named for NumberedName {
    ghost use Rattle.np_name_search.specs.Names.{itself};

    ghost name_of = { itself };

    fn name(&self) -> Name {
        self.name
    }

    fn number(&self) -> u64 {
        self.number
    }
}

impl Named for Release {
    ghost use Rattle.np_name_search.specs.Names.{release_name};

    ghost name_of = { release_name };

    fn name(&self) -> Name {
        Name {
            side: Side::Page,
            instance: self.instance,
            serial: self.serial,
        }
    }

    fn number(&self) -> u64 {
        number_of(self.name())
    }
}
