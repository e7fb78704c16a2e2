ghost use Rattle.std.specs.Prelude.{◌≡◌};
ghost use Rattle.np_values.specs.Name.{is_before};

/// One of the two sides: the page, which is the browser's, or the plug-in.
#[derive(Clone, Copy, Debug, PartialEq, Eq, PartialOrd, Ord)]
pub enum Side {
    Page,
    Plug,
}

/// What an object is called on both sides; a name is never used again. (This project's own.)
/// Names are ordered by side, with the page first, then by instance, then by serial.
#[derive(Clone, Copy, Debug, PartialEq, Eq, PartialOrd, Ord)]
pub struct Name {
    /// The side that owns the object.
    pub side: Side,
    /// The instance that the object belongs to, numbered from 1.
    pub instance: u8,
    /// Its number among the objects of that side and instance, from 1.
    pub serial: u32,
}

impl Name {
    /// Compares two names in their one order: by side, the page first, then by instance, then by serial.
    /// Lists of releases are sorted by it.
    pub fn before(self, other: Name) -> bool
        ensures value { result ≡ is_before self other }
    {
        self < other
    }
}
