use np_values::Seq;

/// References that are given back to the side that owns an object: as many as came since the last time that some were.
/// The object is that of the message's receiver. (This project's own.)
#[derive(Clone, Copy, Debug, PartialEq, Eq)]
pub struct Release {
    /// The instance that the object belongs to, numbered from 1.
    pub instance: u8,
    /// Its number among the objects of that instance, from 1.
    pub serial: u32,
    /// How many references, at least 1.
    pub times: u32,
}

/// A list of releases.
pub type Releases = Seq<Release>;
