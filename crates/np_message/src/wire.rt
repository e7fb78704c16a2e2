/// Which rule of the wire format bytes break.
#[derive(Clone, Copy, Debug, PartialEq, Eq)]
pub enum WireKind {
    /// The length field isn't 4 to 32,768.
    Length,
    /// An item isn't of its form, or passes the end of the message.
    Item,
    /// Bytes follow the last item.
    Rest,
}

/// The first fault of a message: the place of its first byte among all bytes of the stream, and two
/// numbers. For `Length` these are the length and its greatest value, else where the message begins and
/// its length.
#[derive(Clone, Copy, Debug, PartialEq, Eq)]
pub struct WireError {
    pub at: u64,
    pub kind: WireKind,
    pub first: u64,
    pub second: u64,
}
