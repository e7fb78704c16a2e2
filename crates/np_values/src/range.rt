/// A range of bytes that a plug-in asks for. (npapi.h, NPByteRange.)
#[derive(Clone, Copy, Debug, PartialEq, Eq)]
pub struct Range {
    /// The first byte, from the start of the stream; below zero it counts from the end.
    pub offset: i32,
    /// How many bytes.
    pub length: u32,
}
