//! The streams of a page.

use np_values::{NpReason, Seq};

/// Bytes of a stream's content that were requested and not written yet. (This project's own, after NPByteRange of npapi.h.)
#[derive(Clone, Copy, Debug, PartialEq, Eq)]
pub struct Span {
    /// The first byte, counted from 0.
    pub start: u32,
    /// One more than the last byte.
    pub end: u32,
}

pub type Spans = Seq<Span>;

/// What a stream does next. (This project's own.)
#[derive(Clone, Copy, Debug, PartialEq, Eq)]
pub enum StreamPhase {
    /// NPP_NewStream is due.
    Begun,
    /// NPP_WriteReady is due, or NPP_StreamAsFile where a stream of NP_ASFILE is taken whole.
    Flowing,
    /// NPP_Write is due: the plug-in takes at most so many bytes.
    Offered(u32),
    /// NPP_StreamAsFile is due, without a write before it.
    FileOnly,
    /// NPP_DestroyStream is due, with this reason.
    Closing(NpReason),
    /// NPP_URLNotify is due, where somebody asked for it.
    Destroyed(NpReason),
}

/// A stream of the page. (npapi.h, NPStream; what the page keeps of it is this project's own.)
#[derive(Drop)]
pub struct Stream {
    /// Counted from 1, in the order in which the streams of a page begin.
    pub number: u32,
    pub instance: u8,
    /// The place of its resource among the page's, counted from 0.
    pub resource: usize,
    /// How many bytes its content has.
    pub length: u32,
    /// The number that NPP_URLNotify hands back, where a notification was asked for.
    pub notify: Option<i32>,
    /// NP_NORMAL 1, NP_SEEK 2, NP_ASFILE 3 or NP_ASFILEONLY 4 (npapi.h); 0 before NPP_NewStream is answered.
    pub mode: u8,
    /// How many bytes the plug-in took from the front of the content; unused in NP_SEEK.
    pub taken: u32,
    /// What was requested of a stream of NP_SEEK, the next one first.
    pub ranges: Spans,
    pub phase: StreamPhase,
}

pub type Streams = Seq<Stream>;

/// A call of a stream. (npfunctions.h, NPPluginFuncs.)
#[derive(Clone, Copy, Debug, PartialEq, Eq)]
pub enum StreamCall {
    /// NPP_NewStream.
    New,
    /// NPP_WriteReady.
    Ready,
    /// NPP_Write of so many bytes from this offset.
    Write { offset: u32, length: u32 },
    /// NPP_StreamAsFile.
    File,
    /// NPP_DestroyStream.
    Destroy(NpReason),
    /// NPP_URLNotify, with the number that was given at the request.
    Notify(NpReason, i32),
}

/// A stream's call, and the pump that made it.
#[derive(Drop)]
pub struct PumpedCall {
    /// The stream as it was when the call was made.
    pub stream: Stream,
    pub call: StreamCall,
    /// How many turns the pump may still make.
    pub left: u32,
    /// How many of its calls were answered.
    pub answered: u32,
}
