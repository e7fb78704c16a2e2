//! Page scripts.
ghost use Rattle.std.specs.Prelude.{◌≡◌, IfOk};

use crate::class::Classes;
use crate::command::Commands;
use np_values::{Bytes, NoMemory, Seq, Text, TryCopy};
use std::alloc::Global;

/// What a stream of this URL carries: the piece, that many times. (This project's own.)
#[derive(Drop)]
pub struct Resource {
    pub url: Text,
    pub mime: Text,
    /// 0 to 16,777,216.
    pub times: u32,
    pub piece: Text,
    /// The piece, `times` times.
    pub content: Bytes,
}

/// Bytes of their own, equal to these.
fn copied(alloc: Global, bytes: &[u8]) -> Result<Bytes, NoMemory>
    ensures value { IfOk result (λ copy. copy ≡ bytes.now) }
{
    let mut copy = Bytes::new(alloc);
    for byte in bytes {
        copy.push(*byte)?;
    }
    Ok(copy)
}

impl TryCopy for Resource {
    fn try_copy(&self, alloc: Global) -> Result<Resource, NoMemory> {
        let content = copied(alloc, self.content.as_slice())?;
        Ok(Resource {
            url: self.url.try_copy(alloc)?,
            mime: self.mime.try_copy(alloc)?,
            times: self.times,
            piece: self.piece.try_copy(alloc)?,
            content,
        })
    }
}

/// The resources of a page, no two of one URL, in the order of their lines. Their contents have at most
/// 16,777,216 bytes in all.
pub type Resources = Seq<Resource>;

/// A page script: the version of the plug-in interface that the host speaks, and what the page does.
#[derive(Drop)]
pub struct Page {
    pub major: u8,
    pub minor: u8,
    pub classes: Classes,
    pub resources: Resources,
    pub commands: Commands,
}
