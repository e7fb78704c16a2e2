use np_values::NpReason;

/// A call of a stream with what it was answered, as its line prints it. (npfunctions.h, NPPluginFuncs.)
#[derive(Clone, Copy, Debug, PartialEq, Eq)]
pub enum Streamed {
    /// NPP_NewStream: the mode, or 0 where the stream is refused.
    New(i32),
    /// NPP_WriteReady: how many bytes the plug-in takes.
    Ready(i32),
    /// NPP_Write: the first byte and how many were offered, and how many were taken.
    Write {
        offset: u32,
        length: u32,
        taken: i32,
    },
    /// NPP_StreamAsFile.
    File,
    /// NPP_DestroyStream.
    Destroy(NpReason),
    /// NPP_URLNotify.
    Notify(NpReason),
}
