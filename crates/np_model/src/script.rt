use np_values::{Seq, Text};

/// A line of a page after its `do`.
#[derive(Drop)]
pub enum Command {
    /// NPP_New of the next instance. The mode is 1 (NP_EMBED) or 2 (NP_FULL).
    Create { mime: Text, mode: u8 },
    /// An empty call into the plug-in.
    Turn,
}

/// The commands of a page, in their order.
pub type Commands = Seq<Command>;

/// A page as it is served: the version of the plug-in interface that the host speaks, and what the page does.
#[derive(Drop)]
pub struct Page {
    pub major: u8,
    pub minor: u8,
    pub commands: Commands,
}

/// A plug-in as it is served: the version of the plug-in interface that it speaks, and its handler.
#[derive(Clone, Copy, Debug, PartialEq, Eq)]
pub struct Plugin {
    pub major: u8,
    pub minor: u8,
    /// What the handler `new` returns, which is run for NPP_New; `None` without that handler.
    pub new_handler: Option<i32>,
}
