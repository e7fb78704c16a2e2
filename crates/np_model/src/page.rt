/// The call of the page that awaits its reply.
#[derive(Clone, Copy, Debug, PartialEq, Eq)]
pub enum Outstanding {
    Hello,
    New,
    Destroy(u8),
    Turn,
    Shutdown,
}

/// Where the page stands.
#[derive(Clone, Copy, Debug, PartialEq, Eq)]
pub enum Stage {
    /// Nothing was done.
    Begin,
    /// The next command is due.
    Ready,
    /// A reply is awaited.
    Awaiting(Outstanding),
    /// The plug-in was lost while a reply was awaited, and the command's line is due.
    Unanswered(Outstanding),
    /// The page is done.
    Ended,
}

/// What the page knows of the plug-in.
#[derive(Clone, Copy, Debug, PartialEq, Eq)]
pub enum PeerState {
    Compatible,
    /// It answered Hello by NPERR_INCOMPATIBLE_VERSION_ERROR.
    Incompatible,
    Lost,
}

/// The phase of an instance. (This project's own, after npapi.h, NPP_New and NPP_Destroy.)
#[derive(Clone, Copy, Debug, PartialEq, Eq)]
pub enum Phase {
    Absent,
    Live,
    Destroying,
    Dead,
}
