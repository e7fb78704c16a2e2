ghost use Rattle.std.specs.Prelude.{◌≡◌, ◌<◌, ◌≤◌, ◌⊎◌, ◌↔◌, IfSome, None};
ghost use Rattle.np_values.specs.StreamMode.{mode_code, mode_of};

/// How a plug-in wants the bytes of a stream. (npapi.h, NP_NORMAL, NP_SEEK, NP_ASFILE, NP_ASFILEONLY.)
#[derive(Clone, Copy, Debug, PartialEq, Eq)]
pub enum StreamMode {
    /// Written in order, as they come.
    Normal,
    /// Written where the plug-in asks for them by ranges.
    Seek,
    /// Written in order, and then given as a file.
    AsFile,
    /// Given as a file alone.
    AsFileOnly,
}

impl StreamMode {
    /// The number that npapi.h gives the mode, 1 to 4.
    pub fn code(self) -> u16
        ensures value { result ≡ mode_code self }
        ensures range { (1 ≤ result) × (result ≤ 4) }
    {
        match self {
            StreamMode::Normal => 1,
            StreamMode::Seek => 2,
            StreamMode::AsFile => 3,
            StreamMode::AsFileOnly => 4,
        }
    }

    /// The mode with this number; `None` for all others.
    pub fn from_code(code: u16) -> Option<StreamMode>
        ensures value { result ≡ mode_of code }
        ensures inverse { IfSome result (λ mode. mode_code mode ≡ code) }
        ensures none { result ≡ None ↔ ((code < 1) ⊎ (4 < code)) }
    {
        match code {
            1 => Some(StreamMode::Normal),
            2 => Some(StreamMode::Seek),
            3 => Some(StreamMode::AsFile),
            4 => Some(StreamMode::AsFileOnly),
            _ => None,
        }
    }
}
