ghost use Rattle.std.specs.Prelude.{◌≡◌, ◌<◌, ◌↔◌, IfSome, None};
ghost use Rattle.np_values.specs.NpError.{code_of, error_of};

/// What a call of the plug-in interface answers.
/// (npapi.h, NPError. Its codes above 13 belong to site data and are left out.)
#[derive(Clone, Copy, Debug, PartialEq, Eq)]
pub enum NpError {
    NoError,
    Generic,
    InvalidInstance,
    InvalidFunctable,
    ModuleLoadFailed,
    OutOfMemory,
    InvalidPlugin,
    InvalidPluginDir,
    IncompatibleVersion,
    InvalidParam,
    InvalidUrl,
    FileNotFound,
    NoData,
    StreamNotSeekable,
}

impl NpError {
    /// The number that npapi.h gives the error, 0 to 13.
    pub fn code(self) -> u16
        ensures value { result ≡ code_of self }
        ensures range { result < 14 }
    {
        match self {
            NpError::NoError => 0,
            NpError::Generic => 1,
            NpError::InvalidInstance => 2,
            NpError::InvalidFunctable => 3,
            NpError::ModuleLoadFailed => 4,
            NpError::OutOfMemory => 5,
            NpError::InvalidPlugin => 6,
            NpError::InvalidPluginDir => 7,
            NpError::IncompatibleVersion => 8,
            NpError::InvalidParam => 9,
            NpError::InvalidUrl => 10,
            NpError::FileNotFound => 11,
            NpError::NoData => 12,
            NpError::StreamNotSeekable => 13,
        }
    }

    /// The error with this number; `None` above 13, for numbers that no call between host and plug-in
    /// answers.
    pub fn from_code(code: u16) -> Option<NpError>
        ensures value { result ≡ error_of code }
        ensures inverse { IfSome result (λ error. code_of error ≡ code) }
        ensures none { result ≡ None ↔ 13 < code }
    {
        match code {
            0 => Some(NpError::NoError),
            1 => Some(NpError::Generic),
            2 => Some(NpError::InvalidInstance),
            3 => Some(NpError::InvalidFunctable),
            4 => Some(NpError::ModuleLoadFailed),
            5 => Some(NpError::OutOfMemory),
            6 => Some(NpError::InvalidPlugin),
            7 => Some(NpError::InvalidPluginDir),
            8 => Some(NpError::IncompatibleVersion),
            9 => Some(NpError::InvalidParam),
            10 => Some(NpError::InvalidUrl),
            11 => Some(NpError::FileNotFound),
            12 => Some(NpError::NoData),
            13 => Some(NpError::StreamNotSeekable),
            _ => None,
        }
    }
}
