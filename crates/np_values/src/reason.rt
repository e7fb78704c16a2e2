ghost use Rattle.std.specs.Prelude.{◌≡◌, ◌<◌, ◌↔◌, IfSome, None};
ghost use Rattle.np_values.specs.NpReason.{reason_code, reason_of};

/// Why a stream or a URL request ended. (npapi.h, NPReason.)
#[derive(Clone, Copy, Debug, PartialEq, Eq)]
pub enum NpReason {
    Done,
    NetworkErr,
    UserBreak,
}

impl NpReason {
    /// The number that npapi.h gives the reason, 0 to 2.
    pub fn code(self) -> u16
        ensures value { result ≡ reason_code self }
        ensures range { result < 3 }
    {
        match self {
            NpReason::Done => 0,
            NpReason::NetworkErr => 1,
            NpReason::UserBreak => 2,
        }
    }

    /// The reason with this number; `None` above 2.
    pub fn from_code(code: u16) -> Option<NpReason>
        ensures value { result ≡ reason_of code }
        ensures inverse { IfSome result (λ reason. reason_code reason ≡ code) }
        ensures none { result ≡ None ↔ 2 < code }
    {
        match code {
            0 => Some(NpReason::Done),
            1 => Some(NpReason::NetworkErr),
            2 => Some(NpReason::UserBreak),
            _ => None,
        }
    }
}
