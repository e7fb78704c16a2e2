use std::alloc::AllocError;
use thiserror::Error;

/// Why references can't be taken back or taken up, or that memory ran out.
#[derive(Clone, Copy, Debug, PartialEq, Eq, Error)]
pub enum ProxyError {
    /// No reference to the object is out.
    #[error("Unknown {instance} {serial}")]
    Unknown { instance: u8, serial: u32 },
    /// More references are released than are out.
    #[error("TooMany {times} {out}")]
    TooMany { times: u32, out: u64 },
    /// More references to the object came than can be counted.
    #[error("CountFull {instance} {serial}")]
    CountFull { instance: u8, serial: u32 },
    #[error("NoMemory")]
    NoMemory,
}

impl From<AllocError> for ProxyError {
    ghost use Rattle.std.specs.Prelude.{◌≡◌};
    ghost use Rattle.np_proxy.specs.declared.error.ProxyError.TheVariants.{NoMemory as of_memory};

    ghost from_gives = { λ _ e. e ≡ of_memory };

    fn from(_: AllocError) -> Self {
        ProxyError::NoMemory
    }
}
