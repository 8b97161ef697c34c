//! What ends a stream before its end.
ghost use Rattle.std.specs.Prelude.{◌≡◌, Some};
ghost use Rattle.byte_streams.specs.StreamFault.{fault_name};
ghost use Rattle.byte_streams.specs.declared.fault.StreamFault.TheVariants.{NoMemory};

use std::alloc::AllocError;
use std::error::Error;
use std::fmt;

/// What ends a stream before its end.
#[derive(Clone, Copy, Debug, PartialEq, Eq)]
pub enum StreamFault {
    /// The reader failed.
    ReadFailed,
    /// The writer failed.
    WriteFailed,
    /// The buffers found no memory. Nothing was read or written.
    NoMemory,
}

impl fmt::Display for StreamFault {
    ghost output = { λ fault. Some (fault_name fault) };

    fn fmt<W: fmt::Write>(&self, f: &mut fmt::Formatter<W>) -> fmt::Result {
        match self {
            StreamFault::ReadFailed => write!(f, "ReadFailed"),
            StreamFault::WriteFailed => write!(f, "WriteFailed"),
            StreamFault::NoMemory => write!(f, "NoMemory"),
        }
    }
}

impl Error for StreamFault {}

impl From<AllocError> for StreamFault {
    ghost from_gives = { λ _ fault. fault ≡ NoMemory };

    fn from(_error: AllocError) -> StreamFault {
        StreamFault::NoMemory
    }
}
