//! What ends serving.
use byte_streams::StreamFault;
use std::alloc::AllocError;
use std::io;

/// What ends serving.
#[derive(Clone, Copy, Debug, PartialEq, Eq)]
pub enum ServeFault {
    /// A port can't be had, or connections can't be accepted any more.
    NetFailed,
    /// The stream that was served ended so.
    Stream(StreamFault),
}

impl From<io::Error> for ServeFault {
    ghost use Rattle.std.specs.Prelude.{◌≡◌};
    ghost use Rattle.http_sockets.specs.declared.fault.ServeFault.TheVariants.{NetFailed};

    ghost from_gives = { λ _ result. result ≡ NetFailed };

    fn from(_error: io::Error) -> ServeFault {
        ServeFault::NetFailed
    }
}

impl From<StreamFault> for ServeFault {
    ghost use Rattle.std.specs.Prelude.{◌≡◌};
    ghost use Rattle.http_sockets.specs.declared.fault.ServeFault.TheVariants.{Stream};

    ghost from_gives = { λ fault result. result ≡ Stream fault };

    fn from(fault: StreamFault) -> ServeFault {
        ServeFault::Stream(fault)
    }
}

impl From<AllocError> for ServeFault {
    ghost use Rattle.std.specs.Prelude.{◌≡◌};
    ghost use Rattle.byte_streams.specs.declared.fault.StreamFault.TheVariants.{NoMemory};
    ghost use Rattle.http_sockets.specs.declared.fault.ServeFault.TheVariants.{Stream};

    ghost from_gives = { λ _ result. result ≡ Stream NoMemory };

    fn from(_error: AllocError) -> ServeFault {
        ServeFault::Stream(StreamFault::NoMemory)
    }
}

/// Why a service that goes on until it is stopped has ended by itself.
#[derive(Clone, Copy, PartialEq, Eq)]
pub enum ServiceEnd {
    /// The store failed, and the book is closed.
    StoreFailed,
    /// No connection could be accepted any more.
    NetFailed,
    /// 2^64 - 1 connections were served.
    AllServed,
}
