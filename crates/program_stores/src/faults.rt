//! Why a program ends without doing what was asked of it.
ghost use Rattle.std.specs.Prelude.{◌≡◌};
ghost use Rattle.program_stores.specs.Faults.{form_fault, found_fault, hidden_fault, keep_fault};
ghost use Rattle.program_stores.specs.Faults.{stream_fault};
ghost use Rattle.program_stores.specs.declared.faults.ProgramFault.TheVariants.{NoMemory};

use byte_streams::StreamFault;
use request_book::KeepFault;
use ring_founding::FoundFault;
use ring_reads::Hidden;
use ring_words::SpellingFault;
use std::alloc::AllocError;

/// Why a program ends without doing what was asked of it.
#[derive(Clone, Copy, PartialEq, Eq)]
pub enum ProgramFault {
    /// There is no ring of the name.
    NoRing,
    /// Two rings that are to be in one store have one name.
    RingExists,
    /// More rings are to be in a store than there may be.
    TooManyRings,
    /// Fewer devices of the ring are open than each partition has replicas.
    TooFewDevices,
    /// No seat of the ring is taken.
    NotAssigned,
    /// A name or a number among the words isn't of its form.
    Unreadable,
    /// A growth of memory was refused.
    NoMemory,
    /// The store can't be opened or made, or it failed.
    StoreFault,
    /// The file holds no store.
    BadStore,
    /// A file that is to be read can't be opened.
    NoFile,
    /// A port can't be had, or connections can't be accepted any more.
    NetFailed,
    /// A file that is to be read has more bytes than it may.
    TooLong,
    /// The names make no path.
    BadPath,
    /// A file that is to hold the text of a ring holds none.
    BadText,
    /// The ring has no text that is published under the version.
    NoVersion,
    /// The clock is more than 24 hours ahead of the greatest hour that the store keeps.
    ClockAhead,
    /// A stream couldn't be read.
    ReadFailed,
    /// A stream couldn't be written.
    WriteFailed,
}

impl From<AllocError> for ProgramFault {
    ghost from_gives = { λ _ fault. fault ≡ NoMemory };

    fn from(_refused: AllocError) -> ProgramFault {
        ProgramFault::NoMemory
    }
}

impl From<SpellingFault> for ProgramFault {
    ghost from_gives = { λ cause fault. fault ≡ form_fault cause };

    fn from(fault: SpellingFault) -> ProgramFault {
        match fault {
            SpellingFault::Bad => ProgramFault::Unreadable,
            SpellingFault::NoMemory => ProgramFault::NoMemory,
        }
    }
}

impl From<KeepFault> for ProgramFault {
    ghost from_gives = { λ cause fault. fault ≡ keep_fault cause };

    fn from(fault: KeepFault) -> ProgramFault {
        match fault {
            KeepFault::NoMemory => ProgramFault::NoMemory,
            KeepFault::Store => ProgramFault::StoreFault,
        }
    }
}

impl From<StreamFault> for ProgramFault {
    ghost from_gives = { λ cause fault. fault ≡ stream_fault cause };

    fn from(fault: StreamFault) -> ProgramFault {
        match fault {
            StreamFault::ReadFailed => ProgramFault::ReadFailed,
            StreamFault::WriteFailed => ProgramFault::WriteFailed,
            StreamFault::NoMemory => ProgramFault::NoMemory,
        }
    }
}

impl From<FoundFault> for ProgramFault {
    ghost from_gives = { λ cause fault. fault ≡ found_fault cause };

    fn from(fault: FoundFault) -> ProgramFault {
        match fault {
            FoundFault::RingExists => ProgramFault::RingExists,
            FoundFault::TooManyRings => ProgramFault::TooManyRings,
            FoundFault::NoMemory => ProgramFault::NoMemory,
        }
    }
}

impl From<Hidden> for ProgramFault {
    ghost from_gives = { λ why fault. fault ≡ hidden_fault why };

    fn from(why: Hidden) -> ProgramFault {
        match why {
            Hidden::NoRing => ProgramFault::NoRing,
            Hidden::NotAssigned => ProgramFault::NotAssigned,
            Hidden::NoVersion => ProgramFault::NoVersion,
            Hidden::BadText => ProgramFault::BadStore,
            Hidden::TooFewDevices => ProgramFault::TooFewDevices,
            Hidden::NoMemory => ProgramFault::NoMemory,
        }
    }
}
