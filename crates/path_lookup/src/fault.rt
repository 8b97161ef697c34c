//! Why a lookup is refused.
ghost use Rattle.std.specs.Prelude.{◌≡◌};
ghost use Rattle.path_lookup.specs.declared.fault.PathFault.TheVariants as path;
ghost use Rattle.path_lookup.specs.declared.fault.NodesFault.TheVariants as nodes;

use std::alloc::AllocError;

/// Why names aren't made a path.
#[derive(Clone, Copy, Debug, PartialEq, Eq)]
pub enum PathFault {
    /// They aren't of the form of a path's names.
    BadPath,
    /// A growth of memory was refused.
    NoMemory,
}

impl From<AllocError> for PathFault {
    ghost from_gives = { λ _ fault. fault ≡ path.NoMemory };

    fn from(_refused: AllocError) -> PathFault {
        PathFault::NoMemory
    }
}

/// Why the devices of a partition aren't told.
#[derive(Clone, Copy, Debug, PartialEq, Eq)]
pub enum NodesFault {
    /// No seat of the ring is taken.
    NotAssigned,
    /// A growth of memory was refused.
    NoMemory,
}

impl From<AllocError> for NodesFault {
    ghost from_gives = { λ _ fault. fault ≡ nodes.NoMemory };

    fn from(_refused: AllocError) -> NodesFault {
        NodesFault::NoMemory
    }
}
