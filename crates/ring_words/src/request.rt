//! Numbered requests as they come, and the bounds on what is kept.
ghost use Rattle.std.specs.Prelude.{◌≡◌, ◌≤◌};
ghost use Rattle.ring_words.specs.Limits.{most_devices, most_ids, most_numbers, most_rings};
ghost use Rattle.ring_words.specs.Limits.{most_versions};

use crate::name::Caller;

/// A count of whole hours since 1970.
pub type Hour = u32;

/// Which request it is: the caller, and that caller's number for it.
#[derive(Clone, PartialEq, Eq, PartialOrd, Ord, Drop)]
pub struct Key {
    /// Who asks.
    pub caller: Caller,
    /// The caller's number of the request.
    pub number: u32,
}

/// A numbered request as it comes, perhaps not for the first time.
#[derive(Drop)]
pub struct Delivery<C> {
    /// The hour at which it comes.
    pub hour: Hour,
    /// Which request it is.
    pub key: Key,
    /// What it asks for.
    pub command: C,
}

/// How many rings are kept at most.
pub const MOST_RINGS: usize = 16;

/// How many devices a ring has at most.
pub const MOST_DEVICES: usize = 256;

/// How many numbers a ring gives to devices at most.
pub const MOST_IDS: usize = 65536;

/// How many published versions a ring keeps at most.
pub const MOST_VERSIONS: usize = 1000;

/// How many numbers of callers a file keeps at most, with their replies.
pub const MOST_NUMBERS: usize = 100_000;

/// How much is kept at most. Tests take small limits, a service those of [`Limits::full`].
#[derive(Clone, Copy, PartialEq, Eq)]
pub struct Limits {
    /// Rings, at most [`MOST_RINGS`].
    pub rings: u32,
    /// Devices of a ring, those that are marked to be removed counted, at most [`MOST_DEVICES`].
    pub devices: u32,
    /// Numbers that a ring gives to devices, at most [`MOST_IDS`].
    pub ids: u32,
    /// Published versions of a ring, at most [`MOST_VERSIONS`].
    pub versions: u32,
    /// Numbers of callers that are kept with their replies, at most [`MOST_NUMBERS`].
    pub numbers: u32,
    pub ghost rings_within: { rings ≤ most_rings },
    pub ghost devices_within: { devices ≤ most_devices },
    pub ghost ids_within: { ids ≤ most_ids },
    pub ghost versions_within: { versions ≤ most_versions },
    pub ghost numbers_within: { numbers ≤ most_numbers },
}

impl Limits {
    /// The limits of a service, which are the greatest that there are.
    pub fn full() -> Limits
        ensures rings { result.rings ≡ most_rings }
        ensures devices { result.devices ≡ most_devices }
        ensures ids { result.ids ≡ most_ids }
        ensures versions { result.versions ≡ most_versions }
        ensures numbers { result.numbers ≡ most_numbers }
    {
        Limits {
            rings: MOST_RINGS as u32,
            devices: MOST_DEVICES as u32,
            ids: MOST_IDS as u32,
            versions: MOST_VERSIONS as u32,
            numbers: MOST_NUMBERS as u32,
        }
    }
}
