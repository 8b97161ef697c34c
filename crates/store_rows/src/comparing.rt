//! Rows of the store beside rows that stand for rings.
ghost use Rattle.std.specs.Prelude.{◌≡◌, ◌↔◌, IsTrue};
ghost use Rattle.std.specs.List.{AllZip};
ghost use Rattle.store_model.specs.Contents.{device_of, moved_of, part_of, published_of};
ghost use Rattle.store_model.specs.Contents.{ring_of, seat_of};

use store_model::{DeviceRow, MovedRow, PartRow, PublishedRow, RingRow, SeatRow};

/// A row that can be compared with another.
pub(crate) trait Comparable {
    /// The two stand for the same.
    ghost is_alike: { Self → Self → Type 0 };

    /// Whether the two stand for the same.
    fn is_alike(&self, other: &Self) -> bool
        ensures { IsTrue result ↔ is_alike self.now other.now };
}

impl Comparable for RingRow {
    ghost is_alike = { λ a b. ring_of a ≡ ring_of b };

    fn is_alike(&self, other: &RingRow) -> bool {
        self.name == other.name
            && self.power == other.power
            && self.replicas == other.replicas
            && self.min_hours == other.min_hours
            && self.next_id == other.next_id
            && self.version == other.version
    }
}

impl Comparable for DeviceRow {
    ghost is_alike = { λ a b. device_of a ≡ device_of b };

    fn is_alike(&self, other: &DeviceRow) -> bool {
        self.ring == other.ring
            && self.id == other.id
            && self.region == other.region
            && self.zone == other.zone
            && self.address == other.address
            && self.port == other.port
            && self.name == other.name
            && self.weight == other.weight
            && self.removed == other.removed
    }
}

impl Comparable for PartRow {
    ghost is_alike = { λ a b. part_of a ≡ part_of b };

    fn is_alike(&self, other: &PartRow) -> bool {
        self.ring == other.ring
            && self.part == other.part
            && self.devices == other.devices
            && self.hour == other.hour
    }
}

impl Comparable for PublishedRow {
    ghost is_alike = { λ a b. published_of a ≡ published_of b };

    fn is_alike(&self, other: &PublishedRow) -> bool {
        self.ring == other.ring && self.version == other.version && self.body == other.body
    }
}

impl Comparable for SeatRow {
    ghost is_alike = { λ a b. seat_of a ≡ seat_of b };

    fn is_alike(&self, other: &SeatRow) -> bool {
        self.ring == other.ring
            && self.part == other.part
            && self.replica == other.replica
            && self.device == other.device
    }
}

impl Comparable for MovedRow {
    ghost is_alike = { λ a b. moved_of a ≡ moved_of b };

    fn is_alike(&self, other: &MovedRow) -> bool {
        self.ring == other.ring && self.part == other.part && self.hour == other.hour
    }
}

/// Whether rows stand for the same as others, each for the same as the other at its place.
pub(crate) fn are_alike<T: Comparable>(some: &[T], others: &[T]) -> bool
    ensures { IsTrue result ↔ AllZip T.is_alike some.now others.now }
{
    if some.len() != others.len() {
        return false;
    }
    for (place, row) in some.iter().enumerate() {
        if !row.is_alike(&others[place]) {
            return false;
        }
    }
    true
}
