//! How many of a partition's other seats are in each region and in each zone.
ghost use Rattle.std.specs.Prelude.{◌≡◌, ◌==◌, ◌<◌, ◌≤◌, ◌+◌, ℕ, All, length, slice_index, if◌then◌else◌};
ghost use Rattle.ring_words.specs.Limits.{most_devices, most_replicas};
ghost use Rattle.ring_room.specs.Inner.TierCounts.{IsCounted, places_with};
ghost use Rattle.ring_room.specs.Load.{crowd_in};
ghost use Rattle.ring_room.specs.Places.{id_at, seats_at};

use crate::rooms::Room;
use crate::tiers::Crowd;
use ring_words::MOST_DEVICES;

/// By the number that tells a region, and by the one that tells a zone, how many of a partition's
/// other seats are there.
#[derive(Drop)]
pub(crate) struct TierCounts {
    by_region: [u8; MOST_DEVICES],
    by_zone: [u8; MOST_DEVICES],
}

fn no_counts<const N: usize>() -> [u8; N]
    ensures zero { (k : ℕ) → slice_index result k ≡ 0 }
    ensures long { length result ≡ N }
{
    [0; N]
}

impl TierCounts {
    /// None is counted yet.
    pub(crate) fn none() -> TierCounts
        ensures regions { (code : ℕ) → slice_index result.by_region code ≡ 0 }
        ensures zones { (code : ℕ) → slice_index result.by_zone code ≡ 0 }
    {
        TierCounts {
            by_region: no_counts(),
            by_zone: no_counts(),
        }
    }
}

/// Counts one more with a number.
fn count_one(counts: &mut [u8; MOST_DEVICES], code: u8)
    requires { slice_index counts.old code < 255 }
    ensures { (other : ℕ) → slice_index counts.new other ≡ slice_index counts.old other +
        (if other == code then 1 else 0) }
{
    counts[usize::from(code)] += 1;
}

/// Counts how many of at most five places have each number of a region and of a zone.
fn count_places(
    counts: &mut TierCounts,
    regions: &[u8; MOST_DEVICES],
    zones: &[u8; MOST_DEVICES],
    places: &[usize],
)
    requires no_region { (code : ℕ) → slice_index counts.old.by_region code ≡ 0 }
    requires no_zone { (code : ℕ) → slice_index counts.old.by_zone code ≡ 0 }
    requires places { All (λ place. place < most_devices) places.now }
    requires few { length places.now ≤ most_replicas }
    ensures regions { (code : ℕ) → code < most_devices →
        slice_index counts.new.by_region code ≡ places_with regions.now places.now code }
    ensures zones { (code : ℕ) → code < most_devices →
        slice_index counts.new.by_zone code ≡ places_with zones.now places.now code }
{
    for place in places {
        count_one(&mut counts.by_region, regions[*place]);
        count_one(&mut counts.by_zone, zones[*place]);
    }
}

impl Room {
    /// Counts how many of a partition's other seats, which are on the devices at these places, are
    /// in each region and in each zone.
    pub(crate) fn count_tiers(&self, others: &[usize], counts: &mut TierCounts)
        requires others { All (λ other. other < length self.now.devices) others.now }
        requires few { length others.now ≤ most_replicas }
        requires no_region { (code : ℕ) → slice_index counts.old.by_region code ≡ 0 }
        requires no_zone { (code : ℕ) → slice_index counts.old.by_zone code ≡ 0 }
        ensures { IsCounted self.now (seats_at self.now.devices others.now) counts.new }
    {
        count_places(counts, &self.in_region, &self.in_zone, others);
    }

    /// How many of the devices at these places are on the server of the one at a place.
    fn on_server(&self, others: &[usize], place: usize) -> u32
        requires others { All (λ other. other < length self.now.devices) others.now }
        requires few { length others.now ≤ most_replicas }
        requires place { place < length self.now.devices }
        ensures { result ≡ (crowd_in self.now (seats_at self.now.devices others.now)
            (id_at self.now.devices place)).2 }
    {
        let mut count = 0;
        for other in others {
            count += self.shares_at(place, *other).2;
        }
        count
    }

    /// How crowded the device at a place is for a seat whose other seats are on the devices at these
    /// places, by how many of them are in each region and in each zone.
    pub(crate) fn crowd_by(&self, others: &[usize], counts: &TierCounts, place: usize) -> Crowd
        requires others { All (λ other. other < length self.now.devices) others.now }
        requires few { length others.now ≤ most_replicas }
        requires counts { IsCounted self.now (seats_at self.now.devices others.now) counts.now }
        requires place { place < length self.now.devices }
        ensures { result ≡ crowd_in self.now (seats_at self.now.devices others.now)
            (id_at self.now.devices place) }
    {
        let region = u32::from(counts.by_region[usize::from(self.in_region[place])]);
        let zone = u32::from(counts.by_zone[usize::from(self.in_zone[place])]);
        // in a zone that has none of the others no server has any
        if zone == 0 {
            return (region, 0, 0);
        }
        (region, zone, self.on_server(others, place))
    }
}
