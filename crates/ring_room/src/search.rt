//! The search of a room for a device that is least crowded for a seat.
ghost use Rattle.std.specs.Prelude.{◌≡◌, ◌<◌, ◌≤◌, ◌+◌, ℕ, true, false, All, length, slice_index};
ghost use Rattle.ring_words.specs.Limits.{most_replicas};
ghost use Rattle.std.specs.Prelude.{IfSome, IfNone, List, Option, if◌then◌else◌};
ghost use Rattle.std.specs.List.{list_any};
ghost use Rattle.ring_model.specs.Ring.{has_device};
ghost use Rattle.ring_room.specs.Free.{AreUncrowded, has_free_in};
ghost use Rattle.ring_room.specs.Rows.{AreKnown, devices_on as devices_on_row, is_empty};
ghost use Rattle.ring_room.specs.Load.{IsLoad, IsLeast, crowd_in, has_room_in, is_free_in};
ghost use Rattle.ring_room.specs.Load.{seats_of};
ghost use Rattle.ring_room.specs.Cards.{shares_zone};
ghost use Rattle.ring_room.specs.Places.{id_at, place_after};
ghost use Rattle.ring_room.specs.Inner.Places.{IsBestSoFar, is_within};
ghost use Rattle.ring_room.specs.Places.{seats_at};
ghost use Rattle.ring_room.specs.Search.{best_of_all, better_of, least_place, roomy_places};
ghost use Rattle.std.specs.Prelude.{nat_lt, take};
ghost use Rattle.ring_room.specs.Inner.Lists.{IsFloor};
ghost use Rattle.ring_room.specs.Inner.TierCounts.{IsCounted};
ghost use Rattle.ring_share.specs.Crowd.{tiers_of};
ghost use Rattle.ring_share.specs.Tiers.{AreTier};
ghost use Rattle.ring_share.specs.declared.tiers.Tier.TheVariants.{Region};

use crate::rooms::Room;
use crate::rows::devices_on;
use crate::tier_counts::TierCounts;
use crate::tiers::{Crowd, cut, is_less, lesser};
use ring_share::{Tier, stand_apart};
use ring_words::{DeviceId, MOST_REPLICAS};

/// After so many steps a search looks for a floor down to zones and servers.
const STEPS_BY_REGIONS: usize = 3;

/// The place so many steps after another, where the first place comes after the last.
pub(crate) fn place_after(count: usize, start: usize, step: usize) -> usize
    requires start { start < count }
    requires step { step < count }
    ensures value { result ≡ place_after count start step }
    ensures within { result < count }
{
    let before_end = count - start;
    if step < before_end {
        start + step
    } else {
        step - before_end
    }
}

/// Whether a device is found that is no more crowded than this.
fn is_within(best: Option<(usize, Crowd)>, floor: Crowd) -> bool
    ensures { result ≡ is_within best floor }
{
    match best {
        None => false,
        Some(found) => !is_less(floor, found.1),
    }
}

impl Room {
    /// Whether the device at a place has room and isn't among those at these places.
    pub fn is_free_at(&self, others: &[usize], place: usize) -> bool
        requires others { All (λ other. other < length self.now.devices) others.now }
        requires place { place < length self.now.devices }
        ensures { result ≡ is_free_in self.now (seats_at self.now.devices others.now)
            (id_at self.now.devices place) }
    {
        self.has_room_at(place) && !others.contains(&place)
    }

    /// What a seat on the device at one place adds to the crowd of the one at another: 1 for each
    /// tier that they share.
    pub(crate) fn shares_at(&self, place: usize, other: usize) -> Crowd
        requires place { place < length self.now.devices }
        requires other { other < length self.now.devices }
        ensures region { result.0 ≡ (if (tiers_of self.now.devices).region
            (id_at self.now.devices place) (id_at self.now.devices other) then 1 else 0) }
        ensures zone { result.1 ≡ (if (tiers_of self.now.devices).zone
            (id_at self.now.devices place) (id_at self.now.devices other) then 1 else 0) }
        ensures server { result.2 ≡ (if (tiers_of self.now.devices).server
            (id_at self.now.devices place) (id_at self.now.devices other) then 1 else 0) }
    {
        (
            u32::from(self.in_region[place] == self.in_region[other]),
            u32::from(self.in_zone[place] == self.in_zone[other]),
            u32::from(self.in_server[place] == self.in_server[other]),
        )
    }

    /// Whether the devices at two places share a zone.
    pub fn shares_zone(&self, place: usize, other: usize) -> bool
        requires place { place < length self.now.devices }
        requires other { other < length self.now.devices }
        ensures { result ≡ shares_zone self.now place other }
    {
        self.shares_at(place, other).1 == 1
    }

    /// How crowded the device at a place is for a seat whose other seats are on the devices at
    /// these places.
    pub fn crowd_at(&self, others: &[usize], place: usize) -> Crowd
        requires others { All (λ other. other < length self.now.devices) others.now }
        requires few { length others.now ≤ most_replicas }
        requires place { place < length self.now.devices }
        ensures { result ≡ crowd_in self.now (seats_at self.now.devices others.now)
            (id_at self.now.devices place) }
    {
        let mut crowd = (0, 0, 0);
        for other in others {
            let more = self.shares_at(place, *other);
            crowd = (crowd.0 + more.0, crowd.1 + more.1, crowd.2 + more.2);
        }
        crowd
    }

    /// The places of the devices of a partition's seats that aren't empty, by replica, and how many
    /// they are. What stands behind them is left over.
    pub fn places_on(&self, row: &[Option<DeviceId>]) -> ([usize; MOST_REPLICAS], usize)
        requires row { AreKnown self.now.devices row.now }
        requires few { length row.now ≤ most_replicas }
        ensures long { length result.0 ≡ most_replicas }
        ensures few { result.1 ≤ most_replicas }
        ensures within { All (λ place. place < length self.now.devices) (take result.1 result.0) }
        ensures by_name { seats_at self.now.devices (take result.1 result.0) ≡ seats_of
            (devices_on_row row.now) }
    {
        let mut places = [0; MOST_REPLICAS];
        let mut count = 0;
        for seat in row {
            if let Some(id) = *seat {
                places[count] = self.place_of(id);
                count += 1;
            }
        }
        (places, count)
    }

    /// Whether it shows at a glance that no device outside a partition with room is less crowded
    /// for any of its seats, none of which is empty.
    pub fn is_calm(&self, row: &[Option<DeviceId>]) -> bool
        requires row { AreKnown self.now.devices row.now }
        requires few { length row.now ≤ most_replicas }
        requires full { list_any is_empty row.now ≡ false }
        ensures { result ≡ true → AreUncrowded self.now row.now }
    {
        if self.count == 0 {
            return true;
        }
        let (ids, count) = devices_on(row);
        let ids = &ids[..count];
        stand_apart(
            &self.devices,
            &self.regions,
            &self.in_region,
            &self.in_zone,
            ids,
        )
    }

    /// Whether some device has room. Else none is free for any seat.
    pub fn has_some_room(&self) -> bool
        ensures none { result ≡ false → (row : List (Option ℕ)) (id : ℕ) →
            is_free_in self.now row id ≡ false }
        ensures by_name { result ≡ nat_lt 0 (length (roomy_places self.now)) }
    {
        if self.count == 0 {
            return false;
        }
        true
    }

    /// Whether some device that isn't among `others` has room.
    pub fn has_room_outside(&self, others: &[DeviceId]) -> bool
        ensures { result ≡ has_free_in self.now (seats_of others.now) }
    {
        for place in &self.roomy[..self.count] {
            if !others.contains(&self.devices[*place].id) {
                return true;
            }
        }
        false
    }

    /// The place of a device with room that isn't among those at `others`, at most five, and than
    /// which no other such device is less crowded for a seat whose other seats are on those at
    /// `others`. `None` exactly where no device outside has room. Of several such devices the draw
    /// takes one.
    pub fn least_at(&self, others: &[usize], draw: u32) -> Option<usize>
        requires others { All (λ other. other < length self.now.devices) others.now }
        requires few { length others.now ≤ most_replicas }
        ensures within { IfSome result (λ place. place < length self.now.devices) }
        ensures found { IfSome result (λ place. IsLeast self.now
            (seats_at self.now.devices others.now) (id_at self.now.devices place)) }
        ensures none { IfNone result ((id : ℕ) → is_free_in self.now
            (seats_at self.now.devices others.now) id ≡ false) }
        ensures value { result ≡ least_place self.now (seats_at self.now.devices others.now) draw }
    {
        if self.count == 0 {
            return None;
        }
        let mut counts = TierCounts::none();
        self.count_tiers(others, &mut counts);
        let floor = self.floor_for(others, &counts);
        let start = (draw % self.count as u32) as usize;
        let best = self.least_of(&self.roomy[..self.count], start, others, &counts, floor)?;
        Some(best.0)
    }

    /// How crowded open devices are at the least, by their regions alone, for a seat whose other
    /// seats are on the devices at these places.
    fn floor_for(&self, others: &[usize], counts: &TierCounts) -> Crowd
        requires others { All (λ other. other < length self.now.devices) others.now }
        requires few { length others.now ≤ most_replicas }
        requires counts { IsCounted self.now (seats_at self.now.devices others.now) counts.now }
        ensures { IsFloor self.now (seats_at self.now.devices others.now) result }
    {
        // some region has none of the others
        if others.len() < self.regions.len() {
            return (0, 0, 0);
        }
        self.region_floor(&self.regions, others, counts)
    }

    /// How crowded open devices are at the least, by their regions alone, for a seat whose other
    /// seats are on the devices at some places. `places` has one in each region.
    fn region_floor(&self, places: &[usize], others: &[usize], counts: &TierCounts) -> Crowd
        requires load { IsLoad self.now }
        requires tier { AreTier Region self.now.devices places.now }
        requires others { All (λ other. other < length self.now.devices) others.now }
        requires few { length others.now ≤ most_replicas }
        requires counts { IsCounted self.now (seats_at self.now.devices others.now) counts.now }
        ensures { IsFloor self.now (seats_at self.now.devices others.now) result }
    {
        // more than any has: a partition has at most five other seats
        let mut least = 6;
        for place in places {
            least = self.crowd_by(others, counts, *place).0.min(least);
        }
        (least, 0, 0)
    }

    /// How crowded open devices are at the least for a seat whose other seats are on the devices at
    /// these places.
    pub(crate) fn floor(&self, others: &[usize], counts: &TierCounts) -> Crowd
        requires others { All (λ other. other < length self.now.devices) others.now }
        requires few { length others.now ≤ most_replicas }
        requires counts { IsCounted self.now (seats_at self.now.devices others.now) counts.now }
        ensures { IsFloor self.now (seats_at self.now.devices others.now) result }
    {
        self.floor_after(
            STEPS_BY_REGIONS,
            others,
            counts,
            self.floor_for(others, counts),
        )
    }

    /// How crowded open devices are at the least, where it is known how crowded they are down to
    /// regions. Zones and servers are looked at once, in a search that takes some steps.
    fn floor_after(
        &self,
        steps: usize,
        others: &[usize],
        counts: &TierCounts,
        floor: Crowd,
    ) -> Crowd
        requires others { All (λ other. other < length self.now.devices) others.now }
        requires few { length others.now ≤ most_replicas }
        requires counts { IsCounted self.now (seats_at self.now.devices others.now) counts.now }
        requires floor { IsFloor self.now (seats_at self.now.devices others.now) floor }
        ensures { IsFloor self.now (seats_at self.now.devices others.now) result }
    {
        // where a region has none of the others it is as low as can be
        if steps != STEPS_BY_REGIONS || floor.0 == 0 {
            return floor;
        }
        let floor = self.floor_by(Tier::Zone, &self.zones, others, counts, floor);
        // in a zone that has none of the others no server has any
        if floor.1 == 0 {
            return floor;
        }
        self.floor_by(Tier::Server, &self.servers, others, counts, floor)
    }

    /// How crowded open devices are at the least, down to a tier, for a seat whose other seats are
    /// on the devices at these places. `places` has one in each tier of that kind. The search ends
    /// at the floor of a wider tier.
    fn floor_by(
        &self,
        tier: Tier,
        places: &[usize],
        others: &[usize],
        counts: &TierCounts,
        floor: Crowd,
    ) -> Crowd
        requires load { IsLoad self.now }
        requires tier { AreTier tier self.now.devices places.now }
        requires others { All (λ other. other < length self.now.devices) others.now }
        requires few { length others.now ≤ most_replicas }
        requires counts { IsCounted self.now (seats_at self.now.devices others.now) counts.now }
        requires floor { IsFloor self.now (seats_at self.now.devices others.now) floor }
        ensures { IsFloor self.now (seats_at self.now.devices others.now) result }
    {
        // more crowded than any: a partition has at most five other seats
        let mut least = (6, 6, 6);
        for place in places {
            let crowd = self.crowd_by(others, counts, *place);
            if !is_less(floor, crowd) {
                return cut(tier, crowd);
            }
            least = lesser(crowd, least);
        }
        cut(tier, least)
    }

    /// Of the devices at some places, each with room, the place of one outside than which no other
    /// is less crowded, and how crowded it is. The search begins at one of the places, and ends at
    /// a device than which no open device is less crowded by a floor. That by regions comes first,
    /// which mostly some device reaches.
    #[tactic(auto, using(crate::proofs::Searching::ByName::start_best, crate::proofs::Searching::ByName::more_best))]
    fn least_of(
        &self,
        places: &[usize],
        start: usize,
        others: &[usize],
        counts: &TierCounts,
        floor: Crowd,
    ) -> Option<(usize, Crowd)>
        requires load { IsLoad self.now }
        requires places { All (λ place. place < length self.now.devices) places.now }
        requires room { All (λ place. has_room_in self.now (id_at self.now.devices place) ≡ true)
            places.now }
        requires start { start < length places.now }
        requires others { All (λ other. other < length self.now.devices) others.now }
        requires few { length others.now ≤ most_replicas }
        requires counts { IsCounted self.now (seats_at self.now.devices others.now) counts.now }
        requires floor { IsFloor self.now (seats_at self.now.devices others.now) floor }
        ensures best { IsBestSoFar places.now start (length places.now) self.now
            (seats_at self.now.devices others.now) result }
        ensures start { start < length places.now }
        ensures value { result ≡ best_of_all self.now (seats_at self.now.devices others.now)
            places.now start }
    {
        let mut known = floor;
        let mut best = None;
        for step in 0..places.len() {
            known = self.floor_after(step, others, counts, known);
            best = self.better(places, start, step, others, counts, best);
            if is_within(best, known) {
                return best;
            }
        }
        best
    }

    /// The place at a step if the device there, which has room, is outside and less crowded than
    /// the best before it, else that one, with how crowded it is.
    fn better(
        &self,
        places: &[usize],
        start: usize,
        step: usize,
        others: &[usize],
        counts: &TierCounts,
        best: Option<(usize, Crowd)>,
    ) -> Option<(usize, Crowd)>
        requires load { IsLoad self.now }
        requires places { All (λ place. place < length self.now.devices) places.now }
        requires room { All (λ place. has_room_in self.now (id_at self.now.devices place) ≡ true)
            places.now }
        requires start { start < length places.now }
        requires step { step < length places.now }
        requires others { All (λ other. other < length self.now.devices) others.now }
        requires few { length others.now ≤ most_replicas }
        requires counts { IsCounted self.now (seats_at self.now.devices others.now) counts.now }
        requires best { IsBestSoFar places.now start step self.now (seats_at self.now.devices
            others.now) best }
        ensures best { IsBestSoFar places.now start (step + 1) self.now (seats_at self.now.devices
            others.now) result }
        ensures value { result ≡ better_of self.now (seats_at self.now.devices others.now)
            (slice_index places.now (place_after (length places.now) start step)) best }
    {
        let place = places[place_after(places.len(), start, step)];
        if others.contains(&place) {
            return best;
        }
        let crowd = self.crowd_by(others, counts, place);
        match best {
            None => Some((place, crowd)),
            Some(other) => {
                if is_less(crowd, other.1) {
                    Some((place, crowd))
                } else {
                    best
                }
            }
        }
    }
}
