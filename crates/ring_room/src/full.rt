//! Where a seat goes when no device outside its partition has room.
ghost use Rattle.std.specs.Prelude.{◌≡◌, ◌<◌, ◌≤◌, ℕ, true, false, All, count_by, length};
ghost use Rattle.std.specs.Prelude.{IfSome, IfNone, None};
ghost use Rattle.ring_words.specs.Limits.{most_replicas};
ghost use Rattle.ring_share.specs.Crowd.{is_outside};
ghost use Rattle.ring_share.specs.Room.{has_open};
ghost use Rattle.ring_share.specs.Want.{is_open as is_open_device};
ghost use Rattle.ring_room.specs.Inner.Places.{IsOpenPlace};
ghost use Rattle.ring_room.specs.Places.{id_at, seats_at};
ghost use Rattle.ring_room.specs.Search.{better_open, is_better_place, is_open_outside, open_place};
ghost use Rattle.ring_room.specs.Search.{surplus_at, wins};

use crate::rooms::Room;
use crate::tiers::is_less;
use ring_share::is_open;

impl Room {
    /// How many more seats the device at a place has than it wants, 0 where it has no more.
    fn surplus_at(&self, place: usize) -> u32
        requires { place < length self.now.devices }
        ensures { result ≡ surplus_at self.now place }
    {
        self.counts[place].saturating_sub(self.wanted[place])
    }

    /// Whether the device at a place is open and isn't among those at `others`.
    fn is_open_outside(&self, others: &[usize], place: usize) -> bool
        requires others { All (λ other. other < length self.now.devices) others.now }
        requires place { place < length self.now.devices }
        ensures { result ≡ is_open_outside self.now.devices (seats_at self.now.devices others.now)
            place }
    {
        is_open(&self.devices[place]) && !others.contains(&place)
    }

    /// Whether the device at one place is better for a seat than that at another: it is less
    /// crowded or, among equals, has fewer seats above its want.
    fn is_better_place(&self, others: &[usize], one: usize, other: usize) -> bool
        requires others { All (λ other. other < length self.now.devices) others.now }
        requires few { length others.now ≤ most_replicas }
        requires one { one < length self.now.devices }
        requires other { other < length self.now.devices }
        ensures { result ≡ is_better_place self.now (seats_at self.now.devices others.now) one other }
    {
        let crowd = self.crowd_at(others, one);
        let other_crowd = self.crowd_at(others, other);
        is_less(crowd, other_crowd)
            || (!is_less(other_crowd, crowd) && self.surplus_at(one) < self.surplus_at(other))
    }

    /// Whether the device at a place is better than the best so far, if there is one.
    fn wins(&self, others: &[usize], place: usize, best: Option<usize>) -> bool
        requires others { All (λ other. other < length self.now.devices) others.now }
        requires few { length others.now ≤ most_replicas }
        requires place { place < length self.now.devices }
        requires best { IfSome best (λ best. best < length self.now.devices) }
        ensures by_name { result ≡ wins self.now (seats_at self.now.devices others.now) place best }
        ensures none { IfNone best (result ≡ true) }
    {
        match best {
            None => true,
            Some(other) => self.is_better_place(others, place, other),
        }
    }

    /// The best so far, or the device at a place if it is open, outside and better.
    fn better_open(&self, others: &[usize], place: usize, best: Option<usize>) -> Option<usize>
        requires others { All (λ other. other < length self.now.devices) others.now }
        requires few { length others.now ≤ most_replicas }
        requires place { place < length self.now.devices }
        requires best { IfSome best (IsOpenPlace self.now.devices (seats_at self.now.devices
            others.now)) }
        ensures by_name { result ≡ better_open self.now (seats_at self.now.devices others.now) place
            best }
        ensures opens { IfSome result (IsOpenPlace self.now.devices (seats_at self.now.devices
            others.now)) }
        ensures none { IfNone result ((best ≡ None) × (is_open_outside self.now.devices
            (seats_at self.now.devices others.now) place ≡ false)) }
    {
        if self.is_open_outside(others, place) && self.wins(others, place, best) {
            Some(place)
        } else {
            best
        }
    }

    /// The place of an open device that isn't among those at `others`, which are fewer than open
    /// devices: one that is least crowded for a seat whose other seats are on those at `others`
    /// and, among equals, has the fewest seats above its want.
    #[tactic(auto, using(crate::proofs::Steps::steps_none))]
    pub fn least_open(&self, others: &[usize]) -> usize
        requires others { All (λ other. other < length self.now.devices) others.now }
        requires few { length others.now ≤ most_replicas }
        requires fewer { length others.now < count_by is_open_device self.now.devices }
        ensures within { result < length self.now.devices }
        ensures takes_seats { has_open (id_at self.now.devices result) self.now.devices ≡ true }
        ensures outside { is_outside (seats_at self.now.devices others.now)
            (id_at self.now.devices result) ≡ true }
        ensures by_name { result ≡ open_place self.now (seats_at self.now.devices others.now) }
    {
        let mut best = None;
        for place in 0..self.devices.len() {
            best = self.better_open(others, place, best);
        }
        let Some(best) = best else {
            prove!(false);
            return 0;
        };
        best
    }
}
