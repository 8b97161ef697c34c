//! Which seat of a partition leaves its device in a pass of gathering.
ghost use Rattle.std.specs.Prelude.{◌≡◌, ◌<◌, ◌≤◌, ◌⊎◌, ℕ, true, false, All, length, take, IfSome, IfNone};
ghost use Rattle.std.specs.Prelude.{Some, None, slice_get, if◌then◌else◌};
ghost use Rattle.std.specs.List.{list_any};
ghost use Rattle.std.specs.Option.{ForSome, option_map};
ghost use Rattle.ring_words.specs.Limits.{most_replicas};
ghost use Rattle.ring_model.specs.Ring.{has_device};
ghost use Rattle.ring_share.specs.Crowd.{others};
ghost use Rattle.ring_room.specs.Free.{is_crowded_in};
ghost use Rattle.ring_room.specs.Load.{is_free_in, seats_of};
ghost use Rattle.ring_room.specs.Places.{seats_at};
ghost use Rattle.ring_room.specs.Rows.{AreKnown, devices_on, is_empty};
ghost use Rattle.ring_place.specs.Inner.Gathering.{AreCalm, CanGoApart, CannotGoApart, IsGift, Lifts};
ghost use Rattle.ring_place.specs.Inner.Gathering.{IsWayOut, MayBeLifted, MustStay};
ghost use Rattle.ring_place.specs.Made.{beats, best_seat, crowd_apart, device_at, gift_of};
ghost use Rattle.ring_place.specs.Made.{first_place, has_beside, is_better, is_drained_in};
ghost use Rattle.ring_place.specs.Inner.Gathering.{is_idle_in};
ghost use Rattle.ring_place.specs.Made.{way_of, way_out, without};

use crate::gather::{Pass, has_free};
use crate::place::places_on;
use crate::seats::row_copy;
use ring_room::{Crowd, Room, is_less};
use ring_words::{DeviceId, MOST_REPLICAS};

/// A seat of a partition that may leave its device.
#[derive(Clone, Copy)]
pub(crate) struct Gift {
    pub(crate) replica: usize,
    pub(crate) device: DeviceId,
    /// How crowded the place is that it may go to, or (0, 0, 0) where the pass doesn't compare
    /// places.
    pub(crate) to: Crowd,
    /// How much its device keeps above its want.
    pub(crate) above: u32,
}

/// The places of the devices of a partition's seats without that of a replica, in any order, and
/// how many they are. What stands behind them is left over.
fn others_of(
    room: &Room,
    row: &[Option<DeviceId>],
    replica: usize,
) -> ([usize; MOST_REPLICAS], usize)
    requires row { AreKnown room.now.devices row.now }
    requires few { length row.now ≤ most_replicas }
    requires replica { replica < length row.now }
    ensures long { length result.0 ≡ most_replicas }
    ensures few { result.1 ≤ most_replicas }
    ensures within { All (λ place. place < length room.now.devices) (take result.1 result.0) }
    ensures by_name { seats_at room.now.devices (take result.1 result.0) ≡ seats_of (devices_on
        (others row.now replica)) }
{
    let (mut rest, count) = row_copy(row);
    rest[replica] = None;
    places_on(room, &rest[..count])
}

/// How crowded the least crowded device with room is that is outside a partition's other seats, of
/// which these are the places, if there is one.
fn find_way(room: &Room, others: &[usize]) -> Option<Crowd>
    requires others { All (λ other. other < length room.now.devices) others.now }
    requires few { length others.now ≤ most_replicas }
    ensures some { IfSome result (IsWayOut room.now (seats_at room.now.devices others.now)) }
    ensures none { IfNone result ((id : ℕ) → is_free_in room.now
        (seats_at room.now.devices others.now) id ≡ false) }
    ensures by_name { result ≡ way_out room.now (seats_at room.now.devices others.now) }
{
    let best = room.least_at(others, 0)?;
    Some(room.crowd_at(others, best))
}

/// Whether a device outside with room is less crowded than that of a seat.
fn has_less_crowded(room: &Room, row: &[Option<DeviceId>], replica: usize, device: DeviceId) -> bool
    requires row { AreKnown room.now.devices row.now }
    requires few { length row.now ≤ most_replicas }
    requires at { slice_get row.now replica ≡ Some (Some device) }
    ensures { result ≡ is_crowded_in room.now row.now replica device }
{
    let (places, count) = others_of(room, row, replica);
    let others = &places[..count];
    match find_way(room, others) {
        None => false,
        Some(to) => {
            let own = room.place_of(device);
            is_less(to, room.crowd_at(others, own))
        }
    }
}

/// How crowded the least crowded device with room is that is outside a partition's other seats, if
/// it is no more crowded than that of a seat.
fn find_apart(
    room: &Room,
    row: &[Option<DeviceId>],
    replica: usize,
    device: DeviceId,
) -> Option<Crowd>
    requires row { AreKnown room.now.devices row.now }
    requires few { length row.now ≤ most_replicas }
    requires at { slice_get row.now replica ≡ Some (Some device) }
    ensures some { IfSome result (λ to. CanGoApart room.now (others row.now replica) device) }
    ensures none { IfNone result (CannotGoApart room.now (others row.now replica) device) }
    ensures by_name { result ≡ crowd_apart room.now (others row.now replica) device }
{
    let (places, count) = others_of(room, row, replica);
    let others = &places[..count];
    let to = find_way(room, others)?;
    let own = room.place_of(device);
    if is_less(room.crowd_at(others, own), to) {
        None
    } else {
        Some(to)
    }
}

/// Whether the least crowded device with room that is outside a partition's other seats has at most
/// so many of them in its region and in its zone, added.
fn has_beside(room: &Room, row: &[Option<DeviceId>], replica: usize, most: u32) -> bool
    requires row { AreKnown room.now.devices row.now }
    requires few { length row.now ≤ most_replicas }
    requires replica { replica < length row.now }
    ensures { result ≡ has_beside room.now (others row.now replica) most }
{
    let (places, count) = others_of(room, row, replica);
    match find_way(room, &places[..count]) {
        None => false,
        Some(to) => u64::from(to.0) + u64::from(to.1) <= u64::from(most),
    }
}

/// Whether a seat is on a device that wants nothing.
fn is_idle(was: &Room, seat: Option<DeviceId>) -> bool
    requires seat { ForSome seat (λ id. has_device id was.now.devices ≡ true) }
    ensures { result ≡ is_idle_in was.now seat }
{
    match seat {
        None => false,
        Some(device) => was.wants_nothing(device),
    }
}

/// Whether a partition has such a seat.
fn has_idle(was: &Room, row: &[Option<DeviceId>]) -> bool
    requires row { AreKnown was.now.devices row.now }
    ensures { result ≡ list_any (is_idle_in was.now) row.now }
{
    for seat in row {
        if is_idle(was, *seat) {
            return true;
        }
    }
    false
}

/// Whether a device wants nothing, and some device outside a partition has room.
fn is_drained(was: &Room, row: &[Option<DeviceId>], device: DeviceId) -> bool
    requires row { AreKnown was.now.devices row.now }
    requires few { length row.now ≤ most_replicas }
    requires device { has_device device was.now.devices ≡ true }
    ensures { result ≡ is_drained_in was.now row.now device }
{
    is_idle(was, Some(device)) && has_free(was, row)
}

/// Whether a partition without empty seats may have some that leave in the first pass. Mostly it
/// shows at a glance that it has none.
pub(crate) fn may_leave(was: &Room, row: &[Option<DeviceId>]) -> bool
    requires row { AreKnown was.now.devices row.now }
    requires few { length row.now ≤ most_replicas }
    requires full { list_any is_empty row.now ≡ false }
    ensures { result ≡ false → AreCalm was.now row.now }
{
    !was.is_calm(row) || has_idle(was, row)
}

/// (0, 0, 0) for a seat on a device that wants nothing, which leaves before a crowded one in the
/// first pass, and (1, 0, 0) for that.
fn first_place(drained: bool, crowded: bool) -> Option<Crowd>
    ensures some { IfSome result (λ to. (drained ≡ true) ⊎ (crowded ≡ true)) }
    ensures none { IfNone result ((drained ≡ false) × (crowded ≡ false)) }
    ensures by_name { result ≡ first_place drained crowded }
{
    if drained {
        return Some((0, 0, 0));
    }
    if crowded { Some((1, 0, 0)) } else { None }
}

/// (0, 0, 0) for a seat that may leave its device whatever its place.
fn anywhere(may: bool) -> Option<Crowd>
    ensures { result ≡ (if may then Some (0, 0, 0) else None) }
{
    if may { Some((0, 0, 0)) } else { None }
}

/// How crowded the place is that a seat may leave its device for in a pass, if it may leave it. The
/// first pass has (0, 0, 0) and (1, 0, 0) for those that leave first and then, and another that
/// doesn't compare places (0, 0, 0).
fn way_of(
    pass: Pass,
    was: &Room,
    kept: &Room,
    row: &[Option<DeviceId>],
    replica: usize,
    device: DeviceId,
) -> Option<Crowd>
    requires same { kept.now.devices ≡ was.now.devices }
    requires row { AreKnown was.now.devices row.now }
    requires few { length row.now ≤ most_replicas }
    requires at { slice_get row.now replica ≡ Some (Some device) }
    ensures some { IfSome result (λ to. MayBeLifted pass was.now kept.now row.now replica device) }
    ensures none { IfNone result (MustStay pass was.now kept.now row.now replica device) }
    ensures by_name { result ≡ way_of pass was.now kept.now row.now replica device }
{
    match pass {
        Pass::First => first_place(
            is_drained(was, row, device),
            has_less_crowded(was, row, replica, device),
        ),
        Pass::Apart => {
            if kept.is_over(device) {
                find_apart(was, row, replica, device)
            } else {
                None
            }
        }
        Pass::Beside(most) => {
            anywhere(kept.is_over(device) && has_beside(was, row, replica, most))
        }
        Pass::Second => anywhere(kept.is_over(device)),
    }
}

/// The seat of a replica, if it may leave its device in a pass.
fn gift_of(
    pass: Pass,
    was: &Room,
    kept: &Room,
    row: &[Option<DeviceId>],
    replica: usize,
) -> Option<Gift>
    requires same { kept.now.devices ≡ was.now.devices }
    requires row { AreKnown was.now.devices row.now }
    requires few { length row.now ≤ most_replicas }
    requires replica { replica < length row.now }
    ensures some { IfSome result (IsGift pass was.now kept.now row.now) }
    ensures none { IfNone result ((id : ℕ) → slice_get row.now replica ≡ Some (Some id) →
        MustStay pass was.now kept.now row.now replica id) }
    ensures by_name { result ≡ gift_of pass was.now kept.now row.now replica }
{
    let Some(device) = row[replica] else {
        return None;
    };
    let to = way_of(pass, was, kept, row, replica, device)?;
    Some(Gift {
        replica,
        device,
        to,
        above: kept.above(device),
    })
}

/// Whether a seat is better to lift: its place is less crowded or, among equals, its device keeps
/// more above its want.
fn is_better(one: Gift, other: Gift) -> bool
    ensures { result ≡ is_better one other }
{
    is_less(one.to, other.to) || (!is_less(other.to, one.to) && other.above < one.above)
}

/// The better of two seats, the first of equals.
fn better(one: Option<Gift>, other: Option<Gift>) -> Option<Gift>
    ensures { result ≡ (if beats other one then other else one) }
{
    match other {
        None => one,
        Some(new) => match one {
            None => other,
            Some(old) => { if is_better(new, old) { other } else { one } }
        },
    }
}

/// The best of a partition's seats that may leave their devices in a pass, if there is one.
fn best_gift(pass: Pass, was: &Room, kept: &Room, row: &[Option<DeviceId>]) -> Option<Gift>
    requires same { kept.now.devices ≡ was.now.devices }
    requires row { AreKnown was.now.devices row.now }
    requires few { length row.now ≤ most_replicas }
    ensures some { IfSome result (IsGift pass was.now kept.now row.now) }
    ensures none { IfNone result ((replica id : ℕ) → slice_get row.now replica ≡ Some (Some id) →
        MustStay pass was.now kept.now row.now replica id) }
    ensures by_name { option_map (λ gift. gift.replica) result ≡ best_seat pass was.now kept.now
        row.now }
{
    let mut best = None;
    for replica in 0..row.len() {
        best = better(best, gift_of(pass, was, kept, row, replica));
    }
    best
}

/// Lifts the best of a partition's seats that may leave their devices in a pass, if there is one,
/// and says what device it was on.
pub(crate) fn lift_best(
    pass: Pass,
    was: &Room,
    kept: &Room,
    row: &mut [Option<DeviceId>],
) -> Option<DeviceId>
    requires same { kept.now.devices ≡ was.now.devices }
    requires row { AreKnown was.now.devices row.old }
    requires few { length row.old ≤ most_replicas }
    ensures some { IfSome result (λ id. (replica : ℕ) × Lifts row.old row.new replica id ×
        MayBeLifted pass was.now kept.now row.old replica id) }
    ensures none { IfNone result ((row.new ≡ row.old) × ((replica id : ℕ) →
        slice_get row.old replica ≡ Some (Some id) →
        MustStay pass was.now kept.now row.old replica id)) }
    ensures device { result ≡ device_at row.old (best_seat pass was.now kept.now row.old) }
    ensures left { row.new ≡ without row.old (best_seat pass was.now kept.now row.old) }
{
    let gift = best_gift(pass, was, kept, row)?;
    row[gift.replica] = None;
    Some(gift.device)
}
