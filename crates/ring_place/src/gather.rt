//! Which seats are gathered: each is lifted, which leaves it empty.
ghost use Rattle.std.specs.Prelude.{◌≡◌, ◌≢◌, ◌<◌, ◌≤◌, ℕ, true, false, length, map, IfOk, slice_set};
ghost use Rattle.ring_words.specs.Limits.{most_replicas};
ghost use Rattle.std.specs.List.{list_any, range_with_len};
ghost use Rattle.std.specs.List.Sorted.{IsPermutation};
ghost use Rattle.std.specs.Option.{ForSome};
ghost use Rattle.ring_model.specs.Ring.{has_device, partition_count};
ghost use Rattle.ring_share.specs.Crowd.{seats_on};
ghost use Rattle.ring_room.specs.Load.{IsLoad, have_in};
ghost use Rattle.ring_place.specs.Apart.{GivesApartFirst};
ghost use Rattle.ring_place.specs.Rebalance.{is_recent};
ghost use Rattle.ring_room.specs.Rows.{AreKnown};
ghost use Rattle.ring_room.specs.Free.{has_free_in};
ghost use Rattle.ring_place.specs.Inner.Gathering.{present_only, Takes, Falls};
ghost use Rattle.ring_place.specs.Made.{is_lost_in, row_at};
ghost use Rattle.ring_place.specs.Inner.Gathering.{IsFirst, IsLifting, IsPass, IsRoomOf, is_over_in};
ghost use Rattle.ring_model.specs.Valid.{IsValid};
ghost use Rattle.ring_share.specs.Crowd.{rows_of};
ghost use Rattle.ring_place.specs.Inner.Gathering.{AreLater, AreRowsOfSeats, IsFilled, IsGathered};
ghost use Rattle.ring_place.specs.Inner.Gathering.{gathered_in};
ghost use Rattle.ring_place.specs.Made.{first_lifting, has_surplus, later_lifting, left_of, lifting};
ghost use Rattle.ring_place.specs.Made.{lost_row, over_passed, passed, surplus_passed};

use crate::seats::{Seats, has_empty, row_copy};
use crate::surplus::{lift_best, may_leave};
use ring_model::Ring;
use ring_room::{Room, devices_on};
use ring_words::{DeviceId, Hour};
use std::alloc::{AllocError, Global};

/// Whether a seat is empty or on a device that is marked to be removed.
fn is_lost(room: &Room, seat: Option<DeviceId>) -> bool
    requires { ForSome seat (λ id. has_device id room.now.devices ≡ true) }
    ensures { result ≡ is_lost_in room.now.devices seat }
{
    match seat {
        None => true,
        Some(device) => !room.is_present(device),
    }
}

/// Whether a partition has such a seat.
fn has_lost(room: &Room, row: &[Option<DeviceId>]) -> bool
    requires { AreKnown room.now.devices row.now }
    ensures { result ≡ list_any (is_lost_in room.now.devices) row.now }
{
    for seat in row {
        if is_lost(room, *seat) {
            return true;
        }
    }
    false
}

/// Whether some device outside a partition has room.
pub(crate) fn has_free(room: &Room, row: &[Option<DeviceId>]) -> bool
    requires row { AreKnown room.now.devices row.now }
    requires few { length row.now ≤ most_replicas }
    ensures { result ≡ has_free_in room.now row.now }
{
    let (ids, count) = devices_on(row);
    room.has_room_outside(&ids[..count])
}

/// Lifts the lost seats of a partition.
#[tactic(auto, using(ring_room::proofs::Steps::steps_none))]
fn lift_lost(kept: &mut Room, row: &mut [Option<DeviceId>])
    requires load { IsLoad kept.old }
    requires row { AreKnown kept.old.devices row.old }
    requires has { (id : ℕ) → has_device id kept.old.devices ≡ true →
        seats_on id row.old ≤ have_in kept.old id }
    ensures row { row.new ≡ map (present_only kept.old.devices) row.old }
    ensures takes { Takes kept.old kept.new row.old row.new }
    ensures by_name { record { load = kept.new; row = row.new } ≡ lost_row kept.old row.old }
{
    for replica in 0..row.len() {
        if let Some(device) = row[replica] {
            if !kept.is_present(device) {
                kept.take(device);
                row[replica] = None;
            }
        }
    }
}

/// Whether the first pass may lift seats of a partition: it has a lost one, or it isn't locked and may
/// have some that leave.
fn may_lift_first(was: &Room, kept: &Room, locked: bool, row: &[Option<DeviceId>]) -> bool
    requires same { kept.now.devices ≡ was.now.devices }
    requires row { AreKnown was.now.devices row.now }
    requires few { length row.now ≤ most_replicas }
    ensures rests { result ≡ false → IsFirst was.now locked row.now row.now }
    ensures by_name { result ≡ false → record { load = kept.now; row = row.now } ≡ first_lifting
        was.now kept.now locked row.now }
{
    if has_lost(kept, row) {
        return true;
    }
    if locked {
        return false;
    }
    may_leave(was, row)
}

/// The first pass at a partition: lifts its lost seats or, if it has none and isn't locked, one on a
/// device that wants nothing, while some device outside has room, or else one for which such a
/// device is less crowded. Of several it is the one whose device keeps most above its want.
fn gather_first(was: &Room, kept: &mut Room, locked: bool, row: &mut [Option<DeviceId>])
    requires load { IsLoad kept.old }
    requires same { kept.old.devices ≡ was.now.devices }
    requires row { AreKnown was.now.devices row.old }
    requires few { length row.old ≤ most_replicas }
    requires has { (id : ℕ) → has_device id kept.old.devices ≡ true →
        seats_on id row.old ≤ have_in kept.old id }
    ensures first { IsFirst was.now locked row.old row.new }
    ensures by_name { record { load = kept.new; row = row.new } ≡ first_lifting was.now kept.old
        locked row.old }
    ensures takes { Takes kept.old kept.new row.old row.new }
{
    if has_lost(kept, row) {
        lift_lost(kept, row);
    } else if !locked {
        if let Some(device) = lift_best(Pass::First, was, kept, row) {
            kept.take(device);
        }
    }
}

/// Whether a seat is on a device that keeps more than it wants.
fn is_over(kept: &Room, seat: Option<DeviceId>) -> bool
    requires seat { ForSome seat (λ id. has_device id kept.now.devices ≡ true) }
    ensures { result ≡ is_over_in kept.now seat }
{
    match seat {
        None => false,
        Some(device) => kept.is_over(device),
    }
}

/// Whether a partition has such a seat.
fn has_over(kept: &Room, row: &[Option<DeviceId>]) -> bool
    requires row { AreKnown kept.now.devices row.now }
    ensures { result ≡ list_any (is_over_in kept.now) row.now }
{
    for seat in row {
        if is_over(kept, *seat) {
            return true;
        }
    }
    false
}

/// A pass after the first at a partition: if nothing was lifted from it, it isn't locked and a
/// device outside has room, lifts one seat that may leave in the pass, of a device that keeps more
/// than it wants. Of several it is the one that finds the least crowded place, where the pass
/// compares places, and, among equals, whose device keeps most above its want.
fn gather_later(pass: Pass, was: &Room, kept: &mut Room, locked: bool, row: &mut [Option<DeviceId>])
    requires later { pass ≢ Pass.First }
    requires load { IsLoad kept.old }
    requires same { kept.old.devices ≡ was.now.devices }
    requires row { AreKnown was.now.devices row.old }
    requires few { length row.old ≤ most_replicas }
    ensures lifted { IsLifting pass was.now kept.new locked row.old row.new }
    ensures by_name { record { load = kept.new; row = row.new } ≡ later_lifting pass was.now
        kept.old locked row.old }
    ensures takes { Takes kept.old kept.new row.old row.new }
    ensures falls { Falls kept.old kept.new }
{
    if locked || has_empty(row) || !has_free(was, row) {
        return;
    }
    if let Some(device) = lift_best(pass, was, kept, row) {
        kept.take(device);
    }
}

/// A pass of gathering over all partitions.
#[derive(Clone, Copy)]
pub(crate) enum Pass {
    /// Lifts lost seats, seats on devices that want nothing, and seats for which a device outside
    /// with room is less crowded.
    First,
    /// Lifts seats of devices that keep more than they want, for which some device outside with
    /// room is no more crowded.
    Apart,
    /// Lifts seats of devices that keep more than they want, for which the least crowded device
    /// outside with room has at most so many of the partition's other seats in its region and in
    /// its zone, added.
    Beside(u32),
    /// Lifts seats of devices that keep more than they want.
    Second,
}

/// A pass at one partition.
fn gather_row(pass: Pass, was: &Room, kept: &mut Room, locked: bool, row: &mut [Option<DeviceId>])
    requires load { IsLoad kept.old }
    requires same { kept.old.devices ≡ was.now.devices }
    requires row { AreKnown was.now.devices row.old }
    requires few { length row.old ≤ most_replicas }
    requires has { (id : ℕ) → has_device id kept.old.devices ≡ true →
        seats_on id row.old ≤ have_in kept.old id }
    ensures lifted { IsLifting pass was.now kept.new locked row.old row.new }
    ensures by_name { record { load = kept.new; row = row.new } ≡ lifting pass was.now kept.old
        locked row.old }
    ensures takes { Takes kept.old kept.new row.old row.new }
    ensures falls { pass ≢ Pass.First → Falls kept.old kept.new }
{
    match pass {
        Pass::First => gather_first(was, kept, locked, row),
        _ => gather_later(pass, was, kept, locked, row),
    }
}

/// Whether a partition may have seats that a pass lifts. Mostly it shows at a glance that it has
/// none.
fn may_lift(pass: Pass, was: &Room, kept: &Room, locked: bool, row: &[Option<DeviceId>]) -> bool
    requires same { kept.now.devices ≡ was.now.devices }
    requires row { AreKnown was.now.devices row.now }
    requires few { length row.now ≤ most_replicas }
    ensures rests { result ≡ false → IsLifting pass was.now kept.now locked row.now row.now }
    ensures by_name { result ≡ false → record { load = kept.now; row = row.now } ≡ lifting pass
        was.now kept.now locked row.now }
{
    match pass {
        Pass::First => may_lift_first(was, kept, locked, row),
        _ => has_over(kept, row),
    }
}

/// A pass at one partition, which is written only where something may be lifted of it.
fn gather_at(
    pass: Pass,
    was: &Room,
    kept: &mut Room,
    locked: bool,
    partition: usize,
    seats: &mut Seats,
)
    requires load { IsLoad kept.old }
    requires same { kept.old.devices ≡ was.now.devices }
    requires partition { partition < length seats.old }
    requires row { AreKnown was.now.devices (row_at seats.old partition) }
    requires few { length (row_at seats.old partition) ≤ most_replicas }
    requires has { (id : ℕ) → has_device id kept.old.devices ≡ true →
        seats_on id (row_at seats.old partition) ≤ have_in kept.old id }
    ensures others { seats.new ≡ slice_set seats.old partition (row_at seats.new partition) }
    ensures lifted { IsLifting pass was.now kept.new locked (row_at seats.old partition)
        (row_at seats.new partition) }
    ensures by_name { record { load = kept.new; row = row_at seats.new partition } ≡ lifting pass
        was.now kept.old locked (row_at seats.old partition) }
    ensures takes { Takes kept.old kept.new (row_at seats.old partition)
        (row_at seats.new partition) }
    ensures falls { pass ≢ Pass.First → Falls kept.old kept.new }
{
    if !may_lift(pass, was, kept, locked, seats.row(partition)) {
        return;
    }
    let (mut copy, count) = row_copy(seats.row(partition));
    let row = &mut copy[..count];
    gather_row(pass, was, kept, locked, row);
    seats.set_row(partition, row);
}

/// A pass at all partitions, in an order.
fn gather(
    pass: Pass,
    was: &Room,
    kept: &mut Room,
    locked: &[bool],
    order: &[usize],
    seats: &mut Seats,
)
    requires locked { length locked.now ≡ length seats.old }
    requires order { IsPermutation (range_with_len 0 (length seats.old)) order.now }
    requires rows { AreRowsOfSeats was.now.devices seats.old }
    requires filled { IsFilled kept.old was.now.devices was.now.wanted seats.old }
    ensures rows { AreRowsOfSeats was.now.devices seats.new }
    ensures pass { IsPass pass order.now was.now kept.new locked.now seats.old seats.new }
    ensures by_name { record { load = kept.new; rows = seats.new } ≡ passed pass was.now locked.now
        order.now (record { load = kept.old; rows = seats.old }) }
    ensures falls { pass ≢ Pass.First → Falls kept.old kept.new }
{
    for partition in order {
        gather_at(pass, was, kept, locked[*partition], *partition, seats);
    }
}

/// Whether a device keeps more than it wants.
fn has_surplus(kept: &Room) -> bool
    ensures { result ≡ has_surplus kept.now }
{
    for place in 0..kept.count() {
        if kept.is_over(kept.id_of(place)) {
            return true;
        }
    }
    false
}

/// A pass after the first at all partitions, in an order. Without a device that keeps more than it
/// wants it would lift nothing, and isn't made.
fn gather_over(
    pass: Pass,
    was: &Room,
    kept: &mut Room,
    locked: &[bool],
    order: &[usize],
    seats: &mut Seats,
)
    requires later { pass ≢ Pass.First }
    requires locked { length locked.now ≡ length seats.old }
    requires order { IsPermutation (range_with_len 0 (length seats.old)) order.now }
    requires rows { AreRowsOfSeats was.now.devices seats.old }
    requires filled { IsFilled kept.old was.now.devices was.now.wanted seats.old }
    ensures rows { AreRowsOfSeats was.now.devices seats.new }
    ensures pass { IsPass pass order.now was.now kept.new locked.now seats.old seats.new }
    ensures by_name { record { load = kept.new; rows = seats.new } ≡ over_passed pass was.now
        locked.now order.now (record { load = kept.old; rows = seats.old }) }
    ensures falls { Falls kept.old kept.new }
{
    if has_surplus(kept) {
        gather(pass, was, kept, locked, order, seats);
    }
}

/// The passes after the first, which lift seats of devices that keep more than they want: first
/// those that find a place that is no more crowded, then those whose least crowded place has none of
/// their partition's other seats in its region and zone, then those with at most one, two and three
/// there, where one in the zone counts twice, and then any.
fn gather_surplus(was: &Room, kept: &mut Room, locked: &[bool], order: &[usize], seats: &mut Seats)
    requires locked { length locked.now ≡ length seats.old }
    requires order { IsPermutation (range_with_len 0 (length seats.old)) order.now }
    requires rows { AreRowsOfSeats was.now.devices seats.old }
    requires filled { IsFilled kept.old was.now.devices was.now.wanted seats.old }
    ensures later { AreLater order.now was.now kept.new locked.now seats.old seats.new }
    ensures by_name { record { load = kept.new; rows = seats.new } ≡ surplus_passed was.now
        locked.now order.now (record { load = kept.old; rows = seats.old }) }
{
    gather_over(Pass::Apart, was, kept, locked, order, seats);
    gather_over(Pass::Beside(0), was, kept, locked, order, seats);
    gather_over(Pass::Beside(1), was, kept, locked, order, seats);
    gather_over(Pass::Beside(2), was, kept, locked, order, seats);
    gather_over(Pass::Beside(3), was, kept, locked, order, seats);
    gather_over(Pass::Second, was, kept, locked, order, seats);
}

/// Whether fewer hours passed since a move than a moved partition is kept.
fn is_recent(min_hours: u16, hour: Hour, moved: Option<Hour>) -> bool
    ensures { result ≡ is_recent min_hours hour moved }
{
    match moved {
        None => false,
        Some(moved) => u64::from(hour) < u64::from(moved) + u64::from(min_hours),
    }
}

/// For each partition whether it is locked at an hour.
fn locks(alloc: Global, ring: &Ring, hour: Hour) -> Result<Vec<bool>, AllocError>
    ensures { IfOk result (λ locked. locked.items ≡ map (is_recent ring.now.min_hours hour)
        ring.now.moved) }
{
    let mut locked = Vec::with_capacity(alloc, ring.moves().len())?;
    for moved in ring.moves() {
        locked.push(is_recent(ring.min_hours(), hour, *moved))?;
    }
    Ok(locked)
}

/// The devices and the seats of a ring, `was` and `old`, without what a rebalance at an hour gathers.
/// The partitions are gone through in an order that has each once.
pub(crate) fn gathering(
    alloc: Global,
    ring: &Ring,
    hour: Hour,
    order: &[usize],
    was: &Room,
    old: &Seats,
) -> Result<(Room, Seats), AllocError>
    requires valid { IsValid ring.now }
    requires order { IsPermutation (range_with_len 0 (partition_count ring.now)) order.now }
    requires was { IsRoomOf ring.now was.now }
    requires old { old.now ≡ rows_of ring.now }
    ensures gathered { IfOk result (λ done. IsGathered ring.now hour done.0 done.1) }
    ensures wanted { IfOk result (λ done. done.0.wanted ≡ was.now.wanted) }
    ensures apart { IfOk result (λ done. GivesApartFirst ring.now hour done.0.wanted
        (gathered_in done.1)) }
    ensures by_name { IfOk result (λ done. record { load = done.0; rows = done.1 } ≡ left_of
        ring.now done.0.wanted hour order.now) }
{
    let mut kept = was.copy(alloc)?;
    let mut seats = old.copy(alloc)?;
    let locked = locks(alloc, ring, hour)?;
    gather(
        Pass::First,
        was,
        &mut kept,
        locked.as_slice(),
        order,
        &mut seats,
    );
    if !was.has_some_room() {
        return Ok((kept, seats));
    }
    gather_surplus(was, &mut kept, locked.as_slice(), order, &mut seats);
    Ok((kept, seats))
}
