//! The seats of a ring after a rebalance.
ghost use Rattle.std.specs.Prelude.{◌≡◌, ◌≤◌, count_by, IfNone, IfOk, IfSome, ℕ, true, false, List, Option};
ghost use Rattle.std.specs.List.{list_all, list_any};
ghost use Rattle.std.specs.Prelude.{nat_le};
ghost use Rattle.ring_model.specs.Ring.{is_assigned, partition_count};
ghost use Rattle.ring_model.specs.Valid.{IsValid};
ghost use Rattle.ring_share.specs.Crowd.{rows_of};
ghost use Rattle.ring_share.specs.Want.{is_open as is_open_device};
ghost use Rattle.ring_room.specs.Load.{is_free_in};
ghost use Rattle.ring_place.specs.Inner.Finishing.{AreRebalanced, IsNotDealt};
ghost use Rattle.ring_place.specs.Inner.Gathering.{IsRoomOf};
ghost use Rattle.ring_place.specs.Made.{is_settled};

use crate::gather::gathering;
use crate::place::place_all;
use crate::seats::Seats;
use ring_deal::{deal, draws_of, shuffled_order};
use ring_model::Ring;
use ring_room::Room;
use ring_share::wanted;
use ring_words::{Device, Hour, partition_count};
use std::alloc::{AllocError, Global};

/// Whether no device wants two seats of one of so many partitions.
fn want_once(wanted: &[u32], partitions: usize) -> bool
    ensures { result ≡ list_all (λ want. nat_le want partitions) wanted.now }
{
    for want in wanted {
        if *want as usize > partitions {
            return false;
        }
    }
    true
}

/// All seats of a ring that has a device on none of them yet, dealt to its devices. `None` where it
/// has, or where a device wants two seats of a partition.
fn deal_all(alloc: Global, ring: &Ring, seed: u32) -> Result<Option<Seats>, AllocError>
    requires { ring.now.replicas ≤ count_by is_open_device ring.now.devices }
    ensures dealt { IfOk result (λ seats. IfSome seats (λ rows. (hour : ℕ) →
        AreRebalanced ring.now hour seed rows)) }
    ensures not_dealt { IfOk result (λ seats. IfNone seats (IsNotDealt ring.now)) }
{
    if !ring.seats().is_empty() {
        return Ok(None);
    }
    let wanted = wanted(alloc, ring)?;
    if !want_once(wanted.as_slice(), partition_count(ring.power())) {
        return Ok(None);
    }
    let (power, replicas) = (ring.power(), ring.replicas());
    let seats = deal(
        alloc,
        ring.devices(),
        wanted.as_slice(),
        power,
        replicas,
        draws_of(seed),
    )?;
    Ok(Some(Seats::with(alloc, ring, seats.as_slice())?))
}

/// Whether a device is marked to be removed.
fn has_removed(devices: &[Device]) -> bool
    ensures { result ≡ list_any (λ device. device.removed) devices.now }
{
    for device in devices {
        if device.removed {
            return true;
        }
    }
    false
}

/// Whether nothing is gathered of a ring: each seat has a device, none is marked to be removed, and
/// none has room.
fn is_settled(ring: &Ring, was: &Room) -> bool
    requires { IsRoomOf ring.now was.now }
    ensures by_name { result ≡ is_settled ring.now was.now.wanted }
    ensures valid { IsValid ring.now }
    ensures assigned { result ≡ true → is_assigned ring.now ≡ true }
    ensures remain { result ≡ true → list_any (λ device. device.removed) ring.now.devices ≡ false }
    ensures full { result ≡ true → (row : List (Option ℕ)) (id : ℕ) → is_free_in was.now row id ≡
        false }
{
    if !ring.is_assigned() {
        return false;
    }
    if has_removed(ring.devices()) {
        return false;
    }
    !was.has_some_room()
}

/// The seats of a ring, `old`, after a rebalance at an hour that gathers some of them and puts them
/// elsewhere.
fn move_seats(
    alloc: Global,
    ring: &Ring,
    hour: Hour,
    seed: u32,
    was: &Room,
    old: &Seats,
) -> Result<Seats, AllocError>
    requires open { ring.now.replicas ≤ count_by is_open_device ring.now.devices }
    requires was { IsRoomOf ring.now was.now }
    requires old { old.now ≡ rows_of ring.now }
    requires not_dealt { IsNotDealt ring.now }
    requires not_settled { is_settled ring.now was.now.wanted ≡ false }
    ensures { IfOk result (AreRebalanced ring.now hour seed) }
{
    let mut draws = draws_of(seed);
    let order = shuffled_order(alloc, partition_count(ring.power()), &mut draws)?;
    let (mut room, mut seats) = gathering(alloc, ring, hour, order.as_slice(), was, old)?;
    place_all(alloc, &mut room, order.as_slice(), old, &mut seats, draws)?;
    Ok(seats)
}

/// Those of a ring whose seats aren't dealt at once: its own, where nothing is gathered.
fn later_seats(
    alloc: Global,
    ring: &Ring,
    hour: Hour,
    seed: u32,
    old: &Seats,
) -> Result<Seats, AllocError>
    requires open { ring.now.replicas ≤ count_by is_open_device ring.now.devices }
    requires old { old.now ≡ rows_of ring.now }
    requires not_dealt { IsNotDealt ring.now }
    ensures { IfOk result (AreRebalanced ring.now hour seed) }
{
    let wanted = wanted(alloc, ring)?;
    let was = Room::of(alloc, ring, wanted.as_slice())?;
    if is_settled(ring, &was) {
        return old.copy(alloc);
    }
    move_seats(alloc, ring, hour, seed, &was, old)
}

/// The seats of a ring, `old`, after a rebalance at an hour: dealt at once where none has a device
/// yet, as far as that goes.
pub(crate) fn new_seats(
    alloc: Global,
    ring: &Ring,
    hour: Hour,
    seed: u32,
    old: &Seats,
) -> Result<Seats, AllocError>
    requires open { ring.now.replicas ≤ count_by is_open_device ring.now.devices }
    requires old { old.now ≡ rows_of ring.now }
    ensures { IfOk result (AreRebalanced ring.now hour seed) }
{
    if let Some(seats) = deal_all(alloc, ring, seed)? {
        return Ok(seats);
    }
    later_seats(alloc, ring, hour, seed, old)
}
