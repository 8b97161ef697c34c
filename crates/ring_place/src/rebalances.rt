//! One rebalance.
ghost use Rattle.std.specs.Prelude.{◌≡◌, ◌<◌, ◌≤◌, ◌↔◌, count_by, length, IfOk, IsErrOf, filter};
ghost use Rattle.ring_words.specs.Limits.{most_replicas};
ghost use Rattle.std.specs.Prelude.{not};
ghost use Rattle.ring_model.specs.Valid.{IsValid};
ghost use Rattle.ring_share.specs.Crowd.{rows_of};
ghost use Rattle.ring_share.specs.Want.{is_open as is_open_device};
ghost use Rattle.ring_place.specs.Inner.Finishing.{AreAlike, AreWhole, changed_over};
ghost use Rattle.ring_place.specs.Made.{changed_in};
ghost use Rattle.ring_place.specs.Made.{stamped, stamps};
ghost use Rattle.ring_place.specs.Apart.{IsRebalanceApart};
ghost use Rattle.ring_place.specs.First.{IsFirstApart};
ghost use Rattle.ring_place.specs.Rebalance.{IsAfter, IsRebalance, changed_seats};
ghost use Rattle.ring_place.specs.Seeded.{IsSeeded, finished};

use crate::new_seats::new_seats;
use crate::seats::Seats;
use ring_model::Ring;
use ring_share::is_open;
use ring_words::{Device, DeviceId, Hour};
use std::alloc::{AllocError, Global};

/// Why a ring isn't rebalanced.
#[derive(Clone, Copy, PartialEq, Eq)]
pub enum PlaceError {
    /// It has fewer open devices than replicas.
    TooFewDevices,
    /// A growth of memory was refused.
    NoMemory,
}

impl From<AllocError> for PlaceError {
    ghost use Rattle.std.specs.Prelude.{◌≡◌};
    ghost use Rattle.ring_place.specs.declared.rebalances.PlaceError.TheVariants.{NoMemory};

    ghost from_gives = { λ _ error. error ≡ NoMemory };

    fn from(_refused: AllocError) -> PlaceError {
        PlaceError::NoMemory
    }
}

/// A ring after a rebalance.
#[derive(Drop)]
pub struct Rebalanced {
    /// The new ring.
    pub ring: Ring,
    /// How many seats are on another device than before, or were empty.
    pub changed: u32,
}

fn open_count(devices: &[Device]) -> usize
    ensures { result ≡ count_by is_open_device devices.now }
{
    devices.iter().filter(|device| is_open(device)).count()
}

/// How many seats of a partition differ.
fn count_changed(old: &[Option<DeviceId>], new: &[Option<DeviceId>]) -> u32
    requires as_many { length new.now ≡ length old.now }
    requires few { length old.now ≤ most_replicas }
    ensures count { result ≡ changed_in old.now new.now }
    ensures few { result ≤ most_replicas }
{
    let mut changed = 0;
    for (replica, seat) in old.iter().enumerate() {
        if *seat != new[replica] {
            changed += 1;
        }
    }
    changed
}

/// The hour of a partition's last move, where so many seats of it differ.
fn stamp(hour: Hour, changed: u32, before: Option<Hour>) -> Option<Hour>
    ensures { result ≡ stamped hour changed before }
{
    if changed > 0 { Some(hour) } else { before }
}

/// The hours of the last moves, and how many seats differ.
fn moves(
    alloc: Global,
    ring: &Ring,
    hour: Hour,
    old: &Seats,
    new: &Seats,
) -> Result<(Vec<Option<Hour>>, u32), AllocError>
    requires partitions { length old.now ≡ length ring.now.moved }
    requires alike { AreAlike old.now new.now }
    ensures moved { IfOk result (λ done. done.0.items ≡ stamps hour ring.now.moved old.now new.now) }
    ensures changed { IfOk result (λ done. done.1 ≡ changed_over old.now new.now) }
{
    let mut moved = Vec::with_capacity(alloc, ring.moves().len())?;
    let mut changed = 0;
    for (partition, before) in ring.moves().iter().enumerate() {
        let count = count_changed(old.row(partition), new.row(partition));
        moved.push(stamp(hour, count, *before))?;
        changed += count;
    }
    Ok((moved, changed))
}

/// The devices that aren't marked to be removed.
fn remaining(alloc: Global, devices: &[Device]) -> Result<Vec<Device>, AllocError>
    ensures { IfOk result (λ remaining. remaining.items ≡ filter (λ device. not device.removed)
        devices.now) }
{
    let mut remaining = Vec::new(alloc);
    for device in devices {
        if !device.removed {
            remaining.push(device.clone()?)?;
        }
    }
    Ok(remaining)
}

/// The ring with the new seats.
fn finish(
    alloc: Global,
    ring: &Ring,
    hour: Hour,
    old: &Seats,
    new: &Seats,
) -> Result<Rebalanced, PlaceError>
    requires old { old.now ≡ rows_of ring.now }
    requires new { AreWhole ring.now new.now }
    requires valid { IsValid ring.now }
    ensures rows { IfOk result (λ done. rows_of done.ring ≡ new.now) }
    ensures valid { IfOk result (λ done. IsValid done.ring) }
    ensures after { IfOk result (λ done. IsAfter ring.now hour done.ring) }
    ensures changed { IfOk result (λ done. done.changed ≡ changed_seats ring.now done.ring) }
    ensures by_name { IfOk result (λ done. done.ring ≡ finished ring.now hour new.now) }
    ensures memory { IsErrOf result PlaceError.TooFewDevices → ⊥ }
{
    let (moved, changed) = moves(alloc, ring, hour, old, new)?;
    let devices = remaining(alloc, ring.devices())?;
    let seats = new.devices(alloc)?;
    let ring = ring.reseated(devices, seats, moved)?;
    Ok(Rebalanced { ring, changed })
}

/// Rebalances a ring at an hour. Seats that are empty or on devices that are marked to be removed
/// are put on open devices. Of any other partition that isn't locked at most one seat moves, to
/// where it is less crowded or off a device with more seats than it wants; of the latter those
/// first that find a place that is no more crowded, then those whose least crowded place is in a
/// zone with none of their partition's other seats, and then with one. TooFewDevices exactly where
/// fewer devices are open than the ring has replicas. The seed varies which of several such rings it
/// is.
///
/// All seats of a ring that has a device on none of them yet are dealt at once, unless a device wants
/// two of a partition: then no partition has more seats in a region, in a zone or on a server than
/// the wants force on it.
pub fn rebalance(
    alloc: Global,
    ring: &Ring,
    hour: Hour,
    seed: u32,
) -> Result<Rebalanced, PlaceError>
    ensures few { IsErrOf result PlaceError.TooFewDevices ↔
        (count_by is_open_device ring.now.devices < ring.now.replicas) }
    ensures rebalance { IfOk result (λ done. IsRebalance ring.now hour done.ring) }
    ensures apart { IfOk result (λ done. IsRebalanceApart ring.now hour done.ring) }
    ensures first { IfOk result (λ done. IsFirstApart ring.now done.ring) }
    ensures seeded { IfOk result (λ done. IsSeeded ring.now hour seed done.ring) }
    ensures changed { IfOk result (λ done. done.changed ≡ changed_seats ring.now done.ring) }
{
    if open_count(ring.devices()) < usize::from(ring.replicas().get()) {
        return Err(PlaceError::TooFewDevices);
    }
    let old = Seats::of(alloc, ring)?;
    let seats = new_seats(alloc, ring, hour, seed, &old)?;
    finish(alloc, ring, hour, &old, &seats)
}
