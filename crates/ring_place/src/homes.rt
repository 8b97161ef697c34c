//! Which partitions keep their homes: a lifted seat whose device remains has a home there.
ghost use Rattle.std.specs.Prelude.{◌≡◌, ◌<◌, ◌≤◌, ◌++◌, ℕ, true, false, All, length, map, IfOk, IfSome};
ghost use Rattle.std.specs.Prelude.{OnOk, Some, slice_index_or};
ghost use Rattle.ring_words.specs.Limits.{most_replicas};
ghost use Rattle.std.specs.List.{flat_map, range_with_len};
ghost use Rattle.std.specs.List.Sorted.{IsPermutation};
ghost use Rattle.ring_model.specs.Ring.{has_device};
ghost use Rattle.ring_room.specs.Places.{seats_at};
ghost use Rattle.ring_room.specs.Rows.{AreKnown};
ghost use Rattle.ring_place.specs.Made.{all_kept, asking, crowd_number, heap_of, heap_rank, home_crowd, home_of};
ghost use Rattle.ring_place.specs.Made.{is_number, keeps_home, row_at, waiting, with_empty, with_home};
ghost use Rattle.ring_place.specs.Inner.Placing.{AreTold, CanPlace, numbered};

use crate::seats::{Seats, first_empty, has_empty};
use ring_room::{Crowd, Room};
use ring_words::DeviceId;
use std::alloc::{AllocError, Global};

/// The partitions of an order that have an empty seat.
fn with_empty(alloc: Global, order: &[usize], seats: &Seats) -> Result<Vec<usize>, AllocError>
    requires { IsPermutation (range_with_len 0 (length seats.now)) order.now }
    ensures { IfOk result (λ partitions. partitions.items ≡ with_empty order.now seats.now) }
{
    let mut partitions = Vec::new(alloc);
    for partition in order {
        if has_empty(seats.row(*partition)) {
            partitions.push(*partition)?;
        }
    }
    Ok(partitions)
}

/// Whether it is a number.
fn is_number(number: u32, other: Option<u32>) -> bool
    ensures { result ≡ is_number number other }
{
    other == Some(number)
}

/// Notes that a number is there, a greater one than 10 as 10.
fn note(found: &mut [bool; 11], number: Option<u32>)
    ensures { (other : ℕ) → other < 11 → slice_index_or found.new other false ≡ false →
        (slice_index_or found.old other false ≡ false) × (is_number other number ≡ false) }
{
    if let Some(number) = number {
        found[(number as usize).min(10)] = true;
    }
}

/// Which numbers below 11 are there.
fn numbers_in(numbers: &[Option<u32>]) -> [bool; 11]
    ensures { AreTold numbers.now result }
{
    let mut found = [false; 11];
    for number in numbers {
        note(&mut found, *number);
    }
    found
}

/// Adds those of some partitions that have a number below 11, if it is among those that are there.
fn add_numbered(
    list: &mut Vec<usize>,
    partitions: &[usize],
    numbers: &[Option<u32>],
    found: &[bool; 11],
    number: u32,
) -> Result<(), AllocError>
    requires as_many { length numbers.now ≡ length partitions.now }
    requires found { AreTold numbers.now found.now }
    requires number { number < 11 }
    ensures { OnOk result (list.new.items ≡ list.old.items ++ numbered partitions.now numbers.now
        number) }
{
    if !found[number as usize] {
        return Ok(());
    }
    for (index, partition) in partitions.iter().enumerate() {
        if is_number(number, numbers[index]) {
            list.push(*partition)?;
        }
    }
    Ok(())
}

/// Some partitions by rising numbers, those without left out. The numbers are below 11.
fn by_number(
    alloc: Global,
    partitions: &[usize],
    numbers: &[Option<u32>],
) -> Result<Vec<usize>, AllocError>
    requires { length numbers.now ≡ length partitions.now }
    ensures { IfOk result (λ list. list.items ≡ flat_map (numbered partitions.now numbers.now)
        (range_with_len 0 11)) }
{
    let mut list = Vec::with_capacity(alloc, partitions.len())?;
    let found = numbers_in(numbers);
    for number in 0..11 {
        add_numbered(&mut list, partitions, numbers, &found, number)?;
    }
    Ok(list)
}

/// How crowded a device is, by region and by zone added.
fn crowd_number(crowd: Crowd) -> u32
    requires { (crowd.0 ≤ most_replicas) × (crowd.1 ≤ most_replicas) }
    ensures { result ≡ crowd_number crowd }
{
    crowd.0 + crowd.1
}

/// How crowded the most crowded of the devices at some places is by all of them, as one number.
fn heap_of(room: &Room, places: &[usize]) -> u32
    requires places { All (λ place. place < length room.now.devices) places.now }
    requires few { length places.now ≤ most_replicas }
    ensures { result ≡ heap_of room.now (seats_at room.now.devices places.now) }
{
    let mut most = 0;
    for place in places {
        most = crowd_number(room.crowd_at(places, *place)).max(most);
    }
    most
}

/// How far a partition is from having all its seats in one region and zone.
fn heap_rank(room: &Room, row: &[Option<DeviceId>]) -> u32
    requires few { length row.now ≤ most_replicas }
    requires row { AreKnown room.now.devices row.now }
    ensures { result ≡ heap_rank room.now row.now }
{
    let (places, count) = room.places_on(row);
    10u32.saturating_sub(heap_of(room, &places[..count]))
}

/// That of each partition at some.
fn heap_ranks(
    alloc: Global,
    room: &Room,
    partitions: &[usize],
    seats: &Seats,
) -> Result<Vec<Option<u32>>, AllocError>
    requires partitions { All (λ partition. partition < length seats.now) partitions.now }
    requires few { (partition : ℕ) → partition < length seats.now →
        length (row_at seats.now partition) ≤ most_replicas }
    requires known { (partition : ℕ) → partition < length seats.now →
        AreKnown room.now.devices (row_at seats.now partition) }
    ensures { IfOk result (λ ranks. ranks.items ≡ map (λ partition. Some (heap_rank room.now
        (row_at seats.now partition))) partitions.now) }
{
    let mut ranks = Vec::with_capacity(alloc, partitions.len())?;
    for partition in partitions {
        ranks.push(Some(heap_rank(room, seats.row(*partition))))?;
    }
    Ok(ranks)
}

/// The partitions of an order that have an empty seat, those first that have most seats in one
/// region and zone.
pub(crate) fn waiting(
    alloc: Global,
    room: &Room,
    order: &[usize],
    seats: &Seats,
) -> Result<Vec<usize>, AllocError>
    requires order { IsPermutation (range_with_len 0 (length seats.now)) order.now }
    requires few { (partition : ℕ) → partition < length seats.now →
        length (row_at seats.now partition) ≤ most_replicas }
    requires known { (partition : ℕ) → partition < length seats.now →
        AreKnown room.now.devices (row_at seats.now partition) }
    ensures { IfOk result (λ partitions. partitions.items ≡ waiting room.now order.now seats.now) }
{
    let partitions = with_empty(alloc, order, seats)?;
    let ranks = heap_ranks(alloc, room, &partitions, seats)?;
    by_number(alloc, &partitions, &ranks)
}

/// The device that the first empty seat of a partition was on, if it was on one.
fn home_of(old: &[Option<DeviceId>], row: &[Option<DeviceId>]) -> Option<DeviceId>
    requires { length old.now ≡ length row.now }
    ensures { result ≡ home_of old.now row.now }
{
    let replica = first_empty(row)?;
    old[replica]
}

/// How crowded a partition's home is for its seat, by region and by zone added; `None`
/// if it has no home.
fn home_crowd(room: &Room, old: &[Option<DeviceId>], row: &[Option<DeviceId>]) -> Option<u32>
    requires same { length old.now ≡ length row.now }
    requires few { length row.now ≤ most_replicas }
    requires old { AreKnown room.now.devices old.now }
    requires row { AreKnown room.now.devices row.now }
    ensures { result ≡ home_crowd room.now old.now row.now }
{
    let home = home_of(old, row)?;
    let (others, count) = room.places_on(row);
    let crowd = room.crowd_at(&others[..count], room.place_of(home));
    Some(crowd_number(crowd))
}

/// That of each partition at `waiting`.
fn home_crowds(
    alloc: Global,
    room: &Room,
    waiting: &[usize],
    old: &Seats,
    seats: &Seats,
) -> Result<Vec<Option<u32>>, AllocError>
    requires waiting { All (λ partition. partition < length seats.now) waiting.now }
    requires as_many { length old.now ≡ length seats.now }
    requires rows { (partition : ℕ) → partition < length seats.now →
        CanPlace room.now.devices (row_at old.now partition) (row_at seats.now partition) }
    ensures { IfOk result (λ crowds. crowds.items ≡ map (λ partition. home_crowd room.now
        (row_at old.now partition) (row_at seats.now partition)) waiting.now) }
{
    let mut crowds = Vec::with_capacity(alloc, waiting.len())?;
    for partition in waiting {
        crowds.push(home_crowd(room, old.row(*partition), seats.row(*partition)))?;
    }
    Ok(crowds)
}

/// The partitions at `waiting` that have a home, those with the least crowded homes first.
pub(crate) fn asking(
    alloc: Global,
    room: &Room,
    waiting: &[usize],
    old: &Seats,
    seats: &Seats,
) -> Result<Vec<usize>, AllocError>
    requires waiting { All (λ partition. partition < length seats.now) waiting.now }
    requires as_many { length old.now ≡ length seats.now }
    requires rows { (partition : ℕ) → partition < length seats.now →
        CanPlace room.now.devices (row_at old.now partition) (row_at seats.now partition) }
    ensures { IfOk result (λ partitions. partitions.items ≡ asking room.now waiting.now old.now
        seats.now) }
{
    let crowds = home_crowds(alloc, room, waiting, old, seats)?;
    by_number(alloc, waiting, &crowds)
}

/// Whether a partition keeps its home: it has one that has room, which no device has that is marked
/// to be removed. The seat is then counted there.
fn keep_home(kept: &mut Room, home: Option<DeviceId>) -> bool
    requires { IfSome home (λ id. has_device id kept.old.devices ≡ true) }
    ensures keeps { result ≡ keeps_home kept.old home }
    ensures load { kept.new ≡ with_home kept.old home }
{
    let Some(home) = home else {
        return false;
    };
    if !kept.has_room(home) {
        return false;
    }
    kept.put(home);
    true
}

/// For each partition whether it keeps its home, where those at `waiting` ask for it one after
/// another, and the devices with the seats that are to come home. `old` are the seats before any
/// was lifted.
pub(crate) fn homes_of(
    alloc: Global,
    room: &Room,
    waiting: &[usize],
    old: &Seats,
    seats: &Seats,
) -> Result<(Vec<bool>, Room), AllocError>
    requires waiting { All (λ partition. partition < length seats.now) waiting.now }
    requires as_many { length old.now ≡ length seats.now }
    requires long { (partition : ℕ) → partition < length seats.now →
        length (row_at old.now partition) ≡ length (row_at seats.now partition) }
    requires known { (partition : ℕ) → partition < length seats.now → AreKnown room.now.devices
        (row_at old.now partition) }
    ensures long { IfOk result (λ done. length done.0.items ≡ length seats.now) }
    ensures by_name { IfOk result (λ done. record { load = done.1; kept = done.0.items } ≡ all_kept
        waiting.now old.now room.now seats.now) }
{
    let mut kept = room.copy(alloc)?;
    let mut homes = vec![in alloc; false; seats.count()]?;
    for partition in waiting {
        let home = home_of(old.row(*partition), seats.row(*partition));
        homes[*partition] = keep_home(&mut kept, home);
    }
    Ok((homes, kept))
}
