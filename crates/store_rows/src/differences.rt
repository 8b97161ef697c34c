//! The rows that a ring has and an old ring has not.
ghost use Rattle.std.specs.Prelude.{[], ◌∷◌, ◌≡◌, ◌++◌, ◌*◌, ◌<◌, ◌≤◌, ◌==◌, ◌↔◌, ℕ, IfOk, IfSome};
ghost use Rattle.std.specs.Prelude.{IsTrue, List, OnOk, count_by, drop, is_none, length, find, map};
ghost use Rattle.std.specs.Prelude.{slice_get, slice_index_or, take, None, IsSomeAnd, pos};
ghost use Rattle.std.specs.Option.{option_copied, option_map};
ghost use Rattle.std.specs.Rc.{rc_str_bytes};
ghost use Rattle.ring_model.specs.Ring.{partition_count};
ghost use Rattle.ring_words.specs.Limits.{most_devices};
ghost use Rattle.ring_words.specs.Texts.{address_limit};
ghost use Rattle.store_model.specs.Entries.{name_cmp, name_number_cmp};
ghost use Rattle.store_model.specs.Contents.{device_of, part_of, published_of, ring_of};
ghost use Rattle.store_rows.specs.Differences.{has_same, is_same_device, is_same_part};
ghost use Rattle.store_rows.specs.Differences.{is_same_ring};
ghost use Rattle.store_rows.specs.Inner.Lacking.{Succeeds, added_ring, device_entries_of};
ghost use Rattle.store_rows.specs.Inner.Lacking.{device_in, device_value, is_kept_text, lacking};
ghost use Rattle.store_rows.specs.Inner.Lacking.{part_at, part_in, part_value, ring_value, rows_at};
ghost use Rattle.store_rows.specs.Inner.Lacking.{lacking_texts, text_entries_of, text_in};
ghost use Rattle.store_rows.specs.Inner.Written.{known_partitions};
ghost use Rattle.store_rows.specs.RingRows.{device_entry, part_entries_of, published_entry};

use crate::ring_rows::{device_row, part_row, partition_seats, published_row, ring_row};
use ring_model::Ring;
use ring_words::{Device, DeviceId, Hour, RingName, partition_count};
use std::alloc::{AllocError, Global};
use std::rc::RcStr;
use store_model::{DeviceRow, PartRow, PublishedRow, RingRow};

// ---- rings

/// Whether two rings have the same row.
fn is_same_row(one: &Ring, other: &Ring) -> bool
    ensures { result ≡ is_same_ring (ring_value one.now) (ring_value other.now) }
{
    one.power() == other.power()
        && one.replicas() == other.replicas()
        && one.min_hours() == other.min_hours()
        && one.next_id() == other.next_id()
        && one.version() == other.version()
}

/// Whether an old ring has the same row.
fn has_ring(old: Option<&Ring>, ring: &Ring) -> bool
    ensures { result ≡ has_same is_same_ring (option_map (λ ring. ring_value ring.now) old.entry)
        (ring_value ring.now) }
{
    match old {
        Some(before) => is_same_row(before, ring),
        None => false,
    }
}

/// Adds the row of a ring if the old ring has it not.
pub(crate) fn push_new_ring(
    alloc: Global,
    into: &mut Vec<RingRow>,
    name: &RingName,
    old: Option<&Ring>,
    ring: &Ring,
) -> Result<(), AllocError>
    ensures { OnOk result (map ring_of into.new.items ≡ map ring_of into.old.items
        ++ added_ring (option_map (λ ring. ring.now) old.entry) (name.now, ring.now)) }
{
    if has_ring(old, ring) {
        return Ok(());
    }
    into.push(ring_row(alloc, name, ring)?)?;
    Ok(())
}

// ---- devices

/// The devices of a ring, none where there is no ring.
pub(crate) fn devices_of(ring: Option<&Ring>) -> &[Device]
    ensures value { result.now ≡ rows_at (λ e. e.1.devices) [] (option_map (λ ring. ring.now)
        ring.entry) }
    ensures few { length result.now ≤ most_devices }
{
    match ring {
        Some(ring) => ring.devices(),
        None => &[],
    }
}

/// Whether two devices of one number have the same row.
fn is_same_device(one: &Device, other: &Device) -> bool
    ensures same { IsTrue result ↔ (one.now.row ≡ other.now.row) ×
        (one.now.removed ≡ other.now.removed) }
    ensures addresses { (one.now.row.address < address_limit) ×
        (other.now.row.address < address_limit) }
{
    let (_one, _other) = (one.row.address.bits(), other.row.address.bits());
    one.row == other.row && one.removed == other.removed
}

/// The device of a number.
fn find_device(devices: &[Device], id: DeviceId) -> Option<&Device>
    ensures { option_copied result ≡ find (λ device. device.id == id) devices.now }
{
    devices.iter().find(|device| device.id == id)
}

/// Whether a device is among others, with the same row.
fn has_device(others: &[Device], device: &Device) -> bool
    ensures { result ≡ has_same is_same_device (device_in device.now.id others.now)
        (device_value device.now) }
{
    match find_device(others, device.id) {
        Some(other) => is_same_device(other, device),
        None => false,
    }
}

/// Adds the row of a device that is not among others.
fn push_new_device(
    alloc: Global,
    into: &mut Vec<DeviceRow>,
    name: &RingName,
    others: &[Device],
    device: &Device,
) -> Result<(), AllocError>
    ensures { OnOk result (map device_of into.new.items ≡ map device_of into.old.items
        ++ lacking name_number_cmp is_same_device (map (device_entry name.now) others.now) (device_entry name.now device.now ∷ [])) }
{
    if has_device(others, device) {
        return Ok(());
    }
    into.push(device_row(alloc, name, device)?)?;
    Ok(())
}

/// Adds the rows of a ring's devices that are not among others.
pub(crate) fn push_devices(
    alloc: Global,
    into: &mut Vec<DeviceRow>,
    name: &RingName,
    others: &[Device],
    devices: &[Device],
) -> Result<(), AllocError>
    ensures { OnOk result (map device_of into.new.items ≡ map device_of into.old.items ++
        lacking name_number_cmp is_same_device (map (device_entry name.now) others.now)
        (map (device_entry name.now) devices.now)) }
{
    for device in devices {
        push_new_device(alloc, into, name, others, device)?;
    }
    Ok(())
}

/// Adds the rows of a ring's devices that are not among others, none where these are the same.
pub(crate) fn push_changed_devices(
    alloc: Global,
    into: &mut Vec<DeviceRow>,
    name: &RingName,
    others: &[Device],
    ring: &Ring,
) -> Result<(), AllocError>
    ensures { OnOk result (map device_of into.new.items ≡ map device_of into.old.items ++
        lacking name_number_cmp is_same_device (map (device_entry name.now) others.now)
        (map (device_entry name.now) ring.now.devices)) }
{
    let devices = ring.devices();
    if others == devices {
        return Ok(());
    }
    push_devices(alloc, into, name, others, devices)
}

/// Adds the rows of an old ring's devices that are not among others.
pub(crate) fn push_dropped_devices(
    alloc: Global,
    into: &mut Vec<DeviceRow>,
    name: &RingName,
    others: &[Device],
    old: Option<&Ring>,
) -> Result<(), AllocError>
    ensures { OnOk result (map device_of into.new.items ≡ map device_of into.old.items ++
        lacking name_number_cmp is_same_device (map (device_entry name.now) others.now)
        (rows_at device_entries_of name.now (option_map (λ ring. ring.now) old.entry))) }
{
    match old {
        Some(before) => push_changed_devices(alloc, into, name, others, before),
        None => Ok(()),
    }
}

/// Whether a device has a number that is not among others.
fn is_gone(others: &[Device], device: &Device) -> bool
    ensures { result ≡ is_none (device_in device.now.id others.now) }
{
    find_device(others, device.id).is_none()
}

/// How many devices of a ring have a number that is not among others, 0 where these are the same.
pub(crate) fn count_gone(others: &[Device], devices: &[Device]) -> usize
    ensures value { result ≡ count_by (λ device. is_none (device_in device.id others.now))
        devices.now }
    ensures small { result ≤ length devices.now }
{
    if others == devices {
        return 0;
    }
    devices
        .iter()
        .filter(|device| is_gone(others, device))
        .count()
}

// ---- partitions

/// Whether two rings have the same row of a partition that both have.
fn is_same_part(one: &Ring, other: &Ring, partition: usize) -> bool
    requires one { partition < partition_count one.now }
    requires other { partition < partition_count other.now }
    ensures { IsTrue result ↔ (take one.now.replicas (drop (partition * one.now.replicas)
        one.now.seats)
        ≡ take other.now.replicas (drop (partition * other.now.replicas) other.now.seats))
        × (slice_index_or one.now.moved partition None ≡ slice_index_or other.now.moved partition None) }
{
    partition_seats(one, partition) == partition_seats(other, partition)
        && one.moves()[partition] == other.moves()[partition]
}

/// Whether a ring has a partition, with the same row as another's.
fn has_part_of(one: &Ring, other: &Ring, partition: usize) -> bool
    requires { partition < partition_count other.now }
    ensures { result ≡ has_same is_same_part
        (option_map (part_value one.now partition) (slice_get one.now.moved partition))
        (part_value other.now partition (slice_index_or other.now.moved partition None)) }
{
    if partition >= one.moves().len() {
        return false;
    }
    is_same_part(one, other, partition)
}

/// Whether an old ring has the same row of a partition.
fn has_part(old: Option<&Ring>, ring: &Ring, partition: usize) -> bool
    requires { partition < partition_count ring.now }
    ensures { result ≡ has_same is_same_part (part_in (option_map (λ ring. ring.now) old.entry)
        partition) (part_value ring.now partition (slice_index_or ring.now.moved partition None)) }
{
    match old {
        Some(before) => has_part_of(before, ring, partition),
        None => false,
    }
}

/// Adds the row of a partition that the old ring has not.
fn push_new_part(
    alloc: Global,
    into: &mut Vec<PartRow>,
    name: &RingName,
    old: Option<&Ring>,
    ring: &Ring,
    partition: usize,
) -> Result<(), AllocError>
    requires { partition < partition_count ring.now }
    ensures { OnOk result (map part_of into.new.items ≡ map part_of into.old.items
        ++ lacking name_number_cmp is_same_part (rows_at part_entries_of name.now (option_map (λ ring. ring.now) old.entry))
        (part_at name.now ring.now partition ∷ [])) }
{
    if has_part(old, ring, partition) {
        return Ok(());
    }
    into.push(part_row(alloc, name, ring, partition)?)?;
    Ok(())
}

/// How many partitions a ring has, none where there is no ring.
pub(crate) fn known_partitions(ring: Option<&Ring>) -> i64
    ensures { result ≡ pos (known_partitions (option_map (λ ring. ring.now) ring.entry)) }
{
    match ring {
        Some(ring) => partition_count(ring.power()) as i64,
        None => 0,
    }
}

/// Whether two lists of last moves are the same.
fn are_same_moves(one: &[Option<Hour>], other: &[Option<Hour>]) -> bool
    ensures { IsTrue result → one.now ≡ other.now }
{
    one == other
}

/// Whether two rings have the same seats and last moves.
fn are_same_places(one: &Ring, other: &Ring) -> bool
    ensures { IsTrue result → (one.now.replicas ≡ other.now.replicas) × (one.now.seats ≡
        other.now.seats) × (one.now.moved ≡ other.now.moved) }
{
    one.replicas() == other.replicas()
        && one.seats() == other.seats()
        && are_same_moves(one.moves(), other.moves())
}

/// Whether an old ring has the same seats and last moves, so that no row of a partition differs.
fn has_same_places(old: Option<&Ring>, ring: &Ring) -> bool
    ensures { IsTrue result → IsSomeAnd (option_map (λ ring. ring.now) old.entry) (λ before.
        (before.replicas ≡ ring.now.replicas) × (before.seats ≡ ring.now.seats)
        × (before.moved ≡ ring.now.moved)) }
{
    match old {
        Some(before) => are_same_places(before, ring),
        None => false,
    }
}

/// Adds the rows of a ring's partitions that the old ring has not. Where neither a seat nor a last
/// move changed, one comparison of the whole lists tells it.
pub(crate) fn push_parts(
    alloc: Global,
    into: &mut Vec<PartRow>,
    name: &RingName,
    old: Option<&Ring>,
    ring: &Ring,
) -> Result<(), AllocError>
    ensures { OnOk result (map part_of into.new.items ≡ map part_of into.old.items ++
        lacking name_number_cmp is_same_part (rows_at part_entries_of name.now
        (option_map (λ ring. ring.now) old.entry)) (part_entries_of (name.now, ring.now))) }
{
    if has_same_places(old, ring) {
        return Ok(());
    }
    for partition in 0..ring.moves().len() {
        push_new_part(alloc, into, name, old, ring, partition)?;
    }
    Ok(())
}

// ---- published texts

/// Whether an old ring has published a text under a version.
fn has_text(old: Option<&Ring>, version: u32) -> bool
    ensures { (text : List ℕ) → result ≡ has_same is_kept_text
        (text_in (option_map (λ ring. ring.now) old.entry) version) text }
{
    match old {
        Some(before) => before.published(version).is_some(),
        None => false,
    }
}

/// Adds the row of a published text where the old ring has published none under its version.
fn push_new_text(
    alloc: Global,
    into: &mut Vec<PublishedRow>,
    name: &RingName,
    old: Option<&Ring>,
    text: &(u32, RcStr),
) -> Result<(), AllocError>
    ensures { OnOk result (map published_of into.new.items ≡ map published_of into.old.items
        ++ lacking name_number_cmp is_kept_text (rows_at text_entries_of name.now (option_map (λ ring. ring.now) old.entry))
        (published_entry name.now (text.now.0, rc_str_bytes text.now.1) ∷ [])) }
{
    if has_text(old, text.0) {
        return Ok(());
    }
    into.push(published_row(alloc, name, text)?)?;
    Ok(())
}

/// Whether an old ring has published as many texts as a ring.
fn has_as_many_texts(old: Option<&Ring>, ring: &Ring) -> bool
    ensures { IsTrue result → IsSomeAnd (option_map (λ ring. ring.now) old.entry) (λ before.
        length before.published ≡ length ring.now.published) }
{
    match old {
        Some(before) => before.published_list().len() == ring.published_list().len(),
        None => false,
    }
}

/// Adds the rows of a ring's published texts that the old ring has not, where each text that the old
/// ring published is still there. So a text is new where its version is, and none is new where there
/// are as many as there were. No text is read but a new one.
pub(crate) fn push_texts(
    alloc: Global,
    into: &mut Vec<PublishedRow>,
    name: &RingName,
    old: Option<&Ring>,
    ring: &Ring,
) -> Result<(), AllocError>
    ensures { OnOk result (IfSome (option_map (λ ring. ring.now) old.entry) (λ before. Succeeds
        before ring.now) → map published_of into.new.items ≡ map published_of into.old.items ++
        lacking_texts name.now (option_map (λ ring. ring.now) old.entry) ring.now) }
{
    if has_as_many_texts(old, ring) {
        return Ok(());
    }
    for text in ring.published_list() {
        push_new_text(alloc, into, name, old, text)?;
    }
    Ok(())
}
