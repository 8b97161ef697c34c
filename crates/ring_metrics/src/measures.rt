//! What is measured of rings.
ghost use Rattle.std.specs.Prelude.{◌≡◌, ◌-◌, ◌<◌, ◌≤◌, IfOk, length};
ghost use Rattle.std.specs.Str.{bytes_eq};
ghost use Rattle.ring_model.specs.Ring.{partition_count as partitions_of};
ghost use Rattle.ring_share.specs.Want.{AreWanted};
ghost use Rattle.ring_tables.specs.Tables.{state_text};
ghost use Rattle.ring_words.specs.Limits.{long_count, most_devices};
ghost use Rattle.ring_metrics.specs.Measures.{AreMeasured, IsMeasured, devices_in};
ghost use Rattle.ring_metrics.specs.Measures.{misplaced_seats};

use crate::locks::{locked_count, rest};
use ring_model::{Ring, Rings};
use ring_share::{balance, counts_of, dispersion, wanted};
use ring_tables::state_text;
use ring_words::{Device, Hour, RingName, partition_count};
use std::alloc::{AllocError, Global};

/// What is measured of a ring at an hour.
#[derive(Clone, Copy)]
pub(crate) struct Measured<'a> {
    /// The ring's name.
    pub(crate) name: &'a str,
    pub(crate) version: u32,
    pub(crate) partitions: usize,
    pub(crate) replicas: u16,
    pub(crate) open_devices: usize,
    pub(crate) drained_devices: usize,
    pub(crate) removed_devices: usize,
    /// In hundredths of a percent.
    pub(crate) balance: u32,
    /// In hundredths of a percent.
    pub(crate) dispersion: u32,
    /// How many partitions are locked at the hour.
    pub(crate) locked: usize,
    /// In how many hours none is any more.
    pub(crate) rest: u64,
    /// How many versions are published.
    pub(crate) published: usize,
    /// How many seats are not where they are wanted.
    pub(crate) misplaced: u64,
}

/// Whether a device is in the state that a word names.
fn is_in_state(device: &Device, state: &str) -> bool
    ensures { result ≡ bytes_eq (state_text device.now) state.now }
{
    state_text(device) == state
}

/// How many devices of a ring are in the state that a word names.
fn devices_in(ring: &Ring, state: &str) -> usize
    ensures { result ≡ devices_in ring.now state.now }
{
    let devices = ring.devices();
    devices
        .iter()
        .filter(|device| is_in_state(device, state))
        .count()
}

/// How many partitions a ring has.
fn partitions_of(ring: &Ring) -> usize
    ensures { result ≡ partitions_of ring.now }
{
    partition_count(ring.power())
}

/// How many versions of a ring are published.
fn published_count(ring: &Ring) -> usize
    ensures { result ≡ length ring.now.published }
{
    ring.published_list().len()
}

/// How many of so many seats are above those that are wanted.
fn seats_above(seats: u32, want: u32) -> u64
    ensures value { result ≡ seats - want }
    ensures small { result < long_count }
{
    u64::from(seats.saturating_sub(want))
}

/// How many devices a ring has.
fn device_count(ring: &Ring) -> usize
    ensures value { result ≡ length ring.now.devices }
    ensures few { result ≤ most_devices }
{
    ring.devices().len()
}

/// How many seats of a ring, whose devices want so many, are not where they are wanted: what each
/// device has above what it wants.
fn misplaced_seats(ring: &Ring, wants: &[u32]) -> u64
    requires { AreWanted ring.now wants.now }
    ensures { result ≡ misplaced_seats ring.now wants.now }
{
    let counts = counts_of(ring);
    let count = device_count(ring);
    let mut misplaced = 0;
    for place in 0..count {
        misplaced += seats_above(counts[place], wants[place]);
    }
    misplaced
}

/// What is measured of a ring of this name at an hour.
fn measured_ring<'a>(
    alloc: Global,
    name: &'a RingName,
    ring: &Ring,
    hour: Hour,
) -> Result<Measured<'a>, AllocError>
    ensures { IfOk result (λ measured. IsMeasured (name.now, ring.now) hour measured) }
{
    let wants = wanted(alloc, ring)?;
    let misplaced = misplaced_seats(ring, &wants);
    Ok(Measured {
        name: name.as_str(),
        version: ring.version(),
        partitions: partitions_of(ring),
        replicas: ring.replicas().get(),
        open_devices: devices_in(ring, "open"),
        drained_devices: devices_in(ring, "drained"),
        removed_devices: devices_in(ring, "removed"),
        balance: balance(ring),
        dispersion: dispersion(ring),
        locked: locked_count(ring, hour),
        rest: rest(ring, hour),
        published: published_count(ring),
        misplaced,
    })
}

/// What is measured of the rings at an hour, by rising name.
pub(crate) fn measured_rings<'a>(
    alloc: Global,
    rings: &'a Rings,
    hour: Hour,
) -> Result<Vec<Measured<'a>>, AllocError>
    ensures { IfOk result (λ all. AreMeasured rings.now hour all.items) }
{
    let entries = rings.list();
    let mut all = Vec::with_capacity(alloc, entries.len())?;
    for entry in entries {
        all.push(measured_ring(alloc, &entry.0, entry.1.as_ref(), hour)?)?;
    }
    Ok(all)
}
