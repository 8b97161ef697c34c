//! From bytes to the snapshot that they spell.
ghost use Rattle.std.specs.Prelude.{◌≡◌, ◌==◌, ◌↔◌, ℕ, IsTrue, List, codes};
ghost use Rattle.std.specs.List.{slice_split};
ghost use Rattle.ring_text.specs.Spelling.{Spells};
ghost use Rattle.ring_text.specs.Inner.Reading.{AreRingLines, FollowHead, IsMadeOfLines};
ghost use Rattle.ring_words.specs.Spelling.{Reads};
ghost use Rattle.ring_words.specs.declared.device.Device.{Device};
ghost use Rattle.ring_words.specs.Inner.ReadsAs.{ReadsAs};

use crate::TextFault;
use crate::head::{FIRST_LINES, Head, read_head};
use crate::lines::devices_of;
use crate::partition::seats_of;
use crate::state::Snapshot;
use crate::taking::snapshot;
use crate::words::{after, front_lines};
use ring_model::{BuildFault, Ring, RingParts};
use ring_words::{Device, DeviceId, MOST_IDS, partition_count};
use std::alloc::Global;

/// Whether a text is its last line alone.
fn is_end(text: &[u8]) -> bool
    ensures { IsTrue result ↔ (text.now ≡ codes "end\n") }
{
    text == b"end\n".as_slice()
}

/// The devices and the seats of the lines behind the first ones.
fn read_rest(
    alloc: Global,
    text: &str,
    head: &Head,
) -> Result<(Vec<Device>, Vec<DeviceId>), TextFault>
    ensures { ReadsAs {Y = List Device × List ℕ} (λ x. (x.0.items, x.1.items)) (λ x. FollowHead head.now
        (slice_split (λ b. b == 10) text.now) x.0 x.1) result }
{
    let (lines, rest) = front_lines(alloc, text, usize::from(head.devices))?;
    let rest = after(rest, "seats\n")?;
    let partitions = partition_count(head.power);
    let (seats, rest) = seats_of(alloc, rest.as_bytes(), partitions, head.replicas)?;
    if !is_end(rest) {
        return Err(TextFault::Bad);
    }
    let devices = devices_of(alloc, &lines)?;
    Ok((devices, seats))
}

/// The snapshot of these parts, if they are those of a ring.
fn checked(
    alloc: Global,
    head: Head,
    devices: Vec<Device>,
    seats: Vec<DeviceId>,
) -> Result<Snapshot, TextFault>
    ensures { Reads (IsMadeOfLines head devices.items seats.items) result }
{
    let parts = RingParts {
        power: head.power,
        replicas: head.replicas,
        min_hours: 0,
        next_id: MOST_IDS as u32,
        version: head.version,
        devices,
        seats,
        moved: vec![in alloc; None; partition_count(head.power)]?,
        published: Vec::new(alloc),
    };
    let ring = match Ring::build(alloc, parts) {
        Ok(ring) => ring,
        Err(BuildFault::Invalid) => return Err(TextFault::Bad),
        Err(BuildFault::NoMemory) => return Err(TextFault::NoMemory),
    };
    if !ring.is_assigned() {
        return Err(TextFault::Bad);
    }
    Ok(snapshot(alloc, &head.name, &ring)?)
}

/// The snapshot of a text.
fn read_text(alloc: Global, text: &str) -> Result<Snapshot, TextFault>
    ensures { Reads (AreRingLines (slice_split (λ b. b == 10) text.now)) result }
{
    let (first, rest) = front_lines(alloc, text, FIRST_LINES)?;
    let head = read_head(alloc, &first)?;
    let (devices, seats) = read_rest(alloc, rest, &head)?;
    checked(alloc, head, devices, seats)
}

/// The snapshot that bytes spell. BadText exactly where they spell none.
pub fn read_ring(alloc: Global, bytes: &[u8]) -> Result<Snapshot, TextFault>
    ensures { Reads (Spells bytes.now) result }
{
    let Ok(text) = str::from_utf8(bytes) else {
        return Err(TextFault::Bad);
    };
    read_text(alloc, text)
}
