//! The text of a snapshot.
ghost use Rattle.std.specs.Prelude.{◌≡◌, ◌∷◌, [], ◌++◌, ◌<◌, ◌≤◌, ◌+◌, ◌*◌, ◌^◌, IfOk, OnOk};
ghost use Rattle.std.specs.Prelude.{decimal, length, map, string_bytes};
ghost use Rattle.std.specs.List.{flat_map};
ghost use Rattle.ring_text.specs.Spelling.{line, head_lines, device_line, partition_lines};
ghost use Rattle.ring_text.specs.Spelling.{spelling};

use crate::state::Snapshot;
use ring_words::{Device, DeviceId, partition_count};
use std::alloc::{AllocError, Global};
use std::fmt::Write;

/// Appends a line of a key and a word.
fn push_word(text: &mut String, key: &str, word: &str) -> Result<(), AllocError>
    ensures { OnOk result (string_bytes text.new ≡ string_bytes text.old ++
        line (key.now ∷ word.now ∷ [])) }
{
    write!(text, "{key} {word}\n")
}

/// Appends a line of a key and a number.
fn push_number(text: &mut String, key: &str, number: u32) -> Result<(), AllocError>
    ensures { OnOk result (string_bytes text.new ≡ string_bytes text.old ++
        line (key.now ∷ decimal number ∷ [])) }
{
    write!(text, "{key} {number}\n")
}

/// Appends the first lines.
fn push_head(text: &mut String, snapshot: &Snapshot) -> Result<(), AllocError>
    ensures { OnOk result (string_bytes text.new ≡ string_bytes text.old ++
        flat_map line (head_lines snapshot.now)) }
{
    push_word(text, "swift-ring-text", "1")?;
    push_word(text, "ring", snapshot.name().as_str())?;
    push_number(text, "version", snapshot.version())?;
    push_number(text, "power", u32::from(snapshot.power().get()))?;
    push_number(text, "replicas", u32::from(snapshot.replicas().get()))?;
    push_number(text, "devices", snapshot.device_count())?;
    Ok(())
}

/// Appends the line of a device.
fn push_device(text: &mut String, device: &Device) -> Result<(), AllocError>
    ensures { OnOk result (string_bytes text.new ≡ string_bytes text.old ++
        line (device_line device.now)) }
{
    let row = &device.row;
    let state = if device.removed { "removed" } else { "present" };
    write!(
        text,
        "{} {} {} {} {} {} {} {}\n",
        device.id, row.region, row.zone, row.address, row.port, row.weight, state, row.name
    )
}

/// Appends the lines of devices.
fn push_devices(text: &mut String, devices: &[Device]) -> Result<(), AllocError>
    ensures { OnOk result (string_bytes text.new ≡ string_bytes text.old ++
        flat_map line (map device_line devices.now)) }
{
    for device in devices {
        push_device(text, device)?;
    }
    Ok(())
}

/// Appends the line of a partition's devices.
fn push_partition(text: &mut String, ids: &[DeviceId]) -> Result<(), AllocError>
    requires { 0 < length ids.now }
    ensures { OnOk result (string_bytes text.new ≡ string_bytes text.old ++
        line (map decimal ids.now)) }
{
    let (first, others) = ids.split_at(1);
    write!(text, "{}", first[0])?;
    for id in others {
        write!(text, " {id}")?;
    }
    text.push_str("\n")?;
    Ok(())
}

/// Appends the lines of so many partitions.
fn push_partitions(
    text: &mut String,
    partitions: usize,
    replicas: usize,
    seats: &[DeviceId],
) -> Result<(), AllocError>
    requires replicas { 0 < replicas }
    requires whole { length seats.now ≡ partitions * replicas }
    ensures { OnOk result (string_bytes text.new ≡ string_bytes text.old ++
        flat_map line (partition_lines partitions replicas seats.now)) }
{
    for partition in 0..partitions {
        let first = partition * replicas;
        push_partition(text, &seats[first..first + replicas])?;
    }
    Ok(())
}

/// The spelling of a snapshot.
pub fn write_ring(alloc: Global, snapshot: &Snapshot) -> Result<String, AllocError>
    ensures { IfOk result (λ text. string_bytes text ≡ spelling snapshot.now) }
{
    let mut text = String::new(alloc);
    push_head(&mut text, snapshot)?;
    push_devices(&mut text, snapshot.devices())?;
    text.push_str("seats\n")?;
    let partitions = partition_count(snapshot.power());
    let replicas = usize::from(snapshot.replicas().get());
    push_partitions(&mut text, partitions, replicas, snapshot.seats())?;
    text.push_str("end\n")?;
    Ok(text)
}
