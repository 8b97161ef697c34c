//! What a file tells of a ring beside its seats, as JSON.
ghost use Rattle.std.specs.Prelude.{◌≡◌, ◌==◌, ◌++◌, ◌+◌, ◌≤◌, IfOk, OnOk, find, string_bytes};
ghost use Rattle.ring_words.specs.Limits.{most_ids};
ghost use Rattle.std.specs.Prelude.{codes, if◌then◌else◌};
ghost use Rattle.std.specs.Option.{option_copied};
ghost use Rattle.ring_words.specs.Texts.{two_digits};
ghost use Rattle.swift_ring.specs.Json.{hundredths, listed};
ghost use Rattle.swift_ring.specs.SwiftFile.{device_members, entries, device_text, number_count};
ghost use Rattle.swift_ring.specs.SwiftFile.{number_entry, ring_json};

use ring_text::Snapshot;
use ring_words::{Device, Weight};
use std::alloc::{AllocError, Global};
use std::fmt::Write;

/// Appends a weight.
fn push_weight(text: &mut String, weight: Weight) -> Result<(), AllocError>
    ensures { OnOk result (string_bytes text.new ≡ string_bytes text.old ++ hundredths weight) }
{
    let hundredths = weight.hundredths();
    if hundredths % 10 == 0 {
        write!(text, "{}.{}", hundredths / 100, hundredths / 10 % 10)
    } else {
        write!(text, "{weight}")
    }
}

/// Appends the members of a device, one after another.
fn push_members(text: &mut String, device: &Device) -> Result<(), AllocError>
    ensures { OnOk result (string_bytes text.new ≡ string_bytes text.old ++
        listed (device_members device.now)) }
{
    let row = &device.row;
    let (address, port) = (row.address, row.port);
    write!(
        text,
        "\"device\": \"{}\", \"id\": {}, \"ip\": \"{}\", \"meta\": \"\"",
        row.name, device.id, address
    )?;
    write!(
        text,
        ", \"port\": {}, \"region\": {}, \"replication_ip\": \"{}\", \"replication_port\": {}",
        port, row.region, address, port
    )?;
    text.push_str(", \"weight\": ")?;
    push_weight(text, row.weight)?;
    write!(text, ", \"zone\": {}", row.zone)?;
    Ok(())
}

/// Appends what stands at a number with this device, or with none.
fn push_entry(text: &mut String, device: Option<&Device>) -> Result<(), AllocError>
    ensures { OnOk result (string_bytes text.new ≡ string_bytes text.old ++
        device_text (option_copied device.entry)) }
{
    let Some(device) = device else {
        return text.push_str("null");
    };
    text.push_str("{")?;
    push_members(text, device)?;
    text.push_str("}")
}

/// The device of a number.
fn device_at(devices: &[Device], id: u32) -> Option<&Device>
    ensures { option_copied result ≡ find (λ device. device.id == id) devices.now }
{
    devices.iter().find(|device| u32::from(device.id) == id)
}

/// The number after that of a device.
fn after(device: &Device) -> u32
    ensures value { result ≡ device.now.id + 1 }
    ensures small { result ≤ most_ids }
{
    u32::from(device.id) + 1
}

/// How many numbers there are, up to the greatest.
fn count(devices: &[Device]) -> u32
    ensures value { result ≡ number_count devices.now }
    ensures small { result ≤ most_ids }
{
    match devices.last() {
        Some(device) => after(device),
        None => 0,
    }
}

/// Appends the entry of a number, behind a comma where it isn't the first.
fn push_numbered(text: &mut String, devices: &[Device], id: u32) -> Result<(), AllocError>
    ensures { OnOk result (string_bytes text.new ≡ string_bytes text.old ++ (if id == 0
        then number_entry devices.now id else codes ", " ++ number_entry devices.now id)) }
{
    if id > 0 {
        text.push_str(", ")?;
    }
    push_entry(text, device_at(devices, id))
}

/// Appends the entries of all numbers.
fn push_entries(text: &mut String, devices: &[Device]) -> Result<(), AllocError>
    ensures { OnOk result (string_bytes text.new ≡ string_bytes text.old ++
        listed (entries devices.now)) }
{
    for id in 0..count(devices) {
        push_numbered(text, devices, id)?;
    }
    Ok(())
}

/// The JSON of a ring.
pub(crate) fn json_of(alloc: Global, snapshot: &Snapshot) -> Result<String, AllocError>
    ensures { IfOk result (λ text. string_bytes text ≡ ring_json snapshot.now) }
{
    let mut text = String::new(alloc);
    text.push_str("{\"byteorder\": \"little\", \"devs\": [")?;
    push_entries(&mut text, snapshot.devices())?;
    write!(
        &mut text,
        "], \"part_shift\": {}, \"replica_count\": {}, \"version\": {}}}",
        32 - snapshot.power().get(),
        snapshot.replicas(),
        snapshot.version()
    )?;
    Ok(text)
}
