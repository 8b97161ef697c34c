//! The lines of devices and of partitions.
ghost use Rattle.std.specs.Prelude.{◌≡◌, length, map};
ghost use Rattle.ring_words.specs.Spelling.{Reads};
ghost use Rattle.ring_words.specs.Inner.ReadsAs.{ReadsAs};
ghost use Rattle.ring_text.specs.Inner.Reading.{IsDevice, IsDeviceLine, AreDeviceLines, AreNumbers};
ghost use Rattle.ring_text.specs.Inner.Reading.{IsPartitionLine};

use crate::TextFault;
use crate::words::{parts_of, state, text_at};
use ring_words::{
    Device, DeviceId, Replicas, Row, read_address, read_bounded, read_name, read_number16,
    read_weight,
};
use std::alloc::Global;

/// The device of a line's words.
fn device_of(alloc: Global, words: &[&str]) -> Result<Device, TextFault>
    ensures { Reads (IsDevice (map (λ word. word.now) words.now)) result }
{
    if words.len() != 8 {
        return Err(TextFault::Bad);
    }
    let id = read_number16(text_at(words, 0))?;
    let region = read_number16(text_at(words, 1))?;
    let zone = read_number16(text_at(words, 2))?;
    let address = read_address(text_at(words, 3))?;
    let port = read_bounded(text_at(words, 4))?;
    let weight = read_weight(text_at(words, 5))?;
    let removed = state(text_at(words, 6))?;
    let name = read_name(alloc, text_at(words, 7))?;
    let row = Row {
        region,
        zone,
        address,
        port,
        name,
        weight,
    };
    Ok(Device { id, row, removed })
}

/// The device of a line.
pub(crate) fn device_at(alloc: Global, line: &str) -> Result<Device, TextFault>
    ensures { Reads (IsDeviceLine line.now) result }
{
    let words = parts_of(alloc, line, ' ')?;
    device_of(alloc, &words)
}

/// The devices of lines.
pub(crate) fn devices_of(alloc: Global, lines: &[&str]) -> Result<Vec<Device>, TextFault>
    ensures { ReadsAs (λ devices. devices.items) (AreDeviceLines (map (λ line. line.now) lines.now))
        result }
{
    let mut devices = Vec::with_capacity(alloc, lines.len())?;
    for line in lines {
        let device = device_at(alloc, line)?;
        devices.push(device)?;
    }
    Ok(devices)
}

/// The numbers that words are.
fn numbers_of(alloc: Global, words: &[&str]) -> Result<Vec<DeviceId>, TextFault>
    ensures { ReadsAs (λ numbers. numbers.items) (AreNumbers (map (λ word. word.now) words.now))
        result }
{
    let mut numbers = Vec::with_capacity(alloc, words.len())?;
    for word in words {
        let number = read_number16(word)?;
        numbers.push(number)?;
    }
    Ok(numbers)
}

/// The devices of a partition's line, so many as there are replicas.
pub(crate) fn partition_at(
    alloc: Global,
    line: &str,
    replicas: Replicas,
) -> Result<Vec<DeviceId>, TextFault>
    ensures { ReadsAs (λ numbers. numbers.items) (IsPartitionLine replicas line.now) result }
{
    let words = parts_of(alloc, line, ' ')?;
    if words.len() != usize::from(replicas.get()) {
        return Err(TextFault::Bad);
    }
    numbers_of(alloc, &words)
}
