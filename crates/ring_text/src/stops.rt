//! Where bytes stop being the text of a ring.
ghost use Rattle.std.specs.Prelude.{◌≡◌, ◌+◌, ◌<◌, ◌≤◌, ◌↔◌, ℕ, IfOk, IsTrue, IsUtf8, MatchOption};
ghost use Rattle.std.specs.Prelude.{Err, Ok, length, map, take};
ghost use Rattle.ring_words.specs.Limits.{most_devices, most_partitions};
ghost use Rattle.ring_words.specs.declared.spelling.SpellingFault.TheVariants.{Bad};
ghost use Rattle.ring_model.specs.Ring.{has_device};
ghost use Rattle.ring_model.specs.Valid.{AreSeats};
ghost use Rattle.ring_text.specs.Inner.Reading.{AreDeviceLines, text_at};
ghost use Rattle.ring_text.specs.Inner.Stopping.{CanFollow, CannotBegin, CannotEnd, CannotFollow};
ghost use Rattle.ring_text.specs.Inner.Stopping.{IsHeadLine, IsNoNext, IsNoPartition};
ghost use Rattle.ring_text.specs.Stops.{IsStop};

use crate::TextFault;
use crate::head::{FIRST_LINES, Head, read_head, read_head_line};
use crate::lines::{device_at, partition_at};
use crate::words::{parts_of, text_at};
use ring_words::{Device, DeviceId, MOST_DEVICES, Replicas, partition_count};
use std::alloc::{AllocError, Global};

/// What was read, if it was. Want of memory goes on to the caller.
fn if_read<T: Drop>(read: Result<T, TextFault>) -> Result<Option<T>, AllocError>
    ensures { IfOk result (λ found. MatchOption found (read ≡ Err Bad) (λ value. read ≡ Ok value)) }
{
    match read {
        Ok(value) => Ok(Some(value)),
        Err(TextFault::Bad) => Ok(None),
        Err(TextFault::NoMemory) => Err(AllocError),
    }
}

/// How many of these lines, the first of a text and no more than five, can stand where they do.
fn good_head(alloc: Global, lines: &[&str]) -> Result<usize, AllocError>
    requires { length lines.now < 6 }
    ensures within { IfOk result (λ good. good ≤ length lines.now) }
    ensures stop { IfOk result (λ good. good < length lines.now →
        IsHeadLine good (text_at (map (λ line. line.now) lines.now) good) → ⊥) }
{
    for (place, line) in lines.iter().enumerate() {
        if if_read(read_head_line(alloc, place, line))?.is_none() {
            return Ok(place);
        }
    }
    Ok(lines.len())
}

/// Whether a device can stand behind others: its number is greater, and none of them has its
/// address, port and name.
fn can_follow(devices: &[Device], device: &Device) -> bool
    ensures { IsTrue result ↔ CanFollow devices.now device.now }
{
    devices.iter().all(|earlier| earlier.id < device.id) && !device.row.has_place_in(devices)
}

/// The devices of the lines at the front that can stand where they do.
fn good_devices(alloc: Global, lines: &[&str]) -> Result<Vec<Device>, AllocError>
    ensures within { IfOk result (λ devices. length devices.items ≤ length lines.now) }
    ensures read { IfOk result (λ devices. AreDeviceLines (take (length devices.items)
        (map (λ line. line.now) lines.now)) devices.items) }
    ensures stop { IfOk result (λ devices. length devices.items < length lines.now →
        IsNoNext devices.items (text_at (map (λ line. line.now) lines.now)
        (length devices.items))) }
{
    let mut devices = Vec::new(alloc);
    for line in lines {
        let Some(device) = if_read(device_at(alloc, line))? else {
            return Ok(devices);
        };
        if !can_follow(&devices, &device) {
            return Ok(devices);
        }
        devices.push(device)?;
    }
    Ok(devices)
}

/// Whether a device has this number.
fn is_device(devices: &[Device], id: DeviceId) -> bool
    ensures { result ≡ has_device id devices.now }
{
    devices.iter().any(|device| device.id == id)
}

/// Whether each number is that of a device, and none stands there twice.
fn are_devices(devices: &[Device], numbers: &[DeviceId]) -> bool
    ensures { AreSeats 1 (length numbers.now) devices.now numbers.now → IsTrue result }
{
    for (place, number) in numbers.iter().enumerate() {
        if !is_device(devices, *number) {
            return false;
        }
        if numbers[..place].contains(number) {
            return false;
        }
    }
    true
}

/// How many lines at the front are those of partitions with so many replicas on these devices.
fn good_partitions(
    alloc: Global,
    lines: &[&str],
    replicas: Replicas,
    devices: &[Device],
) -> Result<usize, AllocError>
    ensures within { IfOk result (λ good. good ≤ length lines.now) }
    ensures stop { IfOk result (λ good. good < length lines.now → IsNoPartition replicas devices.now
        (text_at (map (λ line. line.now) lines.now) good)) }
{
    for (place, line) in lines.iter().enumerate() {
        let Some(numbers) = if_read(partition_at(alloc, line, replicas))? else {
            return Ok(place);
        };
        if !are_devices(devices, &numbers) {
            return Ok(place);
        }
    }
    Ok(lines.len())
}

/// How many of the lines behind those of the devices can stand where they do.
fn good_seats(
    alloc: Global,
    lines: &[&str],
    head: &Head,
    devices: &[Device],
) -> Result<usize, AllocError>
    ensures within { IfOk result (λ good. good ≤ length lines.now) }
    ensures few { IfOk result (λ good. good ≤ most_partitions + 2) }
    ensures stop { IfOk result (λ good. good < length lines.now → CannotEnd head.now devices.now
        (take (good + 1) (map (λ line. line.now) lines.now))) }
{
    if lines.is_empty() || text_at(lines, 0) != "seats" {
        return Ok(0);
    }
    let rest = &lines[1..];
    let partitions = partition_count(head.power);
    let front = &rest[..rest.len().min(partitions)];
    let good = good_partitions(alloc, front, head.replicas, devices)?;
    if good < front.len() {
        return Ok(1 + good);
    }
    if good == rest.len() || text_at(rest, good) != "end" {
        return Ok(1 + good);
    }
    Ok(2 + good)
}

/// How many of the lines behind the first ones can stand where they do.
fn good_rest(alloc: Global, lines: &[&str], head: &Head) -> Result<usize, AllocError>
    requires { head.now.devices ≤ most_devices }
    ensures within { IfOk result (λ good. good ≤ length lines.now) }
    ensures few { IfOk result (λ good. good ≤ most_devices + most_partitions + 2) }
    ensures stop { IfOk result (λ good. good < length lines.now → CannotFollow head.now
        (take (good + 1) (map (λ line. line.now) lines.now))) }
{
    let count = usize::from(head.devices);
    let front = &lines[..lines.len().min(count)];
    let devices = good_devices(alloc, front)?;
    let good = devices.len();
    if good < count {
        return Ok(good);
    }
    Ok(good + good_seats(alloc, &lines[good..], head, &devices)?)
}

/// How many lines at the front of whole lines can stand where they do in the text of a ring.
fn good_lines(alloc: Global, lines: &[&str]) -> Result<usize, AllocError>
    ensures within { IfOk result (λ good. good ≤ length lines.now) }
    ensures few { IfOk result (λ good. good ≤ most_devices + most_partitions + 8) }
    ensures stop { IfOk result (λ good. good < length lines.now → CannotBegin
        (take (good + 1) (map (λ line. line.now) lines.now))) }
{
    if lines.len() < FIRST_LINES {
        return good_head(alloc, lines);
    }
    let (first, rest) = lines.split_at(FIRST_LINES);
    let Some(head) = if_read(read_head(alloc, first))? else {
        // where the others are as they have to be, it is the last
        return good_head(alloc, &first[..FIRST_LINES - 1]);
    };
    if usize::from(head.devices) > MOST_DEVICES {
        return Ok(FIRST_LINES - 1);
    }
    Ok(FIRST_LINES + good_rest(alloc, rest, &head)?)
}

/// The bytes before the first that is no UTF-8.
fn text_of(bytes: &[u8]) -> &str
    ensures front { result.now ≡ take (length result.now) bytes.now }
    ensures longest { (n : ℕ) → length result.now < n → n ≤ length bytes.now →
        IsUtf8 (take n bytes.now) → ⊥ }
{
    let fault = match str::from_utf8(bytes) {
        Ok(text) => return text,
        Err(fault) => fault,
    };
    match str::from_utf8(&bytes[..fault.valid_up_to()]) {
        Ok(text) => text,
        Err(_) => unreachable!(),
    }
}

/// In which line, counted from 1, bytes that are no ring's text stop being one: the first that
/// can't stand where it does. That is a line that isn't of its form, one that tells of more devices
/// than a ring has, one of a device whose number doesn't rise or whose address, port and name an
/// earlier one has, one of a partition on a device that isn't there or is there twice, or one
/// behind the line `end`. Where the text ends too early it is the line behind its last whole one,
/// and where a byte is no UTF-8 the line of that byte, if no earlier line is wrong. For the text of
/// a ring it is the last line.
pub fn stop_line(alloc: Global, bytes: &[u8]) -> Result<u32, AllocError>
    ensures { IfOk result (IsStop bytes.now) }
{
    let lines = parts_of(alloc, text_of(bytes), '\n')?;
    // what stands behind the last line feed is no whole line
    let whole = &lines[..lines.len() - 1];
    Ok(good_lines(alloc, whole)? as u32 + 1)
}
