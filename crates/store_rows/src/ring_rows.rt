//! The rows that stand for rings.
ghost use Rattle.std.specs.Prelude.{◌≡◌, ◌++◌, ◌*◌, ◌<◌, IfOk, None, drop, slice_index_or, take};
ghost use Rattle.std.specs.List.{flat_map};
ghost use Rattle.std.specs.Rc.{rc_str_bytes};
ghost use Rattle.ring_model.specs.Ring.{partition_count};
ghost use Rattle.store_model.specs.Contents.{device_of, part_of, published_of, ring_of};
ghost use Rattle.store_rows.specs.RingRows.{device_entry, part_entry, published_entry, ring_entry};
ghost use Rattle.store_rows.specs.RingRows.{two_bytes};

use crate::numbers::number_of_move;
use ring_model::Ring;
use ring_words::{Device, DeviceId, RingName};
use std::alloc::{AllocError, Global};
use std::rc::RcStr;
use store_model::{DeviceRow, PartRow, PublishedRow, RingRow};

/// The row of a ring.
pub(crate) fn ring_row(alloc: Global, name: &RingName, ring: &Ring) -> Result<RingRow, AllocError>
    ensures { IfOk result (λ row. ring_of row ≡ ring_entry (name.now, ring.now)) }
{
    Ok(RingRow {
        name: String::from_str(alloc, name.as_str())?,
        power: i64::from(ring.power().get()),
        replicas: i64::from(ring.replicas().get()),
        min_hours: i64::from(ring.min_hours()),
        next_id: i64::from(ring.next_id()),
        version: i64::from(ring.version()),
    })
}

/// The row of a device.
pub(crate) fn device_row(
    alloc: Global,
    name: &RingName,
    device: &Device,
) -> Result<DeviceRow, AllocError>
    ensures { IfOk result (λ row. device_of row ≡ device_entry name.now device.now) }
{
    let row = &device.row;
    Ok(DeviceRow {
        ring: String::from_str(alloc, name.as_str())?,
        id: i64::from(device.id),
        region: i64::from(row.region),
        zone: i64::from(row.zone),
        address: row.address.to_string(alloc)?,
        port: i64::from(row.port.get()),
        name: String::from_str(alloc, row.name.as_str())?,
        weight: i64::from(row.weight.hundredths()),
        removed: i64::from(device.removed),
    })
}

/// The row of a published text.
pub(crate) fn published_row(
    alloc: Global,
    name: &RingName,
    text: &(u32, RcStr),
) -> Result<PublishedRow, AllocError>
    ensures { IfOk result (λ row. published_of row
        ≡ published_entry name.now (text.now.0, rc_str_bytes text.now.1)) }
{
    Ok(PublishedRow {
        ring: String::from_str(alloc, name.as_str())?,
        version: i64::from(text.0),
        body: text.1.clone()?,
    })
}

/// Numbers of devices in two bytes each, the greater first.
fn bytes_of(alloc: Global, devices: &[DeviceId]) -> Result<Vec<u8>, AllocError>
    ensures { IfOk result (λ bytes. bytes.items ≡ flat_map two_bytes devices.now) }
{
    let mut bytes = Vec::new(alloc);
    for device in devices {
        bytes.push((*device / 256) as u8)?;
        bytes.push((*device % 256) as u8)?;
    }
    Ok(bytes)
}

/// The devices of a partition in order of replica, none where the seats are empty.
pub(crate) fn partition_seats(ring: &Ring, partition: usize) -> &[DeviceId]
    requires { partition < partition_count ring.now }
    ensures { result.now ≡ take ring.now.replicas (drop (partition * ring.now.replicas)
        ring.now.seats) }
{
    let seats = ring.seats();
    let replicas = usize::from(ring.replicas().get());
    if seats.is_empty() {
        return seats;
    }
    let first = partition * replicas;
    &seats[first..first + replicas]
}

/// The row of a partition that was moved last at this hour or never.
pub(crate) fn part_row(
    alloc: Global,
    name: &RingName,
    ring: &Ring,
    partition: usize,
) -> Result<PartRow, AllocError>
    requires { partition < partition_count ring.now }
    ensures { IfOk result (λ row. part_of row
        ≡ part_entry name.now ring.now.replicas ring.now.seats (partition, slice_index_or ring.now.moved partition None)) }
{
    let hour = ring.moves()[partition];
    Ok(PartRow {
        ring: String::from_str(alloc, name.as_str())?,
        part: partition as i64,
        devices: bytes_of(alloc, partition_seats(ring, partition))?,
        hour: number_of_move(hour),
    })
}
