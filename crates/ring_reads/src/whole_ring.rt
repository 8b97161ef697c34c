//! A whole ring as JSON text.
ghost use Rattle.std.specs.Prelude.{◌≡◌, IfOk, string_bytes};
ghost use Rattle.std.specs.List.{zip};
ghost use Rattle.ring_messages.specs.Fields.{whole};
ghost use Rattle.ring_messages.specs.Objects.{AddsData};
ghost use Rattle.ring_words.specs.Texts.{address_text, hundredths_text};
ghost use Rattle.ring_share.specs.Room.{have};
ghost use Rattle.ring_share.specs.Want.{AreWanted};
ghost use Rattle.ring_reads.specs.Inner.Behind.{behind_published};
ghost use Rattle.ring_reads.specs.Inner.Lists.{EndsList, TellsEach};
ghost use Rattle.ring_reads.specs.RingJson.{IsRingJson, device_data, ring_data};

use crate::lists::{begin_list, end_list, next_list};
use json::Writer;
use ring_messages::Scalar::{Number, Text};
use ring_messages::{new_text, text_of, write_object};
use ring_metrics::{locked_count, rest};
use ring_model::Ring;
use ring_share::{balance, counts_of, dispersion, wanted};
use ring_tables::state_text;
use ring_words::{Device, Hour, RingName};
use std::alloc::{AllocError, Global};

/// Writes a device that wants and has so many seats, with the texts of its address and weight.
fn write_device_of_texts<'a>(
    writer: &mut Writer,
    device: &'a Device,
    want: u32,
    seats: u32,
    address: &'a str,
    weight: &'a str,
) -> Result<(), AllocError>
    requires address { address.now ≡ address_text device.now.row.address }
    requires weight { weight.now ≡ hundredths_text device.now.row.weight }
    ensures { AddsData result writer.old writer.new (device_data device.now want seats) }
{
    write_object(
        writer,
        &[
            ("address", Text(address)),
            ("has", Number(seats as u64)),
            ("id", Number(device.id as u64)),
            ("name", Text(device.row.name.as_str())),
            ("port", Number(device.row.port.get() as u64)),
            ("region", Number(device.row.region as u64)),
            ("state", Text(state_text(device))),
            ("wanted", Number(want as u64)),
            ("weight", Text(weight)),
            ("zone", Number(device.row.zone as u64)),
        ],
    )
}

/// Writes a device that wants and has so many seats.
fn write_device(
    writer: &mut Writer,
    alloc: Global,
    device: &Device,
    want: u32,
    seats: u32,
) -> Result<(), AllocError>
    ensures { AddsData result writer.old writer.new (device_data device.now want seats) }
{
    let address = device.row.address.to_string(alloc)?;
    let weight = device.row.weight.to_string(alloc)?;
    write_device_of_texts(
        writer,
        device,
        want,
        seats,
        address.as_str(),
        weight.as_str(),
    )
}

/// Writes the devices of a ring, which want so many seats.
fn write_devices(
    writer: &mut Writer,
    alloc: Global,
    ring: &Ring,
    wants: &[u32],
) -> Result<(), AllocError>
    requires { AreWanted ring.now wants.now }
    ensures { TellsEach result writer.old writer.new
        (λ e. device_data e.0 e.1 (have ring.now e.0.id)) (zip ring.now.devices wants.now) }
{
    let counts = counts_of(ring);
    for (place, device) in ring.devices().iter().enumerate() {
        write_device(writer, alloc, device, wants[place], counts[place])?;
    }
    Ok(())
}

/// Writes the versions under which texts are published of a ring.
fn write_versions(writer: &mut Writer, ring: &Ring) -> Result<(), AllocError>
    ensures { TellsEach result writer.old writer.new (λ e. whole e.0) ring.now.published }
{
    let published = ring.published_list();
    for text in published {
        writer.u64(text.0 as u64)?;
    }
    Ok(())
}

/// Ends the object of a ring, of which some partition is locked for so many hours more.
fn end_ring(writer: &mut Writer, name: &RingName, ring: &Ring, rest: u64) -> Result<(), AllocError>
    ensures { EndsList result writer.old writer.new (behind_published name.now ring.now rest) }
{
    end_list(
        writer,
        &[
            ("replicas", Number(ring.replicas().get() as u64)),
            ("rests", Number(rest)),
            ("ring", Text(name.as_str())),
            ("seats", Number(ring.seats().len() as u64)),
            ("version", Number(ring.version() as u64)),
        ],
    )
}

/// Writes a ring at an hour, of which some partition is locked for so many hours more, and whose
/// devices want so many seats.
fn write_ring(
    writer: &mut Writer,
    alloc: Global,
    name: &RingName,
    ring: &Ring,
    hour: Hour,
    wants: &[u32],
    rest: u64,
) -> Result<(), AllocError>
    requires { AreWanted ring.now wants.now }
    ensures { AddsData result writer.old writer.new
        (ring_data name.now ring.now hour wants.now rest) }
{
    begin_list(
        writer,
        "devices",
        &[("balance", Number(balance(ring) as u64))],
    )?;
    write_devices(writer, alloc, ring, wants)?;
    next_list(
        writer,
        "published",
        &[
            ("dispersion", Number(dispersion(ring) as u64)),
            ("hour", Number(hour as u64)),
            ("locked", Number(locked_count(ring, hour) as u64)),
            ("min_hours", Number(ring.min_hours() as u64)),
            ("next_id", Number(ring.next_id() as u64)),
            ("power", Number(ring.power().get() as u64)),
        ],
    )?;
    write_versions(writer, ring)?;
    end_ring(writer, name, ring, rest)
}

/// A ring of this name at an hour as compact JSON, its keys in byte order.
///
/// Of the ring: its `power`, `replicas` and `min_hours`; its `version`; the number `next_id` that
/// the next device gets, 65536 where there is none left; how many `seats` are taken, 0 where none
/// is; its `balance` and `dispersion` in hundredths of a percent, as the reply to a rebalance tells
/// them; how many partitions are `locked` at the hour, and in how many hours none is any more
/// (`rests`); and the versions under which it is `published`. Of each of its `devices`, by rising
/// number: where it stands, what it weighs, how many seats it wants and has, and its state, as the
/// tables tell them.
pub fn ring_json(
    alloc: Global,
    name: &RingName,
    ring: &Ring,
    hour: Hour,
) -> Result<String, AllocError>
    ensures { IfOk result (λ text. IsRingJson name.now ring.now hour (string_bytes text)) }
{
    let wants = wanted(alloc, ring)?;
    let rest = rest(ring, hour);
    let mut writer = new_text(alloc)?;
    write_ring(&mut writer, alloc, name, ring, hour, &wants, rest)?;
    Ok(text_of(writer))
}
