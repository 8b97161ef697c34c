//! The nodes of a partition as JSON text.
ghost use Rattle.std.specs.Prelude.{◌≡◌, ◌==◌, ◌∷◌, [], IfOk, find, string_bytes};
ghost use Rattle.std.specs.Option.{option_copied};
ghost use Rattle.ring_messages.specs.Objects.{AddsData};
ghost use Rattle.ring_words.specs.Texts.{address_text};
ghost use Rattle.ring_reads.specs.Inner.Lists.{TellsEach};
ghost use Rattle.ring_reads.specs.Nodes.{devices_of, node_data, nodes_data, nodes_json};

use crate::lists::{begin_list, end_list};
use json::Writer;
use ring_messages::Scalar::{Number, Text};
use ring_messages::{new_text, text_of, write_object};
use ring_model::Ring;
use ring_words::{Device, DeviceId};
use std::alloc::{AllocError, Global};

/// Writes a node, with the text of its device's address.
fn write_node_of_text<'a>(
    writer: &mut Writer,
    device: &'a Device,
    address: &'a str,
) -> Result<(), AllocError>
    requires { address.now ≡ address_text device.now.row.address }
    ensures { AddsData result writer.old writer.new (node_data device.now) }
{
    write_object(
        writer,
        &[
            ("address", Text(address)),
            ("device", Text(device.row.name.as_str())),
            ("id", Number(device.id as u64)),
            ("port", Number(device.row.port.get() as u64)),
            ("region", Number(device.row.region as u64)),
            ("zone", Number(device.row.zone as u64)),
        ],
    )
}

/// Writes a node.
fn write_node(writer: &mut Writer, alloc: Global, device: &Device) -> Result<(), AllocError>
    ensures { AddsData result writer.old writer.new (node_data device.now) }
{
    let address = device.row.address.to_string(alloc)?;
    write_node_of_text(writer, device, address.as_str())
}

fn device_at(ring: &Ring, id: DeviceId) -> Option<&Device>
    ensures { option_copied result ≡ find (λ device. device.id == id) ring.now.devices }
{
    ring.devices().iter().find(|device| device.id == id)
}

/// Writes the node whose device has a number, if one has it.
fn write_node_at(
    writer: &mut Writer,
    alloc: Global,
    ring: &Ring,
    id: DeviceId,
) -> Result<(), AllocError>
    ensures { TellsEach result writer.old writer.new node_data (devices_of ring.now (id ∷ [])) }
{
    match device_at(ring, id) {
        Some(device) => write_node(writer, alloc, device),
        None => Ok(()),
    }
}

/// Writes the nodes of these numbers.
fn write_each_node(
    writer: &mut Writer,
    alloc: Global,
    ring: &Ring,
    ids: &[DeviceId],
) -> Result<(), AllocError>
    ensures { TellsEach result writer.old writer.new node_data (devices_of ring.now ids.now) }
{
    for id in ids {
        write_node_at(writer, alloc, ring, *id)?;
    }
    Ok(())
}

/// Writes the object with the nodes of a partition.
fn write_nodes(
    writer: &mut Writer,
    alloc: Global,
    ring: &Ring,
    partition: u32,
    ids: &[DeviceId],
) -> Result<(), AllocError>
    ensures { AddsData result writer.old writer.new (nodes_data ring.now partition ids.now) }
{
    begin_list(writer, "nodes", &[])?;
    write_each_node(writer, alloc, ring, ids)?;
    end_list(writer, &[("partition", Number(partition as u64))])
}

/// The nodes of a partition as compact JSON: of each device its address, name, number, port, region
/// and zone, in the order of the numbers that are handed in, and the partition's own number.
pub fn nodes_text(
    alloc: Global,
    ring: &Ring,
    partition: u32,
    ids: &[DeviceId],
) -> Result<String, AllocError>
    ensures { IfOk result (λ text. string_bytes text ≡ nodes_json ring.now partition ids.now) }
{
    let mut writer = new_text(alloc)?;
    write_nodes(&mut writer, alloc, ring, partition, ids)?;
    Ok(text_of(writer))
}
