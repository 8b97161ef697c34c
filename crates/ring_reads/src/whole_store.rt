//! Which rings there are, and how much is kept, as JSON text.
ghost use Rattle.std.specs.Prelude.{◌≡◌, IfOk, length, string_bytes};
ghost use Rattle.ring_messages.specs.Objects.{AddsData};
ghost use Rattle.ring_reads.specs.Holding.{holding_of};
ghost use Rattle.ring_reads.specs.Inner.Lists.{TellsEach};
ghost use Rattle.ring_reads.specs.StoreJson.{listed_data, rings_data, rings_json, status_data};
ghost use Rattle.ring_reads.specs.StoreJson.{status_json};

use crate::held::Held;
use crate::lists::{begin_list, end_list};
use json::Writer;
use ring_messages::Scalar::{Number, Text};
use ring_messages::{new_text, text_of, write_object};
use ring_model::{Ring, Rings};
use ring_words::RingName;
use std::alloc::{AllocError, Global};

/// Writes a ring among the rings.
fn write_listed(writer: &mut Writer, name: &RingName, ring: &Ring) -> Result<(), AllocError>
    ensures { AddsData result writer.old writer.new (listed_data (name.now, ring.now)) }
{
    write_object(
        writer,
        &[
            ("ring", Text(name.as_str())),
            ("version", Number(ring.version() as u64)),
        ],
    )
}

/// Writes the rings, by rising name.
fn write_each_ring(writer: &mut Writer, rings: &Rings) -> Result<(), AllocError>
    ensures { TellsEach result writer.old writer.new listed_data rings.now }
{
    let entries = rings.list();
    for entry in entries {
        write_listed(writer, &entry.0, entry.1.as_ref())?;
    }
    Ok(())
}

/// Writes the object with the rings.
fn write_rings(writer: &mut Writer, rings: &Rings) -> Result<(), AllocError>
    ensures { AddsData result writer.old writer.new (rings_data rings.now) }
{
    begin_list(writer, "rings", &[])?;
    write_each_ring(writer, rings)?;
    end_list(writer, &[])
}

/// Which rings there are, as compact JSON, its keys in byte order: of each, by rising name, its name
/// and its `version`, which is 0 for a new one.
pub fn rings_json(alloc: Global, rings: &Rings) -> Result<String, AllocError>
    ensures { IfOk result (λ text. string_bytes text ≡ rings_json rings.now) }
{
    let mut writer = new_text(alloc)?;
    write_rings(&mut writer, rings)?;
    Ok(text_of(writer))
}

/// How many rings there are.
fn ring_count(rings: &Rings) -> usize
    ensures { result ≡ length rings.now }
{
    rings.list().len()
}

/// Writes the object with the figures of what is held.
fn write_status(writer: &mut Writer, held: &Held<'_>) -> Result<(), AllocError>
    ensures { AddsData result writer.old writer.new (status_data (holding_of held.now)) }
{
    write_object(
        writer,
        &[
            ("hour", Number(held.hour as u64)),
            ("kept", Number(held.kept as u64)),
            ("limit", Number(held.limit as u64)),
            ("rings", Number(ring_count(held.rings) as u64)),
        ],
    )
}

/// How much is held, as compact JSON, its keys in byte order: the greatest `hour` that was decided
/// at, how many numbers of callers are `kept`, how many may be (`limit`), and how many `rings` there
/// are.
pub fn status_json(alloc: Global, held: &Held<'_>) -> Result<String, AllocError>
    ensures { IfOk result (λ text. string_bytes text ≡ status_json (holding_of held.now)) }
{
    let mut writer = new_text(alloc)?;
    write_status(&mut writer, held)?;
    Ok(text_of(writer))
}
