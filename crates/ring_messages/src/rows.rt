//! The rows of an import, and the device of a command.
ghost use Rattle.std.specs.Prelude.{◌≡◌, All, map};
ghost use Rattle.std.specs.List.{AllZip};
ghost use Rattle.serde_json.specs.View.{view};
ghost use Rattle.ring_messages.specs.Fields.{field_data, row_data, rows};
ghost use Rattle.ring_messages.specs.Inner.Parts.{rows_tokens};
ghost use Rattle.ring_messages.specs.Objects.{Adds, AddsData};
ghost use Rattle.ring_words.specs.Rows.{IsProperRow};
ghost use Rattle.ring_words.specs.Spelling.{Reads};
ghost use Rattle.ring_words.specs.Texts.{address_text, hundredths_text};
ghost use Rattle.ring_words.specs.Inner.ReadsAs.{ReadsAs};
ghost use Rattle.ring_messages.specs.Inner.Says.{seen_value, HasFields, SaysRow, ListsRow};
ghost use Rattle.ring_messages.specs.Commands.{act_fields};
ghost use Rattle.ring_words.specs.declared.command.Act.TheVariants.{Add, Import};

use crate::MessageFault;
use crate::objects::Scalar::{Number, Text};
use crate::objects::write_list;
use crate::parts::{self, bounded, number16};
use json::Writer;
use ring_words::{Row, Rows};
use serde_json::Value;
use std::alloc::{AllocError, Global};

/// Writes a row as a list, with the texts of its address and weight.
fn write_row_of_texts<'a>(
    writer: &mut Writer,
    row: &'a Row,
    address: &'a str,
    weight: &'a str,
) -> Result<(), AllocError>
    requires address { address.now ≡ address_text row.now.address }
    requires weight { weight.now ≡ hundredths_text row.now.weight }
    ensures { AddsData result writer.old writer.new (row_data row.now) }
{
    write_list(
        writer,
        &[
            Number(row.region.into()),
            Number(row.zone.into()),
            Text(address),
            Number(row.port.get().into()),
            Text(row.name.as_str()),
            Text(weight),
        ],
    )
}

fn write_row(writer: &mut Writer, alloc: Global, row: &Row) -> Result<(), AllocError>
    ensures { AddsData result writer.old writer.new (row_data row.now) }
{
    let address = row.address.to_string(alloc)?;
    let weight = row.weight.to_string(alloc)?;
    write_row_of_texts(writer, row, address.as_str(), weight.as_str())
}

fn write_each(writer: &mut Writer, alloc: Global, rows: &[Row]) -> Result<(), AllocError>
    ensures { Adds result writer.old writer.new (rows_tokens rows.now) }
{
    for row in rows {
        write_row(writer, alloc, row)?;
    }
    Ok(())
}

/// Writes the list of these rows.
pub(crate) fn write_rows(writer: &mut Writer, alloc: Global, of: &[Row]) -> Result<(), AllocError>
    ensures { AddsData result writer.old writer.new (field_data (rows of.now)) }
{
    writer.begin_array()?;
    write_each(writer, alloc, of)?;
    writer.end_array()
}

/// The row of what stands for each of its words.
fn row(
    alloc: Global,
    region: Option<&Value>,
    zone: Option<&Value>,
    address: Option<&Value>,
    port: Option<&Value>,
    name: Option<&Value>,
    weight: Option<&Value>,
) -> Result<Row, MessageFault>
    ensures { Reads (SaysRow (seen_value region.entry) (seen_value zone.entry)
        (seen_value address.entry) (seen_value port.entry) (seen_value name.entry)
        (seen_value weight.entry)) result }
{
    let region = number16(region)?;
    let zone = number16(zone)?;
    let address = parts::address(address)?;
    let port = bounded(port)?;
    let weight = parts::weight(weight)?;
    let name = parts::name(alloc, name)?;
    Ok(Row {
        region,
        zone,
        address,
        port,
        name,
        weight,
    })
}

/// The device that the members of an object ask for.
pub(crate) fn device(alloc: Global, value: &Value) -> Result<Row, MessageFault>
    ensures { Reads (λ row. HasFields (view value.now) (act_fields (Add row))) result }
{
    row(
        alloc,
        value.get("region"),
        value.get("zone"),
        value.get("address"),
        value.get("port"),
        value.get("name"),
        value.get("weight"),
    )
}

/// The row that a list is.
fn listed_row(alloc: Global, list: &Value) -> Result<Row, MessageFault>
    ensures { Reads (ListsRow (view list.now)) result }
{
    if list.get(6usize).is_some() {
        return Err(MessageFault::Bad);
    }
    row(
        alloc,
        list.get(0usize),
        list.get(1usize),
        list.get(2usize),
        list.get(3usize),
        list.get(4usize),
        list.get(5usize),
    )
}

/// The rows that a list of lists is.
fn rows(alloc: Global, lists: &[Value]) -> Result<Vec<Row>, MessageFault>
    ensures { ReadsAs (λ rows. rows.items) (AllZip ListsRow (map view lists.now)) result }
{
    let mut rows = Vec::with_capacity(alloc, lists.len())?;
    for list in lists {
        let row = listed_row(alloc, list)?;
        if let Err(refused) = rows.push(row) {
            return Err(AllocError::from(refused).into());
        }
    }
    Ok(rows)
}

/// The rows that the members of an object ask for.
pub(crate) fn import(alloc: Global, value: &Value) -> Result<Rows, MessageFault>
    ensures { Reads (λ rs. HasFields (view value.now) (act_fields (Import rs))) result }
{
    let Some(found) = value.get("rows") else {
        return Err(MessageFault::Bad);
    };
    let Some(lists) = found.as_array() else {
        return Err(MessageFault::Bad);
    };
    let rows = rows(alloc, lists)?;
    Ok(Rows::new(rows))
}

pub(crate) fn row_is_proper(row: &Row)
    ensures { IsProperRow row.now }
{
    let _region = row.region;
    let _zone = row.zone;
    let _address = row.address.bits();
    let _port = row.port.get();
    let _name = row.name.as_str();
    let _weight = row.weight.hundredths();
}

pub(crate) fn rows_are_proper(rows: &[Row])
    ensures { All IsProperRow rows.now }
{
    for row in rows {
        row_is_proper(row);
    }
}
