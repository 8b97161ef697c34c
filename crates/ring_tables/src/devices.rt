//! The table of devices.
ghost use Rattle.std.specs.Prelude.{◌≡◌, ◌++◌, ◌∷◌, [], ℕ, IfOk, OnOk, string_bytes};
ghost use Rattle.ring_words.specs.Texts.{address_text};
ghost use Rattle.ring_tables.specs.Layout.{at_left, cells, row};
ghost use Rattle.ring_tables.specs.Tables.{state_text, place_columns, place_texts, device_columns};
ghost use Rattle.ring_tables.specs.Tables.{device_titles, device_texts, device_table};

use crate::cells::{push_decimal, push_hundredths, push_left, push_number, push_spaces};
use ring_model::Ring;
use ring_words::{Address, Device};
use std::alloc::{AllocError, Global};

/// Whether seats may go to a device, in a word.
pub fn state_text(device: &Device) -> &'static str
    ensures { result.now ≡ state_text device.now }
{
    if device.removed {
        "removed"
    } else if device.row.weight.hundredths() == 0 {
        "drained"
    } else {
        "open"
    }
}

/// The titles of the columns as a row.
fn titles(alloc: Global) -> Result<String, AllocError>
    ensures { IfOk result (λ text. string_bytes text ≡ row device_columns device_titles) }
{
    String::from_str(
        alloc,
        "   id region  zone address          port     weight state   name\n",
    )
}

/// Adds an address, its four octets joined by points.
fn push_address(into: &mut String, address: Address) -> Result<(), AllocError>
    ensures { OnOk result (string_bytes into.new ≡ string_bytes into.old ++ address_text address) }
{
    let bits = address.bits();
    push_decimal(into, bits / 16777216, ".")?;
    push_decimal(into, bits / 65536 % 256, ".")?;
    push_decimal(into, bits / 256 % 256, ".")?;
    push_decimal(into, bits % 256, "")
}

/// Adds an address at the left of its column, and a space.
fn push_address_cell(into: &mut String, address: Address) -> Result<(), AllocError>
    ensures { OnOk result (string_bytes into.new ≡ string_bytes into.old ++
        (at_left 15 (address_text address) ++ 32 ∷ [])) }
{
    let before = into.len();
    push_address(into, address)?;
    let length = into.len() - before;
    push_spaces(into, 15usize.saturating_sub(length))?;
    into.push_str(" ")?;
    Ok(())
}

/// Adds where a device stands, as cells, and a space.
fn push_place(into: &mut String, device: &Device) -> Result<(), AllocError>
    ensures { OnOk result (string_bytes into.new ≡ string_bytes into.old ++
        (cells place_columns (place_texts device.now) ++ 32 ∷ [])) }
{
    let row = &device.row;
    push_number(into, 6, u32::from(row.region), " ")?;
    push_number(into, 5, u32::from(row.zone), " ")?;
    push_address_cell(into, row.address)?;
    push_number(into, 5, u32::from(row.port.get()), " ")
}

/// Adds a device as a row.
fn push_device(into: &mut String, device: &Device) -> Result<(), AllocError>
    ensures { OnOk result (string_bytes into.new ≡ string_bytes into.old ++
        row device_columns (device_texts device.now)) }
{
    push_number(into, 5, u32::from(device.id), " ")?;
    push_place(into, device)?;
    push_hundredths(into, 10, device.row.weight.hundredths(), " ")?;
    push_left(into, 7, state_text(device), " ")?;
    into.push_str(device.row.name.as_str())?;
    into.push_str("\n")?;
    Ok(())
}

/// Where each device of a ring stands, what it weighs, and its state, which is `open`, `drained`
/// (it weighs nothing) or `removed` (it is marked to be removed): a row of titles, and then a row
/// for each device, by rising number.
pub fn device_table(alloc: Global, ring: &Ring) -> Result<String, AllocError>
    ensures { IfOk result (λ text. string_bytes text ≡ device_table ring.now) }
{
    let devices = ring.devices();
    let mut table = titles(alloc)?;
    for device in devices {
        push_device(&mut table, device)?;
    }
    Ok(table)
}
