//! The table of wants and balances.
ghost use Rattle.std.specs.Prelude.{◌≡◌, ◌++◌, ℕ, List, IfOk, OnOk, length, string_bytes};
ghost use Rattle.ring_share.specs.Want.{AreWanted};
ghost use Rattle.ring_share.specs.Room.{have};
ghost use Rattle.ring_tables.specs.Layout.{row};
ghost use Rattle.ring_tables.specs.Tables.{balance_columns, balance_titles, balance_texts};
ghost use Rattle.ring_tables.specs.Tables.{figures_line, balance_table};

use crate::cells::{hundredths_text, push_hundredths, push_number};
use ring_model::Ring;
use ring_share::{balance, balance_with, counts_of, dispersion, wanted};
use ring_words::Device;
use std::alloc::{AllocError, Global};

/// The titles of the columns as a row.
fn titles(alloc: Global) -> Result<String, AllocError>
    ensures { IfOk result (λ text. string_bytes text ≡ row balance_columns balance_titles) }
{
    String::from_str(alloc, "   id     weight wanted    has balance\n")
}

/// Adds a device that has so many seats as a row.
fn push_balance(
    into: &mut String,
    ring: &Ring,
    device: &Device,
    want: u32,
    seats: u32,
) -> Result<(), AllocError>
    requires { seats ≡ have ring.now device.now.id }
    ensures { OnOk result (string_bytes into.new ≡ string_bytes into.old ++
        row balance_columns (balance_texts ring.now device.now want)) }
{
    push_number(into, 5, u32::from(device.id), " ")?;
    push_hundredths(into, 10, device.row.weight.hundredths(), " ")?;
    push_number(into, 6, want, " ")?;
    push_number(into, 6, seats, " ")?;
    push_hundredths(into, 7, balance_with(ring, device, seats), "\n")
}

/// The figures of the whole ring as the last line.
fn figures_line(alloc: Global, ring: &Ring) -> Result<String, AllocError>
    ensures { IfOk result (λ text. string_bytes text ≡ figures_line ring.now) }
{
    let balance = hundredths_text(alloc, balance(ring))?;
    let dispersion = hundredths_text(alloc, dispersion(ring))?;
    let version = ring.version();
    format!(in alloc; "balance {balance} dispersion {dispersion} version {version}\n")
}

/// How many seats each device of a ring wants and has, and its balance: a row of titles, a row for
/// each device, by rising number, and last a line with the balance and the dispersion of the whole
/// ring and its version. Balances and the dispersion are in percent with two digits behind the
/// point.
pub fn balance_table(alloc: Global, ring: &Ring) -> Result<String, AllocError>
    ensures text { IfOk result (λ text. (wants : List ℕ) → AreWanted ring.now wants →
        string_bytes text ≡ balance_table ring.now wants) }
    ensures wanted { IfOk result (λ _. (wants : List ℕ) × AreWanted ring.now wants) }
{
    let wants = wanted(alloc, ring)?;
    let counts = counts_of(ring);
    let mut table = titles(alloc)?;
    for (place, device) in ring.devices().iter().enumerate() {
        push_balance(&mut table, ring, device, wants[place], counts[place])?;
    }
    let last = figures_line(alloc, ring)?;
    table.push_str(last.as_str())?;
    Ok(table)
}
