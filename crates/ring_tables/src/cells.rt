//! Cells of a row, each added behind what a text has.
ghost use Rattle.std.specs.Prelude.{◌≡◌, ◌<◌, ◌≤◌, ◌++◌, ◌∷◌, ℕ, IfOk, OnOk, replicate, decimal};
ghost use Rattle.std.specs.Prelude.{string_bytes};
ghost use Rattle.ring_words.specs.Texts.{hundredths_text, two_digits};
ghost use Rattle.ring_tables.specs.Layout.{at_left, at_right};

use itoa::Buffer;
use std::alloc::{AllocError, Global};

/// So many spaces, of a text that has sixteen.
fn spaces(count: usize) -> &'static str
    requires { count ≤ 16 }
    ensures { result.now ≡ replicate count 32 }
{
    &"                "[..count]
}

/// Adds so many spaces.
pub(crate) fn push_spaces(into: &mut String, count: usize) -> Result<(), AllocError>
    ensures { OnOk result (string_bytes into.new ≡ string_bytes into.old ++ replicate count 32) }
{
    if count <= 16 {
        return into.push_str(spaces(count));
    }
    for _space in 0..count {
        into.push_str(" ")?;
    }
    Ok(())
}

/// Adds a number, and what stands behind it.
pub fn push_decimal(into: &mut String, number: u32, end: &str) -> Result<(), AllocError>
    ensures { OnOk result (string_bytes into.new ≡ string_bytes into.old ++
        (decimal number ++ end.now)) }
{
    let mut buffer = Buffer::new();
    into.push_str(buffer.format(number))?;
    into.push_str(end)?;
    Ok(())
}

/// Adds a text at the left of a column, and what stands behind the column.
pub(crate) fn push_left(
    into: &mut String,
    width: usize,
    text: &str,
    end: &str,
) -> Result<(), AllocError>
    ensures { OnOk result (string_bytes into.new ≡ string_bytes into.old ++
        (at_left width text.now ++ end.now)) }
{
    into.push_str(text)?;
    push_spaces(into, width.saturating_sub(text.len()))?;
    into.push_str(end)?;
    Ok(())
}

/// Adds a text at the right of a column, and what stands behind the column.
pub(crate) fn push_right(
    into: &mut String,
    width: usize,
    text: &str,
    end: &str,
) -> Result<(), AllocError>
    ensures { OnOk result (string_bytes into.new ≡ string_bytes into.old ++
        (at_right width text.now ++ end.now)) }
{
    push_spaces(into, width.saturating_sub(text.len()))?;
    into.push_str(text)?;
    into.push_str(end)?;
    Ok(())
}

/// Adds a number at the right of a column, and what stands behind the column.
pub(crate) fn push_number(
    into: &mut String,
    width: usize,
    number: u32,
    end: &str,
) -> Result<(), AllocError>
    ensures { OnOk result (string_bytes into.new ≡ string_bytes into.old ++
        (at_right width (decimal number) ++ end.now)) }
{
    let mut buffer = Buffer::new();
    push_right(into, width, buffer.format(number), end)
}

/// Hundredths as whole ones, a point and two digits.
pub fn hundredths_text(alloc: Global, hundredths: u32) -> Result<String, AllocError>
    ensures { IfOk result (λ text. string_bytes text ≡ hundredths_text hundredths) }
{
    format!(in alloc; "{}.{:02}", hundredths / 100, hundredths % 100)
}

/// Adds hundredths below 100 as a point and two digits, and what stands behind them.
fn push_cents(into: &mut String, cents: u32, end: &str) -> Result<(), AllocError>
    requires { cents < 100 }
    ensures { OnOk result (string_bytes into.new ≡ string_bytes into.old ++
        (46 ∷ two_digits cents ++ end.now)) }
{
    into.push_str(".")?;
    push_decimal(into, cents / 10, "")?;
    push_decimal(into, cents % 10, end)
}

/// Adds hundredths at the right of a column, and what stands behind the column.
pub(crate) fn push_hundredths(
    into: &mut String,
    width: usize,
    hundredths: u32,
    end: &str,
) -> Result<(), AllocError>
    ensures { OnOk result (string_bytes into.new ≡ string_bytes into.old ++
        (at_right width (hundredths_text hundredths) ++ end.now)) }
{
    let mut buffer = Buffer::new();
    let whole = buffer.format(hundredths / 100);
    push_spaces(into, width.saturating_sub(whole.len() + 3))?;
    into.push_str(whole)?;
    push_cents(into, hundredths % 100, end)
}
