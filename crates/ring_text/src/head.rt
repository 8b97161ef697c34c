//! The first lines of a text.
ghost use Rattle.std.specs.Prelude.{◌≡◌, ◌+◌, ◌<◌, IsErrOf, codes, map};
ghost use Rattle.ring_words.specs.Limits.{greatest_long, greatest_power, greatest_short};
ghost use Rattle.ring_words.specs.Limits.{most_replicas};
ghost use Rattle.ring_text.specs.Inner.Reading.{IsHead, IsNameAfter, IsNumberAfter};
ghost use Rattle.ring_text.specs.Inner.Stopping.{IsHeadLine};
ghost use Rattle.ring_words.specs.Spelling.{Reads};
ghost use Rattle.ring_words.specs.declared.spelling.SpellingFault.TheVariants.{Bad};

use crate::TextFault;
use crate::words::{bounded_after, name_after, number_after, text_at};
use ring_words::{Power, Replicas, RingName};
use std::alloc::Global;

/// How many first lines there are.
pub(crate) const FIRST_LINES: usize = 6;

/// What the first lines tell.
#[derive(Drop)]
pub(crate) struct Head {
    pub(crate) name: RingName,
    pub(crate) version: u32,
    pub(crate) power: Power,
    pub(crate) replicas: Replicas,
    /// How many lines of devices follow.
    pub(crate) devices: u16,
}

/// Reads the line that tells the form of the text.
fn form_at(line: &str) -> Result<(), TextFault>
    ensures { Reads (λ _. line.now ≡ codes "swift-ring-text 1") result }
{
    if line == "swift-ring-text 1" {
        Ok(())
    } else {
        Err(TextFault::Bad)
    }
}

fn name_at(alloc: Global, line: &str) -> Result<RingName, TextFault>
    ensures { Reads (IsNameAfter (codes "ring ") line.now) result }
{
    name_after(alloc, line, "ring ")
}

fn version_at(line: &str) -> Result<u32, TextFault>
    ensures { Reads (IsNumberAfter (codes "version ") line.now 0 greatest_long) result }
{
    number_after(line, "version ", u32::MAX)
}

fn power_at(line: &str) -> Result<Power, TextFault>
    ensures { Reads (IsNumberAfter (codes "power ") line.now 1 greatest_power) result }
{
    bounded_after(line, "power ")
}

fn replicas_at(line: &str) -> Result<Replicas, TextFault>
    ensures { Reads (IsNumberAfter (codes "replicas ") line.now 1 most_replicas) result }
{
    bounded_after(line, "replicas ")
}

/// Reads the line that tells how many lines of devices follow.
fn device_count_at(line: &str) -> Result<u16, TextFault>
    ensures { Reads (IsNumberAfter (codes "devices ") line.now 0 greatest_short) result }
{
    let count = number_after(line, "devices ", u32::from(u16::MAX))?;
    Ok(count as u16)
}

/// What these first lines tell.
pub(crate) fn read_head(alloc: Global, lines: &[&str]) -> Result<Head, TextFault>
    ensures { Reads (IsHead (map (λ line. line.now) lines.now)) result }
{
    if lines.len() != FIRST_LINES {
        return Err(TextFault::Bad);
    }
    form_at(text_at(lines, 0))?;
    Ok(Head {
        name: name_at(alloc, text_at(lines, 1))?,
        version: version_at(text_at(lines, 2))?,
        power: power_at(text_at(lines, 3))?,
        replicas: replicas_at(text_at(lines, 4))?,
        devices: device_count_at(text_at(lines, 5))?,
    })
}

/// Reads one of the first lines but the last, by its place.
pub(crate) fn read_head_line(alloc: Global, place: usize, line: &str) -> Result<(), TextFault>
    requires { place + 1 < 6 }
    ensures { IsErrOf result Bad → IsHeadLine place line.now → ⊥ }
{
    match place {
        0 => form_at(line)?,
        1 => drop(name_at(alloc, line)?),
        2 => drop(version_at(line)?),
        3 => drop(power_at(line)?),
        _ => drop(replicas_at(line)?),
    }
    Ok(())
}
