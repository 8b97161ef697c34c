//! A ring, read from its rows.
ghost use Rattle.std.specs.Prelude.{◌≡◌, ◌++◌, ◌<◌, ◌^◌, All, List, OnOk, ℕ, map, true};
ghost use Rattle.std.specs.List.{flat_map};
ghost use Rattle.ring_words.specs.Limits.{short_count};
ghost use Rattle.ring_model.specs.Parts.{record_of};
ghost use Rattle.store_model.specs.Contents.{moved_of};
ghost use Rattle.store_rows.specs.RingRows.{two_bytes};
ghost use Rattle.store_rows.specs.Inner.Found.{ReadsRow, StandForMoves, StandForParts};
ghost use Rattle.store_rows.specs.Inner.Found.{StandForPlaces};
ghost use Rattle.store_rows.specs.Inner.Found.{StandForMove, StandForRing};

use crate::naming::RingTables;
use crate::numbers::{bounded, last_move, number16, number32};
use crate::row_reading::read_each;
use ring_model::{BuildFault, Ring, RingParts};
use ring_words::{DeviceId, Hour, Power, SpellingFault, partition_count};
use std::alloc::{AllocError, Global};
use store_model::{MovedRow, PartRow, RingRow};

/// The seats of a ring, and the hours at which its partitions were moved last.
#[derive(Drop)]
struct Assignment {
    seats: Vec<DeviceId>,
    moved: Vec<Option<Hour>>,
}

/// Adds the devices that bytes name, two a device, the greater first.
fn push_seats(into: &mut Vec<DeviceId>, bytes: &[u8]) -> Result<(), AllocError>
    ensures { (ids : List ℕ) → bytes.now ≡ flat_map two_bytes ids → All (λ id. id < short_count) ids
        → OnOk result (into.new.items ≡ into.old.items ++ ids) }
{
    for place in 0..bytes.len() / 2 {
        let greater = u16::from(bytes[2 * place]);
        into.push(greater * 256 + u16::from(bytes[2 * place + 1]))?;
    }
    Ok(())
}

/// The seats and moves of a ring, from the rows of its partitions.
fn read_parts(alloc: Global, rows: &[PartRow]) -> Result<Assignment, SpellingFault>
    ensures { ReadsRow (λ a. (a.seats.items, a.moved.items)) (StandForParts rows.now) result }
{
    let mut seats = Vec::new(alloc);
    let mut moved = Vec::new(alloc);
    for row in rows {
        push_seats(&mut seats, &row.devices)?;
        moved.push(last_move(row.hour)?)?;
    }
    Ok(Assignment { seats, moved })
}

/// The hour of a partition's last move, where the first row is that partition's, and the rows
/// behind it.
fn split_move(
    rows: &[MovedRow],
    partition: u32,
) -> Result<(Option<Hour>, &[MovedRow]), SpellingFault>
    ensures { ReadsRow (λ found. (found.0, map moved_of found.1.now))
        (StandForMove rows.now partition)
        result }
{
    match rows.split_first() {
        Some((row, rest)) if row.part == i64::from(partition) => {
            Ok((Some(number32(row.hour)?), rest))
        }
        _ => Ok((None, rows)),
    }
}

/// The hours of the last moves of so many partitions, from a row for each partition that was moved.
fn read_moves(
    alloc: Global,
    rows: &[MovedRow],
    partitions: u32,
) -> Result<Vec<Option<Hour>>, SpellingFault>
    ensures { ReadsRow (λ moved. moved.items) (StandForMoves rows.now partitions) result }
{
    let mut moved = Vec::new(alloc);
    let mut rest = rows;
    for partition in 0..partitions {
        let (hour, behind) = split_move(rest, partition)?;
        moved.push(hour)?;
        rest = behind;
    }
    Ok(moved)
}

/// The seats and moves of a ring, from the rows of schema 1.
fn read_first(
    alloc: Global,
    tables: &RingTables<'_>,
    power: Power,
) -> Result<Assignment, SpellingFault>
    ensures { ReadsRow (λ a. (a.seats.items, a.moved.items))
        (StandForPlaces true tables.now (2 ^ power))
        result }
{
    Ok(Assignment {
        seats: read_each(alloc, tables.seats)?,
        moved: read_moves(alloc, tables.moved, partition_count(power) as u32)?,
    })
}

/// The seats and moves of a ring, from the rows of schema 1 or of schema 2.
fn read_assignment(
    alloc: Global,
    is_first: bool,
    tables: &RingTables<'_>,
    power: Power,
) -> Result<Assignment, SpellingFault>
    ensures { ReadsRow (λ a. (a.seats.items, a.moved.items))
        (StandForPlaces is_first tables.now (2 ^ power)) result }
{
    if is_first {
        read_first(alloc, tables, power)
    } else {
        read_parts(alloc, tables.parts)
    }
}

/// The parts of a ring, from its row and its rows in the other tables.
fn read_ring_parts(
    alloc: Global,
    is_first: bool,
    row: &RingRow,
    tables: &RingTables<'_>,
) -> Result<RingParts, SpellingFault>
    ensures { ReadsRow record_of (StandForRing is_first row.now tables.now) result }
{
    let power = bounded(row.power)?;
    let replicas = bounded(row.replicas)?;
    let assignment = read_assignment(alloc, is_first, tables, power)?;
    Ok(RingParts {
        power,
        replicas,
        min_hours: number16(row.min_hours)?,
        next_id: number32(row.next_id)?,
        version: number32(row.version)?,
        devices: read_each(alloc, tables.devices)?,
        seats: assignment.seats,
        moved: assignment.moved,
        published: read_each(alloc, tables.published)?,
    })
}

/// A ring, from its row and its rows in the other tables.
pub(crate) fn read_ring(
    alloc: Global,
    is_first: bool,
    row: &RingRow,
    tables: &RingTables<'_>,
) -> Result<Ring, SpellingFault>
    ensures { ReadsRow (λ ring. ring) (StandForRing is_first row.now tables.now) result }
{
    let parts = read_ring_parts(alloc, is_first, row, tables)?;
    match Ring::build(alloc, parts) {
        Ok(ring) => Ok(ring),
        Err(BuildFault::Invalid) => Err(SpellingFault::Bad),
        Err(BuildFault::NoMemory) => Err(SpellingFault::NoMemory),
    }
}
