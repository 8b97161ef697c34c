//! The rows that stand for seats and moves in a store of schema 1.
ghost use Rattle.std.specs.Prelude.{◌≡◌, ◌++◌, ◌<◌, ◌≤◌, IfOk, None, OnOk, length, map};
ghost use Rattle.std.specs.Prelude.{slice_index_or};
ghost use Rattle.std.specs.List.{enumerate_from, flat_map};
ghost use Rattle.store_model.specs.Contents.{moved_of, seat_of};
ghost use Rattle.store_rows.specs.FirstRows.{moved_entries, moved_entry, seat_entries, seat_entry};

use ring_model::{Ring, Rings};
use ring_words::{DeviceId, Hour, RingName};
use std::alloc::{AllocError, Global};
use store_model::{MovedRow, SeatRow};

/// The row of a seat, the `place`-th of a ring with so many replicas.
fn seat_row(
    alloc: Global,
    name: &RingName,
    replicas: u32,
    place: u32,
    device: DeviceId,
) -> Result<SeatRow, AllocError>
    requires { 0 < replicas }
    ensures { IfOk result (λ row. seat_of row ≡ seat_entry name.now replicas (place, device)) }
{
    Ok(SeatRow {
        ring: String::from_str(alloc, name.as_str())?,
        part: i64::from(place / replicas),
        replica: i64::from(place % replicas),
        device: i64::from(device),
    })
}

/// Adds the rows of a ring's seats.
fn push_seats(
    alloc: Global,
    into: &mut Vec<SeatRow>,
    name: &RingName,
    ring: &Ring,
) -> Result<(), AllocError>
    ensures { OnOk result (map seat_of into.new.items ≡ map seat_of into.old.items
        ++ map (seat_entry name.now ring.now.replicas) (enumerate_from 0 ring.now.seats)) }
{
    let replicas = u32::from(ring.replicas().get());
    let seats = ring.seats();
    for (place, device) in seats.iter().enumerate() {
        into.push(seat_row(alloc, name, replicas, place as u32, *device)?)?;
    }
    Ok(())
}

/// The rows of `seat` that stand for rings.
pub(crate) fn seat_rows(alloc: Global, rings: &Rings) -> Result<Vec<SeatRow>, AllocError>
    ensures { IfOk result (λ rows. map seat_of rows.items ≡ seat_entries rings.now) }
{
    let mut rows = Vec::new(alloc);
    for entry in rings.list() {
        push_seats(alloc, &mut rows, &entry.0, entry.1.as_ref())?;
    }
    Ok(rows)
}

/// Adds the row of a partition's last move, if it was moved.
fn push_move(
    alloc: Global,
    into: &mut Vec<MovedRow>,
    name: &RingName,
    part: u32,
    hour: Option<Hour>,
) -> Result<(), AllocError>
    ensures { OnOk result (map moved_of into.new.items ≡ map moved_of into.old.items
        ++ moved_entry name.now (part, hour)) }
{
    let Some(hour) = hour else {
        return Ok(());
    };
    into.push(MovedRow {
        ring: String::from_str(alloc, name.as_str())?,
        part: i64::from(part),
        hour: i64::from(hour),
    })?;
    Ok(())
}

/// Adds the rows of a ring's last moves.
fn push_moves(
    alloc: Global,
    into: &mut Vec<MovedRow>,
    name: &RingName,
    ring: &Ring,
) -> Result<(), AllocError>
    ensures { OnOk result (map moved_of into.new.items ≡ map moved_of into.old.items
        ++ flat_map (moved_entry name.now) (enumerate_from 0 ring.now.moved)) }
{
    let moves = ring.moves();
    for (part, hour) in moves.iter().enumerate() {
        push_move(alloc, into, name, part as u32, *hour)?;
    }
    Ok(())
}

/// The rows of `moved` that stand for rings.
pub(crate) fn moved_rows(alloc: Global, rings: &Rings) -> Result<Vec<MovedRow>, AllocError>
    ensures { IfOk result (λ rows. map moved_of rows.items ≡ moved_entries rings.now) }
{
    let mut rows = Vec::new(alloc);
    for entry in rings.list() {
        push_moves(alloc, &mut rows, &entry.0, entry.1.as_ref())?;
    }
    Ok(rows)
}
