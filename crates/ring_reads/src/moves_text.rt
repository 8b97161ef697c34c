//! What moved between two published versions of a ring, as JSON text and as lines.
ghost use Rattle.std.specs.Prelude.{◌≡◌, ◌++◌, ◌∷◌, ◌||◌, [], IfOk, List, OnOk, filter};
ghost use Rattle.std.specs.Prelude.{string_bytes};
ghost use Rattle.std.specs.List.{flat_map};
ghost use Rattle.serde_json.specs.Written.{compact_text};
ghost use Rattle.ring_messages.specs.Objects.{AddsData};
ghost use Rattle.ring_model.specs.Ring.{has_device};
ghost use Rattle.ring_reads.specs.Inner.Behind.{behind_movers};
ghost use Rattle.ring_reads.specs.Inner.Counted.{AreMoverCounts};
ghost use Rattle.ring_reads.specs.Inner.Lists.{EndsList, TellsEach};
ghost use Rattle.ring_reads.specs.MovesJson.{mover_data, moves_data};
ghost use Rattle.ring_reads.specs.SeatMoves.{given_seats, is_mover, move_line, move_lines, movers};
ghost use Rattle.ring_reads.specs.SeatMoves.{moved_partitions, seat_moves, seat_word, taken_seats};
ghost use Rattle.ring_reads.specs.declared.seat_moves.Move.{Move as MoveModel};

use crate::lists::{begin_list, end_list};
use crate::seat_counts::{given_counts, taken_counts};
use crate::seat_moves::{Move, Moves, moves_between};
use json::Writer;
use ring_messages::Scalar::{Number, Text};
use ring_messages::{new_text, text_of, write_object};
use ring_tables::push_decimal;
use ring_text::Snapshot;
use ring_words::{Device, DeviceId, MOST_IDS, RingName};
use std::alloc::{AllocError, Global};

/// By the number of a device, how many of the seats that differ it gave and took.
#[derive(Drop)]
struct MoverCounts {
    given: Vec<usize>,
    taken: Vec<usize>,
}

/// The counts of these.
fn mover_counts(alloc: Global, moves: &[Move]) -> Result<MoverCounts, AllocError>
    ensures { IfOk result (λ counts. AreMoverCounts moves.now counts) }
{
    let given = given_counts(alloc, moves)?;
    let taken = taken_counts(alloc, moves)?;
    Ok(MoverCounts { given, taken })
}

fn has_device(devices: &[Device], id: DeviceId) -> bool
    ensures { result ≡ has_device id devices.now }
{
    devices.iter().any(|device| device.id == id)
}

/// Whether the device of a number is one of either ring.
fn is_known(old: &Snapshot, new: &Snapshot, id: DeviceId) -> bool
    ensures { result ≡ (has_device id old.now.devices || has_device id new.now.devices) }
{
    has_device(old.devices(), id) || has_device(new.devices(), id)
}

/// Whether it is, and gave or took some of the seats that differ, where it gave and took so many.
fn is_mover(old: &Snapshot, new: &Snapshot, id: DeviceId, given: usize, taken: usize) -> bool
    ensures { (moves : List MoveModel) → given ≡ given_seats moves id → taken ≡ taken_seats moves id
        → result ≡ is_mover old.now new.now moves id }
{
    (given > 0 || taken > 0) && is_known(old, new, id)
}

/// Writes the device of a number that gave and took so many of the seats that differ.
fn write_mover(
    writer: &mut Writer,
    id: DeviceId,
    given: usize,
    taken: usize,
) -> Result<(), AllocError>
    ensures { (moves : List MoveModel) → given ≡ given_seats moves id → taken ≡ taken_seats moves id
        → AddsData result writer.old writer.new (mover_data moves id) }
{
    write_object(
        writer,
        &[
            ("gives", Number(given as u64)),
            ("id", Number(id as u64)),
            ("takes", Number(taken as u64)),
        ],
    )
}

/// Writes the device of a number if it gave or took some of the seats that differ.
fn write_if_mover(
    writer: &mut Writer,
    old: &Snapshot,
    new: &Snapshot,
    id: DeviceId,
    counts: &MoverCounts,
) -> Result<(), AllocError>
    requires { AreMoverCounts (seat_moves old.now new.now) counts.now }
    ensures { TellsEach result writer.old writer.new (mover_data (seat_moves old.now new.now))
        (filter (is_mover old.now new.now (seat_moves old.now new.now)) (id ∷ [])) }
{
    let place = usize::from(id);
    let given = counts.given[place];
    let taken = counts.taken[place];
    if !is_mover(old, new, id, given, taken) {
        return Ok(());
    }
    write_mover(writer, id, given, taken)
}

/// Writes the devices that give or take the seats that differ, by rising number.
fn write_movers(
    writer: &mut Writer,
    old: &Snapshot,
    new: &Snapshot,
    counts: &MoverCounts,
) -> Result<(), AllocError>
    requires { AreMoverCounts (seat_moves old.now new.now) counts.now }
    ensures { TellsEach result writer.old writer.new (mover_data (seat_moves old.now new.now))
        (movers old.now new.now (seat_moves old.now new.now)) }
{
    for id in 0..MOST_IDS {
        write_if_mover(writer, old, new, id as u16, counts)?;
    }
    Ok(())
}

/// Ends the object of what moved between two versions of a ring of this name, in so many partitions.
fn end_moves(
    writer: &mut Writer,
    name: &RingName,
    from: u32,
    to: u32,
    partitions: usize,
) -> Result<(), AllocError>
    ensures { EndsList result writer.old writer.new (behind_movers name.now from to partitions) }
{
    end_list(
        writer,
        &[
            ("from", Number(from as u64)),
            ("partitions", Number(partitions as u64)),
            ("ring", Text(name.as_str())),
            ("to", Number(to as u64)),
        ],
    )
}

/// Writes what moved between two versions of a ring of this name.
fn write_moves(
    writer: &mut Writer,
    name: &RingName,
    from: u32,
    to: u32,
    old: &Snapshot,
    new: &Snapshot,
    moves: &Moves,
    counts: &MoverCounts,
) -> Result<(), AllocError>
    requires list { moves.now.list.items ≡ seat_moves old.now new.now }
    requires partitions { moves.now.partitions ≡ moved_partitions old.now new.now }
    requires counts { AreMoverCounts (seat_moves old.now new.now) counts.now }
    ensures { AddsData result writer.old writer.new
        (moves_data name.now from to old.now new.now) }
{
    let changed = moves.list.len() as u64;
    begin_list(writer, "devices", &[("changed", Number(changed))])?;
    write_movers(writer, old, new, counts)?;
    end_moves(writer, name, from, to, moves.partitions)
}

/// What moved between two versions of a ring of this name, which were published as these, as
/// compact JSON, its keys in byte order: how many seats are `changed`, in how many `partitions`,
/// and of each of the `devices` that gives or takes some, by rising number, how many it `gives` and
/// `takes`. Where the power was raised between, partitions and seats are those of the greater.
pub(crate) fn moves_json(
    alloc: Global,
    name: &RingName,
    from: u32,
    to: u32,
    old: &Snapshot,
    new: &Snapshot,
) -> Result<String, AllocError>
    ensures { IfOk result (λ text. string_bytes text
        ≡ compact_text (moves_data name.now from to old.now new.now)) }
{
    let moves = moves_between(alloc, old, new)?;
    let counts = mover_counts(alloc, &moves.list)?;
    let mut writer = new_text(alloc)?;
    write_moves(&mut writer, name, from, to, old, new, &moves, &counts)?;
    Ok(text_of(writer))
}

/// Adds a seat in a line, and what stands behind it.
fn push_seat(into: &mut String, seat: Option<DeviceId>, end: &str) -> Result<(), AllocError>
    ensures { OnOk result (string_bytes into.new ≡ string_bytes into.old ++
        (seat_word seat ++ end.now)) }
{
    match seat {
        Some(id) => push_decimal(into, id.into(), end),
        None => {
            into.push_str("-")?;
            into.push_str(end)
        }
    }
}

/// Adds a seat that differs as a line.
fn push_line(into: &mut String, one: &Move) -> Result<(), AllocError>
    ensures { OnOk result (string_bytes into.new ≡ string_bytes into.old ++ move_line one.now) }
{
    push_decimal(into, one.partition, " ")?;
    push_decimal(into, one.replica.into(), " ")?;
    push_seat(into, one.from, " ")?;
    push_seat(into, one.to, "\n")
}

/// A line for each of some seats.
fn lines_of(alloc: Global, moves: &[Move]) -> Result<String, AllocError>
    ensures { IfOk result (λ text. string_bytes text ≡ flat_map move_line moves.now) }
{
    let mut text = String::new(alloc);
    for one in moves {
        push_line(&mut text, one)?;
    }
    Ok(text)
}

/// A line for each seat that differs between two rings, by partition and then by replica:
/// partition, replica, and the number of the device that it was on and is on, `-` where a ring has
/// no such seat.
pub(crate) fn move_lines(
    alloc: Global,
    old: &Snapshot,
    new: &Snapshot,
) -> Result<String, AllocError>
    ensures { IfOk result (λ text. string_bytes text ≡ move_lines old.now new.now) }
{
    let moves = moves_between(alloc, old, new)?;
    lines_of(alloc, &moves.list)
}
