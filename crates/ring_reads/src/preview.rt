//! What a rebalance of a ring would do, as JSON text.
ghost use Rattle.std.specs.Prelude.{◌≡◌, ◌≤◌, IfOk, count_by, string_bytes};
ghost use Rattle.std.specs.List.{zip};
ghost use Rattle.ring_messages.specs.Objects.{AddsData};
ghost use Rattle.ring_place.specs.Rebalance.{IsRebalance, changed_seats};
ghost use Rattle.ring_place.specs.Seeded.{IsSeeded};
ghost use Rattle.ring_share.specs.Want.{AreWanted, is_open};
ghost use Rattle.ring_reads.specs.Inner.Behind.{behind_moving};
ghost use Rattle.ring_reads.specs.Inner.Lists.{EndsList, TellsEach};
ghost use Rattle.ring_reads.specs.Inner.Counted.{AreMovingCounts};
ghost use Rattle.ring_reads.specs.Preview.{IsPreviewJson, device_moves, moving_data, preview_data};

use crate::lists::{begin_list, end_list};
use crate::moves::changed_partitions;
use crate::seat_counts::{seat_counts, staying_counts};
use json::Writer;
use ring_messages::Scalar::{Number, Text};
use ring_messages::{new_text, text_of, write_object};
use ring_metrics::locked_count;
use ring_model::Ring;
use ring_place::Rebalanced;
use ring_share::{balance, dispersion, wanted};
use ring_words::{DeviceId, Hour, RingName};
use std::alloc::{AllocError, Global};

/// By the number of a device, how many seats it has before a rebalance and after it, and how many of
/// its own stay.
#[derive(Drop)]
struct MovingCounts {
    before: Vec<usize>,
    after: Vec<usize>,
    stay: Vec<usize>,
}

/// The counts of the seats of a ring, and of those of a new one that comes of it.
fn moving_counts(alloc: Global, ring: &Ring, new: &Ring) -> Result<MovingCounts, AllocError>
    ensures { IfOk result (λ counts. AreMovingCounts ring.now new.now counts) }
{
    let before = seat_counts(alloc, ring.seats())?;
    let after = seat_counts(alloc, new.seats())?;
    let stay = staying_counts(alloc, ring.seats(), new.seats())?;
    Ok(MovingCounts {
        before,
        after,
        stay,
    })
}

/// Writes the device of a number that wants so many seats, has so many before and so many after, and
/// of which so many stay.
fn write_moving(
    writer: &mut Writer,
    id: DeviceId,
    want: u32,
    before: usize,
    after: usize,
    stay: usize,
) -> Result<(), AllocError>
    ensures { AddsData result writer.old writer.new (moving_data id want before after stay) }
{
    let gives = before.saturating_sub(stay);
    let takes = after.saturating_sub(stay);
    write_object(
        writer,
        &[
            ("gives", Number(gives as u64)),
            ("has", Number(before as u64)),
            ("id", Number(id as u64)),
            ("takes", Number(takes as u64)),
            ("then", Number(after as u64)),
            ("wanted", Number(want as u64)),
        ],
    )
}

/// Writes the devices of a ring, which want so many seats, where a new ring comes of that one.
fn write_moving_devices(
    writer: &mut Writer,
    ring: &Ring,
    new: &Ring,
    wants: &[u32],
    counts: &MovingCounts,
) -> Result<(), AllocError>
    requires wants { AreWanted ring.now wants.now }
    requires counts { AreMovingCounts ring.now new.now counts.now }
    ensures { TellsEach result writer.old writer.new (λ e. device_moves ring.now new.now e.0 e.1)
        (zip ring.now.devices wants.now) }
{
    for (place, device) in ring.devices().iter().enumerate() {
        let id = usize::from(device.id);
        let before = counts.before[id];
        let after = counts.after[id];
        let stay = counts.stay[id];
        write_moving(writer, device.id, wants[place], before, after, stay)?;
    }
    Ok(())
}

/// Ends the object of a rebalance of a ring of this name at an hour, which gives a new ring.
fn end_preview(
    writer: &mut Writer,
    name: &RingName,
    ring: &Ring,
    hour: Hour,
    seed: u32,
    new: &Ring,
) -> Result<(), AllocError>
    requires power { new.now.power ≡ ring.now.power }
    requires replicas { new.now.replicas ≡ ring.now.replicas }
    ensures { EndsList result writer.old writer.new
        (behind_moving name.now hour seed ring.now new.now) }
{
    end_list(
        writer,
        &[
            ("dispersion", Number(dispersion(new) as u64)),
            ("hour", Number(hour as u64)),
            ("locked", Number(locked_count(ring, hour) as u64)),
            ("partitions", Number(changed_partitions(ring, new) as u64)),
            ("ring", Text(name.as_str())),
            ("seed", Number(seed as u64)),
            ("version", Number(new.version() as u64)),
        ],
    )
}

/// Writes a rebalance of a ring at an hour, whose devices want and have so many seats.
fn write_preview(
    writer: &mut Writer,
    name: &RingName,
    ring: &Ring,
    hour: Hour,
    seed: u32,
    wants: &[u32],
    counts: &MovingCounts,
    done: &Rebalanced,
) -> Result<(), AllocError>
    requires wants { AreWanted ring.now wants.now }
    requires counts { AreMovingCounts ring.now done.now.ring counts.now }
    requires changed { done.now.changed ≡ changed_seats ring.now done.now.ring }
    requires rebalance { IsRebalance ring.now hour done.now.ring }
    ensures { AddsData result writer.old writer.new
        (preview_data name.now hour seed ring.now wants.now done.now.ring) }
{
    begin_list(
        writer,
        "devices",
        &[
            ("balance", Number(balance(&done.ring) as u64)),
            ("changed", Number(done.changed as u64)),
        ],
    )?;
    write_moving_devices(writer, ring, &done.ring, wants, counts)?;
    end_preview(writer, name, ring, hour, seed, &done.ring)
}

/// The rebalance of a ring of this name at an hour with a seed, which gave this, as compact JSON,
/// its keys in byte order.
///
/// Of the ring that it gives: its `version`, and its `balance` and `dispersion` in hundredths of a
/// percent, as the reply to the rebalance tells them. How many seats are `changed`, as that reply
/// tells it, and how many `partitions` have such a seat. Of the ring as it is: how many partitions
/// are `locked` at the hour; and of each of its `devices`, by rising number, how many seats it
/// `has` and how many it has `then`, how many of its own it `gives` and how many others it `takes`,
/// and how many are `wanted` by it. A device that is marked to be removed gives all of them.
pub(crate) fn preview_json(
    alloc: Global,
    name: &RingName,
    ring: &Ring,
    hour: Hour,
    seed: u32,
    done: &Rebalanced,
) -> Result<String, AllocError>
    requires enough { ring.now.replicas ≤ count_by is_open ring.now.devices }
    requires changed { done.now.changed ≡ changed_seats ring.now done.now.ring }
    requires rebalance { IsRebalance ring.now hour done.now.ring }
    requires seeded { IsSeeded ring.now hour seed done.now.ring }
    ensures { IfOk result (λ text. IsPreviewJson name.now ring.now hour seed
        (string_bytes text)) }
{
    let wants = wanted(alloc, ring)?;
    let counts = moving_counts(alloc, ring, &done.ring)?;
    let mut writer = new_text(alloc)?;
    write_preview(&mut writer, name, ring, hour, seed, &wants, &counts, done)?;
    Ok(text_of(writer))
}
