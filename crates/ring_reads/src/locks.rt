//! Which partitions of a ring are locked, and for how many hours, as JSON text.
ghost use Rattle.std.specs.Prelude.{◌≡◌, IfOk, string_bytes};
ghost use Rattle.ring_messages.specs.Objects.{AddsData};
ghost use Rattle.ring_model.specs.Ring.{partition_count as partitions_of};
ghost use Rattle.ring_reads.specs.Inner.Behind.{behind_rests};
ghost use Rattle.ring_reads.specs.Inner.Lists.{EndsList, TellsEach};
ghost use Rattle.ring_reads.specs.LocksJson.{IsLocksJson, lock_end_data, locks_data};

use crate::lists::{begin_list, end_list};
use json::Writer;
use ring_messages::Scalar::{Number, Text};
use ring_messages::{new_text, text_of, write_object};
use ring_metrics::{LockEnd, lock_ends, locked_count};
use ring_model::Ring;
use ring_words::{Hour, RingName, partition_count};
use std::alloc::{AllocError, Global};

/// Writes how many partitions are free after so many hours.
fn write_end(writer: &mut Writer, end: LockEnd) -> Result<(), AllocError>
    ensures { AddsData result writer.old writer.new (lock_end_data end) }
{
    write_object(
        writer,
        &[
            ("hours", Number(end.hours)),
            ("partitions", Number(end.partitions as u64)),
        ],
    )
}

/// Writes after how many hours how many partitions are free.
fn write_ends(writer: &mut Writer, ends: &[LockEnd]) -> Result<(), AllocError>
    ensures { TellsEach result writer.old writer.new lock_end_data ends.now }
{
    for end in ends {
        write_end(writer, *end)?;
    }
    Ok(())
}

/// How many partitions a ring has.
fn partitions_of(ring: &Ring) -> usize
    ensures { result ≡ partitions_of ring.now }
{
    partition_count(ring.power())
}

/// Ends the object of the locks of a ring of this name.
fn end_locks(writer: &mut Writer, name: &RingName) -> Result<(), AllocError>
    ensures { EndsList result writer.old writer.new (behind_rests name.now) }
{
    end_list(writer, &[("ring", Text(name.as_str()))])
}

/// Writes the locks of a ring of this name at an hour, which end so.
fn write_locks(
    writer: &mut Writer,
    name: &RingName,
    ring: &Ring,
    hour: Hour,
    ends: &[LockEnd],
) -> Result<(), AllocError>
    ensures { AddsData result writer.old writer.new (locks_data name.now ring.now hour ends.now) }
{
    begin_list(
        writer,
        "rests",
        &[
            ("hour", Number(hour as u64)),
            ("locked", Number(locked_count(ring, hour) as u64)),
            ("min_hours", Number(ring.min_hours() as u64)),
            ("partitions", Number(partitions_of(ring) as u64)),
        ],
    )?;
    write_ends(writer, ends)?;
    end_locks(writer, name)
}

/// The locks of a ring of this name at an hour, as compact JSON, its keys in byte order: how many of
/// its `partitions` are `locked`, which were moved less than `min_hours` ago; and as `rests`, by
/// rising `hours`, after how many hours some of them are free, and how many `partitions` are then.
pub(crate) fn locks_json(
    alloc: Global,
    name: &RingName,
    ring: &Ring,
    hour: Hour,
) -> Result<String, AllocError>
    ensures { IfOk result (λ text. IsLocksJson name.now ring.now hour (string_bytes text)) }
{
    let ends = lock_ends(alloc, ring, hour)?;
    let mut writer = new_text(alloc)?;
    write_locks(&mut writer, name, ring, hour, &ends)?;
    Ok(text_of(writer))
}
