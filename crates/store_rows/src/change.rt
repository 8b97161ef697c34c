//! The change from some rings to others.
ghost use Rattle.std.specs.Prelude.{◌≡◌, ◌++◌, IfOk, OnOk, map};
ghost use Rattle.store_model.specs.Contents.{device_key, device_of};
ghost use Rattle.store_model.specs.declared.change.RowChange.TheVariants.{AddDevice, DropDevice};
ghost use Rattle.store_model.specs.declared.change.RowChange.TheVariants.{PutPublished, PutRing};
ghost use Rattle.store_rows.specs.Inner.Written.{part_change};

use crate::differences::{count_gone, devices_of};
use crate::proper::rings_are_proper;
use crate::written::WrittenRows;
use ring_model::Rings;
use ring_words::RingName;
use std::alloc::{AllocError, Global};
use std::marker::Model;
use store_model::{DeviceKey, DeviceRow, PartRow, PublishedRow, RingRow, RowChange};

/// The keys of rows of devices.
fn keys_of(alloc: Global, rows: &[DeviceRow]) -> Result<Vec<DeviceKey>, AllocError>
    ensures { IfOk result (λ keys. map device_key keys.items ≡ map (λ row. (device_of row).0)
        rows.now) }
{
    let mut keys = Vec::new(alloc);
    for row in rows {
        keys.push(DeviceKey {
            ring: row.ring.clone()?,
            id: row.id,
        })?;
    }
    Ok(keys)
}

/// Adds a change that takes out the device of each key.
fn push_drops(into: &mut Vec<RowChange>, keys: Vec<DeviceKey>) -> Result<(), AllocError>
    ensures { OnOk result (into.new.items ≡ into.old.items ++ map DropDevice keys.items) }
{
    for key in keys {
        into.push(RowChange::DropDevice(key))?;
    }
    Ok(())
}

/// Adds a change that puts each ring of rows.
fn push_rings(into: &mut Vec<RowChange>, rows: Vec<RingRow>) -> Result<(), AllocError>
    ensures { OnOk result (into.new.items ≡ into.old.items ++ map PutRing rows.items) }
{
    for row in rows {
        into.push(RowChange::PutRing(row))?;
    }
    Ok(())
}

/// Adds a change that adds each device of rows.
fn push_devices(into: &mut Vec<RowChange>, rows: Vec<DeviceRow>) -> Result<(), AllocError>
    ensures { OnOk result (into.new.items ≡ into.old.items ++ map AddDevice rows.items) }
{
    for row in rows {
        into.push(RowChange::AddDevice(row))?;
    }
    Ok(())
}

/// The change that writes the row of a partition, where those below this number have a row already.
fn part_change(row: PartRow, known: i64) -> RowChange
    ensures { result ≡ part_change known row }
{
    if row.part < known {
        RowChange::PutPart(row)
    } else {
        RowChange::AddPart(row)
    }
}

/// Adds a change that writes each partition of rows, where those below this number have a row
/// already.
pub(crate) fn push_parts(
    into: &mut Vec<RowChange>,
    rows: Vec<PartRow>,
    known: i64,
) -> Result<(), AllocError>
    ensures { OnOk result (into.new.items ≡ into.old.items ++ map (part_change known) rows.items) }
{
    for row in rows {
        into.push(part_change(row, known))?;
    }
    Ok(())
}

/// Adds a change that puts each published text of rows.
fn push_texts(into: &mut Vec<RowChange>, rows: Vec<PublishedRow>) -> Result<(), AllocError>
    ensures { OnOk result (into.new.items ≡ into.old.items ++ map PutPublished rows.items) }
{
    for row in rows {
        into.push(RowChange::PutPublished(row))?;
    }
    Ok(())
}

/// All changes of rows, the devices that go first.
fn all_changes(
    alloc: Global,
    keys: Vec<DeviceKey>,
    rows: WrittenRows,
) -> Result<Vec<RowChange>, AllocError>
    ensures { IfOk result (λ all. all.items ≡
        (((map DropDevice keys.items ++ map PutRing rows.rings.items)
        ++ map AddDevice rows.devices.items) ++ map (part_change rows.known) rows.parts.items)
        ++ map PutPublished rows.texts.items) }
{
    let WrittenRows {
        dropped: _,
        rings,
        devices,
        known,
        parts,
        texts,
    } = rows;
    let mut all = Vec::new(alloc);
    push_drops(&mut all, keys)?;
    push_rings(&mut all, rings)?;
    push_devices(&mut all, devices)?;
    push_parts(&mut all, parts, known)?;
    push_texts(&mut all, texts)?;
    Ok(all)
}

/// The change from some rings to others, as changes of rows. Contracts see the changes and how many
/// rows differ.
#[derive(Drop)]
pub struct Change {
    rows: Vec<RowChange>,
    len: usize,
}

impl Model for Change {
    ghost use Rattle.std.specs.Prelude.{ℕ, List};
    ghost use Rattle.store_model.specs.declared.change.RowChange.{RowChange};

    ghost Value = { List RowChange × ℕ };

    ghost view = { λ c. (c.rows.items, c.len) };
}

impl Change {
    ghost use Rattle.std.specs.Prelude.{◌≡◌, ◌≤◌, [], IfOk, length};
    ghost use Rattle.ring_words.specs.Limits.{most_devices};
    ghost use Rattle.store_model.specs.Entries.{name_number_cmp};
    ghost use Rattle.store_rows.specs.Differences.{DifferBy, Grows, IsChange, IsChangedAt};
    ghost use Rattle.store_rows.specs.Inner.Written.{AreRowsBetween};
    ghost use Rattle.store_rows.specs.Inner.Lacking.{gone};
    ghost use Rattle.store_rows.specs.RingRows.{NamedRings, device_entries};
    ghost use Rattle.store_rows.specs.Stands.{AreRings};

    /// The change of the rows by which rings differ, where so many devices are there no more.
    fn of_rows(alloc: Global, rows: WrittenRows, gone_devices: usize) -> Result<Change, AllocError>
        requires { gone_devices ≤ most_devices }
        ensures leads { IfOk result (λ change. (old new : NamedRings) → AreRings old → AreRings new
            → Grows old new → AreRowsBetween old new rows → IsChange old new change.0) }
        ensures counted { IfOk result (λ change. (old new : NamedRings) → AreRings old → AreRings new
            → Grows old new → AreRowsBetween old new rows
            → gone_devices ≡ length (gone name_number_cmp (device_entries old) (device_entries new))
            → DifferBy old new change.1) }
    {
        let keys = keys_of(alloc, &rows.dropped)?;
        let written = rows.rings.len() + rows.devices.len() + rows.parts.len() + rows.texts.len();
        let len = written + gone_devices;
        let rows = all_changes(alloc, keys, rows)?;
        Ok(Change { rows, len })
    }

    /// The change from the old rings to the new, where every ring but the one of this name is as it
    /// was, and no ring, no partition and no published text went. So no other ring is looked at, and
    /// no text that was published before.
    ///
    /// Each row that differs is written once, and no row that stays. A partition that had no row is
    /// added, so that the store looks for none to put it over.
    pub fn between(
        alloc: Global,
        name: &RingName,
        old: &Rings,
        new: &Rings,
    ) -> Result<Change, AllocError>
        ensures leads { IfOk result (λ change. IsChangedAt name.now old.now new.now
            → IsChange old.now new.now change.0) }
        ensures counted { IfOk result (λ change. IsChangedAt name.now old.now new.now
            → DifferBy old.now new.now change.1) }
        ensures rings { IfOk result (λ _. AreRings new.now) }
    {
        rings_are_proper(old);
        rings_are_proper(new);
        let before = old.get(name);
        let Some(ring) = new.get(name) else {
            return Change::of_rows(alloc, WrittenRows::none(alloc), 0);
        };
        let rows = WrittenRows::of_ring(alloc, name, before, ring)?;
        let gone = count_gone(ring.devices(), devices_of(before));
        Change::of_rows(alloc, rows, gone)
    }

    /// The change that makes these rings where there is none. It writes all their rows.
    pub fn making(alloc: Global, rings: &Rings) -> Result<Change, AllocError>
        ensures leads { IfOk result (λ change. IsChange [] rings.now change.0) }
        ensures counted { IfOk result (λ change. DifferBy [] rings.now change.1) }
        ensures rings { IfOk result (λ _. AreRings rings.now) }
    {
        rings_are_proper(rings);
        Change::of_rows(alloc, WrittenRows::of_all(alloc, rings)?, 0)
    }

    /// How many rows differ: those that only one of the two has, and those of which each has
    /// another.
    pub fn len(&self) -> usize
        ensures { result ≡ self.now.1 }
    {
        self.len
    }

    /// The changes of rows, in an order in which the store can make them.
    pub fn rows(&self) -> &[RowChange]
        ensures { result.now ≡ self.now.0 }
    {
        self.rows.as_slice()
    }
}
