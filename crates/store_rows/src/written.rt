//! The rows that a change writes or takes out.
use crate::all_rows::{device_rows, part_rows, published_rows, ring_rows};
use crate::differences::{
    devices_of, known_partitions, push_changed_devices, push_dropped_devices, push_new_ring,
    push_parts, push_texts,
};
use ring_model::{Ring, Rings};
use ring_words::RingName;
use std::alloc::{AllocError, Global};
use store_model::{DeviceRow, PartRow, PublishedRow, RingRow};

/// The rows that rings have and others, the old ones, have not.
#[derive(Drop)]
pub(crate) struct WrittenRows {
    /// The rows of devices that only the old rings have.
    pub(crate) dropped: Vec<DeviceRow>,
    pub(crate) rings: Vec<RingRow>,
    pub(crate) devices: Vec<DeviceRow>,
    /// Partitions below this number have a row in the old rings, the others have none.
    pub(crate) known: i64,
    pub(crate) parts: Vec<PartRow>,
    pub(crate) texts: Vec<PublishedRow>,
}

impl WrittenRows {
    ghost use Rattle.std.specs.Prelude.{[], IfOk};
    ghost use Rattle.std.specs.Option.{option_map};
    ghost use Rattle.store_rows.specs.Inner.Written.{AreNone, AreRowsBetween, AreRowsOfRing};

    /// No rows.
    pub(crate) fn none(alloc: Global) -> WrittenRows
        ensures { AreNone result }
    {
        WrittenRows {
            dropped: Vec::new(alloc),
            rings: Vec::new(alloc),
            devices: Vec::new(alloc),
            known: 0,
            parts: Vec::new(alloc),
            texts: Vec::new(alloc),
        }
    }

    /// The rows by which a ring differs from the old ring of its name, if there is one.
    pub(crate) fn of_ring(
        alloc: Global,
        name: &RingName,
        old: Option<&Ring>,
        ring: &Ring,
    ) -> Result<WrittenRows, AllocError>
        ensures { IfOk result (AreRowsOfRing name.now (option_map (λ ring. ring.now) old.entry)
            ring.now) }
    {
        let mut rows = WrittenRows::none(alloc);
        push_dropped_devices(alloc, &mut rows.dropped, name, ring.devices(), old)?;
        push_new_ring(alloc, &mut rows.rings, name, old, ring)?;
        push_changed_devices(alloc, &mut rows.devices, name, devices_of(old), ring)?;
        rows.known = known_partitions(old);
        push_parts(alloc, &mut rows.parts, name, old, ring)?;
        push_texts(alloc, &mut rows.texts, name, old, ring)?;
        Ok(rows)
    }

    /// All rows of rings.
    pub(crate) fn of_all(alloc: Global, rings: &Rings) -> Result<WrittenRows, AllocError>
        ensures { IfOk result (AreRowsBetween [] rings.now) }
    {
        Ok(WrittenRows {
            dropped: Vec::new(alloc),
            rings: ring_rows(alloc, rings)?,
            devices: device_rows(alloc, rings)?,
            known: 0,
            parts: part_rows(alloc, rings)?,
            texts: published_rows(alloc, rings)?,
        })
    }
}
