//! All rows that stand for rings.
ghost use Rattle.std.specs.Prelude.{◌≡◌, IfOk, map};
ghost use Rattle.store_model.specs.Contents.{device_of, part_of, published_of, ring_of};
ghost use Rattle.store_rows.specs.RingRows.{device_entries, part_entries, published_entries};
ghost use Rattle.store_rows.specs.RingRows.{ring_entries};

use crate::differences::{push_devices, push_new_ring, push_parts, push_texts};
use ring_model::Rings;
use std::alloc::{AllocError, Global};
use store_model::{DeviceRow, PartRow, PublishedRow, RingRow};

/// The rows of `ring`.
pub(crate) fn ring_rows(alloc: Global, rings: &Rings) -> Result<Vec<RingRow>, AllocError>
    ensures { IfOk result (λ rows. map ring_of rows.items ≡ ring_entries rings.now) }
{
    let mut rows = Vec::new(alloc);
    for entry in rings.list() {
        push_new_ring(alloc, &mut rows, &entry.0, None, entry.1.as_ref())?;
    }
    Ok(rows)
}

/// The rows of `device`.
pub(crate) fn device_rows(alloc: Global, rings: &Rings) -> Result<Vec<DeviceRow>, AllocError>
    ensures { IfOk result (λ rows. map device_of rows.items ≡ device_entries rings.now) }
{
    let mut rows = Vec::new(alloc);
    for entry in rings.list() {
        push_devices(alloc, &mut rows, &entry.0, &[], entry.1.devices())?;
    }
    Ok(rows)
}

/// The rows of `part`.
pub(crate) fn part_rows(alloc: Global, rings: &Rings) -> Result<Vec<PartRow>, AllocError>
    ensures { IfOk result (λ rows. map part_of rows.items ≡ part_entries rings.now) }
{
    let mut rows = Vec::new(alloc);
    for entry in rings.list() {
        push_parts(alloc, &mut rows, &entry.0, None, entry.1.as_ref())?;
    }
    Ok(rows)
}

/// The rows of `published`.
pub(crate) fn published_rows(alloc: Global, rings: &Rings) -> Result<Vec<PublishedRow>, AllocError>
    ensures { IfOk result (λ rows. map published_of rows.items ≡ published_entries rings.now) }
{
    let mut rows = Vec::new(alloc);
    for entry in rings.list() {
        push_texts(alloc, &mut rows, &entry.0, None, entry.1.as_ref())?;
    }
    Ok(rows)
}
