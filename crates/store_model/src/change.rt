//! A change of one row of the store.

use crate::rows::{DeviceKey, DeviceRow, PartRow, PublishedRow, RingRow};

/// A change of one row. A device is dropped and added again where it changes, since no two of a
/// ring may share an address, port and name.
#[derive(Debug, Drop)]
pub enum RowChange {
    DropDevice(DeviceKey),
    PutRing(RingRow),
    AddDevice(DeviceRow),
    PutPart(PartRow),
    /// For a partition that has no row yet.
    AddPart(PartRow),
    PutPublished(PublishedRow),
}
