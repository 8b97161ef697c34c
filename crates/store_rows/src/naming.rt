//! Rows of several rings, which stand by ring.
ghost use Rattle.std.specs.Prelude.{◌≡◌, ◌≤◌, ◌++◌, ℕ, List, drop, length, string_bytes, take};
ghost use Rattle.store_rows.specs.Inner.Parted.{ArePartedAt};

use store_model::{DeviceRow, MovedRow, PartRow, PublishedRow, SeatRow};

/// A row that says of which ring it is.
pub(crate) trait RowOfRing {
    /// The name of the ring.
    ghost ring_name: { Self → List ℕ };

    /// The name of the ring.
    fn ring(&self) -> &str
        ensures { result.now ≡ ring_name self.now };
}

impl RowOfRing for DeviceRow {
    ghost ring_name = { λ row. string_bytes row.ring };

    fn ring(&self) -> &str {
        self.ring.as_str()
    }
}

impl RowOfRing for PublishedRow {
    ghost ring_name = { λ row. string_bytes row.ring };

    fn ring(&self) -> &str {
        self.ring.as_str()
    }
}

impl RowOfRing for PartRow {
    ghost ring_name = { λ row. string_bytes row.ring };

    fn ring(&self) -> &str {
        self.ring.as_str()
    }
}

impl RowOfRing for SeatRow {
    ghost ring_name = { λ row. string_bytes row.ring };

    fn ring(&self) -> &str {
        self.ring.as_str()
    }
}

impl RowOfRing for MovedRow {
    ghost ring_name = { λ row. string_bytes row.ring };

    fn ring(&self) -> &str {
        self.ring.as_str()
    }
}

/// How many rows at the front are of a ring.
fn count_named<T: RowOfRing>(rows: &[T], name: &str) -> usize
    ensures within { result ≤ length rows.now }
    ensures parted { ArePartedAt T.ring_name name.now (take result rows.now) (drop result rows.now) }
{
    for (place, row) in rows.iter().enumerate() {
        if row.ring() != name {
            return place;
        }
    }
    rows.len()
}

/// The rows of a ring at the front, and those behind them.
pub(crate) fn split_named<'a, T: RowOfRing>(rows: &'a [T], name: &str) -> (&'a [T], &'a [T])
    ensures whole { result.0.now ++ result.1.now ≡ rows.now }
    ensures parted { ArePartedAt T.ring_name name.now result.0.now result.1.now }
{
    rows.split_at(count_named(rows, name))
}

/// Rows of rings in the tables beside `ring`, by ring.
#[derive(Clone, Copy)]
pub(crate) struct RingTables<'a> {
    pub(crate) devices: &'a [DeviceRow],
    pub(crate) published: &'a [PublishedRow],
    pub(crate) seats: &'a [SeatRow],
    pub(crate) moved: &'a [MovedRow],
    pub(crate) parts: &'a [PartRow],
}

impl<'a> RingTables<'a> {
    ghost use Rattle.std.specs.Prelude.{◌∷◌, [], Bool, true};
    ghost use Rattle.ring_model.specs.Ring.{RingRecord};
    ghost use Rattle.ring_model.specs.Rings.{AreByName};
    ghost use Rattle.store_rows.specs.RingRows.{NamedRings};
    ghost use Rattle.store_rows.specs.Inner.Parted.{SayRest};

    /// The rows of a ring at the front, and those behind them.
    pub(crate) fn split(self, name: &str) -> (RingTables<'a>, RingTables<'a>)
        ensures { (is_first : Bool) (e : List ℕ × RingRecord) (rings : NamedRings)
            → AreByName (e ∷ rings) → e.0 ≡ name.now → SayRest is_first self.entry (e ∷ rings)
            → SayRest is_first result.0 (e ∷ []) × SayRest is_first result.1 rings }
    {
        let devices = split_named(self.devices, name);
        let published = split_named(self.published, name);
        let seats = split_named(self.seats, name);
        let moved = split_named(self.moved, name);
        let parts = split_named(self.parts, name);
        let front = RingTables {
            devices: devices.0,
            published: published.0,
            seats: seats.0,
            moved: moved.0,
            parts: parts.0,
        };
        let behind = RingTables {
            devices: devices.1,
            published: published.1,
            seats: seats.1,
            moved: moved.1,
            parts: parts.1,
        };
        (front, behind)
    }

    /// Whether there are no rows.
    pub(crate) fn is_empty(self) -> bool
        ensures { (is_first : Bool) → SayRest is_first self.entry [] → result ≡ true }
    {
        self.devices.is_empty()
            && self.published.is_empty()
            && self.seats.is_empty()
            && self.moved.is_empty()
            && self.parts.is_empty()
    }
}
