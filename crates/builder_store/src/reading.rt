//! What the tables of an opened store say.
ghost use Rattle.std.specs.Prelude.{◌≡◌, ◌↔◌, false, All, IfErr, IsTrue, map};
ghost use Rattle.std.specs.FinMap.{entries};
ghost use Rattle.sqlite.specs.Held.{state};
ghost use Rattle.store_model.specs.Contents.{Contents, device_of, meta_of, moved_of, part_of};
ghost use Rattle.store_model.specs.Contents.{published_of, ring_of, seat_of};
ghost use Rattle.sqlite.specs.State.{HasCleanDisk};
ghost use Rattle.store_tables.specs.Failing.{FailsForCause, is_no_text};
ghost use Rattle.store_tables.specs.Store.{ReadsContents, SeesTables, begun_contents};
ghost use Rattle.store_tables.specs.Texts.{AreRequestTexts};
ghost use Rattle.store_rows.specs.Judging.{AreRowsOf, SaysBook};
ghost use Rattle.builder_store.specs.Opening.{no_contents};
ghost use Rattle.builder_store.specs.Inner.Reading.{MeetsNoText};

use ring_model::Rings;
use ring_words::Hour;
use sqlite::{Alter, Connection, Error};
use std::alloc::Global;
use store_model::{
    DeviceRow, MetaRow, MovedRow, PartRow, PublishedRow, RequestRow, RingRow, SeatRow,
};
use store_rows::{Callers, ReadBook, StoreRows, read_book};
use store_tables::all_rows;

/// What a keeper holds in memory of a content.
#[derive(Drop)]
pub(crate) struct Opened {
    pub(crate) rings: Rings,
    pub(crate) count: usize,
    pub(crate) hour: Hour,
    pub(crate) callers: Callers,
}

/// The rows on the whole store, of rings and of devices, and the seats of schema 1, where the first
/// `made` tables are there.
fn read_first<S: Alter>(
    alloc: Global,
    conn: &mut Connection<S>,
    made: usize,
) -> Result<(Vec<MetaRow>, Vec<RingRow>, Vec<DeviceRow>, Vec<SeatRow>), Error>
    requires mode { conn.old.in_transaction ≡ false }
    requires begun { SeesTables made (state S.Store conn.old) }
    ensures reads { ReadsContents (begun_contents made (state S.Store conn.old).now.trees)
        (state S.Store conn.old) (state S.Store conn.new) result
        (λ c rows. (map meta_of rows.0.items ≡ entries c.meta) × (map ring_of rows.1.items ≡ entries c.rings)
        × (map device_of rows.2.items ≡ entries c.devices) ×
        (map seat_of rows.3.items ≡ entries c.seats)) }
    ensures mode { conn.new.in_transaction ≡ false }
    ensures cause { FailsForCause (state S.Store conn.old) (state S.Store conn.new) result }
    ensures no_text { MeetsNoText made (state S.Store conn.old) (state S.Store conn.new) result }
{
    let meta = all_rows::<MetaRow, S>(alloc, conn, made)?;
    let rings = all_rows::<RingRow, S>(alloc, conn, made)?;
    let devices = all_rows::<DeviceRow, S>(alloc, conn, made)?;
    let seats = all_rows::<SeatRow, S>(alloc, conn, made)?;
    Ok((meta, rings, devices, seats))
}

/// What the requests say, whose rows are let go, likewise.
fn read_requests<S: Alter>(
    alloc: Global,
    conn: &mut Connection<S>,
    made: usize,
) -> Result<ReadBook, Error>
    requires mode { conn.old.in_transaction ≡ false }
    requires begun { SeesTables made (state S.Store conn.old) }
    ensures reads { ReadsContents (begun_contents made (state S.Store conn.old).now.trees)
        (state S.Store conn.old) (state S.Store conn.new) result
        (λ c book. SaysBook c.requests book) }
    ensures mode { conn.new.in_transaction ≡ false }
    ensures cause { FailsForCause (state S.Store conn.old) (state S.Store conn.new) result }
    ensures no_text { HasCleanDisk (state S.Store conn.new) → IfErr result (λ e. IsTrue (is_no_text e)
        → All AreRequestTexts (entries (begun_contents made (state S.Store conn.old).now.trees).requests) → ⊥) }
{
    let rows = all_rows::<RequestRow, S>(alloc, conn, made)?;
    Ok(read_book(alloc, rows)?)
}

/// The moves of schema 1, the published texts, the book and the partitions, likewise.
fn read_rest<S: Alter>(
    alloc: Global,
    conn: &mut Connection<S>,
    made: usize,
) -> Result<(Vec<MovedRow>, Vec<PublishedRow>, ReadBook, Vec<PartRow>), Error>
    requires mode { conn.old.in_transaction ≡ false }
    requires begun { SeesTables made (state S.Store conn.old) }
    ensures reads { ReadsContents (begun_contents made (state S.Store conn.old).now.trees)
        (state S.Store conn.old) (state S.Store conn.new) result
        (λ c rows. (map moved_of rows.0.items ≡ entries c.moved) × (map published_of rows.1.items ≡ entries c.published)
        × SaysBook c.requests rows.2 × (map part_of rows.3.items ≡ entries c.parts)) }
    ensures mode { conn.new.in_transaction ≡ false }
    ensures cause { FailsForCause (state S.Store conn.old) (state S.Store conn.new) result }
    ensures no_text { MeetsNoText made (state S.Store conn.old) (state S.Store conn.new) result }
{
    let moved = all_rows::<MovedRow, S>(alloc, conn, made)?;
    let published = all_rows::<PublishedRow, S>(alloc, conn, made)?;
    let book = read_requests(alloc, conn, made)?;
    let parts = all_rows::<PartRow, S>(alloc, conn, made)?;
    Ok((moved, published, book, parts))
}

/// All rows of a store of which the first `made` tables are there.
pub(crate) fn read_rows<S: Alter>(
    alloc: Global,
    conn: &mut Connection<S>,
    made: usize,
) -> Result<StoreRows, Error>
    requires mode { conn.old.in_transaction ≡ false }
    requires begun { SeesTables made (state S.Store conn.old) }
    ensures reads { ReadsContents (begun_contents made (state S.Store conn.old).now.trees)
        (state S.Store conn.old) (state S.Store conn.new) result
        (λ c rows. AreRowsOf rows c) }
    ensures mode { conn.new.in_transaction ≡ false }
    ensures cause { FailsForCause (state S.Store conn.old) (state S.Store conn.new) result }
    ensures no_text { MeetsNoText made (state S.Store conn.old) (state S.Store conn.new) result }
{
    let (meta, rings, devices, seats) = read_first(alloc, conn, made)?;
    let (moved, published, book, parts) = read_rest(alloc, conn, made)?;
    Ok(StoreRows {
        meta,
        rings,
        devices,
        seats,
        moved,
        published,
        book,
        parts,
    })
}

/// Whether there is no row in any table.
pub(crate) fn is_empty(rows: &StoreRows) -> bool
    ensures { (c : Contents) → AreRowsOf rows.now c → IsTrue result ↔ (c ≡ no_contents) }
{
    rows.meta.is_empty()
        & rows.rings.is_empty()
        & rows.devices.is_empty()
        & rows.seats.is_empty()
        & rows.moved.is_empty()
        & rows.published.is_empty()
        & rows.book.is_empty
        & rows.parts.is_empty()
}
