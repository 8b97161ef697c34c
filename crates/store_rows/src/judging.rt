//! What the rows of a store that is opened say.
ghost use Rattle.std.specs.Prelude.{◌≡◌, ◌↔◌, ◌<◌, ◌∷◌, [], IfOk, IsTrue, List, MatchOption};
ghost use Rattle.std.specs.Prelude.{cond, false};
ghost use Rattle.ring_words.specs.Spelling.{Reads};
ghost use Rattle.store_rows.specs.Stands.{AreRings};
ghost use Rattle.store_rows.specs.Inner.Found.{ReadsRow};
ghost use Rattle.std.specs.Prelude.{map, pos, true};
ghost use Rattle.ring_words.specs.Limits.{long_count};
ghost use Rattle.store_model.specs.Contents.{meta_of, part_of, Contents};
ghost use Rattle.store_rows.specs.Inner.Written.{part_change};
ghost use Rattle.store_model.specs.declared.rows.PartRow.{PartRow};
ghost use Rattle.store_rows.specs.Stands.{meta_value};
ghost use Rattle.store_rows.specs.RingRows.{part_entries};
ghost use Rattle.std.specs.Option.{option_map};
ghost use Rattle.store_rows.specs.Inner.Sayings.{AreBehindParts, SayPlaces, SayRings};
ghost use Rattle.store_rows.specs.Judging.{AreRowsOf, Judges};

use crate::all_rows::{device_rows, part_rows, published_rows, ring_rows};
use crate::books::{ReadBook, book_at};
use crate::callers::Callers;
use crate::change::push_parts;
use crate::comparing::are_alike;
use crate::differences::push_parts as push_ring_parts;
use crate::first_rows::{moved_rows, seat_rows};
use crate::naming::RingTables;
use crate::numbers::number32;
use crate::proper::rings_are_proper;
use crate::rings_reading::read_rings;
use crate::texts::judge_texts;
use ring_model::{Ring, Rings};
use ring_words::{Hour, RingName, SpellingFault};
use std::alloc::{AllocError, Global};
use store_model::{
    DeviceRow, MetaRow, MovedRow, PartRow, PublishedRow, RingRow, RowChange, SeatRow,
};

/// All rows of a store, each table's by rising keys, and what those of requests say.
#[derive(Drop)]
pub struct StoreRows {
    pub meta: Vec<MetaRow>,
    pub rings: Vec<RingRow>,
    pub devices: Vec<DeviceRow>,
    pub seats: Vec<SeatRow>,
    pub moved: Vec<MovedRow>,
    pub published: Vec<PublishedRow>,
    pub book: ReadBook,
    pub parts: Vec<PartRow>,
}

/// What a store holds.
#[derive(Drop)]
pub struct Judged {
    /// The rings.
    pub rings: Rings,
    /// How many requests are in the book.
    pub count: usize,
    /// The greatest hour.
    pub hour: Hour,
    /// The callers of the book, with their greatest numbers.
    pub callers: Callers,
    /// The changes that make a store of schema 1 one of schema 2, and none where it is one already.
    pub migration: Option<Vec<RowChange>>,
}

/// Whether the rows of `meta` are those of schema 1, else of schema 2, and the greatest hour that
/// they say.
fn read_meta(rows: &[MetaRow]) -> Result<(bool, Hour), SpellingFault>
    ensures { Reads (λ meta. (map meta_of rows.now ≡ (pos 1, meta_value (cond meta.0 1 2) meta.1) ∷
        []) × (meta.1 < long_count)) result }
{
    let [row] = rows else {
        return Err(SpellingFault::Bad);
    };
    if row.one != 1 {
        return Err(SpellingFault::Bad);
    }
    let hour = number32(row.hour)?;
    match row.schema {
        1 => Ok((true, hour)),
        2 => Ok((false, hour)),
        _ => Err(SpellingFault::Bad),
    }
}

/// Whether the rows of seats, moves and partitions are those of rings in a store of schema 1.
fn are_first_places(alloc: Global, rows: &StoreRows, rings: &Rings) -> Result<bool, AllocError>
    ensures { IfOk result (λ same. IsTrue same ↔ SayPlaces true rows.now rings.now) }
{
    let seats = seat_rows(alloc, rings)?;
    let moved = moved_rows(alloc, rings)?;
    if !rows.parts.is_empty() {
        return Ok(false);
    }
    if !are_alike(rows.seats.as_slice(), seats.as_slice()) {
        return Ok(false);
    }
    Ok(are_alike(rows.moved.as_slice(), moved.as_slice()))
}

/// The rows behind those of a ring's partitions, which come first; `None` where these don't.
fn behind_parts<'a>(
    alloc: Global,
    rows: &'a [PartRow],
    name: &RingName,
    ring: &Ring,
) -> Result<Option<&'a [PartRow]>, AllocError>
    ensures { IfOk result (λ behind. AreBehindParts rows.now (name.now, ring.now)
        (option_map (λ rest. rest.now) behind)) }
{
    let mut parts = Vec::new(alloc);
    push_ring_parts(alloc, &mut parts, name, None, ring)?;
    let Some((front, behind)) = rows.split_at_checked(parts.len()) else {
        return Ok(None);
    };
    if !are_alike(front, parts.as_slice()) {
        return Ok(None);
    }
    Ok(Some(behind))
}

/// Whether rows of partitions are those of rings. The rows of one ring are made at a time.
fn are_parts_of(alloc: Global, rows: &[PartRow], rings: &Rings) -> Result<bool, AllocError>
    ensures { IfOk result (λ same. IsTrue same ↔ (map part_of rows.now ≡ part_entries rings.now)) }
{
    let mut rest = rows;
    for entry in rings.list() {
        match behind_parts(alloc, rest, &entry.0, entry.1.as_ref())? {
            Some(behind) => rest = behind,
            None => return Ok(false),
        }
    }
    Ok(rest.is_empty())
}

/// Whether the rows of seats, moves and partitions are those of rings in a store of schema 2.
fn are_parts(alloc: Global, rows: &StoreRows, rings: &Rings) -> Result<bool, AllocError>
    ensures { IfOk result (λ same. IsTrue same ↔ SayPlaces false rows.now rings.now) }
{
    if !rows.seats.is_empty() || !rows.moved.is_empty() {
        return Ok(false);
    }
    are_parts_of(alloc, rows.parts.as_slice(), rings)
}

/// Whether the rows of seats, moves and partitions are those of rings.
fn are_places(
    alloc: Global,
    is_first: bool,
    rows: &StoreRows,
    rings: &Rings,
) -> Result<bool, AllocError>
    ensures { IfOk result (λ same. IsTrue same ↔ SayPlaces is_first rows.now rings.now) }
{
    if is_first {
        are_first_places(alloc, rows, rings)
    } else {
        are_parts(alloc, rows, rings)
    }
}

/// Whether all rows but those of `meta` and `request` are those of rings.
fn are_rings(
    alloc: Global,
    is_first: bool,
    rows: &StoreRows,
    rings: &Rings,
) -> Result<bool, AllocError>
    ensures { IfOk result (λ same. IsTrue same ↔ SayRings is_first rows.now rings.now) }
{
    let made = ring_rows(alloc, rings)?;
    let devices = device_rows(alloc, rings)?;
    let texts = published_rows(alloc, rings)?;
    if !are_alike(rows.rings.as_slice(), made.as_slice()) {
        return Ok(false);
    }
    if !are_alike(rows.devices.as_slice(), devices.as_slice()) {
        return Ok(false);
    }
    if !are_alike(rows.published.as_slice(), texts.as_slice()) {
        return Ok(false);
    }
    are_places(alloc, is_first, rows, rings)
}

/// The rings that rows say, in a store of schema 1 or of schema 2.
fn judge_rings(alloc: Global, is_first: bool, rows: &StoreRows) -> Result<Rings, SpellingFault>
    ensures says { IfOk result (λ rings. SayRings is_first rows.now rings) }
    ensures finds { ReadsRow (λ rings. rings) (λ rings. AreRings rings × SayRings is_first rows.now
        rings) result }
{
    let tables = RingTables {
        devices: &rows.devices,
        published: &rows.published,
        seats: &rows.seats,
        moved: &rows.moved,
        parts: &rows.parts,
    };
    let rings = read_rings(alloc, is_first, &rows.rings, tables)?;
    if !are_rings(alloc, is_first, rows, &rings)? {
        return Err(SpellingFault::Bad);
    }
    Ok(rings)
}

/// The changes that make a store of schema 1 one of schema 2: a row for each partition. None where
/// it is one already.
fn migration(
    alloc: Global,
    is_first: bool,
    rings: &Rings,
) -> Result<Option<Vec<RowChange>>, AllocError>
    ensures { IfOk result (λ migration. MatchOption migration (is_first ≡ false)
        (λ changes. (is_first ≡ true) × ((rows : List PartRow) × (changes.items ≡ map (part_change (pos 0)) rows) × (map part_of rows ≡ part_entries rings.now)))) }
{
    if !is_first {
        return Ok(None);
    }
    let mut changes = Vec::new(alloc);
    let parts = part_rows(alloc, rings)?;
    push_parts(&mut changes, parts, 0)?;
    Ok(Some(changes))
}

/// What a store with these rows holds. Bad where they are not those of rings and a book, and where a
/// published text is not its ring's own.
pub fn judge(alloc: Global, rows: StoreRows) -> Result<Judged, SpellingFault>
    ensures { (c : Contents) → AreRowsOf rows c → Judges c result }
{
    let (is_first, hour) = read_meta(&rows.meta)?;
    let rings = judge_rings(alloc, is_first, &rows)?;
    rings_are_proper(&rings);
    let (count, callers) = book_at(rows.book, hour)?;
    judge_texts(alloc, &rings)?;
    let migration = migration(alloc, is_first, &rings)?;
    Ok(Judged {
        rings,
        count,
        hour,
        callers,
        migration,
    })
}
