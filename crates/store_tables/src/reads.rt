//! The statements that read.

ghost use Rattle.std.specs.Prelude.{◌≡◌, false, pos, map, option_map, slice_get, string_bytes, All};
ghost use Rattle.std.specs.Prelude.{IfErr, IfOk, IsTrue, IsUtf8};
ghost use Rattle.std.specs.FinMap.{get};
ghost use Rattle.sqlite.specs.Held.{state};
ghost use Rattle.sqlite.specs.State.{HasCleanDisk};
ghost use Rattle.sqlite_value.specs.Order.{bytes, column};
ghost use Rattle.sqlite_value.specs.declared.value.Value.TheVariants.{Blob, Int, Text};
ghost use Rattle.store_model.specs.Contents.{kept_of};
ghost use Rattle.store_tables.specs.Failing.{FailsForCause, is_no_text, tells_failure};
ghost use Rattle.store_tables.specs.Inner.Told.{told};
ghost use Rattle.store_tables.specs.Inner.Shown.{Lists, shown_as};
ghost use Rattle.store_tables.specs.Store.{ReadsContents, ReadsTables, SeesStore, SeesTables};
ghost use Rattle.store_tables.specs.Store.{begun_contents};

use sqlite::{Alter, Connection, Error, ErrorCode, Row, params};
use std::alloc::Global;
use std::rc::RcStr;
use store_model::{
    DeviceRow, KeptRequest, MetaRow, MovedRow, PartRow, PublishedRow, RequestRow, RingRow, SeatRow,
};

/// The text in a column. What is no UTF-8 is refused with `Utf8Error`.
fn text_in(row: &Row, at: usize) -> Result<String, Error>
    ensures text { IfOk result (λ text. column row.now at ≡ Text (string_bytes text)) }
    ensures unfailed { IfErr result (λ e. tells_failure e ≡ false) }
    ensures no_text { IfErr result (λ e. IsTrue (is_no_text e) → IsUtf8 (bytes (column row.now at)) → ⊥) }
{
    row.get(at)
}

/// The number in a column.
fn number_in(row: &Row, at: usize) -> Result<i64, Error>
    ensures number { IfOk result (λ number. column row.now at ≡ Int number) }
    ensures unfailed { IfErr result (λ e. tells_failure e ≡ false) }
    ensures no_text { IfErr result (λ e. is_no_text e ≡ false) }
{
    row.get(at)
}

/// The bytes in a column.
fn bytes_in(row: &Row, at: usize) -> Result<Vec<u8>, Error>
    ensures bytes { IfOk result (λ found. column row.now at ≡ Blob found.items) }
    ensures unfailed { IfErr result (λ e. tells_failure e ≡ false) }
    ensures no_text { IfErr result (λ e. is_no_text e ≡ false) }
{
    row.get(at)
}

/// A row of a table that a statement lists whole.
pub trait Listed: Sized {
    ghost use Rattle.std.specs.Prelude.{◌<◌, ◌≤◌, [], ℕ, List};
    ghost use Rattle.sqlite_trees.specs.Tree.{Trees};
    ghost use Rattle.store_model.specs.Contents.{Contents};
    ghost use Rattle.store_tables.specs.Entries.{Layout};

    /// A key of the table.
    ghost Key: { Type 0 };

    /// What the table has for a key.
    ghost Value: { Type 0 };

    /// How its columns stand for an entry.
    ghost layout: { Layout Key Value };

    /// The entry that a row stands for.
    ghost entry: { Self → Key × Value };

    /// The entries of the table, by rising key.
    ghost listed: { Contents → List (Key × Value) };

    /// The texts of an entry are UTF-8.
    ghost are_texts: { Key × Value → Type 0 };

    /// How many tables of the store come before it.
    ghost before: { ℕ };

    /// How many tables of the store come before it.
    fn tables_before() -> usize
        ensures before { result ≡ before }
        ensures missing { (made : ℕ) (trees : Trees) → made ≤ before
            → listed (begun_contents made trees) ≡ [] };

    /// The statement that lists the table.
    fn query() -> &'static str
        ensures { (made : ℕ) → before < made → Lists made result.now layout listed };

    /// The row, from its columns.
    fn read(alloc: Global, row: &Row) -> Result<Self, Error>
        ensures entry { IfOk result (λ it. shown_as layout row.now ≡ entry it) }
        ensures unfailed { IfErr result (λ e. tells_failure e ≡ false) }
        ensures no_text { IfErr result (λ e. IsTrue (is_no_text e) → are_texts
            (shown_as layout row.now) → ⊥) };
}

// All rows of `meta`, by rising key.
impl Listed for MetaRow {
    ghost use Rattle.std.specs.Prelude.{ℤ, ⊤};
    ghost use Rattle.std.specs.FinMap.{entries};
    ghost use Rattle.store_model.specs.Contents.{meta_of};
    ghost use Rattle.store_model.specs.Entries.{Meta};
    ghost use Rattle.store_tables.specs.Entries.{meta_rows};

    ghost Key = { ℤ };

    ghost Value = { Meta };

    ghost layout = { meta_rows };

    ghost entry = { meta_of };

    ghost listed = { λ c. entries c.meta };

    ghost are_texts = { λ _. ⊤ };

    ghost before = { 0 };

    fn tables_before() -> usize {
        0
    }

    fn query() -> &'static str {
        "SELECT * FROM meta ORDER BY one"
    }

    fn read(_alloc: Global, row: &Row) -> Result<MetaRow, Error> {
        Ok(MetaRow {
            one: number_in(row, 0)?,
            schema: number_in(row, 1)?,
            hour: number_in(row, 2)?,
        })
    }
}

// All rings, by rising name.
impl Listed for RingRow {
    ghost use Rattle.std.specs.Prelude.{ℕ, List};
    ghost use Rattle.std.specs.FinMap.{entries};
    ghost use Rattle.store_model.specs.Contents.{ring_of};
    ghost use Rattle.store_model.specs.Entries.{Ring};
    ghost use Rattle.store_tables.specs.Entries.{ring_rows};
    ghost use Rattle.store_tables.specs.Texts.{AreRingTexts};

    ghost Key = { List ℕ };

    ghost Value = { Ring };

    ghost layout = { ring_rows };

    ghost entry = { ring_of };

    ghost listed = { λ c. entries c.rings };

    ghost are_texts = { AreRingTexts };

    ghost before = { 1 };

    fn tables_before() -> usize {
        1
    }

    fn query() -> &'static str {
        "SELECT * FROM ring ORDER BY name"
    }

    fn read(_alloc: Global, row: &Row) -> Result<RingRow, Error> {
        Ok(RingRow {
            name: text_in(row, 0)?,
            power: number_in(row, 1)?,
            replicas: number_in(row, 2)?,
            min_hours: number_in(row, 3)?,
            next_id: number_in(row, 4)?,
            version: number_in(row, 5)?,
        })
    }
}

// All devices, by ring and rising id.
impl Listed for DeviceRow {
    ghost use Rattle.std.specs.FinMap.{entries};
    ghost use Rattle.store_model.specs.Contents.{device_of};
    ghost use Rattle.store_model.specs.Entries.{NameNumber, Device};
    ghost use Rattle.store_tables.specs.Entries.{device_rows};
    ghost use Rattle.store_tables.specs.Texts.{AreDeviceTexts};

    ghost Key = { NameNumber };

    ghost Value = { Device };

    ghost layout = { device_rows };

    ghost entry = { device_of };

    ghost listed = { λ c. entries c.devices };

    ghost are_texts = { AreDeviceTexts };

    ghost before = { 2 };

    fn tables_before() -> usize {
        2
    }

    fn query() -> &'static str {
        "SELECT * FROM device ORDER BY ring, id"
    }

    fn read(_alloc: Global, row: &Row) -> Result<DeviceRow, Error> {
        Ok(DeviceRow {
            ring: text_in(row, 0)?,
            id: number_in(row, 1)?,
            region: number_in(row, 2)?,
            zone: number_in(row, 3)?,
            address: text_in(row, 4)?,
            port: number_in(row, 5)?,
            name: text_in(row, 6)?,
            weight: number_in(row, 7)?,
            removed: number_in(row, 8)?,
        })
    }
}

// All seats of schema 1, by ring, partition and replica.
impl Listed for SeatRow {
    ghost use Rattle.std.specs.Prelude.{ℤ};
    ghost use Rattle.std.specs.FinMap.{entries};
    ghost use Rattle.store_model.specs.Contents.{seat_of};
    ghost use Rattle.store_model.specs.Entries.{SeatKey};
    ghost use Rattle.store_tables.specs.Entries.{seat_rows};
    ghost use Rattle.store_tables.specs.Texts.{AreSeatTexts};

    ghost Key = { SeatKey };

    ghost Value = { ℤ };

    ghost layout = { seat_rows };

    ghost entry = { seat_of };

    ghost listed = { λ c. entries c.seats };

    ghost are_texts = { AreSeatTexts };

    ghost before = { 3 };

    fn tables_before() -> usize {
        3
    }

    fn query() -> &'static str {
        "SELECT * FROM seat ORDER BY ring, part, replica"
    }

    fn read(_alloc: Global, row: &Row) -> Result<SeatRow, Error> {
        Ok(SeatRow {
            ring: text_in(row, 0)?,
            part: number_in(row, 1)?,
            replica: number_in(row, 2)?,
            device: number_in(row, 3)?,
        })
    }
}

// All hours of moves of schema 1, by ring and partition.
impl Listed for MovedRow {
    ghost use Rattle.std.specs.Prelude.{ℤ};
    ghost use Rattle.std.specs.FinMap.{entries};
    ghost use Rattle.store_model.specs.Contents.{moved_of};
    ghost use Rattle.store_model.specs.Entries.{NameNumber};
    ghost use Rattle.store_tables.specs.Entries.{moved_rows};
    ghost use Rattle.store_tables.specs.Texts.{AreMovedTexts};

    ghost Key = { NameNumber };

    ghost Value = { ℤ };

    ghost layout = { moved_rows };

    ghost entry = { moved_of };

    ghost listed = { λ c. entries c.moved };

    ghost are_texts = { AreMovedTexts };

    ghost before = { 4 };

    fn tables_before() -> usize {
        4
    }

    fn query() -> &'static str {
        "SELECT * FROM moved ORDER BY ring, part"
    }

    fn read(_alloc: Global, row: &Row) -> Result<MovedRow, Error> {
        Ok(MovedRow {
            ring: text_in(row, 0)?,
            part: number_in(row, 1)?,
            hour: number_in(row, 2)?,
        })
    }
}

// All published texts, by ring and rising version.
impl Listed for PublishedRow {
    ghost use Rattle.std.specs.Prelude.{ℕ, List};
    ghost use Rattle.std.specs.FinMap.{entries};
    ghost use Rattle.store_model.specs.Contents.{published_of};
    ghost use Rattle.store_model.specs.Entries.{NameNumber};
    ghost use Rattle.store_tables.specs.Entries.{published_rows};
    ghost use Rattle.store_tables.specs.Texts.{ArePublishedTexts};

    ghost Key = { NameNumber };

    ghost Value = { List ℕ };

    ghost layout = { published_rows };

    ghost entry = { published_of };

    ghost listed = { λ c. entries c.published };

    ghost are_texts = { ArePublishedTexts };

    ghost before = { 5 };

    fn tables_before() -> usize {
        5
    }

    fn query() -> &'static str {
        "SELECT * FROM published ORDER BY ring, version"
    }

    fn read(alloc: Global, row: &Row) -> Result<PublishedRow, Error> {
        let body: String = text_in(row, 2)?;
        Ok(PublishedRow {
            ring: text_in(row, 0)?,
            version: number_in(row, 1)?,
            body: RcStr::from_str(alloc, body.as_str())?,
        })
    }
}

// All decided requests, by caller and rising number.
impl Listed for RequestRow {
    ghost use Rattle.std.specs.FinMap.{entries};
    ghost use Rattle.store_model.specs.Contents.{request_of};
    ghost use Rattle.store_model.specs.Entries.{NameNumber, Request};
    ghost use Rattle.store_tables.specs.Entries.{request_rows};
    ghost use Rattle.store_tables.specs.Texts.{AreRequestTexts};

    ghost Key = { NameNumber };

    ghost Value = { Request };

    ghost layout = { request_rows };

    ghost entry = { request_of };

    ghost listed = { λ c. entries c.requests };

    ghost are_texts = { AreRequestTexts };

    ghost before = { 6 };

    fn tables_before() -> usize {
        6
    }

    fn query() -> &'static str {
        "SELECT * FROM request ORDER BY caller, number"
    }

    fn read(_alloc: Global, row: &Row) -> Result<RequestRow, Error> {
        Ok(RequestRow {
            caller: text_in(row, 0)?,
            number: number_in(row, 1)?,
            place: number_in(row, 2)?,
            hour: number_in(row, 3)?,
            command: text_in(row, 4)?,
            reply: text_in(row, 5)?,
        })
    }
}

// All partitions, by ring and rising number.
impl Listed for PartRow {
    ghost use Rattle.std.specs.FinMap.{entries};
    ghost use Rattle.store_model.specs.Contents.{part_of};
    ghost use Rattle.store_model.specs.Entries.{NameNumber, Part};
    ghost use Rattle.store_tables.specs.Entries.{part_rows};
    ghost use Rattle.store_tables.specs.Texts.{ArePartTexts};

    ghost Key = { NameNumber };

    ghost Value = { Part };

    ghost layout = { part_rows };

    ghost entry = { part_of };

    ghost listed = { λ c. entries c.parts };

    ghost are_texts = { ArePartTexts };

    ghost before = { 7 };

    fn tables_before() -> usize {
        7
    }

    fn query() -> &'static str {
        "SELECT * FROM part ORDER BY ring, part"
    }

    fn read(_alloc: Global, row: &Row) -> Result<PartRow, Error> {
        Ok(PartRow {
            ring: text_in(row, 0)?,
            part: number_in(row, 1)?,
            devices: bytes_in(row, 2)?,
            hour: number_in(row, 3)?,
        })
    }
}

/// Rows of a table, each from its columns. What was shown of a row is let go once it is read, so
/// that no text is held twice.
pub(crate) fn rows_in<T: Listed + Drop>(alloc: Global, shown: Vec<Row>) -> Result<Vec<T>, Error>
    ensures unfailed { IfErr result (λ e. tells_failure e ≡ false) }
    ensures no_text { IfErr result (λ e. IsTrue (is_no_text e)
        → All T.are_texts (map (shown_as T.layout) shown.items) → ⊥) }
    ensures rows { IfOk result (λ rows. map T.entry rows.items ≡ map (shown_as T.layout)
        shown.items) }
{
    let mut rows = Vec::new(alloc);
    'rows: for row in shown {
        rows.push(T::read(alloc, &row)?)?;
    }
    Ok(rows)
}

/// All rows of a table, by rising key, where the first `made` tables of the store are there; none where
/// it is not among them. A text that is no UTF-8 is refused with `Utf8Error`.
///
/// Each row is read from its columns before the next one is shown, so that no text is held twice.
pub fn all_rows<T: Listed + Drop, S: Alter>(
    alloc: Global,
    conn: &mut Connection<S>,
    made: usize,
) -> Result<Vec<T>, Error>
    requires { SeesTables made (state S.Store conn.old) }
    ensures reads { ReadsContents (begun_contents made (state S.Store conn.old).now.trees)
        (state S.Store conn.old) (state S.Store conn.new) result
        (λ c rows. map T.entry rows.items ≡ T.listed c) }
    ensures mode { conn.old.in_transaction ≡ false → conn.new.in_transaction ≡ false }
    ensures cause { FailsForCause (state S.Store conn.old) (state S.Store conn.new) result }
    ensures no_text { HasCleanDisk (state S.Store conn.new) → IfErr result (λ e. IsTrue (is_no_text e)
        → All T.are_texts (T.listed (begun_contents made (state S.Store conn.old).now.trees)) → ⊥) }
{
    let mut rows = Vec::new(alloc);
    if made <= T::tables_before() {
        return Ok(rows);
    }
    let sql = T::query();
    let mut shown = conn.query(sql, &[])?;
    'rows: for _ in 0..u64::MAX {
        shown.advance()?;
        let Some(row) = shown.get() else {
            return Ok(rows);
        };
        rows.push(T::read(alloc, row)?)?;
    }
    // No memory has room for so many.
    Err(Error::SqliteFailure(ErrorCode::OutOfMemory))
}

/// What a row of the four columns tells of a request.
fn kept_in(row: &Row) -> Result<KeptRequest, Error>
    ensures { IfOk result (λ it. told row.now ≡ kept_of it) }
{
    Ok(KeptRequest {
        place: row.get(0)?,
        hour: row.get(1)?,
        command: row.get(2)?,
        reply: row.get(3)?,
    })
}

/// What the first of the rows tells, if there is one.
fn first_kept(rows: &[Row]) -> Result<Option<KeptRequest>, Error>
    ensures { IfOk result (λ it. option_map kept_of it ≡ option_map told (slice_get rows.now 0)) }
{
    match rows.first() {
        Some(row) => Ok(Some(kept_in(row)?)),
        None => Ok(None),
    }
}

/// What is kept of a request, if it was decided.
pub fn find_request<S: Alter>(
    conn: &mut Connection<S>,
    caller: &str,
    number: u32,
) -> Result<Option<KeptRequest>, Error>
    requires { SeesStore (state S.Store conn.old) }
    ensures reads { ReadsTables (state S.Store conn.old) (state S.Store conn.new) result
        (λ c it. option_map kept_of it ≡ get c.requests (caller.now, pos number)) }
    ensures mode { conn.old.in_transaction ≡ false → conn.new.in_transaction ≡ false }
{
    let shown = conn.query_all(
        "SELECT place, hour, command, reply FROM request WHERE caller = ?1 AND number = ?2",
        params![caller, number],
    )?;
    first_kept(&shown)
}
