//! The book, read from the rows of decided requests.
ghost use Rattle.std.specs.Prelude.{◌≡◌, ◌<◌, ◌≤◌, ◌↔◌, IfOk, IsTrue, List, length, map};
ghost use Rattle.ring_words.specs.Limits.{most_numbers};
ghost use Rattle.std.specs.FinMap.{FinMap, entries, from_entries};
ghost use Rattle.request_book.specs.Run.{last_hour};
ghost use Rattle.ring_words.specs.Spelling.{Reads};
ghost use Rattle.store_rows.specs.Callers.{Bounds};
ghost use Rattle.store_rows.specs.Judging.{IsBookFound, SaysBook};
ghost use Rattle.store_rows.specs.Stands.{DecidedRequest, IsBook, request_entries};
ghost use Rattle.store_model.specs.Contents.{request_of};
ghost use Rattle.store_model.specs.Entries.{Request, name_number_cmp};
ghost use Rattle.store_rows.specs.Inner.Books.{IsSaid, SaysRequest};

use crate::callers::Callers;
use crate::numbers::number32;
use request_book::Entry;
use ring_messages::{one_reply, one_text, read_command, read_reply};
use ring_words::{Command, Hour, Key, MOST_NUMBERS, Reply, SpellingFault, read_name};
use std::alloc::{AllocError, Global};
use store_model::RequestRow;

/// The decided request of a row, which is the `place`-th from 0.
pub(crate) fn read_request(
    alloc: Global,
    row: &RequestRow,
    place: u32,
) -> Result<Entry<Command, Reply>, SpellingFault>
    ensures { Reads (SaysRequest place row.now) result }
{
    if row.place != i64::from(place) {
        return Err(SpellingFault::Bad);
    }
    Ok(Entry {
        key: Key {
            caller: read_name(alloc, row.caller.as_str())?,
            number: number32(row.number)?,
        },
        hour: number32(row.hour)?,
        command: read_command(alloc, row.command.as_str())?,
        reply: read_reply(alloc, row.reply.as_str())?,
    })
}

/// Judges the rows of a book in the order of their places: the hour of the last request, 0 without
/// any, and the callers. Bad where a row is no request's, where a place is missing, and where an
/// hour is before that of an earlier request.
fn judge_in_order(alloc: Global, rows: &[RequestRow]) -> Result<(Hour, Callers), SpellingFault>
    requires { length rows.now ≤ most_numbers }
    ensures { Reads (λ found. (book : List DecidedRequest) × IsSaid rows.now book ×
        (last_hour 0 book ≡ found.0) × Bounds found.1 book) result }
{
    let mut hour = 0;
    let mut callers = Callers::new(alloc);
    for (place, row) in rows.iter().enumerate() {
        let entry = read_request(alloc, row, place as u32)?;
        if entry.hour < hour {
            return Err(SpellingFault::Bad);
        }
        hour = entry.hour;
        callers.note(&entry.key)?;
    }
    Ok((hour, callers))
}

/// Whether an hour is that of the last of so many requests, if there is one.
fn is_last(count: usize, last: Hour, hour: Hour) -> bool
    ensures { IsTrue result ↔ (0 < count → last ≡ hour) }
{
    count == 0 || last == hour
}

/// A book that was read: what is to be held of it.
#[derive(Drop)]
pub struct FoundBook {
    /// How many requests it has.
    pub count: usize,
    /// The hour of the last one, 0 without any.
    pub last: Hour,
    /// Its callers, with their greatest numbers.
    pub callers: Callers,
}

/// What the rows of decided requests say.
#[derive(Drop)]
pub struct ReadBook {
    /// Whether there is no row.
    pub is_empty: bool,
    /// The book, `None` where the rows are no book's.
    pub found: Option<FoundBook>,
}

/// Judges the rows of a book. Bad where they are no book's.
fn judge_book(alloc: Global, rows: Vec<RequestRow>) -> Result<FoundBook, SpellingFault>
    ensures { (requests : FinMap name_number_cmp Request) → map request_of rows.items ≡ entries requests
        → Reads (IsBookFound requests) result }
{
    if rows.len() > MOST_NUMBERS {
        return Err(SpellingFault::Bad);
    }
    let mut rows = rows;
    rows.sort_unstable_by_key(|row| row.place);
    let (last, callers) = judge_in_order(alloc, &rows)?;
    Ok(FoundBook {
        count: rows.len(),
        last,
        callers,
    })
}

/// What the rows of decided requests say. They are let go, so that they are not in memory beside the
/// rows of rings.
pub fn read_book(alloc: Global, rows: Vec<RequestRow>) -> Result<ReadBook, AllocError>
    ensures { IfOk result (λ read. (requests : FinMap name_number_cmp Request)
        → map request_of rows.items ≡ entries requests → SaysBook requests read) }
{
    let is_empty = rows.is_empty();
    let found = match judge_book(alloc, rows) {
        Ok(found) => Some(found),
        Err(SpellingFault::Bad) => None,
        Err(SpellingFault::NoMemory) => return Err(AllocError),
    };
    Ok(ReadBook { is_empty, found })
}

/// The count of the requests and the callers of a book that was read, where this is the greatest hour
/// of its store. Bad where there is no book, or where its last request was decided at another hour.
pub(crate) fn book_at(read: ReadBook, hour: Hour) -> Result<(usize, Callers), SpellingFault>
    ensures { (requests : FinMap name_number_cmp Request) → SaysBook requests read
        → Reads (λ found. (book : List DecidedRequest) × IsBook book
        × (requests ≡ from_entries (request_entries book)) × (last_hour hour book ≡ hour)
        × (length book ≡ found.0) × Bounds found.1 book) result }
{
    one_text();
    one_reply();
    let Some(book) = read.found else {
        return Err(SpellingFault::Bad);
    };
    if !is_last(book.count, book.last, hour) {
        return Err(SpellingFault::Bad);
    }
    Ok((book.count, book.callers))
}
