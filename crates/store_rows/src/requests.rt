//! The rows of decided requests.
ghost use Rattle.std.specs.Prelude.{◌≡◌, ◌<◌, ◌≤◌, ◌↔◌, IfOk, IsErrOf, IsTrue, None, length, map};
ghost use Rattle.std.specs.Prelude.{pos, ℕ};
ghost use Rattle.ring_words.specs.Limits.{long_count, most_numbers};
ghost use Rattle.std.specs.Option.{option_map};
ghost use Rattle.std.specs.FinMap.{entries, get};
ghost use Rattle.request_book.specs.Content.{entries_from, entry_of};
ghost use Rattle.request_book.specs.Keeper.{IsFound};
ghost use Rattle.ring_words.specs.declared.request.Key.{Key};
ghost use Rattle.ring_words.specs.declared.spelling.SpellingFault.TheVariants.{Bad};
ghost use Rattle.ring_messages.specs.Commands.{canonical};
ghost use Rattle.store_model.specs.Changes.{with_decided};
ghost use Rattle.store_model.specs.Contents.{kept_of, request_of};
ghost use Rattle.store_model.specs.Pages.{IsPage};
ghost use Rattle.store_rows.specs.Judging.{meta_now};
ghost use Rattle.store_rows.specs.Stands.{IsHoldable, RingContent, contents_for, gained};
ghost use Rattle.store_rows.specs.Stands.{key_of_request};

use crate::row_reading::read_each;
use request_book::{Entry, Found};
use ring_messages::{
    command_is_proper, command_text, one_reply, one_text, read_reply, reply_is_proper, reply_text,
};
use ring_words::{Command, Hour, Key, Reply, SpellingFault};
use std::alloc::{AllocError, Global};
use store_model::{KeptRequest, MetaRow, RequestRow};

/// The rows that keep a decided request.
#[derive(Drop)]
pub struct DecidedRows {
    /// The request's own.
    pub request: RequestRow,
    /// The row on the whole store, with the request's hour.
    pub meta: MetaRow,
}

/// The row on the whole store where the greatest hour is this one.
pub fn meta_row(hour: Hour) -> MetaRow
    ensures { result ≡ meta_now hour }
{
    MetaRow {
        one: 1,
        schema: 2,
        hour: i64::from(hour),
    }
}

/// The rows that keep a decided request, which is the next in a book of `count` requests. Its hour
/// is not before that of any request in the book, and its key is new.
pub fn decided_rows(
    alloc: Global,
    count: u32,
    key: &Key,
    hour: Hour,
    command: &Command,
    reply: &Reply,
) -> Result<DecidedRows, AllocError>
    requires { count < most_numbers }
    ensures rows { IfOk result (λ rows. (content : RingContent) → length content.book ≡ count
        → entry_of key.now content.book ≡ None
        → with_decided (contents_for content) rows.request rows.meta
        ≡ contents_for (gained content (record { key = key.now; hour = hour; command = command.now; reply = reply.now }))) }
    ensures holdable { IfOk result (λ _. (content : RingContent) → IsHoldable content
        → length content.book ≡ count → entry_of key.now content.book ≡ None → content.hour ≤ hour
        → IsHoldable (gained content (record { key = key.now; hour = hour; command = command.now; reply = reply.now }))) }
{
    command_is_proper(command);
    reply_is_proper(reply);
    let request = RequestRow {
        caller: String::from_str(alloc, key.caller.as_str())?,
        number: i64::from(key.number),
        place: i64::from(count),
        hour: i64::from(hour),
        command: command_text(alloc, command)?,
        reply: reply_text(alloc, reply)?,
    };
    Ok(DecidedRows {
        request,
        meta: meta_row(hour),
    })
}

/// Whether a text is the one text of a command.
fn is_text_of(alloc: Global, text: &str, command: &Command) -> Result<bool, AllocError>
    ensures { IfOk result (λ is. IsTrue is ↔ (canonical command.now ≡ text.now)) }
{
    let own = command_text(alloc, command)?;
    Ok(own.as_str() == text)
}

/// What was found of a key, where this is what the table of requests has of it. Never Bad where the
/// store holds a content.
pub fn read_found(
    alloc: Global,
    found: Option<KeptRequest>,
    command: &Command,
) -> Result<Found<Reply>, SpellingFault>
    ensures found { (content : RingContent) (key : Key) → IsHoldable content
        → option_map kept_of found ≡ get (contents_for content).requests (key_of_request key)
        → IfOk result (λ it. IsFound (entry_of key content.book) command.now it) }
    ensures good { (content : RingContent) (key : Key) → IsHoldable content
        → option_map kept_of found ≡ get (contents_for content).requests (key_of_request key)
        → IsErrOf result SpellingFault.Bad → ⊥ }
{
    let Some(kept) = found else {
        return Ok(Found::New);
    };
    command_is_proper(command);
    one_text();
    one_reply();
    if !is_text_of(alloc, kept.command.as_str(), command)? {
        return Ok(Found::Other);
    }
    match read_reply(alloc, kept.reply.as_str()) {
        Ok(reply) => Ok(Found::Same(reply)),
        Err(fault) => Err(fault),
    }
}

/// The decided requests of rows, in the order of the rows. Never Bad where they are the rows from a
/// place on of a table that stands for a book.
pub fn read_entries(
    alloc: Global,
    rows: &[RequestRow],
) -> Result<Vec<Entry<Command, Reply>>, SpellingFault>
    ensures entries { (content : RingContent) (from most : ℕ) → IsHoldable content
        → from < long_count
        → IsPage (pos from) most (entries (contents_for content).requests) (map request_of rows.now)
        → IfOk result (λ found. found.items ≡ entries_from from most content.book) }
    ensures good { (content : RingContent) (from most : ℕ) → IsHoldable content
        → from < long_count
        → IsPage (pos from) most (entries (contents_for content).requests) (map request_of rows.now)
        → IsErrOf result SpellingFault.Bad → ⊥ }
{
    read_each(alloc, rows)
}
