//! Decided requests, a line each.
ghost use Rattle.std.specs.Prelude.{◌≡◌, ◌<◌, ◌+◌, ◌^◌, ◌++◌, ◌∷◌, [], IfOk, OnOk, string_bytes};
ghost use Rattle.serde_json.specs.Written.{compact_text};
ghost use Rattle.ring_messages.specs.Objects.{AddsData};
ghost use Rattle.ring_log.specs.Log.{delivery_line, entries_text, entry_data, entry_text};

use json::Writer;
use request_book::Entry;
use ring_messages::Scalar::Number;
use ring_messages::{
    Told, message_text, new_text, status_of, text_of, write_members, write_message, write_reply,
};
use ring_words::{Command, Reply};
use std::alloc::{AllocError, Global};

/// A decided request of a book of rings.
pub type LogEntry = Entry<Command, Reply>;

/// The form in which entries are written, a line each.
#[derive(Clone, Copy, PartialEq, Eq)]
pub enum LogForm {
    /// Whole entries, as compact JSON, its keys in byte order: the `hour` that a request was decided
    /// at, its `place`, its `request` as a message, and the `reply` that is kept of it with its
    /// `status`.
    Entries,
    /// Lines that ask for the same deliveries again.
    Deliveries,
}

/// Writes the entry at a place.
fn write_entry(
    writer: &mut Writer,
    alloc: Global,
    place: u64,
    entry: &LogEntry,
) -> Result<(), AllocError>
    ensures { AddsData result writer.old writer.new (entry_data place entry.now) }
{
    let status = status_of(&Told::Reply(entry.reply));
    writer.begin_object()?;
    write_members(
        writer,
        &[
            ("hour", Number(entry.hour.into())),
            ("place", Number(place)),
        ],
    )?;
    writer.key("reply")?;
    write_reply(writer, entry.reply)?;
    writer.key("request")?;
    write_message(writer, alloc, &entry.key, &entry.command)?;
    write_members(writer, &[("status", Number(status.into()))])?;
    writer.end_object()
}

/// The place of the entry behind so many others from a place on.
fn next_place(from: u32, others: usize) -> u64
    requires { others < 2 ^ 63 }
    ensures { result ≡ from + others }
{
    u64::from(from) + others as u64
}

/// The text of the entry at a place, as it is told among others.
fn entry_json(alloc: Global, place: u64, entry: &LogEntry) -> Result<String, AllocError>
    ensures { IfOk result (λ text. string_bytes text ≡ compact_text (entry_data place entry.now)) }
{
    let mut writer = new_text(alloc)?;
    write_entry(&mut writer, alloc, place, entry)?;
    Ok(text_of(writer))
}

/// The line that asks for the delivery of an entry, at the hour that it was decided at. Its message
/// is read back as the entry's key and command.
fn delivery_text(alloc: Global, entry: &LogEntry) -> Result<String, AllocError>
    ensures { IfOk result (λ text. string_bytes text ≡ delivery_line entry.now) }
{
    let hour = entry.hour;
    let message = message_text(alloc, &entry.key, &entry.command)?;
    format!(in alloc; "{hour} {message}")
}

/// The text of the entry at a place, in a form.
fn entry_text(
    alloc: Global,
    form: LogForm,
    place: u64,
    entry: &LogEntry,
) -> Result<String, AllocError>
    ensures { IfOk result (λ text. string_bytes text ≡ entry_text form place entry.now) }
{
    match form {
        LogForm::Entries => entry_json(alloc, place, entry),
        LogForm::Deliveries => delivery_text(alloc, entry),
    }
}

/// Adds the entry at a place as a line.
fn push_text(
    into: &mut String,
    alloc: Global,
    form: LogForm,
    place: u64,
    entry: &LogEntry,
) -> Result<(), AllocError>
    ensures { OnOk result (string_bytes into.new ≡ string_bytes into.old ++
        (entry_text form place entry.now ++ 10 ∷ [])) }
{
    let text = entry_text(alloc, form, place, entry)?;
    into.push_str(text.as_str())?;
    into.push_str("\n")
}

/// A line for each of some entries, of which the first has this place, in a form.
pub fn entries_text(
    alloc: Global,
    form: LogForm,
    from: u32,
    entries: &[LogEntry],
) -> Result<String, AllocError>
    ensures { IfOk result (λ text. string_bytes text ≡ entries_text form from entries.now) }
{
    let mut text = String::new(alloc);
    for (index, entry) in entries.iter().enumerate() {
        let place = next_place(from, index);
        push_text(&mut text, alloc, form, place, entry)?;
    }
    Ok(text)
}
