//! What a caller is told, as text and as a status.
ghost use Rattle.std.specs.Prelude.{◌≡◌, IfOk, string_bytes};
ghost use Rattle.ring_messages.specs.Objects.{AddsData};
ghost use Rattle.ring_messages.specs.Replies.{fault_data, bad_row_data, bad_field_data, told_data};
ghost use Rattle.ring_messages.specs.Replies.{answer_text, answer_status};

use crate::objects::Scalar::{Number, Text};
use crate::objects::{new_text, text_of, write_object};
use crate::replies::{write_refused, write_reply};
use json::Writer;
use ring_words::Reply;
use std::alloc::{AllocError, Global};

/// What a caller is told: the reply to a command that was decided, or why there is none.
#[derive(Clone, Copy, PartialEq, Eq)]
pub enum Told {
    /// The reply to a command that was decided, now or before.
    Reply(Reply),
    /// The message isn't one.
    Unreadable,
    /// The caller gave this number to another command before.
    NumberReused,
    /// As many numbers are kept as may be.
    BookFull,
    /// A growth of memory was refused.
    NoMemory,
    /// The store failed.
    StoreFault,
    /// The store failed before, and nothing is decided until it is opened again.
    Closed,
    /// The path that was asked for isn't one.
    BadPath,
    /// The ring's version that was asked for isn't published.
    NoVersion,
    /// The first record of a table isn't its header.
    BadHeader,
    /// A row of a table is too long or too short.
    BadRow {
        /// Which row, counted from 1.
        row: u64,
    },
    /// A field of a table isn't of its form.
    BadField {
        /// Which row, counted from 1.
        row: u64,
        /// Which column, from 1 to 6.
        column: u8,
    },
    /// A table couldn't be read to its end.
    ReadFailed,
}

/// The text of [`Told::NoMemory`], for where its text finds no memory.
pub const NO_MEMORY_TEXT: &str = "{\"fault\":\"NoMemory\",\"rule\":23}";

/// The text of [`Told::NoMemory`], without memory.
pub fn no_memory() -> &'static str
    ensures { result.now ≡ answer_text Told.NoMemory }
{
    NO_MEMORY_TEXT
}

fn write_fault(writer: &mut Writer, name: &str, rule: u8) -> Result<(), AllocError>
    ensures { AddsData result writer.old writer.new (fault_data name.now rule) }
{
    write_object(
        writer,
        &[("fault", Text(name)), ("rule", Number(rule.into()))],
    )
}

fn write_bad_row(writer: &mut Writer, row: u64) -> Result<(), AllocError>
    ensures { AddsData result writer.old writer.new (bad_row_data row) }
{
    write_object(
        writer,
        &[
            ("fault", Text("BadRow")),
            ("row", Number(row)),
            ("rule", Number(41)),
        ],
    )
}

fn write_bad_field(writer: &mut Writer, row: u64, column: u8) -> Result<(), AllocError>
    ensures { AddsData result writer.old writer.new (bad_field_data row column) }
{
    write_object(
        writer,
        &[
            ("column", Number(column.into())),
            ("fault", Text("BadField")),
            ("row", Number(row)),
            ("rule", Number(42)),
        ],
    )
}

fn write_told(writer: &mut Writer, told: &Told) -> Result<(), AllocError>
    ensures { AddsData result writer.old writer.new (told_data told.now) }
{
    match *told {
        Told::Reply(reply) => write_reply(writer, reply),
        Told::Unreadable => write_fault(writer, "Unreadable", 20),
        Told::NumberReused => write_fault(writer, "NumberReused", 21),
        Told::BookFull => write_fault(writer, "BookFull", 22),
        Told::NoMemory => write_fault(writer, "NoMemory", 23),
        Told::StoreFault => write_fault(writer, "StoreFault", 24),
        Told::Closed => write_fault(writer, "Closed", 25),
        Told::BadPath => write_refused(writer, "BadPath", 30),
        Told::NoVersion => write_refused(writer, "NoVersion", 32),
        Told::BadHeader => write_fault(writer, "BadHeader", 40),
        Told::BadRow { row } => write_bad_row(writer, row),
        Told::BadField { row, column } => write_bad_field(writer, row, column),
        Told::ReadFailed => write_fault(writer, "ReadFailed", 43),
    }
}

/// The text of an answer.
pub fn told_text(alloc: Global, told: &Told) -> Result<String, AllocError>
    ensures { IfOk result (λ s. string_bytes s ≡ answer_text told.now) }
{
    let mut writer = new_text(alloc)?;
    write_told(&mut writer, told)?;
    Ok(text_of(writer))
}

/// The status that an answer has over HTTP.
pub fn status_of(told: &Told) -> u16
    ensures { result ≡ answer_status told.now }
{
    match told {
        Told::Reply(Reply::Done(_)) => 200,
        Told::Unreadable | Told::BadPath | Told::BadHeader => 400,
        Told::BadRow { .. } | Told::BadField { .. } => 400,
        Told::NumberReused => 409,
        Told::Reply(Reply::Refused(_)) | Told::NoVersion => 422,
        Told::NoMemory | Told::StoreFault | Told::Closed | Told::ReadFailed => 503,
        Told::BookFull => 507,
    }
}
