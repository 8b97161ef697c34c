//! The lines of `run`: numbered requests and questions in, answers out.
ghost use Rattle.std.specs.Prelude.{◌≡◌, ◌++◌, ◌∷◌, [], ℕ, List, IfErr, IfOk, IsUtf8, OnOk};
ghost use Rattle.std.specs.Prelude.{Result, Some, string_bytes};
ghost use Rattle.std.specs.Io.KnownBytes.{IsAtEnd};
ghost use Rattle.ring_words.specs.Spelling.{Reads};
ghost use Rattle.builder.specs.Safety.{IsSafeRun};
ghost use Rattle.byte_streams.specs.Counted.{FailsWithCause, LeavesFlushed, reader_of};
ghost use Rattle.request_book.specs.Call.{Load};
ghost use Rattle.request_book.specs.declared.book.Fault.{Fault};
ghost use Rattle.line_api.specs.Lines.{Asks, AsksFor, AsksInquiry, IsTold, answer_line};
ghost use Rattle.line_api.specs.Served.{ServesLines};
ghost use Rattle.line_api.specs.Inner.Answering.{Answers, Loses};
ghost use Rattle.ring_book.specs.Book.{Found, Made};
ghost use Rattle.ring_log.specs.Inquiries.{written_for};
ghost use Rattle.line_stream.specs.Serving.{LinesServedOn, LinesStoppedOn};
ghost use Rattle.ring_messages.specs.declared.told.Told.TheVariants as told;

use crate::questions::read_question;
use builder::{MessageFault, RingMachine, Told, read_delivery, status_of, told_text};
use byte_streams::{CountedReader, CountedWriter, StreamFault};
use line_stream::{Handler, serve_lines};
use path_lookup::HashNames;
use request_book::{Book, Keeper};
use ring_book::{deliver, read};
use ring_log::Inquiry;
use ring_words::{Command, Delivery, Hour, parse_decimal_up_to};
use std::alloc::{AllocError, Global};
use std::io::{Read, Write};
use std::marker::PhantomData;
use std::str;

/// What a line asks for.
#[derive(Drop)]
enum Request {
    /// That a delivery is made.
    Delivery(Delivery<Command>),
    /// That something is shown.
    Inquiry(Inquiry),
}

/// The delivery that a line asks for: its hour, a space, and a message. Unreadable exactly where it
/// asks for none.
fn read_line(alloc: Global, line: &[u8]) -> Result<Delivery<Command>, MessageFault>
    ensures { Reads (Asks line.now) result }
{
    let Ok(text) = str::from_utf8(line) else {
        return Err(MessageFault::Bad);
    };
    let Some((hour, message)) = parse_decimal_up_to(text, ' ') else {
        return Err(MessageFault::Bad);
    };
    let (key, command) = read_delivery(alloc, message.as_bytes())?;
    Ok(Delivery { hour, key, command })
}

/// What a line asks for. Unreadable exactly where it asks for nothing.
fn read_request(alloc: Global, line: &[u8]) -> Result<Request, MessageFault>
    ensures { Reads (AsksFor line.now) result }
{
    match read_question(alloc, line) {
        Ok(asked) => Ok(Request::Inquiry(asked)),
        Err(MessageFault::NoMemory) => Err(MessageFault::NoMemory),
        Err(MessageFault::Bad) => Ok(Request::Delivery(read_line(alloc, line)?)),
    }
}

/// An answer as a line, without its line feed: a status, a space and the answer's text.
pub fn answer_text(alloc: Global, told: &Told) -> Result<String, AllocError>
    ensures { IfOk result (λ text. string_bytes text ≡ answer_line told.now) }
{
    let status = status_of(told);
    let text = told_text(alloc, told)?;
    format!(in alloc; "{status} {text}")
}

/// A text without the line feed at its end.
fn unended(text: String) -> String
    requires { (front : List ℕ) × (string_bytes text ≡ front ++ 10 ∷ []) }
    ensures { string_bytes result ++ 10 ∷ [] ≡ string_bytes text }
{
    let mut text = text;
    let _ = text.pop();
    text
}

/// Bytes that are shown of what is asked, as an answer, which has no line feed at its end.
fn shown_text(asked: &Inquiry, bytes: Vec<u8>) -> String
    requires utf8 { IsUtf8 bytes.items }
    requires ended { (front : List ℕ)
        × (written_for asked.now bytes.items ≡ front ++ 10 ∷ []) }
    ensures { string_bytes result ++ 10 ∷ [] ≡ written_for asked.now bytes.items }
{
    let has_no_end = asked.is_json() || bytes.is_empty();
    match String::from_utf8(bytes) {
        Ok(text) if has_no_end => text,
        Ok(text) => unended(text),
        Err(_) => unreachable!(),
    }
}

/// Lines tell the hours of deliveries, and none of a clock.
const NO_CLOCK: Hour = 0;

/// Answers what a line asks of a book.
fn show<K: Keeper<RingMachine>>(
    alloc: Global,
    book: &mut Book<RingMachine, K>,
    asked: &Inquiry,
) -> Result<String, AllocError>
    requires { (line : List ℕ) × AsksInquiry line asked.now }
    ensures { (answer : Result (Unit {0}) Fault)
        × Made K.Keeper book.old book.new (Some (Load answer))
        × IfOk result (λ text. IsTold (Found K.Keeper 0 book.old book.new)
        asked.now answer (string_bytes text)) }
{
    let no_names = HashNames {
        prefix: b"",
        suffix: b"",
    };
    match read(alloc, book, NO_CLOCK, no_names, asked) {
        Ok(bytes) => Ok(shown_text(asked, bytes)),
        Err(told) => answer_text(alloc, &told),
    }
}

/// Answers lines by a book of the builder.
struct RingLines<K> {
    keeper: PhantomData<K>,
}

impl<K: Keeper<RingMachine>> Handler for RingLines<K> {
    type State = Book<RingMachine, K>;

    ghost answers = { Answers K.Keeper };

    ghost loses = { Loses K.Keeper };

    ghost no_memory = { answer_line told.NoMemory };

    ghost too_long = { answer_line told.Unreadable };

    fn answer(
        alloc: Global,
        book: &mut Book<RingMachine, K>,
        line: &[u8],
    ) -> Result<String, AllocError> {
        match read_request(alloc, line) {
            Ok(Request::Delivery(delivery)) => {
                let Delivery { hour, key, command } = delivery;
                answer_text(alloc, &deliver(book, hour, key, command))
            }
            Ok(Request::Inquiry(asked)) => show(alloc, book, &asked),
            Err(MessageFault::Bad) => answer_text(alloc, &Told::Unreadable),
            Err(MessageFault::NoMemory) => Err(AllocError),
        }
    }

    fn no_memory() -> &'static str {
        "503 {\"fault\":\"NoMemory\",\"rule\":23}"
    }

    fn too_long() -> &'static str {
        "400 {\"fault\":\"Unreadable\",\"rule\":20}"
    }
}

/// Answers every line of a reader on a writer, in order, and tells how many there were, 4294967295
/// for more. A line is an hour in decimal, one space, and a message with the request's key and its
/// command; it is answered by a status, a space and the answer. Or it is a question: `? rings` for
/// which rings there are, `? status` for how much is kept, `? WORD RING`, where the word alone asks
/// for something of the ring, as `devices`, `balance` and `ring` do, `? preview RING SEED HOUR` for
/// what a rebalance would do, `? moves RING FROM TO` for what moved between two published versions,
/// or `? log PLACE COUNT` for the decided requests from a place on. It is answered by what is shown,
/// or by a status, a space and why nothing is. What came is answered and flushed before the reader is
/// asked for more.
///
/// The deliveries are one run of the book: each number is decided once, in the order of the lines,
/// and every repeat gets its kept reply. A question is answered from what the deliveries of the lines
/// before it left, and changes nothing.
///
/// After ReadFailed the answers so far were written and flushed, and after WriteFailed a beginning
/// of them was written; what was decided stays decided. NoMemory comes before the first read, and
/// nothing was touched. The reader counts one more fault exactly at ReadFailed, and the writer
/// exactly at WriteFailed.
pub fn run_lines<R: Read, W: Write, K: Keeper<RingMachine>>(
    alloc: Global,
    reader: &mut CountedReader<R>,
    writer: &mut CountedWriter<W>,
    book: &mut Book<RingMachine, K>,
) -> Result<u32, StreamFault>
    ensures served { IfOk result (LinesServedOn R.remaining W.contents (ServesLines K.Keeper)
        reader.old writer.old writer.new book.old book.new) }
    ensures at_end { OnOk result (IsAtEnd (R.remaining (reader_of reader.new))) }
    ensures stopped { IfErr result (LinesStoppedOn R.remaining W.contents (ServesLines K.Keeper)
        reader.old reader.new writer.old writer.new book.old book.new) }
    ensures cause { FailsWithCause reader.old reader.new writer.old writer.new result }
    ensures flushed { LeavesFlushed writer.new result }

    // Whatever came of it, few replicas left in each rebalance, those of a moved partition rested,
    // and valid rings stayed valid.
    ensures safe { K.sound book.new.keeper
        → IsSafeRun book.old.machine.limits (K.content book.old.keeper) (K.content book.new.keeper) }
{
    serve_lines::<R, W, RingLines<K>>(alloc, reader, writer, book)
}
