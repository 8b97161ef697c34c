//! Reads.
ghost use Rattle.std.specs.Prelude.{◌≡◌, ℕ, IfOk, Result, Some};
ghost use Rattle.http_api.specs.Http.{IsReadAnswer, MayTell, question_kind, shown_kind};
ghost use Rattle.request_book.specs.Call.{Load};
ghost use Rattle.request_book.specs.declared.book.Fault.{Fault};
ghost use Rattle.ring_book.specs.Book.{Found, Made};

use crate::answers::{shown_answer, told_answer};
use crate::clock::Clock;
use builder::RingMachine;
use http_messages::BodyKind;
use path_lookup::HashNames;
use request_book::{Book, Keeper};
use ring_book::read;
use ring_log::Inquiry;
use ring_reads::Question;
use std::alloc::{AllocError, Global};

/// What the paths of a cluster are hashed between, and whether the answer is the last.
#[derive(Clone, Copy)]
pub struct ReadWay<'a> {
    pub names: HashNames<'a>,
    pub is_last: bool,
}

/// What kind of body is shown of a question.
fn question_kind(question: &Question) -> BodyKind
    ensures { result ≡ question_kind question.now }
{
    if question.is_json() {
        BodyKind::Json
    } else if question.is_metrics() {
        BodyKind::Metrics
    } else if question.is_file() {
        BodyKind::Bytes
    } else {
        BodyKind::Text
    }
}

/// What kind of body is shown of what is asked.
fn kind_of(asked: &Inquiry) -> BodyKind
    ensures { result ≡ shown_kind asked.now }
{
    match asked {
        Inquiry::Held(question) => question_kind(question),
        Inquiry::Log(..) => BodyKind::JsonLines,
    }
}

/// Answers a read from what the book holds, at the hour that the clock tells now.
pub fn answer_read<K: Keeper<RingMachine>, C: Clock>(
    alloc: Global,
    way: ReadWay<'_>,
    clock: &C,
    book: &mut Book<RingMachine, K>,
    asked: &Inquiry,
) -> Result<Vec<u8>, AllocError>
    ensures { (answer : Result (Unit {0}) Fault)
        × Made K.Keeper book.old book.new (Some (Load answer))
        × IfOk result (λ text. (hour : ℕ) × MayTell C.tells clock.now hour
        × IsReadAnswer (Found K.Keeper hour book.old book.new) way.entry.is_last
        way.entry.names.prefix.now way.entry.names.suffix.now asked.now answer
        text.items) }
{
    match read(alloc, book, clock.now(), way.names, asked) {
        Ok(bytes) => shown_answer(alloc, kind_of(asked), &bytes, way.is_last),
        Err(told) => told_answer(alloc, &told, way.is_last),
    }
}
