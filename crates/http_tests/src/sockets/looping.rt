//! Bytes served by way of a socket.
use super::doubles::{Comers, OwnNet};
use super::serving::{LAST, LAST_ANSWER, ONE, ONE_ANSWERED};
use crate::serving::{
    CREATE, CREATED, NO_NAMES, RingBook, are_beginning, are_joined, joined, open,
};
use byte_streams::{CountedWriter, StreamFault};
use http_sockets::{HourClock, ServeFault, loop_over};
use ring_words::Limits;
use std::alloc::Global;
use std::io::Write;
use std::net::Net;
use std::time::Clock;
use test_fixtures::Taker;

static READ: &str = "GET /v2 HTTP/1.1\r\nHost: a\r\n\r\n";

static READ_ANSWER: &str =
    "HTTP/1.1 404 Not Found\r\nContent-Type: application/json\r\nContent-Length: 32\r\n\r\n{\"fault\":\"NoRoute\",\"status\":404}";

/// Serves a file of these bytes at this book and at hour 7.
fn loop_on<R: AllocGlobal + Net + Clock, W: Write>(
    rt: &R,
    book: &mut RingBook,
    input: &[u8],
    writer: &mut CountedWriter<W>,
) -> Result<(), ServeFault> {
    let mut clock = HourClock::new(rt, Some(7));
    loop_over(rt, input, writer, &mut clock, book, NO_NAMES)
}

/// How the serving of a file of these bytes ends at this book, and what is written.
fn looped<R: AllocGlobal + Net + Clock>(
    rt: &R,
    book: &mut RingBook,
    input: &[u8],
) -> (Result<(), ServeFault>, Vec<u8>) {
    let mut writer = CountedWriter::new(Vec::new(rt.alloc()));
    let came = loop_on(rt, book, input, &mut writer);
    (came, writer.into_inner())
}

/// Whether a file of these bytes is served to its end at this book, and answered so.
fn loops(rt: &HostRuntime, book: &mut RingBook, input: &[u8], want: &[&str]) -> bool {
    let (came, written) = looped(rt, book, input);
    came.is_ok() && are_joined(&written, want)
}

/// The same of a file of these texts at a new book.
fn loops_anew(rt: &HostRuntime, texts: &[&str], want: &[&str]) -> bool {
    let Some(input) = joined(rt.alloc(), texts) else {
        return false;
    };
    let mut book = open(rt.alloc(), Limits::full());
    loops(rt, &mut book, input.as_bytes(), want)
}

/// Three requests, the last of which says so, and one behind it.
static WITH_A_LAST: [&str; 4] = [CREATE, CREATE, LAST, CREATE];

/// The answers to the three.
static ANSWERED_TO_THE_LAST: [&str; 3] = [CREATED, CREATED, LAST_ANSWER];

#[test]
fn the_answers_to_a_file_are_written(rt: HostRuntime) {
    assert!(rt; loops_anew(&rt, &WITH_A_LAST, &ANSWERED_TO_THE_LAST));
}

#[test]
fn a_file_that_ends_within_a_request_is_answered_up_to_it(rt: HostRuntime) {
    let texts = [READ, &CREATE[..100]];
    assert!(rt; loops_anew(&rt, &texts, &[READ_ANSWER]));
}

#[test]
fn a_file_of_32768_bytes_is_answered(rt: HostRuntime) {
    let mut texts = ["x"; 32721];
    texts[0] = WITH_A_LAST[2];
    assert!(rt; texts[0].len() == 48);
    assert!(rt; loops_anew(&rt, &texts, &ANSWERED_TO_THE_LAST[2..]));
}

/// How the serving of 500 reads ends whose answers are too long, and what is written.
fn looped_too_long(rt: &HostRuntime) -> Option<(Result<(), ServeFault>, Vec<u8>)> {
    let input = joined(rt.alloc(), &[READ; 500])?;
    let mut book = open(rt.alloc(), Limits::full());
    Some(looped(rt, &mut book, input.as_bytes()))
}

/// Whether it is told that a write failed, and what was written is the first 32,768 bytes of their
/// answers.
fn is_cut(rt: &HostRuntime) -> bool {
    match looped_too_long(rt) {
        Some((came, text)) => {
            came == Err(ServeFault::Stream(StreamFault::WriteFailed))
                && text.len() == 32768
                && are_beginning(&text, &[READ_ANSWER; 500])
        }
        None => false,
    }
}

#[test]
fn answers_past_32768_bytes_end_the_stream(rt: HostRuntime) {
    assert!(rt; is_cut(&rt));
}

/// Whether serving a request, whose answer is written to a writer that fails, tells so, and the
/// writer counts that and took a beginning of the answer.
fn tells_a_failing_writer(rt: &HostRuntime, book: &mut RingBook) -> bool {
    let mut writer = CountedWriter::new(Taker::new(rt.alloc(), 30, 3));
    let came = loop_on(rt, book, ONE[0].as_bytes(), &mut writer);
    let is_counted = writer.faults() == 1;
    let text = writer.into_inner().taken;
    came == Err(ServeFault::Stream(StreamFault::WriteFailed))
        && is_counted
        && are_beginning(&text, &ONE_ANSWERED)
}

/// Whether a writer that fails is told so, and the request gets its answer when it is served again.
fn survives_a_failing_writer(rt: &HostRuntime) -> bool {
    let mut book = open(rt.alloc(), Limits::full());
    tells_a_failing_writer(rt, &mut book) && loops(rt, &mut book, ONE[0].as_bytes(), &ONE_ANSWERED)
}

#[test]
fn a_writer_that_fails_is_told(rt: HostRuntime) {
    assert!(rt; survives_a_failing_writer(&rt));
}

/// How the serving of no bytes ends where so many strangers come before the client.
fn looped_past(alloc: Global, strangers: u32) -> Result<(), ServeFault> {
    let machine = (OwnNet::new(Comers::Strangers(strangers)), alloc);
    looped(&machine, &mut open(alloc, Limits::full()), b"").0
}

#[test]
fn a_stranger_is_turned_away(rt: HostRuntime) {
    assert!(rt; looped_past(rt.alloc(), 0).is_ok());
    assert!(rt; looped_past(rt.alloc(), 1).is_ok());
    assert!(rt; looped_past(rt.alloc(), 128).is_ok());
}

#[test]
fn no_more_than_128_strangers_are_turned_away(rt: HostRuntime) {
    assert!(rt; matches!(looped_past(rt.alloc(), 129), Err(ServeFault::NetFailed)));
}
