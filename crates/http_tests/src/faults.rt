//! Readers and writers that fail over four requests.
use crate::serving::{
    CREATE, CREATED, Calls, Outcome, RingBook, answers, are_beginning, joined, open, serve,
};
use byte_streams::StreamFault;
use ring_words::Limits;
use std::alloc::Global;

/// Four requests.
static FOUR: [&str; 4] = [
    CREATE,
    "GET /v1/rings/object/devices HTTP/1.1\r\nHost: a\r\n\r\n",
    "GET /v2 HTTP/1.1\r\nHost: a\r\n\r\n",
    CREATE,
];

/// Their answers.
static FOUR_ANSWERS: [&str; 4] = [
    CREATED,
    "HTTP/1.1 200 OK\r\nContent-Type: text/plain\r\nContent-Length: 65\r\n\r\n   id region  zone address          port     weight state   name\n",
    "HTTP/1.1 404 Not Found\r\nContent-Type: application/json\r\nContent-Length: 32\r\n\r\n{\"fault\":\"NoRoute\",\"status\":404}",
    CREATED,
];

/// Whether the four requests get their answers.
fn four_are_answered(alloc: Global, book: &mut RingBook) -> bool {
    match joined(alloc, &FOUR) {
        Some(stream) => answers(alloc, book, &stream, &FOUR_ANSWERS),
        None => false,
    }
}

/// The same of a new book.
fn four_are_answered_anew(alloc: Global) -> bool {
    four_are_answered(alloc, &mut open(alloc, Limits::full()))
}

#[test]
fn four_requests_are_answered(rt: HostRuntime) {
    assert!(rt; four_are_answered_anew(rt.alloc()));
}

/// Serves the four requests, where reads and writes are such calls.
fn serve_four(alloc: Global, book: &mut RingBook, reads: Calls, writes: Calls) -> Option<Outcome> {
    let stream = joined(alloc, &FOUR)?;
    serve(alloc, book, stream.as_bytes(), reads, writes)
}

/// Whether a fault is told just where the stream that it tells of has counted one, and the other
/// stream has counted none.
fn is_told(came: &Outcome, fault: StreamFault) -> bool {
    let (counted, others) = match fault {
        StreamFault::ReadFailed => (came.read_faults, came.write_faults),
        _ => (came.write_faults, came.read_faults),
    };
    (came.count == Err(fault)) == (counted == 1) && others == 0
}

/// Whether serving the four requests, where it fails so, leaves the answers so far. Where no stream
/// failed, nothing was told.
fn leaves_a_beginning(
    alloc: Global,
    book: &mut RingBook,
    reads: Calls,
    writes: Calls,
    fault: StreamFault,
) -> bool {
    match serve_four(alloc, book, reads, writes) {
        Some(came) => is_told(&came, fault) && are_beginning(&came.text, &FOUR_ANSWERS),
        None => false,
    }
}

/// The same of a new book, and whether all is answered when it is sent again.
fn fails_well(alloc: Global, reads: Calls, writes: Calls, fault: StreamFault) -> bool {
    let mut book = open(alloc, Limits::full());
    leaves_a_beginning(alloc, &mut book, reads, writes, fault)
        && four_are_answered(alloc, &mut book)
}

#[test]
fn a_failed_read_leaves_the_answers_so_far(rt: HostRuntime) {
    for fails_at in 1..12 {
        let is_well = fails_well(
            rt.alloc(),
            (40, fails_at),
            (1000, u32::MAX),
            StreamFault::ReadFailed,
        );
        assert!(rt; is_well, "at {fails_at}");
    }
}

#[test]
fn a_failed_write_leaves_a_beginning_of_the_answers(rt: HostRuntime) {
    for fails_at in 1..24 {
        let is_well = fails_well(
            rt.alloc(),
            (100, u32::MAX),
            (30, fails_at),
            StreamFault::WriteFailed,
        );
        assert!(rt; is_well, "at {fails_at}");
    }
}

/// Serves a stream over a new book up to the second read, which fails.
fn serve_one_read(alloc: Global, stream: &str) -> Option<Outcome> {
    let mut book = open(alloc, Limits::full());
    serve(
        alloc,
        &mut book,
        stream.as_bytes(),
        (1000, 2),
        (1000, u32::MAX),
    )
}

/// Whether a request is answered, and its answer flushed, before the read behind it, which fails.
fn is_written_at_once(alloc: Global) -> bool {
    match serve_one_read(alloc, FOUR[0]) {
        Some(came) => {
            let is_written = came.is_flushed && came.text.as_slice() == FOUR_ANSWERS[0].as_bytes();
            is_written && came.count == Err(StreamFault::ReadFailed)
        }
        None => false,
    }
}

#[test]
fn answers_are_written_before_more_is_read(rt: HostRuntime) {
    assert!(rt; is_written_at_once(rt.alloc()));
}

/// A request that says that it is the last.
static LAST: &str = "GET /v2 HTTP/1.1\r\nHost: a\r\nConnection: close\r\n\r\n";

/// A request that is refused by its head: it has no Host.
static REFUSED: &str = "POST /v1/requests HTTP/1.1\r\nContent-Length: 95\r\n\r\n";

/// Whether a stream is answered without a second read, which would fail.
fn is_answered_at_once(alloc: Global, stream: &str) -> bool {
    match serve_one_read(alloc, stream) {
        Some(came) => came.count.is_ok() && came.read_faults == 0 && !came.text.is_empty(),
        None => false,
    }
}

#[test]
fn nothing_is_read_behind_the_last_answer(rt: HostRuntime) {
    assert!(rt; is_answered_at_once(rt.alloc(), LAST));
    assert!(rt; is_answered_at_once(rt.alloc(), REFUSED));
}
