//! Requests, and what they are answered.
use builder::RingMachine;
use byte_streams::{CountedReader, CountedWriter, StreamFault};
use http_api::{Clock, KnownClock, serve_stream};
use path_lookup::HashNames;
use request_book::{Book, MemKeeper};
use ring_model::Rings;
use ring_words::{Command, Limits, Reply};
use std::alloc::{AllocError, Global};
use std::process::Abort;
use test_fixtures::{Giver, Taker};

/// Nothing stands around the paths that are hashed.
pub const NO_NAMES: HashNames<'static> = HashNames {
    prefix: b"",
    suffix: b"",
};

pub type Memory = MemKeeper<Rings, Command, Reply>;

pub type RingBook = Book<RingMachine, Memory>;

/// A request that makes a ring, with 95 bytes of body.
pub const CREATE: &str =
    "POST /v1/requests HTTP/1.1\r\nHost: a\r\nContent-Length: 95\r\n\r\n{\"caller\":\"ops\",\"do\":\"create\",\"min_hours\":24,\"number\":1,\"power\":2,\"replicas\":1,\"ring\":\"object\"}";

/// What it is answered.
pub const CREATED: &str =
    "HTTP/1.1 200 OK\r\nContent-Type: application/json\r\nContent-Length: 29\r\n\r\n{\"done\":\"create\",\"version\":0}";

/// What is sent.
#[derive(Clone, Copy)]
pub enum Sent<'a> {
    /// A read of this target.
    Get(&'a str),
    /// This body, posted to this target.
    Post(&'a str, &'a str),
    /// A message.
    Message(&'a str),
    /// These bytes.
    Bytes(&'a str),
    /// These bytes, and a good request behind them.
    Before(&'a str),
}

/// What it is answered, whole.
#[derive(Clone, Copy)]
pub enum Told<'a> {
    /// A status with its phrase, and a body of JSON.
    Json(&'a str, &'a str),
    /// The same as the last answer of its connection.
    Last(&'a str, &'a str),
    /// A text.
    Text(&'a str),
    /// A page.
    Page(&'a str),
    /// These bytes.
    Bytes(&'a str),
}

/// What is sent, and what it is answered.
pub type Step<'a> = (Sent<'a>, Told<'a>);

/// An empty book in memory.
pub fn open(alloc: Global, limits: Limits) -> RingBook {
    let keeper = MemKeeper::new(alloc, Rings::new(alloc), limits);
    Book::open(alloc, RingMachine { limits }, keeper)
}

/// A clock that always tells this hour.
pub fn clock_at(alloc: Global, hour: u32) -> Result<KnownClock, AllocError> {
    Ok(KnownClock::new(vec![in alloc; hour]?))
}

/// Texts as one, where there is memory.
pub fn joined(alloc: Global, texts: &[&str]) -> Option<String> {
    texts.concat(alloc).ok()
}

/// Whether bytes are these texts, one behind another.
pub fn are_joined(bytes: &[u8], texts: &[&str]) -> bool {
    let mut rest = bytes;
    for text in texts {
        match rest.strip_prefix(text.as_bytes()) {
            Some(behind) => rest = behind,
            None => return false,
        }
    }
    rest.is_empty()
}

/// Whether bytes are a beginning of these texts, one behind another.
pub fn are_beginning(bytes: &[u8], texts: &[&str]) -> bool {
    let mut rest = bytes;
    for text in texts {
        match rest.strip_prefix(text.as_bytes()) {
            Some(behind) => rest = behind,
            None => return text.as_bytes().starts_with(rest),
        }
    }
    rest.is_empty()
}

/// What serving a stream came to: how many answers it got, and their bytes.
#[derive(Drop)]
pub struct Outcome {
    pub count: Result<u32, StreamFault>,
    pub read_faults: u64,
    pub write_faults: u64,
    pub is_flushed: bool,
    pub text: Vec<u8>,
}

/// How many bytes a call has at most, and at which call, counted from 1, it fails.
pub type Calls = (usize, u32);

/// Calls that take all at once, and never fail.
const AT_ONCE: Calls = (1_000_000, u32::MAX);

/// Serves a stream by a clock, where reads and writes are such calls.
fn serve_by(
    alloc: Global,
    clock: &mut KnownClock,
    book: &mut RingBook,
    stream: &[u8],
    calls: (Calls, Calls),
) -> Outcome {
    let (reads, writes) = calls;
    let mut reader = CountedReader::new(Giver::new(stream, reads.0, reads.1));
    let mut writer = CountedWriter::new(Taker::new(alloc, writes.0, writes.1));
    let count = serve_stream(alloc, &mut reader, &mut writer, clock, book, NO_NAMES);
    Outcome {
        count,
        read_faults: reader.faults(),
        write_faults: writer.faults(),
        is_flushed: writer.is_flushed(),
        text: writer.into_inner().taken,
    }
}

/// Serves a stream at hour 0, where reads and writes are such calls and there is memory.
pub fn serve(
    alloc: Global,
    book: &mut RingBook,
    stream: &[u8],
    reads: Calls,
    writes: Calls,
) -> Option<Outcome> {
    let mut clock = clock_at(alloc, 0).ok()?;
    Some(serve_by(alloc, &mut clock, book, stream, (reads, writes)))
}

/// Whether a stream, where reads and writes have at most so many bytes, gets so many answers, and
/// these.
fn answers_in_pieces(
    alloc: Global,
    book: &mut RingBook,
    stream: &[u8],
    size: usize,
    want: (u32, &[&str]),
) -> bool {
    match serve(alloc, book, stream, (size, u32::MAX), (size, u32::MAX)) {
        Some(came) => came.count == Ok(want.0) && are_joined(&came.text, want.1),
        None => false,
    }
}

/// Whether a stream is answered so at hour 0.
pub fn answers(alloc: Global, book: &mut RingBook, stream: &str, want: &[&str]) -> bool {
    match serve(alloc, book, stream.as_bytes(), AT_ONCE, AT_ONCE) {
        Some(came) => came.count.is_ok() && are_joined(&came.text, want),
        None => false,
    }
}

fn post(alloc: Global, target: &str, body: &str) -> Result<String, AllocError> {
    let length = body.len();
    format!(in alloc; "POST {target} HTTP/1.1\r\nHost: a\r\nContent-Length: {length}\r\n\r\n{body}")
}

/// The bytes that are sent.
fn request_text(alloc: Global, what: Sent<'_>) -> Result<String, AllocError> {
    match what {
        Sent::Get(target) => format!(in alloc; "GET {target} HTTP/1.1\r\nHost: a\r\n\r\n"),
        Sent::Post(target, body) => post(alloc, target, body),
        Sent::Message(body) => post(alloc, "/v1/requests", body),
        Sent::Bytes(bytes) => String::from_str(alloc, bytes),
        Sent::Before(bytes) => [bytes, TWICE[0]].concat(alloc),
    }
}

/// The bytes of an answer with a body of this type, and maybe a field more behind its length.
fn answer_of(
    alloc: Global,
    status: &str,
    kind: &str,
    more: &str,
    body: &str,
) -> Result<String, AllocError> {
    let length = body.len();
    format!(in alloc;
        "HTTP/1.1 {status}\r\nContent-Type: {kind}\r\nContent-Length: {length}\r\n{more}\r\n{body}"
    )
}

/// The bytes that are answered.
fn answer_text(alloc: Global, what: Told<'_>) -> Result<String, AllocError> {
    match what {
        Told::Json(status, body) => answer_of(alloc, status, "application/json", "", body),
        Told::Last(status, body) => {
            let more = "Connection: close\r\n";
            answer_of(alloc, status, "application/json", more, body)
        }
        Told::Text(body) => answer_of(alloc, "200 OK", "text/plain", "", body),
        Told::Page(body) => answer_of(alloc, "200 OK", "text/html; charset=utf-8", "", body),
        Told::Bytes(bytes) => String::from_str(alloc, bytes),
    }
}

/// Whether a step is answered as it says, where there is memory.
fn is_step(alloc: Global, book: &mut RingBook, step: &Step<'_>) -> Option<bool> {
    let stream = request_text(alloc, step.0).ok()?;
    let want = answer_text(alloc, step.1).ok()?;
    Some(answers(alloc, book, &stream, &[&want]))
}

/// The place of the first step over one book that is answered otherwise, or how many steps there
/// are.
fn first_other(alloc: Global, book: &mut RingBook, steps: &[Step<'_>]) -> usize {
    for (place, step) in steps.iter().enumerate() {
        if !matches!(is_step(alloc, book, step), Some(true)) {
            return place;
        }
    }
    steps.len()
}

/// The same of steps over a new book of these limits, and of other steps behind them.
fn first_other_of_both(
    alloc: Global,
    limits: Limits,
    first: &[Step<'_>],
    then: &[Step<'_>],
) -> usize {
    let mut book = open(alloc, limits);
    let place = first_other(alloc, &mut book, first);
    if place < first.len() {
        place
    } else {
        place.saturating_add(first_other(alloc, &mut book, then))
    }
}

/// Asserts that each step, a stream each, is answered as it says over a book of these limits, and so
/// are the steps behind these. A failure tells the place of the first other one among all.
pub fn session_within<R: AllocGlobal + Abort>(
    rt: &R,
    limits: Limits,
    first: &[Step<'_>],
    then: &[Step<'_>],
) {
    let place = first_other_of_both(rt.alloc(), limits, first, then);
    let count = first.len().saturating_add(then.len());
    assert!(rt;
        place == count,
        "step {place} of {count}, from 0 on, is answered otherwise"
    );
}

/// The same over a new book.
pub fn session<R: AllocGlobal + Abort>(rt: &R, steps: &[Step<'_>]) {
    session_within(rt, Limits::full(), &[], steps);
}

/// The same of what is sent to a new book alone.
pub fn session_of_one<R: AllocGlobal + Abort>(rt: &R, sent: Sent<'_>, told: Told<'_>) {
    session(rt, &[(sent, told)]);
}

/// What has no route.
pub const LOST: Told<'_> = Told::Json("404 Not Found", "{\"fault\":\"NoRoute\",\"status\":404}");

/// What is said of what is not of its form.
pub const UNREADABLE: Told<'_> = Told::Json(
    "400 Bad Request",
    "{\"fault\":\"Unreadable\",\"rule\":20}",
);

/// What is said of a ring that is not there.
pub const NO_RING: Told<'_> = Told::Json(
    "422 Unprocessable Entity",
    "{\"refused\":\"NoRing\",\"rule\":1}",
);

/// A request that makes a ring.
static ONE: [Step<'_>; 1] = [(Sent::Bytes(CREATE), Told::Bytes(CREATED))];

#[test]
fn a_request_is_answered(rt: HostRuntime) {
    session(&rt, &ONE);
}

/// Two equal requests.
static TWICE: [&str; 2] = [CREATE, CREATE];

/// Their answers.
static TWICE_ANSWERED: [&str; 2] = [CREATED, CREATED];

/// Whether two equal requests in one stream, cut so, get the same answer.
fn repeats(alloc: Global, size: usize) -> bool {
    let Some(stream) = joined(alloc, &TWICE) else {
        return false;
    };
    answers_in_pieces(
        alloc,
        &mut open(alloc, Limits::full()),
        stream.as_bytes(),
        size,
        (2, &TWICE_ANSWERED),
    )
}

#[test]
fn a_repeat_in_one_stream_is_decided_once(rt: HostRuntime) {
    assert!(rt; repeats(rt.alloc(), 1_000_000));
}

#[test]
fn a_stream_is_answered_alike_however_it_is_cut(rt: HostRuntime) {
    for size in 1..=TWICE[0].len().saturating_mul(2) {
        assert!(rt; repeats(rt.alloc(), size), "{size}");
    }
}

/// Whether no proper beginning of a request is answered.
fn are_silent(alloc: Global, book: &mut RingBook) -> bool {
    let request = TWICE[0].as_bytes();
    for length in 0..request.len() {
        if !answers_in_pieces(alloc, book, &request[..length], 1_000_000, (0, &[])) {
            return false;
        }
    }
    true
}

/// A read of a ring that was not made.
static NOT_MADE: [Step<'_>; 1] = [(Sent::Get("/v1/rings/object/devices"), NO_RING)];

/// Whether no proper beginning of a request to a new book is answered, and none makes its ring.
fn is_silent(alloc: Global) -> bool {
    let mut book = open(alloc, Limits::full());
    are_silent(alloc, &mut book) && first_other(alloc, &mut book, &NOT_MADE) == 1
}

#[test]
fn a_proper_beginning_decides_nothing_and_is_not_answered(rt: HostRuntime) {
    assert!(rt; is_silent(rt.alloc()));
}

/// Two requests, of which the first is the last.
static BEHIND_THE_LAST: [Step<'_>; 1] = [(
    Sent::Bytes(
        "GET /v2 HTTP/1.1\r\nHost: a\r\nCONNECTION: Close\r\n\r\nGET /v2 HTTP/1.1\r\nHost: a\r\n\r\n",
    ),
    Told::Last("404 Not Found", "{\"fault\":\"NoRoute\",\"status\":404}"),
)];

#[test]
fn nothing_is_answered_behind_the_last(rt: HostRuntime) {
    session(&rt, &BEHIND_THE_LAST);
}

/// A read with a body, and one behind it.
static READ_WITH_A_BODY: [Step<'_>; 1] = [(
    Sent::Bytes(
        "GET /v2 HTTP/1.1\r\nHost: a\r\nContent-Length: 3\r\n\r\nabcGET /v2 HTTP/1.1\r\nhost: b\r\n\r\n",
    ),
    Told::Bytes(
        "HTTP/1.1 404 Not Found\r\nContent-Type: application/json\r\nContent-Length: 32\r\n\r\n{\"fault\":\"NoRoute\",\"status\":404}HTTP/1.1 404 Not Found\r\nContent-Type: application/json\r\nContent-Length: 32\r\n\r\n{\"fault\":\"NoRoute\",\"status\":404}",
    ),
)];

#[test]
fn a_body_of_a_read_is_skipped(rt: HostRuntime) {
    session(&rt, &READ_WITH_A_BODY);
}

/// Reads, a body that is no message, and deliveries.
static MIXED: [&str; 5] = [
    "GET /v1/rings/object/devices HTTP/1.1\r\nHost: a\r\n\r\n",
    "POST /v1/requests HTTP/1.1\r\nHost: a\r\nContent-Length: 2\r\n\r\n{}",
    CREATE,
    "GET /v1/rings/object/devices HTTP/1.1\r\nHost: a\r\n\r\n",
    CREATE,
];

/// Whether a stream gets five answers of a new book by a clock.
fn gets_five(alloc: Global, clock: &mut KnownClock, stream: &[u8]) -> bool {
    let mut book = open(alloc, Limits::full());
    serve_by(alloc, clock, &mut book, stream, (AT_ONCE, AT_ONCE)).count == Ok(5)
}

/// A clock that tells the hours 3, 4 and 5.
fn three_hours(alloc: Global) -> Result<KnownClock, AllocError> {
    Ok(KnownClock::new(vec![in alloc; 3, 4, 5]?))
}

/// Whether those five get their answers by such a clock, and the hour that it tells next.
fn hour_left(alloc: Global) -> Option<(bool, u32)> {
    let mut clock = three_hours(alloc).ok()?;
    let stream = joined(alloc, &MIXED)?;
    let are_answered = gets_five(alloc, &mut clock, stream.as_bytes());
    Some((are_answered, clock.hour()))
}

#[test]
fn hours_are_taken_by_deliveries_alone(rt: HostRuntime) {
    assert!(rt; matches!(hour_left(rt.alloc()), Some((true, 5))));
}
