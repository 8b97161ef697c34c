//! The program on lines, as an operator sends them.
mod changes;
mod failing;
mod questions;
mod rebalancing;

use builder::{RingMachine, read_delivery};
use byte_streams::{CountedReader, CountedWriter, StreamFault};
use line_api::run_lines;
use request_book::{Answer, Book, Keeper, MemKeeper};
use ring_model::Rings;
use ring_words::{Command, Deed, Delivery, Done, Limits, Refusal, Reply};
use std::alloc::{AllocError, Global};
use test_fixtures::{Giver, Taker};

type Memory = MemKeeper<Rings, Command, Reply>;

static FIRST_RUN: &str =
    "0 {\"caller\":\"ops\",\"do\":\"create\",\"min_hours\":24,\"number\":1,\"power\":2,\"replicas\":1,\"ring\":\"object\"}\n\
0 {\"address\":\"10.0.0.1\",\"caller\":\"ops\",\"do\":\"add\",\"name\":\"d0\",\"number\":2,\"port\":6200,\"region\":1,\"ring\":\"object\",\"weight\":\"100.00\",\"zone\":1}\n\
0 {\"address\":\"10.0.0.2\",\"caller\":\"ops\",\"do\":\"add\",\"name\":\"d1\",\"number\":3,\"port\":6200,\"region\":1,\"ring\":\"object\",\"weight\":\"100.00\",\"zone\":1}\n\
9 {\"zone\":1,\"weight\":\"100.00\",\"ring\":\"object\",\"region\":1,\"port\":6200,\"number\":3,\"name\":\"d1\",\"do\":\"add\",\"caller\":\"ops\",\"address\":\"10.0.0.2\"}\n\
9 {\"address\":\"10.0.0.2\",\"caller\":\"ops\",\"do\":\"add\",\"name\":\"d1\",\"number\":3,\"port\":6200,\"region\":1,\"ring\":\"object\",\"weight\":\"50.00\",\"zone\":1}\n\
9 {\"caller\":\"ops\",\"do\":\"set_weight\",\"id\":1,\"number\":4,\"ring\":\"object\",\"weight\":\"50.00\"}\n\
9 {\"caller\":\"ops\",\"do\":\"set_weight\",\"id\":7,\"number\":5,\"ring\":\"object\",\"weight\":\"50.00\"}\n\
9 {\"address\":\"10.0.0.2\",\"caller\":\"ops\",\"do\":\"add\",\"name\":\"d1\",\"number\":6,\"port\":6200,\"region\":1,\"ring\":\"object\",\"weight\":\"70.00\",\"zone\":1}\n\
\n\
9 {\"caller\":\"b2\",\"do\":\"create\",\"min_hours\":24,\"number\":1,\"power\":2,\"replicas\":1,\"ring\":\"object\"}\n";

static FIRST_ANSWERS: &str = "200 {\"done\":\"create\",\"version\":0}\n\
200 {\"done\":\"add\",\"id\":0,\"version\":1}\n\
200 {\"done\":\"add\",\"id\":1,\"version\":2}\n\
200 {\"done\":\"add\",\"id\":1,\"version\":2}\n\
409 {\"fault\":\"NumberReused\",\"rule\":21}\n\
200 {\"done\":\"set_weight\",\"version\":3}\n\
422 {\"refused\":\"NoDevice\",\"rule\":4}\n\
422 {\"refused\":\"DeviceExists\",\"rule\":5}\n\
400 {\"fault\":\"Unreadable\",\"rule\":20}\n\
422 {\"refused\":\"RingExists\",\"rule\":2}\n";

/// What a line is answered for which there was no memory.
static LOST: &str = "503 {\"fault\":\"NoMemory\",\"rule\":23}\n";

/// What a line is answered that is none.
static UNREADABLE: &str = "400 {\"fault\":\"Unreadable\",\"rule\":20}\n";

fn open(alloc: Global, limits: Limits) -> Book<RingMachine, Memory> {
    let keeper = MemKeeper::new(alloc, Rings::new(alloc), limits);
    Book::open(alloc, RingMachine { limits }, keeper)
}

/// What lines are answered.
fn ask<K: Keeper<RingMachine>>(
    alloc: Global,
    book: &mut Book<RingMachine, K>,
    lines: &[u8],
) -> Option<Vec<u8>> {
    let mut reader = CountedReader::new(lines);
    let mut writer = CountedWriter::new(Vec::new(alloc));
    match run_lines(alloc, &mut reader, &mut writer, book) {
        Ok(_) => Some(writer.into_inner()),
        Err(_) => None,
    }
}

/// What lines are answered by a new book of these limits.
fn answers_within(alloc: Global, limits: Limits, lines: &[u8]) -> Option<Vec<u8>> {
    ask(alloc, &mut open(alloc, limits), lines)
}

/// Whether lines are answered so.
fn tells<K: Keeper<RingMachine>>(
    alloc: Global,
    book: &mut Book<RingMachine, K>,
    lines: &[u8],
    want: &str,
) -> bool {
    match ask(alloc, book, lines) {
        Some(got) => got.as_slice() == want.as_bytes(),
        None => false,
    }
}

/// Whether lines are answered so by a new book.
fn are_answered(alloc: Global, lines: &[u8], want: &str) -> bool {
    tells(alloc, &mut open(alloc, Limits::full()), lines, want)
}

static CREATE: &str =
    "{\"caller\":\"ops\",\"do\":\"create\",\"min_hours\":24,\"number\":1,\"power\":2,\"replicas\":1,\"ring\":\"object\"}";

static EARLY_ADD: &str =
    "{\"address\":\"10.0.0.1\",\"caller\":\"ops\",\"do\":\"add\",\"name\":\"d0\",\"number\":2,\"port\":6200,\"region\":1,\"ring\":\"object\",\"weight\":\"100.00\",\"zone\":1}";

static ADD: &str =
    "{\"address\":\"10.0.0.1\",\"caller\":\"ops\",\"do\":\"add\",\"name\":\"d0\",\"number\":3,\"port\":6200,\"region\":1,\"ring\":\"object\",\"weight\":\"100.00\",\"zone\":1}";

/// Puts the delivery of a message at hour 0 behind others.
fn push_delivery(alloc: Global, deliveries: &mut Vec<Delivery<Command>>, text: &str) -> Option<()> {
    let (key, command) = read_delivery(alloc, text.as_bytes()).ok()?;
    let delivery = Delivery {
        hour: 0,
        key,
        command,
    };
    deliveries.push(delivery).ok()
}

/// The deliveries of messages.
fn deliveries(alloc: Global, texts: &[&str]) -> Option<Vec<Delivery<Command>>> {
    let mut deliveries = Vec::new(alloc);
    for text in texts {
        push_delivery(alloc, &mut deliveries, text)?;
    }
    Some(deliveries)
}

/// Whether an early addition, a creation, the early one again and another one are answered so.
fn are_alike(answers: &[Answer<Reply>]) -> bool {
    let want = [
        Ok(Reply::Refused(Refusal::NoRing)),
        Ok(Reply::Done(Done {
            version: 0,
            deed: Deed::Create,
        })),
        Ok(Reply::Refused(Refusal::NoRing)),
        Ok(Reply::Done(Done {
            version: 1,
            deed: Deed::Add { id: 0 },
        })),
    ];
    answers == want.as_slice()
}

/// Whether these deliveries in one call are answered so by a new book.
fn answers_alike(alloc: Global) -> Option<bool> {
    let deliveries = deliveries(alloc, &[EARLY_ADD, CREATE, EARLY_ADD, ADD])?;
    let answers = open(alloc, Limits::full()).run(deliveries).ok()?;
    Some(are_alike(&answers))
}

#[test]
fn deliveries_in_one_call_are_answered_alike(rt: HostRuntime) {
    assert!(rt; matches!(answers_alike(rt.alloc()), Some(true)));
}

static WEIGHTS: [(&str, bool); 9] = [
    ("0.00", true),
    ("1000000.00", true),
    ("1000000.01", false),
    ("100.0", false),
    ("0100.00", false),
    (".50", false),
    ("+1.00", false),
    ("1e2", false),
    ("", false),
];

/// A command up to its weight.
static SET_WEIGHT: &str =
    "0 {\"caller\":\"ops\",\"do\":\"set_weight\",\"id\":0,\"number\":1,\"ring\":\"object\",\"weight\":\"";

/// What is answered where it is read, since its ring is not there.
static NOT_THERE: &str = "422 {\"refused\":\"NoRing\",\"rule\":1}\n";

/// Whether a command to a ring that is not there is read with this weight, or is none.
fn is_weight(alloc: Global, weight: &'static str, is_read: bool) -> bool {
    let want = if is_read { NOT_THERE } else { UNREADABLE };
    let mut line = Vec::new(alloc);
    let parts = [SET_WEIGHT.as_bytes(), weight.as_bytes(), b"\"}\n"];
    push_all(&mut line, &parts).is_ok() && are_answered(alloc, &line, want)
}

#[test]
fn a_weight_has_one_spelling(rt: HostRuntime) {
    for (weight, is_read) in &WEIGHTS {
        assert!(rt; is_weight(rt.alloc(), weight, *is_read), "{weight}");
    }
}

/// Numbers and hours that are none.
static BAD_NUMBERS: [&str; 7] = [
    "1.0",
    "1e0",
    "4294967296",
    "\"1\"",
    "-1",
    "01",
    "1,\"more\":1",
];

static BAD_HOURS: [&str; 6] = ["01", "00", "+1", "4294967296", "1.0", ""];

/// Puts parts behind bytes.
fn push_all(bytes: &mut Vec<u8>, parts: &[&[u8]]) -> Result<(), AllocError> {
    for part in parts {
        bytes.extend_from_slice(part)?;
    }
    Ok(())
}

/// A message nested 200 deep, behind an hour.
fn push_nested(lines: &mut Vec<u8>) -> Result<(), AllocError> {
    push_all(lines, &[b"0 ", &[b'['; 200], &[b']'; 200], b"\n"])
}

/// Commands under numbers that are none.
fn push_misnumbered(lines: &mut Vec<u8>) -> Result<(), AllocError> {
    let command: &[u8] =
        b"0 {\"caller\":\"ops\",\"do\":\"set_weight\",\"id\":0,\"ring\":\"object\",\"weight\":\"1.00\",\"number\":";
    for number in &BAD_NUMBERS {
        push_all(lines, &[command, number.as_bytes(), b"}\n"])?;
    }
    Ok(())
}

/// Deliveries at hours that are none.
fn push_mistimed(lines: &mut Vec<u8>) -> Result<(), AllocError> {
    for hour in &BAD_HOURS {
        push_all(lines, &[hour.as_bytes(), b" ", CREATE.as_bytes(), b"\n"])?;
    }
    Ok(())
}

/// Puts lines that are no requests before one that is. Each of them is answered so, and changes
/// nothing.
fn push_hostile(lines: &mut Vec<u8>) -> Result<(), AllocError> {
    push_nested(lines)?;
    lines.extend_from_slice(
        b"0 {\"caller\":\"\xff\"}\n\xff\n\r\n0\n0 \n {}\n-1 {}\n4294967296 {}\n\n",
    )?;
    push_misnumbered(lines)?;
    push_mistimed(lines)?;
    lines.extend_from_slice(
        b"0 {\"caller\":\"ops\",\"do\":\"set_weight\",\"number\":1,\"ring\":\"object\",\"weight\":\"1.00\"}\n",
    )?;
    push_all(
        lines,
        &[
            b"0 {\"do\":\"rebalance\"}\n? devices \xff\n0\t{}\n0 ",
            CREATE.as_bytes(),
        ],
    )
}

/// What is left of answers when each line end has taken away that a line can't be read.
fn behind_unreadable<'a>(answers: &'a [u8], lines: &[u8]) -> Option<&'a [u8]> {
    let mut rest = answers;
    for byte in lines {
        if *byte == b'\n' {
            rest = rest.strip_prefix(UNREADABLE.as_bytes())?;
        }
    }
    Some(rest)
}

/// Whether lines are unreadable up to the last, which a book answers as if it were the first.
fn are_unreadable(alloc: Global, lines: &[u8]) -> bool {
    match answers_within(alloc, Limits::full(), lines) {
        Some(got) => {
            let want: &[u8] = b"200 {\"done\":\"create\",\"version\":0}\n";
            behind_unreadable(&got, lines) == Some(want)
        }
        None => false,
    }
}

/// Whether the hostile lines are.
fn are_hostile_refused(alloc: Global) -> bool {
    let mut lines = Vec::new(alloc);
    push_hostile(&mut lines).is_ok() && are_unreadable(alloc, &lines)
}

#[test]
fn hostile_lines_are_unreadable(rt: HostRuntime) {
    assert!(rt; are_hostile_refused(rt.alloc()));
}

/// A delivery twice: with white space around the message, and with a key that comes twice.
static SPACED: &str =
    "0  {\"caller\":\"ops\",\"do\":\"create\",\"min_hours\":24,\"number\":1,\"power\":2,\"replicas\":1,\"ring\":\"object\"} \r
0 {\"number\":7,\"caller\":\"ops\",\"do\":\"create\",\"min_hours\":24,\"number\":1,\"power\":2,\"replicas\":1,\"ring\":\"object\"}";

/// What they are answered.
static SPACED_ANSWERS: &str =
    "200 {\"done\":\"create\",\"version\":0}\n200 {\"done\":\"create\",\"version\":0}\n";

#[test]
fn white_space_and_a_doubled_key_are_read_as_json_reads_them(rt: HostRuntime) {
    assert!(rt; are_answered(rt.alloc(), SPACED.as_bytes(), SPACED_ANSWERS));
}

/// Puts a line of 65537 bytes between two deliveries.
fn push_too_long(lines: &mut Vec<u8>) -> Result<(), AllocError> {
    push_all(lines, &[b"0 ", CREATE.as_bytes(), b"\n"])?;
    push_all(lines, &[&[b'1'; 65_537], b"\n0 ", ADD.as_bytes()])
}

/// What the three are answered.
static AROUND_TOO_LONG: &str =
    "200 {\"done\":\"create\",\"version\":0}\n400 {\"fault\":\"Unreadable\",\"rule\":20}\n200 {\"done\":\"add\",\"id\":0,\"version\":1}\n";

/// Whether that line is unreadable, and those around it are answered.
fn is_skipped(alloc: Global) -> bool {
    let mut lines = Vec::new(alloc);
    push_too_long(&mut lines).is_ok() && are_answered(alloc, &lines, AROUND_TOO_LONG)
}

#[test]
fn a_line_of_65537_bytes_is_skipped(rt: HostRuntime) {
    assert!(rt; is_skipped(rt.alloc()));
}

/// What came of a stream that fails.
#[derive(Drop)]
struct Failed {
    answered: Result<u32, StreamFault>,
    read_faults: u64,
    write_faults: u64,
    taken: Vec<u8>,
}

/// The first run over a reader that gives so many bytes a read and a writer that takes 30 a write,
/// each of which fails at one of its calls.
fn run_failing(
    alloc: Global,
    book: &mut Book<RingMachine, Memory>,
    size: usize,
    read_fails_at: u32,
    write_fails_at: u32,
) -> Failed {
    let giver = Giver::new(FIRST_RUN.as_bytes(), size, read_fails_at);
    let mut reader = CountedReader::new(giver);
    let mut writer = CountedWriter::new(Taker::new(alloc, 30, write_fails_at));
    let answered = run_lines(alloc, &mut reader, &mut writer, book);
    Failed {
        answered,
        read_faults: reader.faults(),
        write_faults: writer.faults(),
        taken: writer.into_inner().taken,
    }
}

/// Whether a failed read left whole answers to lines before it.
fn leaves_answers(failed: &Failed) -> bool {
    failed.answered == Err(StreamFault::ReadFailed)
        && failed.read_faults == 1
        && failed.write_faults == 0
        && FIRST_ANSWERS.as_bytes().starts_with(&failed.taken)
        && (failed.taken.is_empty() || failed.taken.ends_with(b"\n"))
}

/// Whether a read that fails leaves whole answers.
fn read_leaves_answers(alloc: Global, fails_at: u32) -> bool {
    let mut book = open(alloc, Limits::full());
    leaves_answers(&run_failing(alloc, &mut book, 100, fails_at, u32::MAX))
}

#[test]
fn a_failed_read_leaves_the_answers_so_far(rt: HostRuntime) {
    for fails_at in 1..12 {
        assert!(rt; read_leaves_answers(rt.alloc(), fails_at), "at {fails_at}");
    }
}

/// Whether a failed write left a beginning of the answers.
fn leaves_a_beginning(failed: &Failed) -> bool {
    failed.answered == Err(StreamFault::WriteFailed)
        && failed.read_faults == 0
        && failed.write_faults == 1
        && FIRST_ANSWERS.as_bytes().starts_with(&failed.taken)
}

/// Whether a failed write left a beginning of the answers, and what was decided stayed decided: the
/// repeats get the same answers.
fn answers_repeats(alloc: Global, fails_at: u32) -> bool {
    let mut book = open(alloc, Limits::full());
    leaves_a_beginning(&run_failing(alloc, &mut book, 200, u32::MAX, fails_at))
        && tells(alloc, &mut book, FIRST_RUN.as_bytes(), FIRST_ANSWERS)
}

#[test]
fn a_failed_write_leaves_a_beginning_of_the_answers(rt: HostRuntime) {
    for fails_at in 1..10 {
        assert!(rt; answers_repeats(rt.alloc(), fails_at), "at {fails_at}");
    }
}

/// What a line is answered, asked again where its answer found no memory.
fn ask_again<K: Keeper<RingMachine>>(
    alloc: Global,
    book: &mut Book<RingMachine, K>,
    line: &str,
) -> Option<Vec<u8>> {
    match ask(alloc, book, line.as_bytes()) {
        Some(answer) if answer.as_slice() != LOST.as_bytes() => Some(answer),
        _ => ask(alloc, book, line.as_bytes()),
    }
}

/// Whether a line is answered by this text and a line end, asked again where its answer found no
/// memory.
fn is_given<K: Keeper<RingMachine>>(
    alloc: Global,
    book: &mut Book<RingMachine, K>,
    line: &str,
    want: &str,
) -> bool {
    match ask_again(alloc, book, line) {
        Some(got) => got.as_slice().strip_suffix(b"\n") == Some(want.as_bytes()),
        None => false,
    }
}

/// The answer to the line of the first run behind so many, or nothing behind the last one.
fn first_answer(count: usize) -> &'static str {
    let mut left = count;
    for answer in FIRST_ANSWERS.lines() {
        if left == 0 {
            return answer;
        }
        left -= 1;
    }
    ""
}

/// How many lines of the first run are answered so, up to the first that isn't.
fn given<K: Keeper<RingMachine>>(alloc: Global, book: &mut Book<RingMachine, K>) -> usize {
    let mut count = 0usize;
    for line in FIRST_RUN.split_inclusive('\n') {
        if !is_given(alloc, book, line, first_answer(count)) {
            return count;
        }
        count = count.saturating_add(1);
    }
    count
}

#[test]
fn a_lost_answer_is_given_to_the_repeat(rt: HostRuntime) {
    let count = given(rt.alloc(), &mut open(rt.alloc(), Limits::full()));
    assert!(rt; count == 10, "{count}");
}
