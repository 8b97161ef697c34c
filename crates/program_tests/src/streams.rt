ghost use Rattle.std.specs.Prelude.{◌≡◌, ◌⊎◌, ⊤, codes};

use byte_streams::{CountedReader, CountedWriter, StreamFault};
use line_stream::{Handler, LONGEST_LINE, serve_lines};
use std::alloc::{AllocError, Global};
use std::cell::Cell;
use std::io::{self, ErrorKind, Read, Write};
use std::str;
use test_fixtures::{Giver, Taker};

/// Answers a line with itself, loses the answer to `lose`, and counts the lines that it hears of.
struct Echo;

impl Handler for Echo {
    type State = u32;

    ghost answers = { λ _ line text _. (text ≡ line) ⊎ (text ≡ codes "no text") };

    ghost loses = { λ _ _ _. ⊤ };

    ghost no_memory = { codes "no memory" };

    ghost too_long = { codes "too long" };

    fn answer(alloc: Global, heard: &mut u32, line: &[u8]) -> Result<String, AllocError> {
        *heard = heard.saturating_add(1);
        if line == b"lose".as_slice() {
            return Err(AllocError);
        }
        match str::from_utf8(line) {
            Ok(text) => String::from_str(alloc, text),
            Err(_) => String::from_str(alloc, "no text"),
        }
    }

    fn no_memory() -> &'static str {
        "no memory"
    }

    fn too_long() -> &'static str {
        "too long"
    }
}

/// What serving came to.
#[derive(Drop)]
struct Served {
    answered: Result<u32, StreamFault>,
    written: Vec<u8>,
    /// How many lines were heard of.
    heard: u32,
    /// How often the reader and the writer failed.
    faults: (u64, u64),
}

/// Serves what a reader gives to a writer that takes so many bytes at a time, and fails at one of
/// its calls.
fn serve(alloc: Global, giver: Giver<'_>, size: usize, fails_at: u32) -> Served {
    let mut heard = 0;
    let mut reader = CountedReader::new(giver);
    let mut writer = CountedWriter::new(Taker::new(alloc, size, fails_at));
    let answered = serve_lines::<_, _, Echo>(alloc, &mut reader, &mut writer, &mut heard);
    Served {
        answered,
        faults: (reader.faults(), writer.faults()),
        written: writer.into_inner().taken,
        heard,
    }
}

impl Served {
    fn is(
        &self,
        answered: Result<u32, StreamFault>,
        written: &[u8],
        heard: u32,
        faults: (u64, u64),
    ) -> bool {
        self.answered == answered
            && self.written.as_slice() == written
            && self.heard == heard
            && self.faults == faults
    }
}

/// Whether bytes that come so many at a time, and are taken so, are answered by these, line by line.
fn is_served(alloc: Global, input: &[u8], want: &[u8], lines: u32, size: usize) -> bool {
    let giver = Giver::new(input, size, u32::MAX);
    serve(alloc, giver, size, u32::MAX).is(Ok(lines), want, lines, (0, 0))
}

/// At which size of reads bytes are answered otherwise, or 0 where they are answered by these however
/// the reads are cut.
fn other_size(alloc: Global, input: &[u8], want: &[u8], lines: u32) -> usize {
    for size in [1, 2, 3, 4, 100] {
        if !is_served(alloc, input, want, lines, size) {
            return size;
        }
    }
    0
}

#[test]
fn each_line_is_answered_however_the_reads_are_cut(rt: HostRuntime) {
    let input = b"one\n\ntwo\r\n\r\n\xff\nlose\n four\nlast".as_slice();
    let want = b"one\n\ntwo\r\n\r\nno text\nno memory\n four\nlast\n".as_slice();
    let size = other_size(rt.alloc(), b"", b"", 0);
    assert!(rt; size == 0, "at {size}");
    let size = other_size(rt.alloc(), b"\n", b"\n", 1);
    assert!(rt; size == 0, "at {size}");
    let size = other_size(rt.alloc(), b"a", b"a\n", 1);
    assert!(rt; size == 0, "at {size}");
    let size = other_size(rt.alloc(), input, want, 8);
    assert!(rt; size == 0, "at {size}");
}

/// Puts so many `x` behind bytes, and then what stands behind them.
fn push_spelled(bytes: &mut Vec<u8>, count: usize, rest: &str) -> Result<(), AllocError> {
    for _ in 0..count {
        bytes.push(b'x')?;
    }
    bytes.extend_from_slice(rest.as_bytes())
}

/// Bytes that are so many `x` and what stands behind them, again and again.
fn spelled(alloc: Global, parts: &[(usize, &str)]) -> Result<Vec<u8>, AllocError> {
    let mut bytes = Vec::new(alloc);
    for (count, rest) in parts {
        push_spelled(&mut bytes, *count, rest)?;
    }
    Ok(bytes)
}

/// Lines of which two are too long, one of them the last one.
static TOO_LONG: [(usize, &str); 4] = [
    (0, "first\n"),
    (LONGEST_LINE, "\nsecond\n"),
    (LONGEST_LINE, "x\nthird\n"),
    (LONGEST_LINE * 2, ""),
];

/// Their answers.
static TOO_LONG_ANSWERS: [(usize, &str); 3] = [
    (0, "first\n"),
    (LONGEST_LINE, "\nsecond\n"),
    (0, "too long\nthird\ntoo long\n"),
];

/// Serves bytes in reads and writes as large as can be, the writer failing at one of its calls.
fn serve_large(alloc: Global, input: &[u8], fails_at: u32) -> Served {
    serve(
        alloc,
        Giver::new(input, usize::MAX, u32::MAX),
        usize::MAX,
        fails_at,
    )
}

/// Whether the lines that are too long are skipped.
fn are_skipped(alloc: Global) -> Result<bool, AllocError> {
    let input = spelled(alloc, &TOO_LONG)?;
    let want = spelled(alloc, &TOO_LONG_ANSWERS)?;
    Ok(serve_large(alloc, &input, u32::MAX).is(Ok(6), &want, 4, (0, 0)))
}

#[test]
fn a_line_that_is_too_long_is_skipped(rt: HostRuntime) {
    assert!(rt; matches!(are_skipped(rt.alloc()), Ok(true)));
}

const FOUR: &[u8] = b"one\ntwo\nthree\nfour\n";

/// Whether so many lines are heard of until a stream fails so, and the first so many bytes of their
/// answers are written.
fn is_stopped(served: &Served, fault: StreamFault, count: usize, hears: u32) -> bool {
    let written = FOUR.get(..count).unwrap_or(b"");
    let faults = match fault {
        StreamFault::ReadFailed => (1, 0),
        _ => (0, 1),
    };
    served.is(Err(fault), written, hears, faults)
}

/// At which read a reader fails that gives three bytes a read, how many bytes are written then, and
/// how many lines are heard of. The eighth read would find the end.
static FAILED_READS: [(u32, usize, u32); 8] = [
    (1, 0, 0),
    (2, 0, 0),
    (3, 4, 1),
    (4, 8, 2),
    (5, 8, 2),
    (6, 14, 3),
    (7, 14, 3),
    (8, 19, 4),
];

/// Whether a read that fails leaves so many bytes of answers, and so many lines were heard of.
fn is_read_until(alloc: Global, fails_at: u32, count: usize, hears: u32) -> bool {
    let served = serve(alloc, Giver::new(FOUR, 3, fails_at), 100, u32::MAX);
    is_stopped(&served, StreamFault::ReadFailed, count, hears)
}

#[test]
fn a_read_that_fails_leaves_the_answers_so_far(rt: HostRuntime) {
    for (fails_at, count, hears) in &FAILED_READS {
        let is_left = is_read_until(rt.alloc(), *fails_at, *count, *hears);
        assert!(rt; is_left, "at {fails_at}");
    }
}

/// At which call a writer fails that takes two bytes a write and a flush after each line, how many
/// bytes are written then, and how many lines are heard of.
static FAILED_WRITES: [(u32, usize, u32); 14] = [
    (1, 0, 1),
    (2, 2, 1),
    (3, 4, 1),
    (4, 4, 2),
    (5, 6, 2),
    (6, 8, 2),
    (7, 8, 3),
    (8, 10, 3),
    (9, 12, 3),
    (10, 14, 3),
    (11, 14, 4),
    (12, 16, 4),
    (13, 18, 4),
    (14, 19, 4),
];

/// Whether a write that fails leaves so many bytes of answers, and so many lines were heard of.
fn is_written_until(alloc: Global, fails_at: u32, count: usize, hears: u32) -> bool {
    let served = serve(alloc, Giver::new(FOUR, 1, u32::MAX), 2, fails_at);
    is_stopped(&served, StreamFault::WriteFailed, count, hears)
}

#[test]
fn a_write_that_fails_leaves_a_beginning(rt: HostRuntime) {
    for (fails_at, count, hears) in &FAILED_WRITES {
        let is_left = is_written_until(rt.alloc(), *fails_at, *count, *hears);
        assert!(rt; is_left, "at {fails_at}");
    }
}

/// Whether a writer that takes nothing fails.
fn fails_taking_nothing(alloc: Global) -> bool {
    let served = serve(alloc, Giver::new(FOUR, usize::MAX, u32::MAX), 0, u32::MAX);
    served.answered == Err(StreamFault::WriteFailed) && served.faults.1 == 1
}

#[test]
fn a_writer_that_takes_nothing_fails(rt: HostRuntime) {
    assert!(rt; fails_taking_nothing(rt.alloc()));
}

/// Waits for the answer to each line before it writes the next.
#[derive(Drop)]
struct Asker<'a> {
    lines: &'a [&'a [u8]],
    flushed: &'a Cell<usize>,
    asked: usize,
}

impl Read for Asker<'_> {
    fn read(&mut self, buf: &mut [u8]) -> io::Result<usize> {
        if self.flushed.get() != self.asked {
            return Err(ErrorKind::TimedOut.into());
        }
        let [line, rest @ ..] = self.lines else {
            return Ok(0);
        };
        let count = line.len().min(buf.len());
        buf[..count].copy_from_slice(&line[..count]);
        self.asked = self.asked.saturating_add(count);
        self.lines = rest;
        Ok(count)
    }
}

/// Tells how many bytes are flushed.
#[derive(Drop)]
struct Flushed<'a> {
    count: usize,
    flushed: &'a Cell<usize>,
}

impl Write for Flushed<'_> {
    fn write(&mut self, buf: &[u8]) -> io::Result<usize> {
        self.count = self.count.saturating_add(buf.len());
        Ok(buf.len())
    }

    fn flush(&mut self) -> io::Result<()> {
        self.flushed.set(self.count);
        Ok(())
    }
}

/// How many lines are answered where each answer is waited for.
fn answered_in_turn(alloc: Global) -> Result<u32, StreamFault> {
    let flushed = Cell::new(0);
    let lines = [
        b"one\n".as_slice(),
        b"two\nthree\n".as_slice(),
        b"four\n".as_slice(),
    ];
    let mut asker = CountedReader::new(Asker {
        lines: &lines,
        flushed: &flushed,
        asked: 0,
    });
    let mut writer = CountedWriter::new(Flushed {
        count: 0,
        flushed: &flushed,
    });
    let mut heard = 0;
    serve_lines::<_, _, Echo>(alloc, &mut asker, &mut writer, &mut heard)
}

#[test]
fn each_answer_is_flushed_before_the_next_read(rt: HostRuntime) {
    assert!(rt; answered_in_turn(rt.alloc()) == Ok(4));
}

/// Four lines, again and again, 24,000 in all.
fn many_lines(alloc: Global) -> Result<Vec<u8>, AllocError> {
    let mut lines = Vec::new(alloc);
    for _ in 0..6000 {
        lines.extend_from_slice(FOUR)?;
    }
    Ok(lines)
}

/// Whether they are answered by as many writes as they take reads.
fn answers_in_large_writes(alloc: Global) -> Result<bool, AllocError> {
    let input = many_lines(alloc)?;
    // 114,000 bytes are two reads: each is answered by a write and a flush.
    Ok(serve_large(alloc, &input, 5).is(Ok(24000), &input, 24000, (0, 0)))
}

#[test]
fn long_input_is_answered_in_large_writes(rt: HostRuntime) {
    assert!(rt; matches!(answers_in_large_writes(rt.alloc()), Ok(true)));
}

/// What four lines are answered where there is memory, or none for one answer.
static WITH_ONE_LOST: [&[u8]; 5] = [
    FOUR,
    b"no memory\ntwo\nthree\nfour\n",
    b"one\nno memory\nthree\nfour\n",
    b"one\ntwo\nno memory\nfour\n",
    b"one\ntwo\nthree\nno memory\n",
];

/// Whether four lines are answered, one of them perhaps for want of memory, or nothing was read,
/// heard of or written.
fn answers_four_or_reads_none(alloc: Global) -> bool {
    let mut output = [0u8; 64];
    let mut room = output.as_mut_slice();
    let mut reader = FOUR;
    let mut heard = 0;
    let answered = serve_lines::<_, _, Echo>(
        alloc,
        &mut CountedReader::new(&mut reader),
        &mut CountedWriter::new(&mut room),
        &mut heard,
    );
    let written = 64 - room.len().min(64);
    let written = &output[..written];
    match answered {
        Err(StreamFault::NoMemory) => reader == FOUR && written.is_empty() && heard == 0,
        Err(_) => false,
        Ok(count) => count == 4 && heard == 4 && WITH_ONE_LOST.contains(&written),
    }
}

#[test]
fn want_of_memory_comes_before_the_first_read_or_costs_one_answer(rt: HostRuntime) {
    assert!(rt; answers_four_or_reads_none(rt.alloc()));
}
