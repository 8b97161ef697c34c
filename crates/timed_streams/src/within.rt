//! Reads and writes of a socket that end in time.
ghost use Rattle.std.specs.Prelude.{◌≤◌, ◌<◌, IfOk, length, take};
ghost use Rattle.std.specs.Duration.{as_nanos};
ghost use Rattle.std.specs.Io.{ReadsAtMost, WritesAtMost};
ghost use Rattle.std.specs.Io.KnownBytes.{Consumes, IsAtEnd, ReadConsumes, WriteAppends};

use std::io::{self, ErrorKind, Read, Write};
use std::net::OpenStream;
use std::time::{Clock, Duration, Instant};

/// How many bytes are read away at once.
const PIECE: usize = 4096;

/// How often bytes are read away, 1 MiB in all at most.
const MOST_PIECES: u32 = 256;

/// Takes from the time that is left what went by since then. A clock that fails takes all of it.
fn spend<T: Clock>(clock: &T, since: Instant, left: &mut Duration)
    ensures { as_nanos left.new ≤ as_nanos left.old }
{
    let spent = since.elapsed(clock).unwrap_or(Duration::MAX);
    *left = left.saturating_sub(spent);
}

/// Reads once, and waits no longer than is left. Where no time is left, and where the wait is over,
/// the read fails. The socket is told how long a read may wait only where that is another limit
/// than the one it has.
pub(crate) fn read_timed<S: Read + OpenStream, T: Clock>(
    stream: &mut S,
    clock: &T,
    left: &mut Duration,
    limit: &mut Option<Duration>,
    buf: &mut [u8],
) -> io::Result<usize>
    ensures bound { ReadsAtMost result buf.new }
    ensures bytes { ReadConsumes (S.remaining stream.old) (S.remaining stream.new) result buf.new }
    ensures less { as_nanos left.new ≤ as_nanos left.old }
{
    if left.is_zero() {
        return Err(ErrorKind::TimedOut.into());
    }
    let since = Instant::now(clock)?;
    if *limit != Some(*left) {
        stream.set_read_timeout(Some(*left))?;
        *limit = Some(*left);
    }
    let result = stream.read(buf);
    spend(clock, since, left);
    result
}

/// Writes once, and waits no longer than is left. Where no time is left, and where the wait is over
/// before a byte is taken, the write fails. The socket is told how long a write may wait as it is
/// for a read.
pub(crate) fn write_timed<S: Write + OpenStream, T: Clock>(
    stream: &mut S,
    clock: &T,
    left: &mut Duration,
    limit: &mut Option<Duration>,
    buf: &[u8],
) -> io::Result<usize>
    ensures bound { WritesAtMost result buf.now }
    ensures bytes { WriteAppends (S.contents stream.old) (S.contents stream.new) result buf.now }
    ensures less { as_nanos left.new ≤ as_nanos left.old }
{
    if left.is_zero() {
        return Err(ErrorKind::TimedOut.into());
    }
    let since = Instant::now(clock)?;
    if *limit != Some(*left) {
        stream.set_write_timeout(Some(*left))?;
        *limit = Some(*left);
    }
    let result = stream.write(buf);
    spend(clock, since, left);
    result
}

/// Reads until the end or until the room is full, within this time, and tells how many bytes came.
/// They stand at the front of the room.
pub fn fill_within<S: Read + OpenStream, T: Clock>(
    stream: &mut S,
    clock: &T,
    time: Duration,
    room: &mut [u8],
) -> io::Result<usize>
    ensures bound { IfOk result (λ count. count ≤ length room.new) }
    ensures came { IfOk result (λ count.
        Consumes (S.remaining stream.old) (S.remaining stream.new) (take count room.new)) }
    ensures end { IfOk result (λ count. count < length room.new → IsAtEnd (S.remaining stream.new)) }
{
    let mut left = time;
    let mut limit = None;
    let mut at = 0;
    while at < room.len() {
        let count = read_timed(stream, clock, &mut left, &mut limit, &mut room[at..])?;
        if count == 0 {
            return Ok(at);
        }
        at += count;
    }
    Ok(at)
}

/// Reads away what still comes, to its end, but for this time and 1 MiB at most. A socket that is
/// closed with bytes unread is reset, and what was written on it may then be lost.
pub fn read_away<S: Read + OpenStream, T: Clock>(stream: &mut S, clock: &T, time: Duration) {
    let mut left = time;
    let mut limit = None;
    let mut piece = [0u8; PIECE];
    for _ in 0..MOST_PIECES {
        match read_timed(stream, clock, &mut left, &mut limit, &mut piece) {
            Ok(count) if count > 0 => {}
            Ok(_) | Err(_) => return,
        }
    }
}
