//! How long a peer is waited for, by a clock that goes on while its streams wait.
use super::doubles::{OwnClock, Peer};
use std::io::{Read, Write};
use std::time::Duration;
use timed_streams::{Pace, Patience, TimedReader, TimedWriter};

/// A pace by this clock, with the usual patience.
fn pace_at(clock: &OwnClock) -> Pace<&OwnClock> {
    Pace::new(clock, Patience::usual())
}

/// A peer whose every byte takes so many seconds.
fn peer(clock: &OwnClock, seconds: u64) -> Peer<'_> {
    Peer::slow(clock, Duration::from_secs(seconds))
}

/// Reads what a slow peer sends, at a desk by its clock.
type SlowReader<'a> = TimedReader<'a, Peer<'a>, &'a OwnClock>;

/// Writes what a slow peer takes, at a desk by its clock.
type SlowWriter<'a> = TimedWriter<'a, Peer<'a>, &'a OwnClock>;

/// How many bytes a reader gives, one a read, before it fails, 100 at most.
fn bytes_read(reader: &mut SlowReader<'_>) -> u32 {
    let mut count = 0u32;
    for _ in 0..100 {
        if reader.read(&mut [0u8; 8]).is_err() {
            break;
        }
        count = count.saturating_add(1);
    }
    count
}

/// How many bytes a writer takes, one a write, before it fails, 100 at most.
fn bytes_written(writer: &mut SlowWriter<'_>) -> u32 {
    let mut count = 0u32;
    for _ in 0..100 {
        if writer.write(b"answers").is_err() {
            break;
        }
        count = count.saturating_add(1);
    }
    count
}

/// How many bytes are read where every byte takes three seconds.
fn slow_bytes_read() -> u32 {
    let clock = OwnClock::new(false);
    let pace = pace_at(&clock);
    bytes_read(&mut TimedReader::new(peer(&clock, 3), &pace))
}

#[test]
fn a_peer_that_trickles_a_request_has_10_seconds_in_all(rt: HostRuntime) {
    assert!(rt; slow_bytes_read() == 5);
}

/// How many bytes are written where every byte takes three seconds.
fn slow_bytes_written() -> u32 {
    let clock = OwnClock::new(false);
    let pace = pace_at(&clock);
    bytes_written(&mut TimedWriter::new(peer(&clock, 3), &pace))
}

#[test]
fn a_peer_that_reads_its_answers_slowly_has_10_seconds_in_all(rt: HostRuntime) {
    assert!(rt; slow_bytes_written() == 4);
}

/// How many bytes are read and written, and how many after a flush; `None` where that fails.
fn counts_around_a_flush(
    reader: &mut SlowReader<'_>,
    writer: &mut SlowWriter<'_>,
) -> Option<(u32, u32, u32, u32)> {
    let first = (bytes_read(reader), bytes_written(writer));
    writer.flush().ok()?;
    let second = (bytes_read(reader), bytes_written(writer));
    Some((first.0, first.1, second.0, second.1))
}

/// The same of a peer whose every byte takes three seconds.
fn slow_counts_around_a_flush() -> Option<(u32, u32, u32, u32)> {
    let clock = OwnClock::new(false);
    let pace = pace_at(&clock);
    let mut reader = TimedReader::new(peer(&clock, 3), &pace);
    let mut writer = TimedWriter::new(peer(&clock, 3), &pace);
    counts_around_a_flush(&mut reader, &mut writer)
}

#[test]
fn each_request_and_each_answer_has_its_time(rt: HostRuntime) {
    assert!(rt; matches!(slow_counts_around_a_flush(), Some((5, 4, 5, 4))));
}

/// How many requests of one byte are answered before a read or a flush fails, 100 at most.
fn requests_answered(reader: &mut SlowReader<'_>, writer: &mut SlowWriter<'_>) -> u32 {
    let mut count = 0u32;
    for _ in 0..100 {
        if reader.read(&mut [0u8; 8]).is_err() || writer.flush().is_err() {
            break;
        }
        count = count.saturating_add(1);
    }
    count
}

/// How many requests of one byte a peer has answered, each of which takes a second, before its turn
/// ends, 100 at most; and whether it ended by time.
fn turn(others: bool) -> (u32, bool) {
    let clock = OwnClock::new(others);
    let pace = pace_at(&clock);
    let mut reader = TimedReader::new(peer(&clock, 1), &pace);
    let mut writer = TimedWriter::new(peer(&clock, 0), &pace);
    let count = requests_answered(&mut reader, &mut writer);
    (count, pace.is_over())
}

#[test]
fn while_others_wait_a_turn_ends_after_10_seconds_and_what_came_before(rt: HostRuntime) {
    assert!(rt; matches!(turn(true), (11, true)));
}

#[test]
fn a_peer_alone_keeps_its_connection_for_a_minute(rt: HostRuntime) {
    assert!(rt; matches!(turn(false), (61, true)));
}
