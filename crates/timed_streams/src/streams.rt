//! A reader and a writer of a socket that keep a pace.
ghost use Rattle.std.specs.Prelude.{◌≡◌};

use crate::pace::{Desk, Pace};
use crate::within::{read_timed, write_timed};
use std::io::{self, Read, Write};
use std::net::OpenStream;
use std::time::Duration;

/// Reads what a socket gives, and waits for the peer no longer than the pace has left. A wait that
/// is over is a read that fails. So is the read behind the last one of a peer whose turn is over.
#[derive(Drop)]
pub struct TimedReader<'a, S, D> {
    stream: S,
    pace: &'a Pace<D>,
    /// How long the socket lets a read wait, if that was set.
    limit: Option<Duration>,
}

impl<'a, S, D> TimedReader<'a, S, D> {
    /// A reader of this stream at this pace.
    pub fn new(stream: S, pace: &'a Pace<D>) -> TimedReader<'a, S, D>
        ensures { result.stream ≡ stream }
    {
        TimedReader {
            stream,
            pace,
            limit: None,
        }
    }

    /// The stream.
    pub fn into_inner(self) -> S
        ensures { result ≡ self.entry.stream }
    {
        self.stream
    }
}

impl<'a, S: Read + OpenStream, D: Desk> Read for TimedReader<'a, S, D> {
    ghost remaining = { λ reader. S.remaining reader.stream };

    fn read(&mut self, buf: &mut [u8]) -> io::Result<usize> {
        self.pace.waits();
        let mut left = self.pace.left();
        let result = read_timed(
            &mut self.stream,
            self.pace.desk(),
            &mut left,
            &mut self.limit,
            buf,
        );
        self.pace.leave(left);
        if matches!(&result, Ok(count) if *count > 0) {
            self.pace.came();
        }
        result
    }
}

/// Writes to a socket, and waits for the peer no longer than the pace has left. A wait that is over
/// is a write that fails. A flush says that the answers are out.
#[derive(Drop)]
pub struct TimedWriter<'a, S, D> {
    stream: S,
    pace: &'a Pace<D>,
    /// How long the socket lets a write wait, if that was set.
    limit: Option<Duration>,
}

impl<'a, S, D> TimedWriter<'a, S, D> {
    /// A writer to this stream at this pace.
    pub fn new(stream: S, pace: &'a Pace<D>) -> TimedWriter<'a, S, D>
        ensures { result.stream ≡ stream }
    {
        TimedWriter {
            stream,
            pace,
            limit: None,
        }
    }

    /// The stream.
    pub fn into_inner(self) -> S
        ensures { result ≡ self.entry.stream }
    {
        self.stream
    }
}

impl<'a, S: Write + OpenStream, D: Desk> Write for TimedWriter<'a, S, D> {
    ghost contents = { λ writer. S.contents writer.stream };

    fn write(&mut self, buf: &[u8]) -> io::Result<usize> {
        self.pace.answers();
        let mut left = self.pace.left();
        let result = write_timed(
            &mut self.stream,
            self.pace.desk(),
            &mut left,
            &mut self.limit,
            buf,
        );
        self.pace.leave(left);
        result
    }

    fn flush(&mut self) -> io::Result<()> {
        self.stream.flush()?;
        self.pace.answered();
        Ok(())
    }
}
