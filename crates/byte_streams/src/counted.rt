//! A reader and a writer that count their own faults.
//!
//! std says of a read and of a write what became of the bytes, and not why one fails. Here a count
//! says it: the fields are private to this file, so nothing raises a count but a call of `read`, of
//! `write` or of `flush` that fails.
ghost use Rattle.std.specs.Prelude.{◌≡◌, ◌≢◌, ◌<◌, ◌-◌, ◌^◌, ◌↔◌, length, IfOk, IfErr, IsTrue};
ghost use Rattle.std.specs.Prelude.{OnOk};
ghost use Rattle.std.specs.Io.{ReadsAtMost, WritesAtMost};
ghost use Rattle.std.specs.Io.KnownBytes.{Keeps, ReadConsumes, WriteAppends};
ghost use Rattle.std.specs.IoError.{error_kind};
ghost use Rattle.byte_streams.specs.Counted.{IsFlushed, calls_left, counted_of, one_more, read_faults};
ghost use Rattle.byte_streams.specs.Counted.{reader_of, reads_left, write_faults, writer_of};

use std::io::{self, Error, ErrorKind, Read, Write};

/// A reader that counts how often it failed.
///
/// A read fails where the inner one fails and was not interrupted. A reader may be asked 2^64 - 1
/// times, and each read after those fails too.
#[derive(Drop)]
pub struct CountedReader<R> {
    inner: R,
    faults: u64,
    reads_left: u64,
}

impl<R> CountedReader<R> {
    /// A reader that has not failed yet.
    pub fn new(inner: R) -> CountedReader<R>
        ensures inner { reader_of result ≡ inner }
        ensures faults { read_faults result ≡ 0 }
        ensures left { reads_left result ≡ 2 ^ 64 - 1 }
    {
        CountedReader {
            inner,
            faults: 0,
            reads_left: u64::MAX,
        }
    }

    /// How often it failed, 2^64 - 1 for more.
    pub fn faults(&self) -> u64
        ensures { result ≡ read_faults self.now }
    {
        self.faults
    }

    /// The inner reader.
    pub fn into_inner(self) -> R
        ensures { result ≡ reader_of self }
    {
        self.inner
    }
}

impl<R: Read> CountedReader<R> {
    /// Reads once. Only this crate can, and what it offers above asks first that all that was written
    /// is flushed, or reads for who has no peer that waits.
    pub(crate) fn read(&mut self, buf: &mut [u8]) -> io::Result<usize>
        ensures bound { ReadsAtMost result buf.new }
        ensures bytes { ReadConsumes (R.remaining (reader_of self.old))
            (R.remaining (reader_of self.new)) result buf.new }
        ensures ok { IfOk result (λ _. read_faults self.new ≡ read_faults self.old) }
        ensures interrupted { IfErr result (λ error. error_kind error ≡ ErrorKind.Interrupted
            → read_faults self.new ≡ read_faults self.old) }
        ensures failed { IfErr result (λ error. error_kind error ≢ ErrorKind.Interrupted
            → read_faults self.new ≡ one_more (read_faults self.old)) }
        ensures fewer { IfOk result (λ _. reads_left self.new < reads_left self.old) }
        ensures fewer_interrupted { IfErr result (λ error. error_kind error ≡ ErrorKind.Interrupted
            → reads_left self.new < reads_left self.old) }
    {
        if self.reads_left == 0 {
            self.faults = self.faults.saturating_add(1);
            return Err(Error::new(ErrorKind::TimedOut, "no read is left"));
        }
        self.reads_left -= 1;
        let result = self.inner.read(buf);
        if let Err(error) = &result {
            if error.kind() != ErrorKind::Interrupted {
                self.faults = self.faults.saturating_add(1);
            }
        }
        result
    }
}

/// A counted reader of what is read to its end before anything is told of it: a file, or a text. No
/// peer waits at its other end, so nothing has to be flushed first. A server, which is lent a
/// `CountedReader`, can't make one of it.
#[derive(Drop)]
pub struct WholeReader<R> {
    pub(crate) counted: CountedReader<R>,
}

impl<R> WholeReader<R> {
    /// A reader that has not failed yet.
    pub fn new(inner: R) -> WholeReader<R>
        ensures inner { reader_of (counted_of result) ≡ inner }
        ensures faults { read_faults (counted_of result) ≡ 0 }
        ensures left { reads_left (counted_of result) ≡ 2 ^ 64 - 1 }
    {
        WholeReader {
            counted: CountedReader::new(inner),
        }
    }

    /// How often it failed, 2^64 - 1 for more.
    pub fn faults(&self) -> u64
        ensures { result ≡ read_faults (counted_of self.now) }
    {
        self.counted.faults()
    }

    /// The inner reader.
    pub fn into_inner(self) -> R
        ensures { result ≡ reader_of (counted_of self) }
    {
        self.counted.into_inner()
    }
}

/// A writer that counts how often it failed, and knows whether it is flushed.
///
/// A write fails where the inner one fails and was not interrupted, or takes no byte of some; a
/// flush where the inner one fails and was not interrupted. A writer may be called 2^64 - 1 times,
/// and each call after those fails too.
#[derive(Drop)]
pub struct CountedWriter<W> {
    inner: W,
    faults: u64,
    calls_left: u64,
    /// Whether nothing was written since the last flush that succeeded.
    is_flushed: bool,
}

impl<W> CountedWriter<W> {
    /// A writer that has not failed yet.
    pub fn new(inner: W) -> CountedWriter<W>
        ensures inner { writer_of result ≡ inner }
        ensures faults { write_faults result ≡ 0 }
        ensures left { calls_left result ≡ 2 ^ 64 - 1 }
        ensures flushed { IsFlushed result }
    {
        CountedWriter {
            inner,
            faults: 0,
            calls_left: u64::MAX,
            is_flushed: true,
        }
    }

    /// How often it failed, 2^64 - 1 for more.
    pub fn faults(&self) -> u64
        ensures { result ≡ write_faults self.now }
    {
        self.faults
    }

    /// Whether everything that was written was flushed.
    pub fn is_flushed(&self) -> bool
        ensures { IsTrue result ↔ IsFlushed self.now }
    {
        self.is_flushed
    }

    /// The inner writer.
    pub fn into_inner(self) -> W
        ensures { result ≡ writer_of self }
    {
        self.inner
    }
}

impl<W: Write> Write for CountedWriter<W> {
    ghost contents = { λ writer. W.contents (writer_of writer) };

    fn write(&mut self, buf: &[u8]) -> io::Result<usize>
        ensures bound { WritesAtMost result buf.now }
        ensures bytes { WriteAppends (W.contents (writer_of self.old))
            (W.contents (writer_of self.new)) result buf.now }
        ensures some { IfOk result (λ count. 0 < count → write_faults self.new ≡ write_faults
            self.old) }
        ensures none { IfOk result (λ count. count ≡ 0 → 0 < length buf.now
            → write_faults self.new ≡ one_more (write_faults self.old)) }
        ensures empty { IfOk result (λ _. length buf.now ≡ 0 → write_faults self.new ≡ write_faults
            self.old) }
        ensures interrupted { IfErr result (λ error. error_kind error ≡ ErrorKind.Interrupted
            → write_faults self.new ≡ write_faults self.old) }
        ensures failed { IfErr result (λ error. error_kind error ≢ ErrorKind.Interrupted
            → write_faults self.new ≡ one_more (write_faults self.old)) }
        ensures fewer { IfOk result (λ _. calls_left self.new < calls_left self.old) }
        ensures fewer_interrupted { IfErr result (λ error. error_kind error ≡ ErrorKind.Interrupted
            → calls_left self.new < calls_left self.old) }
        ensures unflushed { ¬ IsFlushed self.new }
    {
        self.is_flushed = false;
        if self.calls_left == 0 {
            self.faults = self.faults.saturating_add(1);
            return Err(Error::new(ErrorKind::TimedOut, "no call is left"));
        }
        self.calls_left -= 1;
        let result = self.inner.write(buf);
        let has_failed = match &result {
            Ok(count) => *count == 0 && !buf.is_empty(),
            Err(error) => error.kind() != ErrorKind::Interrupted,
        };
        if has_failed {
            self.faults = self.faults.saturating_add(1);
        }
        result
    }

    fn flush(&mut self) -> io::Result<()>
        ensures bytes { Keeps (W.contents (writer_of self.old)) (W.contents (writer_of self.new)) }
        ensures ok { IfOk result (λ _. write_faults self.new ≡ write_faults self.old) }
        ensures interrupted { IfErr result (λ error. error_kind error ≡ ErrorKind.Interrupted
            → write_faults self.new ≡ write_faults self.old) }
        ensures failed { IfErr result (λ error. error_kind error ≢ ErrorKind.Interrupted
            → write_faults self.new ≡ one_more (write_faults self.old)) }
        ensures fewer { OnOk result (calls_left self.new < calls_left self.old) }
        ensures fewer_interrupted { IfErr result (λ error. error_kind error ≡ ErrorKind.Interrupted
            → calls_left self.new < calls_left self.old) }
        ensures flushed { OnOk result (IsFlushed self.new) }
        ensures unflushed { IfErr result (λ _. IsFlushed self.new → IsFlushed self.old) }
    {
        if self.calls_left == 0 {
            self.faults = self.faults.saturating_add(1);
            return Err(Error::new(ErrorKind::TimedOut, "no call is left"));
        }
        self.calls_left -= 1;
        let result = self.inner.flush();
        match &result {
            Ok(()) => self.is_flushed = true,
            Err(error) => {
                if error.kind() != ErrorKind::Interrupted {
                    self.faults = self.faults.saturating_add(1);
                }
            }
        }
        result
    }
}
