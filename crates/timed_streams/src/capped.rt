//! A writer that takes so many bytes in all.
ghost use Rattle.std.specs.Prelude.{◌≡◌, ◌+◌, MatchResult};
ghost use Rattle.std.specs.Io.{WritesAtMost};
ghost use Rattle.std.specs.Io.KnownBytes.{WriteAppends};
ghost use Rattle.timed_streams.specs.Capped.{still_takes};

use std::io::{self, Write};

/// A writer that takes so many bytes in all, and of more none.
#[derive(Drop)]
pub struct CappedWriter<W> {
    inner: W,
    left: usize,
}

impl<W> CappedWriter<W> {
    /// One that hands on so many bytes.
    pub fn new(inner: W, most: usize) -> CappedWriter<W>
        ensures inner { result.inner ≡ inner }
        ensures takes { still_takes result ≡ most }
    {
        CappedWriter { inner, left: most }
    }
}

impl<W: Write> Write for CappedWriter<W> {
    ghost contents = { λ writer. W.contents writer.inner };

    fn write(&mut self, buf: &[u8]) -> io::Result<usize>
        ensures bound { WritesAtMost result buf.now }
        ensures bytes { WriteAppends (W.contents self.old.inner) (W.contents self.new.inner) result
            buf.now }
        ensures takes { MatchResult result
            (λ count. still_takes self.new + count ≡ still_takes self.old)
            (λ _. still_takes self.new ≡ still_takes self.old) }
    {
        let most = buf.len().min(self.left);
        let count = self.inner.write(&buf[..most])?;
        self.left -= count;
        Ok(count)
    }

    fn flush(&mut self) -> io::Result<()> {
        self.inner.flush()
    }
}
