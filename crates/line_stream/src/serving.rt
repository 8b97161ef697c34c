//! The lines of a stream are answered.
ghost use Rattle.std.specs.Prelude.{◌≡◌, ℕ, List, [], Some, OnOk, IfOk, IfErr};
ghost use Rattle.std.specs.Io.KnownBytes.{IsAtEnd};
ghost use Rattle.byte_streams.specs.Counted.{Counts, FailsWithCause, IsFlushed, LeavesFlushed};
ghost use Rattle.byte_streams.specs.Counted.{reader_of, write_faults};
ghost use Rattle.byte_streams.specs.InTurn.{InTurn};
ghost use Rattle.line_stream.specs.Answers.{Answered};
ghost use Rattle.line_stream.specs.Serving.{LinesServedOn, LinesStoppedOn};
ghost use Rattle.line_stream.specs.Inner.Midway.{GivesKept};
ghost use Rattle.line_stream.specs.Inner.Steps.{AnswersRest, EndsLine, FinishesLines, PutsLine};
ghost use Rattle.line_stream.specs.Inner.Steps.{TakesBytes, line_place};

use crate::handler::Handler;
use crate::line::LineBuffer;
use byte_streams::{CountedReader, CountedWriter, Outbox, StreamFault, new_chunk, read_some};
use std::alloc::{AllocError, Global};
use std::io::{Read, Write};

/// Where the server is in the stream.
#[derive(Drop)]
struct Progress {
    alloc: Global,
    line: LineBuffer,
    outbox: Outbox,
    /// How many lines were answered, 4294967295 for more.
    answered: u32,
}

/// Answers a line. The answer waits in the outbox.
fn answer_line<W: Write, H: Handler>(
    alloc: Global,
    line: &LineBuffer,
    outbox: &mut Outbox,
    state: &mut H::State,
    writer: &mut CountedWriter<W>,
) -> Result<(), StreamFault>
    ensures answered { (text : List ℕ)
        × GivesKept (Answered H.Handler) line.now state.old text state.new
        × PutsLine W.contents writer.old writer.new outbox.old text outbox.new result }
    ensures cause { Counts (write_faults writer.old) (write_faults writer.new) result }
{
    let Some(bytes) = line.get() else {
        return outbox.push_line(H::too_long().as_bytes(), writer);
    };
    match H::answer(alloc, state, bytes) {
        Ok(text) => outbox.push_line(text.as_bytes(), writer),
        Err(AllocError) => outbox.push_line(H::no_memory().as_bytes(), writer),
    }
}

impl Progress {
    /// Before the first byte, with all its room.
    fn new(alloc: Global) -> Result<Progress, AllocError>
        ensures { IfOk result (λ progress. (progress.line ≡ Some []) × (progress.outbox ≡ [])
            × (progress.answered ≡ 0)) }
    {
        Ok(Progress {
            alloc,
            line: LineBuffer::new(alloc)?,
            outbox: Outbox::new(alloc)?,
            answered: 0,
        })
    }

    /// Answers the line that ends here, and begins the next.
    fn end_line<W: Write, H: Handler>(
        &mut self,
        state: &mut H::State,
        writer: &mut CountedWriter<W>,
    ) -> Result<(), StreamFault>
        ensures answered { EndsLine H.Handler
            (line_place W.contents self.old state.old writer.old)
            (line_place W.contents self.new state.new writer.new) result }
        ensures cause { Counts (write_faults writer.old) (write_faults writer.new) result }
    {
        answer_line::<W, H>(self.alloc, &self.line, &mut self.outbox, state, writer)?;
        self.line.clear();
        self.answered = self.answered.saturating_add(1);
        Ok(())
    }

    /// Answers the lines that end in these bytes, and keeps what is left of them.
    fn take<W: Write, H: Handler>(
        &mut self,
        bytes: &[u8],
        state: &mut H::State,
        writer: &mut CountedWriter<W>,
    ) -> Result<(), StreamFault>
        ensures answered { TakesBytes H.Handler bytes.now
            (line_place W.contents self.old state.old writer.old)
            (line_place W.contents self.new state.new writer.new) result }
        ensures cause { Counts (write_faults writer.old) (write_faults writer.new) result }
    {
        for byte in bytes {
            if *byte == b'\n' {
                self.end_line::<W, H>(state, writer)?;
            } else {
                self.line.push(*byte);
            }
        }
        Ok(())
    }

    /// Answers the last line of the input, if it has a byte and no line feed.
    fn answer_rest<W: Write, H: Handler>(
        &mut self,
        state: &mut H::State,
        writer: &mut CountedWriter<W>,
    ) -> Result<(), StreamFault>
        ensures answered { AnswersRest H.Handler
            (line_place W.contents self.old state.old writer.old)
            (line_place W.contents self.new state.new writer.new) result }
        ensures cause { Counts (write_faults writer.old) (write_faults writer.new) result }
    {
        if self.line.is_empty() {
            return Ok(());
        }
        self.end_line::<W, H>(state, writer)
    }

    /// Answers what is left at the end of the input, writes what waits, and tells the count of
    /// answers.
    fn finish<W: Write, H: Handler>(
        &mut self,
        state: &mut H::State,
        writer: &mut CountedWriter<W>,
    ) -> Result<u32, StreamFault>
        ensures answered { FinishesLines H.Handler
            (line_place W.contents self.old state.old writer.old)
            (line_place W.contents self.new state.new writer.new) result }
        ensures cause { Counts (write_faults writer.old) (write_faults writer.new) result }
        ensures flushed { OnOk result (IsFlushed writer.new) }
    {
        self.answer_rest::<W, H>(state, writer)?;
        self.outbox.flush(writer)?;
        Ok(self.answered)
    }
}

/// Answers each line of what is read, until the end, and tells how many answers it wrote
/// (4294967295 for more).
///
/// A line ends at a line feed or at the end of the input; a last line without a line feed counts if
/// it has a byte. The handler answers each line in order, and each answer is written as one line. A
/// line of more than `LONGEST_LINE` bytes is skipped to its end, and answered by
/// `Handler::too_long`; in place of an answer that found no memory `Handler::no_memory` is written,
/// and the next line is served. Whatever is answered is written and flushed before the reader is
/// asked for more.
///
/// `ReadFailed` comes where a read failed, with the answers so far written and flushed.
/// `WriteFailed` comes where a write or a flush failed or a write took no byte, with a beginning of
/// the answers written. `NoMemory` comes before the first read. The reader and the writer count
/// these faults themselves: the reader has one more exactly at `ReadFailed`, and the writer exactly
/// at `WriteFailed`. A read, write or flush that is interrupted is tried again.
pub fn serve_lines<R: Read, W: Write, H: Handler>(
    alloc: Global,
    reader: &mut CountedReader<R>,
    writer: &mut CountedWriter<W>,
    state: &mut H::State,
) -> Result<u32, StreamFault>
    ensures served { IfOk result (LinesServedOn R.remaining W.contents (InTurn (Answered H.Handler))
        reader.old writer.old writer.new state.old state.new) }
    ensures at_end { OnOk result (IsAtEnd (R.remaining (reader_of reader.new))) }
    ensures stopped { IfErr result (LinesStoppedOn R.remaining W.contents
        (InTurn (Answered H.Handler)) reader.old reader.new writer.old writer.new
        state.old state.new) }
    ensures cause { FailsWithCause reader.old reader.new writer.old writer.new result }
    ensures flushed { LeavesFlushed writer.new result }
{
    let mut progress = Progress::new(alloc)?;
    let mut chunk = new_chunk(alloc)?;
    loop {
        progress.outbox.flush(writer)?;
        let count = read_some(reader, writer, &mut chunk)?;
        if count == 0 {
            return progress.finish::<W, H>(state, writer);
        }
        progress.take::<W, H>(&chunk[..count], state, writer)?;
    }
}
