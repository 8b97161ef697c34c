//! The requests of a stream are answered.
ghost use Rattle.std.specs.Prelude.{◌≡◌, ◌≤◌, ◌<◌, ◌+◌, ℕ, min, List, [], length, drop};
ghost use Rattle.std.specs.Prelude.{IfOk, IfErr, IfSome, OnOk};
ghost use Rattle.byte_streams.specs.Counted.{Counts, FailsWithCause, LeavesFlushed, reads_left};
ghost use Rattle.byte_streams.specs.Counted.{write_faults};
ghost use Rattle.byte_streams.specs.InTurn.{InTurn};
ghost use Rattle.byte_streams.specs.Serving.{greatest_count};
ghost use Rattle.httparse.specs.Spans.{IsWithin};
ghost use Rattle.http_messages.specs.Answers.{refusal_answer};
ghost use Rattle.http_messages.specs.Requests.{HasAsk, IsLook, ask_at, longest_body, longest_head};
ghost use Rattle.http_messages.specs.declared.request.Look.TheVariants.{More};
ghost use Rattle.http_stream.specs.Answers.{ItemAnswered};
ghost use Rattle.http_stream.specs.Serving.{RequestsServedOn, RequestsStoppedOn};
ghost use Rattle.http_stream.specs.Inner.Midstream.{piece_size};
ghost use Rattle.http_stream.specs.Inner.Steps.{AnswersAsk, AnswersNext, AnswersWhole};
ghost use Rattle.http_stream.specs.Inner.Steps.{PutsText, ReadsUpTo, stream_place};

use crate::buffer::{Buffer, new_piece};
use crate::service::Service;
use byte_streams::{CountedReader, CountedWriter, Outbox, StreamFault, read_some};
use http_messages::{Audience, HeadFault, Look, RequestParts, no_memory_text, refusal_text};
use std::alloc::{AllocError, Global};
use std::io::{Read, Write};

/// Where the server is in the stream.
#[derive(Drop)]
struct StreamProgress {
    buffer: Buffer,
    outbox: Outbox,
    /// How many requests were answered, 4294967295 for more.
    answered: u32,
}

/// Has the service answer a request. The answer waits in the outbox.
fn answer_request<W: Write, H: Service>(
    service: &H,
    clock: &mut H::Clock,
    state: &mut H::State,
    buffer: &Buffer,
    parts: RequestParts,
    outbox: &mut Outbox,
    writer: &mut CountedWriter<W>,
) -> Result<(), StreamFault>
    requires target { IsWithin (length buffer.now) parts.target }
    requires body { IsWithin (length buffer.now) parts.body }
    ensures answered { AnswersAsk H.Service service.now (ask_at buffer.now parts)
        (clock.old, state.old) (clock.new, state.new)
        W.contents writer.old writer.new outbox.old outbox.new result }
    ensures cause { Counts (write_faults writer.old) (write_faults writer.new) result }
{
    let target = buffer.part(parts.target);
    let body = buffer.part(parts.body);
    match service.answer(clock, state, parts.method, target, body, parts.is_last) {
        Ok(text) => outbox.push(&text, writer),
        Err(AllocError) => outbox.push(no_memory_text(parts.is_last).as_bytes(), writer),
    }
}

impl StreamProgress {
    /// Before the first byte, with all its room.
    fn new(alloc: Global) -> Result<StreamProgress, AllocError>
        ensures { IfOk result (λ progress. (progress.buffer ≡ []) × (progress.outbox ≡ [])
            × (progress.answered ≡ 0)) }
    {
        Ok(StreamProgress {
            buffer: Buffer::new(alloc)?,
            outbox: Outbox::new(alloc)?,
            answered: 0,
        })
    }

    /// Answers the request at the front of the buffer.
    fn answer<W: Write, H: Service>(
        &mut self,
        audience: Audience<'_>,
        service: &H,
        clock: &mut H::Clock,
        state: &mut H::State,
        parts: RequestParts,
        writer: &mut CountedWriter<W>,
    ) -> Result<(), StreamFault>
        requires target { IsWithin (length self.old.buffer) parts.target }
        requires body { IsWithin (length self.old.buffer) parts.body }
        requires asks { HasAsk audience self.old.buffer (ask_at self.old.buffer parts)
            (drop parts.body.end self.old.buffer) }
        ensures answered { AnswersNext H.Service service.now audience.entry parts.is_last
            (stream_place W.contents self.old (clock.old, state.old) writer.old)
            (stream_place W.contents self.new (clock.new, state.new) writer.new) result }
        ensures shorter { OnOk result (self.new.buffer ≡ drop parts.body.end self.old.buffer) }
        ensures cause { Counts (write_faults writer.old) (write_faults writer.new) result }
    {
        answer_request(
            service,
            clock,
            state,
            &self.buffer,
            parts,
            &mut self.outbox,
            writer,
        )?;
        self.buffer.consume(parts.body.end);
        self.answered = self.answered.saturating_add(1);
        Ok(())
    }

    /// Refuses the request at the front of the buffer.
    fn refuse<W: Write>(
        &mut self,
        why: HeadFault,
        writer: &mut CountedWriter<W>,
    ) -> Result<(), StreamFault>
        ensures kept { self.new.buffer ≡ self.old.buffer }
        ensures count { OnOk result
            (self.new.answered ≡ min (self.old.answered + 1) greatest_count) }
        ensures told { PutsText W.contents writer.old writer.new
            self.old.outbox (refusal_answer why) self.new.outbox result }
        ensures cause { Counts (write_faults writer.old) (write_faults writer.new) result }
    {
        self.outbox.push(refusal_text(why).as_bytes(), writer)?;
        self.answered = self.answered.saturating_add(1);
        Ok(())
    }

    /// Answers the requests that are whole in the buffer, and tells how many bytes the next one
    /// needs in all. `None` where there is no next one, since the last was answered.
    fn answer_buffered<W: Write, H: Service>(
        &mut self,
        audience: Audience<'_>,
        service: &H,
        clock: &mut H::Clock,
        state: &mut H::State,
        writer: &mut CountedWriter<W>,
    ) -> Result<Option<usize>, StreamFault>
        ensures answered { AnswersWhole H.Service service.now audience.entry
            (stream_place W.contents self.old (clock.old, state.old) writer.old)
            (stream_place W.contents self.new (clock.new, state.new) writer.new) result }
        ensures wanted { IfOk result (λ next. IfSome next (λ count. IsLook audience.entry
            self.new.buffer (More count))) }
        ensures cause { Counts (write_faults writer.old) (write_faults writer.new) result }
    {
        loop {
            match self.buffer.look(audience) {
                Look::More(wanted) => return Ok(Some(wanted)),
                Look::Faulty(why) => {
                    self.refuse(why, writer)?;
                    return Ok(None);
                }
                Look::Whole(parts) => {
                    self.answer(audience, service, clock, state, parts, writer)?;
                    if parts.is_last {
                        return Ok(None);
                    }
                }
            }
        }
    }

    /// Reads until the buffer has so many bytes, and tells whether the input had them. What waits
    /// is written and flushed first.
    fn read_up_to<R: Read, W: Write>(
        &mut self,
        wanted: usize,
        reader: &mut CountedReader<R>,
        writer: &mut CountedWriter<W>,
        chunk: &mut [u8],
    ) -> Result<bool, StreamFault>
        requires short { length self.old.buffer < wanted }
        requires most { wanted ≤ (longest_head + longest_body) }
        requires room { length chunk.old ≡ piece_size }
        ensures count { self.new.answered ≡ self.old.answered }
        ensures read { ReadsUpTo R.remaining W.contents wanted reader.old reader.new
            writer.old writer.new self.old self.new result }
        ensures cause { FailsWithCause reader.old reader.new writer.old writer.new result }
        ensures flushed { LeavesFlushed writer.new result }
        ensures fewer { OnOk result (reads_left reader.new < reads_left reader.old) }
    {
        self.outbox.flush(writer)?;
        while !self.buffer.has(wanted) {
            let count = read_some(reader, writer, chunk)?;
            if count == 0 {
                return Ok(false);
            }
            self.buffer.add(&chunk[..count]);
        }
        Ok(true)
    }
}

/// Answers each request of what is read, until the end of the input or the last request, and tells
/// how many answers it wrote (4294967295 for more).
///
/// The service answers each whole request of the audience in order. A request that is refused by its
/// head
/// (`HeadFault`) is answered too, and is the last; so is a request with `Connection: close`. After
/// the last one nothing more is answered, whatever was read. Where the input ends before a whole
/// request, that one gets no answer. In place of an answer that found no memory a constant is
/// written, 503 with `{"fault":"NoMemory","rule":23}`, and the next request is served. Whatever is
/// answered is written and flushed before the reader is asked for more.
///
/// `ReadFailed` comes where a read failed, with the answers so far written and flushed.
/// `WriteFailed` comes where a write or a flush failed or a write took no byte, with a beginning of
/// the answers written. `NoMemory` comes before the first read. The reader and the writer count
/// these faults themselves: the reader has one more exactly at `ReadFailed`, and the writer exactly
/// at `WriteFailed`. A read, write or flush that is interrupted is tried again.
pub fn serve_requests<R: Read, W: Write, H: Service>(
    alloc: Global,
    audience: Audience<'_>,
    reader: &mut CountedReader<R>,
    writer: &mut CountedWriter<W>,
    service: &H,
    clock: &mut H::Clock,
    state: &mut H::State,
) -> Result<u32, StreamFault>
    ensures served { IfOk result (RequestsServedOn audience.entry R.remaining W.contents
        (InTurn (ItemAnswered H.Service service.now)) reader.old writer.old writer.new
        (clock.old, state.old) (clock.new, state.new)) }
    ensures stopped { IfErr result (RequestsStoppedOn audience.entry R.remaining W.contents
        (InTurn (ItemAnswered H.Service service.now)) reader.old reader.new writer.old writer.new
        (clock.old, state.old) (clock.new, state.new)) }
    ensures cause { FailsWithCause reader.old reader.new writer.old writer.new result }
    ensures flushed { LeavesFlushed writer.new result }
{
    let mut progress = StreamProgress::new(alloc)?;
    let mut chunk = new_piece(alloc)?;
    while let Some(wanted) = progress.answer_buffered(audience, service, clock, state, writer)? {
        if !progress.read_up_to(wanted, reader, writer, &mut chunk)? {
            return Ok(progress.answered);
        }
    }
    progress.outbox.flush(writer)?;
    Ok(progress.answered)
}
