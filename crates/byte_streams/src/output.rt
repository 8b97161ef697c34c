//! What is written: answers are gathered, and written in large pieces.
ghost use Rattle.std.specs.Prelude.{◌≡◌, ◌≤◌, ◌++◌, ℕ, List, [], ◌∷◌, OnOk, IfOk, IfErr, vec_len};
ghost use Rattle.std.specs.Prelude.{vec_capacity};
ghost use Rattle.std.specs.Io.KnownBytes.{Appends, Keeps};
ghost use Rattle.byte_streams.specs.Counted.{Counts, IsFlushed, write_faults, writer_of};
ghost use Rattle.byte_streams.specs.Writing.{Forwards, WritesBeginning};
ghost use Rattle.byte_streams.specs.declared.output.TheConstants.{ROOM};
ghost use Rattle.byte_streams.specs.declared.fault.StreamFault.TheVariants.{WriteFailed};

use crate::counted::CountedWriter;
use crate::fault::StreamFault;
use std::alloc::{AllocError, Global};
use std::io::{ErrorKind, Write};
use std::marker::Model;

/// How many bytes of answers may wait.
const ROOM: usize = 65536;

/// Answers that wait to be written. Contracts see their bytes.
#[derive(Drop)]
pub struct Outbox {
    text: Vec<u8>,
}

impl Model for Outbox {
    ghost Value = { List ℕ };

    ghost view = { λ outbox. outbox.text.items };

    ghost invariant = { λ outbox. (vec_len outbox.text ≤ ROOM)
        × (ROOM ≤ vec_capacity outbox.text) };
}

impl Outbox {
    /// An empty one, with all its room.
    pub fn new(alloc: Global) -> Result<Outbox, AllocError>
        ensures { IfOk result (λ outbox. outbox ≡ []) }
    {
        Ok(Outbox {
            text: Vec::with_capacity(alloc, ROOM)?,
        })
    }

    /// Writes what waits.
    fn write_out<W: Write>(&mut self, writer: &mut CountedWriter<W>) -> Result<(), StreamFault>
        ensures ok { OnOk result ((self.new ≡ []) × Appends (W.contents (writer_of writer.old))
            (W.contents (writer_of writer.new)) self.old) }
        ensures failed { IfErr result (λ fault. (fault ≡ WriteFailed)
            × WritesBeginning (W.contents (writer_of writer.old)) (W.contents (writer_of writer.new)) self.old) }
        ensures cause { Counts (write_faults writer.old) (write_faults writer.new) result }
    {
        write_whole(writer, &self.text)?;
        self.text.clear();
        Ok(())
    }

    /// Adds a text behind what waits, and writes where there is no room for it.
    pub fn push<W: Write>(
        &mut self,
        text: &[u8],
        writer: &mut CountedWriter<W>,
    ) -> Result<(), StreamFault>
        ensures ok { OnOk result (Forwards (W.contents (writer_of writer.old))
            (W.contents (writer_of writer.new)) (self.old ++ text.now) self.new) }
        ensures failed { IfErr result (λ fault. (fault ≡ WriteFailed)
            × WritesBeginning (W.contents (writer_of writer.old)) (W.contents (writer_of writer.new)) (self.old ++ text.now)) }
        ensures cause { Counts (write_faults writer.old) (write_faults writer.new) result }
    {
        if text.len() > ROOM - self.text.len() {
            self.write_out(writer)?;
            if text.len() > ROOM {
                return write_whole(writer, text);
            }
        }
        self.text.extend_from_slice(text).unwrap();
        Ok(())
    }

    /// Adds a text and a line feed.
    pub fn push_line<W: Write>(
        &mut self,
        text: &[u8],
        writer: &mut CountedWriter<W>,
    ) -> Result<(), StreamFault>
        ensures ok { OnOk result (Forwards (W.contents (writer_of writer.old))
            (W.contents (writer_of writer.new)) (self.old ++ (text.now ++ 10 ∷ [])) self.new) }
        ensures failed { IfErr result (λ fault. (fault ≡ WriteFailed)
            × WritesBeginning (W.contents (writer_of writer.old)) (W.contents (writer_of writer.new)) (self.old ++ (text.now ++ 10 ∷ []))) }
        ensures cause { Counts (write_faults writer.old) (write_faults writer.new) result }
    {
        self.push(text, writer)?;
        self.push(b"\n", writer)
    }

    /// Writes what waits, and flushes the writer unless it is flushed.
    pub fn flush<W: Write>(&mut self, writer: &mut CountedWriter<W>) -> Result<(), StreamFault>
        ensures ok { OnOk result ((self.new ≡ []) × Appends (W.contents (writer_of writer.old))
            (W.contents (writer_of writer.new)) self.old) }
        ensures failed { IfErr result (λ fault. (fault ≡ WriteFailed)
            × WritesBeginning (W.contents (writer_of writer.old)) (W.contents (writer_of writer.new)) self.old) }
        ensures cause { Counts (write_faults writer.old) (write_faults writer.new) result }
        ensures flushed { OnOk result (IsFlushed writer.new) }
    {
        self.write_out(writer)?;
        flush_writer(writer)
    }
}

/// Writes all of the text. A write that is interrupted is tried again, and one that takes no byte
/// is a fault.
fn write_whole<W: Write>(writer: &mut CountedWriter<W>, text: &[u8]) -> Result<(), StreamFault>
    ensures ok { OnOk result (Appends (W.contents (writer_of writer.old))
        (W.contents (writer_of writer.new)) text.now) }
    ensures failed { IfErr result (λ fault. (fault ≡ WriteFailed)
        × WritesBeginning (W.contents (writer_of writer.old)) (W.contents (writer_of writer.new)) text.now) }
    ensures cause { Counts (write_faults writer.old) (write_faults writer.new) result }
{
    let mut at = 0;
    while at < text.len() {
        match writer.write(&text[at..]) {
            Ok(0) => return Err(StreamFault::WriteFailed),
            Ok(count) => at += count,
            Err(error) => {
                if error.kind() != ErrorKind::Interrupted {
                    return Err(StreamFault::WriteFailed);
                }
            }
        }
    }
    Ok(())
}

/// Flushes the writer unless it is flushed, and again where that is interrupted.
fn flush_writer<W: Write>(writer: &mut CountedWriter<W>) -> Result<(), StreamFault>
    ensures kept { Keeps (W.contents (writer_of writer.old)) (W.contents (writer_of writer.new)) }
    ensures failed { IfErr result (λ fault. fault ≡ WriteFailed) }
    ensures cause { Counts (write_faults writer.old) (write_faults writer.new) result }
    ensures flushed { OnOk result (IsFlushed writer.new) }
{
    while !writer.is_flushed() {
        if let Err(error) = writer.flush() {
            if error.kind() != ErrorKind::Interrupted {
                return Err(StreamFault::WriteFailed);
            }
        }
    }
    Ok(())
}

/// Writes all of a text, and flushes the writer.
pub fn write_text<W: Write>(writer: &mut CountedWriter<W>, text: &[u8]) -> Result<(), StreamFault>
    ensures ok { OnOk result (Appends (W.contents (writer_of writer.old))
        (W.contents (writer_of writer.new)) text.now) }
    ensures failed { IfErr result (λ fault. (fault ≡ WriteFailed)
        × WritesBeginning (W.contents (writer_of writer.old)) (W.contents (writer_of writer.new)) text.now) }
    ensures cause { Counts (write_faults writer.old) (write_faults writer.new) result }
    ensures flushed { OnOk result (IsFlushed writer.new) }
{
    write_whole(writer, text)?;
    flush_writer(writer)
}
