//! What is read: pieces of a stream.
ghost use Rattle.std.specs.Prelude.{◌≡◌, ◌≤◌, ◌<◌, length, take, IfOk, IfErr, OnOk, vec_len};
ghost use Rattle.byte_streams.specs.Pieces.{chunk_size};
ghost use Rattle.std.specs.Io.KnownBytes.{Consumes, IsAtEnd, Keeps};
ghost use Rattle.byte_streams.specs.Counted.{Counts, IsFlushed, IsReadFault, counted_of, read_faults};
ghost use Rattle.byte_streams.specs.Counted.{reader_of, reads_left};
ghost use Rattle.byte_streams.specs.declared.fault.StreamFault.TheVariants.{ReadFailed};

use crate::counted::{CountedReader, CountedWriter, WholeReader};
use crate::fault::StreamFault;
use std::alloc::{AllocError, Global};
use std::io::{ErrorKind, Read};

/// How many bytes are read at once, at most.
pub const CHUNK: usize = 65536;

/// Room for what is read at once, 65,536 bytes.
pub fn new_chunk(alloc: Global) -> Result<Vec<u8>, AllocError>
    ensures { IfOk result (λ chunk. vec_len chunk ≡ chunk_size) }
{
    vec![in alloc; 0u8; CHUNK]
}

/// Reads once, and again where that is interrupted. Only at the end of the input it gives no byte.
fn read_piece<R: Read>(
    reader: &mut CountedReader<R>,
    chunk: &mut [u8],
) -> Result<usize, StreamFault>
    requires { 0 < length chunk.old }
    ensures bound { IfOk result (λ count. count ≤ length chunk.new) }
    ensures came { IfOk result (λ count.
        Consumes (R.remaining (reader_of reader.old)) (R.remaining (reader_of reader.new)) (take count chunk.new)) }
    ensures end { IfOk result (λ count. count ≡ 0 → IsAtEnd (R.remaining (reader_of reader.new))) }
    ensures failed { IfErr result (λ fault. (fault ≡ ReadFailed)
        × Keeps (R.remaining (reader_of reader.old)) (R.remaining (reader_of reader.new))) }
    ensures cause { Counts (read_faults reader.old) (read_faults reader.new) result }
    ensures fewer { OnOk result (reads_left reader.new < reads_left reader.old) }
{
    loop {
        match reader.read(chunk) {
            Ok(count) => return Ok(count),
            Err(error) => {
                if error.kind() != ErrorKind::Interrupted {
                    return Err(StreamFault::ReadFailed);
                }
            }
        }
    }
}

/// Reads once, and again where that is interrupted, for a peer that gets what the writer writes.
/// Only at the end of the input it gives no byte.
///
/// What was written before has to be flushed: who waits for an answer has it before more is asked
/// for.
pub fn read_some<R: Read, W>(
    reader: &mut CountedReader<R>,
    _writer: &CountedWriter<W>,
    chunk: &mut [u8],
) -> Result<usize, StreamFault>
    requires room { 0 < length chunk.old }
    requires flushed { IsFlushed _writer.now }
    ensures bound { IfOk result (λ count. count ≤ length chunk.new) }
    ensures came { IfOk result (λ count.
        Consumes (R.remaining (reader_of reader.old)) (R.remaining (reader_of reader.new)) (take count chunk.new)) }
    ensures end { IfOk result (λ count. count ≡ 0 → IsAtEnd (R.remaining (reader_of reader.new))) }
    ensures failed { IfErr result (λ fault. (fault ≡ ReadFailed)
        × Keeps (R.remaining (reader_of reader.old)) (R.remaining (reader_of reader.new))) }
    ensures cause { Counts (read_faults reader.old) (read_faults reader.new) result }
    ensures fewer { OnOk result (reads_left reader.new < reads_left reader.old) }
{
    read_piece(reader, chunk)
}

/// Reads all that is left. `ReadFailed` comes where the reader failed, and `NoMemory` where a
/// growth was refused.
pub fn read_all<R: Read>(alloc: Global, reader: &mut WholeReader<R>) -> Result<Vec<u8>, StreamFault>
    ensures bytes { IfOk result (λ bytes. Consumes (R.remaining (reader_of (counted_of reader.old)))
        (R.remaining (reader_of (counted_of reader.new))) bytes.items) }
    ensures end { OnOk result (IsAtEnd (R.remaining (reader_of (counted_of reader.new)))) }
    ensures ok { OnOk result
        (read_faults (counted_of reader.new) ≡ read_faults (counted_of reader.old)) }
    ensures cause { IfErr result (IsReadFault (counted_of reader.old) (counted_of reader.new)) }
{
    let mut chunk = new_chunk(alloc)?;
    let mut bytes = Vec::new(alloc);
    loop {
        let count = read_piece(&mut reader.counted, &mut chunk)?;
        if count == 0 {
            return Ok(bytes);
        }
        bytes.extend_from_slice(&chunk[..count])?;
    }
}
