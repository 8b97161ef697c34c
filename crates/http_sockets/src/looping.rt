//! Bytes that are served by way of a socket of this machine.
ghost use Rattle.std.specs.Prelude.{◌≡◌, ◌≤◌, ℕ, List, IfErr, IfOk, None, OnOk, length};
ghost use Rattle.std.specs.Io.KnownBytes.{Appends};
ghost use Rattle.builder.specs.Safety.{IsSafeRun};
ghost use Rattle.byte_streams.specs.Counted.{Counts, IsFlushed, write_faults, writer_of};
ghost use Rattle.byte_streams.specs.declared.fault.StreamFault.TheVariants.{WriteFailed};
ghost use Rattle.http_messages.specs.declared.audience.Audience.TheVariants.{Anyone};
ghost use Rattle.http_sockets.specs.Connections.{LoopFails, IsTalk, OneEnded, OneServedOrNone};
ghost use Rattle.http_sockets.specs.Connections.{most_looped};
ghost use Rattle.http_sockets.specs.Inner.Stopping.{fault_in};
ghost use Rattle.http_sockets.specs.declared.fault.ServeFault.TheVariants.{NetFailed};

use crate::doors::{Door, Ends};
use crate::fault::ServeFault;
use crate::server::Server;
use crate::serving::{close, converse};
use builder::RingMachine;
use byte_streams::{CountedWriter, StreamFault, write_text};
use http_api::{Clock, Site};
use http_messages::Audience;
use path_lookup::HashNames;
use request_book::{Book, Keeper};
use std::alloc::Global;
use std::io::{self, Read, Write};
use std::net::{Net, OpenStream, Shutdown, SocketAddr};
use std::time;
use timed_streams::{Alone, CappedWriter, Pace, Patience, TimedReader, TimedWriter, fill_within};

/// How many bytes the connection carries at most each way.
pub const MOST_LOOPED: usize = 32768;

/// How many other peers may come before the program's own.
const MOST_STRANGERS: u32 = 128;

/// The ends of a connection of this machine with itself.
#[derive(Drop)]
struct Loop<S> {
    client: S,
    served: Ends<S>,
}

/// Connects, sends these bytes, and ends the sending side.
fn send<R: Net + time::Clock>(rt: &R, address: SocketAddr, input: &[u8]) -> io::Result<R::Stream> {
    let pace = Pace::new(Alone(rt), Patience::usual());
    let mut writer = TimedWriter::new(rt.connect(address)?, &pace);
    writer.write_all(input)?;
    let stream = writer.into_inner();
    stream.shutdown(Shutdown::Write)?;
    Ok(stream)
}

/// The connection of the client at this address. Other peers are turned away.
fn accept_from<R: AllocGlobal + Net + time::Clock>(
    server: &mut Server<'_, R>,
    client: SocketAddr,
) -> Result<Ends<R::Stream>, ServeFault>
    ensures { IfErr result (λ fault. fault ≡ NetFailed) }
{
    for _ in 0..MOST_STRANGERS + 1 {
        let ends = server.accept()?;
        if ends.reader.peer_addr().ok() == Some(client) {
            return Ok(ends);
        }
    }
    Err(ServeFault::NetFailed)
}

/// A connection of this machine with itself, over which these bytes were sent.
fn join<R: AllocGlobal + Net + time::Clock>(
    rt: &R,
    input: &[u8],
) -> Result<Loop<R::Stream>, ServeFault>
    ensures { IfErr result (λ fault. fault ≡ NetFailed) }
{
    let mut server = Server::bind(rt, 0, Patience::usual())?;
    let client = send(rt, server.address()?, input)?;
    let address = client.local_addr()?;
    let served = accept_from(&mut server, address)?;
    Ok(Loop { client, served })
}

/// Serves a stream to its end and closes it. Answers past 32768 bytes are not written.
fn serve_capped<
    T: time::Clock,
    S: Read + Write + OpenStream + Drop,
    C: Clock,
    K: Keeper<RingMachine>,
>(
    alloc: Global,
    time: &T,
    ends: Ends<S>,
    clock: &mut C,
    book: &mut Book<RingMachine, K>,
    names: HashNames<'_>,
) -> Result<u32, StreamFault>
    ensures { OneEnded K.Keeper C.tells names.entry.prefix.now names.entry.suffix.now
        (IsTalk Anyone S.remaining S.contents) (clock.old, book.old) (clock.new, book.new)
        (fault_in result) }
{
    let pace = Pace::new(Alone(time), Patience::usual());
    let reader = TimedReader::new(ends.reader, &pace);
    let writer = CappedWriter::new(TimedWriter::new(ends.writer, &pace), MOST_LOOPED);
    let site = Site::new(alloc, names);
    let talk = converse(alloc, Audience::Anyone, reader, writer, clock, book, &site);
    close(talk.stream, time, Patience::usual());
    talk.result
}

/// Serves the bytes, and puts the answers in the room. Tells how many bytes they have, and what the
/// serving ended with.
fn answer_into<R: AllocGlobal + Net + time::Clock, C: Clock, K: Keeper<RingMachine>>(
    rt: &R,
    input: &[u8],
    room: &mut [u8],
    clock: &mut C,
    book: &mut Book<RingMachine, K>,
    names: HashNames<'_>,
) -> Result<(usize, Result<u32, StreamFault>), ServeFault>
    ensures bound { IfOk result (λ told. told.0 ≤ length room.new) }
    ensures same { length room.new ≡ length room.old }
    ensures served { IfOk result (λ told. OneEnded K.Keeper C.tells names.entry.prefix.now
        names.entry.suffix.now (IsTalk Anyone R.Stream.remaining R.Stream.contents)
        (clock.old, book.old) (clock.new, book.new) (fault_in told.1)) }
    ensures failed { IfErr result (λ fault. (fault ≡ NetFailed)
        × OneServedOrNone K.Keeper C.tells names.entry.prefix.now names.entry.suffix.now
        (IsTalk Anyone R.Stream.remaining R.Stream.contents)
        (clock.old, book.old) (clock.new, book.new)) }
    ensures safe { K.sound book.new.keeper → IsSafeRun book.old.machine.limits
        (K.content book.old.keeper) (K.content book.new.keeper) }
{
    let Loop { mut client, served } = join(rt, input)?;
    let result = serve_capped(rt.alloc(), rt, served, clock, book, names);
    let count = fill_within(&mut client, rt, Patience::usual().between, room)?;
    Ok((count, result))
}

/// Writes all of a text of 32768 bytes at most, and flushes the writer. Where that fails, a
/// beginning of it was written.
fn write_few<W: Write>(writer: &mut CountedWriter<W>, text: &[u8]) -> Result<(), StreamFault>
    requires { length text.now ≤ most_looped }
    ensures few { (answers : List ℕ) × (length answers ≤ most_looped)
        × Appends (W.contents (writer_of writer.old)) (W.contents (writer_of writer.new)) answers }
    ensures fault { IfErr result (λ fault. fault ≡ WriteFailed) }
    ensures cause { Counts (write_faults writer.old) (write_faults writer.new) result }
    ensures flushed { OnOk result (IsFlushed writer.new) }
{
    write_text(writer, text)
}

/// Serves these bytes by way of a socket of 127.0.0.1, and writes the answers.
///
/// The program connects to a port of its own, sends the bytes and ends its sending side; it
/// accepts, serves, reads away what was left unread, and closes; then it reads the answers and
/// writes them.
/// All this takes place in one thread, so that both the bytes and the answers have to fit the
/// machine's socket buffers. 32768 bytes do.
///
/// `NetFailed` says that the machine's sockets failed: a port, the connection, or bytes that had no
/// room. A fault of the stream that is served comes once the answers so far are written. Answers
/// past 32768 bytes end the stream with `WriteFailed`; so does a failed write of the answers.
/// `NoMemory` comes before anything was done, or from the stream.
pub fn loop_over<R: AllocGlobal + Net + time::Clock, W: Write, C: Clock, K: Keeper<RingMachine>>(
    rt: &R,
    input: &[u8],
    writer: &mut CountedWriter<W>,
    clock: &mut C,
    book: &mut Book<RingMachine, K>,
    names: HashNames<'_>,
) -> Result<(), ServeFault>
    ensures served { OnOk result (OneEnded K.Keeper C.tells names.entry.prefix.now
        names.entry.suffix.now (IsTalk Anyone R.Stream.remaining R.Stream.contents)
        (clock.old, book.old) (clock.new, book.new) None) }
    ensures failed { IfErr result (LoopFails K.Keeper C.tells names.entry.prefix.now
        names.entry.suffix.now (IsTalk Anyone R.Stream.remaining R.Stream.contents)
        (clock.old, book.old) (clock.new, book.new) (write_faults writer.old)
        (write_faults writer.new)) }
    ensures few { (answers : List ℕ) × (length answers ≤ most_looped)
        × Appends (W.contents (writer_of writer.old)) (W.contents (writer_of writer.new)) answers }
    ensures ok { OnOk result (write_faults writer.new ≡ write_faults writer.old) }
    ensures flushed { OnOk result (IsFlushed writer.new) }
    ensures safe { K.sound book.new.keeper → IsSafeRun book.old.machine.limits
        (K.content book.old.keeper) (K.content book.new.keeper) }
{
    let mut room = vec![in rt.alloc(); 0u8; MOST_LOOPED]?;
    let (count, result) = answer_into(rt, input, &mut room, clock, book, names)?;
    write_few(writer, &room[..count])?;
    result?;
    Ok(())
}
