//! Connections are served, one after another.
ghost use Rattle.std.specs.Prelude.{◌≡◌, ◌+◌, ◌^◌, ◌<◌, IfErr, IfOk, MatchResult};
ghost use Rattle.builder.specs.Safety.{IsSafeRun};
ghost use Rattle.byte_streams.specs.Counted.{Counts};
ghost use Rattle.http_api.specs.Served.{ServesHttp};
ghost use Rattle.http_api.specs.Sites.{site_names};
ghost use Rattle.http_sockets.specs.Connections.{IsTalk, OneServed, PortFailed, PortServed};
ghost use Rattle.http_sockets.specs.Connections.{ServedUntil, ServedUpTo};
ghost use Rattle.http_sockets.specs.Inner.Stopping.{ServesEnds, StopsServing};
ghost use Rattle.http_sockets.specs.Listening.{AcceptsNone, AcceptsOne, accepted_count, net_faults};
ghost use Rattle.http_sockets.specs.declared.fault.ServeFault.TheVariants.{NetFailed};
ghost use Rattle.http_messages.specs.declared.audience.Audience.TheVariants.{Anyone};
ghost use Rattle.http_stream.specs.Serving.{RequestsServed};

use crate::doors::{Door, Ends, Ports};
use crate::fault::{ServeFault, ServiceEnd};
use crate::server::Server;
use builder::RingMachine;
use byte_streams::{CountedReader, CountedWriter, StreamFault};
use http_api::{Clock, Site, serve_audience};
use http_messages::Audience;
use path_lookup::HashNames;
use request_book::{Book, Keeper};
use ring_words::Port;
use std::alloc::Global;
use std::io::{Read, Write};
use std::net::{Net, OpenStream, Shutdown};
use std::time;
use timed_streams::{Desk, Pace, Patience, TimedReader, TimedWriter, read_away};

/// What a stream was served to: how that ended, and both ends as they were left.
#[derive(Drop)]
pub(crate) struct Conversation<S, W> {
    pub(crate) result: Result<u32, StreamFault>,
    pub(crate) stream: S,
    pub(crate) writer: W,
}

/// Serves what an audience sends on a stream, and gives it back.
pub(crate) fn converse<
    S: Read + OpenStream + Drop,
    D: Desk,
    W: Write + Drop,
    C: Clock,
    K: Keeper<RingMachine>,
>(
    alloc: Global,
    audience: Audience<'_>,
    reader: TimedReader<'_, S, D>,
    writer: W,
    clock: &mut C,
    book: &mut Book<RingMachine, K>,
    site: &Site<'_>,
) -> Conversation<S, W>
    ensures served { IfOk result.result (RequestsServed audience.entry
        (ServesHttp K.Keeper C.tells (site_names site.now).prefix.now (site_names site.now).suffix.now)
        (S.remaining reader.entry.stream) (W.contents writer) (W.contents result.writer)
        (clock.old, book.old) (clock.new, book.new)) }
    ensures stopped { IfErr result.result (StopsServing audience.entry K.Keeper C.tells
        (site_names site.now).prefix.now (site_names site.now).suffix.now (S.remaining reader.entry.stream)
        (S.remaining result.stream) (W.contents writer) (W.contents result.writer)
        (clock.old, book.old) (clock.new, book.new)) }
{
    let mut reader = CountedReader::new(reader);
    let mut writer = CountedWriter::new(writer);
    let result = serve_audience(alloc, audience, &mut reader, &mut writer, clock, book, site);
    Conversation {
        result,
        stream: reader.into_inner().into_inner(),
        writer: writer.into_inner(),
    }
}

/// Ends a stream whose answers are out: tells the peer that no more comes, and reads away what it
/// still sends, so that answers which it has not read yet are not lost by a reset.
pub(crate) fn close<S: Read + OpenStream + Drop, T: time::Clock>(
    mut stream: S,
    time: &T,
    patience: Patience,
) {
    let _ = stream.shutdown(Shutdown::Write);
    read_away(&mut stream, time, patience.after);
}

/// Serves one connection to its end.
fn serve_one<D: Door, C: Clock, K: Keeper<RingMachine>>(
    door: &D,
    audience: Audience<'_>,
    ends: Ends<D::Stream>,
    clock: &mut C,
    book: &mut Book<RingMachine, K>,
    site: &Site<'_>,
)
    ensures { ServesEnds audience.entry K.Keeper C.tells (site_names site.now).prefix.now
        (site_names site.now).suffix.now D.Stream.remaining D.Stream.contents ends.reader ends.writer
        (clock.old, book.old) (clock.new, book.new) }
{
    // Answers that are written are sent at once. Where the machine can't, they come later.
    let _ = ends.reader.set_nodelay(true);
    let pace = Pace::new(door, door.patience());
    let reader = TimedReader::new(ends.reader, &pace);
    let writer = TimedWriter::new(ends.writer, &pace);
    let talk = converse(door.alloc(), audience, reader, writer, clock, book, site);
    if talk.result.is_ok() || pace.is_over() {
        close(talk.stream, door, door.patience());
    }
}

/// Serves so many connections, one after another: what an audience sends on them. Their routes are
/// made once.
///
/// A stream's fault ends its connection alone, and the next one is served; what ends by time is
/// a fault. `NetFailed` says that no connection came any more.
pub fn serve<D: Door, C: Clock, K: Keeper<RingMachine>>(
    door: &mut D,
    audience: Audience<'_>,
    count: u16,
    clock: &mut C,
    book: &mut Book<RingMachine, K>,
    names: HashNames<'_>,
) -> Result<(), ServeFault>
    ensures served { ServedUpTo K.Keeper C.tells names.entry.prefix.now names.entry.suffix.now
        (IsTalk audience.entry D.Stream.remaining D.Stream.contents) D.gives D.fails count door.old
        door.new (clock.old, book.old) (clock.new, book.new) result }
    ensures safe { K.sound book.new.keeper → IsSafeRun book.old.machine.limits
        (K.content book.old.keeper) (K.content book.new.keeper) }
{
    let site = Site::new(door.alloc(), names);
    let mut served = 0;
    while served < count {
        let ends = door.accept()?;
        serve_one(&*door, audience, ends, clock, book, &site);
        served += 1;
    }
    Ok(())
}

/// Serves connections, one after another, until the book is closed, no connection comes any more,
/// or 2^64 - 1 were served, and tells which it was.
///
/// The book is closed once its store has failed in a delivery or a read, which was answered 24. The
/// connection that asked for it is served to its end.
pub fn serve_on<D: Door, C: Clock, K: Keeper<RingMachine>>(
    door: &mut D,
    audience: Audience<'_>,
    clock: &mut C,
    book: &mut Book<RingMachine, K>,
    names: HashNames<'_>,
) -> ServiceEnd
    requires { K.fault_count book.old.keeper ≡ 0 }
    ensures served { ServedUntil K.Keeper C.tells names.entry.prefix.now names.entry.suffix.now
        (IsTalk audience.entry D.Stream.remaining D.Stream.contents) D.gives D.fails door.old
        door.new (clock.old, book.old) (clock.new, book.new) result }
    ensures safe { K.sound book.new.keeper → IsSafeRun book.old.machine.limits
        (K.content book.old.keeper) (K.content book.new.keeper) }
{
    let site = Site::new(door.alloc(), names);
    let mut served = 0u64;
    while served < u64::MAX {
        let Ok(ends) = door.accept() else {
            return ServiceEnd::NetFailed;
        };
        serve_one(&*door, audience, ends, clock, book, &site);
        served += 1;
        if book.is_closed() {
            return ServiceEnd::StoreFailed;
        }
    }
    ServiceEnd::AllServed
}

impl<'a, R: AllocGlobal + Net + time::Clock> Server<'a, R> {
    /// Serves so many connections, one after another, as `serve` does. It counts each connection,
    /// and one more fault exactly where none came any more.
    pub fn serve<C: Clock, K: Keeper<RingMachine>>(
        &mut self,
        audience: Audience<'_>,
        count: u16,
        clock: &mut C,
        book: &mut Book<RingMachine, K>,
        names: HashNames<'_>,
    ) -> Result<(), ServeFault>
        ensures served { ServedUpTo K.Keeper C.tells names.entry.prefix.now names.entry.suffix.now
            (IsTalk audience.entry R.Stream.remaining R.Stream.contents)
            (λ old _ _ new. AcceptsOne old new) AcceptsNone count self.old self.new
            (clock.old, book.old) (clock.new, book.new) result }
        ensures accepted { accepted_count self.old + count < 2 ^ 64 → MatchResult result
            (λ _. accepted_count self.new ≡ accepted_count self.old + count)
            (λ _. accepted_count self.new < accepted_count self.old + count) }
        ensures cause { Counts (net_faults self.old) (net_faults self.new) result }
        ensures safe { K.sound book.new.keeper → IsSafeRun book.old.machine.limits
            (K.content book.old.keeper) (K.content book.new.keeper) }
    {
        serve(self, audience, count, clock, book, names)
    }
}

/// Serves so many connections of a port, one after another, whoever sends on them. `NetFailed` says
/// that the port can't be had, or that no connection came any more.
pub fn serve_connections<P: Ports, C: Clock, K: Keeper<RingMachine>>(
    ports: P,
    port: Port,
    count: u16,
    clock: &mut C,
    book: &mut Book<RingMachine, K>,
    names: HashNames<'_>,
) -> Result<(), ServeFault>
    ensures served { IfOk result (λ _. PortServed K.Keeper C.tells names.entry.prefix.now
        names.entry.suffix.now (IsTalk Anyone P.Door.Stream.remaining P.Door.Stream.contents)
        P.Door.gives P.Door.fails P.opens port count (clock.old, book.old) (clock.new, book.new)) }
    ensures failed { IfErr result (λ fault. (fault ≡ NetFailed) × PortFailed K.Keeper C.tells
        names.entry.prefix.now names.entry.suffix.now
        (IsTalk Anyone P.Door.Stream.remaining P.Door.Stream.contents) P.Door.gives P.Door.fails
        P.opens P.shuts port count (clock.old, book.old) (clock.new, book.new)) }
    ensures safe { K.sound book.new.keeper → IsSafeRun book.old.machine.limits
        (K.content book.old.keeper) (K.content book.new.keeper) }
{
    let mut door = ports.open(port)?;
    serve(&mut door, Audience::Anyone, count, clock, book, names)
}
