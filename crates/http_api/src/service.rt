//! The service.
ghost use Rattle.std.specs.Prelude.{IfErr, IfOk};
ghost use Rattle.builder.specs.Safety.{IsSafeRun};
ghost use Rattle.byte_streams.specs.Counted.{FailsWithCause, LeavesFlushed};
ghost use Rattle.http_api.specs.Http.{IsFaultAnswer};
ghost use Rattle.http_api.specs.Inner.Telling.{DeliversAt, IsImportTold, IsMessageTold};
ghost use Rattle.http_api.specs.Served.{ServesHttp};
ghost use Rattle.http_api.specs.Sites.{site_names};
ghost use Rattle.http_api.specs.Inner.Answering.{HttpAnswers, HttpLoses};
ghost use Rattle.http_messages.specs.declared.audience.Audience.TheVariants.{Anyone};
ghost use Rattle.http_stream.specs.Serving.{RequestsServedOn, RequestsStoppedOn};
ghost use Rattle.ring_book.specs.Book.{Asked, Made};

use crate::answers::{shown_answer, told_answer, told_csv};
use crate::clock::Clock;
use crate::reads::{ReadWay, answer_read};
use crate::site::Site;
use builder::{MessageFault, RingMachine, Told, read_delivery};
use byte_streams::{CountedReader, CountedWriter, StreamFault, WholeReader};
use csv_import::{CsvFault, read_rows};
use http_messages::{Audience, BodyKind, Method, route_fault_text};
use http_routes::{TargetAsk, TargetFault};
use http_stream::{Service, serve_requests};
use path_lookup::HashNames;
use request_book::{Book, Keeper};
use ring_book::deliver;
use ring_page::page;
use ring_words::{Act, Command, Key, RingName, Rows};
use std::alloc::{AllocError, Global};
use std::io::{Read, Write};
use std::marker::PhantomData;

/// Answers requests by a clock and a book of the builder.
#[derive(Drop)]
struct RingService<'s, 'n, K, C> {
    alloc: Global,
    site: &'s Site<'n>,
    kinds: PhantomData<(K, C)>,
}

/// Delivers a command at the hour that the clock tells.
fn deliver_now<K: Keeper<RingMachine>, C: Clock>(
    clock: &mut C,
    book: &mut Book<RingMachine, K>,
    key: Key,
    command: Command,
) -> Told
    ensures { DeliversAt K.Keeper C.tells clock.old clock.new
        book.old book.new key command result }
{
    deliver(book, clock.hour(), key, command)
}

/// Answers a message.
fn answer_message<K: Keeper<RingMachine>, C: Clock>(
    alloc: Global,
    clock: &mut C,
    book: &mut Book<RingMachine, K>,
    body: &[u8],
) -> Result<Told, AllocError>
    ensures { (asked : Asked) × Made K.Keeper book.old book.new asked
        × IsMessageTold C.tells clock.old clock.new body.now asked result }
{
    match read_delivery(alloc, body) {
        Ok((key, command)) => Ok(deliver_now(clock, book, key, command)),
        Err(MessageFault::Bad) => Ok(Told::Unreadable),
        Err(MessageFault::NoMemory) => Err(AllocError),
    }
}

/// Answers an import. A body that is there has no reads that fail.
fn answer_import<K: Keeper<RingMachine>, C: Clock>(
    alloc: Global,
    clock: &mut C,
    book: &mut Book<RingMachine, K>,
    ring: RingName,
    key: Key,
    body: &[u8],
) -> Result<Told, AllocError>
    ensures { (asked : Asked) × Made K.Keeper book.old book.new asked
        × IsImportTold C.tells clock.old clock.new ring key body.now asked result }
{
    match read_rows(alloc, &mut WholeReader::new(body)) {
        Ok(rows) => {
            let act = Act::Import(Rows::new(rows));
            Ok(deliver_now(clock, book, key, Command { ring, act }))
        }
        Err(CsvFault::NoMemory | CsvFault::ReadFailed) => Err(AllocError),
        Err(fault) => Ok(told_csv(fault)),
    }
}

/// Answers a target that asks for nothing.
fn answer_fault(alloc: Global, fault: TargetFault, is_last: bool) -> Result<Vec<u8>, AllocError>
    ensures { IfOk result (λ text. IsFaultAnswer is_last fault text.items) }
{
    match fault {
        TargetFault::Route(fault) => {
            Vec::from_slice(alloc, route_fault_text(fault, is_last).as_bytes())
        }
        TargetFault::Unreadable => told_answer(alloc, &Told::Unreadable, is_last),
        TargetFault::BadPath => told_answer(alloc, &Told::BadPath, is_last),
        TargetFault::NoMemory => Err(AllocError),
    }
}

impl<'s, 'n, K: Keeper<RingMachine>, C: Clock> Service for RingService<'s, 'n, K, C> {
    type Clock = C;

    type State = Book<RingMachine, K>;

    ghost answers = { λ service. HttpAnswers K.Keeper C.tells
        (site_names service.site.now).prefix.now (site_names service.site.now).suffix.now };

    ghost loses = { λ service. HttpLoses K.Keeper C.tells
        (site_names service.site.now).prefix.now (site_names service.site.now).suffix.now };

    fn answer(
        &self,
        clock: &mut C,
        book: &mut Book<RingMachine, K>,
        method: Method,
        target: &[u8],
        body: &[u8],
        is_last: bool,
    ) -> Result<Vec<u8>, AllocError> {
        let alloc = self.alloc;
        let way = ReadWay {
            names: self.site.names(),
            is_last,
        };
        match self.site.read(alloc, method, target) {
            Ok(TargetAsk::Deliver) => {
                let told = answer_message(alloc, clock, book, body)?;
                told_answer(alloc, &told, is_last)
            }
            Ok(TargetAsk::Import(ring, key)) => {
                let told = answer_import(alloc, clock, book, ring, key, body)?;
                told_answer(alloc, &told, is_last)
            }
            Ok(TargetAsk::Read(asked)) => answer_read(alloc, way, &*clock, book, &asked),
            Ok(TargetAsk::Page) => {
                shown_answer(alloc, BodyKind::Html, page().as_bytes(), is_last)
            }
            Err(fault) => answer_fault(alloc, fault, is_last),
        }
    }
}

/// Serves the requests that an audience sends, of a reader on a writer, in order, and tells how many
/// answers it wrote, 4294967295 for more. A request of anyone else is refused by its head, as the
/// last, and nothing of it is done.
///
/// `POST /v1/requests` delivers the message in the body; `POST /v1/import/RING?caller=C&number=N`
/// the rows of the CSV table in the body, as one numbered import. `GET /v1/rings` reads which rings
/// there are, `GET /v1/status` how much is kept, `GET /v1/metrics` the metrics of all,
/// `GET /v1/rings/RING` a whole ring, and with `/devices`, `/balance`, `/nodes?account=A` (perhaps
/// with `&container=C&object=O`), `/text/VERSION`, `/swift/VERSION`, `/preview?seed=S` (perhaps with
/// `&hour=H`) or `/moves?from=V&to=W` behind it something of it. `GET /v1/log` (perhaps with
/// `?from=PLACE` and `most=COUNT`) reads decided requests. Paths are hashed between the names of the
/// site.
///
/// The deliveries are one run of the book, each at the hour that the clock tells then: each number
/// is decided once, in the order of the requests, and every repeat gets its kept reply. A read is
/// answered from what the requests before it left, and changes nothing. What came is answered and
/// flushed before the reader is asked for more.
///
/// After ReadFailed the answers so far were written and flushed, and after WriteFailed a beginning
/// of them was written; what was decided stays decided. NoMemory comes before the first read, and
/// nothing was touched; other want of memory is answered 503. The reader counts one more fault
/// exactly at ReadFailed, and the writer exactly at WriteFailed.
pub fn serve_audience<R: Read, W: Write, C: Clock, K: Keeper<RingMachine>>(
    alloc: Global,
    audience: Audience<'_>,
    reader: &mut CountedReader<R>,
    writer: &mut CountedWriter<W>,
    clock: &mut C,
    book: &mut Book<RingMachine, K>,
    site: &Site<'_>,
) -> Result<u32, StreamFault>
    ensures served { IfOk result (RequestsServedOn audience.entry R.remaining W.contents
        (ServesHttp K.Keeper C.tells (site_names site.now).prefix.now (site_names site.now).suffix.now)
        reader.old writer.old writer.new (clock.old, book.old) (clock.new, book.new)) }
    ensures stopped { IfErr result (RequestsStoppedOn audience.entry R.remaining W.contents
        (ServesHttp K.Keeper C.tells (site_names site.now).prefix.now (site_names site.now).suffix.now)
        reader.old reader.new writer.old writer.new (clock.old, book.old) (clock.new, book.new)) }
    ensures cause { FailsWithCause reader.old reader.new writer.old writer.new result }
    ensures flushed { LeavesFlushed writer.new result }

    // Whatever came of it, few replicas left in each rebalance, those of a moved partition rested,
    // and valid rings stayed valid.
    ensures safe { K.sound book.new.keeper
        → IsSafeRun book.old.machine.limits (K.content book.old.keeper) (K.content book.new.keeper) }
{
    let service = RingService {
        alloc,
        site,
        kinds: PhantomData::<(K, C)>,
    };
    serve_requests(alloc, audience, reader, writer, &service, clock, book)
}

/// Serves the requests of a reader on a writer, whoever sent them, as `serve_audience` does.
pub fn serve_stream<R: Read, W: Write, C: Clock, K: Keeper<RingMachine>>(
    alloc: Global,
    reader: &mut CountedReader<R>,
    writer: &mut CountedWriter<W>,
    clock: &mut C,
    book: &mut Book<RingMachine, K>,
    names: HashNames<'_>,
) -> Result<u32, StreamFault>
    ensures served { IfOk result (RequestsServedOn Anyone R.remaining W.contents
        (ServesHttp K.Keeper C.tells names.entry.prefix.now names.entry.suffix.now)
        reader.old writer.old writer.new (clock.old, book.old) (clock.new, book.new)) }
    ensures stopped { IfErr result (RequestsStoppedOn Anyone R.remaining W.contents
        (ServesHttp K.Keeper C.tells names.entry.prefix.now names.entry.suffix.now)
        reader.old reader.new writer.old writer.new (clock.old, book.old) (clock.new, book.new)) }
    ensures cause { FailsWithCause reader.old reader.new writer.old writer.new result }
    ensures flushed { LeavesFlushed writer.new result }

    // Whatever came of it, few replicas left in each rebalance, and those of a moved partition
    // rested.
    ensures safe { K.sound book.new.keeper
        → IsSafeRun book.old.machine.limits (K.content book.old.keeper) (K.content book.new.keeper) }
{
    let site = Site::new(alloc, names);
    serve_audience(alloc, Audience::Anyone, reader, writer, clock, book, &site)
}
