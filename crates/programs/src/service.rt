//! The program `service`: what programs send over HTTP is served until something ends it.
ghost use Rattle.std.specs.Prelude.{◌≡◌, IfErr, IfOk, string_bytes};
ghost use Rattle.request_book.specs.Keeper.{HasCause, LeavesOnly};
ghost use Rattle.programs.specs.Begun.{OpensOne};
ghost use Rattle.programs.specs.Inner.Until.{IsServedUntil};
ghost use Rattle.programs.specs.Left.{Closes, RefusesToOpen};
ghost use Rattle.programs.specs.Inner.Tellings.{BeginsTelling, EndsTelling, StopsTelling, TellsNoBegin};
ghost use Rattle.programs.specs.Service.{AreFigures};
ghost use Rattle.programs.specs.Service.{WasAsked, ahead_line, end_fault, held_text};
ghost use Rattle.programs.specs.Service.{is_ahead, is_lasting, may_begin, place_text, serving_line};

use crate::book::open_book;
use crate::dropping::{close_store, open_store};
use crate::faults::{serve_fault, tell_text};
use builder::RingMachine;
use byte_streams::CountedWriter;
use http_api::Clock;
use http_messages::Audience;
use http_sockets::{Door, Ports, ServiceEnd, serve_on};
use path_lookup::HashNames;
use program_stores::{ProgramFault, Stores};
use request_book::{KeepFault, Keeper};
use ring_words::{Hour, MOST_NUMBERS, Port};
use std::alloc::{AllocError, Global};
use std::io::Write;

/// By how many hours the clock may be ahead of the greatest hour that a store keeps.
const MOST_AHEAD: Hour = 24;

/// What a service is asked for.
#[derive(Clone, Copy)]
pub(crate) struct ServiceAsk<'a> {
    /// The file of its store.
    pub file: &'a str,
    /// The port of 127.0.0.1 that it serves.
    pub port: Port,
    /// The names that programs may send to, besides the machine's own.
    pub hosts: &'a [&'a str],
    /// Whether the clock is right, however far it is ahead.
    pub hour_ok: bool,
    /// What is hashed before and after each path.
    pub names: HashNames<'a>,
}

/// What a store holds, in figures.
#[derive(Clone, Copy)]
struct Figures {
    /// How many numbers of callers it keeps.
    numbers: usize,
    /// How many rings it has.
    rings: usize,
    /// The greatest hour that it keeps.
    hour: Hour,
}

/// What a keeper holds, in figures.
fn figures_of<K: Keeper<RingMachine>>(keeper: &mut K) -> Result<Figures, KeepFault>
    requires { K.fault_count keeper.old ≡ 0 }
    ensures figures { IfOk result (λ figures. K.sound keeper.new
        → AreFigures figures (K.content keeper.old)) }
    ensures cause { HasCause (K.fault_count keeper.old) (K.fault_count keeper.new) result }
    ensures sound { K.sound keeper.new → K.sound keeper.old }
    ensures content { K.sound keeper.new → K.content keeper.new ≡ K.content keeper.old }
    ensures limit { K.limit keeper.new ≡ K.limit keeper.old }
    ensures left { K.sound keeper.new → LeavesOnly (K.may_leave keeper.new)
        (K.content keeper.old) }
{
    let hour = keeper.hour()?;
    keeper.load()?;
    Ok(Figures {
        numbers: keeper.count(),
        rings: keeper.state().list().len(),
        hour,
    })
}

/// Whether an hour is too far ahead of the greatest one that a store keeps. One that has decided
/// nothing, and doesn't go on from another's hour, has none to go by.
fn is_ahead(hour: Hour, figures: &Figures) -> bool
    ensures { result ≡ is_ahead hour figures.now }
{
    let has_hour = figures.numbers > 0 || figures.hour > 0;
    has_hour && u64::from(hour) > u64::from(figures.hour) + u64::from(MOST_AHEAD)
}

/// Whether a service begins at this hour.
fn may_begin(ask: &ServiceAsk<'_>, hour: Hour, figures: &Figures) -> bool
    ensures { result ≡ may_begin ask.now hour figures.now }
{
    ask.hour_ok || !is_ahead(hour, figures)
}

/// What a service serves, and where.
fn place_text(alloc: Global, ask: &ServiceAsk<'_>) -> Result<String, AllocError>
    ensures { IfOk result (λ text. string_bytes text ≡ place_text ask.now) }
{
    let file = ask.file;
    let port = ask.port.get();
    format!(in alloc; "{file} on 127.0.0.1:{port}")
}

/// How much a store holds.
fn held_text(alloc: Global, figures: &Figures) -> Result<String, AllocError>
    ensures { IfOk result (λ text. string_bytes text ≡ held_text figures.now) }
{
    let Figures { numbers, rings, .. } = *figures;
    format!(in alloc; "numbers kept: {numbers} of {MOST_NUMBERS}, rings: {rings}")
}

/// The line that tells what a service begins to serve.
fn serving_line(
    alloc: Global,
    ask: &ServiceAsk<'_>,
    figures: &Figures,
) -> Result<String, AllocError>
    ensures { IfOk result (λ line. string_bytes line ≡ serving_line ask.now figures.now) }
{
    let place = place_text(alloc, ask)?;
    let held = held_text(alloc, figures)?;
    format!(in alloc; "ringd: serving {place}, {held}\n")
}

/// The line that tells why a service doesn't begin at this hour.
fn ahead_line(
    alloc: Global,
    ask: &ServiceAsk<'_>,
    hour: Hour,
    figures: &Figures,
) -> Result<String, AllocError>
    ensures { IfOk result (λ line. string_bytes line ≡ ahead_line ask.now hour figures.now) }
{
    let file = ask.file;
    let greatest = figures.hour;
    format!(in alloc;
        "ringd: this machine's clock says hour {hour}, and the greatest hour in {file} is {greatest}; --hour-ok serves all the same\n"
    )
}

/// Begins a service over a keeper: asks it for its figures and the clock for the hour, opens the port,
/// and tells that.
fn begin<P: Ports + Drop, K: Keeper<RingMachine>, C: Clock, E: Write>(
    alloc: Global,
    ports: P,
    ask: &ServiceAsk<'_>,
    keeper: &mut K,
    clock: &mut C,
    errors: &mut CountedWriter<E>,
) -> Result<P::Door, ProgramFault>
    requires { K.fault_count keeper.old ≡ 0 }
    ensures begun { IfOk result (λ _. BeginsTelling K.Keeper C.tells ask.now clock.old keeper.old
        keeper.new clock.new E.contents errors.old errors.new) }
    ensures port { IfOk result (P.opens ask.now.port) }
    ensures failed { IfErr result (TellsNoBegin K.Keeper C.tells ask.now clock.old P.shuts keeper.old
        keeper.new E.contents errors.old errors.new) }
    ensures asked { WasAsked K.Keeper keeper.old keeper.new }
{
    let figures = figures_of(keeper)?;
    let hour = clock.hour();
    if !may_begin(ask, hour, &figures) {
        tell_text(errors, &ahead_line(alloc, ask, hour, &figures)?);
        return Err(ProgramFault::ClockAhead);
    }
    let line = serving_line(alloc, ask, &figures)?;
    let door = match ports.open(ask.port) {
        Ok(door) => door,
        Err(fault) => return Err(serve_fault(fault)),
    };
    tell_text(errors, &line);
    Ok(door)
}

/// What the end of a service is told as.
fn end_fault(end: ServiceEnd) -> ProgramFault
    ensures { result ≡ end_fault end }
{
    match end {
        ServiceEnd::StoreFailed => ProgramFault::StoreFault,
        ServiceEnd::NetFailed | ServiceEnd::AllServed => ProgramFault::NetFailed,
    }
}

/// Serves what programs send on the connections of a door over what a keeper holds, until something
/// ends it, and gives the keeper back.
fn serve_door<D: Door, K: Keeper<RingMachine>, C: Clock + Drop>(
    alloc: Global,
    door: D,
    ask: &ServiceAsk<'_>,
    keeper: K,
    clock: C,
) -> (ServiceEnd, K)
    requires { K.fault_count keeper ≡ 0 }
    ensures { IsServedUntil K.Keeper C.tells ask.now keeper result.1 clock D.Stream.remaining
        D.Stream.contents D.gives D.fails door result.0 }
{
    let mut door = door;
    let mut clock = clock;
    let mut book = open_book(alloc, keeper);
    let audience = Audience::Programs(ask.hosts);
    let end = serve_on(&mut door, audience, &mut clock, &mut book, ask.names);
    (end, book.into_keeper())
}

/// Serves programs on a port over what a keeper holds, and gives the keeper back.
fn serve_kept<P: Ports + Drop, K: Keeper<RingMachine>, C: Clock + Drop, E: Write>(
    alloc: Global,
    ports: P,
    ask: &ServiceAsk<'_>,
    keeper: K,
    clock: C,
    errors: &mut CountedWriter<E>,
) -> (ProgramFault, K)
    requires { K.fault_count keeper ≡ 0 }
    ensures { EndsTelling K.Keeper C.tells ask.now clock (λ k. k ≡ keeper) (λ k. k ≡ result.1)
        P.Door.Stream.remaining P.Door.Stream.contents P.Door.gives P.Door.fails P.opens P.shuts
        E.contents errors.old errors.new result.0 }
{
    let mut keeper = keeper;
    let mut clock = clock;
    match begin(alloc, ports, ask, &mut keeper, &mut clock, errors) {
        Ok(door) => {
            let (end, keeper) = serve_door(alloc, door, ask, keeper, clock);
            (end_fault(end), keeper)
        }
        Err(fault) => (fault, keeper),
    }
}

/// Serves programs on a port over a store until something ends it, closes the store, and tells why it
/// ended. Of what was asked for it tells on `errors` when it begins, and why it doesn't by this clock.
pub(crate) fn serve_programs<S: Stores, P: Ports + Drop, C: Clock + Drop, E: Write>(
    rt: &HostRuntime,
    ports: P,
    ask: &ServiceAsk<'_>,
    clock: C,
    errors: &mut CountedWriter<E>,
    stores: &mut S,
) -> ProgramFault
    ensures opened { OpensOne (S.openings stores.old) (S.openings stores.new) }
    ensures stopped { StopsTelling S.Kept.Keeper C.tells (S.begins ask.now.file.now) (Closes S.Stores)
        ask.now clock P.Door.Stream.remaining P.Door.Stream.contents P.Door.gives P.Door.fails P.opens
        P.shuts (RefusesToOpen S.Stores ask.now.file.now) E.contents errors.old errors.new result }
{
    let keeper = match open_store(rt, ask.file, stores) {
        Ok(keeper) => keeper,
        Err(fault) => return fault,
    };
    let (fault, keeper) = serve_kept(rt.alloc(), ports, ask, keeper, clock, errors);
    let _ = close_store::<S>(keeper);
    fault
}

/// Whether a fault stays however often a program is started again.
pub(crate) fn is_lasting(fault: ProgramFault) -> bool
    ensures { result ≡ is_lasting fault }
{
    matches!(
        fault,
        ProgramFault::BadStore
            | ProgramFault::NoFile
            | ProgramFault::NetFailed
            | ProgramFault::ClockAhead
    )
}
