//! The programs `serve` and `loop`: requests of HTTP over sockets of this machine.
ghost use Rattle.std.specs.Prelude.{◌≡◌, MatchResult, IfErr, OnOk};
ghost use Rattle.http_sockets.specs.declared.fault.ServeFault.TheVariants.{NetFailed};
ghost use Rattle.programs.specs.Serving.{FailsToLoop, FailsToLoopInput, FailsToServe, LoopsInput};
ghost use Rattle.programs.specs.Serving.{LoopsOnce, ServesConnections, ServesFewer, StopsLoop};
ghost use Rattle.programs.specs.Begun.{IsClosed, OpensOne};
ghost use Rattle.programs.specs.Left.{Closes, GivesNoText, GivesText, RefusesToOpen};

use crate::book::open_book;
use crate::dropping::{close_store, open_store, read_text};
use crate::faults::serve_fault;
use crate::hours::new_clock;
use builder::RingMachine;
use byte_streams::CountedWriter;
use http_sockets::{MOST_LOOPED, Ports, ServeFault, loop_over, serve_connections};
use path_lookup::HashNames;
use program_stores::{ProgramFault, Stores};
use request_book::Keeper;
use ring_words::{Hour, Port};
use std::io::Write;

/// Serves connections of a port over what a keeper holds, and gives the keeper back.
fn serve_port<P: Ports, K: Keeper<RingMachine>>(
    rt: &HostRuntime,
    ports: P,
    keeper: K,
    port: Port,
    count: u16,
    given: Option<Hour>,
    names: HashNames<'_>,
) -> (Result<(), ServeFault>, K)
    requires { K.fault_count keeper ≡ 0 }
    ensures served { OnOk result.0 (ServesConnections K.Keeper (λ k. k ≡ keeper) (λ k. k ≡ result.1)
        given names.entry P.Door.Stream.remaining P.Door.gives P.Door.fails P.opens port count) }
    ensures failed { IfErr result.0 (λ cause. (cause ≡ NetFailed) × ServesFewer K.Keeper
        (λ k. k ≡ keeper) (λ k. k ≡ result.1) given names.entry P.Door.Stream.remaining P.Door.gives
        P.Door.fails P.opens P.shuts port count) }
{
    let mut book = open_book(rt.alloc(), keeper);
    let mut clock = new_clock(rt, given);
    let served = serve_connections(ports, port, count, &mut clock, &mut book, names);
    (served, book.into_keeper())
}

/// Serves an input by way of a socket over what a keeper holds, writes the answers, and gives the
/// keeper back.
fn loop_input<W: Write, K: Keeper<RingMachine>>(
    rt: &HostRuntime,
    keeper: K,
    input: &[u8],
    given: Option<Hour>,
    names: HashNames<'_>,
    writer: &mut CountedWriter<W>,
) -> (Result<(), ServeFault>, K)
    requires { K.fault_count keeper ≡ 0 }
    ensures { MatchResult result.0
        (λ _. LoopsOnce K.Keeper (λ k. k ≡ keeper) (λ k. k ≡ result.1) given names.entry W.contents writer.old
        writer.new)
        (StopsLoop K.Keeper (λ k. k ≡ keeper) (λ k. k ≡ result.1) given names.entry W.contents writer.old writer.new) }
{
    let mut book = open_book(rt.alloc(), keeper);
    let mut clock = new_clock(rt, given);
    let looped = loop_over(rt, input, writer, &mut clock, &mut book, names);
    (looped, book.into_keeper())
}

/// Serves so many connections of a port, one after another, over a store, and closes it.
pub(crate) fn serve_store<S: Stores, P: Ports + Drop>(
    rt: &HostRuntime,
    ports: P,
    file: &str,
    port: Port,
    count: u16,
    given: Option<Hour>,
    names: HashNames<'_>,
    stores: &mut S,
) -> Result<(), ProgramFault>
    ensures opened { OpensOne (S.openings stores.old) (S.openings stores.new) }
    ensures served { OnOk result (ServesConnections S.Kept.Keeper (S.begins file.now) (IsClosed
        (Closes S.Stores)) given names.entry P.Door.Stream.remaining P.Door.gives P.Door.fails
        P.opens port count) }
    ensures failed { IfErr result (FailsToServe S.Kept.Keeper (S.begins file.now) (Closes S.Stores)
        given names.entry P.Door.Stream.remaining P.Door.gives P.Door.fails P.opens
        (RefusesToOpen S.Stores file.now) P.shuts port count) }
{
    let keeper = open_store(rt, file, stores)?;
    let (served, keeper) = serve_port(rt, ports, keeper, port, count, given, names);
    let closed = close_store::<S>(keeper);
    match served {
        Ok(()) => {}
        Err(fault) => return Err(serve_fault(fault)),
    }
    closed
}

/// Serves an input over a store, and closes it.
fn loop_store<S: Stores, W: Write>(
    rt: &HostRuntime,
    file: &str,
    input: &[u8],
    given: Option<Hour>,
    names: HashNames<'_>,
    writer: &mut CountedWriter<W>,
    stores: &mut S,
) -> Result<(), ProgramFault>
    ensures opened { OpensOne (S.openings stores.old) (S.openings stores.new) }
    ensures looped { OnOk result (LoopsOnce S.Kept.Keeper (S.begins file.now) (IsClosed (Closes
        S.Stores)) given names.entry W.contents writer.old writer.new) }
    ensures failed { IfErr result (FailsToLoop S.Kept.Keeper (S.begins file.now) (Closes S.Stores)
        given names.entry W.contents writer.old writer.new (RefusesToOpen S.Stores file.now)) }
{
    let keeper = open_store(rt, file, stores)?;
    let (looped, keeper) = loop_input(rt, keeper, input, given, names, writer);
    let closed = close_store::<S>(keeper);
    match looped {
        Ok(()) => {}
        Err(fault) => return Err(serve_fault(fault)),
    }
    closed
}

/// Serves the bytes of a file, at most 32,768, as those of one connection over a store, and writes
/// the answers.
pub(crate) fn loop_file<S: Stores, W: Write>(
    rt: &HostRuntime,
    file: &str,
    input: &str,
    given: Option<Hour>,
    names: HashNames<'_>,
    writer: &mut CountedWriter<W>,
    stores: &mut S,
) -> Result<(), ProgramFault>
    ensures opened { OnOk result (OpensOne (S.openings stores.old) (S.openings stores.new)) }
    ensures looped { OnOk result (LoopsInput S.Kept.Keeper (S.begins file.now) (IsClosed (Closes
        S.Stores)) given names.entry W.contents writer.old writer.new (GivesText S.Stores
        input.now)) }
    ensures failed { IfErr result (FailsToLoopInput S.Kept.Keeper (S.begins file.now) (Closes
        S.Stores) given names.entry W.contents writer.old writer.new (RefusesToOpen S.Stores
        file.now) (GivesNoText S.Stores input.now) (S.openings stores.old) (S.openings stores.new)) }
{
    let bytes = read_text::<S>(rt, input, MOST_LOOPED as u32)?;
    loop_store(rt, file, &bytes, given, names, writer, stores)
}
