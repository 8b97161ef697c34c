//! The program `run`: numbered requests and questions, one a line.
ghost use Rattle.std.specs.Prelude.{◌≡◌, IfErr, OnOk};
ghost use Rattle.programs.specs.Begun.{IsAny, IsClosed, IsNew, OpensOne};
ghost use Rattle.programs.specs.Running.{AnswersLines, StopsLines, FailsLines};
ghost use Rattle.programs.specs.Left.{Closes, RefusesToOpen};

use crate::book::open_book;
use crate::dropping::{close_store, open_store};
use builder::RingMachine;
use byte_streams::{CountedReader, CountedWriter, StreamFault};
use line_api::run_lines;
use program_stores::{ProgramFault, Stores};
use request_book::{Keeper, MemKeeper};
use ring_model::Rings;
use ring_words::{Command, Limits, Reply};
use std::alloc::Global;
use std::io::{Read, Write};

/// Keeps rings and requests in memory.
pub type MemoryKeeper = MemKeeper<Rings, Command, Reply>;

/// Answers the lines of a reader over what a keeper holds, and gives the keeper back.
fn answer_lines<R: Read, W: Write, K: Keeper<RingMachine>>(
    alloc: Global,
    keeper: K,
    reader: &mut CountedReader<R>,
    writer: &mut CountedWriter<W>,
) -> (Result<(), StreamFault>, K)
    requires { K.fault_count keeper ≡ 0 }
    ensures answered { OnOk result.0 (AnswersLines K.Keeper
        (λ k. k ≡ keeper) (λ k. k ≡ result.1) R.remaining W.contents reader.old reader.new writer.old writer.new) }
    ensures stopped { IfErr result.0 (StopsLines K.Keeper
        (λ k. k ≡ keeper) (λ k. k ≡ result.1) R.remaining W.contents reader.old reader.new writer.old writer.new) }
{
    let mut book = open_book(alloc, keeper);
    let answered = run_lines(alloc, reader, writer, &mut book);
    let keeper = book.into_keeper();
    match answered {
        Ok(_) => (Ok(()), keeper),
        Err(fault) => (Err(fault), keeper),
    }
}

/// A keeper of no rings, in memory.
fn new_keeper(alloc: Global) -> MemoryKeeper
    ensures new { IsNew ⟦<MemoryKeeper as Keeper<RingMachine>>⟧ result }
    ensures faults { ⟦<MemoryKeeper as Keeper<RingMachine>>⟧.fault_count result ≡ 0 }
{
    MemKeeper::new(alloc, Rings::new(alloc), Limits::full())
}

/// Answers the lines of a reader from no rings, over memory.
pub(crate) fn run_over_memory<R: Read, W: Write>(
    alloc: Global,
    reader: &mut CountedReader<R>,
    writer: &mut CountedWriter<W>,
) -> Result<(), StreamFault>
    ensures answered { OnOk result (AnswersLines ⟦<MemoryKeeper as Keeper<RingMachine>>⟧
        (IsNew ⟦<MemoryKeeper as Keeper<RingMachine>>⟧) IsAny R.remaining W.contents
        reader.old reader.new writer.old writer.new) }
    ensures stopped { IfErr result (StopsLines ⟦<MemoryKeeper as Keeper<RingMachine>>⟧
        (IsNew ⟦<MemoryKeeper as Keeper<RingMachine>>⟧) IsAny R.remaining W.contents
        reader.old reader.new writer.old writer.new) }
{
    let (answered, _) = answer_lines(alloc, new_keeper(alloc), reader, writer);
    answered
}

/// Answers the lines of a reader over a store, and closes it.
pub(crate) fn run_over_store<S: Stores, R: Read, W: Write>(
    rt: &HostRuntime,
    file: &str,
    reader: &mut CountedReader<R>,
    writer: &mut CountedWriter<W>,
    stores: &mut S,
) -> Result<(), ProgramFault>
    ensures opened { OpensOne (S.openings stores.old) (S.openings stores.new) }
    ensures answered { OnOk result (AnswersLines S.Kept.Keeper (S.begins file.now) (IsClosed (Closes
        S.Stores)) R.remaining W.contents reader.old reader.new writer.old writer.new) }
    ensures failed { IfErr result (FailsLines S.Kept.Keeper (S.begins file.now) (Closes S.Stores)
        R.remaining W.contents reader.old reader.new writer.old writer.new (RefusesToOpen S.Stores
        file.now)) }
{
    let keeper = open_store(rt, file, stores)?;
    let (answered, keeper) = answer_lines(rt.alloc(), keeper, reader, writer);
    let closed = close_store::<S>(keeper);
    answered?;
    closed
}
