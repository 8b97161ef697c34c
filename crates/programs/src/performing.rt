//! What the program does over three streams.
ghost use Rattle.std.specs.Prelude.{◌≡◌, ◌⊎◌, ◌≤◌, Err, IfErr, IfOk, Ok, OnOk, map};
ghost use Rattle.std.specs.Prelude.{string_bytes};
ghost use Rattle.command_line.specs.Tasks.{AskForNothing};
ghost use Rattle.programs.specs.Begun.{OpensNone, OpensOne};
ghost use Rattle.programs.specs.Performed.{DoesAskedOver, EndsBy, FailsAskedOver, FailsToRun};
ghost use Rattle.programs.specs.Inner.Tellings.{EndsAtOver, EndsOver, FailsOver, FailsTellingOver};
ghost use Rattle.programs.specs.Inner.Tellings.{IsWork, IsTelling};
ghost use Rattle.programs.specs.Performed.{ImportsFile, OpensGiven, Runs, ShowsStore};
ghost use Rattle.programs.specs.Service.{fault_status};
ghost use Rattle.programs.specs.Inner.Asked.{FailsToImportAsked, FailsToShowAsked};
ghost use Rattle.programs.specs.Inner.Showing.{FailsToShowTask, IsShowing, ShowsTask};
ghost use Rattle.programs.specs.declared.performing.Ending.TheVariants.{Done};
ghost use Rattle.programs.specs.Left.{Closes, GivesNoText, GivesText};
ghost use Rattle.programs.specs.Left.{RefusesToOpen};

use crate::faults::tell_fault;
use crate::founding::{FoundAsk, found_store};
use crate::hours::new_clock;
use crate::importing::{ImportAsk, ask_import, import_table};
use crate::lines::{MemoryKeeper, run_over_memory, run_over_store};
use crate::logging::write_log;
use crate::meanings::tell_meaning;
use crate::renewing::renew_store;
use crate::service::{ServiceAsk, is_lasting, serve_programs};
use crate::serving::{loop_file, serve_store};
use crate::showing::{ask_nodes, ask_published, ask_shown, ask_tables, show};
use crate::version::tell_version;
use builder::RingMachine;
use byte_streams::{CountedReader, CountedWriter, write_text};
use command_line::{ArgsFault, Task, task_of};
use path_lookup::HashNames;
use program_stores::{ProgramFault, Stores};
use request_book::Keeper;
use ring_reads::Question;
use ring_words::Hour;
use std::io::{Read, Write};

/// The status of what was done.
const DONE: u16 = 200;

/// The status of a program that failed, or whose import was refused.
const FAILED: u8 = 1;

/// The status of a service that ended by a fault which another start wouldn't mend.
const LASTING: u8 = 3;

/// What is shown without a path hashes none.
const NO_NAMES: HashNames<'static> = HashNames {
    prefix: b"",
    suffix: b"",
};

/// How a task ended that had no fault.
#[derive(Clone, Copy, PartialEq, Eq)]
pub(crate) enum Ending {
    /// It was done.
    Done,
    /// An import was answered with another status than 200.
    Refused,
}

/// Answers the lines of a reader, over a store or over memory.
fn run<S: Stores, R: Read, W: Write>(
    rt: &HostRuntime,
    file: Option<&str>,
    reader: &mut CountedReader<R>,
    writer: &mut CountedWriter<W>,
    stores: &mut S,
) -> Result<(), ProgramFault>
    ensures opened { OpensGiven (S.openings stores.old) (S.openings stores.new) file.entry }
    ensures done { OnOk result (Runs ⟦<MemoryKeeper as Keeper<RingMachine>>⟧ S.Kept.Keeper S.begins
        (Closes S.Stores) R.remaining W.contents reader.old reader.new writer.old writer.new
        file.entry) }
    ensures failed { IfErr result (FailsToRun ⟦<MemoryKeeper as Keeper<RingMachine>>⟧ S.Kept.Keeper
        S.begins (Closes S.Stores) R.remaining W.contents reader.old reader.new writer.old
        writer.new (RefusesToOpen S.Stores) file.entry) }
{
    match file {
        Some(file) => run_over_store(rt, file, reader, writer, stores),
        None => Ok(run_over_memory(rt.alloc(), reader, writer)?),
    }
}

/// Shows what is asked for of a store.
fn show_asked<S: Stores, W: Write>(
    rt: &HostRuntime,
    file: &str,
    asked: Result<Question, ProgramFault>,
    names: HashNames<'_>,
    writer: &mut CountedWriter<W>,
    stores: &mut S,
) -> Result<Ending, ProgramFault>
    ensures done { IfOk result (λ ending. (ending ≡ Done) × ShowsStore S.Kept.Keeper (S.begins
        file.now) (Closes S.Stores) W.contents writer.old writer.new names.entry.prefix.now
        names.entry.suffix.now (λ question. asked ≡ Ok question) × OpensOne (S.openings stores.old)
        (S.openings stores.new)) }
    ensures failed { IfErr result (FailsToShowAsked S.Kept.Keeper (S.begins file.now) (Closes
        S.Stores) W.contents writer.old writer.new (S.openings stores.old) (S.openings stores.new)
        (RefusesToOpen S.Stores file.now) names.entry.prefix.now names.entry.suffix.now asked) }
{
    let question = asked?;
    show(rt, file, names, &question, writer, stores)?;
    Ok(Ending::Done)
}

/// Shows what a task asks to be shown.
fn show_task<S: Stores, W: Write>(
    rt: &HostRuntime,
    task: &Task<'_>,
    writer: &mut CountedWriter<W>,
    stores: &mut S,
) -> Result<Ending, ProgramFault>
    requires { IsShowing task.now }
    ensures done { IfOk result (λ ending. (ending ≡ Done)
        × ShowsTask S.Kept.Keeper S.begins (Closes S.Stores) W.contents writer.old writer.new
        (S.openings stores.old) (S.openings stores.new) task.now) }
    ensures failed { IfErr result (FailsToShowTask S.Kept.Keeper S.begins (Closes S.Stores)
        W.contents writer.old writer.new (S.openings stores.old) (S.openings stores.new)
        (RefusesToOpen S.Stores) task.now) }
{
    let alloc = rt.alloc();
    match task {
        Task::Table { file, ring } => {
            show_asked(
                rt,
                *file,
                ask_tables(alloc, *ring),
                NO_NAMES,
                writer,
                stores,
            )
        }
        Task::Show { file, what } => {
            let asked = ask_shown(alloc, *what);
            show_asked(rt, *file, asked, NO_NAMES, writer, stores)
        }
        Task::Nodes {
            file,
            ring,
            account,
            container,
            object,
            names,
        } => {
            let asked = ask_nodes(alloc, *ring, *account, *container, *object);
            show_asked(rt, *file, asked, *names, writer, stores)
        }
        Task::Export {
            file,
            ring,
            version,
            format,
        } => {
            let asked = ask_published(alloc, *ring, *version, *format);
            show_asked(rt, *file, asked, NO_NAMES, writer, stores)
        }
        _ => unreachable!(),
    }
}

/// Imports the table in a CSV file into a ring of a store.
fn import<S: Stores, W: Write>(
    rt: &HostRuntime,
    file: &str,
    csv: &str,
    asked: Result<ImportAsk, ProgramFault>,
    given: Option<Hour>,
    writer: &mut CountedWriter<W>,
    stores: &mut S,
) -> Result<Ending, ProgramFault>
    ensures ended { IfOk result (λ ending. ImportsFile S.Kept.Keeper (S.begins file.now) (Closes
        S.Stores) W.contents writer.old writer.new (GivesText S.Stores csv.now) (GivesNoText
        S.Stores csv.now) (S.openings stores.old) (S.openings stores.new) (λ ask. asked ≡ Ok ask)
        given (EndsBy ending)) }
    ensures failed { IfErr result (FailsToImportAsked S.Kept.Keeper (S.begins file.now) (Closes
        S.Stores) W.contents writer.old writer.new (S.openings stores.old) (S.openings stores.new)
        (GivesText S.Stores csv.now) (GivesNoText S.Stores csv.now) (RefusesToOpen S.Stores
        file.now) asked given) }
{
    let ask = asked?;
    if import_table(rt, file, csv, ask, given, writer, stores)? == DONE {
        Ok(Ending::Done)
    } else {
        Ok(Ending::Refused)
    }
}

/// Does a task that shows nothing of a store, imports no table, and tells nothing on its way.
fn do_work<S: Stores, R: Read, W: Write>(
    rt: &HostRuntime,
    task: &Task<'_>,
    reader: &mut CountedReader<R>,
    writer: &mut CountedWriter<W>,
    stores: &mut S,
) -> Result<(), ProgramFault>
    requires { IsWork task.now }
    ensures done { OnOk result (EndsOver S.Stores S.Kept.Keeper
        ⟦<MemoryKeeper as Keeper<RingMachine>>⟧ stores.old stores.new R.remaining W.contents
        reader.old reader.new writer.old writer.new task.now Done) }
    ensures failed { IfErr result (FailsOver S.Stores S.Kept.Keeper
        ⟦<MemoryKeeper as Keeper<RingMachine>>⟧ stores.old stores.new R.remaining W.contents
        reader.old reader.new writer.old writer.new task.now) }
{
    match task {
        Task::Run { file } => run(rt, *file, reader, writer, stores),
        Task::Serve {
            file,
            port,
            count,
            hour,
            names,
        } => serve_store(rt, rt, *file, *port, *count, *hour, *names, stores),
        Task::Loop {
            file,
            input,
            hour,
            names,
        } => loop_file(rt, *file, *input, *hour, *names, writer, stores),
        Task::Log { file, from, lines } => write_log(rt, *file, *from, *lines, writer, stores),
        Task::Renew { file, new } => renew_store(rt, *file, *new, stores),
        Task::Version => tell_version(writer),
        _ => unreachable!(),
    }
}

/// Does a task that tells nothing on its way.
fn perform_task<S: Stores, R: Read, W: Write>(
    rt: &HostRuntime,
    task: &Task<'_>,
    reader: &mut CountedReader<R>,
    writer: &mut CountedWriter<W>,
    stores: &mut S,
) -> Result<Ending, ProgramFault>
    requires { IsTelling task.now → ⊥ }
    ensures ended { IfOk result (EndsOver S.Stores S.Kept.Keeper
        ⟦<MemoryKeeper as Keeper<RingMachine>>⟧ stores.old stores.new R.remaining W.contents
        reader.old reader.new writer.old writer.new task.now) }
    ensures failed { IfErr result (FailsOver S.Stores S.Kept.Keeper
        ⟦<MemoryKeeper as Keeper<RingMachine>>⟧ stores.old stores.new R.remaining W.contents
        reader.old reader.new writer.old writer.new task.now) }
{
    match task {
        Task::Table { .. } | Task::Show { .. } | Task::Nodes { .. } | Task::Export { .. } => {
            show_task(rt, task, writer, stores)
        }
        Task::Import {
            file,
            ring,
            caller,
            number,
            csv,
            hour,
        } => {
            let asked = ask_import(rt.alloc(), *ring, *caller, *number);
            import(rt, *file, *csv, asked, *hour, writer, stores)
        }
        Task::Service { .. } | Task::Found { .. } => unreachable!(),
        _ => {
            do_work(rt, task, reader, writer, stores)?;
            Ok(Ending::Done)
        }
    }
}

/// Does a task. A service is served until something ends it, and tells what it begins with, or why
/// it doesn't. Founding tells where a text stops being that of a ring.
fn carry_out<S: Stores, R: Read, W: Write, E: Write>(
    rt: &HostRuntime,
    task: &Task<'_>,
    reader: &mut CountedReader<R>,
    writer: &mut CountedWriter<W>,
    errors: &mut CountedWriter<E>,
    stores: &mut S,
) -> Result<Ending, ProgramFault>
    ensures ended { IfOk result (EndsOver S.Stores S.Kept.Keeper
        ⟦<MemoryKeeper as Keeper<RingMachine>>⟧ stores.old stores.new R.remaining W.contents
        reader.old reader.new writer.old writer.new task.now) }
    ensures untold { OnOk result (errors.new ≡ errors.old) }
    ensures failed { IfErr result (FailsTellingOver S.Stores S.Kept.Keeper
        ⟦<MemoryKeeper as Keeper<RingMachine>>⟧ stores.old stores.new R.remaining W.contents
        reader.old reader.new writer.old writer.new E.contents errors.old errors.new task.now) }
{
    if let Task::Service {
        file,
        port,
        hosts,
        hour_ok,
        names,
    } = task
    {
        let ask = ServiceAsk {
            file: *file,
            port: *port,
            hosts: hosts.as_slice(),
            hour_ok: *hour_ok,
            names: *names,
        };
        let clock = new_clock(rt, None);
        return Err(serve_programs(rt, rt, &ask, clock, errors, stores));
    }
    if let Task::Found {
        new,
        texts,
        min_hours,
        hour,
        from,
    } = task
    {
        let ask = FoundAsk {
            new: *new,
            texts: texts.as_slice(),
            min_hours: *min_hours,
            hour: *hour,
            from: *from,
        };
        found_store(rt, &ask, errors, stores)?;
        return Ok(Ending::Done);
    }
    perform_task(rt, task, reader, writer, stores)
}

/// The status of a program that a fault ended.
fn fault_status(task: &Task<'_>, fault: ProgramFault) -> u8
    ensures { result ≡ fault_status task.now fault }
{
    match task {
        Task::Service { .. } => { if is_lasting(fault) { LASTING } else { FAILED } }
        _ => FAILED,
    }
}

/// Does a task, tells the fault that came of it, and answers the exit status.
fn finish<S: Stores, R: Read, W: Write, E: Write>(
    rt: &HostRuntime,
    task: &Task<'_>,
    reader: &mut CountedReader<R>,
    writer: &mut CountedWriter<W>,
    errors: &mut CountedWriter<E>,
    stores: &mut S,
) -> u8
    ensures { EndsAtOver S.Stores S.Kept.Keeper ⟦<MemoryKeeper as Keeper<RingMachine>>⟧ stores.old
        stores.new R.remaining W.contents reader.old reader.new writer.old writer.new E.contents
        errors.old errors.new task.now result }
{
    match carry_out(rt, task, reader, writer, errors, stores) {
        Ok(Ending::Done) => 0,
        Ok(Ending::Refused) => FAILED,
        Err(fault) => {
            tell_fault(errors, fault);
            tell_meaning(errors, task, fault);
            fault_status(task, fault)
        }
    }
}

/// Does what the words ask for over three streams and the stores and files that they name, and
/// answers the exit status: 0 when it is done, 1 after a fault or where an import is refused, 2 where
/// the words ask for nothing, or for help, and 3 where a service ended by a fault that another start
/// wouldn't mend. The first word is the program's own name.
///
/// A fault is told on `errors`, as one line with its name and its number, and behind it in one what it
/// means. A service tells there in one line when it begins, and in one why it doesn't by this clock;
/// founding where a text stops being that of a ring. Nothing else is written there with status 0, 1
/// or 3. With status 2 `clap` tells there what may be written.
pub fn perform<S: Stores, R: Read, W: Write, E: Write>(
    rt: &HostRuntime,
    words: &[String],
    reader: &mut CountedReader<R>,
    writer: &mut CountedWriter<W>,
    errors: &mut CountedWriter<E>,
    stores: &mut S,
) -> u8
    ensures status { result ≤ 3 }
    ensures done { result ≡ 0 → DoesAskedOver S.Stores S.Kept.Keeper
        ⟦<MemoryKeeper as Keeper<RingMachine>>⟧ stores.old stores.new R.remaining W.contents
        reader.old reader.new writer.old writer.new E.contents errors.old errors.new
        (map string_bytes words.now) }
    ensures fault { (result ≡ 1) ⊎ (result ≡ 3) → FailsAskedOver S.Stores S.Kept.Keeper
        ⟦<MemoryKeeper as Keeper<RingMachine>>⟧ stores.old stores.new R.remaining W.contents
        reader.old reader.new writer.old writer.new E.contents errors.old errors.new
        (map string_bytes words.now) result }
    ensures nothing { result ≡ 2 → AskForNothing (map string_bytes words.now)
        × (reader.new ≡ reader.old) × (writer.new ≡ writer.old)
        × OpensNone (S.openings stores.old) (S.openings stores.new) }
{
    match task_of(rt.alloc(), words) {
        Ok(task) => finish(rt, &task, reader, writer, errors, stores),
        Err(ArgsFault::NoMemory) => {
            tell_fault(errors, ProgramFault::NoMemory);
            FAILED
        }
        Err(ArgsFault::Bad(text)) => {
            let _ = write_text(errors, text.as_bytes());
            2
        }
    }
}
