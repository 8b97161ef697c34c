//! The program `log`: the decided requests of a store, a line each.
ghost use Rattle.std.specs.Prelude.{◌≡◌, ◌⊎◌, IfErr, IfOk, OnErr, OnOk};
ghost use Rattle.programs.specs.Begun.{HasNotFailed, IsClosedWhole, OpensNone, OpensOne};
ghost use Rattle.programs.specs.Left.{Closes, RefusesToOpen};
ghost use Rattle.programs.specs.Logging.{BeginsAt, BeginsLog, FailsToLog};
ghost use Rattle.programs.specs.Logging.{FailsToLogStore, LogsStore, WritesLog, form_asked};
ghost use Rattle.programs.specs.Inner.Pages.{BreaksPage, BreaksPages, FailsBy, WritesPage};
ghost use Rattle.programs.specs.Inner.Pages.{WritesPages};
ghost use Rattle.programs.specs.Showing.{HasNoPlace, IsFormFault};

use crate::dropping::{close_store, open_store};
use builder::RingMachine;
use byte_streams::{CountedWriter, write_text};
use program_stores::{ProgramFault, Stores};
use request_book::Keeper;
use ring_log::{LogForm, entries_text};
use ring_words::read_number;
use std::alloc::Global;
use std::io::Write;

/// So many entries are read and written at a time.
const PAGE: u32 = 1000;

/// So many pages have all entries whose places have 32 bits.
const PAGES: u32 = 4294968;

/// The place at which a log begins: the one that a word spells, or 0.
fn place_given(from: Option<&str>) -> Result<u32, ProgramFault>
    ensures begins { IfOk result (BeginsAt from.entry) }
    ensures fault { IfErr result (IsFormFault (HasNoPlace from.entry) ⊥) }
{
    match from {
        None => Ok(0),
        Some(word) => Ok(read_number(word, u32::MAX)?),
    }
}

/// The form in which entries are written.
fn form_asked(lines: bool) -> LogForm
    ensures { result ≡ form_asked lines }
{
    if lines {
        LogForm::Deliveries
    } else {
        LogForm::Entries
    }
}

/// Writes a page of entries, those from a place on, and tells whether it isn't full.
fn write_page<W: Write, K: Keeper<RingMachine>>(
    alloc: Global,
    keeper: &mut K,
    form: LogForm,
    place: u32,
    writer: &mut CountedWriter<W>,
) -> Result<bool, ProgramFault>
    requires { K.fault_count keeper.old ≡ 0 }
    ensures written { IfOk result (WritesPage K.Keeper W.contents form place keeper.old keeper.new
        writer.old writer.new) }
    ensures broken { OnErr result (BreaksPage K.Keeper W.contents form place keeper.old keeper.new
        writer.old writer.new) }
    ensures cause { IfErr result (λ why. FailsBy K.Keeper writer.old writer.new why keeper.new) }
    ensures whole { OnOk result (HasNotFailed K.Keeper keeper.new) }
    ensures sound { K.sound keeper.new → K.sound keeper.old }
    ensures content { K.sound keeper.new → K.content keeper.new ≡ K.content keeper.old }
{
    let entries = keeper.entries(alloc, place, PAGE)?;
    let text = entries_text(alloc, form, place, &entries)?;
    write_text(writer, text.as_bytes())?;
    Ok(entries.len() < PAGE as usize)
}

/// Writes all entries from a place on, a page after another.
fn write_pages<W: Write, K: Keeper<RingMachine>>(
    alloc: Global,
    keeper: &mut K,
    form: LogForm,
    from: u32,
    writer: &mut CountedWriter<W>,
) -> Result<(), ProgramFault>
    requires { K.fault_count keeper.old ≡ 0 }
    ensures written { OnOk result (WritesPages K.Keeper W.contents form from keeper.old keeper.new
        writer.old writer.new) }
    ensures broken { OnErr result (BreaksPages K.Keeper W.contents form from keeper.old keeper.new
        writer.old writer.new) }
    ensures cause { IfErr result (λ why. FailsBy K.Keeper writer.old writer.new why keeper.new) }
    ensures whole { OnOk result (HasNotFailed K.Keeper keeper.new) }
    ensures sound { K.sound keeper.new → K.sound keeper.old }
    ensures content { K.sound keeper.new → K.content keeper.new ≡ K.content keeper.old }
{
    for page in 0..PAGES {
        if page * PAGE > u32::MAX - from {
            return Ok(());
        }
        let is_last = write_page(alloc, keeper, form, from + page * PAGE, writer)?;
        if is_last {
            return Ok(());
        }
    }
    Ok(())
}

/// Writes the log of a keeper from a place on, and gives the keeper as it is then.
fn log_kept<W: Write, K: Keeper<RingMachine>>(
    alloc: Global,
    keeper: K,
    form: LogForm,
    from: u32,
    writer: &mut CountedWriter<W>,
) -> (Result<(), ProgramFault>, K)
    requires { K.fault_count keeper ≡ 0 }
    ensures written { OnOk result.0 (WritesLog K.Keeper (λ k. k ≡ keeper) (λ k. k ≡ result.1)
        W.contents writer.old writer.new form from) }
    ensures broken { IfErr result.0 (λ why. FailsBy K.Keeper writer.old writer.new why result.1
        × BeginsLog K.Keeper (λ k. k ≡ keeper) (λ k. k ≡ result.1) W.contents writer.old writer.new
        form from) }
    ensures whole { OnOk result.0 (HasNotFailed K.Keeper result.1) }
{
    let mut keeper = keeper;
    let written = write_pages(alloc, &mut keeper, form, from, writer);
    (written, keeper)
}

/// Writes the log of a store from a place on. The store is closed then.
fn log_store<S: Stores, W: Write>(
    rt: &HostRuntime,
    file: &str,
    form: LogForm,
    from: u32,
    writer: &mut CountedWriter<W>,
    stores: &mut S,
) -> Result<(), ProgramFault>
    ensures opened { OpensOne (S.openings stores.old) (S.openings stores.new) }
    ensures written { OnOk result (WritesLog S.Kept.Keeper (S.begins file.now) (IsClosedWhole
        S.Kept.Keeper (Closes S.Stores)) W.contents writer.old writer.new form from) }
    ensures fault { IfErr result (FailsToLog S.Kept.Keeper (S.begins file.now) (Closes S.Stores)
        W.contents writer.old writer.new (RefusesToOpen S.Stores file.now) form from) }
{
    let keeper = open_store(rt, file, stores)?;
    let (written, keeper) = log_kept(rt.alloc(), keeper, form, from, writer);
    let closed = close_store::<S>(keeper);
    written?;
    closed
}

/// Writes the log of a store from the place that a word gives.
pub(crate) fn write_log<S: Stores, W: Write>(
    rt: &HostRuntime,
    file: &str,
    from: Option<&str>,
    lines: bool,
    writer: &mut CountedWriter<W>,
    stores: &mut S,
) -> Result<(), ProgramFault>
    ensures opened { OnOk result (OpensOne (S.openings stores.old) (S.openings stores.new)) }
    ensures written { OnOk result (LogsStore S.Kept.Keeper (S.begins file.now) (Closes S.Stores)
        W.contents writer.old writer.new from.entry lines) }
    ensures fault { IfErr result (λ why. (IsFormFault (HasNoPlace from.entry) ⊥ why
        × (writer.new ≡ writer.old) × OpensNone (S.openings stores.old) (S.openings stores.new))
        ⊎ (FailsToLogStore S.Kept.Keeper (S.begins file.now) (Closes S.Stores) W.contents
        writer.old writer.new (RefusesToOpen S.Stores file.now) from.entry lines why
        × OpensOne (S.openings stores.old) (S.openings stores.new))) }
{
    let place = place_given(from)?;
    log_store(rt, file, form_asked(lines), place, writer, stores)
}
