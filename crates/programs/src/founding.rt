//! The program `found`: a new store of rings that hold data already, as they stand.
ghost use Rattle.std.specs.Prelude.{◌≡◌, ◌∷◌, [], ℕ, IfErr, IfOk, OnOk, string_bytes};
ghost use Rattle.programs.specs.Begun.{OpensOne};
ghost use Rattle.programs.specs.Founding.{HoldRings, stop_line};
ghost use Rattle.programs.specs.Inner.Founding.{FoundsOver, FailsOverFound, FailsTellingNoRing};
ghost use Rattle.programs.specs.Inner.Founding.{FailsTellingNoRings, FailsTellingToFound};
ghost use Rattle.programs.specs.Left.{Closes, FailsToMake, GivesNoText, GivesText, MakesStore};
ghost use Rattle.programs.specs.Left.{RefusesToOpen};
ghost use Rattle.programs.specs.Performed.{OpensFounded, texts_given};
ghost use Rattle.programs.specs.Founding.{FailsBeside, Founds, FoundsBeside, IsMissing};
ghost use Rattle.programs.specs.Founding.{IsThere};
ghost use Rattle.ring_text.specs.Stops.{IsStop};

use crate::dropping::{make_store, read_text};
use crate::faults::tell_text;
use crate::hours::hour_of;
use crate::renewing::read_store;
use byte_streams::CountedWriter;
use program_stores::{ProgramFault, Stores};
use ring_founding::{Terms, found_rings};
use ring_model::Rings;
use ring_text::{Snapshot, read_ring, stop_line};
use ring_words::{Hour, SpellingFault};
use std::alloc::{AllocError, Global};
use std::io::Write;

/// How many bytes the text of a ring has at most.
const LONGEST_RING_TEXT: u32 = 1_048_576;

/// What is to be founded.
#[derive(Clone, Copy)]
pub(crate) struct FoundAsk<'a> {
    /// The file of the new store.
    pub new: &'a str,
    /// The files of the rings' texts.
    pub texts: &'a [&'a str],
    /// For how many hours a partition that was moved stays where it is.
    pub min_hours: u16,
    /// The hour at which each partition counts as moved, or that of the machine's clock.
    pub hour: Option<Hour>,
    /// The file of a store whose rings are taken over too.
    pub from: Option<&'a str>,
}

/// The line that tells where the text in a file stops being that of a ring.
fn stop_text(alloc: Global, name: &str, at: u32) -> Result<String, AllocError>
    ensures { IfOk result (λ line. string_bytes line ≡ stop_line name.now at) }
{
    format!(in alloc;
        "ringd: {name}: line {at} is missing, or not what the text of a ring has there\n"
    )
}

/// That line for such a text.
fn line_of_stop(alloc: Global, name: &str, text: &[u8]) -> Result<String, AllocError>
    ensures { IfOk result (λ line. (at : ℕ) × IsStop text.now at
        × (string_bytes line ≡ stop_line name.now at)) }
{
    let at = stop_line(alloc, text)?;
    stop_text(alloc, name, at)
}

/// The ring that the text in a file tells.
fn read_snapshot<S: Stores, E: Write>(
    rt: &HostRuntime,
    name: &str,
    errors: &mut CountedWriter<E>,
) -> Result<Snapshot, ProgramFault>
    ensures held { IfOk result (λ snapshot. HoldRings (GivesText S.Stores) (name.now ∷ [])
        (snapshot ∷ [])) }
    ensures untold { OnOk result (errors.new ≡ errors.old) }
    ensures failed { IfErr result (FailsTellingNoRing (GivesText S.Stores) (GivesNoText S.Stores)
        E.contents errors.old errors.new name.now) }
{
    let text = read_text::<S>(rt, name, LONGEST_RING_TEXT)?;
    match read_ring(rt.alloc(), &text) {
        Ok(snapshot) => Ok(snapshot),
        Err(SpellingFault::NoMemory) => Err(ProgramFault::NoMemory),
        Err(SpellingFault::Bad) => {
            let line = line_of_stop(rt.alloc(), name, &text)?;
            tell_text(errors, &line);
            Err(ProgramFault::BadText)
        }
    }
}

/// The rings that the texts in files tell.
fn read_snapshots<S: Stores, E: Write>(
    rt: &HostRuntime,
    names: &[&str],
    errors: &mut CountedWriter<E>,
) -> Result<Vec<Snapshot>, ProgramFault>
    ensures held { IfOk result (λ snapshots. HoldRings (GivesText S.Stores) (texts_given names.now)
        snapshots.items) }
    ensures untold { OnOk result (errors.new ≡ errors.old) }
    ensures failed { IfErr result (FailsTellingNoRings (GivesText S.Stores) (GivesNoText S.Stores)
        E.contents errors.old errors.new (texts_given names.now)) }
{
    let mut snapshots = Vec::new(rt.alloc());
    for name in names {
        let snapshot = read_snapshot::<S, E>(rt, name, errors)?;
        match snapshots.push(snapshot) {
            Ok(()) => {}
            Err(_) => return Err(ProgramFault::NoMemory),
        }
    }
    Ok(snapshots)
}

/// Makes the store `new`, where there is none, of rings and of founded ones beside them. It goes on
/// from the greater of two hours.
fn make_founded<S: Stores>(
    rt: &HostRuntime,
    new: &str,
    terms: Terms,
    found: (Rings, Hour),
    snapshots: &[Snapshot],
    stores: &mut S,
) -> Result<(), ProgramFault>
    ensures founded { OnOk result (FoundsOver terms snapshots.now (MakesStore S.Stores new.now)
        found.0 found.1 × OpensOne (S.openings stores.old) (S.openings stores.new)) }
    ensures failed { IfErr result (FailsOverFound terms snapshots.now (FailsToMake S.Stores new.now)
        (S.openings stores.old) (S.openings stores.new) found.0 found.1) }
{
    let (rings, hour) = found;
    let founded = found_rings(rt.alloc(), terms, rings, snapshots)?;
    make_store(rt, new, founded, hour.max(terms.hour), stores)
}

/// Makes the store `new` of founded rings, and of those of another store, if one is given.
fn found_beside<S: Stores>(
    rt: &HostRuntime,
    ask: &FoundAsk<'_>,
    terms: Terms,
    snapshots: &[Snapshot],
    stores: &mut S,
) -> Result<(), ProgramFault>
    ensures founded { OnOk result (FoundsBeside S.Kept.Keeper S.begins (Closes S.Stores) terms
        snapshots.now ask.now.from (MakesStore S.Stores ask.now.new.now)
        × OpensFounded (S.openings stores.old) (S.openings stores.new) ask.now.from) }
    ensures failed { IfErr result (FailsBeside S.Kept.Keeper S.begins (Closes S.Stores)
        (RefusesToOpen S.Stores) (FailsToMake S.Stores ask.now.new.now) (S.openings stores.old)
        (S.openings stores.new) terms snapshots.now ask.now.from) }
{
    let found = match ask.from {
        Some(file) => read_store(rt, file, stores)?,
        None => (Rings::new(rt.alloc()), 0),
    };
    make_founded(rt, ask.new, terms, found, snapshots, stores)
}

/// Tells where there is no file of a store that is given.
fn need_file<S: Stores>(rt: &HostRuntime, file: Option<&str>) -> Result<(), ProgramFault>
    ensures there { OnOk result (IsThere (GivesNoText S.Stores) (GivesText S.Stores) file.entry) }
    ensures missing { IfErr result (IsMissing (GivesNoText S.Stores) file.entry) }
{
    let Some(file) = file else {
        return Ok(());
    };
    match read_text::<S>(rt, file, 0) {
        Err(ProgramFault::NoFile) => Err(ProgramFault::NoFile),
        Ok(_) | Err(_) => Ok(()),
    }
}

/// Founds a store: reads the texts of its rings, and makes it of them as they stand. Where a text is
/// that of no ring, the line where it stops is told on `errors`.
pub(crate) fn found_store<S: Stores, E: Write>(
    rt: &HostRuntime,
    ask: &FoundAsk<'_>,
    errors: &mut CountedWriter<E>,
    stores: &mut S,
) -> Result<(), ProgramFault>
    ensures founded { OnOk result (Founds S.Kept.Keeper S.begins (Closes S.Stores)
        (GivesText S.Stores) (texts_given ask.now.texts.now) ask.now.min_hours ask.now.hour
        ask.now.from (MakesStore S.Stores ask.now.new.now)
        × OpensFounded (S.openings stores.old) (S.openings stores.new) ask.now.from
        × IsThere (GivesNoText S.Stores) (GivesText S.Stores) ask.now.from) }
    ensures untold { OnOk result (errors.new ≡ errors.old) }
    ensures failed { IfErr result (FailsTellingToFound S.Kept.Keeper S.begins (Closes S.Stores)
        (GivesText S.Stores) (RefusesToOpen S.Stores) (FailsToMake S.Stores ask.now.new.now)
        (S.openings stores.old) (S.openings stores.new) (GivesNoText S.Stores) E.contents errors.old
        errors.new (texts_given ask.now.texts.now) ask.now.min_hours ask.now.hour ask.now.from) }
{
    let terms = Terms {
        min_hours: ask.min_hours,
        hour: hour_of(rt, ask.hour),
    };
    let snapshots = read_snapshots::<S, E>(rt, ask.texts, errors)?;
    need_file::<S>(rt, ask.from)?;
    found_beside(rt, ask, terms, &snapshots, stores)
}
