//! The programs `table`, `show`, `preview`, `moves`, `nodes` and `export`: what is shown of a
//! store.
ghost use Rattle.std.specs.Prelude.{◌≡◌, ◌≢◌, ◌⊎◌, ◌++◌, ◌∷◌, [], ⊤, IfErr, IfOk, OnOk, true};
ghost use Rattle.path_lookup.specs.Names.{is_path};
ghost use Rattle.request_book.specs.declared.keeper.KeepFault.{KeepFault};
ghost use Rattle.program_stores.specs.Faults.{IsStoreFault, keep_fault};
ghost use Rattle.programs.specs.Begun.{HasFailedBy, HasNotFailed, IsClosedWhole};
ghost use Rattle.programs.specs.Begun.{OpensOne};
ghost use Rattle.programs.specs.Showing.{AsksMoves, AsksNodes, AsksPreview, AsksPublished};
ghost use Rattle.programs.specs.Showing.{AsksRing};
ghost use Rattle.programs.specs.Showing.{AsksTables};
ghost use Rattle.programs.specs.Showing.{AsksToShow, FailsToShow, HasNoName, HidesAs, ShowsNothing};
ghost use Rattle.programs.specs.Showing.{IsAsked, IsFormFault, IsNoName, IsNoNumber, ShowsAs};
ghost use Rattle.programs.specs.Serving.{TellsHour};
ghost use Rattle.programs.specs.Showing.{ShowsNow, ShowsRead, named_hour};
ghost use Rattle.programs.specs.Showing.{moves_read, names_given};
ghost use Rattle.programs.specs.Left.{Closes, RefusesToOpen};
ghost use Rattle.ring_book.specs.Book.{holding};
ghost use Rattle.ring_reads.specs.Holding.{holding_of};

use crate::dropping::{close_store, open_store};
use crate::hours::hour_of;
use builder::RingMachine;
use byte_streams::{CountedWriter, write_text};
use command_line::Shown;
use path_lookup::{HashNames, Path, PathFault};
use program_stores::{ProgramFault, Stores};
use request_book::Keeper;
use ring_reads::{Format, Held, Plain, Question, Read, show as show_held};
use ring_words::{Hour, read_name, read_number};
use std::alloc::{AllocError, Global};
use std::io::Write;

/// What `table` shows.
pub(crate) fn ask_tables(alloc: Global, ring: &str) -> Result<Question, ProgramFault>
    ensures asked { IfOk result (AsksTables ring.now) }
    ensures fault { IfErr result (IsFormFault (IsNoName ring.now) ⊥) }
{
    Ok(Question::Ring(read_name(alloc, ring)?, Read::Tables))
}

/// What `show` shows of a ring.
fn ask_ring(alloc: Global, ring: &str, what: Plain) -> Result<Question, ProgramFault>
    ensures asked { IfOk result (AsksRing ring.now what) }
    ensures fault { IfErr result (IsFormFault (IsNoName ring.now) ⊥) }
{
    Ok(Question::Ring(read_name(alloc, ring)?, Read::Plain(what)))
}

/// What `preview` shows of a ring.
fn ask_preview(
    alloc: Global,
    ring: &str,
    seed: u32,
    hour: Option<Hour>,
) -> Result<Question, ProgramFault>
    ensures asked { IfOk result (AsksPreview ring.now seed hour) }
    ensures fault { IfErr result (IsFormFault (IsNoName ring.now) ⊥) }
{
    let preview = Read::Preview(seed, hour.unwrap_or(0));
    Ok(Question::Ring(read_name(alloc, ring)?, preview))
}

/// What is read of what moved between two versions: each seat, or else all in one.
fn moves_read(from: u32, to: u32, each: bool) -> Read
    ensures { result ≡ moves_read from to each }
{
    if each {
        Read::EachMove(from, to)
    } else {
        Read::Moves(from, to)
    }
}

/// What `moves` shows of a ring.
fn ask_moves(
    alloc: Global,
    ring: &str,
    from: &str,
    to: &str,
    each: bool,
) -> Result<Question, ProgramFault>
    ensures asked { IfOk result (AsksMoves ring.now from.now to.now each) }
    ensures fault { IfErr result (IsFormFault (IsNoName ring.now ⊎ IsNoNumber from.now
        ⊎ IsNoNumber to.now) ⊥) }
{
    let ring = read_name(alloc, ring)?;
    let from = read_number(from, u32::MAX)?;
    let to = read_number(to, u32::MAX)?;
    Ok(Question::Ring(ring, moves_read(from, to, each)))
}

/// What `show`, `preview` and `moves` show.
pub(crate) fn ask_shown(alloc: Global, what: Shown<'_>) -> Result<Question, ProgramFault>
    ensures asked { IfOk result (AsksToShow what.entry) }
    ensures fault { IfErr result (IsFormFault (HasNoName what.entry) ⊥) }
{
    match what {
        Shown::Rings => Ok(Question::Rings),
        Shown::Status => Ok(Question::Status),
        Shown::Metrics => Ok(Question::Metrics),
        Shown::Ring { ring, what } => ask_ring(alloc, ring, what),
        Shown::Preview { ring, seed, hour } => ask_preview(alloc, ring, seed, hour),
        Shown::Moves {
            ring,
            from,
            to,
            each,
        } => ask_moves(alloc, ring, from, to, each),
    }
}

/// What `export` shows.
pub(crate) fn ask_published(
    alloc: Global,
    ring: &str,
    version: &str,
    format: Format,
) -> Result<Question, ProgramFault>
    ensures asked { IfOk result (AsksPublished ring.now version.now format) }
    ensures fault { IfErr result (IsFormFault (IsNoName ring.now ⊎ IsNoNumber version.now) ⊥) }
{
    let ring = read_name(alloc, ring)?;
    let version = read_number(version, u32::MAX)?;
    Ok(Question::Ring(ring, Read::Published(version, format)))
}

/// The path of names that words give.
fn path_given(
    alloc: Global,
    account: &str,
    container: Option<&str>,
    object: Option<&str>,
) -> Result<Path, ProgramFault>
    ensures path { IfOk result (λ path. path ≡ names_given account.entry container.entry
        object.entry) }
    ensures good { IfOk result (λ path. is_path path ≡ true) }
    ensures fault { IfErr result (IsFormFault ⊥
        (is_path (names_given account.entry container.entry object.entry) ≢ true)) }
{
    let container = container.map(str::as_bytes);
    let object = object.map(str::as_bytes);
    match Path::new(alloc, account.as_bytes(), container, object) {
        Ok(path) => Ok(path),
        Err(PathFault::BadPath) => Err(ProgramFault::BadPath),
        Err(PathFault::NoMemory) => Err(ProgramFault::NoMemory),
    }
}

/// What `nodes` shows.
pub(crate) fn ask_nodes(
    alloc: Global,
    ring: &str,
    account: &str,
    container: Option<&str>,
    object: Option<&str>,
) -> Result<Question, ProgramFault>
    ensures asked { IfOk result (AsksNodes ring.now
        (names_given account.entry container.entry object.entry)) }
    ensures fault { IfErr result (IsFormFault (IsNoName ring.now)
        (is_path (names_given account.entry container.entry object.entry) ≢ true)) }
{
    let name = read_name(alloc, ring)?;
    let path = path_given(alloc, account, container, object)?;
    Ok(Question::Ring(name, Read::Nodes(path)))
}

/// Ends a line.
fn end_line(bytes: &mut Vec<u8>) -> Result<(), AllocError>
    ensures { OnOk result (bytes.new.items ≡ bytes.old.items ++ 10 ∷ []) }
{
    bytes.push(b'\n')?;
    Ok(())
}

/// What is shown where this is held, as a program writes it: JSON ends with a line feed.
fn shown_bytes(
    alloc: Global,
    names: HashNames<'_>,
    held: &Held<'_>,
    question: &Question,
) -> Result<Vec<u8>, ProgramFault>
    ensures shown { IfOk result (λ bytes. ShowsAs names.entry.prefix.now names.entry.suffix.now
        question.now bytes.items (holding_of held.now)) }
    ensures fault { IfErr result (λ why. HidesAs question.now why (holding_of held.now)) }
{
    let mut bytes = show_held(alloc, names, held, question)?;
    if question.is_json() {
        end_line(&mut bytes)?;
    }
    Ok(bytes)
}

/// What a keeper holds that was made ready to be read, and whose greatest hour is this, at the hour of
/// the clock.
fn held_by<K: Keeper<RingMachine>>(keeper: &K, hour: Hour, clock: Hour) -> Held<'_>
    requires loaded { K.is_loaded keeper.now }
    requires faults { K.fault_count keeper.now ≡ 0 }
    ensures { K.sound keeper.now → hour ≡ (K.content keeper.now).hour →
        holding_of result ≡ holding K.Keeper clock keeper.now }
{
    Held {
        rings: keeper.state(),
        hour,
        clock,
        kept: keeper.count(),
        limit: keeper.most(),
    }
}

/// What is shown of what a keeper holds, at the hour of the clock.
fn kept_bytes<K: Keeper<RingMachine>>(
    alloc: Global,
    keeper: &mut K,
    clock: Hour,
    names: HashNames<'_>,
    question: &Question,
) -> Result<Vec<u8>, ProgramFault>
    requires { K.fault_count keeper.old ≡ 0 }
    ensures shown { IfOk result (λ bytes. K.sound keeper.new
        → ShowsAs names.entry.prefix.now names.entry.suffix.now question.now bytes.items
        (holding K.Keeper clock keeper.old)) }
    ensures fault { IfErr result (λ why. ((cause : KeepFault) × (why ≡ keep_fault cause)
        × HasFailedBy K.Keeper cause keeper.new)
        ⊎ (K.sound keeper.new → HidesAs question.now why (holding K.Keeper clock keeper.old))) }
    ensures whole { OnOk result (HasNotFailed K.Keeper keeper.new) }
    ensures sound { K.sound keeper.new → K.sound keeper.old }
    ensures content { K.sound keeper.new → K.content keeper.new ≡ K.content keeper.old }
{
    let hour = keeper.hour()?;
    keeper.load()?;
    shown_bytes(alloc, names, &held_by(&*keeper, hour, clock), question)
}

/// The hour that a question names in place of the clock's: that of a preview, where it isn't 0.
fn named_hour(question: &Question) -> Option<Hour>
    ensures { result ≡ named_hour question.now }
{
    match question {
        Question::Ring(_, Read::Preview(_, hour)) if *hour != 0 => Some(*hour),
        _ => None,
    }
}

/// What is shown of what a keeper holds at the hour of the clock, and the keeper as it is then.
fn told_bytes<K: Keeper<RingMachine>>(
    alloc: Global,
    keeper: K,
    clock: Hour,
    names: HashNames<'_>,
    question: &Question,
) -> (Result<Vec<u8>, ProgramFault>, K)
    requires clock { TellsHour (named_hour question.now) clock }
    requires faults { K.fault_count keeper ≡ 0 }
    ensures shown { IfOk result.0 (λ bytes. IsAsked K.Keeper (λ k. k ≡ keeper) (λ k. k ≡ result.1)
        (ShowsNow names.entry.prefix.now names.entry.suffix.now question.now bytes.items)) }
    ensures fault { let Asked = IsAsked K.Keeper (λ k. k ≡ keeper) (λ k. k ≡ result.1) in
        IfErr result.0 (λ why. ((cause : KeepFault) × (why ≡ keep_fault cause)
        × HasFailedBy K.Keeper cause result.1 × Asked (λ held. ⊤))
        ⊎ Asked (λ held. HidesAs question.now why held)) }
    ensures whole { OnOk result.0 (HasNotFailed K.Keeper result.1) }
{
    let mut keeper = keeper;
    let bytes = kept_bytes(alloc, &mut keeper, clock, names, question);
    (bytes, keeper)
}

/// What is shown of a store, at the hour that the question names, or that of the machine. The store is
/// closed then.
fn store_bytes<S: Stores>(
    rt: &HostRuntime,
    file: &str,
    names: HashNames<'_>,
    question: &Question,
    stores: &mut S,
) -> Result<Vec<u8>, ProgramFault>
    ensures opened { OpensOne (S.openings stores.old) (S.openings stores.new) }
    ensures shown { IfOk result (λ bytes. IsAsked S.Kept.Keeper (S.begins file.now) (IsClosedWhole
        S.Kept.Keeper (Closes S.Stores)) (ShowsNow names.entry.prefix.now names.entry.suffix.now
        question.now bytes.items)) }
    ensures fault { IfErr result (λ why. (RefusesToOpen S.Stores file.now why × IsStoreFault why)
        ⊎ ShowsNothing S.Kept.Keeper (S.begins file.now) (Closes S.Stores) names.entry.prefix.now
        names.entry.suffix.now question.now why) }
{
    let keeper = open_store(rt, file, stores)?;
    let clock = hour_of(rt, named_hour(question));
    let (bytes, keeper) = told_bytes(rt.alloc(), keeper, clock, names, question);
    let closed = close_store::<S>(keeper);
    let bytes = bytes?;
    closed?;
    Ok(bytes)
}

/// Shows what is asked for of the store.
pub(crate) fn show<S: Stores, W: Write>(
    rt: &HostRuntime,
    file: &str,
    names: HashNames<'_>,
    question: &Question,
    writer: &mut CountedWriter<W>,
    stores: &mut S,
) -> Result<(), ProgramFault>
    ensures opened { OpensOne (S.openings stores.old) (S.openings stores.new) }
    ensures shown { OnOk result (ShowsRead S.Kept.Keeper (S.begins file.now)
        (IsClosedWhole S.Kept.Keeper (Closes S.Stores)) W.contents
        writer.old writer.new names.entry.prefix.now names.entry.suffix.now question.now) }
    ensures fault { IfErr result (FailsToShow S.Kept.Keeper (S.begins file.now) (Closes S.Stores)
        W.contents writer.old writer.new names.entry.prefix.now names.entry.suffix.now
        (RefusesToOpen S.Stores file.now) question.now) }
{
    let bytes = store_bytes(rt, file, names, question, stores)?;
    Ok(write_text(writer, bytes.as_slice())?)
}
