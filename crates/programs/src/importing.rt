//! The program `import`: one numbered import of a table.
ghost use Rattle.std.specs.Prelude.{◌≡◌, ◌≢◌, ◌⊎◌, IfErr, IfOk, string_bytes};
ghost use Rattle.csv_import.specs.Rows.{AreRows, IsWrong, records_of};
ghost use Rattle.programs.specs.Tables.{HoldsTable};
ghost use Rattle.programs.specs.Inner.Forms.{HasNoRows, text_fault};
ghost use Rattle.byte_streams.specs.declared.fault.StreamFault.TheVariants.{WriteFailed};
ghost use Rattle.programs.specs.Importing.{AsksImport, FailsTold, Imports, WritesTold};
ghost use Rattle.programs.specs.Importing.{AnswersImport, FailsToImport, TellsImport};
ghost use Rattle.programs.specs.Importing.{FailsToDeliver, TellsNothing, told_line};
ghost use Rattle.programs.specs.Showing.{IsFormFault, IsNoName, IsNoNumber};
ghost use Rattle.programs.specs.Begun.{IsClosed, OpensOne};
ghost use Rattle.programs.specs.Left.{Closes, GivesNoText, GivesText, RefusesToOpen};

use crate::book::open_book;
use crate::dropping::{close_store, open_store, read_text};
use crate::hours::hour_of;
use builder::{RingMachine, Told, status_of};
use byte_streams::{CountedWriter, StreamFault, WholeReader, write_text};
use csv_import::{CsvFault, read_rows};
use http_api::told_csv;
use line_api::answer_text;
use program_stores::{ProgramFault, Stores};
use request_book::Keeper;
use ring_book::told_of;
use ring_messages::command_is_proper;
use ring_words::{Act, Caller, Command, Hour, Key, RingName, Row, Rows, read_name, read_number};
use std::alloc::{AllocError, Global};
use std::io::Write;

/// How many bytes a table may have.
const MOST_BYTES: u32 = 65536;

/// What is printed where an answer finds no memory for its text.
const NO_MEMORY_LINE: &str = "503 {\"fault\":\"NoMemory\",\"rule\":23}\n";

/// Which ring is imported into, and which request the import is.
#[derive(Drop)]
pub(crate) struct ImportAsk {
    pub ring: RingName,
    pub key: Key,
}

/// What `import` asks for.
pub(crate) fn ask_import(
    alloc: Global,
    ring: &str,
    caller: &str,
    number: &str,
) -> Result<ImportAsk, ProgramFault>
    ensures asked { IfOk result (AsksImport ring.now caller.now number.now) }
    ensures fault { IfErr result
        (IsFormFault (IsNoName ring.now ⊎ IsNoName caller.now ⊎ IsNoNumber number.now) ⊥) }
{
    let number = read_number(number, u32::MAX)?;
    let ring: RingName = read_name(alloc, ring)?;
    let caller: Caller = read_name(alloc, caller)?;
    Ok(ImportAsk {
        ring,
        key: Key { caller, number },
    })
}

/// Why no rows are read.
#[derive(Clone, Copy, PartialEq, Eq)]
pub(crate) enum TableFault {
    /// Its file can't be opened, or has more than 65,536 bytes.
    Lost(ProgramFault),
    /// Reading it failed, or it has no rows.
    Csv(CsvFault),
}

impl From<ProgramFault> for TableFault {
    ghost use Rattle.programs.specs.Inner.Forms.{unread_table};

    ghost from_gives = { λ cause fault. fault ≡ unread_table cause };

    fn from(fault: ProgramFault) -> TableFault {
        match fault {
            ProgramFault::NoFile => TableFault::Lost(ProgramFault::NoFile),
            ProgramFault::TooLong => TableFault::Lost(ProgramFault::TooLong),
            ProgramFault::NoMemory => TableFault::Csv(CsvFault::NoMemory),
            _ => TableFault::Csv(CsvFault::ReadFailed),
        }
    }
}

/// The rows of a text.
fn rows_of(alloc: Global, text: &[u8]) -> Result<Vec<Row>, CsvFault>
    ensures rows { IfOk result (λ rows. AreRows (records_of text.now) rows.items) }
    ensures wrong { IfErr result (λ why. why ≢ CsvFault.ReadFailed
        → IsWrong (records_of text.now) why) }
{
    read_rows(alloc, &mut WholeReader::new(text))
}

/// What the fault of a text is told as. Its reads don't fail, so that one is told as want of memory.
fn text_fault(fault: CsvFault) -> CsvFault
    ensures { result ≡ text_fault fault }
{
    match fault {
        CsvFault::BadHeader => CsvFault::BadHeader,
        CsvFault::BadRow(row) => CsvFault::BadRow(row),
        CsvFault::BadField(row, column) => CsvFault::BadField(row, column),
        CsvFault::ReadFailed | CsvFault::NoMemory => CsvFault::NoMemory,
    }
}

/// The rows of the table in a file, of at most 65,536 bytes.
fn read_table<S: Stores>(rt: &HostRuntime, csv: &str) -> Result<Vec<Row>, TableFault>
    ensures rows { IfOk result (λ rows. HoldsTable (GivesText S.Stores csv.now) rows.items) }
    ensures wrong { IfErr result (HasNoRows (GivesText S.Stores csv.now) (GivesNoText S.Stores
        csv.now)) }
{
    let text = read_text::<S>(rt, csv, MOST_BYTES)?;
    match rows_of(rt.alloc(), text.as_slice()) {
        Ok(rows) => Ok(rows),
        Err(fault) => Err(TableFault::Csv(text_fault(fault))),
    }
}

/// An answer as a line: its status, a space, its text and a line feed.
fn told_line(alloc: Global, told: &Told) -> Result<String, AllocError>
    ensures { IfOk result (λ line. string_bytes line ≡ told_line told.now) }
{
    let mut line = answer_text(alloc, told)?;
    line.push('\n')?;
    Ok(line)
}

/// Writes a line that tells this, and answers its status.
fn write_line<W: Write>(
    writer: &mut CountedWriter<W>,
    line: &[u8],
    told: &Told,
) -> Result<u16, StreamFault>
    requires { line.now ≡ told_line told.now }
    ensures told { IfOk result (WritesTold W.contents writer.old writer.new told.now) }
    ensures failed { IfErr result (λ why. (why ≡ WriteFailed) × FailsTold W.contents writer.old
        writer.new told.now) }
{
    write_text(writer, line)?;
    Ok(status_of(told))
}

/// Writes an answer as a line, and answers the status that it tells: that of want of memory where
/// the answer finds none for its text.
fn write_told<W: Write>(
    alloc: Global,
    writer: &mut CountedWriter<W>,
    told: &Told,
) -> Result<u16, StreamFault>
    ensures told { IfOk result (WritesTold W.contents writer.old writer.new told.now) }
    ensures failed { IfErr result (λ why. (why ≡ WriteFailed) × FailsTold W.contents writer.old
        writer.new told.now) }
{
    match told_line(alloc, told) {
        Ok(line) => write_line(writer, line.as_bytes(), told),
        Err(AllocError) => write_line(writer, NO_MEMORY_LINE.as_bytes(), &Told::NoMemory),
    }
}

/// Delivers rows as an import to what a keeper holds.
fn deliver_rows<K: Keeper<RingMachine>>(
    alloc: Global,
    keeper: K,
    ask: ImportAsk,
    rows: Vec<Row>,
    hour: Hour,
) -> (Told, K)
    requires { K.fault_count keeper ≡ 0 }
    ensures { Imports K.Keeper (λ k. k ≡ keeper) (λ k. k ≡ result.1) ask rows.items hour result.0 }
{
    let mut book = open_book(alloc, keeper);
    let ImportAsk { ring, key } = ask;
    let act = Act::Import(Rows::new(rows));
    let command = Command { ring, act };
    command_is_proper(&command);
    let told = told_of(book.deliver(hour, key, command));
    (told, book.into_keeper())
}

/// Delivers rows as an import to the store, and closes it.
fn deliver_to_store<S: Stores>(
    rt: &HostRuntime,
    file: &str,
    ask: ImportAsk,
    rows: Vec<Row>,
    hour: Hour,
    stores: &mut S,
) -> Result<Told, ProgramFault>
    ensures opened { OpensOne (S.openings stores.old) (S.openings stores.new) }
    ensures told { IfOk result (Imports S.Kept.Keeper (S.begins file.now) (IsClosed (Closes
        S.Stores)) ask rows.items hour) }
    ensures fault { IfErr result (FailsToDeliver S.Kept.Keeper (S.begins file.now) (Closes S.Stores)
        (RefusesToOpen S.Stores file.now) ask rows.items hour) }
{
    let keeper = open_store(rt, file, stores)?;
    let (told, keeper) = deliver_rows(rt.alloc(), keeper, ask, rows, hour);
    close_store::<S>(keeper)?;
    Ok(told)
}

/// What the import of the table in a file into a ring of the store is told.
fn tell_import<S: Stores>(
    rt: &HostRuntime,
    file: &str,
    csv: &str,
    ask: ImportAsk,
    given: Option<Hour>,
    stores: &mut S,
) -> Result<Told, ProgramFault>
    ensures told { IfOk result (TellsImport S.Kept.Keeper (S.begins file.now) (IsClosed (Closes
        S.Stores)) (GivesText S.Stores csv.now) (GivesNoText S.Stores csv.now) (S.openings
        stores.old) (S.openings stores.new) ask given) }
    ensures fault { IfErr result (TellsNothing S.Kept.Keeper (S.begins file.now) (Closes S.Stores)
        (RefusesToOpen S.Stores file.now) (GivesText S.Stores csv.now) (GivesNoText S.Stores
        csv.now) (S.openings stores.old) (S.openings stores.new) ask given) }
{
    match read_table::<S>(rt, csv) {
        Ok(rows) => deliver_to_store(rt, file, ask, rows, hour_of(rt, given), stores),
        Err(TableFault::Lost(fault)) => Err(fault),
        Err(TableFault::Csv(fault)) => Ok(told_csv(fault)),
    }
}

/// Imports the table in a CSV file into a ring of the store, as one numbered request, and writes
/// what that is told. Answers the status that was written.
pub(crate) fn import_table<S: Stores, W: Write>(
    rt: &HostRuntime,
    file: &str,
    csv: &str,
    ask: ImportAsk,
    given: Option<Hour>,
    writer: &mut CountedWriter<W>,
    stores: &mut S,
) -> Result<u16, ProgramFault>
    ensures answered { IfOk result (AnswersImport S.Kept.Keeper (S.begins file.now) (IsClosed
        (Closes S.Stores)) (GivesText S.Stores csv.now) (GivesNoText S.Stores csv.now) (S.openings
        stores.old) (S.openings stores.new) W.contents writer.old writer.new ask given) }
    ensures failed { IfErr result (FailsToImport S.Kept.Keeper (S.begins file.now) (Closes S.Stores)
        (RefusesToOpen S.Stores file.now) (GivesText S.Stores csv.now) (GivesNoText S.Stores
        csv.now) (S.openings stores.old) (S.openings stores.new) W.contents writer.old writer.new
        ask given) }
{
    let told = tell_import(rt, file, csv, ask, given, stores)?;
    Ok(write_told(rt.alloc(), writer, &told)?)
}
