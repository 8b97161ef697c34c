//! Records, one after another.
ghost use Rattle.std.specs.Prelude.{◌≡◌, ◌≢◌, ◌∷◌, ◌++◌, [], ℕ, List, Some, IfOk, IfErr, MatchBool};
ghost use Rattle.std.specs.Prelude.{MatchResult, OnOk};
ghost use Rattle.byte_streams.specs.Counted.{counted_of, read_faults, reader_of};
ghost use Rattle.csv.specs.Records.{fields_of};
ghost use Rattle.csv_import.specs.Fields.{header};
ghost use Rattle.csv_import.specs.Inner.Midway.{HasGiven, IsOpen};
ghost use Rattle.csv_import.specs.Rows.{AreRows, IsCsvCaused, IsWrong, records_of};
ghost use Rattle.csv_import.specs.declared.fault.CsvFault.TheVariants.{ReadFailed};

use crate::fault::{CsvFault, cause_of};
use crate::row::{is_header, row_of};
use byte_streams::{StreamFault, WholeReader, read_all};
use csv::{ByteRecord, Reader, ReaderBuilder};
use ring_words::Row;
use std::alloc::Global;
use std::io::Read;

/// Reads the next record, if there is one.
fn read_next<R: Read>(reader: &mut Reader<R>, fields: &mut ByteRecord) -> Result<bool, CsvFault>
    requires { IsOpen reader.old }
    ensures open { OnOk result (IsOpen reader.new) }
    ensures read { IfOk result (λ found. (text : List ℕ) (given : List (List (List ℕ))) →
        HasGiven R.remaining text given reader.old
        → MatchBool found (HasGiven R.remaining text (given ++ fields_of fields.new ∷ []) reader.new) (records_of text ≡ given)) }
    ensures given_up { IfErr result (λ fault. fault ≡ CsvFault.NoMemory) }
{
    match reader.read_byte_record(fields) {
        Ok(found) => Ok(found),
        Err(error) => Err(cause_of(error)),
    }
}

/// A reader of records that may differ in length, none of which it takes for names.
fn open<R: Read>(alloc: Global, reader: R) -> Reader<R>
    ensures open { IsOpen result }
    ensures given { (text : List ℕ) → R.remaining reader ≡ Some text →
        HasGiven R.remaining text [] result }
{
    ReaderBuilder::new()
        .has_headers(false)
        .flexible(true)
        .from_reader(alloc, reader)
}

/// Reads the first record, which is to be the names of the columns.
fn read_header<R: Read>(reader: &mut Reader<R>, fields: &mut ByteRecord) -> Result<(), CsvFault>
    requires { IsOpen reader.old }
    ensures open { OnOk result (IsOpen reader.new) }
    ensures named { IfOk result (λ _. (text : List ℕ) → HasGiven R.remaining text [] reader.old →
        HasGiven R.remaining text (header ∷ []) reader.new) }
    ensures wrong { IfErr result (λ fault. (text : List ℕ) → HasGiven R.remaining text [] reader.old
        → IsWrong (records_of text) fault) }
{
    if read_next(reader, fields)? && is_header(fields) {
        Ok(())
    } else {
        Err(CsvFault::BadHeader)
    }
}

/// The rows of the text that a reader gives, in order, or the first fault in it. That a text in
/// memory can't be read is told as want of memory.
fn rows_from<R: Read + Drop>(alloc: Global, reader: R) -> Result<Vec<Row>, CsvFault>
    ensures rows { IfOk result (λ rows. (text : List ℕ) → R.remaining reader ≡ Some text →
        AreRows (records_of text) rows.items) }
    ensures wrong { IfErr result (λ fault. (text : List ℕ) → R.remaining reader ≡ Some text →
        IsWrong (records_of text) fault) }
{
    let mut records = open(alloc, reader);
    let mut fields = ByteRecord::new(alloc);
    read_header(&mut records, &mut fields)?;
    let mut rows = Vec::new(alloc);
    for number in 1..u64::MAX {
        if !read_next(&mut records, &mut fields)? {
            return Ok(rows);
        }
        let row = row_of(alloc, &fields, number)?;
        if rows.push(row).is_err() {
            return Err(CsvFault::NoMemory);
        }
    }
    // So many rows have no room in memory.
    Err(CsvFault::NoMemory)
}

/// The rows of the text that a reader gives, in order. The text is CSV: fields between commas, in
/// double quotes where need be (RFC 4180, as the crate `csv` reads it); its first record is
/// `region,zone,address,port,name,weight`.
///
/// The whole text is read first. ReadFailed comes where the reader failed, and the reader counts
/// one more fault exactly then; a read that is interrupted is tried again. Else the first fault in
/// the text is answered, BadHeader, BadRow or BadField, or NoMemory where a growth was refused.
pub fn read_rows<R: Read>(alloc: Global, reader: &mut WholeReader<R>) -> Result<Vec<Row>, CsvFault>
    ensures rows { IfOk result (λ rows. (text : List ℕ) → R.remaining (reader_of (counted_of reader.old)) ≡ Some text
        → AreRows (records_of text) rows.items) }
    ensures wrong { IfErr result (λ fault. fault ≢ ReadFailed → (text : List ℕ) →
        R.remaining (reader_of (counted_of reader.old)) ≡ Some text
        → IsWrong (records_of text) fault) }
    ensures cause { MatchResult result (λ _. read_faults (counted_of reader.new) ≡ read_faults (counted_of reader.old))
        (IsCsvCaused (counted_of reader.old) (counted_of reader.new)) }
{
    let text = match read_all(alloc, reader) {
        Ok(text) => text,
        Err(StreamFault::NoMemory) => return Err(CsvFault::NoMemory),
        Err(_) => return Err(CsvFault::ReadFailed),
    };
    rows_from(alloc, text.as_slice())
}
