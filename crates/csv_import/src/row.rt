//! One record, as the names of the columns or as a row.
ghost use Rattle.std.specs.Prelude.{◌≡◌, ◌≤◌, ◌↔◌, IfOk, IfErr, IsTrue, length};
ghost use Rattle.csv.specs.Records.{fields_of};
ghost use Rattle.csv_import.specs.Fields.{IsRow, field_in, header};
ghost use Rattle.csv_import.specs.Inner.Midway.{AreFirstNamed, AreLastNamed, IsWrongWith};

use crate::fault::CsvFault;
use crate::fields::{address_of, name_of, number_of, port_of, weight_of};
use csv::ByteRecord;
use ring_words::{Row, SpellingFault};
use std::alloc::Global;

/// How many fields a record has.
const COLUMNS: usize = 6;

/// The field in a column, counted from 1.
fn field(fields: &ByteRecord, column: usize) -> &[u8]
    requires { 1 ≤ column }
    ensures { result.now ≡ field_in (fields_of fields.now) column }
{
    fields.get(column - 1).unwrap_or(b"")
}

/// Whether the field in a column, counted from 1, is this one.
fn is_named(fields: &ByteRecord, column: usize, name: &[u8]) -> bool
    requires { 1 ≤ column }
    ensures { IsTrue result ↔ (field_in (fields_of fields.now) column ≡ name.now) }
{
    field(fields, column) == name
}

/// Whether the first three fields are the names of their columns.
fn are_first_named(fields: &ByteRecord) -> bool
    ensures { IsTrue result ↔ AreFirstNamed (fields_of fields.now) }
{
    is_named(fields, 1, b"region")
        && is_named(fields, 2, b"zone")
        && is_named(fields, 3, b"address")
}

/// Whether the last three fields are the names of their columns.
fn are_last_named(fields: &ByteRecord) -> bool
    ensures { IsTrue result ↔ AreLastNamed (fields_of fields.now) }
{
    is_named(fields, 4, b"port") && is_named(fields, 5, b"name") && is_named(fields, 6, b"weight")
}

/// Whether the record is the names of the columns.
pub(crate) fn is_header(fields: &ByteRecord) -> bool
    ensures { IsTrue result ↔ (fields_of fields.now ≡ header) }
{
    fields.len() == COLUMNS && are_first_named(fields) && are_last_named(fields)
}

/// The row that a record spells, which has this number.
pub(crate) fn row_of(alloc: Global, fields: &ByteRecord, number: u64) -> Result<Row, CsvFault>
    ensures row { IfOk result (λ row. IsRow (fields_of fields.now) row) }
    ensures fault { IfErr result (λ fault. IsWrongWith (fields_of fields.now) number fault) }
{
    if fields.len() != COLUMNS {
        return Err(CsvFault::BadRow(number));
    }
    let Ok(region) = number_of(field(fields, 1)) else {
        return Err(CsvFault::BadField(number, 1));
    };
    let Ok(zone) = number_of(field(fields, 2)) else {
        return Err(CsvFault::BadField(number, 2));
    };
    let Ok(address) = address_of(field(fields, 3)) else {
        return Err(CsvFault::BadField(number, 3));
    };
    let Ok(port) = port_of(field(fields, 4)) else {
        return Err(CsvFault::BadField(number, 4));
    };
    let name = match name_of(alloc, field(fields, 5)) {
        Ok(name) => name,
        Err(SpellingFault::Bad) => return Err(CsvFault::BadField(number, 5)),
        Err(SpellingFault::NoMemory) => return Err(CsvFault::NoMemory),
    };
    let Ok(weight) = weight_of(field(fields, 6)) else {
        return Err(CsvFault::BadField(number, 6));
    };
    Ok(Row {
        region,
        zone,
        address,
        port,
        name,
        weight,
    })
}
