//! What no contract says: worked examples, what a failing reader leads to, and that calls succeed
//! where there is memory.
mod reading;

use byte_streams::WholeReader;
use csv_import::CsvFault::{self, BadField, BadHeader, BadRow};
use csv_import::read_rows;
use ring_words::Row;
use std::alloc::{AllocError, Global};

/// The names of the columns, as a text begins with them.
static NAMES: &str = "region,zone,address,port,name,weight\n";

/// Two rows as they are told.
const TWO_ROWS: &str =
    "1,1,10.0.0.1,6200,d0,50.00\n65535,0,255.255.255.255,65535,Sd_9-z,1000000.00\n";

/// Whether texts begin with the names of the columns, their rests, and their rows as they are told:
/// in order, whatever their quotes and line ends.
static READ: [(bool, &str, &str); 8] = [
    (true, TWO_ROWS, TWO_ROWS), // rows are told in order
    (true, "", ""), // no rows
    // no line end behind the names
    (false, "region,zone,address,port,name,weight", ""),
    // a field in quotes, and no line end at the end
    (
        true,
        "1,1,10.0.0.1,6200,\"d0\",50.00\n65535,0,255.255.255.255,65535,Sd_9-z,1000000.00",
        TWO_ROWS,
    ),
    // line ends of two bytes
    (
        true,
        "1,1,10.0.0.1,6200,d0,50.00\r\n65535,0,255.255.255.255,65535,Sd_9-z,1000000.00\r\n",
        TWO_ROWS,
    ),
    // carriage returns as line ends
    (
        true,
        "1,1,10.0.0.1,6200,d0,50.00\r65535,0,255.255.255.255,65535,Sd_9-z,1000000.00\r",
        TWO_ROWS,
    ),
    // empty lines
    (
        true,
        "\n\n1,1,10.0.0.1,6200,d0,50.00\n\r\n65535,0,\"255.255.255.255\",65535,Sd_9-z,1000000.00\n\n",
        TWO_ROWS,
    ),
    // a mark of the byte order, and names in quotes
    (
        false,
        "\u{feff}\"region\",zone,address,port,\"name\",weight\n7,8,10.0.0.1,1,d,0.00",
        "7,8,10.0.0.1,1,d,0.00\n",
    ),
];

/// Texts and their faults. They are told whole where the names of the columns are not those, and else
/// behind these names.
static FAULTS: [(&str, CsvFault); 26] = [
    ("", BadHeader), // no bytes
    ("\n\r\n", BadHeader), // empty lines
    ("1,1,10.0.0.1,6200,d0,50.00", BadHeader), // a row
    ("Region,zone,address,port,name,weight", BadHeader), // a capital
    ("region, zone,address,port,name,weight", BadHeader), // a blank
    ("region,zone,address,port,name", BadHeader), // a name too few
    ("region,zone,address,port,name,weight,", BadHeader), // a name too many
    ("zone,region,address,port,name,weight", BadHeader), // another order
    // two marks of the byte order
    (
        "\u{feff}\u{feff}region,zone,address,port,name,weight",
        BadHeader,
    ),
    // a second record too short
    (
        "1,1,10.0.0.1,6200,d0,50.00\n1,1,10.0.0.2,6200,d1",
        BadRow(2),
    ),
    ("1,1,10.0.0.1,6200,d0,50.00,\n", BadRow(1)), // a record too long
    ("1,1,10.0.0.1,6200,d0,50.00,,\n", BadRow(1)), // a record of eight fields
    ("\"\"\n", BadRow(1)), // one field
    ("-,1,10.0.0.1,6200,d0", BadRow(1)), // a record too short with a bad field
    ("65536,1,10.0.0.1,6200,d0,50.00", BadField(1, 1)), // a region past 65535
    (" 1,1,10.0.0.1,6200,d0,50.00", BadField(1, 1)), // a blank before a region
    ("1,01,10.0.0.1,6200,d0,50.00", BadField(1, 2)), // a zone behind a 0
    ("1,,10.0.0.1,6200,d0,50.00", BadField(1, 2)), // no zone
    ("1,1,10.0.0.256,6200,d0,50.00", BadField(1, 3)), // a part of an address past 255
    ("1,1,10.0.0.1,0,d0,50.00", BadField(1, 4)), // port 0
    ("1,1,10.0.0.1,65536,d0,50.00", BadField(1, 4)), // a port past 65535
    ("1,1,10.0.0.1,6200,d 0,50.00", BadField(1, 5)), // a blank in a name
    ("1,1,10.0.0.1,6200,\"d\n0\",50.00", BadField(1, 5)), // a line end in a name
    ("1,1,10.0.0.1,6200,d0,50.0", BadField(1, 6)), // a weight with one digit after the point
    ("1,1,10.0.0.1,6200,d0,1000000.01", BadField(1, 6)), // a weight past the greatest
    ("1,1,10.0.0.256,6200,d0,-\n1,1", BadField(1, 3)), // two bad fields and a record too short
];

/// What follows in a text behind a row, as the record that spells it without quotes.
fn behind<'a>(alloc: Global, row: &Row, text: &'a str) -> Option<&'a str> {
    let line = format!(in alloc;
        "{},{},{},{},{},{}\n",
        row.region, row.zone, row.address, row.port, row.name, row.weight
    )
    .ok()?;
    text.strip_prefix(line.as_str())
}

/// Whether a text tells these rows.
fn tells(alloc: Global, text: &str, rows: &[Row]) -> bool {
    let mut rest = text;
    for row in rows {
        rest = match behind(alloc, row, rest) {
            Some(behind) => behind,
            None => return false,
        };
    }
    rest.is_empty()
}

/// The rows in a text, or its fault.
fn rows_in(alloc: Global, text: &[u8]) -> Result<Vec<Row>, CsvFault> {
    read_rows(alloc, &mut WholeReader::new(text))
}

/// Bytes with others behind them.
fn joined(alloc: Global, front: &[u8], rest: &[u8]) -> Result<Vec<u8>, AllocError> {
    let mut bytes = Vec::from_slice(alloc, front)?;
    bytes.extend_from_slice(rest)?;
    Ok(bytes)
}

/// The rows in a text of two parts, or its fault.
fn rows_of(alloc: Global, front: &str, rest: &[u8]) -> Result<Vec<Row>, CsvFault> {
    rows_in(alloc, &joined(alloc, front.as_bytes(), rest)?)
}

/// Whether a text, of the names of the columns and a rest or of the rest alone, has the rows that are
/// told.
fn are_told(alloc: Global, has_names: bool, rest: &str, told: &str) -> bool {
    let front = if has_names { NAMES } else { "" };
    match rows_of(alloc, front, rest.as_bytes()) {
        Ok(rows) => tells(alloc, told, &rows),
        Err(_) => false,
    }
}

/// The place in the table of the first text that has other rows, or how many texts there are.
fn first_told_otherwise(alloc: Global) -> usize {
    for (place, (has_names, rest, told)) in READ.iter().enumerate() {
        if !are_told(alloc, *has_names, rest, told) {
            return place;
        }
    }
    READ.len()
}

/// Whether a text has this fault, behind the names of the columns where these are not the fault.
fn has_fault(alloc: Global, rest: &[u8], due: CsvFault) -> bool {
    let front = if due == BadHeader { "" } else { NAMES };
    match rows_of(alloc, front, rest) {
        Ok(_) => false,
        Err(fault) => fault == due,
    }
}

/// Whether bytes that are no UTF-8 are told as the faults of their fields: a name that is no text, and
/// a bad field in the second row.
fn are_bytes_refused(alloc: Global) -> bool {
    let second = b"1,1,10.0.0.1,6200,d0,50.00\n\n1,1,10.0.0.1,6200,d0,\xff";
    has_fault(alloc, b"1,1,10.0.0.1,6200,\xff,50.00", BadField(1, 5))
        && has_fault(alloc, second, BadField(2, 6))
}

#[test]
fn texts_are_told_as_their_rows_or_their_fault(rt: HostRuntime) {
    let place = first_told_otherwise(rt.alloc());
    assert!(rt; place == READ.len(), "{place}");
    for (rest, fault) in &FAULTS {
        assert!(rt; has_fault(rt.alloc(), rest.as_bytes(), *fault), "{rest}");
    }
    assert!(rt; are_bytes_refused(rt.alloc()));
}
