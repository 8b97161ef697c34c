//! Rows by readers that give little at a time or fail, and rows in great number.
use super::{NAMES, TWO_ROWS, joined, rows_in, tells};
use byte_streams::WholeReader;
use csv_import::{CsvFault, read_rows};
use ring_words::Row;
use std::alloc::{AllocError, Global};
use test_fixtures::Giver;

/// Whether a reader that failed so often leaves no rows and tells it, or gives the two rows where it
/// never failed.
fn is_all_or_nothing(alloc: Global, faults: u64, found: Result<Vec<Row>, CsvFault>) -> bool {
    match found {
        Ok(rows) => faults == 0 && tells(alloc, TWO_ROWS, &rows),
        Err(fault) => faults == 1 && fault == CsvFault::ReadFailed,
    }
}

/// Whether the two rows are read where so many bytes come at a time.
fn are_read_by(alloc: Global, size: usize) -> bool {
    let Ok(text) = joined(alloc, NAMES_OF_TWO_BYTES.as_bytes(), TWO_ROWS.as_bytes()) else {
        return false;
    };
    let mut reader = WholeReader::new(Giver::new(&text, size, 0x1000));
    is_all_or_nothing(alloc, 0, read_rows(alloc, &mut reader))
}

/// How many bytes come at a time.
const SIZES: [usize; 6] = [1, 2, 3, 7, 50, 1000];

#[test]
fn rows_are_the_same_however_the_reads_are_cut(rt: HostRuntime) {
    for size in &SIZES {
        assert!(rt; are_read_by(rt.alloc(), *size), "{size}");
    }
}

/// The names of the columns before a line end of two bytes.
static NAMES_OF_TWO_BYTES: &str = "region,zone,address,port,name,weight\r\n";

/// Whether a reader that fails at one of its reads leaves no rows, or `None` where it leaves
/// something else.
fn fails_at(alloc: Global, text: &[u8], place: u32) -> Option<bool> {
    let mut reader = WholeReader::new(Giver::new(text, 5, place));
    let found = read_rows(alloc, &mut reader);
    let fails = found.is_err();
    if is_all_or_nothing(alloc, reader.faults(), found) {
        Some(fails)
    } else {
        None
    }
}

/// At how many reads a reader can fail, or `None` where one of them leaves rows.
fn failures(alloc: Global) -> Option<u32> {
    let text = joined(alloc, NAMES.as_bytes(), TWO_ROWS.as_bytes()).ok()?;
    let mut failures = 0u32;
    for place in 1..1000 {
        if !fails_at(alloc, &text, place)? {
            return Some(failures);
        }
        failures = failures.saturating_add(1);
    }
    Some(failures)
}

#[test]
fn a_reader_that_fails_leaves_no_rows(rt: HostRuntime) {
    let failures = failures(rt.alloc()).unwrap_or(0);
    assert!(rt; failures > 20 && failures < 999, "{failures}");
}

/// A text of ten thousand rows.
fn ten_thousand(alloc: Global) -> Result<String, AllocError> {
    let mut text = String::from_str(alloc, "region,zone,address,port,name,weight")?;
    for number in 0..10_000u16 {
        let row = format!(in alloc; "\n{number},1,10.0.0.1,6200,d{number},1.00")?;
        text.push_str(row.as_str())?;
    }
    Ok(text)
}

/// Whether there are ten thousand rows, and the last is that of its number.
fn are_ten_thousand(rows: &[Row]) -> bool {
    match rows.last() {
        Some(row) => { rows.len() == 10_000 && row.region == 9_999 && row.name.as_str() == "d9999" }
        None => false,
    }
}

/// Whether ten thousand rows are read, and a fault behind them is told.
fn are_all_read(alloc: Global) -> Option<bool> {
    let mut text = ten_thousand(alloc).ok()?;
    let are_read = are_ten_thousand(&rows_in(alloc, text.as_bytes()).ok()?);
    text.push_str("\n1,1,10.0.0.1,0,d0,1.00").ok()?;
    let fault = rows_in(alloc, text.as_bytes()).err();
    Some(are_read && fault == Some(CsvFault::BadField(10_001, 4)))
}

#[test]
fn ten_thousand_rows_are_read(rt: HostRuntime) {
    assert!(rt; matches!(are_all_read(rt.alloc()), Some(true)));
}
