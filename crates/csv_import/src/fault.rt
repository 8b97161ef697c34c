//! Why a text has no rows.
ghost use Rattle.std.specs.Prelude.{◌≡◌, true};
ghost use Rattle.csv.specs.Reading.{error_kind, stops_reader};

use csv::{Error, ErrorKind};
use std::alloc::AllocError;

/// Why no rows are told. Rows are counted from 1, the record that names the columns aside, and
/// columns from 1 to 6.
#[derive(Clone, Copy, Debug, PartialEq, Eq)]
pub enum CsvFault {
    /// The first record isn't `region,zone,address,port,name,weight`, or there is none.
    BadHeader,
    /// The row of this number has another number of fields.
    BadRow(u64),
    /// In the row of this number, the field in this column is the first that isn't of its form.
    BadField(u64, u8),
    /// The reader failed.
    ReadFailed,
    /// A growth of memory was refused.
    NoMemory,
}

impl From<AllocError> for CsvFault {
    ghost use Rattle.std.specs.Prelude.{◌≡◌};
    ghost use Rattle.csv_import.specs.declared.fault.CsvFault.TheVariants.{NoMemory};

    ghost from_gives = { λ _ fault. fault ≡ NoMemory };

    fn from(_refused: AllocError) -> CsvFault {
        CsvFault::NoMemory
    }
}

/// Why the records of a text that was read before can't be told: for want of memory.
pub(crate) fn cause_of(error: Error) -> CsvFault
    requires { stops_reader (error_kind error) ≡ true }
    ensures { result ≡ CsvFault.NoMemory }
{
    match error.into_kind() {
        ErrorKind::Io(_) | ErrorKind::OutOfMemory => CsvFault::NoMemory,
        _ => unreachable!(),
    }
}
