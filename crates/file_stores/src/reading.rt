//! Reading the files that words name beside stores.
ghost use Rattle.std.specs.Prelude.{◌≡◌, ◌≤◌, ⊤, ℕ, IfErr, IfOk, List, MatchOption, length};
ghost use Rattle.program_stores.specs.Faults.{IsFileFault};
ghost use Rattle.file_stores.specs.Texts.{IsTextOf, IsUnread};
ghost use Rattle.file_stores.specs.Inner.Unread.{GivesShort, IsUnshort};

use byte_streams::{WholeReader, read_all};
use program_stores::ProgramFault;
use std::alloc::Global;
use std::fs::File;
use std::io::{Read, Take};

/// A file that words name beside stores, open for reading.
pub trait NamedFile: Read + Drop {
    /// The file of this name was opened, and is this.
    ghost opens: { List ℕ → Self → Type 0 };

    /// The file of this name couldn't be opened.
    ghost lacks: { List ℕ → Type 0 };

    /// Opens the file of this name, if that can be done.
    fn open_named(rt: &HostRuntime, name: &str) -> Option<Self>
    where
        Self: Sized,
        ensures { MatchOption result (lacks name.now) (opens name.now) };
}

// The files of this machine. Nothing is said of what they hold, nor of which can be opened.
impl NamedFile for File {
    ghost opens = { λ name file. ⊤ };

    ghost lacks = { λ name. ⊤ };

    fn open_named(rt: &HostRuntime, name: &str) -> Option<File> {
        File::open(rt, name).ok()
    }
}

/// What is left of a file that was to be read.
#[derive(Drop)]
pub struct TextRest<F> {
    /// Its reader, if it was opened.
    pub reader: Option<WholeReader<Take<F>>>,
}

/// All that a reader gives, if it is no more than so many bytes.
fn read_short<R: Read>(
    alloc: Global,
    reader: &mut WholeReader<R>,
    most: u32,
) -> Result<Vec<u8>, ProgramFault>
    ensures text { IfOk result (λ text. GivesShort R.remaining reader.old reader.new most text.items) }
    ensures unread { IfErr result (IsUnshort R.remaining reader.old reader.new most) }
    ensures fault { IfErr result IsFileFault }
{
    let text = read_all(alloc, reader)?;
    if text.len() > most as usize {
        return Err(ProgramFault::TooLong);
    }
    Ok(text)
}

/// The text of a file, of at most so many bytes, and what is left of its reader. No more than one
/// byte behind them is read.
pub(crate) fn read_file<F: NamedFile>(
    rt: &HostRuntime,
    name: &str,
    most: u32,
) -> (Result<Vec<u8>, ProgramFault>, TextRest<F>)
    ensures text { IfOk result.0 (λ text. IsTextOf F.opens F.remaining name.now text.items
        result.1.reader) }
    ensures short { IfOk result.0 (λ text. length text.items ≤ most) }
    ensures unread { IfErr result.0 (λ why. IsUnread F.opens F.remaining F.lacks name.now most
        why result.1.reader) }
    ensures fault { IfErr result.0 IsFileFault }
{
    let Some(file) = F::open_named(rt, name) else {
        return (Err(ProgramFault::NoFile), TextRest { reader: None });
    };
    let mut reader = WholeReader::new(file.take(u64::from(most) + 1));
    let text = read_short(rt.alloc(), &mut reader, most);
    let rest = TextRest {
        reader: Some(reader),
    };
    (text, rest)
}
