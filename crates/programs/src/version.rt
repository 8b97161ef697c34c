//! The program `version`.
ghost use Rattle.std.specs.Prelude.{IfErr, OnOk};
ghost use Rattle.programs.specs.Version.{FailsToTellVersion, TellsVersion};

use byte_streams::{CountedWriter, write_text};
use program_stores::ProgramFault;
use std::io::Write;

/// The version of the program, the schemas of files that it opens and writes, and what proved it.
const VERSION_TEXT: &str =
    "ringd 1.0.0\nopens files of schema 1 and 2, writes schema 2\nproved with rattle-kit-13f logic dac8208d650f15bf\n";

/// Tells of which version the program is.
pub(crate) fn tell_version<W: Write>(writer: &mut CountedWriter<W>) -> Result<(), ProgramFault>
    ensures told { OnOk result (TellsVersion W.contents writer.old writer.new) }
    ensures failed { IfErr result (FailsToTellVersion W.contents writer.old writer.new) }
{
    Ok(write_text(writer, VERSION_TEXT.as_bytes())?)
}
