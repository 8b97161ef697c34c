//! What the program does over the stores in files.
ghost use Rattle.std.specs.Prelude.{◌≡◌, ◌≤◌, ◌⊎◌, map, string_bytes};
ghost use Rattle.command_line.specs.Tasks.{AskForNothing};
ghost use Rattle.programs.specs.Begun.{OpensNone};
ghost use Rattle.programs.specs.Performed.{DoesAskedOver, FailsAskedOver};
ghost use Rattle.file_stores.specs.Opened.{openings_of};

use builder::RingMachine;
use byte_streams::{CountedReader, CountedWriter};
use file_stores::{HeldKeeper, StoreFiles};
use program_stores::Stores;
use programs::{MemoryKeeper, perform};
use request_book::Keeper;
use sqlite::Start;
use std::io::{Read, Write};

/// Does what the words ask for, as `perform` does, over the stores in files. `S` stands for what the
/// files hold: the promise is that of `perform`, where stores are opened, made and closed and files
/// are read as `StoreFiles` does that.
pub fn perform_over_files<S: Start, R: Read, W: Write, E: Write>(
    rt: &HostRuntime,
    words: &[String],
    reader: &mut CountedReader<R>,
    writer: &mut CountedWriter<W>,
    errors: &mut CountedWriter<E>,
    stores: &mut StoreFiles<S>,
) -> u8
    ensures status { result ≤ 3 }
    ensures done { result ≡ 0 → DoesAskedOver ⟦<StoreFiles<S> as Stores>⟧
        ⟦<HeldKeeper<S> as Keeper<RingMachine>>⟧ ⟦<MemoryKeeper as Keeper<RingMachine>>⟧ stores.old
        stores.new R.remaining W.contents reader.old reader.new writer.old writer.new E.contents
        errors.old errors.new (map string_bytes words.now) }
    ensures fault { (result ≡ 1) ⊎ (result ≡ 3) → FailsAskedOver ⟦<StoreFiles<S> as Stores>⟧
        ⟦<HeldKeeper<S> as Keeper<RingMachine>>⟧ ⟦<MemoryKeeper as Keeper<RingMachine>>⟧ stores.old
        stores.new R.remaining W.contents reader.old reader.new writer.old writer.new E.contents
        errors.old errors.new (map string_bytes words.now) result }
    ensures nothing { result ≡ 2 → AskForNothing (map string_bytes words.now)
        × (reader.new ≡ reader.old) × (writer.new ≡ writer.old)
        × OpensNone (openings_of stores.old) (openings_of stores.new) }
{
    perform(rt, words, reader, writer, errors, stores)
}
