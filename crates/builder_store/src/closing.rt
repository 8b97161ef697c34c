//! Closing the store in files.
ghost use Rattle.std.specs.Prelude.{◌≡◌, IfErr, IfOk};
ghost use Rattle.sqlite_trees.specs.View.{IsClean};
ghost use Rattle.sqlite_store.specs.FileStore.{view};
ghost use Rattle.sqlite_wal.specs.Reads.{AreClean};
ghost use Rattle.builder_store.specs.Closing.{AreFilesOf, AreLeftWith, IsUnclosed};
ghost use Rattle.builder_store.specs.Keepers.{content_of_keeper};

use crate::keeper::SqlKeeper;
use sqlite::{Error, FileStore, Files};
use sqlite_disk::Disk;

/// Closes a store in files, so that all that it holds is in the database file, and gives the files
/// back. An opening of them finds the content that the keeper had, with the log beside the database
/// file or without it, and also after a crash. A store that failed before may hold another.
///
/// Where it can't be closed, the store is given back as it is left. It counts how often its disk
/// failed or refused, and has failed once more during the close, unless memory was wanted.
pub fn close_keeper<D: Disk + Drop>(
    keeper: SqlKeeper<FileStore<D>>,
) -> Result<Files<D>, (Error, FileStore<D>)>
    ensures files { IfOk result (AreFilesOf keeper.conn.store) }
    ensures left { IfOk result (λ files. keeper.faults ≡ 0 → AreClean D.Disk files.log files.db
        → AreLeftWith D.Disk files (content_of_keeper keeper)) }
    ensures unclosed { IfErr result (λ e. keeper.faults ≡ 0 → IsClean (view e.1)
        → IsUnclosed keeper.conn.store e.1 e.0) }
{
    let conn = keeper.close();
    conn.close_files()
}
