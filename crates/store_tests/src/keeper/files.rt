//! Stores over files in memory.
use super::deeds::{After, Deed};
use sqlite::{Connection, Error, FileStore, Files, Options};
use sqlite_disk::{Disk, Fuse, Memory};
use std::alloc::Global;

/// Files in memory, each of which fails after so many calls. It is the only kind of them here, since
/// what is done over files is proved for each kind anew.
pub type Fused = Files<Fuse<Memory>>;

/// A new file, which never fails.
fn new_file(alloc: Global) -> Fuse<Memory> {
    Fuse::new(Memory::new(alloc), u64::MAX)
}

/// New files, which never fail.
pub fn new_files(alloc: Global) -> Fused {
    Files {
        log: new_file(alloc),
        db: new_file(alloc),
    }
}

/// The database file alone, beside a new log.
pub fn with_new_log(alloc: Global, files: Fused) -> Fused {
    let Files { log: _, db } = files;
    Files {
        log: new_file(alloc),
        db,
    }
}

/// A connection over files, or the files where there is none.
fn opened<D: Disk + Drop>(
    alloc: Global,
    files: Files<D>,
) -> Result<Connection<FileStore<D>>, Files<D>> {
    if !files.log.may_be_used() || !files.db.may_be_used() {
        return Err(files);
    }
    match Connection::open_files(alloc, files, Options::new(1)) {
        Ok(conn) => Ok(conn),
        Err((_, left)) => Err(left.into_files()),
    }
}

/// The files of what a deed left, and why the connection it left couldn't be closed, if it couldn't.
/// Where it is closed the database file holds all.
fn closed<D: Disk + Drop>(after: After<FileStore<D>>) -> (Option<Error>, Files<D>) {
    match after {
        After::Open(conn) => match conn.close_files() {
            Ok(files) => (None, files),
            Err((error, left)) => (Some(error), left.close()),
        },
        After::Left(store) => (None, store.close()),
    }
}

/// Opens files, does a deed over them, and gives what came of it and the files. Nothing came of it
/// where they couldn't be opened.
pub fn try_in_files<D: Disk + Drop, T: Deed>(
    alloc: Global,
    files: Files<D>,
    deed: &T,
) -> Option<(Option<T::Outcome>, Files<D>)> {
    match opened(alloc, files) {
        Ok(conn) => {
            let (outcome, after) = deed.done_over(alloc, conn)?;
            match closed(after) {
                (None, files) => Some((Some(outcome), files)),
                (Some(_), _) => None,
            }
        }
        Err(files) => Some((None, files)),
    }
}

/// Opens files, does a deed over them, and gives what came of it and the files.
pub fn in_files<T: Deed>(alloc: Global, files: Fused, deed: &T) -> Option<(T::Outcome, Fused)> {
    let (outcome, files) = try_in_files(alloc, files, deed)?;
    Some((outcome?, files))
}
