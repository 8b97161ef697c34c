//! Opening and making over memory and over the files at a path.
ghost use Rattle.std.specs.Prelude.{◌≡◌, ◌↔◌, ◌<◌, IfErr, IfOk, None, option_map};
ghost use Rattle.sqlite_trees.specs.Tree.{Trees};
ghost use Rattle.sqlite.specs.Files.{file_state};
ghost use Rattle.sqlite.specs.Held.{state};
ghost use Rattle.sqlite.specs.State.{HasCleanDisk};
ghost use Rattle.sqlite.specs.Steps.{over_memory};
ghost use Rattle.sqlite_wal.specs.Files.{image_at};
ghost use Rattle.store_rows.specs.OwnTexts.{HavePublishedOwn};
ghost use Rattle.builder_store.specs.Faults.{file_fault};
ghost use Rattle.builder_store.specs.Keepers.{content_of_keeper};
ghost use Rattle.builder_store.specs.Left.{AreUnopened, IfConnected, IfUnconnected, IsConnected};
ghost use Rattle.builder_store.specs.Left.{IsConnectedAnd, IsMadeOfConnection, IsOfConnection};
ghost use Rattle.builder_store.specs.Left.{IsUnconnected, IsUnmadeOver, IsUntouched};
ghost use Rattle.builder_store.specs.Making.{IsFailure, IsForeign, IsJudgement, rings_alone};
ghost use Rattle.builder_store.specs.Opening.{HoldsBadTexts, HoldsNoStore, HoldsNoTable, HoldsTables};
ghost use Rattle.builder_store.specs.Opening.{IsBadStore, IsLeftOf, IsMadeOf, IsOpenedFrom};
ghost use Rattle.builder_store.specs.Opening.{JudgesFileRows, JudgesTables, Stands};
ghost use Rattle.builder_store.specs.Opening.{TellsFault, TellsOpenFault, nothing};
ghost use Rattle.builder_store.specs.Inner.Begins.{IsMadeOver};
ghost use Rattle.builder_store.specs.declared.fault.FileFault.TheVariants.{Opening};
ghost use Rattle.builder_store.specs.declared.fault.MakeFault.TheVariants.{ForeignText, Taken};
ghost use Rattle.builder_store.specs.declared.fault.OpenFault.TheVariants.{BadTexts};
ghost use Rattle.builder_store.specs.declared.over.FilesLeft.TheVariants.{Files};

use crate::fault::{FileFault, MakeFault, OpenFault};
use crate::keeper::SqlKeeper;
use crate::making::judge_rings;
use ring_model::Rings;
use ring_words::{Hour, Limits};
use sqlite::{Alter, Connection, Error, ErrorCode, FileFrom, FileStore, Leftover, MemStore, Start};
use sqlite_disk::Disk;
use std::alloc::Global;
use std::fs::symlink_metadata;
use std::io::ErrorKind;
use std::rt::HostRuntime;
use store_rows::laws::nothing_is_holdable;

/// A keeper of no rings and no request, in memory. It keeps at most `limits.numbers` requests.
pub fn open_memory(alloc: Global, limits: Limits) -> Result<SqlKeeper<MemStore>, OpenFault>
    ensures limit { IfOk result (λ k. k.limit ≡ limits.numbers) }
    ensures faults { IfOk result (λ k. k.faults ≡ 0) }
    ensures found { IfOk result (λ k. HasCleanDisk (state over_memory k.conn)
        → content_of_keeper k ≡ nothing) }
    // There is no table yet, and that stands for no rings and no request.
    ensures good { IfErr result (λ fault. JudgesTables fault → ⊥) }
    // Memory has no disk that fails.
    ensures unfailed { IfErr result (λ fault. TellsFault fault → ⊥) }
{
    nothing_is_holdable();
    let Ok(conn) = Connection::open_in_memory(alloc) else {
        return Err(OpenFault::NoMemory);
    };
    match SqlKeeper::over(alloc, conn, limits) {
        Ok(keeper) => Ok(keeper),
        Err((fault, _)) => Err(fault),
    }
}

/// Why a connection over files isn't made.
fn file_fault(error: &Error) -> FileFault
    ensures which { result ≡ file_fault error.now }
    ensures unconnected { IsOfConnection result → ⊥ }
{
    match error {
        Error::SqliteFailure(ErrorCode::DatabaseBusy) => FileFault::Busy,
        Error::SqliteFailure(ErrorCode::CannotOpen) => FileFault::CannotOpen,
        Error::SqliteFailure(ErrorCode::NotADatabase) => FileFault::NoDatabase,
        Error::SqliteFailure(ErrorCode::DatabaseCorrupt) => FileFault::Damaged,
        Error::SqliteFailure(ErrorCode::OutOfMemory) => FileFault::NoMemory,
        _ => FileFault::Store,
    }
}

/// What a refused opening or making leaves of files that were opened.
pub enum FilesLeft<D: Disk> {
    /// The connection that was made over them.
    Connection(Connection<FileStore<D>>),
    /// What they are, where no connection could be made over them.
    Files(Leftover<D>),
}

// It is written out, so that a caller does not prove again how each part is dropped.
impl<D: Disk + Drop> Drop for FilesLeft<D> {
    fn drop(self) {
        match self {
            FilesLeft::Connection(_conn) => {}
            FilesLeft::Files(_files) => {}
        }
    }
}

/// What is left of files over which no connection was made, if they were opened.
fn unconnected<D: Disk>(left: Option<Leftover<D>>) -> Option<FilesLeft<D>>
    ensures { result ≡ option_map Files left }
{
    match left {
        Some(files) => Some(FilesLeft::Files(files)),
        None => None,
    }
}

/// A connection over the files of a store.
type FileConnection<S> = Connection<FileStore<FileFrom<S>>>;

/// What is left of the files of a store.
type FileRest<S> = FilesLeft<FileFrom<S>>;

/// A connection to the database file at a path and the log beside it, which are made where they are
/// missing. Where none is made, what is left of the files is given back, if they were opened.
fn open_files<S: Start>(
    rt: &HostRuntime,
    path: &str,
    start: S,
) -> Result<FileConnection<S>, (FileFault, Option<FileRest<S>>)>
    ensures made { IfOk result (IsMadeOver (image_at S.Start)) }
    ensures unopened { IfErr result (λ e. e.1 ≡ None → AreUnopened e.0) }
    ensures unmade { IfErr result (λ e. (IsOfConnection e.0 → ⊥) × (IsConnected e.1 → ⊥)) }
    ensures left { IfErr result (λ e. IfUnconnected e.1 (IsUnconnected (image_at S.Start) e.0)) }
{
    match Connection::open_from(rt, path, false, start) {
        Ok(conn) => Ok(conn),
        Err((error, left)) => Err((file_fault(&error), unconnected(left))),
    }
}

/// Opens the database file at a path and the log beside it, and makes them where they are missing.
/// Keeps at most `limits.numbers` requests. A refused opening gives back what is left, unless the
/// files were not opened.
///
/// `start` stands for what the files hold: the keeper has the content for which they stand. What
/// they hold is told as bad only where it stands for nothing, or has a text that is no UTF-8.
pub fn open_from<S: Start>(
    rt: &HostRuntime,
    path: &str,
    limits: Limits,
    start: S,
) -> Result<SqlKeeper<FileStore<FileFrom<S>>>, (FileFault, Option<FilesLeft<FileFrom<S>>>)>
    ensures limit { IfOk result (λ k. k.limit ≡ limits.numbers) }
    ensures faults { IfOk result (λ k. k.faults ≡ 0) }
    ensures found { IfOk result (λ k. HasCleanDisk (file_state k.conn) → IsOpenedFrom
        (image_at S.Start) (content_of_keeper k)) }
    // Nothing is left only where the files were not opened, and the connection is left wherever one
    // was made.
    ensures unopened { IfErr result (λ e. e.1 ≡ None → AreUnopened e.0) }
    ensures connected { IfErr result (λ e. IsOfConnection e.0 ↔ IsConnected e.1) }
    ensures unconnected { IfErr result (λ e. IfUnconnected e.1 (IsUnconnected (image_at S.Start)
        e.0)) }
    ensures bad { IfErr result (λ e. IsBadStore e.0 → IsConnectedAnd e.1 (λ conn.
        HasCleanDisk (file_state conn) → HoldsNoStore (image_at S.Start))) }
    ensures texts { IfErr result (λ e. e.0 ≡ Opening BadTexts → IsConnectedAnd e.1 (λ conn.
        HasCleanDisk (file_state conn) → HoldsBadTexts (image_at S.Start))) }
    // The store is told to have failed or to be damaged only where its disk failed or refused, or
    // gave back what is no page.
    ensures failed { IfErr result (λ e. TellsOpenFault e.0 → IsConnectedAnd e.1 (λ conn.
        HasCleanDisk (file_state conn) → 0 < (file_state conn).faults)) }
    // A crash after a refusal leaves what the files recovered to, or what an opening makes of it;
    // where the rows or their texts are refused, nothing was written.
    ensures rows { IfErr result (λ e. JudgesFileRows e.0 → IsConnectedAnd e.1 (λ conn.
        HasCleanDisk (file_state conn) → (db : Trees) → (file_state conn).may_leave db
        → IsLeftOf (λ _ _. ⊥) (image_at S.Start) db)) }
    ensures crash { IfErr result (λ e. IfConnected e.1 (λ conn. HasCleanDisk (file_state conn)
        → (db : Trees) → (file_state conn).may_leave db
        → IsLeftOf IsMadeOf (image_at S.Start) db)) }
{
    let conn = match open_files(rt, path, start) {
        Ok(conn) => conn,
        Err((fault, left)) => return Err((fault, left)),
    };
    match SqlKeeper::over(rt.alloc(), conn, limits) {
        Ok(keeper) => Ok(keeper),
        Err((fault, conn)) => {
            Err((FileFault::Opening(fault), Some(FilesLeft::Connection(conn))))
        }
    }
}

/// Whether there is anything at a path, as also a link that leads nowhere.
fn is_taken(rt: &HostRuntime, path: &str) -> Result<bool, FileFault>
    ensures { IfErr result AreUnopened }
{
    match symlink_metadata(rt, path) {
        Ok(_) => Ok(true),
        Err(error) => match error.kind() {
            ErrorKind::NotFound => Ok(false),
            ErrorKind::OutOfMemory => Err(FileFault::NoMemory),
            _ => Err(FileFault::CannotOpen),
        },
    }
}

/// A connection to a database file at a path where nothing was, and the log beside it, of which a
/// store of these rings is to be made. The rings are judged before anything is opened.
fn new_files<S: Start>(
    rt: &HostRuntime,
    path: &str,
    rings: &Rings,
    start: S,
) -> Result<FileConnection<S>, (MakeFault, Option<FileRest<S>>)>
    ensures made { IfOk result (IsMadeOver (image_at S.Start)) }
    ensures own { IfOk result (λ _. HavePublishedOwn rings.now) }
    ensures foreign { IfErr result (λ e. IsForeign rings.now e.0) }
    ensures unopened { IfErr result (λ e. e.0 ≡ ForeignText → e.1 ≡ None) }
    ensures untouched { IfErr result (λ e. e.1 ≡ None → IsUntouched e.0) }
    ensures unmade { IfErr result (λ e. (IsMadeOfConnection e.0 → ⊥) × (IsConnected e.1 → ⊥)) }
    ensures left { IfErr result (λ e. IfUnconnected e.1 (IsUnmadeOver (image_at S.Start) e.0)) }
{
    match is_taken(rt, path) {
        Ok(false) => {}
        Ok(true) => return Err((MakeFault::PathTaken, None)),
        Err(fault) => return Err((MakeFault::Opening(fault), None)),
    }
    if let Err(fault) = judge_rings(rt.alloc(), rings) {
        return Err((fault, None));
    }
    match open_files(rt, path, start) {
        Ok(conn) => Ok(conn),
        Err((fault, left)) => Err((MakeFault::Opening(fault), left)),
    }
}

/// Makes a store of these rings in a file that is not there, with the log beside it. It has no
/// request, and its book goes on from `hour`. Keeps at most `limits.numbers` requests.
///
/// Whatever is at the path already stays as it was, and the answer is `PathTaken`. Where a text that
/// the rings published is not their own, nothing is opened. `start` stands for what the files hold
/// once they are there. A refusal gives back what is left, unless the files were not opened.
pub fn make_at<S: Start>(
    rt: &HostRuntime,
    path: &str,
    rings: Rings,
    hour: Hour,
    limits: Limits,
    start: S,
) -> Result<SqlKeeper<FileStore<FileFrom<S>>>, (MakeFault, Option<FilesLeft<FileFrom<S>>>)>
    ensures limit { IfOk result (λ k. k.limit ≡ limits.numbers) }
    ensures faults { IfOk result (λ k. k.faults ≡ 0) }
    ensures made { IfOk result (λ k. HasCleanDisk (file_state k.conn)
        → content_of_keeper k ≡ rings_alone rings hour) }
    ensures nothing { IfOk result (λ k. HasCleanDisk (file_state k.conn)
        → HoldsNoTable (image_at S.Start)) }
    ensures unjudged { IfErr result (λ e. IsJudgement e.0 → ⊥) }
    ensures foreign { IfErr result (λ e. IsForeign rings e.0) }
    ensures unopened { IfErr result (λ e. e.0 ≡ ForeignText → e.1 ≡ None) }
    // Nothing is left only where nothing was opened, and the connection is left wherever one was
    // made.
    ensures untouched { IfErr result (λ e. e.1 ≡ None → IsUntouched e.0) }
    ensures connected { IfErr result (λ e. IsMadeOfConnection e.0 ↔ IsConnected e.1) }
    ensures unconnected { IfErr result (λ e. IfUnconnected e.1 (IsUnmadeOver (image_at S.Start)
        e.0)) }
    ensures taken { IfErr result (λ e. e.0 ≡ Taken → IsConnectedAnd e.1 (λ conn.
        HasCleanDisk (file_state conn) → HoldsTables (image_at S.Start))) }
    // The store is told to have failed or to be damaged only where its disk failed or refused, or
    // gave back what is no page.
    ensures failed { IfErr result (λ e. IsFailure e.0 → IsConnectedAnd e.1 (λ conn.
        HasCleanDisk (file_state conn) → 0 < (file_state conn).faults)) }
    // A crash after a refusal leaves what the files recovered to, or what was to be made; where
    // there are tables already, they stay.
    ensures stays { IfErr result (λ e. e.0 ≡ Taken → IsConnectedAnd e.1 (λ conn.
        HasCleanDisk (file_state conn) → (db : Trees) → (file_state conn).may_leave db
        → IsLeftOf (λ _ _. ⊥) (image_at S.Start) db)) }
    ensures crash { IfErr result (λ e. IfConnected e.1 (λ conn. HasCleanDisk (file_state conn)
        → (db : Trees) → (file_state conn).may_leave db
        → IsLeftOf (λ _ made. Stands made (rings_alone rings hour)) (image_at S.Start) db)) }
{
    let conn = match new_files(rt, path, &rings, start) {
        Ok(conn) => conn,
        Err((fault, left)) => return Err((fault, left)),
    };
    match SqlKeeper::make_over(rt.alloc(), conn, rings, hour, limits) {
        Ok(keeper) => Ok(keeper),
        Err((fault, conn)) => Err((fault, Some(FilesLeft::Connection(conn)))),
    }
}
