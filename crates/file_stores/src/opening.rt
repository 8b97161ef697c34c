//! Opening and closing the store in a file.
ghost use Rattle.std.specs.Prelude.{◌≡◌, IfErr, IfOk};
ghost use Rattle.sqlite_wal.specs.Files.{image_at};
ghost use Rattle.program_stores.specs.Faults.{IsCloseFault, IsStoreFault};
ghost use Rattle.file_stores.specs.Closed.{EndsIn, EndsSettled, close_fault, store_of_keeper};
ghost use Rattle.file_stores.specs.Opened.{IsKept};
ghost use Rattle.file_stores.specs.Unopened.{IsNotOpened, open_fault};

use builder::RingMachine;
use builder_store::{FileFault, FilesLeft, OpenFault, SqlKeeper, close_keeper, open_from};
use program_stores::ProgramFault;
use request_book::Keeper;
use ring_words::Limits;
use sqlite::{Error, ErrorCode, FileFrom, FileStore, Files, Start};
use sqlite_disk::Disk;

/// Keeps rings and requests in a file and the log beside it.
pub type FileKeeper<S> = SqlKeeper<FileStore<FileFrom<S>>>;

/// What is left where a store in files isn't opened.
#[derive(Drop)]
pub struct UnopenedFiles<D: Disk> {
    /// Why it isn't.
    pub cause: FileFault,
    /// What is left of the files, if they were opened.
    pub left: Option<FilesLeft<D>>,
}

/// What is left where a store in files was closed, or couldn't be.
#[derive(Drop)]
pub struct ClosedFiles<D: Disk> {
    /// The files in which it is; or why it couldn't be closed, and the store.
    pub left: Result<Files<D>, (Error, FileStore<D>)>,
}

/// What is told where the store in a file isn't opened.
pub(crate) fn open_fault(fault: FileFault) -> ProgramFault
    ensures { result ≡ open_fault fault }
{
    match fault {
        FileFault::Busy | FileFault::CannotOpen | FileFault::Store => ProgramFault::StoreFault,
        FileFault::NoDatabase | FileFault::Damaged => ProgramFault::BadStore,
        FileFault::NoMemory | FileFault::Opening(OpenFault::NoMemory) => ProgramFault::NoMemory,
        FileFault::Opening(OpenFault::Store | OpenFault::Refused) => ProgramFault::StoreFault,
        FileFault::Opening(
            OpenFault::Damaged | OpenFault::BadRows | OpenFault::BadTexts | OpenFault::BadTables,
        ) => ProgramFault::BadStore,
    }
}

/// Opens the store in a file, and makes it where it is missing. `start` stands for what the file
/// and its log hold.
#[tactic(auto, using(crate::proofs::Faults::store_fault))]
pub(crate) fn open_store<S: Start>(
    rt: &HostRuntime,
    file: &str,
    start: S,
) -> Result<FileKeeper<S>, (ProgramFault, UnopenedFiles<FileFrom<S>>)>
    ensures kept { IfOk result (IsKept ⟦<FileKeeper<S> as Keeper<RingMachine>>⟧
        (image_at S.Start)) }
    ensures unopened { IfErr result (λ e. IsNotOpened (image_at S.Start) e.0 e.1.cause e.1.left) }
    ensures fault { IfErr result (λ e. IsStoreFault e.0) }
{
    match open_from(rt, file, Limits::full(), start) {
        Ok(keeper) => Ok(keeper),
        Err((cause, left)) => Err((open_fault(cause), UnopenedFiles { cause, left })),
    }
}

/// The keeper as it is, and what a crash leaves of it.
fn stands<K: Keeper<RingMachine>>(keeper: K) -> K
    ensures same { result ≡ keeper }
    ensures left { EndsSettled K.Keeper keeper }
{
    let _faults = keeper.faults();
    keeper
}

/// What is told where a store couldn't be closed: that memory was wanted, exactly where it was.
fn close_fault(error: &Error) -> ProgramFault
    ensures told { result ≡ close_fault error.now }
    ensures fault { IsCloseFault result }
{
    match error {
        Error::SqliteFailure(ErrorCode::OutOfMemory) => ProgramFault::NoMemory,
        _ => ProgramFault::StoreFault,
    }
}

/// Closes a store, so that all that it holds is in its file, and says so only where it is.
pub(crate) fn close_store<S: Start>(
    keeper: FileKeeper<S>,
) -> (Result<(), ProgramFault>, ClosedFiles<FileFrom<S>>)
    ensures ended { EndsIn ⟦<FileKeeper<S> as Keeper<RingMachine>>⟧ store_of_keeper keeper result.0
        result.1.left }
    ensures fault { IfErr result.0 IsCloseFault }
{
    match close_keeper(stands(keeper)) {
        Ok(files) => (Ok(()), ClosedFiles { left: Ok(files) }),
        Err((error, store)) => {
            let why = close_fault(&error);
            let left = Err((error, store));
            (Err(why), ClosedFiles { left })
        }
    }
}
