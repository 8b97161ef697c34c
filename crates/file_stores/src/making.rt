//! Making the store in a file.
ghost use Rattle.std.specs.Prelude.{◌≡◌, IfErr, IfOk, OnOk};
ghost use Rattle.sqlite_wal.specs.Files.{image_at};
ghost use Rattle.builder_store.specs.Making.{rings_alone};
ghost use Rattle.program_stores.specs.Faults.{IsStoreFault};
ghost use Rattle.file_stores.specs.Closed.{store_of_keeper};
ghost use Rattle.file_stores.specs.Made.{IsMadeInFiles, IsNotInFiles};
ghost use Rattle.file_stores.specs.Opened.{IsMade};
ghost use Rattle.file_stores.specs.Unopened.{IsNotMade, make_fault};

use crate::opening::{FileKeeper, close_store, open_fault};
use builder::RingMachine;
use builder_store::{FilesLeft, MakeFault, make_at};
use program_stores::ProgramFault;
use request_book::Keeper;
use ring_model::Rings;
use ring_words::{Hour, Limits};
use sqlite::{FileFrom, Start};
use sqlite_disk::Disk;
use std::marker::PhantomData;

/// Stands for files that are made, and so are empty. What a write that is cut short may leave is
/// taken to be what `S` takes it to be.
#[derive(Drop)]
pub struct NewFiles<S: Start> {
    like: PhantomData<S>,
}

impl<S: Start> Start for NewFiles<S> {
    ghost use Rattle.std.specs.Prelude.{[]};

    ghost log = { [] };

    ghost db = { [] };

    ghost is_mixing = { S.is_mixing };

    fn mixes() -> bool {
        S::mixes()
    }
}

/// Keeps rings and requests in files that are made.
pub type NewKeeper<S> = FileKeeper<NewFiles<S>>;

/// What is left where a store in files isn't made.
#[derive(Drop)]
pub struct UnmadeFiles<D: Disk> {
    /// Why it isn't.
    pub cause: MakeFault,
    /// What is left of the files, if they were opened.
    pub left: Option<FilesLeft<D>>,
}

/// What a store that isn't made is told as. Where something is there already the store can't be
/// made, as where its folder is missing. Rings with a foreign text are those of no store.
fn make_fault(fault: MakeFault) -> ProgramFault
    ensures { result ≡ make_fault fault }
{
    match fault {
        MakeFault::PathTaken | MakeFault::Taken => ProgramFault::StoreFault,
        MakeFault::ForeignText => ProgramFault::BadStore,
        MakeFault::Opening(cause) => open_fault(cause),
    }
}

/// Makes a store of these rings in a file that is not there. It has no request, and goes on from
/// this hour.
pub(crate) fn make_store<S: Start>(
    rt: &HostRuntime,
    file: &str,
    rings: Rings,
    hour: Hour,
) -> Result<NewKeeper<S>, (ProgramFault, UnmadeFiles<FileFrom<NewFiles<S>>>)>
    ensures made { IfOk result (IsMade ⟦<NewKeeper<S> as Keeper<RingMachine>>⟧
        (rings_alone rings hour)) }
    ensures unmade { IfErr result (λ e. IsNotMade (image_at ⟦<NewFiles<S> as Start>⟧)
        (rings_alone rings hour) e.0 e.1.cause e.1.left) }
    ensures fault { IfErr result (λ e. IsStoreFault e.0) }
{
    let files: NewFiles<S> = NewFiles { like: PhantomData };
    match make_at(rt, file, rings, hour, Limits::full(), files) {
        Ok(keeper) => Ok(keeper),
        Err((cause, left)) => Err((make_fault(cause), UnmadeFiles { cause, left })),
    }
}

/// Makes a store of these rings in a file that is not there, and closes it. It has no request, and goes
/// on from this hour.
pub(crate) fn make_closed<S: Start>(
    rt: &HostRuntime,
    file: &str,
    rings: Rings,
    hour: Hour,
) -> Result<(), ProgramFault>
    ensures made { OnOk result (IsMadeInFiles ⟦<NewKeeper<S> as Keeper<RingMachine>>⟧ store_of_keeper
        (rings_alone rings hour)) }
    ensures unmade { IfErr result (IsNotInFiles ⟦<NewKeeper<S> as Keeper<RingMachine>>⟧
        store_of_keeper (rings_alone rings hour) (image_at ⟦<NewFiles<S> as Start>⟧)) }
    ensures fault { IfErr result IsStoreFault }
{
    match make_store::<S>(rt, file, rings, hour) {
        Ok(keeper) => {
            let (answer, left) = close_store(keeper);
            drop(left);
            answer
        }
        Err((fault, left)) => {
            drop(left);
            Err(fault)
        }
    }
}
