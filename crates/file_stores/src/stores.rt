//! The stores in files.
ghost use Rattle.std.specs.Prelude.{◌≡◌, Ok};
ghost use Rattle.sqlite_wal.specs.Files.{image_at};
ghost use Rattle.builder_store.specs.Making.{rings_alone};
ghost use Rattle.file_stores.specs.Closed.{EndsIn, store_of_keeper};
ghost use Rattle.file_stores.specs.Made.{IsMadeInFiles, IsNotInFiles};
ghost use Rattle.file_stores.specs.Opened.{IsKept, openings_of};
ghost use Rattle.file_stores.specs.Texts.{IsTextOf, IsUnread};
ghost use Rattle.file_stores.specs.Unopened.{IsNotOpened};

use crate::making::{NewFiles, NewKeeper, make_closed};
use crate::opening::{ClosedFiles, FileKeeper, UnopenedFiles, close_store, open_store};
use crate::reading::{NamedFile, TextRest, read_file};
use builder::RingMachine;
use program_stores::{ProgramFault, Stores};
use request_book::Keeper;
use ring_model::Rings;
use ring_words::Hour;
use sqlite::{FileFrom, Start};
use std::fs::File;
use std::io::Read;
use std::marker::PhantomData;

/// Stands for files that hold what `S` says, each time that they are opened.
#[derive(Drop)]
pub struct HeldFiles<S: Start> {
    like: PhantomData<S>,
}

impl<S: Start> Start for HeldFiles<S> {
    ghost log = { S.log };

    ghost db = { S.db };

    ghost is_mixing = { S.is_mixing };

    fn mixes() -> bool {
        S::mixes()
    }
}

/// Keeps rings and requests in files that hold what `S` says.
pub type HeldKeeper<S> = FileKeeper<HeldFiles<S>>;

/// Stores in files, which are named by their paths. `S` stands for what the files hold, and
/// `F` are the files that words name beside stores.
///
/// It counts how often a store was opened or made, or was to be, up to 2^64 - 1. The count is private
/// to this file, so that nothing else raises it.
#[derive(Drop)]
pub struct StoreFiles<S, F = File> {
    like: PhantomData<S>,
    files: PhantomData<F>,
    openings: u64,
}

impl<S, F> StoreFiles<S, F> {
    /// The stores in files, of which none was opened or made yet.
    pub fn new() -> StoreFiles<S, F>
        ensures { openings_of result ≡ 0 }
    {
        StoreFiles {
            like: PhantomData,
            files: PhantomData,
            openings: 0,
        }
    }
}

impl<S: Start, F: NamedFile> Stores for StoreFiles<S, F> {
    type Kept = HeldKeeper<S>;

    type Unopened = UnopenedFiles<FileFrom<HeldFiles<S>>>;

    type Closed = ClosedFiles<FileFrom<HeldFiles<S>>>;

    type Made = ();

    type Unmade = ();

    type Finished = ();

    type Reader = TextRest<F>;

    ghost openings = { λ stores. openings_of stores };

    ghost begins = { λ name. IsKept ⟦<HeldKeeper<S> as Keeper<RingMachine>>⟧ (image_at S.Start) };

    ghost refuses = { λ name why left. IsNotOpened (image_at S.Start) why left.cause
        left.left };

    ghost ends = { λ keeper answer closed. EndsIn ⟦<HeldKeeper<S> as Keeper<RingMachine>>⟧
        store_of_keeper keeper answer closed.left };

    ghost is_made = { λ name rings hour made. IsMadeInFiles
        ⟦<NewKeeper<S> as Keeper<RingMachine>>⟧ store_of_keeper (rings_alone rings hour) };

    ghost is_unmade = { λ name rings hour why left. IsNotInFiles
        ⟦<NewKeeper<S> as Keeper<RingMachine>>⟧ store_of_keeper (rings_alone rings hour)
        (image_at ⟦<NewFiles<S> as Start>⟧) why };

    ghost finishes = { λ made answer left. answer ≡ Ok tt };

    ghost holds = { λ name text rest. IsTextOf F.opens F.remaining name text rest.reader };

    ghost is_unread = { λ name most why rest. IsUnread F.opens F.remaining F.lacks name most why
        rest.reader };

    fn open(
        &mut self,
        rt: &HostRuntime,
        name: &str,
    ) -> Result<HeldKeeper<S>, (ProgramFault, UnopenedFiles<FileFrom<HeldFiles<S>>>)> {
        self.openings = self.openings.saturating_add(1);
        open_store(rt, name, HeldFiles { like: PhantomData })
    }

    fn close(
        keeper: HeldKeeper<S>,
    ) -> (
        Result<(), ProgramFault>,
        ClosedFiles<FileFrom<HeldFiles<S>>>,
    ) {
        close_store(keeper)
    }

    fn make(
        &mut self,
        rt: &HostRuntime,
        name: &str,
        rings: Rings,
        hour: Hour,
    ) -> Result<(), (ProgramFault, ())> {
        self.openings = self.openings.saturating_add(1);
        match make_closed::<S>(rt, name, rings, hour) {
            Ok(()) => Ok(()),
            Err(fault) => Err((fault, ())),
        }
    }

    fn finish(_made: ()) -> (Result<(), ProgramFault>, ()) {
        (Ok(()), ())
    }

    fn read(
        rt: &HostRuntime,
        name: &str,
        most: u32,
    ) -> (Result<Vec<u8>, ProgramFault>, TextRest<F>) {
        read_file::<F>(rt, name, most)
    }

    ghost opens_whole = { λ name keeper kept. (kept.faults, kept.limit) };
}
