//! What follows from the definitions alone.
ghost use Rattle.programs.specs.Begun.{IsClosed, WasClosed};
ghost use Rattle.programs.specs.Founding.{ExportedComesIn};
ghost use Rattle.programs.specs.Life.{CrashEndsRun, CrashLeavesCall, CrashLeavesHeld, DoneIsOneRun};
ghost use Rattle.programs.specs.Life.{FailedIsOneRun, FoundedStayValid, GoesOnWithLife};
ghost use Rattle.programs.specs.Life.{ProgramsAreOneRun};
ghost use Rattle.programs.specs.Life.{RefusedIsOneRun};
ghost use Rattle.programs.specs.Life.{ProgramsStayValid};
ghost use Rattle.programs.specs.Left.{Closes, FailsToMake, GivesNoText, GivesText, MakesStore};
ghost use Rattle.programs.specs.Left.{RefusesToOpen};

use crate::lines::MemoryKeeper;
use builder::RingMachine;
use program_stores::Stores;
use request_book::Keeper;
use request_book::laws::{calls_go_on, run_goes_on};
use std::io::{Read, Write};

/// The calls of each program that did what it was asked for, those that its lines, its requests or
/// its table led to, are one run of the store that it is over, from what it found there to what it
/// left as it closed it. So are those of an import that was refused, unless its table tells no rows:
/// then that was told in place of it.
pub fn a_program_is_one_run<S: Stores, R: Read, W: Write>()
    ensures done { DoneIsOneRun ⟦<MemoryKeeper as Keeper<RingMachine>>⟧ S.Kept.Keeper S.begins
        (Closes S.Stores) (GivesText S.Stores) (GivesNoText S.Stores) R.remaining W.contents
        (MakesStore S.Stores) }
    ensures refused { RefusedIsOneRun ⟦<MemoryKeeper as Keeper<RingMachine>>⟧ S.Kept.Keeper S.begins
        (Closes S.Stores) (GivesText S.Stores) (GivesNoText S.Stores) R.remaining W.contents
        (MakesStore S.Stores) }
{
    calls_go_on::<RingMachine, S::Kept>();
    run_goes_on::<RingMachine>();
}

/// The calls of a program that failed are one run of its store too, which was closed then; or its
/// fault is one that comes before the store is opened, or of the opening.
pub fn a_failed_program_is_one_run<S: Stores, R: Read, W: Write>()
    ensures { FailedIsOneRun ⟦<MemoryKeeper as Keeper<RingMachine>>⟧ S.Kept.Keeper S.begins (Closes
        S.Stores) (GivesText S.Stores) (GivesNoText S.Stores) R.remaining W.contents (RefusesToOpen
        S.Stores) (FailsToMake S.Stores) }
{
    calls_go_on::<RingMachine, S::Kept>();
    run_goes_on::<RingMachine>();
}

/// A program that found what the one before it left goes on with the life of the store, whether it
/// closed the store well or failed.
pub fn programs_are_one_life<S: Stores>()
    ensures done { GoesOnWithLife S.Kept.Keeper S.begins (IsClosed (Closes S.Stores)) }
    ensures failed { GoesOnWithLife S.Kept.Keeper S.begins (WasClosed (Closes S.Stores)) }
{}

/// Between calls a crash leaves what the book holds, and after a call, whatever it was answered, what
/// was before it or the request wholly. What a crash leaves so is what a run leaves that ends with
/// that call: a life goes on over a crash as it does over a close.
pub fn a_crash_ends_a_run<K: Keeper<RingMachine>>()
    ensures between { CrashLeavesHeld K.Keeper }
    ensures after { CrashLeavesCall K.Keeper }
    ensures ends { CrashEndsRun K.Keeper }
{
    run_goes_on::<RingMachine>();
}

/// Programs are started one after another over a store, and each ends by itself, or a crash cuts it
/// off at any moment. All their calls, in their order, come to one run, as if one program had run all
/// the time: where the store failed in a delivery, or a crash came in the midst of it, the run has
/// that delivery with a reply, which nobody got, or does not have it. That run is safe, also from one
/// start to the next, and a repeat in any later program gets the reply that was kept. Where the first
/// program found nothing, the rings are valid all the way.
pub fn all_programs_are_one_run<S: Stores>()
    ensures one { ProgramsAreOneRun S.Kept.Keeper S.begins (Closes S.Stores) }
    ensures valid { ProgramsStayValid S.Kept.Keeper S.begins (Closes S.Stores) }
{}

/// Rings that are founded of texts are valid, and so are those of the store that they are founded
/// beside, if they were before. All programs over a store that was made of them are one safe run:
/// in each rebalance at most one replica of a partition leaves a remaining device, and none before
/// its hours have passed, counted from the hour of the founding. The rings are valid all the way.
pub fn founded_rings_stay_valid<S: Stores>()
    ensures { FoundedStayValid S.Kept.Keeper S.begins (Closes S.Stores) (GivesText S.Stores) }
{}

/// The text that is published of a ring, which `export` writes, is founded as the ring that it was
/// then: under its name, with its version, its devices, and each of them on its seats.
pub fn an_exported_ring_comes_in()
    ensures { ExportedComesIn }
{}
