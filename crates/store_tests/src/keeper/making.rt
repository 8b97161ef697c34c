//! Stores that are made of the rings of another one.
use super::deeds::{Make, Run};
use super::files::{Fused, in_files, new_files};
use super::rows::{FIRST, LOCKED, RENEWED, RISEN};
use super::{Ended, run_once};
use crate::fixtures::{FIFTH, check, object};
use builder_store::MakeFault;
use ring_model::Rings;
use ring_words::Hour;
use std::alloc::Global;
use std::test::Fail;
use test_fixtures::rows::WorkedRow;

/// Files whose store holds seven numbers and the hour 24, where it held nothing, and its rings.
fn filled(alloc: Global) -> Option<(Rings, Fused)> {
    let (found, files) = in_files(alloc, new_files(alloc), &Run(&[&FIRST, &LOCKED, &RISEN]))?;
    if found.ended != Ended::Whole || found.hour != 24 {
        return None;
    }
    Some((found.rings, files))
}

/// Whether files hold these rings and this hour, and the files.
fn hold(alloc: Global, files: Fused, rings: &Rings, hour: Hour) -> Option<(bool, Fused)> {
    let (found, files) = in_files(alloc, files, &Run(&[]))?;
    Some((found.is(alloc, rings, hour)?, files))
}

/// Whether files hold these rings and this hour, and rows are then answered as they say.
fn hold_and_go_on(
    alloc: Global,
    files: Fused,
    rings: &Rings,
    hour: Hour,
    then: &[&[WorkedRow<'_>]],
) -> Option<bool> {
    let (holds, files) = hold(alloc, files, rings, hour)?;
    let (whole, _) = run_once(alloc, files, then)?;
    Some(holds && whole)
}

/// Whether a store that is made of rings and an hour holds just these, and rows are then answered
/// as they say.
fn is_renewed(alloc: Global, rings: &Rings, hour: Hour, then: &[&[WorkedRow<'_>]]) -> Option<bool> {
    let (fault, files) = in_files(alloc, new_files(alloc), &Make(rings, hour))?;
    Some(fault.is_none() && hold_and_go_on(alloc, files, rings, hour, then)?)
}

/// Whether a store of the rings of another one is as it should be.
fn renews_filled(alloc: Global) -> Option<bool> {
    let (rings, _) = filled(alloc)?;
    // Number 4 is new, and decided at the hour that was kept: no partition is locked at 24.
    is_renewed(alloc, &rings, 24, &[&RENEWED])
}

#[test]
fn a_renewed_store_has_the_rings_and_the_hour_and_no_number(rt: HostRuntime) -> Result<(), Fail> {
    check(renews_filled(rt.alloc()))
}

#[test]
fn a_store_without_rings_is_renewed_at_its_hour(rt: HostRuntime) -> Result<(), Fail> {
    let none = Rings::new(rt.alloc());
    check(is_renewed(rt.alloc(), &none, 9, &[]))
}

/// Whether nothing is made over a store, and it is as it was when its files are opened again.
fn stays_as_it_was(alloc: Global) -> Option<bool> {
    let (rings, files) = filled(alloc)?;
    let none = Rings::new(alloc);
    let (fault, files) = in_files(alloc, files, &Make(&none, 99))?;
    Some(fault == Some(MakeFault::Taken) && hold_and_go_on(alloc, files, &rings, 24, &[])?)
}

#[test]
fn where_a_store_is_nothing_is_made(rt: HostRuntime) -> Result<(), Fail> {
    check(stays_as_it_was(rt.alloc()))
}

/// Whether nothing is made of rings whose text is none of theirs: the files hold no store.
fn refuses_a_foreign_text(alloc: Global) -> Option<bool> {
    let rings = object(alloc, &FIFTH)?;
    let (fault, files) = in_files(alloc, new_files(alloc), &Make(&rings, 24))?;
    let none = Rings::new(alloc);
    Some(fault == Some(MakeFault::ForeignText) && hold_and_go_on(alloc, files, &none, 0, &[])?)
}

#[test]
fn of_rings_with_a_foreign_text_nothing_is_made(rt: HostRuntime) -> Result<(), Fail> {
    check(refuses_a_foreign_text(rt.alloc()))
}
