//! The program `renew`: a new store with the rings of another one, in which numbers begin anew.
ghost use Rattle.std.specs.Prelude.{◌≡◌, ⊤, IfErr, IfOk, OnOk};
ghost use Rattle.request_book.specs.Keeper.{LeavesOnly};
ghost use Rattle.request_book.specs.declared.keeper.KeepFault.{KeepFault};
ghost use Rattle.programs.specs.Begun.{HasFailedBy, HasNotFailed, IsClosedWhole, OpensOne};
ghost use Rattle.programs.specs.Begun.{OpensTwo};
ghost use Rattle.program_stores.specs.Faults.{keep_fault};
ghost use Rattle.programs.specs.Renewing.{FailsToRead, FailsToRenew, IsRead, Renews};
ghost use Rattle.programs.specs.Left.{Closes, FailsToMake, MakesStore, RefusesToOpen};

use crate::dropping::{close_store, make_store, open_store};
use builder::RingMachine;
use program_stores::{ProgramFault, Stores};
use request_book::Keeper;
use ring_model::Rings;
use ring_words::Hour;

/// The rings that a keeper holds.
fn rings_of<K: Keeper<RingMachine>>(keeper: &mut K) -> Result<Rings, ProgramFault>
    requires { K.fault_count keeper.old ≡ 0 }
    ensures rings { IfOk result (λ rings. K.sound keeper.new
        → (K.content keeper.old).state ≡ rings) }
    ensures fault { IfErr result (λ why. (cause : KeepFault) × (why ≡ keep_fault cause)
        × HasFailedBy K.Keeper cause keeper.new) }
    ensures whole { OnOk result (HasNotFailed K.Keeper keeper.new) }
    ensures sound { K.sound keeper.new → K.sound keeper.old }
    ensures content { K.sound keeper.new → K.content keeper.new ≡ K.content keeper.old }
    ensures left { K.sound keeper.new → LeavesOnly (K.may_leave keeper.new)
        (K.content keeper.old) }
{
    keeper.load()?;
    Ok(keeper.state().clone()?)
}

/// The rings and the greatest hour that a keeper holds.
fn rings_and_hour<K: Keeper<RingMachine>>(keeper: &mut K) -> Result<(Rings, Hour), ProgramFault>
    requires { K.fault_count keeper.old ≡ 0 }
    ensures found { IfOk result (λ found. K.sound keeper.new
        → ((K.content keeper.old).state ≡ found.0) × ((K.content keeper.old).hour ≡ found.1)) }
    ensures fault { IfErr result (λ why. (cause : KeepFault) × (why ≡ keep_fault cause)
        × HasFailedBy K.Keeper cause keeper.new) }
    ensures whole { OnOk result (HasNotFailed K.Keeper keeper.new) }
    ensures sound { K.sound keeper.new → K.sound keeper.old }
    ensures content { K.sound keeper.new → K.content keeper.new ≡ K.content keeper.old }
    ensures left { K.sound keeper.new → LeavesOnly (K.may_leave keeper.new)
        (K.content keeper.old) }
{
    let hour = keeper.hour()?;
    Ok((rings_of(keeper)?, hour))
}

/// The rings and the greatest hour that a keeper holds, and the keeper as it is then.
fn found_in<K: Keeper<RingMachine>>(keeper: K) -> (Result<(Rings, Hour), ProgramFault>, K)
    requires { K.fault_count keeper ≡ 0 }
    ensures found { IfOk result.0 (λ found. IsRead K.Keeper (λ k. k ≡ keeper) (λ k. k ≡ result.1)
        (λ rings hour. (rings ≡ found.0) × (hour ≡ found.1))) }
    ensures fault { IfErr result.0 (λ why. (cause : KeepFault) × (why ≡ keep_fault cause)
        × HasFailedBy K.Keeper cause result.1
        × IsRead K.Keeper (λ k. k ≡ keeper) (λ k. k ≡ result.1) (λ rings hour. ⊤)) }
    ensures whole { OnOk result.0 (HasNotFailed K.Keeper result.1) }
{
    let mut keeper = keeper;
    let found = rings_and_hour(&mut keeper);
    (found, keeper)
}

/// The rings and the greatest hour of a store, which is closed then.
pub(crate) fn read_store<S: Stores>(
    rt: &HostRuntime,
    file: &str,
    stores: &mut S,
) -> Result<(Rings, Hour), ProgramFault>
    ensures opened { OpensOne (S.openings stores.old) (S.openings stores.new) }
    ensures found { IfOk result (λ found. IsRead S.Kept.Keeper (S.begins file.now) (IsClosedWhole
        S.Kept.Keeper (Closes S.Stores)) (λ rings hour. (rings ≡ found.0) × (hour ≡ found.1))) }
    ensures fault { IfErr result (FailsToRead S.Kept.Keeper (S.begins file.now) (Closes S.Stores)
        (RefusesToOpen S.Stores file.now)) }
{
    let keeper = open_store(rt, file, stores)?;
    let (found, keeper) = found_in(keeper);
    let closed = close_store::<S>(keeper);
    let found = found?;
    closed?;
    Ok(found)
}

/// Makes the store `new`, where there is none, of the rings and the hour of another one.
pub(crate) fn renew_store<S: Stores>(
    rt: &HostRuntime,
    file: &str,
    new: &str,
    stores: &mut S,
) -> Result<(), ProgramFault>
    ensures opened { OnOk result (OpensTwo (S.openings stores.old) (S.openings stores.new)) }
    ensures renewed { OnOk result (Renews S.Kept.Keeper (S.begins file.now)
        (IsClosedWhole S.Kept.Keeper (Closes S.Stores)) (MakesStore S.Stores new.now)) }
    ensures fault { IfErr result (FailsToRenew S.Kept.Keeper (S.begins file.now) (Closes S.Stores)
        (RefusesToOpen S.Stores file.now) (FailsToMake S.Stores new.now) (S.openings stores.old)
        (S.openings stores.new)) }
{
    let (rings, hour) = read_store(rt, file, stores)?;
    make_store(rt, new, rings, hour, stores)
}
