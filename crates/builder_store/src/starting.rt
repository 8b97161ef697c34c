//! From what tables are there to what they hold.
ghost use Rattle.std.specs.Prelude.{◌≡◌, ℕ, false, Err, IfErr, IfOk, IsErrAnd, OnOk};
ghost use Rattle.sqlite.specs.Held.{state};
ghost use Rattle.sqlite.specs.State.{HasCleanDisk, IsUnchanged, Survives};
ghost use Rattle.builder_store.specs.Opening.{AreDeclared, HasBadTexts, IsMadeOf, IsOpenedAs};
ghost use Rattle.builder_store.specs.Opening.{JudgesRows, JudgesTables};
ghost use Rattle.store_rows.specs.Stands.{RingContent};
ghost use Rattle.builder_store.specs.Inner.Opened.{FailsOnlyFor, IsFresh, IsOpenedTo};
ghost use Rattle.builder_store.specs.Inner.Tables.{HasTables};
ghost use Rattle.builder_store.specs.declared.fault.OpenFault.TheVariants.{BadRows, BadTables, BadTexts};

use crate::adopting::fault_of;
use crate::calls::ask_nothing;
use crate::fault::OpenFault;
use crate::opening::open_rows;
use crate::reading::Opened;
use sqlite::{Alter, Connection};
use std::alloc::Global;
use store_tables::tables_made;

/// Opens what is there.
fn open_tables<S: Alter>(alloc: Global, conn: &mut Connection<S>) -> Result<Opened, OpenFault>
    requires mode { conn.old.in_transaction ≡ false }
    requires fresh { HasCleanDisk (state S.Store conn.old) → IsFresh (state S.Store conn.old) }
    ensures mode { conn.new.in_transaction ≡ false }
    ensures tables { HasCleanDisk (state S.Store conn.new) → OnOk result (HasTables
        (state S.Store conn.new)) }
    ensures found { HasCleanDisk (state S.Store conn.new) → IfOk result
        (IsOpenedTo (state S.Store conn.old).committed.trees (state S.Store conn.new).committed.trees) }
    ensures quiet { IsErrAnd result JudgesRows
        → Survives (state S.Store conn.old) (state S.Store conn.new) (λ _. ⊥) }
    ensures bad { result ≡ Err BadRows → HasCleanDisk (state S.Store conn.new)
        → (content : RingContent) → IsOpenedAs (state S.Store conn.old).committed.trees content → ⊥ }
    ensures texts { result ≡ Err BadTexts → HasCleanDisk (state S.Store conn.new)
        → HasBadTexts (state S.Store conn.old).committed.trees }
    ensures missing { result ≡ Err BadTables → HasCleanDisk (state S.Store conn.new)
        → (made : ℕ) → AreDeclared made (state S.Store conn.old).committed.trees → ⊥ }
    ensures survives { Survives (state S.Store conn.old) (state S.Store conn.new)
        (IsMadeOf (state S.Store conn.old).committed.trees) }
    ensures failed { FailsOnlyFor (state S.Store conn.old) (state S.Store conn.new) result }
{
    match tables_made(alloc, conn) {
        Ok(Some(made)) => open_rows(alloc, conn, made),
        Ok(None) => Err(OpenFault::BadTables),
        Err(error) => Err(fault_of(&error)),
    }
}

/// Asks a connection for nothing a first time, so that it answers later without memory.
pub(crate) fn get_ready<S: Alter>(conn: &mut Connection<S>) -> Result<(), OpenFault>
    requires { conn.old.in_transaction ≡ false }
    ensures mode { conn.new.in_transaction ≡ false }
    ensures same { HasCleanDisk (state S.Store conn.new) → OnOk result (IsUnchanged
        (state S.Store conn.old) (state S.Store conn.new)) }
    ensures other { IfErr result (λ why. JudgesTables why → ⊥) }
    ensures failed { FailsOnlyFor (state S.Store conn.old) (state S.Store conn.new) result }
    ensures survives { Survives (state S.Store conn.old) (state S.Store conn.new) (λ _. ⊥) }
{
    match ask_nothing(conn) {
        Ok(()) => Ok(()),
        Err(error) => Err(fault_of(&error)),
    }
}

/// Opens what is there, and leaves the connection so that it can be asked for nothing without
/// memory.
pub(crate) fn open_ready<S: Alter>(
    alloc: Global,
    conn: &mut Connection<S>,
) -> Result<Opened, OpenFault>
    requires mode { conn.old.in_transaction ≡ false }
    requires fresh { HasCleanDisk (state S.Store conn.old) → IsFresh (state S.Store conn.old) }
    ensures mode { conn.new.in_transaction ≡ false }
    ensures tables { HasCleanDisk (state S.Store conn.new) → OnOk result (HasTables
        (state S.Store conn.new)) }
    ensures found { HasCleanDisk (state S.Store conn.new) → IfOk result
        (IsOpenedTo (state S.Store conn.old).committed.trees (state S.Store conn.new).committed.trees) }
    ensures quiet { IsErrAnd result JudgesRows
        → Survives (state S.Store conn.old) (state S.Store conn.new) (λ _. ⊥) }
    ensures bad { result ≡ Err BadRows → HasCleanDisk (state S.Store conn.new)
        → (content : RingContent) → IsOpenedAs (state S.Store conn.old).committed.trees content → ⊥ }
    ensures texts { result ≡ Err BadTexts → HasCleanDisk (state S.Store conn.new)
        → HasBadTexts (state S.Store conn.old).committed.trees }
    ensures missing { result ≡ Err BadTables → HasCleanDisk (state S.Store conn.new)
        → (made : ℕ) → AreDeclared made (state S.Store conn.old).committed.trees → ⊥ }
    ensures survives { Survives (state S.Store conn.old) (state S.Store conn.new)
        (IsMadeOf (state S.Store conn.old).committed.trees) }
    ensures failed { FailsOnlyFor (state S.Store conn.old) (state S.Store conn.new) result }
{
    let opened = open_tables(alloc, conn)?;
    get_ready(conn)?;
    Ok(opened)
}
