//! Writing a store of given rings where nothing is.
ghost use Rattle.std.specs.Prelude.{◌≡◌, ◌≢◌, ◌<◌, ℕ, false, Err, IfErr, IfOk, OnOk};
ghost use Rattle.ring_words.specs.Limits.{long_count};
ghost use Rattle.sqlite.specs.Held.{state};
ghost use Rattle.sqlite.specs.State.{HasCleanDisk, Survives};
ghost use Rattle.store_model.specs.Changes.{prepared};
ghost use Rattle.store_tables.specs.Failing.{HasFailed};
ghost use Rattle.store_tables.specs.Tables.{no_tables};
ghost use Rattle.store_rows.specs.Judging.{meta_now};
ghost use Rattle.store_rows.specs.OwnTexts.{HavePublishedOwn};
ghost use Rattle.store_rows.specs.Stands.{IsHoldable, contents_for};
ghost use Rattle.builder_store.specs.Left.{IsMadeOfConnection, IsUntouched};
ghost use Rattle.builder_store.specs.Making.{IsFailure, IsForeign, IsJudgement, rings_alone};
ghost use Rattle.builder_store.specs.Opening.{Stands, no_contents};
ghost use Rattle.builder_store.specs.Inner.Opened.{IsFresh};
ghost use Rattle.builder_store.specs.Inner.Tables.{HasTables};
ghost use Rattle.builder_store.specs.declared.fault.MakeFault.TheVariants.{Taken};

use crate::adopting::fault_of;
use crate::fault::{FileFault, MakeFault, OpenFault};
use crate::starting::get_ready;
use ring_model::Rings;
use ring_words::{Hour, SpellingFault};
use sqlite::{Alter, Connection};
use std::alloc::{AllocError, Global};
use store_rows::laws::nothing_is_holdable;
use store_rows::{Change, judge_texts, meta_row};
use store_tables::{is_blank, prepare_store};

/// Judges rings of which a store is to be made: all that they published has to be their own text, as
/// an opening asks for it.
pub(crate) fn judge_rings(alloc: Global, rings: &Rings) -> Result<(), MakeFault>
    ensures own { OnOk result (HavePublishedOwn rings.now) }
    ensures foreign { IfErr result (IsForeign rings.now) }
    ensures untouched { IfErr result IsUntouched }
    ensures other { IfErr result (λ why. IsMadeOfConnection why → ⊥) }
{
    match judge_texts(alloc, rings) {
        Ok(()) => Ok(()),
        Err(SpellingFault::Bad) => Err(MakeFault::ForeignText),
        Err(SpellingFault::NoMemory) => Err(MakeFault::Opening(FileFault::NoMemory)),
    }
}

/// The rows that are written for these rings where there is none.
fn rows_alone(alloc: Global, rings: &Rings) -> Result<Change, AllocError>
    requires { HavePublishedOwn rings.now }
    ensures { IfOk result (λ change. (hour : ℕ) → hour < long_count
        → (prepared no_contents change.0 (meta_now hour) ≡ contents_for (rings_alone rings.now hour))
        × IsHoldable (rings_alone rings.now hour)) }
{
    nothing_is_holdable();
    let change = Change::making(alloc, rings)?;
    Ok(change)
}

/// Writes a store of these rings, without a request, whose book goes on from this hour. It is
/// written in one transaction where nothing is there, and else not at all.
fn make_tables<S: Alter>(
    alloc: Global,
    conn: &mut Connection<S>,
    rings: &Rings,
    hour: Hour,
) -> Result<(), MakeFault>
    requires mode { conn.old.in_transaction ≡ false }
    requires fresh { HasCleanDisk (state S.Store conn.old) → IsFresh (state S.Store conn.old) }
    requires own { HavePublishedOwn rings.now }
    ensures mode { conn.new.in_transaction ≡ false }
    ensures nothing { OnOk result (conn.old.schema ≡ no_tables) }
    ensures tables { HasCleanDisk (state S.Store conn.new) → OnOk result (HasTables
        (state S.Store conn.new)) }
    ensures made { HasCleanDisk (state S.Store conn.new) → OnOk result
        (Stands (state S.Store conn.new).committed.trees (rings_alone rings.now hour)) }
    ensures taken { result ≡ Err Taken → (conn.new ≡ conn.old) × (conn.old.schema ≢ no_tables) }
    ensures unjudged { IfErr result (λ why. IsJudgement why → ⊥) }
    ensures of_connection { IfErr result IsMadeOfConnection }
    ensures survives { Survives (state S.Store conn.old) (state S.Store conn.new)
        (λ db. Stands db (rings_alone rings.now hour)) }
    ensures failed { HasCleanDisk (state S.Store conn.new) → IfErr result (λ why. IsFailure why
        → HasFailed (state S.Store conn.old) (state S.Store conn.new)) }
{
    if !is_blank(conn) {
        return Err(MakeFault::Taken);
    }
    let Ok(change) = rows_alone(alloc, rings) else {
        return Err(MakeFault::Opening(FileFault::Opening(OpenFault::NoMemory)));
    };
    let meta = meta_row(hour);
    match prepare_store(conn, 0, change.rows(), &meta) {
        Ok(()) => Ok(()),
        Err(error) => Err(MakeFault::Opening(FileFault::Opening(fault_of(&error)))),
    }
}

/// Writes such a store, and leaves the connection so that it can be asked for nothing without
/// memory.
pub(crate) fn make_ready<S: Alter>(
    alloc: Global,
    conn: &mut Connection<S>,
    rings: &Rings,
    hour: Hour,
) -> Result<(), MakeFault>
    requires mode { conn.old.in_transaction ≡ false }
    requires fresh { HasCleanDisk (state S.Store conn.old) → IsFresh (state S.Store conn.old) }
    requires own { HavePublishedOwn rings.now }
    ensures mode { conn.new.in_transaction ≡ false }
    ensures nothing { OnOk result (conn.old.schema ≡ no_tables) }
    ensures tables { HasCleanDisk (state S.Store conn.new) → OnOk result (HasTables
        (state S.Store conn.new)) }
    ensures made { HasCleanDisk (state S.Store conn.new) → OnOk result
        (Stands (state S.Store conn.new).committed.trees (rings_alone rings.now hour)) }
    ensures taken { result ≡ Err Taken → (conn.new ≡ conn.old) × (conn.old.schema ≢ no_tables) }
    ensures unjudged { IfErr result (λ why. IsJudgement why → ⊥) }
    ensures of_connection { IfErr result IsMadeOfConnection }
    ensures survives { Survives (state S.Store conn.old) (state S.Store conn.new)
        (λ db. Stands db (rings_alone rings.now hour)) }
    ensures failed { HasCleanDisk (state S.Store conn.new) → IfErr result (λ why. IsFailure why
        → HasFailed (state S.Store conn.old) (state S.Store conn.new)) }
{
    make_tables(alloc, conn, rings, hour)?;
    match get_ready(conn) {
        Ok(()) => Ok(()),
        Err(fault) => Err(MakeFault::Opening(FileFault::Opening(fault))),
    }
}
