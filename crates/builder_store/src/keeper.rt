//! The keeper.
ghost use Rattle.std.specs.Prelude.{◌≡◌, ◌≤◌, [], cond, false, nat_lt};
ghost use Rattle.ring_words.specs.Limits.{most_numbers};
ghost use Rattle.sqlite.specs.Held.{state};
ghost use Rattle.sqlite.specs.State.{HasCleanDisk};
ghost use Rattle.builder_store.specs.Standing.{Holds};
ghost use Rattle.builder_store.specs.Inner.Bound.{BoundsIn, known_prop};
ghost use Rattle.builder_store.specs.Inner.Tables.{HasTables, fact_prop};

use crate::adopting::{Left, fault_of, take_over};
use crate::calls::{look_up, read_page};
use crate::fault::{FileFault, MakeFault, OpenFault};
use crate::making::{judge_rings, make_ready};
use crate::planning::keep;
use crate::reading::Opened;
use crate::starting::open_ready;
use builder::RingMachine;
use request_book::{Entry, Found, KeepFault, Keeper};
use ring_model::Rings;
use ring_words::{Command, Hour, Key, Limits, Reply};
use sqlite::{Alter, Connection};
use std::alloc::Global;
use std::snapshot::Snapshot;
use store_rows::Callers;
use store_rows::laws::one_content;

/// Keeps rings and decided requests in the tables of a SQL store. The rings, the count of the
/// requests, the greatest hour and the greatest number of each caller are held in memory beside the
/// tables.
///
/// After a fault of the store nobody knows what the connection shows. The content is then that of
/// the tables as the call in which the store failed found them.
pub struct SqlKeeper<S: Alter> {
    alloc: Global,
    conn: Connection<S>,
    /// The connection as the last call found it.
    last: Snapshot<Connection<S>>,
    rings: Rings,
    count: usize,
    hour: Hour,
    callers: Callers,
    limit: u32,
    faults: u64,
    ghost small: { limit ≤ most_numbers },
    ghost idle: { conn.in_transaction ≡ false },
    ghost tables: { faults ≡ 0 → HasCleanDisk (state S.Store conn) → HasTables
        (state S.Store conn) } by { fact_prop (state S.Store conn) faults },
    ghost holds: { HasCleanDisk (state S.Store conn)
        → Holds (state S.Store (cond (nat_lt 0 faults) last.value conn)).committed.trees rings count
        hour },
    ghost known: { HasCleanDisk (state S.Store conn) → BoundsIn callers
        (state S.Store (cond (nat_lt 0 faults) last.value conn)).committed.trees } by { known_prop
            callers (state S.Store (cond (nat_lt 0 faults) last.value conn)).committed.trees
            (HasCleanDisk (state S.Store conn)) },
}

// It is written out, so that a caller does not prove again how each part is dropped.
impl<S: Alter + Drop> Drop for SqlKeeper<S> {
    fn drop(self) {
        let SqlKeeper {
            alloc: _,
            conn: _,
            last: _,
            rings: _,
            count: _,
            hour: _,
            callers: _,
            limit: _,
            faults: _,
        } = self;
    }
}

impl<S: Alter + Drop> SqlKeeper<S> {
    ghost use Rattle.std.specs.Prelude.{IfErr, IfOk, ◌⊎◌};
    ghost use Rattle.sqlite_trees.specs.Tree.{Trees};
    ghost use Rattle.sqlite_trees.specs.View.{doubt};
    ghost use Rattle.builder_store.specs.Keepers.{HasMetFaults, IsCleanLeft, content_of_keeper};
    ghost use Rattle.builder_store.specs.Keepers.{left_may_leave};
    ghost use Rattle.std.specs.Prelude.{ℕ};
    ghost use Rattle.store_rows.specs.Stands.{RingContent};
    ghost use Rattle.builder_store.specs.Opening.{AreDeclared, HasBadTexts, IsMadeOf, IsOpenedAs};
    ghost use Rattle.builder_store.specs.Opening.{JudgesRows, TellsFault};
    ghost use Rattle.builder_store.specs.declared.fault.OpenFault.TheVariants.{BadRows, BadTables};
    ghost use Rattle.builder_store.specs.declared.fault.OpenFault.TheVariants.{BadTexts};

    /// Opens what the connection's last commit holds, and keeps at most `limits.numbers` requests.
    /// What the connection hasn't committed is rolled back.
    ///
    /// Judges every row, and only then makes the tables that are missing and migrates a store of
    /// schema 1, in one transaction. A refused opening gives back what is left.
    pub fn adopt(
        alloc: Global,
        conn: Connection<S>,
        limits: Limits,
    ) -> Result<SqlKeeper<S>, (OpenFault, Left<S>)>
        ensures limit { IfOk result (λ k. k.limit ≡ limits.numbers) }
        ensures faults { IfOk result (λ k. k.faults ≡ 0) }
        ensures clean { IfOk result (λ k. doubt (state S.Store conn).is_clean ≤ doubt
            (state S.Store k.conn).is_clean) }
        ensures found { IfOk result (λ k. HasCleanDisk (state S.Store k.conn)
            → IsOpenedAs (state S.Store conn).committed.trees (content_of_keeper k)) }
        // Where the rows or their texts are refused, nothing was written: a crash leaves what it
        // could leave before.
        ensures rows { IfErr result (λ e. JudgesRows e.0 → IsCleanLeft S.Store e.1 → (db : Trees)
            → left_may_leave S.Store e.1 db → (state S.Store conn).may_leave db) }
        // The rows are refused only where the tables stand for nothing, a text only where one in the
        // tables is no UTF-8, and the tables only where they are not declared as a store's.
        ensures bad { IfErr result (λ e. e.0 ≡ BadRows → IsCleanLeft S.Store e.1
            → (content : RingContent)
            → IsOpenedAs (state S.Store conn).committed.trees content → ⊥) }
        ensures texts { IfErr result (λ e. e.0 ≡ BadTexts → IsCleanLeft S.Store e.1
            → HasBadTexts (state S.Store conn).committed.trees) }
        ensures missing { IfErr result (λ e. e.0 ≡ BadTables → IsCleanLeft S.Store e.1
            → (made : ℕ) → AreDeclared made (state S.Store conn).committed.trees → ⊥) }
        // The store is told to have failed or to be damaged only where its disk has failed or
        // refused or given back what is no page, or where it was shut before.
        ensures failed { IfErr result (λ e. TellsFault e.0 → IsCleanLeft S.Store e.1
            → HasMetFaults S.Store e.1 ⊎ ((state S.Store conn).is_open ≡ false)) }
        // A crash after a refusal leaves what it could leave before, or what an opening makes of
        // it.
        ensures crash { IfErr result (λ e. IsCleanLeft S.Store e.1 → (db : Trees)
            → left_may_leave S.Store e.1 db
            → (state S.Store conn).may_leave db ⊎ IsMadeOf
            (state S.Store conn).committed.trees db) }
    {
        let conn = match take_over(alloc, conn) {
            Ok(conn) => conn,
            Err((error, store)) => return Err((fault_of(&error), Left::Store(store))),
        };
        match SqlKeeper::over(alloc, conn, limits) {
            Ok(keeper) => Ok(keeper),
            Err((why, conn)) => Err((why, Left::Connection(conn))),
        }
    }
}

impl<S: Alter> SqlKeeper<S> {
    ghost use Rattle.std.specs.Prelude.{IfErr, IfOk};
    ghost use Rattle.builder_store.specs.Inner.Begins.{BeginsOver, BeginsWith, IsJustMade};
    ghost use Rattle.builder_store.specs.Inner.Begins.{IsHolding, IsRefused, IsUnmade};
    ghost use Rattle.store_rows.specs.OwnTexts.{HavePublishedOwn};

    /// A keeper over a connection whose tables stand for a content, of which this is held.
    fn holding(alloc: Global, conn: Connection<S>, opened: Opened, limits: Limits) -> SqlKeeper<S>
        requires idle { conn.in_transaction ≡ false }
        requires tables { HasCleanDisk (state S.Store conn) → HasTables (state S.Store conn) }
        requires holds { HasCleanDisk (state S.Store conn) → Holds
            (state S.Store conn).committed.trees opened.rings opened.count opened.hour }
        requires known { HasCleanDisk (state S.Store conn) → BoundsIn opened.callers
            (state S.Store conn).committed.trees }
        ensures { IsHolding S.Store conn limits.numbers result }
    {
        let Opened {
            rings,
            count,
            hour,
            callers,
        } = opened;
        SqlKeeper {
            alloc,
            last: Snapshot::of(&conn),
            conn,
            rings,
            count,
            hour,
            callers,
            limit: limits.numbers,
            faults: 0,
        }
    }

    /// Opens what a connection holds that was just made over its store, as `adopt` does, but
    /// without reading the store a second time. A refused opening gives the connection back.
    pub(crate) fn over(
        alloc: Global,
        conn: Connection<S>,
        limits: Limits,
    ) -> Result<SqlKeeper<S>, (OpenFault, Connection<S>)>
        requires { IsJustMade S.Store conn }
        ensures begins { IfOk result (BeginsOver S.Store conn limits.numbers) }
        ensures refused { IfErr result (λ e. IsRefused S.Store conn e.0 e.1) }
    {
        one_content();
        let mut conn = conn;
        match open_ready(alloc, &mut conn) {
            Ok(opened) => Ok(SqlKeeper::holding(alloc, conn, opened, limits)),
            Err(fault) => Err((fault, conn)),
        }
    }

    /// Makes a store over a connection that was just made over its store, as `make` does, but
    /// without reading the store a second time. A refusal gives the connection back.
    pub(crate) fn make_over(
        alloc: Global,
        conn: Connection<S>,
        rings: Rings,
        hour: Hour,
        limits: Limits,
    ) -> Result<SqlKeeper<S>, (MakeFault, Connection<S>)>
        requires made { IsJustMade S.Store conn }
        requires own { HavePublishedOwn rings }
        ensures begins { IfOk result (BeginsWith S.Store conn rings hour limits.numbers) }
        ensures refused { IfErr result (λ e. IsUnmade S.Store conn rings hour e.0 e.1) }
    {
        one_content();
        let mut conn = conn;
        match make_ready(alloc, &mut conn, &rings, hour) {
            Ok(()) => {
                let opened = Opened {
                    rings,
                    count: 0,
                    hour,
                    callers: Callers::new(alloc),
                };
                Ok(SqlKeeper::holding(alloc, conn, opened, limits))
            }
            Err(fault) => Err((fault, conn)),
        }
    }
}

impl<S: Alter + Drop> SqlKeeper<S> {
    ghost use Rattle.std.specs.Prelude.{IfErr, IfOk, ◌⊎◌};
    ghost use Rattle.sqlite_trees.specs.Tree.{Trees};
    ghost use Rattle.sqlite_trees.specs.View.{doubt};
    ghost use Rattle.builder_store.specs.Keepers.{HasMetFaults, IsCleanLeft, content_of_keeper};
    ghost use Rattle.builder_store.specs.Keepers.{left_may_leave};
    ghost use Rattle.builder_store.specs.Making.{IsFailure, IsForeign, IsJudgement, rings_alone};
    ghost use Rattle.builder_store.specs.Making.{WritesNothing};
    ghost use Rattle.builder_store.specs.Opening.{AreDeclared, Stands};
    ghost use Rattle.builder_store.specs.declared.fault.MakeFault.TheVariants.{Taken};

    /// Makes a store of these rings over a connection whose last commit holds nothing, and keeps at
    /// most `limits.numbers` requests. The store has no request, and its book goes on from `hour`.
    /// What the connection hasn't committed is rolled back.
    ///
    /// All is written in one transaction. Where any table is there already, or a text that the rings
    /// published is not their own, nothing is written. A refusal gives back what is left.
    pub fn make(
        alloc: Global,
        conn: Connection<S>,
        rings: Rings,
        hour: Hour,
        limits: Limits,
    ) -> Result<SqlKeeper<S>, (MakeFault, Left<S>)>
        ensures limit { IfOk result (λ k. k.limit ≡ limits.numbers) }
        ensures faults { IfOk result (λ k. k.faults ≡ 0) }
        ensures clean { IfOk result (λ k. doubt (state S.Store conn).is_clean ≤ doubt
            (state S.Store k.conn).is_clean) }
        ensures made { IfOk result (λ k. HasCleanDisk (state S.Store k.conn)
            → content_of_keeper k ≡ rings_alone rings hour) }
        ensures nothing { IfOk result (λ k. HasCleanDisk (state S.Store k.conn)
            → AreDeclared 0 (state S.Store conn).committed.trees) }
        ensures taken { IfErr result (λ e. e.0 ≡ Taken → IsCleanLeft S.Store e.1
            → AreDeclared 0 (state S.Store conn).committed.trees → ⊥) }
        ensures foreign { IfErr result (λ e. IsForeign rings e.0) }
        // The store is told to have failed or to be damaged only where its disk has failed or
        // refused or given back what is no page, or where it was shut before.
        ensures failed { IfErr result (λ e. IsFailure e.0 → IsCleanLeft S.Store e.1
            → HasMetFaults S.Store e.1 ⊎ ((state S.Store conn).is_open ≡ false)) }
        // What is there is judged by nobody, so it is told as bad by nobody.
        ensures unjudged { IfErr result (λ e. IsJudgement e.0 → ⊥) }
        ensures stays { IfErr result (λ e. WritesNothing e.0 → IsCleanLeft S.Store e.1 → (db : Trees)
            → left_may_leave S.Store e.1 db → (state S.Store conn).may_leave db) }
        // A crash after a refusal leaves what it could leave before, or what was to be made.
        ensures crash { IfErr result (λ e. IsCleanLeft S.Store e.1 → (db : Trees)
            → left_may_leave S.Store e.1 db
            → (state S.Store conn).may_leave db ⊎ Stands db (rings_alone rings hour)) }
    {
        if let Err(fault) = judge_rings(alloc, &rings) {
            return Err((fault, Left::Connection(conn)));
        }
        let conn = match take_over(alloc, conn) {
            Ok(conn) => conn,
            Err((error, store)) => {
                let fault = FileFault::Opening(fault_of(&error));
                return Err((MakeFault::Opening(fault), Left::Store(store)));
            }
        };
        match SqlKeeper::make_over(alloc, conn, rings, hour, limits) {
            Ok(keeper) => Ok(keeper),
            Err((fault, conn)) => Err((fault, Left::Connection(conn))),
        }
    }
}

impl<S: Alter> SqlKeeper<S> {
    /// Gives the connection back. It takes no memory.
    pub fn close(self) -> Connection<S>
        ensures { result ≡ self.conn }
    {
        let SqlKeeper {
            alloc: _,
            conn,
            last: _,
            rings: _,
            count: _,
            hour: _,
            callers: _,
            limit: _,
            faults: _,
        } = self;
        conn
    }
}

impl<S: Alter> Keeper<RingMachine> for SqlKeeper<S> {
    ghost use Rattle.builder_store.specs.Standing.{MayLeave, stands_for_one};
    ghost use Rattle.builder_store.specs.Keepers.{content_of_keeper};
    ghost use Rattle.builder_store.specs.Inner.Leaves.{leaves_still};
    ghost use Rattle.builder_store.specs.Inner.Known.{whole_trees};

    ghost content = { λ k. content_of_keeper k };

    ghost sound = { λ k. HasCleanDisk (state S.Store k.conn) };

    ghost fault_count = { λ k. k.faults };

    ghost limit = { λ k. k.limit };

    ghost is_loaded = { λ _. Unit {0} };

    ghost may_leave = { λ k left. MayLeave (state S.Store k.conn) left };

    ghost settled = { λ k clean none. leaves_still (state S.Store.own k.conn) _
        (λ it. stands_for_one (k.holds it)) _ clean
        (whole_trees S.Store.own k.faults k.last.value k.conn none)
        (λ db may. S.settled k.conn.store db (k.tables none clean).0 may) (S.stays k.conn.store (k.tables none clean).0) };

    fn faults(&self) -> u64 {
        self.faults
    }

    fn look(&mut self, key: &Key, command: &Command) -> Result<Found<Reply>, KeepFault> {
        self.last = Snapshot::of(&self.conn);
        match look_up(self.alloc, &mut self.conn, &self.callers, key, command) {
            Ok(found) => Ok(found),
            Err(KeepFault::NoMemory) => Err(KeepFault::NoMemory),
            Err(KeepFault::Store) => {
                self.faults += 1;
                Err(KeepFault::Store)
            }
        }
    }

    fn is_full(&mut self) -> Result<bool, KeepFault> {
        Ok(self.count >= self.limit as usize)
    }

    fn entries(
        &mut self,
        alloc: Global,
        from: u32,
        most: u32,
    ) -> Result<Vec<Entry<Command, Reply>>, KeepFault> {
        self.last = Snapshot::of(&self.conn);
        match read_page(alloc, &mut self.conn, from, most) {
            Ok(entries) => Ok(entries),
            Err(KeepFault::NoMemory) => Err(KeepFault::NoMemory),
            Err(KeepFault::Store) => {
                self.faults += 1;
                Err(KeepFault::Store)
            }
        }
    }

    fn count(&self) -> usize {
        self.count
    }

    fn most(&self) -> u32 {
        self.limit
    }

    fn hour(&mut self) -> Result<Hour, KeepFault> {
        Ok(self.hour)
    }

    fn load(&mut self) -> Result<(), KeepFault> {
        Ok(())
    }

    fn state(&self) -> &Rings {
        &self.rings
    }

    #[tactic(none)]
    fn commit(
        &mut self,
        key: Key,
        hour: Hour,
        command: Command,
        reply: Reply,
        state: Rings,
    ) -> Result<(), KeepFault> {
        self.last = Snapshot::of(&self.conn);
        let entry = Entry {
            key,
            hour,
            command,
            reply,
        };
        match keep(
            self.alloc,
            &mut self.conn,
            &mut self.callers,
            &self.rings,
            &state,
            self.count,
            self.limit,
            self.hour,
            &entry,
        ) {
            Ok(()) => {
                self.rings = state;
                self.count += 1;
                self.hour = hour;
                Ok(())
            }
            Err(KeepFault::NoMemory) => Err(KeepFault::NoMemory),
            Err(KeepFault::Store) => {
                self.faults += 1;
                Err(KeepFault::Store)
            }
        }
    }
}
