//! The book: each request decided once, whatever comes again.
ghost use Rattle.std.specs.Prelude.{◌≡◌, ◌≤◌, ◌<◌, ◌↔◌, ◌∷◌, [], false, IfOk, IsErrOf, IsTrue, None};
ghost use Rattle.std.specs.Prelude.{OnErr, OnOk, length, nat_lt};
ghost use Rattle.request_book.specs.Book.{Parts};
ghost use Rattle.request_book.specs.Call.{ClosesAfterFault, Deliver, FaultsTold, Load, calls_of};
ghost use Rattle.request_book.specs.Call.{ready};
ghost use Rattle.request_book.specs.Called.{Called};
ghost use Rattle.request_book.specs.Content.{entries_from, entry_of};
ghost use Rattle.request_book.specs.Inner.Deciding.{MayDecide};
ghost use Rattle.request_book.specs.Keeper.{CrashLeaves, HasCause, LeavesOnly};
ghost use Rattle.request_book.specs.Made.{Makes};
ghost use Rattle.request_book.specs.Run.{AnswersAlike, Run};

use crate::entry::Entry;
use crate::keeper::{Found, KeepFault, Keeper};
use crate::machine::Machine;
use ring_words::{Delivery, Hour, Key};
use std::alloc::{AllocError, Global};
use std::marker::Model;

/// Why a delivery has no reply.
#[derive(Clone, Copy, Debug, PartialEq, Eq)]
pub enum Fault {
    /// The number was used for another command. Nothing changed.
    NumberReused,
    /// The book has as many entries as it may. Nothing changed.
    BookFull,
    /// A growth of memory was refused. Nothing changed.
    NoMemory,
    /// The store failed in this call. The content is as before or with what the delivery commits.
    StoreFault,
    /// The store failed in an earlier call. Nothing changed.
    Closed,
}

/// What a delivery is answered: the machine's reply, or why there is none.
pub type Answer<R> = Result<R, Fault>;

impl From<KeepFault> for Fault {
    ghost use Rattle.request_book.specs.Book.{fault_of};

    ghost from_gives = { λ e f. f ≡ fault_of e };

    fn from(fault: KeepFault) -> Fault {
        match fault {
            KeepFault::NoMemory => Fault::NoMemory,
            KeepFault::Store => Fault::StoreFault,
        }
    }
}

/// A machine beside a keeper of its state and of the requests that it decided. Contracts see the
/// two.
///
/// Once its store has failed the book is closed: it answers `Closed` and touches nothing.
#[derive(Drop)]
pub struct Book<M: Machine, K: Keeper<M>> {
    alloc: Global,
    machine: M,
    keeper: K,
}

impl<M: Machine, K: Keeper<M>> Model for Book<M, K> {
    ghost Value = { Parts M K };

    ghost view = { λ b. record { machine = b.machine; keeper = b.keeper } };
}

impl<M: Machine, K: Keeper<M>> Book<M, K> {
    /// A book over what the keeper holds. States and answers are made in the allocator's memory.
    pub fn open(alloc: Global, machine: M, keeper: K) -> Self
        requires { K.fault_count keeper ≡ 0 }
        ensures { result ≡ record { machine = machine; keeper = keeper } }
    {
        Book {
            alloc,
            machine,
            keeper,
        }
    }

    /// Whether the book is closed, since its store has failed.
    pub fn is_closed(&self) -> bool
        ensures { IsTrue result ↔ (0 < K.fault_count self.now.keeper) }
    {
        self.keeper.faults() > 0
    }

    /// Decides a new key's command at an hour that is no less than those of all decided before, and
    /// keeps its reply.
    fn decide_at(
        &mut self,
        hour: Hour,
        key: Key,
        command: M::Command,
    ) -> Result<M::Reply, KeepFault>
        requires open { K.fault_count self.old.keeper ≡ 0 }
        requires unknown { K.sound self.old.keeper →
            entry_of key (K.content self.old.keeper).book ≡ None }
        requires room { K.sound self.old.keeper →
            length (K.content self.old.keeper).book < K.limit self.old.keeper }
        requires latest { K.sound self.old.keeper → (K.content self.old.keeper).hour ≤ hour }
        ensures may { K.sound self.new.keeper → MayDecide (M.step self.old.machine)
            (K.content self.old.keeper) hour key command result (K.content self.new.keeper) }
        ensures left { K.sound self.new.keeper → CrashLeaves (K.may_leave self.new.keeper)
            (MayDecide (M.step self.old.machine) (K.content self.old.keeper) hour key command
            result) }
        ensures sound { K.sound self.new.keeper → K.sound self.old.keeper }
        ensures limit { K.limit self.new.keeper ≡ K.limit self.old.keeper }
        ensures machine { self.new.machine ≡ self.old.machine }
        ensures cause { HasCause (K.fault_count self.old.keeper) (K.fault_count self.new.keeper)
            result }
    {
        self.keeper.load()?;
        let state = self.keeper.state();
        let (state, reply) = self.machine.decide(self.alloc, state, hour, &command)?;
        self.keeper.commit(key, hour, command, reply, state)?;
        Ok(reply)
    }

    /// Answers a delivery of a key that has no entry: decides it where there is room.
    fn answer_new(&mut self, delivery: Delivery<M::Command>) -> Answer<M::Reply>
        requires open { K.fault_count self.old.keeper ≡ 0 }
        requires unknown { K.sound self.old.keeper →
            entry_of delivery.key (K.content self.old.keeper).book ≡ None }
        ensures { Makes M.step K.content K.sound K.limit K.fault_count K.may_leave self.old self.new
            (Deliver delivery result) }
    {
        if self.keeper.is_full()? {
            return Err(Fault::BookFull);
        }
        let Delivery { hour, key, command } = delivery;
        let hour = self.keeper.hour()?.max(hour);
        let reply = self.decide_at(hour, key, command)?;
        Ok(reply)
    }

    /// Answers a delivery, as `deliver` does.
    fn answer(&mut self, delivery: Delivery<M::Command>) -> Answer<M::Reply>
        ensures { Makes M.step K.content K.sound K.limit K.fault_count K.may_leave self.old self.new
            (Deliver delivery result) }
    {
        if self.is_closed() {
            return Err(Fault::Closed);
        }
        match self.keeper.look(&delivery.key, &delivery.command)? {
            Found::Same(reply) => Ok(reply),
            Found::Other => Err(Fault::NumberReused),
            Found::New => self.answer_new(delivery),
        }
    }

    /// Answers a delivery.
    ///
    /// In this order: `Closed` after an earlier `StoreFault`; where the key is known, the kept
    /// reply of an equal command and `NumberReused` for another one; `BookFull` where the key is
    /// new and there is no room. Else the command is decided at the greatest hour among this
    /// delivery's and those of all decided before, and its reply, a refusal too, is kept for good.
    /// `NoMemory` changes nothing, and `StoreFault` leaves the content as before or with the
    /// delivery.
    #[tactic(auto, using(crate::proofs::Runs::run_one))]
    pub fn deliver(&mut self, hour: Hour, key: Key, command: M::Command) -> Answer<M::Reply>
        ensures run { K.sound self.new.keeper →
            Run (M.step self.old.machine) (K.limit self.old.keeper) (nat_lt 0 (K.fault_count self.old.keeper))
            (K.content self.old.keeper) (Deliver (record { hour = hour; key = key; command = command }) result ∷ [])
            (K.content self.new.keeper) }
        ensures made { Makes M.step K.content K.sound K.limit K.fault_count K.may_leave self.old
            self.new
            (Deliver (record { hour = hour; key = key; command = command }) result) }
        // Where the store didn't fail, a crash leaves what the call left.
        ensures settled { K.sound self.new.keeper → K.fault_count self.new.keeper ≡ 0 →
            LeavesOnly (K.may_leave self.new.keeper) (K.content self.new.keeper) }
    {
        self.answer(Delivery { hour, key, command })
    }

    /// Answers deliveries in their order, each as `deliver` does. An error says that there was no
    /// memory for the answers: then no delivery was looked at.
    pub fn run(
        &mut self,
        deliveries: Vec<Delivery<M::Command>>,
    ) -> Result<Vec<Answer<M::Reply>>, AllocError>
        ensures run { K.sound self.new.keeper → IfOk result (λ answers.
            Run (M.step self.old.machine) (K.limit self.old.keeper) (nat_lt 0 (K.fault_count self.old.keeper))
            (K.content self.old.keeper) (calls_of deliveries.items answers.items) (K.content self.new.keeper)) }
        // What a key is answered by a reply it is answered by each later one, and they have its
        // command.
        ensures alike { K.sound self.new.keeper →
            IfOk result (λ answers. AnswersAlike (calls_of deliveries.items answers.items)) }
        ensures count { IfOk result (λ answers. length answers.items ≡ length deliveries.items) }
        ensures sound { K.sound self.new.keeper → K.sound self.old.keeper }
        ensures limit { K.limit self.new.keeper ≡ K.limit self.old.keeper }
        ensures machine { self.new.machine ≡ self.old.machine }
        ensures faults { IfOk result (λ answers.
            FaultsTold (K.fault_count self.old.keeper) (K.fault_count self.new.keeper)
            (calls_of deliveries.items answers.items)) }
        ensures closed { IfOk result (λ answers.
            ClosesAfterFault (nat_lt 0 (K.fault_count self.old.keeper)) (calls_of deliveries.items answers.items)) }
        ensures nothing { 0 < K.fault_count self.old.keeper → self.new ≡ self.old }
        ensures err { OnErr result (self.new ≡ self.old) }

        // A crash after the call leaves what the deliveries may leave, and where the store didn't
        // fail what they left.
        ensures left { K.sound self.new.keeper → K.fault_count self.old.keeper ≡ 0 →
            IfOk result (λ answers.
            CrashLeaves (K.may_leave self.new.keeper) (Run (M.step self.old.machine) (K.limit self.old.keeper) false
            (K.content self.old.keeper) (calls_of deliveries.items answers.items))) }
        ensures settled { K.sound self.new.keeper → K.fault_count self.new.keeper ≡ 0 →
            LeavesOnly (K.may_leave self.new.keeper) (K.content self.new.keeper) }
    {
        let mut answers = Vec::with_capacity(self.alloc, deliveries.len())?;
        for delivery in deliveries {
            let answer = self.answer(delivery);
            answers.push(answer).unwrap();
        }
        Ok(answers)
    }

    /// Makes the state ready for `state`, and tells the greatest hour that was decided at. The
    /// content stays. `Closed` after an earlier `StoreFault`; a `StoreFault` of this call closes
    /// the book; `NoMemory` leaves it open.
    #[tactic(auto, using(crate::proofs::Runs::run_one))]
    pub fn load(&mut self) -> Result<Hour, Fault>
        ensures hour { K.sound self.new.keeper →
            IfOk result (λ hour. hour ≡ (K.content self.old.keeper).hour) }
        ensures loaded { OnOk result (K.is_loaded self.new.keeper ×
            (K.fault_count self.new.keeper ≡ 0)) }
        ensures run { K.sound self.new.keeper →
            Run (M.step self.old.machine) (K.limit self.old.keeper) (nat_lt 0 (K.fault_count self.old.keeper))
            (K.content self.old.keeper) (Load (ready result) ∷ []) (K.content self.new.keeper) }
        ensures made { Makes M.step K.content K.sound K.limit K.fault_count K.may_leave self.old
            self.new
            (Load (ready result)) }
        ensures content { K.sound self.new.keeper → K.content self.new.keeper ≡ K.content
            self.old.keeper }
        ensures left { K.sound self.new.keeper → K.fault_count self.old.keeper ≡ 0 →
            LeavesOnly (K.may_leave self.new.keeper) (K.content self.old.keeper) }
    {
        if self.is_closed() {
            return Err(Fault::Closed);
        }
        let hour = self.keeper.hour()?;
        self.keeper.load()?;
        Ok(hour)
    }

    /// The state. The last call that may change the book was a `load` that succeeded.
    pub fn state(&self) -> &M::State
        requires loaded { K.is_loaded self.now.keeper }
        requires faults { K.fault_count self.now.keeper ≡ 0 }
        ensures { K.sound self.now.keeper → result.now ≡ (K.content self.now.keeper).state }
    {
        self.keeper.state()
    }

    /// The entries of the book from a place on, by rising place, and at most `most` of them: each
    /// request that was decided with the hour that it was decided at and its reply. The place of an
    /// entry is how many were decided before it. The content stays. Faults are as those of `load`.
    #[tactic(auto, using(crate::proofs::Runs::run_one))]
    pub fn entries(
        &mut self,
        from: u32,
        most: u32,
    ) -> Result<Vec<Entry<M::Command, M::Reply>>, Fault>
        ensures entries { K.sound self.new.keeper → IfOk result (λ entries. entries.items ≡
            entries_from from most (K.content self.old.keeper).book) }
        ensures run { K.sound self.new.keeper →
            Run (M.step self.old.machine) (K.limit self.old.keeper) (nat_lt 0 (K.fault_count self.old.keeper))
            (K.content self.old.keeper) (Load (ready result) ∷ []) (K.content self.new.keeper) }
        ensures made { Makes M.step K.content K.sound K.limit K.fault_count K.may_leave self.old
            self.new
            (Load (ready result)) }
        ensures content { K.sound self.new.keeper → K.content self.new.keeper ≡ K.content
            self.old.keeper }
        ensures left { K.sound self.new.keeper → K.fault_count self.old.keeper ≡ 0 →
            LeavesOnly (K.may_leave self.new.keeper) (K.content self.old.keeper) }
    {
        if self.is_closed() {
            return Err(Fault::Closed);
        }
        let entries = self.keeper.entries(self.alloc, from, most)?;
        Ok(entries)
    }

    /// How many requests it has decided, each with its reply. It touches nothing.
    pub fn count(&self) -> usize
        requires { K.fault_count self.now.keeper ≡ 0 }
        ensures { K.sound self.now.keeper → result ≡ length (K.content self.now.keeper).book }
    {
        self.keeper.count()
    }

    /// How many requests it decides at most. It touches nothing.
    pub fn most(&self) -> u32
        ensures { result ≡ K.limit self.now.keeper }
    {
        self.keeper.most()
    }
}

impl<M: Machine + Drop, K: Keeper<M>> Book<M, K> {
    /// The keeper, as the book leaves it.
    pub fn into_keeper(self) -> K
        ensures { result ≡ self.keeper }
    {
        let Book { keeper, .. } = self;
        keeper
    }
}
