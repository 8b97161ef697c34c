//! What is asked of the builder, and what it replies.
ghost use Rattle.std.specs.Prelude.{◌≡◌, ◌↔◌, IfOk, IsTrue};
ghost use Rattle.ring_words.specs.Kinds.{act_kind, deed_kind, device_deed};

use crate::bounded::{Power, Replicas};
use crate::device::{DeviceId, Row};
use crate::name::RingName;
use crate::request::Hour;
use crate::rows::Rows;
use crate::weight::Weight;
use std::alloc::AllocError;

/// What a new ring is made with.
#[derive(Clone, Copy, PartialEq, Eq)]
pub struct NewRing {
    /// The ring has `2^power` partitions.
    pub power: Power,
    /// How many replicas of each partition it keeps.
    pub replicas: Replicas,
    /// For how many hours a partition that was moved stays where it is.
    pub min_hours: u16,
}

/// What is done to a device.
#[derive(Clone, Copy, PartialEq, Eq)]
pub enum DeviceAct {
    /// Gives it this weight.
    SetWeight(Weight),
    /// Marks it to be removed.
    Remove,
    /// Takes the mark off it, so that it stays.
    Keep,
}

impl DeviceAct {
    /// What was done, where it was done.
    pub fn deed(&self) -> Deed
        ensures { result ≡ device_deed self.now }
    {
        match self {
            DeviceAct::SetWeight(_) => Deed::SetWeight,
            DeviceAct::Remove => Deed::Remove,
            DeviceAct::Keep => Deed::Keep,
        }
    }
}

/// A rebalance that was foretold by a preview: it is to be this one or none.
#[derive(Clone, Copy, PartialEq, Eq)]
pub struct Foretold {
    /// The seed that it was foretold for.
    pub seed: u32,
    /// The version that the ring is to have after it.
    pub version: u32,
    /// The hour at which it is to be decided.
    pub hour: Hour,
}

/// Which of the commands it is, whatever it is given.
#[derive(Clone, Copy, PartialEq, Eq)]
pub enum Kind {
    Create,
    Add,
    SetWeight,
    Remove,
    Keep,
    SetHours,
    PretendPassed,
    RaisePower,
    Import,
    Publish,
    Rebalance,
    RebalanceAs,
}

/// What a command does to its ring.
#[derive(PartialEq, Eq, Drop)]
pub enum Act {
    /// Makes a ring without devices.
    Create(NewRing),
    /// Adds a device.
    Add(Row),
    /// Does this to the device of this number.
    OnDevice(DeviceId, DeviceAct),
    /// Sets for how many hours a partition that was moved stays where it is.
    SetHours(u16),
    /// Lets each partition be moved as if it never had been.
    PretendPassed,
    /// Splits each partition into two.
    RaisePower,
    /// Adds devices and changes weights, all rows or none.
    Import(Rows),
    /// Keeps the ring's text under its version.
    Publish,
    /// Moves seats to where they should be. The seed varies which of several equally good rings it
    /// gives.
    Rebalance(u32),
    /// Moves seats as a preview foretold, or not at all.
    RebalanceAs(Foretold),
}

impl Act {
    /// Which command it is.
    pub fn kind(&self) -> Kind
        ensures { result ≡ act_kind self.now }
    {
        match self {
            Act::Create(_) => Kind::Create,
            Act::Add(_) => Kind::Add,
            Act::OnDevice(_, what) => what.deed().kind(),
            Act::SetHours(_) => Kind::SetHours,
            Act::PretendPassed => Kind::PretendPassed,
            Act::RaisePower => Kind::RaisePower,
            Act::Import(_) => Kind::Import,
            Act::Publish => Kind::Publish,
            Act::Rebalance(_) => Kind::Rebalance,
            Act::RebalanceAs(_) => Kind::RebalanceAs,
        }
    }

    /// The same act, in memory of its own.
    fn copy(&self) -> Result<Act, AllocError>
        ensures { IfOk result (λ copy. copy ≡ self.now) }
    {
        match self {
            Act::Create(new) => Ok(Act::Create(*new)),
            Act::Add(row) => Ok(Act::Add(row.copy()?)),
            Act::OnDevice(id, what) => Ok(Act::OnDevice(*id, *what)),
            Act::SetHours(hours) => Ok(Act::SetHours(*hours)),
            Act::PretendPassed => Ok(Act::PretendPassed),
            Act::RaisePower => Ok(Act::RaisePower),
            Act::Import(rows) => Ok(Act::Import(rows.copy()?)),
            Act::Publish => Ok(Act::Publish),
            Act::Rebalance(seed) => Ok(Act::Rebalance(*seed)),
            Act::RebalanceAs(told) => Ok(Act::RebalanceAs(*told)),
        }
    }

    /// Whether two acts are one.
    fn is(&self, other: &Act) -> bool
        ensures { IsTrue result ↔ (self.now ≡ other.now) }
    {
        match self {
            Act::Create(new) => matches!(other, Act::Create(also) if also == new),
            Act::Add(row) => matches!(other, Act::Add(also) if also == row),
            Act::OnDevice(id, what) => {
                matches!(other, Act::OnDevice(also, same) if also == id && same == what)
            }
            Act::SetHours(hours) => matches!(other, Act::SetHours(also) if also == hours),
            Act::PretendPassed => matches!(other, Act::PretendPassed),
            Act::RaisePower => matches!(other, Act::RaisePower),
            Act::Import(rows) => matches!(other, Act::Import(also) if also.is(rows)),
            Act::Publish => matches!(other, Act::Publish),
            Act::Rebalance(seed) => matches!(other, Act::Rebalance(also) if also == seed),
            Act::RebalanceAs(told) => matches!(other, Act::RebalanceAs(also) if also == told),
        }
    }
}

/// What a caller asks for.
#[derive(PartialEq, Eq, Drop)]
pub struct Command {
    /// The ring that it is about.
    pub ring: RingName,
    /// What is to be done to the ring.
    pub act: Act,
}

impl Command {
    /// The same command, in memory of its own.
    pub fn copy(&self) -> Result<Command, AllocError>
        ensures { IfOk result (λ copy. copy ≡ self.now) }
    {
        Ok(Command {
            ring: self.ring.clone()?,
            act: self.act.copy()?,
        })
    }

    /// Whether two commands are one, however they were spelt.
    pub fn is(&self, other: &Command) -> bool
        ensures { IsTrue result ↔ (self.now ≡ other.now) }
    {
        self.ring == other.ring && self.act.is(&other.act)
    }
}

/// What was done, with what its reply tells beside the version of the ring.
#[derive(Clone, Copy, PartialEq, Eq)]
pub enum Deed {
    /// The ring was made.
    Create,
    /// The device was added, under this number.
    Add {
        id: DeviceId,
    },
    /// The device has its new weight.
    SetWeight,
    /// The device is marked to be removed.
    Remove,
    /// The device is marked no more.
    Keep,
    /// The hours are set.
    SetHours,
    /// No partition counts as moved.
    PretendPassed,
    /// There are twice as many partitions.
    RaisePower,
    /// So many rows added a device, and so many found one, whose weight is theirs now.
    Import {
        added: u64,
        reweighted: u64,
    },
    /// The ring's text is published under its version.
    Publish,
    /// Seats are where they should be: so many of them changed. Balance and dispersion are the new
    /// ring's, in hundredths of a percent.
    Rebalance {
        balance: u32,
        changed: u32,
        dispersion: u32,
    },
    /// So they are as it was foretold, with the same figures.
    RebalanceAs {
        balance: u32,
        changed: u32,
        dispersion: u32,
    },
}

impl Deed {
    /// Which command did it.
    pub fn kind(&self) -> Kind
        ensures { result ≡ deed_kind self.now }
    {
        match self {
            Deed::Create => Kind::Create,
            Deed::Add { .. } => Kind::Add,
            Deed::SetWeight => Kind::SetWeight,
            Deed::Remove => Kind::Remove,
            Deed::Keep => Kind::Keep,
            Deed::SetHours => Kind::SetHours,
            Deed::PretendPassed => Kind::PretendPassed,
            Deed::RaisePower => Kind::RaisePower,
            Deed::Import { .. } => Kind::Import,
            Deed::Publish => Kind::Publish,
            Deed::Rebalance { .. } => Kind::Rebalance,
            Deed::RebalanceAs { .. } => Kind::RebalanceAs,
        }
    }
}

/// That a command was done.
#[derive(Clone, Copy, PartialEq, Eq)]
pub struct Done {
    /// The version of the ring after the command.
    pub version: u32,
    /// What was done.
    pub deed: Deed,
}

/// Why a row of an import is refused, on the ring that the rows before it leave.
#[derive(Clone, Copy, PartialEq, Eq)]
pub enum RowCause {
    /// The device of its address, port and name is marked to be removed.
    DeviceRemoved,
    /// The device of its address, port and name is in another region or zone.
    TierDiffers,
    /// It would add a device, and the ring has as many as it may.
    TooManyDevices,
    /// It would add a device, and the ring has given as many numbers to devices as it may.
    IdsUsedUp,
}

/// Why a command wasn't done. Its ring stays as it was, and the refusal is kept as its reply.
#[derive(Clone, Copy, PartialEq, Eq)]
pub enum Refusal {
    /// There is no ring of this name.
    NoRing,
    /// There is a ring of this name.
    RingExists,
    /// There are as many rings as there may be.
    TooManyRings,
    /// The ring has no device of this number.
    NoDevice,
    /// The ring has a device of this address, port and name, which may be marked to be removed.
    DeviceExists,
    /// The device is marked to be removed.
    DeviceRemoved,
    /// The ring has as many devices as it may.
    TooManyDevices,
    /// The ring has given as many numbers to devices as it may.
    IdsUsedUp,
    /// Fewer devices are open than each partition has replicas.
    TooFewDevices,
    /// The seats are empty.
    NotAssigned,
    /// As many other versions of the ring are published as there may be.
    TooManyVersions,
    /// A row of an import is refused, the first of which this can be said. Rows are counted from 1.
    RowRefused { row: u64, cause: RowCause },
    /// The ring has the greatest power.
    PowerLimit,
    /// The device isn't marked to be removed.
    NotMarked,
    /// The ring would get another version than the one that was foretold.
    OtherVersion,
    /// It would be decided at another hour than the one that was foretold.
    OtherHour,
}

/// The answer to a command that was decided.
#[derive(Clone, Copy, PartialEq, Eq)]
pub enum Reply {
    Done(Done),
    Refused(Refusal),
}
