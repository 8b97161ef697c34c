//! Rows, read one by one.
ghost use Rattle.std.specs.Prelude.{map, ℕ, List};
ghost use Rattle.std.specs.List.{AllZip};
ghost use Rattle.store_rows.specs.Inner.Found.{ReadsRow};

use crate::books::read_request;
use crate::numbers::{bounded, mark, number16, number32, weight};
use request_book::Entry;
use ring_messages::{one_reply, one_text};
use ring_words::{Command, Device, DeviceId, Reply, Row, SpellingFault, read_address, read_name};
use std::alloc::Global;
use std::rc::RcStr;
use store_model::{DeviceRow, PublishedRow, RequestRow, SeatRow};

/// A row that stands for one thing.
pub(crate) trait Readable {
    /// What a row stands for.
    type Thing: Drop;

    /// A thing as contracts name it.
    ghost Value: { Type 0 };

    /// A thing as contracts name it.
    ghost value: { Self.Thing → Value };

    /// The row stands for this.
    ghost stands: { Self → Value → Type 0 };

    /// What the row stands for.
    fn read(&self, alloc: Global) -> Result<Self::Thing, SpellingFault>
        ensures { ReadsRow value (stands self.now) result };
}

impl Readable for DeviceRow {
    ghost use Rattle.ring_words.specs.declared.device.Device.{Device};
    ghost use Rattle.store_rows.specs.Inner.Found.{StandsForDevice};

    type Thing = Device;

    ghost Value = { Device };

    ghost value = { λ device. device };

    ghost stands = { StandsForDevice };

    fn read(&self, alloc: Global) -> Result<Device, SpellingFault> {
        Ok(Device {
            id: number16(self.id)?,
            row: Row {
                region: number16(self.region)?,
                zone: number16(self.zone)?,
                address: read_address(self.address.as_str())?,
                port: bounded(self.port)?,
                name: read_name(alloc, self.name.as_str())?,
                weight: weight(self.weight)?,
            },
            removed: mark(self.removed)?,
        })
    }
}

impl Readable for PublishedRow {
    ghost use Rattle.std.specs.Prelude.{ℕ, List};
    ghost use Rattle.std.specs.Rc.{rc_str_bytes};
    ghost use Rattle.store_rows.specs.Inner.Found.{StandsForText};

    type Thing = (u32, RcStr);

    ghost Value = { ℕ × List ℕ };

    ghost value = { λ text. (text.0, rc_str_bytes text.1) };

    ghost stands = { StandsForText };

    fn read(&self, _alloc: Global) -> Result<(u32, RcStr), SpellingFault> {
        let version = number32(self.version)?;
        Ok((version, self.body.clone()?))
    }
}

impl Readable for SeatRow {
    ghost use Rattle.std.specs.Prelude.{ℕ};
    ghost use Rattle.store_rows.specs.Inner.Found.{StandsForSeat};

    type Thing = DeviceId;

    ghost Value = { ℕ };

    ghost value = { λ id. id };

    ghost stands = { StandsForSeat };

    fn read(&self, _alloc: Global) -> Result<DeviceId, SpellingFault> {
        number16(self.device)
    }
}

impl Readable for RequestRow {
    ghost use Rattle.store_rows.specs.Inner.Found.{StandsForRequest};
    ghost use Rattle.store_rows.specs.Stands.{DecidedRequest};

    type Thing = Entry<Command, Reply>;

    ghost Value = { DecidedRequest };

    ghost value = { λ entry. entry };

    ghost stands = { StandsForRequest };

    fn read(&self, alloc: Global) -> Result<Entry<Command, Reply>, SpellingFault> {
        one_text();
        one_reply();
        let place = number32(self.place)?;
        read_request(alloc, self, place)
    }
}

/// What rows stand for.
pub(crate) fn read_each<T: Readable>(
    alloc: Global,
    rows: &[T],
) -> Result<Vec<T::Thing>, SpellingFault>
    ensures { ReadsRow (λ things. map T.value things.items) (AllZip T.stands rows.now) result }
{
    let mut things = Vec::new(alloc);
    for row in rows {
        things.push(row.read(alloc)?)?;
    }
    Ok(things)
}
