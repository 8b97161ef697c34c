//! The hour of the machine.
ghost use Rattle.std.specs.Prelude.{◌≡◌, ◌/◌, ◌≤◌, ◌<◌, SomeIff};
ghost use Rattle.ring_words.specs.Limits.{long_count};

use http_api::Clock;
use ring_words::Hour;
use std::time::{self, SystemTime};

/// How many seconds an hour has.
const SECONDS_OF_HOUR: u64 = 3600;

/// The whole hours in so many seconds, and `None` past the greatest hour, 4294967295.
fn whole_hours(seconds: u64) -> Option<Hour>
    ensures { SomeIff result (seconds / 3600 < long_count) (seconds / 3600) }
{
    Hour::try_from(seconds / SECONDS_OF_HOUR).ok()
}

/// The whole hours since 1970, where the machine can tell them and they are no more than
/// 4294967295.
pub fn machine_hour<T: time::Clock>(time: &T) -> Option<Hour> {
    let now = SystemTime::now(time).ok()?;
    let since = now.duration_since(SystemTime::UNIX_EPOCH).ok()?;
    whole_hours(since.as_secs())
}

/// Tells a given hour always, or else the hour of the machine: the whole hours since 1970. Where
/// the machine can't tell it, or it is past 4294967295, the hour told before is told again, 0 at
/// first.
#[derive(Drop)]
pub struct HourClock<T> {
    time: T,
    fixed: Option<Hour>,
    told: Hour,
}

impl<T> HourClock<T> {
    ghost use Rattle.http_sockets.specs.Hours.{given_hour, told_hour};

    /// A clock that tells this hour, or else the hour of the machine.
    pub fn new(time: T, fixed: Option<Hour>) -> HourClock<T>
        ensures given { given_hour result ≡ fixed }
        ensures told { told_hour result ≡ 0 }
    {
        HourClock {
            time,
            fixed,
            told: 0,
        }
    }
}

impl<T: time::Clock> Clock for HourClock<T> {
    ghost use Rattle.http_sockets.specs.Hours.{TellsGiven};

    ghost tells = { TellsGiven };

    fn hour(&mut self) -> Hour {
        if let Some(hour) = self.fixed {
            return hour;
        }
        if let Some(hour) = machine_hour(&self.time) {
            self.told = hour;
        }
        self.told
    }

    fn now(&self) -> Hour {
        match self.fixed {
            Some(hour) => hour,
            None => machine_hour(&self.time).unwrap_or(self.told),
        }
    }
}
