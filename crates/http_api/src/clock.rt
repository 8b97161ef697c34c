//! What tells the hour.
ghost use Rattle.std.specs.Prelude.{ℕ};

use ring_words::Hour;
use std::marker::Model;

/// Tells the hour, in whole hours since 1970.
pub trait Clock {
    // The first clock may tell this hour, and the second is left.
    ghost tells: { Self → ℕ → Self → Type 0 };

    /// The hour. One is taken for each request that is delivered.
    fn hour(&mut self) -> Hour
        ensures { tells self.old result self.new };

    /// The hour that it would tell now. None is taken: reads look at it so.
    fn now(&self) -> Hour
        ensures { (later : Self) × tells self.now result later };
}

/// A clock that tells known hours, one after another, and then the last of them. Contracts see the
/// hours that it will tell first.
#[derive(Drop)]
pub struct KnownClock {
    hours: Vec<Hour>,
    told: usize,
}

impl Model for KnownClock {
    ghost use Rattle.std.specs.Prelude.{ℕ, List, ◌<◌, drop, vec_len};

    ghost Value = { List ℕ };

    ghost view = { λ clock. drop clock.told clock.hours.items };

    ghost invariant = { λ clock. clock.told < vec_len clock.hours };
}

impl KnownClock {
    ghost use Rattle.std.specs.Prelude.{◌≡◌, ◌<◌, vec_len};

    /// A clock that tells these hours. There is one.
    pub fn new(hours: Vec<Hour>) -> KnownClock
        requires { 0 < vec_len hours }
        ensures { result ≡ hours.items }
    {
        KnownClock { hours, told: 0 }
    }
}

impl Clock for KnownClock {
    ghost use Rattle.http_api.specs.Hours.{TellsFirst};

    ghost tells = { TellsFirst };

    fn hour(&mut self) -> Hour {
        let hour = self.hours[self.told];
        if self.told + 1 < self.hours.len() {
            self.told += 1;
        }
        hour
    }

    fn now(&self) -> Hour {
        self.hours[self.told]
    }
}
