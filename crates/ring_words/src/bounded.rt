//! Whole numbers within bounds.
ghost use Rattle.std.specs.Prelude.{◌≡◌, ◌≤◌, ◌^◌, ℕ, Some, SomeIff, decimal};
ghost use Rattle.ring_words.specs.Limits.{greatest_power, most_partitions};

use std::fmt;
use std::marker::Model;

/// A whole number from `LEAST` to `MOST`. Contracts see the number.
#[derive(Clone, Copy, Debug, PartialEq, Eq)]
pub struct Bounded<const LEAST: u16, const MOST: u16> {
    number: u16,
}

/// The greatest power.
pub const GREATEST_POWER: u16 = 14;

/// How many replicas a partition has at most.
pub const MOST_REPLICAS: usize = 5;

/// The same as a bound of [`Replicas`].
const GREATEST_REPLICAS: u16 = MOST_REPLICAS as u16;

/// How many times two is multiplied: a ring of power `p` has `2^p` partitions. From 1 to
/// [`GREATEST_POWER`].
pub type Power = Bounded<1, GREATEST_POWER>;

/// How many replicas of each partition a ring keeps, each on a device of its own. From 1 to
/// [`MOST_REPLICAS`].
pub type Replicas = Bounded<1, GREATEST_REPLICAS>;

/// The port that a device's server listens on. From 1 to 65535.
pub type Port = Bounded<1, 65535>;

impl<const LEAST: u16, const MOST: u16> Model for Bounded<LEAST, MOST> {
    ghost Value = { ℕ };

    ghost view = { λ b. b.number };

    ghost invariant = { λ b. (LEAST ≤ b.number) × (b.number ≤ MOST) };

    ghost inverse = { λ n. record { number = n } };
}

impl<const LEAST: u16, const MOST: u16> Bounded<LEAST, MOST> {
    /// The number as a value of this type, and `None` exactly where it is out of bounds.
    pub fn new(number: u16) -> Option<Self>
        ensures { SomeIff result ((LEAST ≤ number) × (number ≤ MOST)) number }
    {
        if LEAST <= number && number <= MOST {
            Some(Bounded { number })
        } else {
            None
        }
    }

    /// The number.
    pub fn get(self) -> u16
        ensures value { result ≡ self.entry }
        ensures within { (LEAST ≤ result) × (result ≤ MOST) }
    {
        self.number
    }
}

/// How many partitions a ring of a power has, from 2 to 16384.
pub fn partition_count(power: Power) -> usize
    ensures value { result ≡ 2 ^ power }
    ensures some { 2 ≤ result }
    ensures small { result ≤ most_partitions }
    ensures power { (1 ≤ power) × (power ≤ greatest_power) }
{
    1usize << power.get()
}

impl<const LEAST: u16, const MOST: u16> fmt::Display for Bounded<LEAST, MOST> {
    ghost output = { λ n. Some (decimal n) };

    fn fmt<W: fmt::Write>(&self, f: &mut fmt::Formatter<W>) -> fmt::Result {
        write!(f, "{}", self.number)
    }
}
