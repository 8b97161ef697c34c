//! Weights.
ghost use Rattle.std.specs.Prelude.{◌≡◌, ◌≤◌, ℕ, IfSome, IfNone, Some, SomeIff};
ghost use Rattle.ring_words.specs.Texts.{hundredths_text, greatest_weight};

use crate::decimal::{parse_decimal_up_to, parse_two_digits};
use std::fmt;
use std::marker::Model;

/// The weight of a device: its share of a ring's seats, relative to the other devices' weights.
/// From 0.00 to 1000000.00. Contracts see it in hundredths.
#[derive(Clone, Copy, PartialEq, Eq)]
pub struct Weight {
    hundredths: u32,
}

impl Model for Weight {
    ghost Value = { ℕ };

    ghost view = { λ w. w.hundredths };

    ghost invariant = { λ w. w.hundredths ≤ greatest_weight };

    ghost inverse = { λ n. record { hundredths = n } };
}

impl Weight {
    /// The greatest weight, in hundredths.
    const GREATEST: u32 = 100_000_000;

    /// The weight of so many hundredths, and `None` exactly where they are too many.
    pub fn of(hundredths: u32) -> Option<Self>
        ensures { SomeIff result (hundredths ≤ greatest_weight) hundredths }
    {
        if hundredths <= Self::GREATEST {
            Some(Weight { hundredths })
        } else {
            None
        }
    }

    /// The weight that a text spells: a decimal number, a point and two digits. `None` exactly
    /// where it spells none.
    pub fn parse(text: &str) -> Option<Self>
        ensures found { IfSome result (λ w. (w ≤ greatest_weight) × (text.now ≡ hundredths_text w)) }
        ensures none { IfNone result ((w : ℕ) → w ≤ greatest_weight → text.now ≡ hundredths_text w →
            ⊥) }
    {
        let (whole, rest) = parse_decimal_up_to(text, '.')?;
        let part = parse_two_digits(rest)?;
        if whole > Self::GREATEST / 100 {
            return None;
        }
        Weight::of(whole * 100 + u32::from(part))
    }

    /// The weight in hundredths.
    pub fn hundredths(self) -> u32
        ensures value { result ≡ self }
        ensures within { result ≤ greatest_weight }
    {
        self.hundredths
    }
}

impl fmt::Display for Weight {
    ghost output = { λ w. Some (hundredths_text w) };

    fn fmt<W: fmt::Write>(&self, f: &mut fmt::Formatter<W>) -> fmt::Result {
        write!(f, "{}.{:02}", self.hundredths / 100, self.hundredths % 100)
    }
}
