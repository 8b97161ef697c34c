//! IPv4 addresses.
ghost use Rattle.std.specs.Prelude.{◌≡◌, ◌∷◌, ◌++◌, ◌<◌, ◌^◌, ℕ, List, IfSome, IfNone, Some};
ghost use Rattle.std.specs.Prelude.{decimal};
ghost use Rattle.ring_words.specs.Texts.{address_text, address_limit};

use crate::decimal::{parse_decimal, parse_decimal_up_to};
use std::fmt;
use std::marker::Model;

/// An IPv4 address, four octets. Contracts see them as one number, the first octet the greatest
/// part.
#[derive(Clone, Copy, PartialEq, Eq)]
pub struct Address {
    bits: u32,
}

impl Model for Address {
    ghost Value = { ℕ };

    ghost view = { λ a. a.bits };

    ghost invariant = { λ a. a.bits < address_limit };

    ghost inverse = { λ n. record { bits = n } };
}

/// The octet in decimal at the front of a text, up to its first point, and what follows the point.
fn octet_up_to_point(text: &str) -> Option<(u8, &str)>
    ensures found { IfSome result (λ x. (x.0 < 256) × (text.now ≡ decimal x.0 ++ 46 ∷ x.1.now)) }
    ensures none { IfNone result ((n : ℕ) (rest : List ℕ) → n < 256 → text.now ≡ decimal n ++ 46 ∷
        rest → ⊥) }
{
    let (octet, rest) = parse_decimal_up_to(text, '.')?;
    if octet < 256 {
        Some((octet as u8, rest))
    } else {
        None
    }
}

impl Address {
    /// The address that a text spells: four decimal numbers below 256, joined by points. `None`
    /// exactly where it spells none.
    pub fn parse(text: &str) -> Option<Self>
        ensures found { IfSome result (λ a. (a < address_limit) × (text.now ≡ address_text a)) }
        ensures none { IfNone result ((a : ℕ) → a < address_limit → text.now ≡ address_text a → ⊥) }
    {
        let (first, rest) = octet_up_to_point(text)?;
        let (second, rest) = octet_up_to_point(rest)?;
        let (third, rest) = octet_up_to_point(rest)?;
        let fourth = parse_decimal(rest)?;
        if fourth >= 256 {
            return None;
        }
        let front = u32::from(first) * 256 + u32::from(second);
        Some(Address {
            bits: (front * 256 + u32::from(third)) * 256 + fourth,
        })
    }

    /// The address as one number, its first octet the greatest part.
    pub fn bits(self) -> u32
        ensures value { result ≡ self }
        ensures within { result < address_limit }
    {
        self.bits
    }
}

impl fmt::Display for Address {
    ghost output = { λ a. Some (address_text a) };

    fn fmt<W: fmt::Write>(&self, f: &mut fmt::Formatter<W>) -> fmt::Result {
        let [first, second, third, fourth] = self.bits.to_be_bytes();
        write!(f, "{first}.{second}.{third}.{fourth}")
    }
}
