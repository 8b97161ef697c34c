//! Numbers as text, each with one spelling.
ghost use Rattle.std.specs.Prelude.{◌≡◌, ◌∷◌, ◌++◌, ◌<◌, ℕ, List, IfSome, IfNone, decimal};
ghost use Rattle.ring_words.specs.Limits.{long_count};
ghost use Rattle.ring_words.specs.Texts.{two_digits};
ghost use Rattle.ring_words.specs.Inner.Digits.{is_decimal};

fn is_decimal(text: &str) -> bool
    ensures { result ≡ is_decimal text.now }
{
    let bytes = text.as_bytes();
    !bytes.is_empty() && bytes[0].is_ascii_digit() && (bytes.len() <= 1 || bytes[0] != b'0')
}

/// The number that a text spells in decimal: digits alone, with no leading zero unless it is `0`.
/// `None` exactly where the text spells no number below 2^32.
pub fn parse_decimal(text: &str) -> Option<u32>
    ensures found { IfSome result (λ n. (n < long_count) × (text.now ≡ decimal n)) }
    ensures none { IfNone result ((n : ℕ) → n < long_count → text.now ≡ decimal n → ⊥) }
{
    if !is_decimal(text) {
        return None;
    }
    text.parse().ok()
}

/// The number in decimal at the front of a text, up to the first separator, and what follows the
/// separator. `None` exactly where the text has no such front.
pub fn parse_decimal_up_to(text: &str, separator: char) -> Option<(u32, &str)>
    requires { separator < 48 }
    ensures found { IfSome result (λ x. (x.0 < long_count) × (text.now ≡ decimal x.0 ++ separator ∷
        x.1.now)) }
    ensures none { IfNone result ((n : ℕ) (rest : List ℕ) → n < long_count → text.now ≡ decimal n ++
        separator ∷ rest → ⊥) }
{
    let (number, rest) = text.split_once(separator)?;
    Some((parse_decimal(number)?, rest))
}

/// The number below 100 that two digits spell.
pub(crate) fn parse_two_digits(text: &str) -> Option<u8>
    ensures found { IfSome result (λ n. (n < 100) × (text.now ≡ two_digits n)) }
    ensures none { IfNone result ((n : ℕ) → n < 100 → text.now ≡ two_digits n → ⊥) }
{
    let bytes = text.as_bytes();
    if bytes.len() == 2 && bytes[0].is_ascii_digit() && bytes[1].is_ascii_digit() {
        Some((bytes[0] - b'0') * 10 + (bytes[1] - b'0'))
    } else {
        None
    }
}
