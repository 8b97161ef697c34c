//! Words read as values: each is read exactly where it spells one of its kind and range.
//!
//! Ring texts, tables, messages and routes read their words here, so a value has the same one
//! spelling everywhere. What takes no memory never answers that memory was refused.
ghost use Rattle.std.specs.Prelude.{◌≡◌, ◌≢◌, ◌↔◌, true, IsErrOf};
ghost use Rattle.ring_words.specs.Limits.{greatest_short};
ghost use Rattle.ring_words.specs.Spelling.{Reads, SpellsAddress, SpellsName, SpellsNumber};
ghost use Rattle.ring_words.specs.Spelling.{SpellsWeight};
ghost use Rattle.ring_words.specs.declared.spelling.SpellingFault.TheVariants.{NoMemory};

use crate::address::Address;
use crate::bounded::Bounded;
use crate::decimal::parse_decimal;
use crate::name::{Name, NameKind};
use crate::weight::Weight;
use std::alloc::{AllocError, AllocFailed, Global};

/// Why a text isn't read as what it should spell.
#[derive(Clone, Copy, Debug, PartialEq, Eq)]
pub enum SpellingFault {
    /// It spells nothing of the kind.
    Bad,
    /// A growth of memory was refused. This says nothing of the text.
    NoMemory,
}

impl From<AllocError> for SpellingFault {
    ghost from_gives = { λ _ f. f ≡ NoMemory };

    fn from(_refused: AllocError) -> SpellingFault {
        SpellingFault::NoMemory
    }
}

impl<T: Drop> From<AllocFailed<T>> for SpellingFault {
    ghost from_gives = { λ _ f. f ≡ NoMemory };

    fn from(_refused: AllocFailed<T>) -> SpellingFault {
        SpellingFault::NoMemory
    }
}

/// The number of a word in decimal, which is at most `most`.
pub fn read_number(word: &str, most: u32) -> Result<u32, SpellingFault>
    ensures read { Reads (SpellsNumber word.now 0 most) result }
    ensures memory { IsErrOf result SpellingFault.NoMemory → ⊥ }
{
    let Some(number) = parse_decimal(word) else {
        return Err(SpellingFault::Bad);
    };
    if number > most {
        return Err(SpellingFault::Bad);
    }
    Ok(number)
}

/// The number of a word in decimal, from 0 to 65535.
pub fn read_number16(word: &str) -> Result<u16, SpellingFault>
    ensures read { Reads (SpellsNumber word.now 0 greatest_short) result }
    ensures memory { IsErrOf result SpellingFault.NoMemory → ⊥ }
{
    let number = read_number(word, u32::from(u16::MAX))?;
    Ok(number as u16)
}

/// The number of a word in decimal, within the bounds of its type: a power, a count of replicas, a
/// port.
pub fn read_bounded<const LEAST: u16, const MOST: u16>(
    word: &str,
) -> Result<Bounded<LEAST, MOST>, SpellingFault>
    ensures read { Reads (SpellsNumber word.now LEAST MOST) result }
    ensures memory { IsErrOf result SpellingFault.NoMemory → ⊥ }
{
    let number = read_number16(word)?;
    let Some(bounded) = Bounded::new(number) else {
        return Err(SpellingFault::Bad);
    };
    Ok(bounded)
}

/// The name that a word is.
pub fn read_name<K: NameKind>(alloc: Global, word: &str) -> Result<Name<K>, SpellingFault>
    ensures read { Reads (SpellsName K.allows word.now) result }
    ensures bad { IsErrOf result SpellingFault.Bad ↔ (K.allows word.now ≢ true) }
{
    Name::new(alloc, word)
}

/// The address that a word spells.
pub fn read_address(word: &str) -> Result<Address, SpellingFault>
    ensures read { Reads (SpellsAddress word.now) result }
    ensures memory { IsErrOf result SpellingFault.NoMemory → ⊥ }
{
    Address::parse(word).ok_or(SpellingFault::Bad)
}

/// The weight that a word spells.
pub fn read_weight(word: &str) -> Result<Weight, SpellingFault>
    ensures read { Reads (SpellsWeight word.now) result }
    ensures memory { IsErrOf result SpellingFault.NoMemory → ⊥ }
{
    Weight::parse(word).ok_or(SpellingFault::Bad)
}
