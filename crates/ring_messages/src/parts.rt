//! The parts of an object that a message is: each is read exactly where it is of its kind and
//! range.
ghost use Rattle.std.specs.Prelude.{◌≡◌, ℕ, List, Some, IsUtf8, IfSome, IfNone, option_map};
ghost use Rattle.ring_words.specs.Limits.{greatest_long, greatest_short};
ghost use Rattle.serde_json.specs.Data.{string};
ghost use Rattle.serde_json.specs.Find.{get};
ghost use Rattle.serde_json.specs.View.{view};
ghost use Rattle.serde_json.specs.Read.{read};
ghost use Rattle.ring_messages.specs.Reads.{IsNumber, IsName};
ghost use Rattle.ring_words.specs.Spelling.{Reads};
ghost use Rattle.ring_words.specs.Inner.ReadsAs.{ReadsAs};
ghost use Rattle.ring_messages.specs.Inner.Says.{IsAddress, IsWeight};
ghost use Rattle.ring_messages.specs.Message.{members_count};

use crate::MessageFault;
use ring_words::{Address, Bounded, Name, NameKind, Weight};
use serde_json::Value;
use std::alloc::Global;

/// The JSON value that the bytes are.
pub(crate) fn value_of(alloc: Global, bytes: &[u8]) -> Result<Value, MessageFault>
    ensures { ReadsAs view (λ d. IsUtf8 bytes.now × (read bytes.now ≡ Some d)) result }
{
    match Value::from_slice(alloc, bytes) {
        Ok(value) => Ok(value),
        Err(e) => Err(if e.is_memory() {
            MessageFault::NoMemory
        } else {
            MessageFault::Bad
        }),
    }
}

/// A whole number that is at most this.
pub(crate) fn number(found: Option<&Value>, most: u64) -> Result<u64, MessageFault>
    ensures { Reads (IsNumber (option_map (λ v. view v.now) found.entry) 0 most) result }
{
    match found.and_then(Value::as_u64) {
        Some(n) if n <= most => Ok(n),
        _ => Err(MessageFault::Bad),
    }
}

pub(crate) fn number16(found: Option<&Value>) -> Result<u16, MessageFault>
    ensures { Reads (IsNumber (option_map (λ v. view v.now) found.entry) 0 greatest_short) result }
{
    let number = number(found, u64::from(u16::MAX))?;
    Ok(number as u16)
}

/// The number under a key of an object, in 16 bits.
pub(crate) fn number16_at(value: &Value, key: &str) -> Result<u16, MessageFault>
    ensures { Reads (IsNumber (get key.now (view value.now)) 0 greatest_short) result }
{
    number16(value.get(key))
}

/// The number under a key of an object, in 32 bits.
pub(crate) fn number32_at(value: &Value, key: &str) -> Result<u32, MessageFault>
    ensures { Reads (IsNumber (get key.now (view value.now)) 0 greatest_long) result }
{
    let number = number(value.get(key), u64::from(u32::MAX))?;
    Ok(number as u32)
}

pub(crate) fn bounded<const LEAST: u16, const MOST: u16>(
    found: Option<&Value>,
) -> Result<Bounded<LEAST, MOST>, MessageFault>
    ensures { Reads (IsNumber (option_map (λ v. view v.now) found.entry) LEAST MOST) result }
{
    let number = number16(found)?;
    Bounded::new(number).ok_or(MessageFault::Bad)
}

pub(crate) fn text(found: Option<&Value>) -> Option<&str>
    ensures found { IfSome result (λ t. option_map (λ v. view v.now) found.entry
        ≡ Some (string t.now)) }
    ensures none { IfNone result ((t : List ℕ)
        → option_map (λ v. view v.now) found.entry ≡ Some (string t) → ⊥) }
{
    found.and_then(Value::as_str)
}

pub(crate) fn name<K: NameKind>(
    alloc: Global,
    found: Option<&Value>,
) -> Result<Name<K>, MessageFault>
    ensures { Reads (IsName K.allows (option_map (λ v. view v.now) found.entry)) result }
{
    let Some(text) = text(found) else {
        return Err(MessageFault::Bad);
    };
    Name::new(alloc, text)
}

pub(crate) fn address(found: Option<&Value>) -> Result<Address, MessageFault>
    ensures { Reads (IsAddress (option_map (λ v. view v.now) found.entry)) result }
{
    match text(found) {
        Some(text) => Address::parse(text).ok_or(MessageFault::Bad),
        None => Err(MessageFault::Bad),
    }
}

pub(crate) fn weight(found: Option<&Value>) -> Result<Weight, MessageFault>
    ensures { Reads (IsWeight (option_map (λ v. view v.now) found.entry)) result }
{
    match text(found) {
        Some(text) => Weight::parse(text).ok_or(MessageFault::Bad),
        None => Err(MessageFault::Bad),
    }
}

pub(crate) fn members_count(value: &Value) -> usize
    ensures { result ≡ members_count (view value.now) }
{
    match value {
        Value::Object(members) => members.len(),
        _ => 0,
    }
}
