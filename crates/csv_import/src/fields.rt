//! The values that fields spell. A field that isn't UTF-8 spells none.
ghost use Rattle.std.specs.Prelude.{◌≡◌, true, IsErrOf, IfNone, IfSome, IsUtf8};
ghost use Rattle.ring_words.specs.Limits.{greatest_short};
ghost use Rattle.ring_words.specs.Spelling.{Reads, SpellsAddress, SpellsName, SpellsNumber};
ghost use Rattle.ring_words.specs.Spelling.{SpellsWeight};
ghost use Rattle.ring_words.specs.Texts.{is_device_name};

use ring_words::{
    Address, DeviceName, Port, SpellingFault, Weight, read_address, read_bounded, read_name,
    read_number16, read_weight,
};
use std::alloc::Global;
use std::str;

/// The field as a text.
fn text_of(field: &[u8]) -> Option<&str>
    ensures found { IfSome result (λ text. text.now ≡ field.now) }
    ensures none { IfNone result (IsUtf8 field.now → ⊥) }
{
    str::from_utf8(field).ok()
}

/// The number of a region or a zone.
pub(crate) fn number_of(field: &[u8]) -> Result<u16, SpellingFault>
    ensures read { Reads (SpellsNumber field.now 0 greatest_short) result }
    ensures memory { IsErrOf result SpellingFault.NoMemory → ⊥ }
{
    let Some(text) = text_of(field) else {
        return Err(SpellingFault::Bad);
    };
    read_number16(text)
}

/// The address.
pub(crate) fn address_of(field: &[u8]) -> Result<Address, SpellingFault>
    ensures read { Reads (SpellsAddress field.now) result }
    ensures memory { IsErrOf result SpellingFault.NoMemory → ⊥ }
{
    let Some(text) = text_of(field) else {
        return Err(SpellingFault::Bad);
    };
    read_address(text)
}

/// The port.
pub(crate) fn port_of(field: &[u8]) -> Result<Port, SpellingFault>
    ensures read { Reads (SpellsNumber field.now 1 greatest_short) result }
    ensures memory { IsErrOf result SpellingFault.NoMemory → ⊥ }
{
    let Some(text) = text_of(field) else {
        return Err(SpellingFault::Bad);
    };
    read_bounded(text)
}

/// The name.
pub(crate) fn name_of(alloc: Global, field: &[u8]) -> Result<DeviceName, SpellingFault>
    ensures read { Reads (SpellsName is_device_name field.now) result }
    ensures named { IsErrOf result SpellingFault.NoMemory → is_device_name field.now ≡ true }
{
    let Some(text) = text_of(field) else {
        return Err(SpellingFault::Bad);
    };
    read_name(alloc, text)
}

/// The weight.
pub(crate) fn weight_of(field: &[u8]) -> Result<Weight, SpellingFault>
    ensures read { Reads (SpellsWeight field.now) result }
    ensures memory { IsErrOf result SpellingFault.NoMemory → ⊥ }
{
    let Some(text) = text_of(field) else {
        return Err(SpellingFault::Bad);
    };
    read_weight(text)
}
