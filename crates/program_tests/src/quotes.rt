//! Messages and answers that tables spell with `'` for `"`.
use std::alloc::{AllocError, Global};

/// Puts a text behind others, with `"` for `'`.
pub fn push_quoted(into: &mut String, text: &str) -> Result<(), AllocError> {
    for character in text.chars() {
        into.push(if character == '\'' { '"' } else { character })?;
    }
    Ok(())
}

/// Puts the message that asks for this of a ring under a number behind others.
pub fn push_message(
    alloc: Global,
    into: &mut String,
    number: u32,
    ring: &str,
    what: &str,
) -> Result<(), AllocError> {
    let text = format!(in alloc; "{{'caller':'ops','number':{number},'ring':'{ring}',{what}}}")?;
    push_quoted(into, text.as_str())
}

/// What follows in a text behind what is spelled so, if it begins with it.
pub fn behind_quoted<'a>(text: &'a [u8], spelled: &str) -> Option<&'a [u8]> {
    let mut rest = text;
    for byte in spelled.bytes() {
        let (first, behind) = rest.split_first()?;
        if *first != (if byte == b'\'' { b'"' } else { byte }) {
            return None;
        }
        rest = behind;
    }
    Some(rest)
}
