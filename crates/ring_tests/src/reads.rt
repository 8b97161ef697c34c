//! What is shown of rings that tables spell.
use crate::fixtures::{NamedRow, spelled_rings};
use path_lookup::HashNames;
use ring_reads::{Held, Hidden, Question, Read, show};
use ring_words::{Hour, RingName};
use std::alloc::Global;

/// What is held beside rings: the greatest hour and that of the clock, how many numbers are kept, and
/// how many may be.
#[derive(Clone, Copy)]
pub struct Figures {
    pub hour: Hour,
    pub clock: Hour,
    pub kept: usize,
    pub limit: u32,
}

/// What is shown of a question where the rings that rows spell are held, or that memory is short where
/// they can't be.
pub fn shown(
    alloc: Global,
    rows: &[NamedRow],
    figures: Figures,
    question: &Question,
) -> Result<Vec<u8>, Hidden> {
    let rings = spelled_rings(alloc, rows).ok_or(Hidden::NoMemory)?;
    let held = Held {
        rings: &rings,
        hour: figures.hour,
        clock: figures.clock,
        kept: figures.kept,
        limit: figures.limit,
    };
    let names = HashNames {
        prefix: b"",
        suffix: b"",
    };
    show(alloc, names, &held, question)
}

/// What is shown of a read of the ring of a name where these rings are held.
pub fn shown_of(
    alloc: Global,
    rows: &[NamedRow],
    figures: Figures,
    name: &str,
    read: Read,
) -> Result<Vec<u8>, Hidden> {
    match RingName::new(alloc, name) {
        Ok(name) => shown(alloc, rows, figures, &Question::Ring(name, read)),
        Err(_) => Err(Hidden::NoMemory),
    }
}

/// Whether this text is shown.
pub fn is_text(shown: Result<Vec<u8>, Hidden>, text: &str) -> bool {
    match shown {
        Ok(bytes) => bytes.as_slice() == text.as_bytes(),
        Err(_) => false,
    }
}

/// Whether nothing is shown, for this reason.
pub fn is_hidden(shown: Result<Vec<u8>, Hidden>, why: Hidden) -> bool {
    match shown {
        Ok(_) => false,
        Err(hidden) => hidden == why,
    }
}
