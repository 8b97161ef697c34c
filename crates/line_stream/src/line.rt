//! The line that the bytes of a stream make up.
ghost use Rattle.std.specs.Prelude.{◌≡◌, ◌↔◌, ◌≤◌, ◌++◌, ℕ, List, [], ◌∷◌, Option, Some, None};
ghost use Rattle.std.specs.Prelude.{IfOk, IsTrue, MatchOption, vec_len, vec_capacity};
ghost use Rattle.std.specs.Prelude.{option_and_then, if◌then◌else◌};
ghost use Rattle.line_stream.specs.Inner.Midway.{line_kept};
ghost use Rattle.line_stream.specs.declared.line.TheConstants.{LONGEST_LINE};

use std::alloc::{AllocError, Global};
use std::marker::Model;

/// The most bytes that a line may have, its line feed not counted.
pub const LONGEST_LINE: usize = 65536;

/// The bytes of a line that came so far, unless they are too many.
#[derive(Drop)]
pub struct LineBuffer {
    bytes: Vec<u8>,
    is_too_long: bool,
}

impl Model for LineBuffer {
    ghost Value = { Option (List ℕ) };

    ghost view = { λ line. if line.is_too_long then None else Some line.bytes.items };

    ghost invariant = { λ line. (vec_len line.bytes ≤ LONGEST_LINE)
        × (LONGEST_LINE ≤ vec_capacity line.bytes) };
}

impl LineBuffer {
    /// An empty line, with room for the longest.
    pub fn new(alloc: Global) -> Result<LineBuffer, AllocError>
        ensures { IfOk result (λ line. line ≡ Some []) }
    {
        Ok(LineBuffer {
            bytes: Vec::with_capacity(alloc, LONGEST_LINE)?,
            is_too_long: false,
        })
    }

    /// Adds a byte at the end.
    pub fn push(&mut self, byte: u8)
        ensures { self.new ≡ option_and_then (λ line. line_kept (line ++ byte ∷ [])) self.old }
    {
        if self.bytes.len() < LONGEST_LINE {
            self.bytes.push(byte).unwrap();
        } else {
            self.is_too_long = true;
        }
    }

    /// Begins the next line.
    pub fn clear(&mut self)
        ensures { self.new ≡ Some [] }
    {
        self.bytes.clear();
        self.is_too_long = false;
    }

    /// The line, unless it is too long.
    pub fn get(&self) -> Option<&[u8]>
        ensures { MatchOption result (self.now ≡ None) (λ line. self.now ≡ Some line.now) }
    {
        if self.is_too_long {
            None
        } else {
            Some(&self.bytes)
        }
    }

    /// Whether no byte came.
    pub fn is_empty(&self) -> bool
        ensures { IsTrue result ↔ (self.now ≡ Some []) }
    {
        !self.is_too_long && self.bytes.is_empty()
    }
}
