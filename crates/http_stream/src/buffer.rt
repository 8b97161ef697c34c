//! The bytes that were read and are not answered yet.
ghost use Rattle.std.specs.Prelude.{◌≡◌, ◌≤◌, ◌+◌, ◌++◌, ℕ, List, [], length, drop, IfOk, IsTrue};
ghost use Rattle.http_stream.specs.Inner.Midstream.{buffer_room, piece_size};
ghost use Rattle.std.specs.Prelude.{◌↔◌, ◌<◌, vec_len, vec_capacity};
ghost use Rattle.httparse.specs.Spans.{IsWithin, span_bytes};
ghost use Rattle.http_messages.specs.Requests.{IsLook};

use http_messages::{Audience, Look, MAX_BODY, MAX_HEAD, look_at};
use httparse::spans::Span;
use std::alloc::{AllocError, Global};
use std::marker::Model;

/// How many bytes are read at once, at most. Most requests are shorter, and room that is made for a
/// connection is filled with zeros.
const PIECE: usize = 16384;

/// How many bytes there is room for: a request of the greatest length, and one more read.
const ROOM: usize = MAX_HEAD + MAX_BODY + PIECE;

/// Room for what is read at once.
pub fn new_piece(alloc: Global) -> Result<Vec<u8>, AllocError>
    ensures { IfOk result (λ piece. vec_len piece ≡ piece_size) }
{
    vec![in alloc; 0u8; PIECE]
}

/// The bytes that were read and are not answered yet. Contracts see them as a list.
#[derive(Drop)]
pub struct Buffer {
    bytes: Vec<u8>,
    /// How many of the bytes are answered.
    start: usize,
}

impl Model for Buffer {
    ghost Value = { List ℕ };

    ghost view = { λ buffer. drop buffer.start buffer.bytes.items };

    ghost invariant = { λ buffer. (buffer.start ≤ vec_len buffer.bytes) ×
        (vec_len buffer.bytes ≤ buffer_room)
        × (buffer_room ≤ vec_capacity buffer.bytes) };
}

impl Buffer {
    /// An empty one, with all its room.
    pub fn new(alloc: Global) -> Result<Buffer, AllocError>
        ensures { IfOk result (λ buffer. buffer ≡ []) }
    {
        Ok(Buffer {
            bytes: Vec::with_capacity(alloc, ROOM)?,
            start: 0,
        })
    }

    /// What is at the front, for this audience.
    pub fn look(&self, audience: Audience<'_>) -> Look
        ensures { IsLook audience.entry self.now result }
    {
        look_at(audience, &self.bytes[self.start..])
    }

    /// The bytes of a part.
    pub fn part(&self, span: Span) -> &[u8]
        requires { IsWithin (length self.now) span }
        ensures { result.now ≡ span_bytes self.now span }
    {
        span.of(&self.bytes[self.start..])
    }

    /// Whether there are at least so many bytes.
    pub fn has(&self, count: usize) -> bool
        ensures { IsTrue result ↔ (count ≤ length self.now) }
    {
        count <= self.bytes.len() - self.start
    }

    /// Drops the first bytes.
    pub fn consume(&mut self, count: usize)
        requires { count ≤ length self.old }
        ensures { self.new ≡ drop count self.old }
    {
        self.start += count;
    }

    /// Adds what was read.
    pub fn add(&mut self, more: &[u8])
        requires { length self.old + length more.now ≤ buffer_room }
        ensures { self.new ≡ self.old ++ more.now }
    {
        drop(self.bytes.drain(..self.start));
        self.start = 0;
        self.bytes.extend_from_slice(more).unwrap();
    }
}
