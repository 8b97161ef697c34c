//! Reads that a word alone asks for.
ghost use Rattle.std.specs.Prelude.{◌≡◌, IfOk, IfSome, IfNone, string_bytes};
ghost use Rattle.ring_reads.specs.Reads.{IsPlainText, plain_word};
ghost use Rattle.ring_reads.specs.declared.plain.Plain.{Plain as PlainModel};

use crate::locks::locks_json;
use crate::whole_ring::ring_json;
use ring_model::Ring;
use ring_tables::{balance_table, device_table};
use ring_words::{Hour, RingName};
use std::alloc::{AllocError, Global};

/// What a word alone asks of a ring.
#[derive(Clone, Copy, Debug)]
pub enum Plain {
    /// Where each device stands, what it weighs, and its state.
    Devices,
    /// How many seats each device wants and has, and how far that is from its share.
    Balance,
    /// The whole ring, as JSON without a line feed.
    Ring,
    /// How many partitions are locked, and for how many hours, as JSON without a line feed.
    Locks,
}

impl Plain {
    /// The plain read that a word asks for, none exactly where it asks for none.
    pub fn of_word(word: &str) -> Option<Plain>
        ensures read { IfSome result (λ plain. word.now ≡ plain_word plain) }
        ensures none { IfNone result ((plain : PlainModel) → word.now ≡ plain_word plain → ⊥) }
    {
        match word {
            "devices" => Some(Plain::Devices),
            "balance" => Some(Plain::Balance),
            "ring" => Some(Plain::Ring),
            "locks" => Some(Plain::Locks),
            _ => None,
        }
    }

    /// What it shows of a ring of this name at an hour: lines, each with its line feed, or JSON
    /// without one.
    pub fn text(
        self,
        alloc: Global,
        name: &RingName,
        ring: &Ring,
        hour: Hour,
    ) -> Result<String, AllocError>
        ensures { IfOk result (λ text. IsPlainText self name.now ring.now hour
            (string_bytes text)) }
    {
        match self {
            Plain::Devices => device_table(alloc, ring),
            Plain::Balance => balance_table(alloc, ring),
            Plain::Ring => ring_json(alloc, name, ring, hour),
            Plain::Locks => locks_json(alloc, name, ring, hour),
        }
    }
}
