//! What words may ask for.
ghost use Rattle.std.specs.Prelude.{◌≡◌};
ghost use Rattle.command_line.specs.declared.task.ArgsFault.TheVariants.{NoMemory};

use path_lookup::HashNames;
use ring_reads::{Format, Plain};
use ring_words::{Hour, Port};
use std::alloc::AllocError;

/// What is shown, mostly as JSON.
#[derive(Clone, Copy, Debug)]
pub enum Shown<'a> {
    /// Which rings there are.
    Rings,
    /// How much is kept.
    Status,
    /// The metrics of all that is held, as text.
    Metrics,
    /// What a word asks of the ring of this name, which stands as it was written.
    Ring {
        ring: &'a str,
        what: Plain,
    },
    /// What a rebalance of the ring of this name would do, at this hour or the greatest that the
    /// file keeps.
    Preview {
        ring: &'a str,
        seed: u32,
        hour: Option<Hour>,
    },
    /// What moved between two published versions of the ring of this name, each version as it was
    /// written; each seat in a line, if that is asked for, and else as JSON.
    Moves {
        ring: &'a str,
        from: &'a str,
        to: &'a str,
        each: bool,
    },
}

/// What the words ask for. A text stands as it was written.
#[derive(Debug, Drop)]
pub enum Task<'a> {
    /// To answer requests and questions, a line each, over this file or over memory.
    Run {
        file: Option<&'a str>,
    },
    /// To serve so many connections of HTTP on this port of 127.0.0.1, one after another. The clock
    /// tells the hour that is given, always, or else that of the machine.
    Serve {
        file: &'a str,
        port: Port,
        count: u16,
        hour: Option<Hour>,
        names: HashNames<'a>,
    },
    /// To serve connections of HTTP on this port of 127.0.0.1, one after another, until it is
    /// stopped, for programs that send to the machine's own names or to these hosts. The clock is
    /// that of the machine. `hour_ok` says that its hour may be far ahead of all that were used.
    Service {
        file: &'a str,
        port: Port,
        hosts: Vec<&'a str>,
        hour_ok: bool,
        names: HashNames<'a>,
    },
    /// To answer the bytes of a file as those of one connection of HTTP. The clock is as that of
    /// `Serve`.
    Loop {
        file: &'a str,
        input: &'a str,
        hour: Option<Hour>,
        names: HashNames<'a>,
    },
    /// To import the rows of a CSV file, under a caller's number.
    Import {
        file: &'a str,
        ring: &'a str,
        caller: &'a str,
        number: &'a str,
        csv: &'a str,
        hour: Option<Hour>,
    },
    /// To show the devices and the balance of a ring.
    Table {
        file: &'a str,
        ring: &'a str,
    },
    /// To show the rings, the status, the metrics, what a word asks of a ring, what a rebalance would
    /// do or what moved.
    Show {
        file: &'a str,
        what: Shown<'a>,
    },
    /// To write the log of decided requests from a place on, which stands as it was written, a line
    /// each: whole entries, or lines that ask for the same deliveries.
    Log {
        file: &'a str,
        from: Option<&'a str>,
        lines: bool,
    },
    /// To show which devices hold a path.
    Nodes {
        file: &'a str,
        ring: &'a str,
        account: &'a str,
        container: Option<&'a str>,
        object: Option<&'a str>,
        names: HashNames<'a>,
    },
    /// To write a published ring.
    Export {
        file: &'a str,
        ring: &'a str,
        version: &'a str,
        format: Format,
    },
    /// To make a new file with the rings and the hour of this one, and without its numbers.
    Renew {
        file: &'a str,
        new: &'a str,
    },
    /// To make a new file with the rings of these texts as they stand, beside those of a file, if
    /// one is given. Each partition of theirs counts as moved at the hour, or at that of the
    /// machine's clock, and stays for so many hours.
    Found {
        new: &'a str,
        texts: Vec<&'a str>,
        min_hours: u16,
        hour: Option<Hour>,
        from: Option<&'a str>,
    },
    /// To tell of which version the program is.
    Version,
}

/// Why words ask for nothing.
#[derive(Drop)]
pub enum ArgsFault {
    /// They are none that the program knows, or ask for help. The text says what may be written.
    Bad(String),
    /// A growth of memory was refused.
    NoMemory,
}

impl From<AllocError> for ArgsFault {
    ghost from_gives = { λ _ fault. fault ≡ NoMemory };

    fn from(_error: AllocError) -> ArgsFault {
        ArgsFault::NoMemory
    }
}
