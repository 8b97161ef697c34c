//! What is read of rings.
ghost use Rattle.std.specs.Prelude.{◌≡◌, ◌⊎◌, ℕ, IfErr, IfOk, IsUtf8, List, max, string_bytes};
ghost use Rattle.ring_metrics.specs.Metrics.{IsMetrics};
ghost use Rattle.ring_reads.specs.Holding.{figures_of, holding_of, hour_now};
ghost use Rattle.ring_reads.specs.MovesJson.{AreMoveLines, IsMovesJson, WasPublished};
ghost use Rattle.ring_reads.specs.Preview.{IsPreviewJson};
ghost use Rattle.ring_reads.specs.Reads.{AreTables, Hides, IsHidden, IsShown, IsSwiftFileOf, Shows};
ghost use Rattle.ring_reads.specs.Reads.{IsText, IsTextRead, IsVersionUnread, SpellsNoRing};
ghost use Rattle.ring_reads.specs.Reads.{TellsNodes};
ghost use Rattle.ring_reads.specs.declared.reads.Format.{Format};
ghost use Rattle.ring_reads.specs.declared.reads.Hidden.TheVariants.{BadText, NoMemory};
ghost use Rattle.ring_reads.specs.declared.reads.Read.TheVariants as read;

use crate::held::Held;
use crate::moves_text::{move_lines, moves_json};
use crate::nodes::nodes_text;
use crate::plain::Plain;
use crate::preview::preview_json;
use crate::whole_store::{rings_json, status_json};
use path_lookup::{HashNames, NodesFault, Path, hash_path, nodes, partition_of};
use ring_metrics::metrics_text;
use ring_model::Ring;
use ring_place::{PlaceError, rebalance};
use ring_tables::{balance_table, device_table};
use ring_text::{Snapshot, read_ring};
use ring_words::{Hour, RingName, SpellingFault};
use std::alloc::{AllocError, Global};
use swift_ring::write_swift_ring;

/// The format of a published text.
#[derive(Clone, Copy, Debug, PartialEq, Eq)]
pub enum Format {
    /// As it was published.
    Text,
    /// As Swift's ring file.
    Swift,
}

/// What is read of a ring.
#[derive(Drop)]
pub enum Read {
    /// What a word alone asks for.
    Plain(Plain),
    /// Its devices, and then its balance.
    Tables,
    /// The nodes of a path, as JSON without a line feed.
    Nodes(Path),
    /// It as it is published under this version, in a format.
    Published(u32, Format),
    /// What a rebalance with this seed would do, as JSON without a line feed: at this hour, in
    /// whole hours since 1970, or at the one at which a request would be decided now, if that is
    /// later.
    Preview(u32, Hour),
    /// What moved between these two published versions, as JSON without a line feed.
    Moves(u32, u32),
    /// A line for each seat that differs between them.
    EachMove(u32, u32),
}

impl Read {
    ghost use Rattle.std.specs.Prelude.{◌≡◌};
    ghost use Rattle.ring_reads.specs.Reads.{is_file_read, is_json_read};

    /// Whether what is shown of it is JSON, which has no line feed at its end.
    fn is_json(&self) -> bool
        ensures { result ≡ is_json_read self.now }
    {
        matches!(
            self,
            Read::Plain(Plain::Ring | Plain::Locks)
                | Read::Nodes(_)
                | Read::Preview(..)
                | Read::Moves(..)
        )
    }

    /// Whether what is shown of it is a file of Swift's.
    fn is_file(&self) -> bool
        ensures { result ≡ is_file_read self.now }
    {
        matches!(self, Read::Published(_, Format::Swift))
    }
}

/// What is read.
#[derive(Drop)]
pub enum Question {
    /// Which rings there are, as JSON without a line feed.
    Rings,
    /// How much is kept, as JSON without a line feed.
    Status,
    /// The metrics of all that is held, in the text format of Prometheus.
    Metrics,
    /// This of the ring of a name.
    Ring(RingName, Read),
}

impl Question {
    ghost use Rattle.std.specs.Prelude.{◌≡◌};
    ghost use Rattle.ring_reads.specs.Reads.{is_file, is_json, is_metrics};

    /// Whether what is shown of it is JSON, which has no line feed at its end.
    pub fn is_json(&self) -> bool
        ensures { result ≡ is_json self.now }
    {
        match self {
            Question::Rings | Question::Status => true,
            Question::Metrics => false,
            Question::Ring(_, what) => what.is_json(),
        }
    }

    /// Whether it asks for the metrics.
    pub fn is_metrics(&self) -> bool
        ensures { result ≡ is_metrics self.now }
    {
        matches!(self, Question::Metrics)
    }

    /// Whether what is shown of it is a file of Swift's, which is no text.
    pub fn is_file(&self) -> bool
        ensures { result ≡ is_file self.now }
    {
        match self {
            Question::Rings | Question::Status | Question::Metrics => false,
            Question::Ring(_, what) => what.is_file(),
        }
    }
}

/// Why nothing is shown.
#[derive(Clone, Copy, PartialEq, Eq)]
pub enum Hidden {
    /// There is no ring of the name.
    NoRing,
    /// No seat of the ring is taken.
    NotAssigned,
    /// No text is published under the version.
    NoVersion,
    /// The text that is published under it is that of no ring.
    BadText,
    /// Fewer devices of the ring are open than each partition has replicas.
    TooFewDevices,
    /// A growth of memory was refused.
    NoMemory,
}

impl From<AllocError> for Hidden {
    ghost use Rattle.std.specs.Prelude.{◌≡◌};
    ghost use Rattle.ring_reads.specs.declared.reads.Format.{Format};
    ghost use Rattle.ring_reads.specs.declared.reads.Hidden.TheVariants.{NoMemory};

    ghost from_gives = { λ _ why. why ≡ NoMemory };

    fn from(_refused: AllocError) -> Hidden {
        Hidden::NoMemory
    }
}

/// The device table of a ring, and then its balance table.
fn tables_text(alloc: Global, ring: &Ring) -> Result<String, AllocError>
    ensures { IfOk result (λ text. AreTables ring.now (string_bytes text)) }
{
    let mut text = device_table(alloc, ring)?;
    let balance = balance_table(alloc, ring)?;
    text.push_str(&balance)?;
    Ok(text)
}

/// The nodes of a path in a ring.
fn path_nodes(
    alloc: Global,
    names: HashNames<'_>,
    ring: &Ring,
    path: &Path,
) -> Result<String, Hidden>
    ensures told { IfOk result (λ text. TellsNodes names.entry.prefix.now names.entry.suffix.now
        ring.now path.now (string_bytes text)) }
    ensures hidden { IfErr result (IsHidden ring.now (read.Nodes path.now)) }
{
    let hash = hash_path(names, path);
    let partition = partition_of(hash, ring.power());
    match nodes(alloc, ring, partition) {
        Ok(ids) => Ok(nodes_text(alloc, ring, partition, &ids)?),
        Err(NodesFault::NotAssigned) => Err(Hidden::NotAssigned),
        Err(NodesFault::NoMemory) => Err(Hidden::NoMemory),
    }
}

/// What a rebalance of a ring of this name would do at an hour with a seed.
fn preview_at(
    alloc: Global,
    name: &RingName,
    ring: &Ring,
    hour: Hour,
    seed: u32,
) -> Result<String, Hidden>
    ensures told { IfOk result (λ text. IsPreviewJson name.now ring.now hour seed
        (string_bytes text)) }
    ensures hidden { IfErr result (IsHidden ring.now (read.Preview seed hour)) }
{
    match rebalance(alloc, ring, hour, seed) {
        Ok(done) => Ok(preview_json(alloc, name, ring, hour, seed, &done)?),
        Err(PlaceError::TooFewDevices) => Err(Hidden::TooFewDevices),
        Err(PlaceError::NoMemory) => Err(Hidden::NoMemory),
    }
}

/// The later of two hours.
fn later(a: Hour, b: Hour) -> Hour
    ensures { result ≡ max a b }
{
    a.max(b)
}

/// What a rebalance of a ring of this name would do with a seed at the later of two hours.
fn preview_text(
    alloc: Global,
    name: &RingName,
    ring: &Ring,
    hour: Hour,
    seed: u32,
    asked: Hour,
) -> Result<String, Hidden>
    ensures told { IfOk result (λ text. IsPreviewJson name.now ring.now (max hour asked) seed
        (string_bytes text)) }
    ensures hidden { IfErr result (IsHidden ring.now (read.Preview seed asked)) }
{
    preview_at(alloc, name, ring, later(hour, asked), seed)
}

/// Swift's ring file of the ring that a text spells.
fn swift_bytes(alloc: Global, text: &str) -> Result<Vec<u8>, Hidden>
    ensures told { IfOk result (λ bytes. IsSwiftFileOf text.now bytes.items) }
    ensures hidden { IfErr result (λ why. (why ≡ NoMemory) ⊎ ((why ≡ BadText)
        × SpellsNoRing text.now)) }
{
    match read_ring(alloc, text.as_bytes()) {
        Ok(snapshot) => Ok(write_swift_ring(alloc, &snapshot)?),
        Err(SpellingFault::Bad) => Err(Hidden::BadText),
        Err(SpellingFault::NoMemory) => Err(Hidden::NoMemory),
    }
}

/// A ring as it is published under a version, in a format.
fn published_bytes(
    alloc: Global,
    ring: &Ring,
    version: u32,
    format: Format,
) -> Result<Vec<u8>, Hidden>
    ensures told { IfOk result (λ bytes. (prefix suffix name : List ℕ) (hour : ℕ) → IsShown prefix
        suffix name ring.now hour (read.Published version format) bytes.items) }
    ensures text { IfOk result (λ bytes. IsTextRead (read.Published version format) →
        IsUtf8 bytes.items) }
    ensures hidden { IfErr result (IsHidden ring.now (read.Published version format)) }
{
    let Some(text) = ring.published(version) else {
        return Err(Hidden::NoVersion);
    };
    match format {
        Format::Text => Ok(Vec::from_slice(alloc, text.as_bytes())?),
        Format::Swift => swift_bytes(alloc, text),
    }
}

/// A ring as it was published under a version, read back.
fn published_ring(alloc: Global, ring: &Ring, version: u32) -> Result<Snapshot, Hidden>
    ensures published { IfOk result (λ snapshot. WasPublished ring.now version snapshot) }
    ensures hidden { IfErr result (IsVersionUnread ring.now version) }
{
    let Some(text) = ring.published(version) else {
        return Err(Hidden::NoVersion);
    };
    match read_ring(alloc, text.as_bytes()) {
        Ok(snapshot) => Ok(snapshot),
        Err(SpellingFault::Bad) => Err(Hidden::BadText),
        Err(SpellingFault::NoMemory) => Err(Hidden::NoMemory),
    }
}

/// A ring as it was published under two versions, read back.
fn both_rings(
    alloc: Global,
    ring: &Ring,
    from: u32,
    to: u32,
) -> Result<(Snapshot, Snapshot), Hidden>
    ensures published { IfOk result (λ both. WasPublished ring.now from both.0
        × WasPublished ring.now to both.1) }
    ensures hidden { IfErr result (λ why. IsVersionUnread ring.now from why
        ⊎ IsVersionUnread ring.now to why) }
{
    let old = published_ring(alloc, ring, from)?;
    match published_ring(alloc, ring, to) {
        Ok(new) => Ok((old, new)),
        Err(why) => Err(why),
    }
}

/// What moved between two versions of a ring of this name.
fn moves_text(
    alloc: Global,
    name: &RingName,
    ring: &Ring,
    from: u32,
    to: u32,
) -> Result<String, Hidden>
    ensures told { IfOk result (λ text. IsMovesJson name.now ring.now from to
        (string_bytes text)) }
    ensures hidden { IfErr result (IsHidden ring.now (read.Moves from to)) }
{
    let both = both_rings(alloc, ring, from, to)?;
    match moves_json(alloc, name, from, to, &both.0, &both.1) {
        Ok(text) => Ok(text),
        Err(AllocError) => Err(Hidden::NoMemory),
    }
}

/// A line for each seat that differs between two versions of a ring.
fn each_move(alloc: Global, ring: &Ring, from: u32, to: u32) -> Result<String, Hidden>
    ensures told { IfOk result (λ text. AreMoveLines ring.now from to (string_bytes text)) }
    ensures hidden { IfErr result (IsHidden ring.now (read.EachMove from to)) }
{
    let both = both_rings(alloc, ring, from, to)?;
    match move_lines(alloc, &both.0, &both.1) {
        Ok(text) => Ok(text),
        Err(AllocError) => Err(Hidden::NoMemory),
    }
}

/// What a ring of this name shows of a read at an hour, where that is no published text.
fn ring_text(
    alloc: Global,
    hour: Hour,
    names: HashNames<'_>,
    name: &RingName,
    ring: &Ring,
    what: &Read,
) -> Result<String, Hidden>
    requires { (version : ℕ) (format : Format) → what.now ≡ read.Published version format → ⊥ }
    ensures shown { IfOk result (λ text. IsShown names.entry.prefix.now names.entry.suffix.now
        name.now ring.now hour what.now (string_bytes text)) }
    ensures hidden { IfErr result (IsHidden ring.now what.now) }
{
    match what {
        Read::Plain(plain) => Ok(plain.text(alloc, name, ring, hour)?),
        Read::Tables => Ok(tables_text(alloc, ring)?),
        Read::Nodes(path) => path_nodes(alloc, names, ring, path),
        Read::Published(..) => unreachable!(),
        Read::Preview(seed, asked) => preview_text(alloc, name, ring, hour, *seed, *asked),
        Read::Moves(from, to) => moves_text(alloc, name, ring, *from, *to),
        Read::EachMove(from, to) => each_move(alloc, ring, *from, *to),
    }
}

/// What a ring of this name shows of a read at an hour.
fn ring_bytes(
    alloc: Global,
    hour: Hour,
    names: HashNames<'_>,
    name: &RingName,
    ring: &Ring,
    what: &Read,
) -> Result<Vec<u8>, Hidden>
    ensures shown { IfOk result (λ bytes. IsShown names.entry.prefix.now names.entry.suffix.now
        name.now ring.now hour what.now bytes.items) }
    ensures text { IfOk result (λ bytes. IsTextRead what.now → IsUtf8 bytes.items) }
    ensures hidden { IfErr result (IsHidden ring.now what.now) }
{
    match what {
        Read::Published(version, format) => published_bytes(alloc, ring, *version, *format),
        _ => Ok(ring_text(alloc, hour, names, name, ring, what)?.into_bytes()),
    }
}

/// What the ring of this name that is held shows of a read.
fn named_bytes(
    alloc: Global,
    names: HashNames<'_>,
    held: &Held<'_>,
    name: &RingName,
    what: &Read,
) -> Result<Vec<u8>, Hidden>
    ensures shown { IfOk result (λ bytes. Shows names.entry.prefix.now names.entry.suffix.now
        (holding_of held.now) (Question.Ring name.now what.now) bytes.items) }
    ensures text { IfOk result (λ bytes. IsTextRead what.now → IsUtf8 bytes.items) }
    ensures hidden { IfErr result (Hides (holding_of held.now)
        (Question.Ring name.now what.now)) }
{
    match held.rings.get(name) {
        Some(ring) => ring_bytes(alloc, held.hour_now(), names, name, ring, what),
        None => Err(Hidden::NoRing),
    }
}

/// The metrics of all that is held, at the hour at which a request would be decided now.
fn held_metrics(alloc: Global, held: &Held<'_>) -> Result<String, AllocError>
    ensures { IfOk result (λ text. IsMetrics (figures_of (holding_of held.now))
        (holding_of held.now).rings (hour_now (holding_of held.now)) (string_bytes text)) }
{
    metrics_text(alloc, &held.figures(), held.rings, held.hour_now())
}

/// What is shown of a question where this is held. Paths are hashed between names.
pub fn show(
    alloc: Global,
    names: HashNames<'_>,
    held: &Held<'_>,
    question: &Question,
) -> Result<Vec<u8>, Hidden>
    ensures shown { IfOk result (λ bytes. Shows names.entry.prefix.now names.entry.suffix.now
        (holding_of held.now) question.now bytes.items) }
    ensures text { IfOk result (λ bytes. IsText question.now → IsUtf8 bytes.items) }
    ensures hidden { IfErr result (Hides (holding_of held.now) question.now) }
{
    match question {
        Question::Rings => Ok(rings_json(alloc, held.rings)?.into_bytes()),
        Question::Status => Ok(status_json(alloc, held)?.into_bytes()),
        Question::Metrics => Ok(held_metrics(alloc, held)?.into_bytes()),
        Question::Ring(name, what) => named_bytes(alloc, names, held, name, what),
    }
}
