//! What a book is asked.
ghost use Rattle.ring_log.specs.Inquiries.{most_told};
ghost use Rattle.ring_words.specs.Spelling.{Reads, SpellsNumber};

use ring_reads::Question;
use ring_words::{Bounded, SpellingFault, read_bounded};

/// At most so many entries of a log are told at a time.
const MOST_TOLD: u16 = 1000;

/// How many entries of a log may be asked for.
type PartSize = Bounded<1, MOST_TOLD>;

/// How many entries of a log a word asks for, from 1 to 1,000.
pub fn read_size(word: &str) -> Result<u32, SpellingFault>
    ensures { Reads (SpellsNumber word.now 1 most_told) result }
{
    let size: PartSize = read_bounded(word)?;
    Ok(u32::from(size.get()))
}

/// What a book is asked.
#[derive(Drop)]
pub enum Inquiry {
    /// Something of what it holds.
    Held(Question),
    /// The entries of its log from a place on, and at most so many of them, a line of JSON each.
    Log(u32, u32),
}

impl Inquiry {
    ghost use Rattle.std.specs.Prelude.{◌≡◌};
    ghost use Rattle.ring_log.specs.Inquiries.{asks_json};

    /// Whether what is shown of it is one JSON text, which has no line feed at its end.
    pub fn is_json(&self) -> bool
        ensures { result ≡ asks_json self.now }
    {
        match self {
            Inquiry::Held(question) => question.is_json(),
            Inquiry::Log(..) => false,
        }
    }
}
