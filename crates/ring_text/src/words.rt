//! The lines of a text, the words of a line, and what follows a key at its front.
ghost use Rattle.std.specs.Prelude.{◌≡◌, ℕ, ◌<◌, ◌++◌, ◌==◌, List, [], IfOk, IsErrOf, length, map};
ghost use Rattle.std.specs.List.{slice_split};
ghost use Rattle.ring_text.specs.Inner.Reading.{HasLines, IsNumberAfter, IsNameAfter, text_at};
ghost use Rattle.ring_words.specs.Spelling.{Reads};
ghost use Rattle.ring_words.specs.declared.spelling.SpellingFault.TheVariants.{Bad, NoMemory};
ghost use Rattle.ring_words.specs.Inner.ReadsAs.{ReadsAs};
ghost use Rattle.ring_text.specs.Spelling.{state_word};

use crate::TextFault;
use ring_words::{Bounded, RingName, read_bounded, read_name, read_number};
use std::alloc::{AllocError, Global};

/// The parts of a text, each between two separators or an end.
pub(crate) fn parts_of(alloc: Global, text: &str, separator: char) -> Result<Vec<&str>, AllocError>
    requires { separator < 128 }
    ensures { IfOk result (λ parts. map (λ part. part.now) parts.items ≡ slice_split
        (λ b. b == separator) text.now) }
{
    text.split(separator).collect(alloc)
}

/// The first lines of a text, so many, and what follows them.
pub(crate) fn front_lines(
    alloc: Global,
    text: &str,
    count: usize,
) -> Result<(Vec<&str>, &str), TextFault>
    ensures read { IfOk result (λ x. HasLines count text.now (map (λ line. line.now) x.0.items)
        x.1.now) }
    ensures bad { IsErrOf result Bad → (texts more : List (List ℕ)) → slice_split (λ b. b == 10)
        text.now ≡ texts ++ more → 0 < length more → length texts ≡ count → ⊥ }
{
    let mut lines = Vec::new(alloc);
    let mut rest = text;
    for _line in 0..count {
        let Some((line, next)) = rest.split_once('\n') else {
            return Err(TextFault::Bad);
        };
        lines.push(line)?;
        rest = next;
    }
    Ok((lines, rest))
}

/// One of some texts, by its place.
pub(crate) fn text_at<'a>(texts: &[&'a str], place: usize) -> &'a str
    requires { place < length texts.now }
    ensures { result.now ≡ text_at (map (λ text. text.now) texts.now) place }
{
    texts[place]
}

/// Whether a device is marked to be removed.
pub(crate) fn state(word: &str) -> Result<bool, TextFault>
    ensures read { Reads (λ removed. word.now ≡ state_word removed) result }
    ensures memory { IsErrOf result NoMemory → ⊥ }
{
    match word {
        "present" => Ok(false),
        "removed" => Ok(true),
        _ => Err(TextFault::Bad),
    }
}

/// What follows a key at the front of a line, or of a text. It asks for no memory, as all of this
/// file that take no allocator.
pub(crate) fn after<'a>(line: &'a str, key: &str) -> Result<&'a str, TextFault>
    ensures read { ReadsAs (λ rest. rest.now) (λ rest. line.now ≡ key.now ++ rest) result }
    ensures memory { IsErrOf result NoMemory → ⊥ }
{
    line.strip_prefix(key).ok_or(TextFault::Bad)
}

pub(crate) fn number_after(line: &str, key: &str, most: u32) -> Result<u32, TextFault>
    ensures read { Reads (IsNumberAfter key.now line.now 0 most) result }
    ensures memory { IsErrOf result NoMemory → ⊥ }
{
    let rest = after(line, key)?;
    read_number(rest, most)
}

pub(crate) fn bounded_after<const LEAST: u16, const MOST: u16>(
    line: &str,
    key: &str,
) -> Result<Bounded<LEAST, MOST>, TextFault>
    ensures read { Reads (IsNumberAfter key.now line.now LEAST MOST) result }
    ensures memory { IsErrOf result NoMemory → ⊥ }
{
    let rest = after(line, key)?;
    read_bounded(rest)
}

pub(crate) fn name_after(alloc: Global, line: &str, key: &str) -> Result<RingName, TextFault>
    ensures read { Reads (IsNameAfter key.now line.now) result }
    ensures bad { ((name : List ℕ) → IsNameAfter key.now line.now name → ⊥) → IsErrOf result Bad }
{
    let rest = after(line, key)?;
    read_name(alloc, rest)
}
