//! Questions: lines that ask for the rings, for the status, for something of a ring, or for a part of
//! the log.
ghost use Rattle.std.specs.Prelude.{◌≡◌, ◌++◌, ◌∷◌, ℕ, List, IfSome, IfNone, IsTrue, codes};
ghost use Rattle.ring_words.specs.Spelling.{Reads};
ghost use Rattle.ring_words.specs.Texts.{is_label};
ghost use Rattle.ring_reads.specs.Reads.{plain_word};
ghost use Rattle.ring_reads.specs.declared.plain.Plain.{Plain as PlainModel};
ghost use Rattle.line_api.specs.Lines.{AreTwoNumbers, AskInquiry, AskOfRing, AskPlain, AskQuestion};
ghost use Rattle.line_api.specs.Lines.{AsksInquiry, AsksPart, IsNumbered, NamesNumbers};

use builder::MessageFault;
use ring_log::{Inquiry, read_size};
use ring_reads::{Plain, Question, Read};
use ring_words::{NameFault, RingName, parse_decimal, parse_decimal_up_to, read_name};
use std::alloc::Global;
use std::str;

/// What a word and a space in front of a name ask for, and the name. `None` exactly where the text
/// begins with no such word.
fn plain_asked(text: &str) -> Option<(Plain, &str)>
    ensures found { IfSome result (λ x. text.now ≡ plain_word x.0 ++ 32 ∷ x.1.now) }
    ensures none { IfNone result ((plain : PlainModel) (rest : List ℕ) →
        text.now ≡ plain_word plain ++ 32 ∷ rest → ⊥) }
{
    let (word, rest) = text.split_once(' ')?;
    Some((Plain::of_word(word)?, rest))
}

/// What a word alone asks of which ring. Unreadable exactly where the words ask no such thing.
fn read_plain(alloc: Global, words: &str) -> Result<(RingName, Plain), MessageFault>
    ensures { Reads (λ x. AskPlain words.now x.0 x.1) result }
{
    let Some((plain, name)) = plain_asked(words) else {
        return Err(MessageFault::Bad);
    };
    match RingName::new(alloc, name) {
        Ok(ring) => Ok((ring, plain)),
        Err(NameFault::Bad) => Err(MessageFault::Bad),
        Err(NameFault::NoMemory) => Err(MessageFault::NoMemory),
    }
}

/// What stands behind a text at the front of another. `None` exactly where it doesn't stand there.
fn behind<'a>(text: &'a str, front: &str) -> Option<&'a str>
    ensures found { IfSome result (λ rest. text.now ≡ front.now ++ rest.now) }
    ensures none { IfNone result ((rest : List ℕ) → text.now ≡ front.now ++ rest → ⊥) }
{
    text.strip_prefix(front)
}

/// The two numbers that a text is, with a space between them. `None` exactly where it is no such.
fn two_numbers(text: &str) -> Option<(u32, u32)>
    ensures found { IfSome result (λ x. AreTwoNumbers text.now x.0 x.1) }
    ensures none { IfNone result ((first second : ℕ) → AreTwoNumbers text.now first second → ⊥) }
{
    let (first, rest) = parse_decimal_up_to(text, ' ')?;
    let second = parse_decimal(rest)?;
    Some((first, second))
}

/// What stands before the first space of a text, and the two numbers that stand behind it. No other
/// text of the form of a ring's name stands so before numbers.
fn split_numbered(text: &str) -> Option<(&str, u32, u32)>
    ensures found { IfSome result (λ x. IsNumbered text.now x.0.now x.1 x.2) }
    ensures only { IfSome result (λ x. (name : List ℕ) (first second : ℕ) →
        IsTrue (is_label name) → IsNumbered text.now name first second → x.0.now ≡ name) }
    ensures none { IfNone result ((name : List ℕ) (first second : ℕ) → IsTrue (is_label name) →
        IsNumbered text.now name first second → ⊥) }
{
    let (name, numbers) = text.split_once(' ')?;
    let (first, second) = two_numbers(numbers)?;
    Some((name, first, second))
}

/// A ring's name and the two numbers behind it. Unreadable exactly where the text is no such.
fn read_numbered(alloc: Global, text: &str) -> Result<(RingName, u32, u32), MessageFault>
    ensures { Reads (λ x. NamesNumbers text.now x.0 x.1 x.2) result }
{
    let Some((name, first, second)) = split_numbered(text) else {
        return Err(MessageFault::Bad);
    };
    match read_name(alloc, name) {
        Ok(ring) => Ok((ring, first, second)),
        Err(fault) => Err(fault),
    }
}

/// The preview that words ask for, of which this stands behind the first word.
fn read_preview(alloc: Global, words: &str, text: &str) -> Result<(RingName, Read), MessageFault>
    requires { words.now ≡ codes "preview " ++ text.now }
    ensures { Reads (λ x. AskOfRing words.now x.0 x.1) result }
{
    match read_numbered(alloc, text) {
        Ok((ring, seed, hour)) => Ok((ring, Read::Preview(seed, hour))),
        Err(fault) => Err(fault),
    }
}

/// What words ask to be told to have moved, of which this stands behind the first word.
fn read_moves(alloc: Global, words: &str, text: &str) -> Result<(RingName, Read), MessageFault>
    requires { words.now ≡ codes "moves " ++ text.now }
    ensures { Reads (λ x. AskOfRing words.now x.0 x.1) result }
{
    match read_numbered(alloc, text) {
        Ok((ring, from, to)) => Ok((ring, Read::Moves(from, to))),
        Err(fault) => Err(fault),
    }
}

/// What a word alone asks of which ring, of words that ask for no preview and no moves.
fn read_alone(alloc: Global, words: &str) -> Result<(RingName, Read), MessageFault>
    requires preview { (text : List ℕ) → words.now ≡ codes "preview " ++ text → ⊥ }
    requires moves { (text : List ℕ) → words.now ≡ codes "moves " ++ text → ⊥ }
    ensures { Reads (λ x. AskOfRing words.now x.0 x.1) result }
{
    match read_plain(alloc, words) {
        Ok((ring, plain)) => Ok((ring, Read::Plain(plain))),
        Err(fault) => Err(fault),
    }
}

/// What words that ask for no preview ask of which ring.
fn read_other(alloc: Global, words: &str) -> Result<(RingName, Read), MessageFault>
    requires { (text : List ℕ) → words.now ≡ codes "preview " ++ text → ⊥ }
    ensures { Reads (λ x. AskOfRing words.now x.0 x.1) result }
{
    match behind(words, "moves ") {
        Some(text) => read_moves(alloc, words, text),
        None => read_alone(alloc, words),
    }
}

/// What words ask of which ring. Unreadable exactly where they ask nothing of one.
fn read_of_ring(alloc: Global, words: &str) -> Result<(RingName, Read), MessageFault>
    ensures { Reads (λ x. AskOfRing words.now x.0 x.1) result }
{
    match behind(words, "preview ") {
        Some(text) => read_preview(alloc, words, text),
        None => read_other(alloc, words),
    }
}

/// The question that words ask. Unreadable exactly where they ask none.
fn read_words(alloc: Global, words: &str) -> Result<Question, MessageFault>
    ensures { Reads (AskQuestion words.now) result }
{
    match words {
        "rings" => Ok(Question::Rings),
        "status" => Ok(Question::Status),
        _ => match read_of_ring(alloc, words) {
            Ok((ring, what)) => Ok(Question::Ring(ring, what)),
            Err(fault) => Err(fault),
        },
    }
}

/// From which place on how many entries of a log a text asks for. Unreadable exactly where it asks
/// for none.
fn log_part(text: &str) -> Result<(u32, u32), MessageFault>
    ensures { Reads (λ x. AsksPart text.now x.0 x.1) result }
{
    let Some((from, size)) = parse_decimal_up_to(text, ' ') else {
        return Err(MessageFault::Bad);
    };
    match read_size(size) {
        Ok(most) => Ok((from, most)),
        Err(fault) => Err(fault),
    }
}

/// The part of the log that words ask for, of which this stands behind the first word.
fn read_log(words: &str, text: &str) -> Result<Inquiry, MessageFault>
    requires { words.now ≡ codes "log " ++ text.now }
    ensures { Reads (AskInquiry words.now) result }
{
    match log_part(text) {
        Ok((from, most)) => Ok(Inquiry::Log(from, most)),
        Err(fault) => Err(fault),
    }
}

/// What words that ask for no part of the log ask of what is held.
fn read_held(alloc: Global, words: &str) -> Result<Inquiry, MessageFault>
    requires { (text : List ℕ) → words.now ≡ codes "log " ++ text → ⊥ }
    ensures { Reads (AskInquiry words.now) result }
{
    match read_words(alloc, words) {
        Ok(question) => Ok(Inquiry::Held(question)),
        Err(fault) => Err(fault),
    }
}

/// What words ask of a book. Unreadable exactly where they ask nothing.
fn read_inquiry(alloc: Global, words: &str) -> Result<Inquiry, MessageFault>
    ensures { Reads (AskInquiry words.now) result }
{
    match behind(words, "log ") {
        Some(text) => read_log(words, text),
        None => read_held(alloc, words),
    }
}

/// What a line that is a question asks. Unreadable exactly where it is none.
pub fn read_question(alloc: Global, line: &[u8]) -> Result<Inquiry, MessageFault>
    ensures { Reads (AsksInquiry line.now) result }
{
    let Some(text) = line.strip_prefix(b"? ") else {
        return Err(MessageFault::Bad);
    };
    let Ok(words) = str::from_utf8(text) else {
        return Err(MessageFault::Bad);
    };
    read_inquiry(alloc, words)
}
