//! What a book is asked.
ghost use Rattle.std.specs.Prelude.{◌≡◌, ℕ, IfOk, IsUtf8, List, MatchResult, Result, Some};
ghost use Rattle.request_book.specs.Call.{Load};
ghost use Rattle.request_book.specs.declared.book.Fault.{Fault};
ghost use Rattle.ring_book.specs.Book.{Delivers, Found, Made, holding};
ghost use Rattle.ring_book.specs.Reads.{IsReadAs, TellsHidden};
ghost use Rattle.ring_log.specs.Inquiries.{AsksText};
ghost use Rattle.ring_log.specs.Log.{entries_text};
ghost use Rattle.ring_log.specs.declared.text.LogForm.TheVariants as form;
ghost use Rattle.ring_reads.specs.Holding.{holding_of};
ghost use Rattle.ring_reads.specs.Reads.{IsText, Shows};

use crate::telling::{told_fault, told_hidden, told_of};
use builder::{RingMachine, Told};
use path_lookup::HashNames;
use request_book::{Book, Keeper};
use ring_log::{Inquiry, LogEntry, LogForm, entries_text};
use ring_messages::command_is_proper;
use ring_reads::{Held, Question, show};
use ring_words::{Command, Hour, Key};
use std::alloc::Global;

/// What a book tells of a request that is delivered at an hour.
pub fn deliver<K: Keeper<RingMachine>>(
    book: &mut Book<RingMachine, K>,
    hour: Hour,
    key: Key,
    command: Command,
) -> Told
    ensures { Delivers K.Keeper book.old book.new (record {
      hour = hour;
      key = key;
      command = command;
    }) result }
{
    command_is_proper(&command);
    told_of(book.deliver(hour, key, command))
}

/// What is shown of a question where this is held, or what is told where nothing is shown.
fn read_held(
    alloc: Global,
    names: HashNames<'_>,
    held: &Held<'_>,
    question: &Question,
) -> Result<Vec<u8>, Told>
    ensures told { MatchResult result (λ bytes. Shows names.entry.prefix.now names.entry.suffix.now
        (holding_of held.now) question.now bytes.items)
        (TellsHidden (holding_of held.now) question.now) }
    ensures text { IfOk result (λ bytes. IsText question.now → IsUtf8 bytes.items) }
{
    match show(alloc, names, held, question) {
        Ok(bytes) => Ok(bytes),
        Err(why) => Err(told_hidden(why)),
    }
}

/// What a book holds that was made ready to be read, and whose greatest hour is this, at the hour of
/// the clock.
fn held_in<K: Keeper<RingMachine>>(book: &Book<RingMachine, K>, hour: Hour, clock: Hour) -> Held<'_>
    requires loaded { K.is_loaded book.now.keeper }
    requires faults { K.fault_count book.now.keeper ≡ 0 }
    ensures { K.sound book.now.keeper → hour ≡ (K.content book.now.keeper).hour →
        holding_of result ≡ holding K.Keeper clock book.now.keeper }
{
    Held {
        rings: book.state(),
        hour,
        clock,
        kept: book.count(),
        limit: book.most(),
    }
}

/// What is shown of a question of all that a book holds, or what is told where there is nothing to
/// show, at the hour of the clock. Paths are hashed between names.
fn read_question<K: Keeper<RingMachine>>(
    alloc: Global,
    book: &mut Book<RingMachine, K>,
    clock: Hour,
    names: HashNames<'_>,
    question: &Question,
) -> Result<Vec<u8>, Told>
    ensures told { (answer : Result (Unit {0}) Fault)
        × Made K.Keeper book.old book.new (Some (Load answer))
        × IsReadAs (Found K.Keeper clock book.old book.new) names.entry.prefix.now
        names.entry.suffix.now (Inquiry.Held question.now) answer result (λ bytes. bytes.items) }
    ensures text { IfOk result (λ bytes. IsText question.now → IsUtf8 bytes.items) }
{
    match book.load() {
        Ok(hour) => read_held(alloc, names, &held_in(&*book, hour, clock), question),
        Err(fault) => Err(told_fault(fault)),
    }
}

/// A line of JSON for each of some entries, of which the first has this place, or that there is no
/// memory for them.
fn log_bytes(alloc: Global, from: u32, entries: &[LogEntry]) -> Result<Vec<u8>, Told>
    ensures told { MatchResult result (λ bytes. bytes.items ≡ entries_text form.Entries from
        entries.now)
        (λ t. t ≡ Told.NoMemory) }
    ensures text { IfOk result (λ bytes. IsUtf8 bytes.items) }
{
    match entries_text(alloc, LogForm::Entries, from, entries) {
        Ok(text) => Ok(text.into_bytes()),
        Err(_) => Err(Told::NoMemory),
    }
}

/// The entries of a book from a place on, at most so many, a line of JSON each, or what is told where
/// they are not shown.
fn read_log<K: Keeper<RingMachine>>(
    alloc: Global,
    book: &mut Book<RingMachine, K>,
    from: u32,
    most: u32,
) -> Result<Vec<u8>, Told>
    ensures told { (answer : Result (Unit {0}) Fault)
        × Made K.Keeper book.old book.new (Some (Load answer))
        × ((clock : ℕ) (prefix suffix : List ℕ) → IsReadAs (Found K.Keeper clock book.old book.new)
        prefix suffix (Inquiry.Log from most) answer result (λ bytes. bytes.items)) }
    ensures text { IfOk result (λ bytes. IsUtf8 bytes.items) }
{
    match book.entries(from, most) {
        Ok(entries) => log_bytes(alloc, from, &entries),
        Err(fault) => Err(told_fault(fault)),
    }
}

/// What is shown of what a book is asked, or what is told where there is nothing to show. The hour is
/// the clock's, 0 where none is looked at, or the greatest that the book has decided at, if that is
/// greater. Paths are hashed between names. It leads to one call of the book, which changes nothing
/// of what it holds.
pub fn read<K: Keeper<RingMachine>>(
    alloc: Global,
    book: &mut Book<RingMachine, K>,
    clock: Hour,
    names: HashNames<'_>,
    asked: &Inquiry,
) -> Result<Vec<u8>, Told>
    ensures told { (answer : Result (Unit {0}) Fault)
        × Made K.Keeper book.old book.new (Some (Load answer))
        × IsReadAs (Found K.Keeper clock book.old book.new) names.entry.prefix.now
        names.entry.suffix.now asked.now answer result (λ bytes. bytes.items) }
    // What is shown is text, unless it is a file of Swift's.
    ensures text { IfOk result (λ bytes. AsksText asked.now → IsUtf8 bytes.items) }
{
    match asked {
        Inquiry::Held(question) => read_question(alloc, book, clock, names, question),
        Inquiry::Log(from, most) => read_log(alloc, book, *from, *most),
    }
}
