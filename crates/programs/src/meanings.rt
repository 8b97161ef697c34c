//! What faults mean to the one who reads them, and what to look at.
ghost use Rattle.std.specs.Prelude.{◌≡◌, option_map};
ghost use Rattle.programs.specs.Faults.{GetsTexts};
ghost use Rattle.programs.specs.Meanings.{fault_meaning, file_told, input_named, meaning_for};
ghost use Rattle.programs.specs.Meanings.{meaning_parts, meaning_texts, named_of_two, store_named};
ghost use Rattle.programs.specs.Meanings.{text_named};

use crate::faults::tell_text;
use byte_streams::CountedWriter;
use command_line::Task;
use program_stores::ProgramFault;
use std::io::Write;

const NO_RING: &str =
    "it has no ring of this name: look at the spelling of both, since a FILE that is missing is made, without rings\n";

const RING_EXISTS: &str =
    "two rings have one name: give one of them another, in the second line of its text\n";

const TOO_MANY_RINGS: &str =
    "a file holds 16 rings at most: found some of them in a file of their own\n";

const TOO_FEW_DEVICES: &str =
    "fewer of the ring's devices take seats than a partition has replicas: add devices, or give some a weight above 0\n";

const NOT_ASSIGNED: &str =
    "the ring was never rebalanced, so no device holds any of it: rebalance it first\n";

const UNREADABLE: &str =
    "a name or a number is not of its form: names of rings and callers are 1 to 32 of a to z, 0 to 9 and -, a letter first; numbers are 0 to 4294967295, without leading zeros\n";

const NO_MEMORY: &str =
    "there was not enough memory: look at the limits of the unit or the shell, and try again\n";

const STORE_FAULT: &str =
    "another program has it, or it can't be opened, read or written: look who has it (fuser), whether it is a plain file of one name in a folder that is there, at the rights of both, and whether the disk is full\n";

const NEW_STORE_FAULT: &str =
    "a NEW that is there already is not written over; or another program has it, or it can't be opened, read or written: look who has it (fuser), whether it is a plain file of one name in a folder that is there, at the rights of both, and whether the disk is full\n";

const BAD_STORE: &str =
    "it is no store of ringd, one of a later version, or damaged: look at its name and at 'ringd version' before you put a backup in its place\n";

const NO_FILE: &str = "it can't be opened: look at its name and its rights\n";

const NET_FAILED: &str =
    "the port can't be had: look who has it (ss -ltnp); where it was served already, no more connections can be had: start again\n";

const TOO_LONG: &str =
    "it is too long: a CSV table may have 65536 bytes, an INPUT 32768, and the text of a ring 1048576\n";

const BAD_PATH: &str =
    "this is no path: an account and a container are 1 to 256 bytes without a slash, and an object is 1 to 1024 bytes and in a container\n";

const BAD_TEXT: &str =
    "a TEXT is not the text of a ring: the line before the fault says which TEXT, and its first line that is wrong\n";

const NO_VERSION: &str =
    "the ring was not published under this version: the reply to publish names it\n";

const CLOCK_AHEAD: &str =
    "look at this machine's clock; where it is right, start once with --hour-ok\n";

const READ_FAILED: &str = "it could not be read to its end: look at the file or the pipe\n";

const WRITE_FAILED: &str =
    "the output could not be written: its reader is gone, or the disk is full; what was decided stays decided\n";

/// What a fault means and what to look at.
fn meaning_of(fault: ProgramFault) -> &'static str
    ensures { result.now ≡ fault_meaning fault }
{
    match fault {
        ProgramFault::NoRing => NO_RING,
        ProgramFault::RingExists => RING_EXISTS,
        ProgramFault::TooManyRings => TOO_MANY_RINGS,
        ProgramFault::TooFewDevices => TOO_FEW_DEVICES,
        ProgramFault::NotAssigned => NOT_ASSIGNED,
        ProgramFault::Unreadable => UNREADABLE,
        ProgramFault::NoMemory => NO_MEMORY,
        ProgramFault::StoreFault => STORE_FAULT,
        ProgramFault::BadStore => BAD_STORE,
        ProgramFault::NoFile => NO_FILE,
        ProgramFault::NetFailed => NET_FAILED,
        ProgramFault::TooLong => TOO_LONG,
        ProgramFault::BadPath => BAD_PATH,
        ProgramFault::BadText => BAD_TEXT,
        ProgramFault::NoVersion => NO_VERSION,
        ProgramFault::ClockAhead => CLOCK_AHEAD,
        ProgramFault::ReadFailed => READ_FAILED,
        ProgramFault::WriteFailed => WRITE_FAILED,
    }
}

/// What a fault of a task means: where it is to make a new store, that store may be there already.
fn meaning_for(task: &Task<'_>, fault: ProgramFault) -> &'static str
    ensures { result.now ≡ meaning_for task.now fault }
{
    match (task, fault) {
        (Task::Renew { .. }, ProgramFault::StoreFault) => NEW_STORE_FAULT,
        (Task::Found { .. }, ProgramFault::StoreFault) => NEW_STORE_FAULT,
        (_, _) => meaning_of(fault),
    }
}

/// The file of a new store and, if there is one, that of an old one, as the words name them. Only an
/// old one is bad.
fn of_two<'a>(new: &'a str, old: Option<&'a str>, fault: ProgramFault) -> &'a str
    ensures { result.now ≡ named_of_two new.now (option_map (λ file. file.now) old.entry) fault }
{
    match (old, fault) {
        (None, _) => new,
        (Some(file), ProgramFault::BadStore) => file,
        (Some(_), _) => "FILE or NEW",
    }
}

/// The file of a task's store, as its words name it.
fn store_named<'a>(task: &Task<'a>, fault: ProgramFault) -> &'a str
    ensures { result.now ≡ store_named task.now fault }
{
    match task {
        Task::Serve { file, .. }
        | Task::Service { file, .. }
        | Task::Loop { file, .. }
        | Task::Import { file, .. }
        | Task::Table { file, .. }
        | Task::Show { file, .. }
        | Task::Log { file, .. }
        | Task::Nodes { file, .. }
        | Task::Export { file, .. } => *file,
        Task::Run { file: Some(file) } => *file,
        Task::Run { file: None } => "memory",
        Task::Renew { file, new } => of_two(*new, Some(*file), fault),
        Task::Found { new, from, .. } => of_two(*new, *from, fault),
        Task::Version => "",
    }
}

/// The file of a text that a founding reads: of several any may be meant. What is not there may be
/// the store that is given, too.
fn text_named<'a>(texts: &[&'a str], from: Option<&'a str>, fault: ProgramFault) -> &'a str
    ensures { result.now ≡ text_named texts.now (option_map (λ file. file.now) from.entry) fault }
{
    match (from, fault) {
        (Some(_), ProgramFault::NoFile) => "TEXT or FILE",
        _ => match texts {
            [text] => *text,
            _ => "TEXT",
        },
    }
}

/// The file that a task reads besides, as its words name it.
fn input_named<'a>(task: &Task<'a>, fault: ProgramFault) -> &'a str
    ensures { result.now ≡ input_named task.now fault }
{
    match task {
        Task::Loop { input, .. } => *input,
        Task::Import { csv, .. } => *csv,
        Task::Found { texts, from, .. } => text_named(texts.as_slice(), *from, fault),
        _ => "standard input",
    }
}

/// The file of which a fault tells, if it tells of one.
fn file_told<'a>(task: &Task<'a>, fault: ProgramFault) -> Option<&'a str>
    ensures { option_map (λ file. file.now) result ≡ file_told task.now fault }
{
    match fault {
        ProgramFault::NoRing
        | ProgramFault::TooFewDevices
        | ProgramFault::NotAssigned
        | ProgramFault::NoVersion
        | ProgramFault::StoreFault
        | ProgramFault::BadStore => Some(store_named(task, fault)),
        ProgramFault::NoFile | ProgramFault::TooLong | ProgramFault::ReadFailed => {
            Some(input_named(task, fault))
        }
        _ => None,
    }
}

/// Tells a line of a file, if of one, and of what a fault means.
fn tell_line<E: Write>(errors: &mut CountedWriter<E>, file: Option<&str>, meaning: &str)
    ensures { GetsTexts E.contents errors.old errors.new (meaning_parts (option_map
        (λ file. file.now) file.entry) meaning.now) }
{
    match file {
        Some(file) => {
            tell_text(errors, "ringd: ");
            tell_text(errors, file);
            tell_text(errors, ": ");
            tell_text(errors, meaning);
        }
        None => {
            tell_text(errors, "ringd: ");
            tell_text(errors, meaning);
        }
    }
}

/// Tells in one line of which file a fault tells, if of one, and what it means.
pub(crate) fn tell_meaning<E: Write>(
    errors: &mut CountedWriter<E>,
    task: &Task<'_>,
    fault: ProgramFault,
)
    ensures { GetsTexts E.contents errors.old errors.new (meaning_texts task.now fault) }
{
    tell_line(errors, file_told(task, fault), meaning_for(task, fault));
}
