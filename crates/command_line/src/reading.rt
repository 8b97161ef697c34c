//! The task that the words ask for.
ghost use Rattle.std.specs.Prelude.{◌≡◌, ◌≢◌, IfErr, IfOk, codes, false, map, option_map};
ghost use Rattle.std.specs.Prelude.{string_bytes, true};
ghost use Rattle.ring_words.specs.Limits.{greatest_long, greatest_short};
ghost use Rattle.clap.specs.Matches.{found_of};
ghost use Rattle.clap.specs.Values.{kind_of};
ghost use Rattle.clap.specs.Walk.{first_of, rows_of};
ghost use Rattle.clap.specs.declared.error.kind.ErrorKind.{ErrorKind};
ghost use Rattle.command_line.specs.Tasks.{AskFor, AskForNothing, HasTexts, HaveNames, IfBad};
ghost use Rattle.command_line.specs.Tasks.{HasText, is_flagged};
ghost use Rattle.command_line.specs.Inner.Reading.{AreHours, IsFormat, IsHourWord, IsNumberWord};
ghost use Rattle.command_line.specs.Inner.Reading.{IsPlace, IsPlain, IsTask, IsToShow};

use crate::commands::command;
use crate::forms::misfit;
use crate::help::ABOUT;
use crate::task::{ArgsFault, Shown, Task};
use clap::error::ErrorKind;
use clap::{ArgMatches, Error};
use path_lookup::HashNames;
use ring_reads::{Format, Plain};
use ring_words::{Hour, Port, read_bounded, read_number, read_number16};
use std::alloc::{AllocError, Global};
use std::fmt::Display;

/// The first text of an argument.
fn text_of<'a>(matches: &ArgMatches<'a>, name: &str) -> Option<&'a str>
    ensures { option_map (λ t. t.now) result ≡ first_of name.now (rows_of (found_of matches.now)) }
{
    matches.get_str(name)
}

/// The hour that the clock is to tell always, `None` where it is no hour.
fn hour_of(matches: &ArgMatches<'_>) -> Option<Option<Hour>>
    ensures { IsHourWord (rows_of (found_of matches.now)) result }
{
    match text_of(matches, "hour") {
        None => Some(None),
        Some(text) => match read_number(text, u32::MAX) {
            Ok(hour) => Some(Some(hour)),
            Err(_) => None,
        },
    }
}

/// The port that is to be served, `None` where it is none.
fn port_of(matches: &ArgMatches<'_>) -> Option<Port>
    ensures { IsNumberWord (rows_of (found_of matches.now)) (codes "PORT") 1 greatest_short result }
{
    match read_bounded(text_of(matches, "PORT")?) {
        Ok(port) => Some(port),
        Err(_) => None,
    }
}

/// How many connections are to be served, `None` where it is no number from 0 to 65535.
fn count_of(matches: &ArgMatches<'_>) -> Option<u16>
    ensures { IsNumberWord (rows_of (found_of matches.now)) (codes "COUNT") 0 greatest_short
        result }
{
    match read_number16(text_of(matches, "COUNT")?) {
        Ok(count) => Some(count),
        Err(_) => None,
    }
}

/// How a published ring is to be written, `None` where the word names no format.
fn format_of(matches: &ArgMatches<'_>) -> Option<Format>
    ensures { IsFormat (rows_of (found_of matches.now)) result }
{
    match text_of(matches, "format").unwrap_or("text") {
        "text" => Some(Format::Text),
        "swift" => Some(Format::Swift),
        _ => None,
    }
}

/// The texts of an argument that may be there several times.
fn texts_of<'a>(
    alloc: Global,
    matches: &ArgMatches<'a>,
    name: &str,
) -> Result<Vec<&'a str>, AllocError>
    ensures { IfOk result (λ texts. HasTexts (rows_of (found_of matches.now)) name.now texts.items) }
{
    match matches.get_strs(name) {
        Some(texts) => Vec::from_slice(alloc, texts),
        None => Ok(Vec::new(alloc)),
    }
}

/// Whether an argument without a text is there.
fn is_flagged(matches: &ArgMatches<'_>, name: &str) -> bool
    ensures { result ≡ is_flagged (rows_of (found_of matches.now)) name.now }
{
    text_of(matches, name).unwrap_or("") == "true"
}

/// What is hashed before and after each path.
fn names_of<'a>(matches: &ArgMatches<'a>) -> HashNames<'a>
    ensures { HaveNames (rows_of (found_of matches.now)) result }
{
    HashNames {
        prefix: text_of(matches, "prefix").unwrap_or("").as_bytes(),
        suffix: text_of(matches, "suffix").unwrap_or("").as_bytes(),
    }
}

fn run<'a>(matches: &ArgMatches<'a>) -> Option<Task<'a>>
    ensures { IsTask (codes "run") (rows_of (found_of matches.now)) result }
{
    Some(Task::Run {
        file: text_of(matches, "file"),
    })
}

fn serve<'a>(matches: &ArgMatches<'a>) -> Option<Task<'a>>
    ensures { IsTask (codes "serve") (rows_of (found_of matches.now)) result }
{
    Some(Task::Serve {
        file: text_of(matches, "FILE")?,
        port: port_of(matches)?,
        count: count_of(matches)?,
        hour: hour_of(matches)?,
        names: names_of(matches),
    })
}

/// The file and the port that are to be served, `None` where one of them isn't there.
fn place_of<'a>(matches: &ArgMatches<'a>) -> Option<(&'a str, Port)>
    ensures { IsPlace (rows_of (found_of matches.now)) result }
{
    Some((text_of(matches, "FILE")?, port_of(matches)?))
}

fn service<'a>(alloc: Global, matches: &ArgMatches<'a>) -> Result<Option<Task<'a>>, AllocError>
    ensures { IfOk result (IsTask (codes "service") (rows_of (found_of matches.now))) }
{
    let Some((file, port)) = place_of(matches) else {
        return Ok(None);
    };
    Ok(Some(Task::Service {
        file,
        port,
        hosts: texts_of(alloc, matches, "host")?,
        hour_ok: is_flagged(matches, "hour-ok"),
        names: names_of(matches),
    }))
}

fn looping<'a>(matches: &ArgMatches<'a>) -> Option<Task<'a>>
    ensures { IsTask (codes "loop") (rows_of (found_of matches.now)) result }
{
    Some(Task::Loop {
        file: text_of(matches, "FILE")?,
        input: text_of(matches, "INPUT")?,
        hour: hour_of(matches)?,
        names: names_of(matches),
    })
}

fn table<'a>(matches: &ArgMatches<'a>) -> Option<Task<'a>>
    ensures { IsTask (codes "table") (rows_of (found_of matches.now)) result }
{
    Some(Task::Table {
        file: text_of(matches, "FILE")?,
        ring: text_of(matches, "RING")?,
    })
}

/// What a word asks of a ring, the whole ring where there is no word; `None` where the word asks
/// nothing of one.
fn plain_of(matches: &ArgMatches<'_>) -> Option<Plain>
    ensures { IsPlain (rows_of (found_of matches.now)) result }
{
    Plain::of_word(text_of(matches, "WORD").unwrap_or("ring"))
}

/// What is to be shown of a ring, where neither the status nor the metrics are named: `None` where a
/// word asks nothing of one.
fn ring_of<'a>(matches: &ArgMatches<'a>, ring: &'a str) -> Option<Shown<'a>>
    requires ring { HasText (rows_of (found_of matches.now)) (codes "RING") ring }
    requires status { is_flagged (rows_of (found_of matches.now)) (codes "status") ≡ false }
    requires metrics { is_flagged (rows_of (found_of matches.now)) (codes "metrics") ≡ false }
    ensures { IsToShow (codes "show") (rows_of (found_of matches.now)) result }
{
    match plain_of(matches) {
        Some(what) => Some(Shown::Ring { ring, what }),
        None => None,
    }
}

/// What is to be shown where the metrics are named: `None` where a ring or the status is named too.
#[tactic(auto, using(crate::proofs::Tasks::shows_no_status, crate::proofs::Tasks::shows_no_ring))]
fn metrics_of<'a>(matches: &ArgMatches<'a>) -> Option<Shown<'a>>
    requires { is_flagged (rows_of (found_of matches.now)) (codes "metrics") ≡ true }
    ensures { IsToShow (codes "show") (rows_of (found_of matches.now)) result }
{
    let ring = text_of(matches, "RING");
    if is_flagged(matches, "status") {
        return None;
    }
    match ring {
        None => Some(Shown::Metrics),
        Some(_) => None,
    }
}

/// What is to be shown where the metrics aren't named: `None` where both a ring and the status are,
/// or where a word asks nothing of a ring.
#[tactic(auto, using(crate::proofs::Tasks::shows_nothing))]
fn json_of<'a>(matches: &ArgMatches<'a>) -> Option<Shown<'a>>
    requires { is_flagged (rows_of (found_of matches.now)) (codes "metrics") ≡ false }
    ensures { IsToShow (codes "show") (rows_of (found_of matches.now)) result }
{
    let ring = text_of(matches, "RING");
    if is_flagged(matches, "status") {
        match ring {
            None => Some(Shown::Status),
            Some(_) => None,
        }
    } else {
        match ring {
            None => Some(Shown::Rings),
            Some(ring) => ring_of(matches, ring),
        }
    }
}

/// What is to be shown, `None` where two of a ring, the status and the metrics are named, or a word
/// that asks nothing of a ring.
fn shown_of<'a>(matches: &ArgMatches<'a>) -> Option<Shown<'a>>
    ensures { IsToShow (codes "show") (rows_of (found_of matches.now)) result }
{
    if is_flagged(matches, "metrics") {
        metrics_of(matches)
    } else {
        json_of(matches)
    }
}

fn show<'a>(matches: &ArgMatches<'a>) -> Option<Task<'a>>
    ensures { IsTask (codes "show") (rows_of (found_of matches.now)) result }
{
    Some(Task::Show {
        file: text_of(matches, "FILE")?,
        what: shown_of(matches)?,
    })
}

/// The seed of a rebalance, `None` where it is no number from 0 to 4294967295.
fn seed_of(matches: &ArgMatches<'_>) -> Option<u32>
    ensures { IsNumberWord (rows_of (found_of matches.now)) (codes "seed") 0 greatest_long result }
{
    match read_number(text_of(matches, "seed")?, u32::MAX) {
        Ok(seed) => Some(seed),
        Err(_) => None,
    }
}

/// The preview that is to be shown, `None` where the seed or the hour is no number.
fn preview_of<'a>(matches: &ArgMatches<'a>) -> Option<Shown<'a>>
    ensures { IsToShow (codes "preview") (rows_of (found_of matches.now)) result }
{
    Some(Shown::Preview {
        ring: text_of(matches, "RING")?,
        seed: seed_of(matches)?,
        hour: hour_of(matches)?,
    })
}

fn preview<'a>(matches: &ArgMatches<'a>) -> Option<Task<'a>>
    ensures { IsTask (codes "preview") (rows_of (found_of matches.now)) result }
{
    Some(Task::Show {
        file: text_of(matches, "FILE")?,
        what: preview_of(matches)?,
    })
}

/// The moves that are to be shown.
fn moves_of<'a>(matches: &ArgMatches<'a>) -> Option<Shown<'a>>
    ensures { IsToShow (codes "moves") (rows_of (found_of matches.now)) result }
{
    Some(Shown::Moves {
        ring: text_of(matches, "RING")?,
        from: text_of(matches, "FROM")?,
        to: text_of(matches, "TO")?,
        each: is_flagged(matches, "each"),
    })
}

fn moves<'a>(matches: &ArgMatches<'a>) -> Option<Task<'a>>
    ensures { IsTask (codes "moves") (rows_of (found_of matches.now)) result }
{
    Some(Task::Show {
        file: text_of(matches, "FILE")?,
        what: moves_of(matches)?,
    })
}

fn log<'a>(matches: &ArgMatches<'a>) -> Option<Task<'a>>
    ensures { IsTask (codes "log") (rows_of (found_of matches.now)) result }
{
    Some(Task::Log {
        file: text_of(matches, "FILE")?,
        from: text_of(matches, "from"),
        lines: is_flagged(matches, "lines"),
    })
}

fn export<'a>(matches: &ArgMatches<'a>) -> Option<Task<'a>>
    ensures { IsTask (codes "export") (rows_of (found_of matches.now)) result }
{
    Some(Task::Export {
        file: text_of(matches, "FILE")?,
        ring: text_of(matches, "RING")?,
        version: text_of(matches, "VERSION")?,
        format: format_of(matches)?,
    })
}

fn renew<'a>(matches: &ArgMatches<'a>) -> Option<Task<'a>>
    ensures { IsTask (codes "renew") (rows_of (found_of matches.now)) result }
{
    Some(Task::Renew {
        file: text_of(matches, "FILE")?,
        new: text_of(matches, "NEW")?,
    })
}

fn nodes<'a>(matches: &ArgMatches<'a>) -> Option<Task<'a>>
    ensures { IsTask (codes "nodes") (rows_of (found_of matches.now)) result }
{
    Some(Task::Nodes {
        file: text_of(matches, "FILE")?,
        ring: text_of(matches, "RING")?,
        account: text_of(matches, "ACCOUNT")?,
        container: text_of(matches, "container"),
        object: text_of(matches, "object"),
        names: names_of(matches),
    })
}

fn import_rows<'a>(matches: &ArgMatches<'a>) -> Option<Task<'a>>
    ensures { IsTask (codes "import") (rows_of (found_of matches.now)) result }
{
    Some(Task::Import {
        file: text_of(matches, "FILE")?,
        ring: text_of(matches, "RING")?,
        caller: text_of(matches, "CALLER")?,
        number: text_of(matches, "NUMBER")?,
        csv: text_of(matches, "CSV")?,
        hour: hour_of(matches)?,
    })
}

/// For how many hours a moved partition stays, `None` where it is no number from 0 to 65535.
fn min_hours_of(matches: &ArgMatches<'_>) -> Option<u16>
    ensures { IsNumberWord (rows_of (found_of matches.now)) (codes "min-hours") 0 greatest_short
        result }
{
    match read_number16(text_of(matches, "min-hours")?) {
        Ok(hours) => Some(hours),
        Err(_) => None,
    }
}

/// For how many hours a moved partition stays, and the hour of founding, if that is given; `None`
/// where one of them is none.
fn hours_of(matches: &ArgMatches<'_>) -> Option<(u16, Option<Hour>)>
    ensures { AreHours (rows_of (found_of matches.now)) result }
{
    Some((min_hours_of(matches)?, hour_of(matches)?))
}

fn found<'a>(alloc: Global, matches: &ArgMatches<'a>) -> Result<Option<Task<'a>>, AllocError>
    ensures { IfOk result (IsTask (codes "found") (rows_of (found_of matches.now))) }
{
    let Some(new) = text_of(matches, "NEW") else {
        return Ok(None);
    };
    let Some((min_hours, hour)) = hours_of(matches) else {
        return Ok(None);
    };
    Ok(Some(Task::Found {
        new,
        texts: texts_of(alloc, matches, "TEXT")?,
        min_hours,
        hour,
        from: text_of(matches, "from"),
    }))
}

/// The task of a program of this name.
fn task_named<'a>(
    alloc: Global,
    name: &str,
    matches: &ArgMatches<'a>,
) -> Result<Option<Task<'a>>, AllocError>
    ensures { IfOk result (IsTask name.now (rows_of (found_of matches.now))) }
{
    if name == "service" {
        return service(alloc, matches);
    }
    if name == "found" {
        return found(alloc, matches);
    }
    Ok(task_alone(name, matches))
}

/// The task of a program of this name that needs no memory.
fn task_alone<'a>(name: &str, matches: &ArgMatches<'a>) -> Option<Task<'a>>
    requires service { name.now ≢ codes "service" }
    requires found { name.now ≢ codes "found" }
    ensures { IsTask name.now (rows_of (found_of matches.now)) result }
{
    match name {
        "run" => run(matches),
        "serve" => serve(matches),
        "loop" => looping(matches),
        "import" => import_rows(matches),
        "table" => table(matches),
        "show" => show(matches),
        "preview" => preview(matches),
        "moves" => moves(matches),
        "log" => log(matches),
        "nodes" => nodes(matches),
        "export" => export(matches),
        "renew" => renew(matches),
        "version" => Some(Task::Version),
        _ => None,
    }
}

/// What words that ask for nothing are told.
fn bad<T: Display>(alloc: Global, told: &T) -> ArgsFault {
    match format!(in alloc; "{told}") {
        Ok(text) => ArgsFault::Bad(text),
        Err(AllocError) => ArgsFault::NoMemory,
    }
}

/// What an error of `clap` is told as.
fn fault_of(alloc: Global, error: &Error) -> ArgsFault
    ensures { IfBad result (kind_of error.now ≡ ErrorKind.OutOfMemory → ⊥) }
{
    if error.kind() == ErrorKind::OutOfMemory {
        return ArgsFault::NoMemory;
    }
    bad(alloc, error)
}

/// What the words ask for. The first word is the program's own name. Bad exactly where they ask for
/// nothing.
pub fn task_of<'a>(alloc: Global, words: &'a [String]) -> Result<Task<'a>, ArgsFault>
    ensures task { IfOk result (AskFor (map string_bytes words.now)) }
    ensures nothing { IfErr result (λ fault. IfBad fault (AskForNothing
        (map string_bytes words.now))) }
{
    let command = command(alloc)?;
    let matches = match command.try_get_matches_from(words) {
        Ok(matches) => matches,
        Err(error) => return Err(fault_of(alloc, &error)),
    };
    let Some((name, given)) = matches.subcommand() else {
        return Err(bad(alloc, &ABOUT));
    };
    match task_named(alloc, name, given)? {
        Some(task) => Ok(task),
        None => Err(misfit(alloc, given)),
    }
}
