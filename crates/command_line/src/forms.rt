//! What is told of an argument that is not of its form.
use crate::task::ArgsFault;
use clap::ArgMatches;
use ring_reads::Plain;
use ring_words::{Port, read_bounded, read_number, read_number16};
use std::alloc::{AllocError, Global};

/// The arguments that have a form: the name of each, how it is written, and what it may be.
static FORMS: [(&str, &str, &str); 7] = [
    (
        "PORT",
        "PORT",
        "a whole number from 1 to 65535, in digits without leading zeros",
    ),
    (
        "COUNT",
        "COUNT",
        "a whole number from 0 to 65535, in digits without leading zeros",
    ),
    (
        "hour",
        "--hour",
        "a whole number of hours since 1970, 0 to 4294967295, in digits without leading zeros",
    ),
    (
        "seed",
        "--seed",
        "a whole number from 0 to 4294967295, in digits without leading zeros",
    ),
    (
        "min-hours",
        "--min-hours",
        "a whole number from 0 to 65535, in digits without leading zeros",
    ),
    ("format", "--format", "text or swift"),
    ("WORD", "WORD", "devices, balance, ring or locks"),
];

/// What is told where each argument is of its form.
static TOGETHER: &str = "error: only one of RING, --status and --metrics may be given

For more information, try '--help'.
";

/// Whether the text of an argument is of its form.
fn is_of_form(name: &str, text: &str) -> bool {
    match name {
        "PORT" => {
            let port: Result<Port, _> = read_bounded(text);
            port.is_ok()
        }
        "COUNT" | "min-hours" => read_number16(text).is_ok(),
        "hour" | "seed" => read_number(text, u32::MAX).is_ok(),
        "format" => text == "text" || text == "swift",
        _ => Plain::of_word(text).is_some(),
    }
}

/// What words are told whose program can't have these arguments: which one is not of its form, and
/// what its form is; or that two are there of which only one may be.
fn told_of(alloc: Global, matches: &ArgMatches<'_>) -> Result<String, AllocError> {
    for (name, written, form) in &FORMS {
        let Some(text) = matches.get_str(name) else {
            continue;
        };
        if !is_of_form(name, text) {
            return format!(in alloc;
                "error: '{text}' is not of the form of {written}, which is {form}\n\nFor more information, try '--help'.\n"
            );
        }
    }
    String::from_str(alloc, TOGETHER)
}

/// The same as a fault.
pub(crate) fn misfit(alloc: Global, matches: &ArgMatches<'_>) -> ArgsFault {
    match told_of(alloc, matches) {
        Ok(text) => ArgsFault::Bad(text),
        Err(AllocError) => ArgsFault::NoMemory,
    }
}
