//! The programs, for `clap`.
ghost use Rattle.std.specs.Prelude.{◌≡◌, IfOk, map, false};
ghost use Rattle.clap.specs.Simple.{app_of, new_app, shape_of, with_rule, with_subcommand};
ghost use Rattle.clap.specs.Walk.{rule_of};
ghost use Rattle.clap.specs.declared.builder.command.Command.TheViews.{out-Command};
ghost use Rattle.command_line.specs.Shapes.{programs};
ghost use Rattle.command_line.specs.Inner.Adding.{rule_told, shape_told, with_rules, with_shapes};

use self::Argument::{Flag, Named, Needed, Optional, Possible, Repeated, Several};
use crate::help::{ABOUT, told_of, told_of_argument};
use clap::{Arg, ArgAction, Command};
use std::alloc::{AllocError, Global};

/// An argument, by its name.
#[derive(Clone, Copy)]
enum Argument<'a> {
    /// It has to be there, in its place.
    Needed(&'a str),
    /// It has to be there, behind all others that stand in their places, and may be there several
    /// times.
    Several(&'a str),
    /// It may be there, in its place, behind all others that stand in theirs.
    Possible(&'a str),
    /// It may be there, as `--name TEXT`.
    Optional(&'a str),
    /// It has to be there, as `--name TEXT`.
    Named(&'a str),
    /// It may be there several times, each as `--name TEXT`.
    Repeated(&'a str),
    /// It may be there, as `--name`.
    Flag(&'a str),
}

/// A program: what it is called, what is told of it, and its arguments.
#[derive(Clone, Copy)]
struct Program<'a> {
    name: &'a str,
    about: &'a str,
    /// Those that stand in their places stand in the order of these.
    arguments: &'a [Argument<'a>],
}

const PROGRAMS: &[Program<'static>] = &[
    Program {
        name: "run",
        about: "Answers numbered requests, one line each",
        arguments: &[Optional("file")],
    },
    Program {
        name: "serve",
        about: "Serves HTTP on a port of this machine",
        arguments: &[
            Needed("FILE"),
            Needed("PORT"),
            Needed("COUNT"),
            Optional("hour"),
            Optional("prefix"),
            Optional("suffix"),
        ],
    },
    Program {
        name: "service",
        about: "Serves HTTP on a port of this machine until it is stopped, to programs alone",
        arguments: &[
            Needed("FILE"),
            Needed("PORT"),
            Repeated("host"),
            Flag("hour-ok"),
            Optional("prefix"),
            Optional("suffix"),
        ],
    },
    Program {
        name: "loop",
        about: "Answers the bytes of a file as those of one connection of HTTP",
        arguments: &[
            Needed("FILE"),
            Needed("INPUT"),
            Optional("hour"),
            Optional("prefix"),
            Optional("suffix"),
        ],
    },
    Program {
        name: "import",
        about: "Imports devices from a CSV file, under a caller's number",
        arguments: &[
            Needed("FILE"),
            Needed("RING"),
            Needed("CALLER"),
            Needed("NUMBER"),
            Needed("CSV"),
            Optional("hour"),
        ],
    },
    Program {
        name: "table",
        about: "Shows the devices and the balance of a ring",
        arguments: &[Needed("FILE"), Needed("RING")],
    },
    Program {
        name: "show",
        about: "Shows which rings there are, what a word asks of one, how much is kept, or metrics",
        arguments: &[
            Needed("FILE"),
            Possible("RING"),
            Possible("WORD"),
            Flag("status"),
            Flag("metrics"),
        ],
    },
    Program {
        name: "preview",
        about: "Shows what a rebalance of a ring would do, as JSON",
        arguments: &[
            Needed("FILE"),
            Needed("RING"),
            Named("seed"),
            Optional("hour"),
        ],
    },
    Program {
        name: "moves",
        about: "Shows what moved between two published versions of a ring",
        arguments: &[
            Needed("FILE"),
            Needed("RING"),
            Needed("FROM"),
            Needed("TO"),
            Flag("each"),
        ],
    },
    Program {
        name: "log",
        about: "Writes which requests were decided, with their replies, a line each",
        arguments: &[Needed("FILE"), Optional("from"), Flag("lines")],
    },
    Program {
        name: "nodes",
        about: "Shows the devices that hold a path",
        arguments: &[
            Needed("FILE"),
            Needed("RING"),
            Needed("ACCOUNT"),
            Optional("container"),
            Optional("object"),
            Optional("prefix"),
            Optional("suffix"),
        ],
    },
    Program {
        name: "export",
        about: "Writes a ring as it was published",
        arguments: &[
            Needed("FILE"),
            Needed("RING"),
            Needed("VERSION"),
            Optional("format"),
        ],
    },
    Program {
        name: "renew",
        about: "Makes a new file with the rings of one that is full of numbers",
        arguments: &[Needed("FILE"), Needed("NEW")],
    },
    Program {
        name: "found",
        about: "Makes a new file with rings that hold data, as they stand",
        arguments: &[
            Needed("NEW"),
            Several("TEXT"),
            Named("min-hours"),
            Optional("hour"),
            Optional("from"),
        ],
    },
    Program {
        name: "version",
        about: "Tells the version, which files it opens, and what proved it",
        arguments: &[],
    },
];

/// The name of an argument.
fn name_of<'a>(argument: &Argument<'a>) -> &'a str {
    match *argument {
        Needed(name)
        | Several(name)
        | Possible(name)
        | Optional(name)
        | Named(name)
        | Repeated(name)
        | Flag(name) => name,
    }
}

/// An argument, for `clap`.
fn arg_of<'a>(alloc: Global, argument: &Argument<'a>) -> Arg<'a>
    ensures rule { rule_of result ≡ rule_told argument.now }
    ensures local { result.global ≡ false }
{
    match *argument {
        Needed(name) => Arg::new(alloc, name).required(true),
        Several(name) => Arg::new(alloc, name)
            .required(true)
            .action(ArgAction::Append),
        Possible(name) => Arg::new(alloc, name),
        Optional(name) => Arg::new(alloc, name).long(name),
        Named(name) => Arg::new(alloc, name).long(name).required(true),
        Repeated(name) => Arg::new(alloc, name).long(name).action(ArgAction::Append),
        Flag(name) => Arg::new(alloc, name).long(name).action(ArgAction::SetTrue),
    }
}

/// An argument with what the help of its program tells of it, for `clap`.
fn told_arg<'a>(alloc: Global, program: &str, argument: &Argument<'a>) -> Arg<'a>
    ensures rule { rule_of result ≡ rule_told argument.now }
    ensures local { result.global ≡ false }
{
    arg_of(alloc, argument).help(told_of_argument(program, name_of(argument)))
}

/// The command with one argument more.
fn with_arg<'a>(command: Command<'a>, arg: Arg<'a>) -> Result<Command<'a>, AllocError>
    requires local { arg.global ≡ false }
    requires alone { (out-Command command).has_globals ≡ false }
    ensures app { IfOk result (λ c. app_of c ≡ with_rule (app_of command.entry) (rule_of arg.entry)) }
    ensures alone { IfOk result (λ c. (out-Command c).has_globals ≡ false) }
{
    command.arg(arg)
}

/// The command with these arguments.
fn with_arguments<'a>(
    alloc: Global,
    mut command: Command<'a>,
    program: &str,
    arguments: &[Argument<'a>],
) -> Result<Command<'a>, AllocError>
    requires { (out-Command command).has_globals ≡ false }
    ensures app { IfOk result (λ c. app_of c
        ≡ with_rules (app_of command.entry) (map rule_told arguments.now)) }
    ensures alone { IfOk result (λ c. (out-Command c).has_globals ≡ false) }
{
    for argument in arguments {
        command = with_arg(command, told_arg(alloc, program, argument))?;
    }
    Ok(command)
}

/// A program's command, as yet without arguments.
fn bare<'a>(alloc: Global, program: &Program<'a>) -> Command<'a>
    ensures app { app_of result ≡ new_app program.now.name.now }
    ensures alone { (out-Command result).has_globals ≡ false }
{
    let command = Command::new(alloc, program.name).about(program.about);
    match told_of(program.name) {
        Some(told) => command.long_about(told),
        None => command,
    }
}

/// A program's command.
fn command_of<'a>(alloc: Global, program: &Program<'a>) -> Result<Command<'a>, AllocError>
    ensures shape { IfOk result (λ c. shape_of c ≡ shape_told program.now) }
    ensures alone { IfOk result (λ c. (out-Command c).has_globals ≡ false) }
{
    with_arguments(alloc, bare(alloc, program), program.name, program.arguments)
}

/// The command with one program more.
fn with_program<'a>(
    alloc: Global,
    command: Command<'a>,
    program: &Program<'a>,
) -> Result<Command<'a>, AllocError>
    ensures { IfOk result (λ c. app_of c
        ≡ with_subcommand (app_of command.entry) (shape_told program.now)) }
{
    command.subcommand(command_of(alloc, program)?)
}

/// The command with these programs.
fn with_programs<'a>(
    alloc: Global,
    mut command: Command<'a>,
    programs: &[Program<'a>],
) -> Result<Command<'a>, AllocError>
    ensures { IfOk result (λ c. app_of c
        ≡ with_shapes (app_of command.entry) (map shape_told programs.now)) }
{
    for program in programs {
        command = with_program(alloc, command, program)?;
    }
    Ok(command)
}

/// The programs.
pub(crate) fn command<'a>(alloc: Global) -> Result<Command<'a>, AllocError>
    ensures { IfOk result (λ command. app_of command ≡ programs) }
{
    let command = Command::new(alloc, "ringd")
        .about("Keeps the rings of an object store")
        .long_about(ABOUT)
        .subcommand_required(true);
    with_programs(alloc, command, PROGRAMS)
}
