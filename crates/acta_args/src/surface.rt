//! The parts from which command lines are built, and how one is read.

use crate::fault::UsageFault;
use clap::error::ErrorKind;
use clap::{Arg, ArgAction, ArgMatches, Command};
use std::alloc::{AllocError, Global};

/// The command line of a command.
pub trait CommandLine<'a> {
    /// The parsed arguments.
    type Asked: Drop;

    /// The arguments and options that it has.
    fn surface(alloc: Global) -> Result<Command<'a>, AllocError>;

    /// Converts the matches. A fault says what is wrong with them.
    fn asked(
        alloc: Global,
        surface: &mut Command<'a>,
        matches: &ArgMatches<'a>,
    ) -> Result<Self::Asked, UsageFault>;
}

/// A command line with one more argument, unless memory has run out.
pub fn with_arg<'a>(
    command: Result<Command<'a>, AllocError>,
    arg: Arg<'a>,
) -> Result<Command<'a>, AllocError> {
    match command {
        Ok(command) => command.arg(arg),
        Err(e) => {
            drop(arg);
            Err(e)
        }
    }
}

/// An option of a command line.
pub fn option<'a>(alloc: Global, id: &'a str, value: &'a str, help: &'a str) -> Arg<'a> {
    Arg::new(alloc, id)
        .long(id)
        .value_name(value)
        .action(ArgAction::Set)
        .help(help)
}

/// A flag of a command line.
pub fn flag<'a>(alloc: Global, id: &'a str, help: &'a str) -> Arg<'a> {
    Arg::new(alloc, id)
        .long(id)
        .action(ArgAction::SetTrue)
        .help(help)
}

/// The model that a command line names.
pub fn model_arg<'a>(alloc: Global) -> Arg<'a> {
    Arg::new(alloc, "MODEL").action(ArgAction::Set).help(
        "A file with the model's text or image, or one of @atomic, @nested, @split_join, @recoverable, @contingent",
    )
}

/// A fault of the command line.
pub fn usage(surface: &mut Command<'_>, kind: ErrorKind, text: &str) -> UsageFault {
    match surface.error(kind, text) {
        Ok(error) => UsageFault::Usage(error),
        Err(e) => UsageFault::Memory(e),
    }
}

/// The last part of the program's path, which is the first of the words.
pub fn program_name(words: &[String]) -> &str {
    match words.first() {
        Some(path) => path.as_str().rsplit('/').next().unwrap_or("acta"),
        None => "acta",
    }
}

// The name of the command in usage texts: the last part of the program's path, and the command.
fn called(alloc: Global, words: &[String]) -> Result<String, AllocError> {
    let program = program_name(words);
    let command = match words.get(1) {
        Some(command) => command.as_str(),
        None => "",
    };
    format!(in alloc; "{program} {command}")
}

// The matches of `clap` for the words.
fn matched<'a>(
    surface: &mut Command<'a>,
    words: &'a [String],
) -> Result<ArgMatches<'a>, UsageFault> {
    match surface.try_get_matches_from_mut(words) {
        Ok(matches) => Ok(matches),
        Err(e) => match e.kind() {
            ErrorKind::OutOfMemory => Err(UsageFault::Memory(AllocError)),
            _ => Err(UsageFault::Usage(e)),
        },
    }
}

// Parses the words after the command's name.
fn asked_on<'a, L: CommandLine<'a>>(
    alloc: Global,
    mut surface: Command<'a>,
    words: &'a [String],
) -> Result<L::Asked, UsageFault> {
    let asked = match matched(&mut surface, words) {
        Ok(matches) => L::asked(alloc, &mut surface, &matches),
        Err(fault) => Err(fault),
    };
    drop(surface);
    asked
}

// The command line of a command, with this name.
fn surface_named<'a, L: CommandLine<'a>>(
    alloc: Global,
    name: &str,
) -> Result<Command<'a>, AllocError> {
    let surface = L::surface(alloc)?;
    surface.no_binary_name(true).bin_name(name)
}

/// Parses a command line; the first word is the program's name and the second the command's. Returns `Usage` with the text
/// of `clap` if the words are not such a command line or ask for help; `UnknownModel` if no standard model has the name
/// after an `@`; `Memory` if memory runs out.
pub fn parse<'a, L: CommandLine<'a>>(
    alloc: Global,
    words: &'a [String],
) -> Result<L::Asked, UsageFault> {
    let name = called(alloc, words)?;
    match surface_named::<L>(alloc, name.as_str()) {
        Ok(surface) => asked_on::<L>(alloc, surface, words.get(2..).unwrap_or(&[])),
        Err(e) => Err(UsageFault::Memory(e)),
    }
}
