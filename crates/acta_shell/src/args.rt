//! The command line of `shell`.

use acta_args::{CommandLine, ModelName, UsageFault, model_arg, model_named};
use clap::{ArgMatches, Command};
use std::alloc::{AllocError, Global};

/// A parsed command line: it asks for a session on a model.
#[derive(Clone, Copy, PartialEq, Eq, Debug)]
pub struct Asked<'a> {
    pub model: ModelName<'a>,
}

// Converts the matches.
fn asked_by<'a>(matches: &ArgMatches<'a>) -> Result<Asked<'a>, UsageFault> {
    match model_named(matches.get_str("MODEL").unwrap_or("@")) {
        Some(model) => Ok(Asked { model }),
        None => Err(UsageFault::UnknownModel),
    }
}

/// The command line of `shell`.
pub struct ShellLine;

impl<'a> CommandLine<'a> for ShellLine {
    type Asked = Asked<'a>;

    fn surface(alloc: Global) -> Result<Command<'a>, AllocError> {
        let command = Command::new(alloc, "acta shell").about(
            "Answers each line of the standard input at once, in words: an event on MODEL, the question whether an event would be admitted, or a command. The line `help` lists the commands. On a terminal, a prompt shows where to type; the line `quit` or Ctrl-D ends the session",
        );
        command.arg(model_arg(alloc).required(true))
    }

    fn asked(
        _alloc: Global,
        _surface: &mut Command<'a>,
        matches: &ArgMatches<'a>,
    ) -> Result<Asked<'a>, UsageFault> {
        asked_by(matches)
    }
}
