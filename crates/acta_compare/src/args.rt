//! The command line of `compare`.

use acta_args::{CommandLine, ModelName, UsageFault, flag, model_arg, model_named, with_arg};
use acta_programs::{MOST_POINTS, most_option};
use clap::{ArgMatches, Command};
use std::alloc::{AllocError, Global};

/// What is compared of two models.
#[derive(Clone, Copy, PartialEq, Eq, Debug)]
pub enum Compared {
    /// The answers to the event lines of the input.
    Answers,
    /// The ends of the programs of the input. For each model this many points may be searched.
    Ends(u32),
}

/// A parsed command line: it asks how two models differ on the standard input.
#[derive(Clone, Copy, PartialEq, Eq, Debug)]
pub struct Asked<'a> {
    pub compared: Compared,
    pub model: ModelName<'a>,
    pub other: ModelName<'a>,
}

// What is to be compared.
fn compared_by(matches: &ArgMatches<'_>) -> Compared {
    if matches.get_flag("explore") {
        Compared::Ends(matches.get_one::<u32>("most").unwrap_or(MOST_POINTS))
    } else {
        Compared::Answers
    }
}

// Converts the matches.
fn asked_by<'a>(matches: &ArgMatches<'a>) -> Result<Asked<'a>, UsageFault> {
    let model = model_named(matches.get_str("MODEL").unwrap_or("@"));
    let other = model_named(matches.get_str("MODEL2").unwrap_or("@"));
    match (model, other) {
        (Some(model), Some(other)) => Ok(Asked {
            compared: compared_by(matches),
            model,
            other,
        }),
        _ => Err(UsageFault::UnknownModel),
    }
}

/// The command line of `compare`.
pub struct CompareLine;

impl<'a> CommandLine<'a> for CompareLine {
    type Asked = Asked<'a>;

    fn surface(alloc: Global) -> Result<Command<'a>, AllocError> {
        let most = most_option(alloc).requires_arg("explore")?;
        let command = Command::new(alloc, "acta compare").about(
            "Finds where two models differ: the first event line of the standard input with different answers, both reasons, and the other lines that differ. With --explore, finds the ways in which programs can end on only one of the models",
        );
        let command = command.arg(model_arg(alloc).required(true));
        let command = with_arg(command, model_arg(alloc).id("MODEL2").required(true));
        let help =
            "Compares the ways in which the programs of the standard input can end, as `explore` finds them";
        let command = with_arg(command, flag(alloc, "explore", help));
        with_arg(command, most)
    }

    fn asked(
        _alloc: Global,
        _surface: &mut Command<'a>,
        matches: &ArgMatches<'a>,
    ) -> Result<Asked<'a>, UsageFault> {
        asked_by(matches)
    }
}
