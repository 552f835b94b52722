//! The command line of `explore`.

use acta_args::{
    CommandLine, ModelName, UsageFault, flag, model_arg, model_named, option, with_arg,
};
use clap::builder::ValueParser;
use clap::{Arg, ArgMatches, Command};
use std::alloc::{AllocError, Global};

/// The form of the output.
#[derive(Clone, Copy, PartialEq, Eq, Debug)]
pub enum Form {
    /// Words for a reader.
    Words,
    /// Lines for another program.
    Lines,
    /// Only the events of the first order of the end with this number, from 1.
    Events(u32),
}

/// A parsed command line: it asks for the ends of the programs of the standard input on a model.
#[derive(Clone, Copy, PartialEq, Eq, Debug)]
pub struct Asked<'a> {
    pub form: Form,
    /// Only the ends for which this condition holds.
    pub condition: Option<&'a str>,
    /// How many points may be searched.
    pub most: u32,
    pub model: ModelName<'a>,
}

/// How many points may be searched by default.
pub const MOST_POINTS: u32 = 1_000_000;

const CONDITIONS: &str =
    "A CONDITION is a list of tests with `and` between them, each with an optional `not` before it:
  complete | stuck | owing   all programs are done and nothing is owed; a seat waits; something is owed
  T STATUS                   transaction T is inprogress, committed, aborted or joined
  OBJECT = VALUE             the object has this value: a number, or a set as {1,4}
  LINE = RETURN              the operation of this line of the input returned a number, done, yes or no";

// An option that takes a positive number.
fn number<'a>(alloc: Global, id: &'a str, value: &'a str, help: &'a str) -> Arg<'a> {
    let numbers = ValueParser::Unsigned(1, u64::from(u32::MAX));
    option(alloc, id, value, help).value_parser(numbers)
}

/// The option that bounds a search.
pub fn most_option<'a>(alloc: Global) -> Arg<'a> {
    let help = "Gives up if more than N points must be searched";
    number(alloc, "most", "N", help).default_value("1000000")
}

// The form of the output that the matches name.
fn form_asked(matches: &ArgMatches<'_>) -> Form {
    match matches.get_one::<u32>("end") {
        Some(number) => Form::Events(number),
        None if matches.get_flag("lines") => Form::Lines,
        None => Form::Words,
    }
}

// Converts the matches.
fn asked_by<'a>(matches: &ArgMatches<'a>) -> Result<Asked<'a>, UsageFault> {
    match model_named(matches.get_str("MODEL").unwrap_or("@")) {
        Some(model) => Ok(Asked {
            form: form_asked(matches),
            condition: matches.get_str("where"),
            most: matches.get_one::<u32>("most").unwrap_or(MOST_POINTS),
            model,
        }),
        None => Err(UsageFault::UnknownModel),
    }
}

/// The command line of `explore`.
pub struct ExploreLine;

impl<'a> CommandLine<'a> for ExploreLine {
    type Asked = Asked<'a>;

    fn surface(alloc: Global) -> Result<Command<'a>, AllocError> {
        let help = "Writes only the events of the first order that leads to end K";
        let end = number(alloc, "end", "K", help)
            .conflicts_with("lines")?
            .conflicts_with("where")?;
        let command = Command::new(alloc, "acta explore")
            .about(
                "Finds every way in which the programs of the standard input can end on MODEL, whatever the order of their steps. Each line is SEAT EVENT [| EVENT]..: a seat does its lines in order, and of each line one of the alternatives",
            )
            .after_help(CONDITIONS);
        let command = command.arg(model_arg(alloc).required(true));
        let help = "Writes the ends as lines, for another program";
        let command = with_arg(command, flag(alloc, "lines", help));
        let command = with_arg(command, end);
        let help = "Keeps only the ends for which the condition holds";
        let command = with_arg(command, option(alloc, "where", "CONDITION", help));
        with_arg(command, most_option(alloc))
    }

    fn asked(
        _alloc: Global,
        _surface: &mut Command<'a>,
        matches: &ArgMatches<'a>,
    ) -> Result<Asked<'a>, UsageFault> {
        asked_by(matches)
    }
}
