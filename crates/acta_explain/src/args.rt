//! The command line of `explain`.

use crate::tables::{CODES, MOST_ENTRIES, Table, put_meant};
use acta_args::{
    CommandLine, ModelName, UsageFault, flag, model_arg, model_named, nearest, option, usage,
    with_arg,
};
use acta_io::LineKind;
use acta_prose::{Prose, put};
use clap::error::ErrorKind;
use clap::{ArgAction, ArgMatches, Command};
use std::alloc::{AllocError, Global};

/// What to explain.
#[derive(Drop)]
pub enum Asked<'a> {
    /// The lines of the standard input, of this kind, on a model.
    Lines(LineKind, ModelName<'a>),
    /// No model; this text is the answer.
    Words(String),
}

// The text that no entry of the tables has this number or name, with the name that was perhaps meant.
fn unknown(alloc: Global, tables: &[Table], word: &str) -> Result<String, AllocError> {
    let mut names = Vec::new(alloc);
    for table in tables {
        for place in 0..MOST_ENTRIES {
            if let Some(entry) = table.entry(place) {
                names.push(entry.name)?;
            }
        }
    }
    let title = match tables {
        [one] => one.title(),
        _ => "code",
    };
    let prose = put!(Prose::new(alloc); "no ", title, " has the number or the name ",
        format_args!("{word:?}"));
    match nearest(alloc, word.as_bytes(), &names)? {
        Some(meant) => put!(prose; ": did you mean ", format_args!("{meant:?}?")).done(),
        None => prose.done(),
    }
}

// The entries of the tables for each of the words.
fn words_asked<'a>(
    alloc: Global,
    surface: &mut Command<'_>,
    tables: &[Table],
    words: &[&str],
) -> Result<Asked<'a>, UsageFault> {
    let mut prose = Prose::new(alloc);
    for word in words {
        let mut found = Prose::new(alloc);
        for table in tables {
            found = put_meant(found, *table, word);
        }
        let found = found.done()?;
        if found.is_empty() {
            let fault = unknown(alloc, tables, word)?;
            return Err(usage(surface, ErrorKind::InvalidValue, fault.as_str()));
        }
        prose = prose.put(found.as_str());
    }
    Ok(Asked::Words(prose.done()?))
}

// The kind of the lines of the standard input, by the flags. `None` if several flags name one.
fn kind_named(matches: &ArgMatches<'_>) -> Option<LineKind> {
    let flags = (
        matches.get_flag("judge"),
        matches.get_flag("drive"),
        matches.get_flag("debug"),
    );
    match flags {
        (false, false, false) => Some(LineKind::Events),
        (true, false, false) => Some(LineKind::Kept),
        (false, true, false) => Some(LineKind::Seated),
        (false, false, true) => Some(LineKind::Script),
        _ => None,
    }
}

/// The command line of `explain`.
pub struct ExplainLine;

impl<'a> CommandLine<'a> for ExplainLine {
    type Asked = Asked<'a>;

    fn surface(alloc: Global) -> Result<Command<'a>, AllocError> {
        let command = Command::new(alloc, "acta explain").about(
            "Explains the answers to the event lines of the standard input on MODEL: which rule refuses an event, why, and what must happen before the event can be admitted. With --rule, --axiom or --code, explains a rule, an axiom or codes",
        );
        let command = command.arg(model_arg(alloc));
        let help = "Judges kept lines, as `judge` does, and explains each fault";
        let command = with_arg(command, flag(alloc, "judge", help));
        let help = "Explains seated lines, as `drive` reads them, in the order of the lines";
        let command = with_arg(command, flag(alloc, "drive", help));
        let help = "Explains the events of a debug script, and its first faulty line";
        let command = with_arg(command, flag(alloc, "debug", help));
        let help = "Explains a rule, by its number or its name";
        let command = with_arg(command, option(alloc, "rule", "RULE", help));
        let help = "Explains an axiom, by its number or its name";
        let command = with_arg(command, option(alloc, "axiom", "AXIOM", help));
        let help =
            "Explains codes of lines, texts of models, images and models, by numbers or names";
        let codes = option(alloc, "code", "CODE", help)
            .num_args(1..)
            .action(ArgAction::Append);
        with_arg(command, codes)
    }

    fn asked(
        alloc: Global,
        surface: &mut Command<'a>,
        matches: &ArgMatches<'a>,
    ) -> Result<Asked<'a>, UsageFault> {
        let model = matches.get_str("MODEL");
        let rule = matches.get_str("rule");
        let axiom = matches.get_str("axiom");
        let codes = matches.get_strs("code");
        let kind = kind_named(matches);
        let words = u8::from(rule.is_some())
            + u8::from(axiom.is_some())
            + u8::from(codes.is_some());
        if words + u8::from(model.is_some()) != 1 || words > 0 && kind != Some(LineKind::Events) {
            let fault = "give a model, or one of --rule, --axiom and --code without a model";
            return Err(usage(surface, ErrorKind::MissingRequiredArgument, fault));
        }
        if let Some(word) = rule {
            return words_asked(alloc, surface, &[Table::Rules], &[word]);
        }
        if let Some(word) = axiom {
            return words_asked(alloc, surface, &[Table::Axioms], &[word]);
        }
        if let Some(words) = codes {
            return words_asked(alloc, surface, &CODES, words);
        }
        let Some(kind) = kind else {
            let fault = "give at most one of --judge, --drive and --debug";
            return Err(usage(surface, ErrorKind::ArgumentConflict, fault));
        };
        match model_named(model.unwrap_or("")) {
            Some(name) => Ok(Asked::Lines(kind, name)),
            None => Err(UsageFault::UnknownModel),
        }
    }
}
