//! What the words of a command line of `draw` ask for.

use crate::choice::{Choice, View};
use crate::layout::{LEAST_WIDTH, MOST_WIDTH};
use crate::marks::has_lane;
use acta_args::{
    CommandLine, ModelName, UsageFault, flag, model_arg, model_named, option, usage, with_arg,
};
use acta_table::{MOST_EVENTS, TxnId};
use acta_words::read_u16;
use clap::builder::ValueParser;
use clap::error::ErrorKind;
use clap::{Arg, ArgMatches, Command};
use std::alloc::{AllocError, Global};

/// The form of a picture.
#[derive(Clone, Copy, PartialEq, Eq, Debug)]
pub enum Form {
    /// A text for a terminal, of this width, or as wide as the screen.
    Text { width: Option<usize> },
    /// An SVG for a browser.
    Svg,
}

/// What is to be drawn, and how.
#[derive(Drop)]
pub struct Drawing {
    pub form: Form,
    pub choice: Choice,
}

/// What a command line asks for: the picture of a run of the event lines of the standard input on a model.
#[derive(Drop)]
pub struct Asked<'a> {
    pub drawing: Drawing,
    pub model: ModelName<'a>,
}

const LEGEND: &str = "The marks of a text, on the lane of a transaction:
  o   it starts               *N  it does operation N
  C   it commits              *   it spawns, splits, delegates or permits; or a form names it
  A   it aborts               |   it is in progress
  J   it joins another        x   an event of it is refused (`-` for its place)
  !   it owes an event in the end
Between two lanes:
  *-->o   it spawns the other, or splits it off
  *-->|   it hands operations to the other: delegates, joins, or commits to it as its parent
  *..>|   it permits the other to conflict with it on an object
  |<~~*   it comes to depend on the other; the edges follow the event
Where lanes are used again, the number of a transaction follows the mark of its start, as in o21.";

// The rows around a place: so many places before it and after it.
const AROUND: u32 = 8;

// An option that takes a number.
fn number<'a>(
    alloc: Global,
    id: &'a str,
    value: &'a str,
    least: usize,
    most: usize,
    help: &'a str,
) -> Arg<'a> {
    let numbers = ValueParser::Unsigned(least as u64, most as u64);
    option(alloc, id, value, help).value_parser(numbers)
}

// The transactions that are asked for, each once.
fn txns_asked(
    alloc: Global,
    surface: &mut Command<'_>,
    list: Option<&str>,
) -> Result<Option<Vec<TxnId>>, UsageFault> {
    let Some(list) = list else {
        return Ok(None);
    };
    let mut txns: Vec<TxnId> = Vec::new(alloc);
    for word in list.split(',') {
        let t = TxnId(read_u16(word.as_bytes()).unwrap_or(0));
        if !has_lane(t) {
            let fault =
                "--txns takes numbers of transactions, from 1 to 16,383, with commas between them";
            return Err(usage(surface, ErrorKind::InvalidValue, fault));
        }
        if !txns.contains(&t) {
            txns.push(t)?;
        }
    }
    Ok(Some(txns))
}

// The names of objects that are asked for.
fn objects_asked(
    alloc: Global,
    surface: &mut Command<'_>,
    list: Option<&str>,
) -> Result<Option<Vec<String>>, UsageFault> {
    let Some(list) = list else {
        return Ok(None);
    };
    let mut names = Vec::new(alloc);
    for name in list.split(',') {
        if name.is_empty() {
            let fault = "--objects takes names of objects, with commas between them";
            return Err(usage(surface, ErrorKind::InvalidValue, fault));
        }
        names.push(name.to_string(alloc)?)?;
    }
    Ok(Some(names))
}

// The first and the last place that are asked for.
fn places_asked(
    surface: &mut Command<'_>,
    matches: &ArgMatches<'_>,
) -> Result<(u32, Option<u32>), UsageFault> {
    let from = matches.get_one::<u32>("from");
    let to = matches.get_one::<u32>("to");
    let Some(around) = matches.get_one::<u32>("around") else {
        let from = from.unwrap_or(1);
        if to.is_some_and(|to| to < from) {
            let fault = "--to is a place before --from";
            return Err(usage(surface, ErrorKind::InvalidValue, fault));
        }
        return Ok((from, to));
    };
    if from.is_some() || to.is_some() {
        let fault = "--around can't be used with --from or --to";
        return Err(usage(surface, ErrorKind::ArgumentConflict, fault));
    }
    let first = around.saturating_sub(AROUND).max(1);
    Ok((first, Some(around.saturating_add(AROUND))))
}

// Whether an option is used that chooses rows or lanes.
fn chooses_rows(matches: &ArgMatches<'_>) -> bool {
    ["txns", "objects", "from", "to", "page"]
        .iter()
        .any(|id| matches.get_str(id).is_some())
        || matches.get_flag("refused")
        || matches.get_flag("reuse")
}

// The view that is asked for.
fn view_asked(surface: &mut Command<'_>, matches: &ArgMatches<'_>) -> Result<View, UsageFault> {
    if !matches.get_flag("waits") {
        return Ok(View::Lanes);
    }
    if chooses_rows(matches) {
        let fault = "--waits can be used only with --around, --svg and --width";
        return Err(usage(surface, ErrorKind::ArgumentConflict, fault));
    }
    Ok(View::Waits {
        at: matches.get_one::<u32>("around"),
    })
}

// The choice that is asked for.
fn choice_asked(
    alloc: Global,
    surface: &mut Command<'_>,
    matches: &ArgMatches<'_>,
) -> Result<Choice, UsageFault> {
    let view = view_asked(surface, matches)?;
    let (from, to) = places_asked(surface, matches)?;
    let txns = txns_asked(alloc, surface, matches.get_str("txns"))?;
    let objects = objects_asked(alloc, surface, matches.get_str("objects"))?;
    Ok(Choice {
        view,
        txns,
        objects,
        is_refused: matches.get_flag("refused"),
        from,
        to,
        page: matches.get_one::<u32>("page"),
        is_reusing: matches.get_flag("reuse"),
    })
}

// The form that is asked for.
fn form_asked(matches: &ArgMatches<'_>) -> Form {
    if matches.get_flag("svg") {
        return Form::Svg;
    }
    let width = matches.get_one::<u32>("width");
    Form::Text {
        width: width.map(|width| width as usize),
    }
}

// The options that take a place or a page.
const NUMBERS: [(&str, &str, &str); 4] = [
    ("from", "PLACE", "Draws only from this place on"),
    ("to", "PLACE", "Draws only up to this place"),
    (
        "around",
        "PLACE",
        "Draws only this place and the 8 before and after it; with --waits, the graphs right after this place",
    ),
    ("page", "N", "Draws only the Nth page, of 200 rows"),
];

// Adds the options that choose rows.
fn with_rows<'a>(
    alloc: Global,
    command: Result<Command<'a>, AllocError>,
) -> Result<Command<'a>, AllocError> {
    let help = "Draws only these transactions, in this order";
    let command = with_arg(command, option(alloc, "txns", "T,T..", help));
    let help = "Draws only operations on these objects";
    let command = with_arg(command, option(alloc, "objects", "NAME,NAME..", help));
    let help = "Draws only refused events, and the events that block them";
    let mut command = with_arg(command, flag(alloc, "refused", help));
    for (id, value, help) in NUMBERS {
        command = with_arg(command, number(alloc, id, value, 1, MOST_EVENTS, help));
    }
    command
}

/// The command line of `draw`.
pub struct DrawLine;

impl<'a> CommandLine<'a> for DrawLine {
    type Asked = Asked<'a>;

    fn surface(alloc: Global) -> Result<Command<'a>, AllocError> {
        let command = Command::new(alloc, "acta draw")
            .about(
                "Draws the history of the event lines of the standard input on MODEL: a lane for each transaction, a row for each event",
            )
            .after_help(LEGEND);
        let command = command.arg(model_arg(alloc).required(true));
        let help = "Draws an SVG, which a browser shows";
        let command = with_arg(command, flag(alloc, "svg", help));
        let help = "Draws the waits-for graph and the dependency graph in place of the lanes";
        let command = with_arg(command, flag(alloc, "waits", help));
        let command = with_rows(alloc, command);
        let help =
            "Uses the lane of an ended transaction again; always with more than 20 transactions, unless --txns names them";
        let command = with_arg(command, flag(alloc, "reuse", help));
        let help = "Sets the width of a text; the default is COLUMNS of the environment, or 100";
        let width = number(alloc, "width", "COLUMNS", LEAST_WIDTH, MOST_WIDTH, help);
        with_arg(command, width)
    }

    fn asked(
        alloc: Global,
        surface: &mut Command<'a>,
        matches: &ArgMatches<'a>,
    ) -> Result<Asked<'a>, UsageFault> {
        let choice = choice_asked(alloc, surface, matches)?;
        let Some(model) = model_named(matches.get_str("MODEL").unwrap_or("@")) else {
            return Err(UsageFault::UnknownModel);
        };
        let form = form_asked(matches);
        Ok(Asked {
            drawing: Drawing { form, choice },
            model,
        })
    }
}
