//! The parsed command line.

ghost use Rattle.std.specs.Prelude.{◌≡◌, ◌≢◌, Some, IsSomeAnd, [], map, option_map, string_bytes, codes, false, IfOk, IfErr, IfSome, IfNone};
ghost use Rattle.std.specs.Option.{option_map_or};
ghost use Rattle.std.specs.Str.{bytes_eq};
ghost use Rattle.clap.specs.Words.{app_of, first_value, found_of, new_app, rule_of, subcommand_rows_of, with_rule, with_subcommand};
ghost use Rattle.acta_tool.specs.CommandLines.{AreSeated, AreTurns, AsksFor, IsCommand, IsFaultOf, IsKnown, bare_app, drive_app, faults_of, kept_rule, model_rule, named_by, named_in, plain_app, tool_app, turns_in, watch_rule, workers_in, workers_rule};
ghost use Rattle.acta_tool.specs.inside.Spelling.{IsMissing, named_of};

use acta_args::{ModelName, UsageFault, model_named};
use acta_locked::MOST_WORKERS;
use acta_words::read_u16;
use clap::builder::ValueParser;
use clap::error::ErrorKind;
use clap::{Arg, ArgAction, ArgMatches};
use std::alloc::{AllocError, Global};

/// The command to run.
#[derive(Clone, Copy, Debug, PartialEq, Eq)]
pub enum Command {
    /// Writes the image of a model's text.
    Assemble,
    /// Writes the canonical text of a model's image.
    CheckImage,
    /// Converts an image of any version to the version that is written.
    Upgrade,
    /// Answers the event lines of the standard input; with `kept`, lists only the kept events with their returns.
    Run { kept: bool },
    /// Answers the event lines of the standard input, and adds to each answer the event's line and the operation and edges
    /// that the event formed.
    Trace,
    /// Judges the kept lines of the standard input: lists each fault, and the debts.
    Judge,
    /// Runs a debug script: the admitted events before the line `--` are the history of a debugger, and the output has the
    /// replies to the commands after it.
    Debug,
    /// Writes the committed operations of a run of the event lines of the standard input in serial order, if the model is
    /// strict.
    Serial,
    /// Runs the event lines of the standard input in this many threads, and lists the entries of the book. Meanwhile the
    /// kept history is judged `turns` times, and each front is listed after the entries.
    Drive { workers: u8, turns: u8 },
}

/// A parsed command line.
#[derive(Clone, Copy, Debug, PartialEq, Eq)]
pub struct Args<'a> {
    pub command: Command,
    pub model: ModelName<'a>,
}

// The words of a command line, before they are checked.
#[derive(Clone, Copy)]
struct Spelled<'a> {
    command: &'a str,
    is_kept: bool,
    workers: Option<&'a str>,
    watch: Option<&'a str>,
    model: &'a str,
}

// The number of workers, if it is from 1 to 16.
fn workers_named(spelled: &Spelled<'_>) -> Option<u8>
    ensures some { IfSome result (λ workers. (workers_in (named_of spelled.now) ≡ Some workers) × AreSeated workers) }
    ensures none { IfNone result (¬ (IsSomeAnd (workers_in (named_of spelled.now)) AreSeated)) }
{
    let workers = read_u16(spelled.workers?.as_bytes())?;
    if workers == 0 || usize::from(workers) > MOST_WORKERS {
        None
    } else {
        Some(workers as u8)
    }
}

// How often the history is judged, if that is a number up to 255; 0 by default.
fn turns_named(spelled: &Spelled<'_>) -> Option<u8>
    ensures some { IfSome result (λ turns. (turns_in (named_of spelled.now) ≡ Some turns) × AreTurns turns) }
    ensures none { IfNone result (¬ (IsSomeAnd (turns_in (named_of spelled.now)) AreTurns)) }
{
    let turns = match spelled.watch {
        Some(turns) => read_u16(turns.as_bytes())?,
        None => 0,
    };
    if turns > 255 { None } else { Some(turns as u8) }
}

// The command with its checked options.
fn command_named(spelled: &Spelled<'_>) -> Option<Command>
    ensures some { IfSome result (IsCommand (named_of spelled.now)) }
    ensures none { IfNone result (¬ (IsKnown (named_of spelled.now))) }
{
    match spelled.command {
        "assemble" => Some(Command::Assemble),
        "check-image" => Some(Command::CheckImage),
        "upgrade" => Some(Command::Upgrade),
        "run" => Some(Command::Run {
            kept: spelled.is_kept,
        }),
        "trace" => Some(Command::Trace),
        "judge" => Some(Command::Judge),
        "debug" => Some(Command::Debug),
        "serial" => Some(Command::Serial),
        "drive" => {
            let workers = workers_named(spelled)?;
            let turns = turns_named(spelled)?;
            Some(Command::Drive { workers, turns })
        }
        _ => None,
    }
}

// The program without its commands.
fn bare_command<'a>(alloc: Global) -> clap::Command<'a>
    ensures { app_of result ≡ bare_app }
{
    clap::Command::new(alloc, "acta_tool")
        .about(
            "Runs histories of events against extended transaction models, as ACTA writes them. Three more commands \
             have words of their own: explain --help, draw --help, explore --help",
        )
        .subcommand_required(true)
}

// The one argument of a command: where the model is.
fn model_argument<'a>(alloc: Global) -> Arg<'a>
    ensures rule { rule_of result ≡ model_rule }
    ensures local { result.global ≡ false }
{
    Arg::new(alloc, "MODEL")
        .required(true)
        .action(ArgAction::Set)
        .help(
            "A file with the model's text or image, or one of @atomic, @nested, @split_join, @recoverable, @contingent",
        )
}

// The flag to write only the kept events.
fn kept_flag<'a>(alloc: Global) -> Arg<'a>
    ensures rule { rule_of result ≡ kept_rule }
    ensures local { result.global ≡ false }
{
    Arg::new(alloc, "kept")
        .long("kept")
        .action(ArgAction::SetTrue)
        .help("Prints only the admitted events, each with its return")
}

// The program with one more command, which has only the model.
fn with_command<'a>(
    alloc: Global,
    program: clap::Command<'a>,
    name: &'a str,
    about: &'a str,
) -> Result<clap::Command<'a>, AllocError>
    ensures { IfOk result (λ command. app_of command ≡ with_subcommand (app_of program.entry) (with_rule (new_app name.now) model_rule).top) }
{
    let added = clap::Command::new(alloc, name)
        .about(about)
        .arg(model_argument(alloc))?;
    program.subcommand(added)
}

// The program with one more command, which has the model and this argument.
fn with_argument<'a>(
    alloc: Global,
    program: clap::Command<'a>,
    name: &'a str,
    about: &'a str,
    argument: Arg<'a>,
) -> Result<clap::Command<'a>, AllocError>
    requires { argument.global ≡ false }
    ensures { IfOk result (λ command. app_of command ≡ with_subcommand (app_of program.entry) (with_rule (with_rule (new_app name.now) model_rule) (rule_of argument.entry)).top) }
{
    let added = clap::Command::new(alloc, name)
        .about(about)
        .arg(model_argument(alloc))?
        .arg(argument)?;
    program.subcommand(added)
}

// The option for the number of threads.
fn workers_option<'a>(alloc: Global) -> Arg<'a>
    ensures rule { rule_of result ≡ workers_rule }
    ensures local { result.global ≡ false }
{
    Arg::new(alloc, "workers")
        .long("workers")
        .required(true)
        .action(ArgAction::Set)
        .value_parser(ValueParser::Signed(1, 16))
        .help("Sets the number of threads, from 1 to 16")
}

// The option for how often the history is judged while it grows.
fn watch_option<'a>(alloc: Global) -> Arg<'a>
    ensures rule { rule_of result ≡ watch_rule }
    ensures local { result.global ≡ false }
{
    Arg::new(alloc, "watch")
        .long("watch")
        .action(ArgAction::Set)
        .value_parser(ValueParser::Signed(0, 255))
        .help("Sets how often the history is judged while it grows, from 0 to 255")
}

// The command `drive`, with its options.
fn drive_command<'a>(
    alloc: Global,
    program: clap::Command<'a>,
) -> Result<clap::Command<'a>, AllocError>
    ensures { IfOk result (λ command. app_of command ≡ with_subcommand (app_of program.entry) drive_app.top) }
{
    let added = clap::Command::new(alloc, "drive")
        .about("Submits the lines SEAT EVENT of the standard input, from one thread for each seat")
        .arg(model_argument(alloc))?
        .arg(workers_option(alloc))?
        .arg(watch_option(alloc))?;
    program.subcommand(added)
}

// The program with the commands that have only the model.
fn plain_commands<'a>(alloc: Global) -> Result<clap::Command<'a>, AllocError>
    ensures { IfOk result (λ command. app_of command ≡ plain_app) }
{
    let program = with_command(
        alloc,
        bare_command(alloc),
        "assemble",
        "Writes the image of the model's text",
    )?;
    let program = with_command(
        alloc,
        program,
        "check-image",
        "Writes the text of the model's image, or what is wrong with it",
    )?;
    let program = with_command(
        alloc,
        program,
        "upgrade",
        "Writes the model's image of version 1 or 2 in version 2, or what is wrong with it",
    )?;
    let program = with_command(
        alloc,
        program,
        "trace",
        "Answers the events of the standard input, each with its line, its operation and the edges that it formed",
    )?;
    let program = with_command(
        alloc,
        program,
        "judge",
        "Judges the kept lines of the standard input: lists each fault, and the commits and aborts that are owed",
    )?;
    let program = with_command(
        alloc,
        program,
        "debug",
        "Runs the commands after the line -- on the history of the events before it",
    )?;
    with_command(
        alloc,
        program,
        "serial",
        "Lists the committed operations of the events of the standard input, in the order of the commits",
    )
}

// The program's command line.
fn surface<'a>(alloc: Global) -> Result<clap::Command<'a>, AllocError>
    ensures { IfOk result (λ command. app_of command ≡ tool_app) }
{
    let program = plain_commands(alloc)?;
    let program = with_argument(
        alloc,
        program,
        "run",
        "Answers the events of the standard input, one line for each, and lists the commits and aborts that are owed",
        kept_flag(alloc),
    )?;
    drive_command(alloc, program)
}

// Whether the flag was set.
fn is_set(matches: &ArgMatches<'_>, flag: &str) -> bool
    ensures { result ≡ option_map_or (bytes_eq (codes "true")) (first_value (found_of matches.now) flag.now) false }
{
    match matches.get_str(flag) {
        Some(value) => value == "true",
        None => false,
    }
}

// The words of the command, its options and its model.
fn spelling<'a>(matches: &ArgMatches<'a>) -> Option<Spelled<'a>>
    ensures { option_map named_of result ≡ named_in (subcommand_rows_of matches.now) }
{
    let Some((command, inner)) = matches.subcommand() else {
        return None;
    };
    let is_kept = is_set(inner, "kept");
    let workers = inner.get_str("workers");
    let watch = inner.get_str("watch");
    let Some(model) = inner.get_str("MODEL") else {
        return None;
    };
    Some(Spelled {
        command,
        is_kept,
        workers,
        watch,
        model,
    })
}

// The words of a command line, if `clap` takes them.
fn spelled_by<'a>(
    surface: &mut clap::Command<'a>,
    words: &'a [String],
) -> Result<Option<Spelled<'a>>, UsageFault>
    requires { app_of surface.old ≡ tool_app }
    ensures ok { IfOk result (λ found. (faults_of (map string_bytes words.now) ≡ []) × (option_map named_of found ≡ named_by (map string_bytes words.now))) }
    ensures err { IfErr result (IsFaultOf (map string_bytes words.now)) }
{
    match surface.try_get_matches_from_mut(words) {
        Ok(matches) => Ok(spelling(&matches)),
        Err(e) => match e.kind() {
            ErrorKind::OutOfMemory => Err(UsageFault::Memory(AllocError)),
            _ => Err(UsageFault::Usage(e)),
        },
    }
}

// The fault of words that name no command.
fn no_command(surface: &mut clap::Command<'_>) -> UsageFault
    ensures { IsMissing result }
{
    match surface.error(ErrorKind::MissingSubcommand, "a command is missing") {
        Ok(error) => UsageFault::Usage(error),
        Err(e) => UsageFault::Memory(e),
    }
}

// Parses the words by this command line.
fn asked_by<'a>(
    surface: &mut clap::Command<'a>,
    words: &'a [String],
) -> Result<Args<'a>, UsageFault>
    requires { app_of surface.old ≡ tool_app }
    ensures ok { IfOk result (AsksFor (map string_bytes words.now)) }
    ensures err { IfErr result (IsFaultOf (map string_bytes words.now)) }
{
    let Some(spelled) = spelled_by(surface, words)? else {
        return Err(no_command(surface));
    };
    let Some(command) = command_named(&spelled) else {
        return Err(no_command(surface));
    };
    match model_named(spelled.model) {
        Some(model) => Ok(Args { command, model }),
        None => Err(UsageFault::UnknownModel),
    }
}

/// Parses a command line; the first word is the program's name. Returns `Usage` with the text of `clap` if the words are not
/// a command with its model; `UnknownModel` if no standard model has the name after the `@`; `Memory` if memory runs out.
pub fn parse<'a>(alloc: Global, words: &'a [String]) -> Result<Args<'a>, UsageFault>
    ensures ok { IfOk result (AsksFor (map string_bytes words.now)) }
    ensures err { IfErr result (IsFaultOf (map string_bytes words.now)) }
{
    let mut surface = surface(alloc).map_err(UsageFault::Memory)?;
    let asked = asked_by(&mut surface, words);
    drop(surface);
    asked
}
