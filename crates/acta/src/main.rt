//! The program `acta_tool COMMAND [OPTIONS] MODEL`. Its words name a command and a model, a file or one that the program
//! contains; the standard input has the lines of a history. The model and the whole input are read before anything is
//! written, and the answer is written at once, so that a run whose input can't be read, or whose memory runs out, prints
//! nothing. Only `shell` answers each line before it reads the next. The exit status is 0 if everything was answered, 1 if
//! the model or a line was refused, 2 if the command line is wrong, and 3 if a read, a write or memory failed.
#![tactic(auto)]

mod progress;

ghost use Rattle.std.specs.Prelude.{◌≡◌, ◌≤◌, false, IfOk, vec_len};
ghost use Rattle.acta_tool.specs.Outcome.{is_drive};

use crate::progress::Progress;
use acta_args::{
    ModelName, UsageFault, VERSION, is_command, nearest, parse, refuse_words, turn_help,
};
use acta_compare::{CompareLine, compare_tool};
use acta_draw::{DrawLine, Screen, draw_tool};
use acta_explain::{Advice, Asked, ExplainLine, advice_for, explain_tool, write_words};
use acta_io::{LineKind, Metered, Outcome, ReadFault, Watched, read_all, read_within};
use acta_models::Standard;
use acta_programs::{ExploreLine, explore_tool};
use acta_serialize::{SerializeLine, serialize_tool};
use acta_session::Streams;
use acta_shell::{NotingEnd, ShellLine, shell_tool};
use acta_tool::{Args, Command, Failure, drive_tool, exit_status, run_tool};
use std::alloc::AllocError;
use std::env::Env;
use std::fs::Files;
use std::io::IsTerminal;
use std::process::ExitCode;
use std::sync::Wait;
use std::thread::Threads;
use std::time::Clock;
use std::{env, fs, io};

// The words of the command line; the first is the program's name. `help COMMAND` becomes `COMMAND --help`.
fn words<R: Env + AllocGlobal>(rt: &R) -> Result<Vec<String>, UsageFault> {
    match env::args(rt) {
        Ok(words) => {
            let mut words = words.collect(rt.alloc())?;
            turn_help(rt.alloc(), &mut words)?;
            Ok(words)
        }
        Err(e) => match e.kind() {
            io::ErrorKind::OutOfMemory => Err(UsageFault::Memory(AllocError)),
            _ => Err(UsageFault::NotText),
        },
    }
}

// The bytes of a model file, at most 16,777,216.
fn file_bytes<R: Files + AllocGlobal>(rt: &R, path: &str) -> Result<Vec<u8>, ReadFault>
    ensures { IfOk result (λ bytes. vec_len bytes ≤ 16777216) }
{
    match fs::open(rt, path) {
        Ok(file) => read_all(rt.alloc(), &mut Metered::new(file)),
        Err(_) => Err(ReadFault::Device),
    }
}

// The bytes of the model with this name: of a file, or of a standard model's text.
fn model_bytes<R: Files + AllocGlobal>(rt: &R, name: ModelName<'_>) -> Result<Vec<u8>, ReadFault> {
    match name {
        ModelName::Standard(standard) => {
            match Vec::from_slice(rt.alloc(), standard.text().as_bytes()) {
                Ok(text) => Ok(text),
                Err(_) => Err(ReadFault::Memory),
            }
        }
        ModelName::Path(path) => file_bytes(rt, path),
    }
}

// Which of the standard streams are terminals.
#[derive(Clone, Copy)]
struct Terminals {
    input: bool,
    output: bool,
    error: bool,
}

// Reports that lines are read, if a user types them: no answer comes before their end.
fn report_reading<R: Eprint>(rt: &R, terminals: Terminals) {
    if terminals.input && terminals.error {
        let _ = eprintln!(rt; "reading lines until Ctrl-D; the answers come then");
    }
}

// Whether a command with a specified format reads the standard input.
fn reads_lines(command: Command) -> bool {
    !matches!(
        command,
        Command::Assemble | Command::CheckImage | Command::Upgrade
    )
}

// Suggests the command that shows why the input was refused, if there is one.
fn hint_at_explain<R: Eprint>(rt: &R, command: Command) {
    let (flag, limit) = match command {
        Command::Run { .. } | Command::Trace => ("", ""),
        Command::Judge => (" --judge", ""),
        Command::Debug => (" --debug", ""),
        Command::Drive { .. } => (
            " --drive",
            ", unless a seat has no worker or there are too many lines",
        ),
        _ => return,
    };
    let _ = eprintln!(rt;
        "hint: `acta explain{flag}` with the same model and input shows the fault{limit}"
    );
}

// Prints the suggestion of a verdict.
fn suggest<R: Eprint>(rt: &R, advice: Advice) {
    let _ = match advice {
        Advice::Serialize => {
            eprintln!(rt;
                "hint: each fault is a wrong return or a conflict; `serialize` finds out whether there is a serial order"
            )
        }
        Advice::SayReturns => {
            eprintln!(rt;
                "hint: no line has a return; kept lines have one, as in `do 1 x read = 0`"
            )
        }
    };
}

// Judges the lines of the standard input, and prints the verdict's suggestion on the standard error.
fn judge_reported<R: Eprint + Input + Print + AllocGlobal + Threads + Sync>(
    rt: &R,
    args: &Args<'_>,
    model: &[u8],
) -> Outcome
    requires { is_drive args.now.command ≡ false }
{
    let bytes = match read_within(rt.alloc(), model, &mut Metered::new(rt.reader())) {
        Ok(bytes) => bytes,
        Err(reason) => return Outcome::Unread(reason),
    };
    let input = bytes.as_slice();
    let outcome = run_tool(
        rt,
        rt.alloc(),
        args,
        model,
        &mut Metered::new(input),
        &mut Watched::new(io::writer(rt)),
    );
    match outcome {
        Outcome::Done => {
            if let Ok(Some(advice)) = advice_for(rt, rt.alloc(), model, input) {
                suggest(rt, advice);
            }
        }
        Outcome::Refused => hint_at_explain(rt, args.command),
        _ => {}
    }
    outcome
}

// Runs a command with a specified format over the standard input and output.
fn serve_run<R: Eprint + Files + Input + Print + AllocGlobal + Threads + Wait + Sync>(
    rt: &R,
    terminals: Terminals,
    args: &Args<'_>,
) -> Result<Outcome, Failure> {
    let model = match model_bytes(rt, args.model) {
        Ok(model) => model,
        Err(reason) => return Ok(Outcome::Unread(reason)),
    };
    let model = model.as_slice();
    if reads_lines(args.command) {
        report_reading(rt, terminals);
    }
    let is_terminal = terminals.error;
    if is_terminal && matches!(args.command, Command::Judge) {
        return Ok(judge_reported(rt, args, model));
    }
    let mut input = Metered::new(rt.reader());
    let mut output = Watched::new(io::writer(rt));
    match args.command {
        Command::Drive { .. } => {
            match drive_tool(rt, rt.alloc(), args, model, &mut input, &mut output) {
                Ok(outcome) => {
                    if is_terminal && outcome == Outcome::Refused {
                        hint_at_explain(rt, args.command);
                    }
                    Ok(outcome)
                }
                Err(e) => Err(Failure::Undriven(e)),
            }
        }
        _ => {
            let outcome = run_tool(rt, rt.alloc(), args, model, &mut input, &mut output);
            if is_terminal && outcome == Outcome::Refused {
                hint_at_explain(rt, args.command);
            }
            Ok(outcome)
        }
    }
}

// Explains the lines of the standard input, of this kind, on the model with this name.
fn explain_by<R: Eprint + Files + Input + Print + AllocGlobal + Threads + Sync>(
    rt: &R,
    terminals: Terminals,
    kind: LineKind,
    name: ModelName<'_>,
) -> Outcome {
    let model = match model_bytes(rt, name) {
        Ok(model) => model,
        Err(reason) => return Outcome::Unread(reason),
    };
    report_reading(rt, terminals);
    explain_tool(
        rt,
        rt.alloc(),
        kind,
        name,
        model.as_slice(),
        &mut Metered::new(rt.reader()),
        &mut Watched::new(io::writer(rt)),
    )
}

// Runs `explain`.
fn serve_explain<R: Eprint + Files + Input + Print + AllocGlobal + Threads + Sync>(
    rt: &R,
    terminals: Terminals,
    words: &[String],
) -> Result<Outcome, UsageFault> {
    Ok(match parse::<ExplainLine>(rt.alloc(), words)? {
        Asked::Lines(kind, name) => explain_by(rt, terminals, kind, name),
        Asked::Words(reported) => write_words(reported, &mut Watched::new(io::writer(rt))),
    })
}

// Runs `draw`.
fn serve_draw<R: Env + Eprint + Files + Input + Print + AllocGlobal>(
    rt: &R,
    terminals: Terminals,
    words: &[String],
) -> Result<Outcome, UsageFault> {
    let screen = Screen::of(rt, terminals.output);
    let asked = parse::<DrawLine>(rt.alloc(), words)?;
    let model = match model_bytes(rt, asked.model) {
        Ok(model) => model,
        Err(reason) => return Ok(Outcome::Unread(reason)),
    };
    report_reading(rt, terminals);
    Ok(draw_tool(
        rt.alloc(),
        &asked.drawing,
        screen,
        model.as_slice(),
        &mut Metered::new(rt.reader()),
        &mut Watched::new(io::writer(rt)),
    ))
}

// Runs `explore`.
fn serve_explore<R: Clock + Eprint + Files + Input + Print + AllocGlobal>(
    rt: &R,
    terminals: Terminals,
    words: &[String],
) -> Result<Outcome, UsageFault> {
    let asked = parse::<ExploreLine>(rt.alloc(), words)?;
    let model = match model_bytes(rt, asked.model) {
        Ok(model) => model,
        Err(reason) => return Ok(Outcome::Unread(reason)),
    };
    report_reading(rt, terminals);
    Ok(explore_tool(
        rt.alloc(),
        asked,
        model.as_slice(),
        &mut Metered::new(rt.reader()),
        &mut Watched::new(io::writer(rt)),
        &mut Progress::new(rt, terminals.error),
    ))
}

// Runs `compare`.
fn serve_compare<R: Clock + Eprint + Files + Input + Print + AllocGlobal>(
    rt: &R,
    terminals: Terminals,
    words: &[String],
) -> Result<Outcome, UsageFault> {
    let asked = parse::<CompareLine>(rt.alloc(), words)?;
    let model = match model_bytes(rt, asked.model) {
        Ok(model) => model,
        Err(reason) => return Ok(Outcome::Unread(reason)),
    };
    let other = match model_bytes(rt, asked.other) {
        Ok(other) => other,
        Err(reason) => return Ok(Outcome::Unread(reason)),
    };
    report_reading(rt, terminals);
    Ok(compare_tool(
        rt.alloc(),
        asked,
        model.as_slice(),
        other.as_slice(),
        &mut Metered::new(rt.reader()),
        &mut Watched::new(io::writer(rt)),
        &mut Progress::new(rt, terminals.error),
    ))
}

// Runs `serialize`.
fn serve_serialize<R: Eprint + Files + Input + Print + AllocGlobal>(
    rt: &R,
    terminals: Terminals,
    words: &[String],
) -> Result<Outcome, UsageFault> {
    let asked = parse::<SerializeLine>(rt.alloc(), words)?;
    let model = match model_bytes(rt, asked.model) {
        Ok(model) => model,
        Err(reason) => return Ok(Outcome::Unread(reason)),
    };
    report_reading(rt, terminals);
    Ok(serialize_tool(
        rt.alloc(),
        asked,
        model.as_slice(),
        &mut Metered::new(rt.reader()),
        &mut Watched::new(io::writer(rt)),
    ))
}

// Runs `shell`.
fn serve_shell<R: Env + Files + Input + Print + AllocGlobal>(
    rt: &R,
    terminals: Terminals,
    words: &[String],
) -> Result<Outcome, UsageFault> {
    let asked = parse::<ShellLine>(rt.alloc(), words)?;
    let model = match model_bytes(rt, asked.model) {
        Ok(model) => model,
        Err(reason) => return Ok(Outcome::Unread(reason)),
    };
    Ok(shell_tool(
        rt.alloc(),
        asked.model,
        model.as_slice(),
        Screen::of(rt, terminals.output),
        terminals.input && terminals.output,
        &mut NotingEnd::new(Streams::new(rt.reader(), io::writer(rt))),
    ))
}

// The models that a command line names, at most two.
struct Named<'a> {
    model: Option<ModelName<'a>>,
    other: Option<ModelName<'a>>,
}

impl<'a> Named<'a> {
    fn one(model: ModelName<'a>) -> Named<'a> {
        Named {
            model: Some(model),
            other: None,
        }
    }
}

// The models that these words of a command line name.
fn models_named<'a, R: AllocGlobal>(rt: &R, words: &'a [String]) -> Result<Named<'a>, UsageFault> {
    let command = match words.get(1) {
        Some(command) => command.as_str(),
        None => "",
    };
    Ok(match command {
        "draw" => Named::one(parse::<DrawLine>(rt.alloc(), words)?.model),
        "explain" => match parse::<ExplainLine>(rt.alloc(), words)? {
            Asked::Lines(_, name) => Named::one(name),
            Asked::Words(_) => Named {
                model: None,
                other: None,
            },
        },
        "explore" => Named::one(parse::<ExploreLine>(rt.alloc(), words)?.model),
        "compare" => {
            let asked = parse::<CompareLine>(rt.alloc(), words)?;
            Named {
                model: Some(asked.model),
                other: Some(asked.other),
            }
        }
        "serialize" => Named::one(parse::<SerializeLine>(rt.alloc(), words)?.model),
        "shell" => Named::one(parse::<ShellLine>(rt.alloc(), words)?.model),
        _ => Named::one(acta_tool::parse(rt.alloc(), words)?.model),
    })
}

// Prints the path of a model on a line, if it has one.
fn report_path<R: Print>(rt: &R, model: Option<ModelName<'_>>) -> Outcome {
    let Some(name) = model else {
        return Outcome::Done;
    };
    let ModelName::Path(path) = name else {
        return Outcome::Done;
    };
    match println!(rt; "{path}") {
        Ok(()) => Outcome::Done,
        Err(_) => Outcome::Unwritten,
    }
}

// Prints the paths of the models that the words after `--models` name, one per line. The script `acta` asks for them after
// the program has ended with status 3.
fn report_models<R: Print + AllocGlobal>(rt: &R, words: &[String]) -> Result<Outcome, UsageFault> {
    let Named { model, other } = models_named(rt, words)?;
    Ok(match report_path(rt, model) {
        Outcome::Done => report_path(rt, other),
        ended => ended,
    })
}

// Prints the version.
fn report_version<R: Print>(rt: &R) -> Outcome {
    match println!(rt; "acta {VERSION}") {
        Ok(()) => Outcome::Done,
        Err(_) => Outcome::Unwritten,
    }
}

// Runs the command that the words name.
fn serve<R: Clock + Env + Eprint + Files + Input + Print + AllocGlobal + Threads + Wait + Sync>(
    rt: &R,
    terminals: Terminals,
    words: &[String],
) -> Result<Outcome, Failure> {
    let command = match words.get(1) {
        Some(command) => command.as_str(),
        None => "",
    };
    Ok(match command {
        "draw" => serve_draw(rt, terminals, words)?,
        "explain" => serve_explain(rt, terminals, words)?,
        "explore" => serve_explore(rt, terminals, words)?,
        "compare" => serve_compare(rt, terminals, words)?,
        "serialize" => serve_serialize(rt, terminals, words)?,
        "shell" => serve_shell(rt, terminals, words)?,
        "--version" | "-V" => report_version(rt),
        "--models" => report_models(rt, words.get(1..).unwrap_or(&[]))?,
        _ if is_command(command) => {
            let args = acta_tool::parse(rt.alloc(), words)?;
            serve_run(rt, terminals, &args)?
        }
        _ => return Err(Failure::Words(refuse_words(rt.alloc(), words))),
    })
}

// Suggests the standard model that was perhaps meant by a word that begins with `@`.
fn hint_at_standard(rt: &HostRuntime, words: &[String]) {
    let known = [
        "@atomic",
        "@nested",
        "@split_join",
        "@recoverable",
        "@contingent",
    ];
    for word in words {
        if word.as_str().starts_with('@') {
            if let Ok(Some(meant)) = nearest(rt.alloc(), word.as_bytes(), known.as_slice()) {
                let _ = eprintln!(rt; "did you mean {meant}?");
            }
        }
    }
}

// Lists the standard models.
fn list_standards(rt: &HostRuntime) {
    let _ = eprintln!(rt; "the standard models are:");
    for name in Standard::ALL {
        let name = name.name();
        let _ = eprintln!(rt; "    @{name}");
    }
}

// Writes why the command line was rejected, or the text for which it asked. If memory ran out, nothing is written.
fn report_usage(rt: &HostRuntime, words: &[String], fault: &UsageFault) {
    match fault {
        UsageFault::Memory(_) => {}
        UsageFault::Usage(e) => {
            let _ = eprint!(rt; "{e}");
        }
        UsageFault::NotText => {
            let _ = eprintln!(rt; "{fault}");
        }
        UsageFault::UnknownModel => {
            let _ = eprintln!(rt; "{fault}");
            hint_at_standard(rt, words);
            list_standards(rt);
        }
    }
}

fn main(rt: HostRuntime) -> ExitCode {
    let none = Vec::new(rt.alloc());
    let (words, outcome) = match words(&rt) {
        Ok(words) => {
            let terminals = Terminals {
                input: rt.stdin().is_terminal(),
                output: rt.stdout().is_terminal(),
                error: rt.stderr().is_terminal(),
            };
            let outcome = serve(&rt, terminals, words.as_slice());
            (words, outcome)
        }
        Err(fault) => (none, Err(Failure::Words(fault))),
    };
    if let Err(Failure::Words(fault)) = &outcome {
        report_usage(&rt, words.as_slice(), fault);
    }
    ExitCode::from(exit_status(&outcome))
}
