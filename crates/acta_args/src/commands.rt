//! The table of the commands, and the command that the words name.

use crate::fault::UsageFault;
use crate::surface::program_name;
use clap::Command;
use clap::error::ErrorKind;
use std::alloc::{AllocError, Global};

/// The version of the workbench.
pub const VERSION: &str = "0.1.0";

/// A command: its name, and a line about it.
#[derive(Clone, Copy, Debug, PartialEq, Eq)]
pub struct Listed {
    pub name: &'static str,
    pub about: &'static str,
}

/// The commands, in the order in which the help lists them.
pub const COMMANDS: [Listed; 15] = [
    Listed {
        name: "run",
        about: "Answers the event lines of the standard input, and lists the commits and aborts that are owed",
    },
    Listed {
        name: "explain",
        about: "Explains the answers: which rule refuses an event, why, and what would help; or explains a rule",
    },
    Listed {
        name: "draw",
        about: "Draws the history of a run, as a text or an SVG",
    },
    Listed {
        name: "trace",
        about: "Answers each event with its line, and with the operation and the edges that it formed",
    },
    Listed {
        name: "shell",
        about: "Answers events and commands one by one, in a session",
    },
    Listed {
        name: "explore",
        about: "Finds every way in which programs can end, whatever the order of their steps",
    },
    Listed {
        name: "compare",
        about: "Finds where two models differ on the same events or programs",
    },
    Listed {
        name: "judge",
        about: "Judges a history from elsewhere by the axioms of the model",
    },
    Listed {
        name: "serialize",
        about: "Finds a serial order of a history from elsewhere, or proves that it has none",
    },
    Listed {
        name: "serial",
        about: "Lists the committed operations of a run in serial order, on a strict model",
    },
    Listed {
        name: "debug",
        about: "Steps back and forth in the history of a run",
    },
    Listed {
        name: "drive",
        about: "Submits events from several threads",
    },
    Listed {
        name: "assemble",
        about: "Writes the image of a model's text",
    },
    Listed {
        name: "check-image",
        about: "Writes the text of a model's image, or what is wrong with it",
    },
    Listed {
        name: "upgrade",
        about: "Writes a model's image in the newest version of the format",
    },
];

/// Whether this is the name of a command.
pub fn is_command(word: &str) -> bool {
    for listed in COMMANDS {
        if listed.name == word {
            return true;
        }
    }
    false
}

/// Turns `help COMMAND` into `COMMAND --help`; leaves other words unchanged. Returns `Err` if memory runs out.
pub fn turn_help(alloc: Global, words: &mut Vec<String>) -> Result<(), AllocError> {
    let is_help = match words.as_slice() {
        [_, help, command] => help.as_str() == "help" && is_command(command.as_str()),
        _ => false,
    };
    if is_help {
        let flag = "--help".to_string(alloc)?;
        words.remove(1);
        words.push(flag)?;
    }
    Ok(())
}

// A command of the table, without its arguments.
fn listed_command<'a>(alloc: Global, listed: &Listed) -> Command<'a> {
    Command::new(alloc, listed.name).about(listed.about)
}

// The program without its commands.
fn bare_surface<'a>(alloc: Global) -> Command<'a> {
    Command::new(alloc, "acta")
        .version(VERSION)
        .about(
            "A workbench for ACTA, a framework of extended transaction models. `acta help COMMAND` describes a command",
        )
        .subcommand_required(true)
}

// The program with its commands.
fn surface<'a>(alloc: Global) -> Result<Command<'a>, AllocError> {
    let mut surface = bare_surface(alloc);
    for listed in COMMANDS.iter() {
        surface = surface.subcommand(listed_command(alloc, listed))?;
    }
    Ok(surface)
}

/// The fault of words that name no command: what is wrong with them and which command was perhaps meant, or the list of
/// commands for `--help`, or the version for `--version`, or lack of memory.
pub fn refuse_words(alloc: Global, words: &[String]) -> UsageFault {
    match surface(alloc) {
        Ok(mut surface) => {
            let fault = match surface.try_get_matches_from_mut(words) {
                Ok(_) => no_command(&mut surface),
                Err(e) => match e.kind() {
                    ErrorKind::OutOfMemory => UsageFault::Memory(AllocError),
                    _ => UsageFault::Usage(e),
                },
            };
            drop(surface);
            fault
        }
        Err(e) => UsageFault::Memory(e),
    }
}

// The fault of words that name no command.
fn no_command(surface: &mut Command<'_>) -> UsageFault {
    match surface.error(ErrorKind::MissingSubcommand, "a command is missing") {
        Ok(error) => UsageFault::Usage(error),
        Err(e) => UsageFault::Memory(e),
    }
}
