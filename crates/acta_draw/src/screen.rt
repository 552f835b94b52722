//! What is written to: how many columns it has, and whether it shows colours.

use crate::layout::{LEAST_WIDTH, MOST_WIDTH, USUAL_WIDTH};
use std::env;
use std::env::Env;

/// What a picture is written to.
#[derive(Clone, Copy, PartialEq, Eq, Debug)]
pub struct Screen {
    /// How many columns it has.
    pub width: usize,
    /// Whether it shows colours.
    pub is_colored: bool,
}

impl Screen {
    /// A screen of the usual width, without colours.
    pub const PLAIN: Screen = Screen {
        width: USUAL_WIDTH,
        is_colored: false,
    };

    /// The screen of the environment: its width by `COLUMNS`, and colours where it is a terminal and
    /// `NO_COLOR` is not set.
    pub fn of<R: Env + AllocGlobal>(rt: &R, is_terminal: bool) -> Screen {
        Screen {
            width: columns(rt).unwrap_or(USUAL_WIDTH),
            is_colored: is_terminal && !is_set(rt, "NO_COLOR"),
        }
    }
}

// The number of columns by the environment.
fn columns<R: Env + AllocGlobal>(rt: &R) -> Option<usize> {
    let columns = env::var(rt, "COLUMNS").ok()?;
    let columns = columns.parse::<usize>().ok()?;
    Some(columns.clamp(LEAST_WIDTH, MOST_WIDTH))
}

// Whether the variable is set, and to something.
fn is_set<R: Env + AllocGlobal>(rt: &R, name: &str) -> bool {
    match env::var(rt, name) {
        Ok(value) => !value.is_empty(),
        Err(_) => false,
    }
}
