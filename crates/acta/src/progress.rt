//! Shows the progress of a search on a terminal.

use acta_explore::Watch;
use std::time::{Clock, Duration, Instant};

// How many points are found between two looks at the clock.
const POINTS: u64 = 256;

/// A line on the standard error with the progress of a search. It appears after a second, and disappears when the search
/// ends.
#[derive(Drop)]
pub(crate) struct Progress<'a, R: Clock + Eprint> {
    rt: &'a R,
    // When the line was last written, or the search began; `None` if no progress is shown.
    shown: Option<Instant>,
    // The clock is not read before this many points are found.
    next: u64,
    is_written: bool,
}

impl<'a, R: Clock + Eprint> Progress<'a, R> {
    /// The progress before a search. It is shown only on a terminal, and only if there is a clock.
    pub(crate) fn new(rt: &'a R, is_terminal: bool) -> Progress<'a, R> {
        let shown = if is_terminal {
            Instant::now(rt).ok()
        } else {
            None
        };
        Progress {
            rt,
            shown,
            next: POINTS,
            is_written: false,
        }
    }
}

impl<'a, R: Clock + Eprint> Watch for Progress<'a, R> {
    fn found(&mut self, points: u64, ends: usize) {
        let Some(shown) = self.shown else {
            return;
        };
        if points < self.next {
            return;
        }
        self.next = points.saturating_add(POINTS);
        let Ok(now) = Instant::now(self.rt) else {
            return;
        };
        if now.duration_since(shown) < Duration::from_secs(1) {
            return;
        }
        self.shown = Some(now);
        self.is_written = true;
        let _ = eprint!(self.rt; "\r{points} points, {ends} ends");
    }

    fn end(&mut self) {
        if self.is_written {
            self.is_written = false;
            let _ = eprint!(self.rt; "\r\x1b[K");
        }
    }
}
