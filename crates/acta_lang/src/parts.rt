//! The six parts of a class, each with its line.

ghost use Rattle.std.specs.Prelude.{◌≡◌};
ghost use Rattle.acta_lang.specs.Lines.{no_lines, part_line, with_line};

use crate::form::Form;

/// The line of each of the six parts of a class, from 1; `None` for a part without a line so far.
#[derive(Clone, Copy, PartialEq, Eq, Debug)]
pub struct PartLines {
    /// The line that begins with `starts`.
    pub starts: Option<usize>,
    /// The line that begins with `may`.
    pub may: Option<usize>,
    /// The line that begins with `scope`.
    pub scope: Option<usize>,
    /// The line that begins with `policy`.
    pub policy: Option<usize>,
    /// The line that begins with `commit`.
    pub commit: Option<usize>,
    /// The line that begins with `delegation`.
    pub delegation: Option<usize>,
}

impl PartLines {
    /// No part has a line.
    pub(crate) fn none() -> PartLines
        ensures { result ≡ no_lines }
    {
        PartLines {
            starts: None,
            may: None,
            scope: None,
            policy: None,
            commit: None,
            delegation: None,
        }
    }

    /// Notes that the line of this number and form gives its part, if it gives one.
    pub(crate) fn add(&mut self, parsed: &Form, number: usize)
        ensures { self.new ≡ with_line parsed.now number self.old }
    {
        match parsed {
            Form::Starts(_) => self.starts = Some(number),
            Form::May(_) => self.may = Some(number),
            Form::Scope(_) => self.scope = Some(number),
            Form::Policy(_) => self.policy = Some(number),
            Form::Commit(_) => self.commit = Some(number),
            Form::Delegation(_) => self.delegation = Some(number),
            _ => {}
        }
    }

    /// The earlier line with the same part as a line of this form.
    pub(crate) fn line_of(&self, parsed: &Form) -> Option<usize>
        ensures { result ≡ part_line parsed.now self.now }
    {
        match parsed {
            Form::Starts(_) => self.starts,
            Form::May(_) => self.may,
            Form::Scope(_) => self.scope,
            Form::Policy(_) => self.policy,
            Form::Commit(_) => self.commit,
            Form::Delegation(_) => self.delegation,
            _ => None,
        }
    }
}
