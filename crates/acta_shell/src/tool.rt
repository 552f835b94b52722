//! The command, over any console.

ghost use Rattle.std.specs.Prelude.{◌≡◌, ◌≢◌, [], false};
ghost use Rattle.acta_io.specs.declared.outcome.Outcome.TheVariants.{Done};
ghost use Rattle.acta_shell.specs.Sessions.{IsSession, IsSessionOn};

use crate::words::ShellWords;
use acta_args::ModelName;
use acta_draw::Screen;
use acta_explain::explain_no_model;
use acta_io::{ModelError, NoModel, Outcome, ReadFault, read_model};
use acta_machine::Handle;
use acta_prose::{Prose, put, put_model_name};
use acta_session::{Console, Shell, converse};
use acta_table::Model;
use std::alloc::AllocError;
use std::io;

/// A console that records whether its input has ended.
#[derive(Drop)]
pub struct NotingEnd<C: Console> {
    inner: C,
    has_ended: bool,
}

impl<C: Console> NotingEnd<C> {
    /// The console, before its first read.
    pub fn new(inner: C) -> NotingEnd<C>
        ensures { result.inner ≡ inner }
    {
        NotingEnd {
            inner,
            has_ended: false,
        }
    }
}

impl<C: Console> Console for NotingEnd<C> {
    ghost since = { λ c acts d. C.since c.inner acts d.inner };

    fn read(&mut self, buf: &mut [u8]) -> io::Result<usize> {
        let n = self.inner.read(buf)?;
        self.has_ended = n == 0;
        Ok(n)
    }

    fn show(&mut self, bytes: &[u8]) -> io::Result<()> {
        self.inner.show(bytes)
    }

    ghost nothing = { λ c. C.nothing c.inner };

    ghost further = { λ c d e xs ys one two. C.further c.inner d.inner e.inner xs ys one two };
}

// The prompt of a terminal.
const PROMPT: &str = "> ";

// The first output on a terminal: the model, how to begin, and the prompt.
fn greeting<A: Handle>(
    alloc: A,
    name: ModelName<'_>,
    model: &Model<A>,
) -> Result<String<A>, AllocError> {
    let (classes, objects) = (model.classes().len(), model.objects().len());
    let prose = put_model_name(Prose::new(alloc).put("acta, "), name);
    let prose = put_count(prose.put(": "), classes, "class", "classes");
    let prose = put_count(prose.put(", "), objects, "object", "objects");
    put!(prose; ". Events or commands; `help` lists them.\n", PROMPT).done()
}

// Adds a number with its noun, singular or plural.
fn put_count<A: Handle>(prose: Prose<A>, count: usize, one: &str, more: &str) -> Prose<A> {
    put!(prose; count, " ", if count == 1 { one } else { more })
}

// Shows these bytes, and returns this outcome if that works.
fn show<C: Console>(console: &mut C, bytes: &[u8], ended: Outcome) -> Outcome
    ensures { result ≡ Done → ended ≡ Done }
{
    match console.show(bytes) {
        Ok(()) => ended,
        Err(_) => Outcome::Unwritten,
    }
}

// Shows what is wrong with the bytes of a model.
fn refuse<A: Handle, C: Console>(
    alloc: A,
    name: ModelName<'_>,
    bytes: &[u8],
    fault: NoModel,
    console: &mut C,
) -> Outcome
    ensures { result ≢ Done }
{
    match explain_no_model(alloc, name, bytes, fault) {
        Ok(report) => show(console, report.text.as_slice(), Outcome::Refused),
        Err(_) => Outcome::Unread(ReadFault::Memory),
    }
}

// Answers the lines of the console.
fn answer<A: Handle, C: Console>(
    alloc: A,
    model: Model<A>,
    screen: Screen,
    prompt: &[u8],
    console: &mut C,
) -> Outcome
    ensures { result ≡ Done → IsSession prompt.now model (C.since console.old) console.new }
{
    match Shell::new(alloc, model, ShellWords::new(alloc, screen)) {
        Ok(mut shell) => converse(alloc, console, &mut shell, prompt),
        Err(_) => Outcome::Unread(ReadFault::Memory),
    }
}

// Greets, and answers the lines of a terminal. If its input ends, ends the line, so that the terminal's next output is on a
// line of its own.
fn answer_terminal<A: Handle, C: Console>(
    alloc: A,
    name: ModelName<'_>,
    model: Model<A>,
    screen: Screen,
    console: &mut NotingEnd<C>,
) -> Outcome {
    let Ok(greeting) = greeting(alloc, name, &model) else {
        return Outcome::Unread(ReadFault::Memory);
    };
    match show(console, greeting.as_str().as_bytes(), Outcome::Done) {
        Outcome::Done => {}
        ended => return ended,
    }
    match answer(alloc, model, screen, PROMPT.as_bytes(), console) {
        Outcome::Done if console.has_ended => show(console, b"\n", Outcome::Done),
        ended => ended,
    }
}

/// Answers each line of the console at once, on the model of these bytes and this name, until a line or the end of the input
/// ends the session. A terminal gets a greeting and a prompt. Returns `Refused` if the bytes are not a model, after showing
/// that, and `Unread` and `Unwritten` as `converse` does.
pub fn shell_tool<A: Handle, C: Console>(
    alloc: A,
    name: ModelName<'_>,
    bytes: &[u8],
    screen: Screen,
    is_terminal: bool,
    console: &mut NotingEnd<C>,
) -> Outcome
    ensures piped { is_terminal ≡ false → result ≡ Done → IsSessionOn A [] bytes.now (C.since console.old.inner) console.new.inner }
{
    match read_model(alloc, bytes) {
        Ok(model) if is_terminal => answer_terminal(alloc, name, model, screen, console),
        Ok(model) => answer(alloc, model, screen, b"", console),
        Err(ModelError::Fault(fault)) => refuse(alloc, name, bytes, fault, console),
        Err(ModelError::Memory) => Outcome::Unread(ReadFault::Memory),
    }
}
