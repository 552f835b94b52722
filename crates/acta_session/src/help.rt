//! The help on the lines of a session.

ghost use Rattle.std.specs.Prelude.{◌≡◌, ◌++◌, ◌∷◌, [], ℕ, List, codes, map, Some, None, IfOk, OnOk};
ghost use Rattle.acta_script.specs.Shell.{shell_kinds};
ghost use Rattle.acta_script.specs.Words.{event_form, shell_form};
ghost use Rattle.acta_session.specs.Help.{IsHelp, IsListOf, can_form, event_kinds, form_of, listed_line};

use acta_script::{CAN_FORM, ShellKind, Topic, event_form};
use acta_table::EventKind;
use std::alloc::{AllocError, Allocator};

// The meaning of a line, and an example.
type Entry = (&'static str, &'static str);

// The command `can`.
const CAN: Entry = (
    "checks whether an event would be admitted, without doing it",
    "can commit 1",
);

// What a command does.
fn command_words(kind: ShellKind) -> &'static str {
    match kind {
        ShellKind::Undo => "takes back the last event, or the last N events",
        ShellKind::Redo => "redoes the next event that was taken back, or the next N",
        ShellKind::Goto => "goes to the place after the first N events, back or forward",
        ShellKind::State => "shows the transactions, the values and the debts",
        ShellKind::Status => "shows the status of transaction T",
        ShellKind::Value => "shows the value of an object",
        ShellKind::Held => "lists the operations in progress that T holds",
        ShellKind::Conflicts => "lists the operations of others that can conflict with one of T",
        ShellKind::Edges => "lists the dependencies in force, or those of transaction T",
        ShellKind::Permits => "lists the permits in force",
        ShellKind::Owed => "lists the events that are owed, and whether each can be paid",
        ShellKind::History => "lists the events with their returns, as `judge` reads them",
        ShellKind::Events => "lists the events, as `run` reads them",
        ShellKind::Draw => "draws the history",
        ShellKind::Why => "explains why the last refused event was refused, or the Nth",
        ShellKind::Next => "lists which events would be admitted now, or those of T",
        ShellKind::Explore => "reads lines of programs, and lists their possible ends from here",
        ShellKind::Help => "lists all lines, or explains one by its first word",
        ShellKind::Quit => "ends the session, as Ctrl-D does",
    }
}

// An example of the command.
fn command_example(kind: ShellKind) -> &'static str {
    match kind {
        ShellKind::Undo => "undo 2",
        ShellKind::Redo => "redo",
        ShellKind::Goto => "goto 0",
        ShellKind::State => "state",
        ShellKind::Status => "status 1",
        ShellKind::Value => "value x",
        ShellKind::Held => "held 1",
        ShellKind::Conflicts => "conflicts 1",
        ShellKind::Edges => "edges 1",
        ShellKind::Permits => "permits",
        ShellKind::Owed => "owed",
        ShellKind::History => "history",
        ShellKind::Events => "events",
        ShellKind::Draw => "draw",
        ShellKind::Why => "why 1",
        ShellKind::Next => "next 1",
        ShellKind::Explore => "explore",
        ShellKind::Help => "help undo",
        ShellKind::Quit => "quit",
    }
}

// The meaning of a command, and an example.
fn command_entry(kind: ShellKind) -> Entry {
    (command_words(kind), command_example(kind))
}

// The meaning of an event of the kind, and an example.
fn event_entry(kind: EventKind) -> Entry {
    match kind {
        EventKind::Begin => ("T begins, as a transaction of a class", "begin 1 part"),
        EventKind::Spawn => ("T spawns its child C, of a class", "spawn 1 2 part"),
        EventKind::Split => (
            "T splits off U, of a class, which gets operations by number, or none by `-`",
            "split 1 2 part 3,4",
        ),
        EventKind::Join => (
            "T joins U, which gets all operations that T holds",
            "join 2 1",
        ),
        EventKind::Delegate => ("T hands operations to U, by number", "delegate 1 2 3,4"),
        EventKind::Form => (
            "a dependency of J on I is formed, of a kind such as CD or AD",
            "form CD 2 1",
        ),
        EventKind::Operate => ("T does an operation on an object", "do 1 x write 5"),
        EventKind::Commit => ("T commits", "commit 1"),
        EventKind::Abort => ("T aborts", "abort 1"),
        EventKind::Permit => (
            "T permits U to conflict with T on an object",
            "permit 1 2 x",
        ),
    }
}

// A line of a list: its form, and its meaning.
#[derive(Clone, Copy)]
struct Listed {
    form: &'static str,
    words: &'static str,
}

// The line of an event of the kind.
fn event_listed(kind: EventKind) -> Listed
    ensures { result.form.now ≡ event_form kind }
{
    let (words, _) = event_entry(kind);
    Listed {
        form: event_form(kind),
        words,
    }
}

// The line of a command.
fn command_listed(kind: ShellKind) -> Listed
    ensures { result.form.now ≡ shell_form kind }
{
    Listed {
        form: kind.form(),
        words: command_words(kind),
    }
}

// The spaces between a form and its meaning, fewer the longer the form is.
const GAP: &[u8] = b"                      ";

// Adds the line of a list.
fn push_listed<A: Allocator>(text: &mut Vec<u8, A>, listed: Listed) -> Result<(), AllocError>
    ensures { OnOk result ((words : List ℕ) × (text.new.items ≡ text.old.items ++ listed_line listed.form.now words)) }
{
    text.extend_from_slice(b"  ")?;
    text.extend_from_slice(listed.form.as_bytes())?;
    text.extend_from_slice(&GAP[listed.form.len().min(GAP.len())..])?;
    text.extend_from_slice(listed.words.as_bytes())?;
    text.extend_from_slice(b"\n")
}

// Adds these lines of a list.
fn push_all<A: Allocator>(text: &mut Vec<u8, A>, all: &[Listed]) -> Result<(), AllocError>
    ensures { OnOk result ((lines : List ℕ) × (text.new.items ≡ text.old.items ++ lines) × IsListOf (map (λ listed. listed.form.now) all.now) lines) }
{
    for listed in all {
        push_listed(text, *listed)?;
    }
    Ok(())
}

// The lines of all events.
fn events() -> [Listed; 10]
    ensures { map (λ listed. listed.form.now) result ≡ map event_form event_kinds }
{
    [
        event_listed(EventKind::Begin),
        event_listed(EventKind::Spawn),
        event_listed(EventKind::Split),
        event_listed(EventKind::Join),
        event_listed(EventKind::Delegate),
        event_listed(EventKind::Form),
        event_listed(EventKind::Operate),
        event_listed(EventKind::Commit),
        event_listed(EventKind::Abort),
        event_listed(EventKind::Permit),
    ]
}

// The lines of all questions and commands.
fn commands() -> [Listed; 20]
    ensures { map (λ listed. listed.form.now) result ≡ can_form ∷ map shell_form shell_kinds }
{
    let (words, _) = CAN;
    [
        Listed {
            form: CAN_FORM,
            words,
        },
        command_listed(ShellKind::Undo),
        command_listed(ShellKind::Redo),
        command_listed(ShellKind::Goto),
        command_listed(ShellKind::State),
        command_listed(ShellKind::Status),
        command_listed(ShellKind::Value),
        command_listed(ShellKind::Held),
        command_listed(ShellKind::Conflicts),
        command_listed(ShellKind::Edges),
        command_listed(ShellKind::Permits),
        command_listed(ShellKind::Owed),
        command_listed(ShellKind::History),
        command_listed(ShellKind::Events),
        command_listed(ShellKind::Draw),
        command_listed(ShellKind::Why),
        command_listed(ShellKind::Next),
        command_listed(ShellKind::Explore),
        command_listed(ShellKind::Help),
        command_listed(ShellKind::Quit),
    ]
}

// The help on all lines.
fn all_text<A: Allocator>(alloc: A) -> Result<Vec<u8, A>, AllocError>
    ensures { IfOk result (λ text. IsHelp None text.items) }
{
    let mut text = Vec::new(alloc);
    text.extend_from_slice(b"events:\n")?;
    push_all(&mut text, &events())?;
    text.extend_from_slice(b"commands:\n")?;
    push_all(&mut text, &commands())?;
    text.extend_from_slice(b"`help WORD` explains the line that begins with the word\n")?;
    Ok(text)
}

// The form of the line that is explained.
fn form_of(topic: Topic) -> &'static str
    ensures { result.now ≡ form_of topic }
{
    match topic {
        Topic::Event(kind) => event_form(kind),
        Topic::Can => CAN_FORM,
        Topic::Command(kind) => kind.form(),
    }
}

// What separates the form from its meaning, which for an event has a subject of its own; the meaning; and an example.
fn explained(topic: Topic) -> (&'static str, Entry) {
    match topic {
        Topic::Event(kind) => (": ", event_entry(kind)),
        Topic::Can => (" ", CAN),
        Topic::Command(kind) => (" ", command_entry(kind)),
    }
}

// The help on one line.
fn topic_text<A: Allocator>(alloc: A, topic: Topic) -> Result<Vec<u8, A>, AllocError>
    ensures { IfOk result (λ text. IsHelp (Some topic) text.items) }
{
    let (gap, (words, example)) = explained(topic);
    let mut text = Vec::new(alloc);
    text.extend_from_slice(b"`")?;
    text.extend_from_slice(form_of(topic).as_bytes())?;
    text.extend_from_slice(b"`")?;
    text.extend_from_slice(gap.as_bytes())?;
    text.extend_from_slice(words.as_bytes())?;
    text.extend_from_slice(b"\nfor example `")?;
    text.extend_from_slice(example.as_bytes())?;
    text.extend_from_slice(b"`\n")?;
    Ok(text)
}

/// The help on all lines of a session, or on one of them. Returns `Err` if memory runs out.
pub(crate) fn help_text<A: Allocator>(
    alloc: A,
    topic: Option<Topic>,
) -> Result<Vec<u8, A>, AllocError>
    ensures { IfOk result (λ text. IsHelp topic text.items) }
{
    match topic {
        Some(topic) => topic_text(alloc, topic),
        None => all_text(alloc),
    }
}
