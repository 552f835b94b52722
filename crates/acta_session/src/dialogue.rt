//! A session at a console, from its first line to its end.

ghost use Rattle.std.specs.Prelude.{◌≡◌, ◌≢◌, ◌++◌, ℕ, List, [], ◌∷◌, if◌then◌else◌, false, true, Err, IfOk, IfErr, OnOk};
ghost use Rattle.acta_io.specs.declared.outcome.Outcome.TheVariants.{Done, Unread};
ghost use Rattle.acta_session.specs.Dialogues.{Act, Shown, HasBegun, IsDialogue, IsShownFor, at_start, cut, ending, last_lines};
ghost use Rattle.acta_session.specs.Shells.{after_line, quits};
ghost use Rattle.acta_session.specs.inside.Talks.{HasTalked, at_front};

use crate::console::Console;
use crate::shell::{Reply, Shell};
use crate::words::Words;
use acta_io::{Outcome, ReadFault};
use acta_machine::{Handle, Machine};
use acta_script::ProgramLine;
use acta_table::{Event, Model};
use std::alloc::{AllocError, Allocator};

// The most reads of a session.
const MOST_READS: u32 = u32::MAX;

// A reply, and then the prompt, unless the session is over.
fn with_prompt<A: Allocator>(
    mut text: Vec<u8, A>,
    prompt: &[u8],
    is_over: bool,
) -> Result<Vec<u8, A>, AllocError>
    ensures { IfOk result (λ shown. shown.items ≡ text.items ++ (if is_over then [] else prompt.now)) }
{
    if !is_over {
        text.extend_from_slice(prompt)?;
    }
    Ok(text)
}

// Shows the reply to a line, and then the prompt, unless the line ends the session. Returns whether it does.
fn answer<
    A: Handle,
    W: Words<Event<A>, Machine<A>, Model<A>, ProgramLine<A>, Vec<u8, A>>,
    C: Console,
>(console: &mut C, shell: &mut Shell<A, W>, prompt: &[u8], line: &[u8]) -> Result<bool, Outcome>
    ensures shown { IfOk result (λ over. (bytes : List _) × IsShownFor W.says W.says_ends prompt.now shell.old line.now bytes × C.since console.old (Shown bytes ∷ []) console.new) }
    ensures session { OnOk result (shell.new ≡ after_line shell.old line.now) }
    ensures over { IfOk result (λ over. over ≡ quits shell.old line.now) }
    ensures failed { IfErr result (λ outcome. outcome ≢ Done) }
    ensures silent { result ≡ Err (Unread ReadFault.Memory) → console.new ≡ console.old }
{
    let Ok(Reply { text, is_over }) = shell.respond(line) else {
        return Err(Outcome::Unread(ReadFault::Memory));
    };
    let Ok(text) = with_prompt(text, prompt, is_over) else {
        return Err(Outcome::Unread(ReadFault::Memory));
    };
    match console.show(text.as_slice()) {
        Ok(()) => Ok(is_over),
        Err(_) => Err(Outcome::Unwritten),
    }
}

// Takes a byte: the end of a line, which is answered, or one more byte of it. Returns whether the line ends the session.
fn take_byte<
    A: Handle,
    W: Words<Event<A>, Machine<A>, Model<A>, ProgramLine<A>, Vec<u8, A>>,
    C: Console,
>(
    console: &mut C,
    shell: &mut Shell<A, W>,
    prompt: &[u8],
    front: &mut Vec<u8, A>,
    byte: u8,
) -> Result<bool, Outcome>
    ensures talked { IfOk result (λ over. (rest : List ℕ) → HasTalked (IsShownFor W.says W.says_ends prompt.now) (C.since console.old) console.new (at_front shell.old (cut front.old.items (byte ∷ rest))) shell.new (if over then [] else (cut front.new.items rest).lines) (cut front.old.items (byte ∷ rest)).front over) }
    ensures front { IfOk result (λ over. over ≡ false → (rest : List ℕ) → (cut front.old.items (byte ∷ rest)).front ≡ (cut front.new.items rest).front) }
    ensures failed { IfErr result (λ outcome. outcome ≢ Done) }
    ensures silent { result ≡ Err (Unread ReadFault.Memory) → console.new ≡ console.old }
{
    if byte != b'\n' {
        return match front.push(byte) {
            Ok(()) => Ok(false),
            Err(_) => Err(Outcome::Unread(ReadFault::Memory)),
        };
    }
    let is_over = answer(console, shell, prompt, front.as_slice())?;
    front.clear();
    Ok(is_over)
}

// Answers the lines that these bytes complete; `front` has the start of the first of them. Returns whether one of them ends
// the session; the lines after that are not answered.
fn answer_lines<
    A: Handle,
    W: Words<Event<A>, Machine<A>, Model<A>, ProgramLine<A>, Vec<u8, A>>,
    C: Console,
>(
    console: &mut C,
    shell: &mut Shell<A, W>,
    prompt: &[u8],
    front: &mut Vec<u8, A>,
    bytes: &[u8],
) -> Result<bool, Outcome>
    ensures talked { IfOk result (λ over. HasTalked (IsShownFor W.says W.says_ends prompt.now) (C.since console.old) console.new (at_front shell.old (cut front.old.items bytes.now)) shell.new [] (cut front.old.items bytes.now).front over) }
    ensures front { IfOk result (λ over. over ≡ false → front.new.items ≡ (cut front.old.items bytes.now).front) }
    ensures failed { IfErr result (λ outcome. outcome ≢ Done) }
    ensures partly { result ≡ Err (Unread ReadFault.Memory) → HasBegun (IsShownFor W.says W.says_ends prompt.now) (C.since console.old) console.new (at_front shell.old (cut front.old.items bytes.now)) }
{
    for byte in bytes {
        let is_over = take_byte(console, shell, prompt, front, *byte)?;
        if is_over {
            return Ok(true);
        }
    }
    Ok(false)
}

/// Reads lines from the console and answers each, until one ends the session or the input ends; the prompt follows each
/// reply. Reads more only after all lines read so far are answered, and the replies written and flushed. Returns `Done` at
/// the end, `Unread(Device)` if a read fails, `Unread(Memory)` if memory runs out, `Unwritten` if a reply cannot be shown,
/// and `Unread(TooMuch)` after 4,294,967,295 reads. If memory runs out, the replies to the first lines have been shown.
pub fn converse<
    A: Handle,
    W: Words<Event<A>, Machine<A>, Model<A>, ProgramLine<A>, Vec<u8, A>>,
    C: Console,
>(alloc: A, console: &mut C, shell: &mut Shell<A, W>, prompt: &[u8]) -> Outcome
    ensures done { result ≡ Done → (acts : List Act) × C.since console.old acts console.new × IsDialogue (IsShownFor W.says W.says_ends prompt.now) shell.old acts shell.new }
    ensures partly { result ≡ Unread ReadFault.Memory → HasBegun (IsShownFor W.says W.says_ends prompt.now) (C.since console.old) console.new (at_start shell.old) }
{
    let mut front = Vec::new(alloc);
    let mut chunk = [0u8; 4096];
    for _ in 0..MOST_READS {
        let n = match console.read(&mut chunk) {
            Ok(n) => n,
            Err(_) => return Outcome::Unread(ReadFault::Device),
        };
        if n == 0 {
            return answer_last(console, shell, prompt, front.as_slice());
        }
        match answer_lines(console, shell, prompt, &mut front, &chunk[..n]) {
            Ok(false) => {}
            Ok(true) => return Outcome::Done,
            Err(outcome) => return outcome,
        }
    }
    Outcome::Unread(ReadFault::TooMuch)
}

// Answers the end of the input: if lines of programs are read, it ends them as an empty line does.
fn answer_end<
    A: Handle,
    W: Words<Event<A>, Machine<A>, Model<A>, ProgramLine<A>, Vec<u8, A>>,
    C: Console,
>(console: &mut C, shell: &mut Shell<A, W>, prompt: &[u8]) -> Outcome
    ensures done { result ≡ Done → HasTalked (IsShownFor W.says W.says_ends prompt.now) (C.since console.old) console.new (record { session = shell.old; due = ending shell.old; front = []; is_over = true }) shell.new [] [] true }
    ensures silent { result ≡ Unread ReadFault.Memory → console.new ≡ console.old }
{
    if !shell.is_exploring() {
        return Outcome::Done;
    }
    match answer(console, shell, prompt, b"") {
        Ok(_) => Outcome::Done,
        Err(outcome) => outcome,
    }
}

// Answers a last line without a line feed, unless it is empty, and then the end of the input.
fn answer_last<
    A: Handle,
    W: Words<Event<A>, Machine<A>, Model<A>, ProgramLine<A>, Vec<u8, A>>,
    C: Console,
>(console: &mut C, shell: &mut Shell<A, W>, prompt: &[u8], line: &[u8]) -> Outcome
    ensures done { result ≡ Done → HasTalked (IsShownFor W.says W.says_ends prompt.now) (C.since console.old) console.new (record { session = shell.old; due = last_lines shell.old line.now; front = []; is_over = true }) shell.new [] [] true }
    ensures partly { result ≡ Unread ReadFault.Memory → HasBegun (IsShownFor W.says W.says_ends prompt.now) (C.since console.old) console.new (record { session = shell.old; due = last_lines shell.old line.now; front = []; is_over = true }) }
{
    if line.is_empty() {
        return answer_end(console, shell, prompt);
    }
    match answer(console, shell, prompt, line) {
        Ok(true) => Outcome::Done,
        Ok(false) => answer_end(console, shell, prompt),
        Err(outcome) => outcome,
    }
}
