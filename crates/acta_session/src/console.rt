//! A console: a session reads bytes from it and shows bytes on it.

ghost use Rattle.std.specs.Prelude.{◌≡◌, ◌<◌, List, [], ◌∷◌, ◌++◌, length, take, IfOk, OnOk};
ghost use Rattle.std.specs.Io.{ReadsAtMost};
ghost use Rattle.acta_session.specs.Dialogues.{Act, Read as read_act, Shown};

use std::io;
use std::io::{Read, Write};

/// Where a session reads its lines and shows its replies.
pub trait Console {
    // The reads and writes between two states of the console.
    ghost since: { Self → List Act → Self → Type 0 };

    /// Reads into the buffer, as `Read::read` does. 0 bytes mean the end of the input.
    fn read(&mut self, buf: &mut [u8]) -> io::Result<usize>
        ensures bound { ReadsAtMost result buf.new }
        ensures read { IfOk result (λ n. 0 < length buf.new → since self.old (read_act (take n buf.new) ∷ []) self.new) };

    /// Writes all the bytes, and flushes them. On `Err` part of them may have been written.
    fn show(&mut self, bytes: &[u8]) -> io::Result<()>
        ensures shown { OnOk result (since self.old (Shown bytes.now ∷ []) self.new) };

    // Nothing happens between a state and itself, and the acts of two consecutive stretches add up.
    ghost nothing: { (c : Self) → since c [] c };

    ghost further: { (c d e : Self) (xs ys : List Act) → since c xs d → since d ys e → since c (xs ++ ys) e };
}

/// A reader and a writer as a console. Contracts see the bytes that the reader has left and those that were written, if
/// known.
#[derive(Drop)]
pub struct Streams<R: Read, W: Write> {
    reader: R,
    writer: W,
}

impl<R: Read, W: Write> Streams<R, W> {
    /// The console with this reader and this writer.
    pub fn new(reader: R, writer: W) -> Streams<R, W>
        ensures reader { result.reader ≡ reader }
        ensures writer { result.writer ≡ writer }
    {
        Streams { reader, writer }
    }
}

impl<R: Read, W: Write> Console for Streams<R, W> {
    ghost use Rattle.acta_session.specs.inside.Streams.{IsSince, since-nothing, since-further};

    ghost since = { λ c acts d. IsSince (R.remaining c.reader) (W.contents c.writer) acts (R.remaining d.reader) (W.contents d.writer) };

    fn read(&mut self, buf: &mut [u8]) -> io::Result<usize> {
        self.reader.read(buf)
    }

    fn show(&mut self, bytes: &[u8]) -> io::Result<()> {
        self.writer.write_all(bytes)?;
        self.writer.flush()
    }

    ghost nothing = { λ c. since-nothing (R.remaining c.reader) (W.contents c.writer) };

    ghost further = { λ c d e xs ys one two. since-further (R.remaining c.reader) (W.contents c.writer) (R.remaining d.reader) (W.contents d.writer) (R.remaining e.reader) (W.contents e.writer) xs ys one two };
}
