//! A writer that records whether a write has failed.

ghost use Rattle.std.specs.Prelude.{◌≡◌, ℕ, List, Bool, Option, OnOk, OnErr, true, false};
ghost use Rattle.std.specs.Io.KnownBytes.{Appends};

use std::io;
use std::io::Write;

/// A writer that records whether a write has failed.
pub trait Sink {
    ghost contents: { Self → Option (List ℕ) };

    ghost has_failed: { Self → Bool };

    /// Writes all the bytes, and flushes them. On `Err` part of them may have been written.
    fn put(&mut self, bytes: &[u8]) -> io::Result<()>
        ensures bytes { OnOk result (Appends (contents self.old) (contents self.new) bytes.now) }
        ensures worked { OnOk result (has_failed self.new ≡ has_failed self.old) }
        ensures failed { OnErr result (has_failed self.new ≡ true) };
}

/// A writer, with whether a write has failed.
#[derive(Drop)]
pub struct Watched<W: Write> {
    inner: W,
    has_failed: bool,
}

impl<W: Write> Watched<W> {
    /// Wraps a writer before its first write.
    pub fn new(inner: W) -> Watched<W>
        ensures failed { result.has_failed ≡ false }
        ensures same { result.inner ≡ inner }
    {
        Watched {
            inner,
            has_failed: false,
        }
    }

    // Writes all the bytes to the inner writer, and flushes them.
    fn put_through(&mut self, bytes: &[u8]) -> io::Result<()>
        ensures bytes { OnOk result (Appends (W.contents self.old.inner) (W.contents self.new.inner) bytes.now) }
        ensures failed { self.new.has_failed ≡ self.old.has_failed }
    {
        self.inner.write_all(bytes)?;
        self.inner.flush()
    }
}

impl<W: Write> Sink for Watched<W> {
    ghost contents = { λ s. W.contents s.inner };

    ghost has_failed = { λ s. s.has_failed };

    fn put(&mut self, bytes: &[u8]) -> io::Result<()> {
        let result = self.put_through(bytes);
        if result.is_err() {
            self.has_failed = true;
        }
        result
    }
}
