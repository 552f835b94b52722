//! Reads all bytes of a reader. The reads are counted, so that a contract can state how often it was read and whether a read
//! failed.

ghost use Rattle.std.specs.Prelude.{◌≡◌, ◌≤◌, ◌+◌, ◌<◌, ◌^◌, ◌-◌, ℕ, min, List, Bool, Option, length, vec_len, IfOk, IfErr, OnOk, OnErr, IfSome, MatchResult, None, Some, true, false};
ghost use Rattle.std.specs.Io.{ReadsAtMost};
ghost use Rattle.std.specs.Io.KnownBytes.{ReadConsumes};
ghost use Rattle.acta_io.specs.Outcome.{FailsBy, IsUnreadTooLong};
ghost use Rattle.acta_io.specs.declared.source.ReadFault.TheVariants.{TooMuch as too_much};

use std::alloc::Allocator;
use std::io;
use std::io::Read;

/// The most bytes of an input or a model.
pub const MOST_BYTES: usize = 16_777_216;

const MOST_READS: u32 = 16_777_217;

/// Why the input was not read, or not answered.
#[derive(Clone, Copy, Debug, PartialEq, Eq)]
pub enum ReadFault {
    /// A read failed.
    Device,
    /// The reader has more than 16,777,216 bytes, or it doesn't end.
    TooMuch,
    /// Memory ran out for the bytes, or for their answer.
    Memory,
}

/// A reader that records how often it was read, up to 4,294,967,295 times, and whether a read has failed.
pub trait Source {
    ghost remaining: { Self → Option (List ℕ) };

    ghost reads: { Self → ℕ };

    ghost has_failed: { Self → Bool };

    /// Reads into the buffer, as `Read::read` does.
    fn read(&mut self, buf: &mut [u8]) -> io::Result<usize>
        ensures bound { ReadsAtMost result buf.new }
        ensures bytes { ReadConsumes (remaining self.old) (remaining self.new) result buf.new }
        ensures counted { reads self.new ≡ min (reads self.old + 1) (2 ^ 32 - 1) }
        ensures failed { OnErr result (has_failed self.new ≡ true) }
        ensures worked { OnOk result (has_failed self.new ≡ has_failed self.old) };
}

/// A reader, with the number of its reads and whether one has failed.
#[derive(Drop)]
pub struct Metered<R: Read> {
    inner: R,
    reads: u32,
    has_failed: bool,
}

impl<R: Read> Metered<R> {
    /// Wraps a reader before its first read.
    pub fn new(inner: R) -> Metered<R>
        ensures reads { result.reads ≡ 0 }
        ensures failed { result.has_failed ≡ false }
        ensures same { result.inner ≡ inner }
    {
        Metered {
            inner,
            reads: 0,
            has_failed: false,
        }
    }
}

impl<R: Read> Source for Metered<R> {
    ghost remaining = { λ m. R.remaining m.inner };

    ghost reads = { λ m. m.reads };

    ghost has_failed = { λ m. m.has_failed };

    fn read(&mut self, buf: &mut [u8]) -> io::Result<usize> {
        self.reads = self.reads.saturating_add(1);
        let result = self.inner.read(buf);
        if result.is_err() {
            self.has_failed = true;
        }
        result
    }
}

/// Reads all bytes of the reader, at most 16,777,216, with at most one more read than that. Returns `Device` if a read
/// fails, after which no other read follows; `TooMuch` if the reader has more bytes or doesn't end; `Memory` if memory runs
/// out.
pub fn read_all<A: Allocator, S: Source>(alloc: A, reader: &mut S) -> Result<Vec<u8, A>, ReadFault>
    ensures bytes { IfOk result (λ v. IfSome (S.remaining reader.old) (λ xs. v.items ≡ xs)) }
    ensures size { IfOk result (λ v. vec_len v ≤ 16777216) }
    ensures too_much { IfErr result (λ e. e ≡ too_much → IfSome (S.remaining reader.old) (λ xs. 16777216 < length xs)) }
    ensures reads { S.reads reader.new ≤ S.reads reader.old + 16777217 }
    // If no read had failed before, `Device` is returned exactly if a read fails.
    ensures failed { MatchResult result (λ _. FailsBy None (S.has_failed reader.old) (S.has_failed reader.new)) (λ e. FailsBy (Some e) (S.has_failed reader.old) (S.has_failed reader.new)) }
{
    let mut bytes = Vec::new(alloc);
    let mut chunk = [0u8; 4096];
    for _ in 0..MOST_READS {
        let n = match reader.read(&mut chunk) {
            Ok(n) => n,
            Err(_) => return Err(ReadFault::Device),
        };
        if n == 0 {
            return Ok(bytes);
        }
        if MOST_BYTES - bytes.len() < n {
            return Err(ReadFault::TooMuch);
        }
        if bytes.extend_from_slice(&chunk[..n]).is_err() {
            return Err(ReadFault::Memory);
        }
    }
    Err(ReadFault::TooMuch)
}

/// Reads the whole input, if the model is not too long. Returns `Device`, `TooMuch` and `Memory` as `read_all` does, and
/// also `TooMuch` if the model has more than 16,777,216 bytes.
pub fn read_within<A: Allocator, S: Source>(
    alloc: A,
    model: &[u8],
    input: &mut S,
) -> Result<Vec<u8, A>, ReadFault>
    ensures bytes { IfOk result (λ v. IfSome (S.remaining input.old) (λ xs. v.items ≡ xs)) }
    ensures too_long { MatchResult result (λ _. IsUnreadTooLong model.now (S.remaining input.old) None) (λ e. IsUnreadTooLong model.now (S.remaining input.old) (Some e)) }
    ensures reads { S.reads input.new ≤ S.reads input.old + 16777217 }
    ensures failed { MatchResult result (λ _. FailsBy None (S.has_failed input.old) (S.has_failed input.new)) (λ e. FailsBy (Some e) (S.has_failed input.old) (S.has_failed input.new)) }
{
    let bytes = read_all(alloc, input)?;
    if model.len() > MOST_BYTES {
        return Err(ReadFault::TooMuch);
    }
    Ok(bytes)
}
