//! The trait of a source, from which a script is read.
ghost use Rattle.std.specs.Prelude.{◌≡◌, ◌+◌, ◌-◌, ◌^◌, ◌≤◌, ◌||◌, ℕ, Bool, List, Option, min, length, is_err, IfOk};
ghost use Rattle.std.specs.Io.KnownBytes.{ReadConsumes};

/// A read failed.
#[derive(Clone, Copy, Debug, PartialEq, Eq)]
pub struct ReadFailed;

/// A source of bytes.
pub trait Source {
    // The bytes that reads will give from here on, if they are known.
    ghost remaining: { Self → Option (List ℕ) };

    // Whether a read has failed.
    ghost failed: { Self → Bool };

    // How often it was read from, up to `u64::MAX`.
    ghost calls: { Self → ℕ };

    /// Reads into the first bytes of the buffer, and says how many: 0 only at the end, or if the buffer is empty.
    fn read(&mut self, buf: &mut [u8]) -> Result<usize, ReadFailed>
        ensures bound { IfOk result (λ n. n ≤ length buf.new) }
        ensures bytes { ReadConsumes (remaining self.old) (remaining self.new) result buf.new }
        ensures failed { failed self.new ≡ (failed self.old || is_err result) }
        ensures calls { calls self.new ≡ min (calls self.old + 1) (2 ^ 64 - 1) };
}
