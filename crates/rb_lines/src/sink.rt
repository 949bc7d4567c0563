//! The trait of a sink, to which a script's replies are written.
ghost use Rattle.std.specs.Prelude.{◌≡◌, ◌≤◌, ◌||◌, ℕ, Bool, List, Option, length, IfOk};
ghost use Rattle.std.specs.Io.KnownBytes.{WriteAppends};
ghost use Rattle.rb_lines.specs.Writes.{moved_nothing};

/// A write failed.
#[derive(Clone, Copy, Debug, PartialEq, Eq)]
pub struct WriteFailed;

/// A destination for bytes.
pub trait Sink {
    // The bytes that were written, if they are known.
    ghost contents: { Self → Option (List ℕ) };

    // Whether a write has failed, or has taken nothing.
    ghost failed: { Self → Bool };

    /// Writes the first bytes of the buffer, and says how many.
    fn write(&mut self, buf: &[u8]) -> Result<usize, WriteFailed>
        ensures bound { IfOk result (λ n. n ≤ length buf.now) }
        ensures bytes { WriteAppends (contents self.old) (contents self.new) result buf.now }
        ensures failed { failed self.new ≡ (failed self.old || moved_nothing result) };
}
