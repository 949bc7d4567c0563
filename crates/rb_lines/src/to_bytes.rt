//! Bytes in memory, to write lines to.
ghost use Rattle.std.specs.Prelude.{◌≡◌, [], false};

use crate::sink::{Sink, WriteFailed};
use std::alloc::Global;

/// A writer that keeps what it takes in memory: up to `piece` bytes a write, and up to `left` more in all. Then it
/// takes nothing.
#[derive(Drop)]
pub struct ToBytes {
    pub taken: Vec<u8>,
    pub piece: usize,
    pub left: usize,
    pub failed: bool,
}

impl ToBytes {
    /// A writer that takes all, as long as there is memory.
    pub fn new(alloc: Global) -> ToBytes
        ensures taken { result.taken.items ≡ [] }
        ensures fresh { result.failed ≡ false }
    {
        ToBytes::up_to(alloc, usize::MAX, usize::MAX)
    }

    /// A writer that takes up to `piece` bytes a write, and up to `left` in all.
    pub fn up_to(alloc: Global, piece: usize, left: usize) -> ToBytes
        ensures taken { result.taken.items ≡ [] }
        ensures piece { result.piece ≡ piece }
        ensures left { result.left ≡ left }
        ensures fresh { result.failed ≡ false }
    {
        ToBytes {
            taken: Vec::new(alloc),
            piece,
            left,
            failed: false,
        }
    }
}

impl Sink for ToBytes {
    ghost use Rattle.std.specs.Prelude.{◌+◌, ◌≤◌, ◌||◌, Some, length, min, IfOk, OnErr};
    ghost use Rattle.std.specs.Io.KnownBytes.{WriteAppends};
    ghost use Rattle.rb_lines.specs.Writes.{moved_nothing};

    ghost contents = { λ s. Some s.taken.items };

    ghost failed = { λ s. s.failed };

    fn write(&mut self, buf: &[u8]) -> Result<usize, WriteFailed>
        // As for every sink.
        ensures bound { IfOk result (λ n. n ≤ length buf.now) }
        ensures bytes { WriteAppends (Some self.old.taken.items) (Some self.new.taken.items) result buf.now }
        ensures failed { self.new.failed ≡ (self.old.failed || moved_nothing result) }

        // As much as it may take.
        ensures count { IfOk result (λ n. (n ≡ min (min self.old.piece self.old.left) (length buf.now))
            × (self.new.left + n ≡ self.old.left)) }
        ensures same { (self.new.piece ≡ self.old.piece) × OnErr result (self.new.left ≡ self.old.left) }
    {
        let n = self.piece.min(self.left).min(buf.len());
        if self.taken.extend_from_slice(&buf[..n]).is_err() {
            self.failed = true;
            return Err(WriteFailed);
        }
        self.failed = self.failed || n == 0;
        self.left -= n;
        Ok(n)
    }
}
