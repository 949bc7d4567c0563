//! Bytes in memory, to read lines from.
ghost use Rattle.std.specs.Prelude.{◌≡◌, ◌<◌, false};

use crate::source::{ReadFailed, Source};

/// A reader of bytes in memory. It gives up to `piece` of them a read, and then the end, or, if `fails`, a read that
/// fails.
#[derive(Drop)]
pub struct FromBytes<'a> {
    pub rest: &'a [u8],
    pub piece: usize,
    pub fails: bool,
    pub failed: bool,
    pub calls: u64,
    ghost some: { 0 < piece },
}

impl<'a> FromBytes<'a> {
    /// A reader that gives as much as is asked for, and then the end.
    pub fn new(bytes: &'a [u8]) -> FromBytes<'a>
        ensures rest { result.rest.now ≡ bytes.now }
        ensures ends { result.fails ≡ false }
        ensures calls { result.calls ≡ 0 }
        ensures fresh { result.failed ≡ false }
    {
        FromBytes::in_pieces(bytes, usize::MAX, false)
    }

    /// A reader that gives up to `piece` bytes a read, and then the end, or a read that fails.
    pub fn in_pieces(bytes: &'a [u8], piece: usize, fails: bool) -> FromBytes<'a>
        requires { 0 < piece }
        ensures rest { result.rest.now ≡ bytes.now }
        ensures piece { result.piece ≡ piece }
        ensures ends { result.fails ≡ fails }
        ensures calls { result.calls ≡ 0 }
        ensures fresh { result.failed ≡ false }
    {
        FromBytes {
            rest: bytes,
            piece,
            fails,
            failed: false,
            calls: 0,
        }
    }
}

impl Source for FromBytes<'_> {
    ghost use Rattle.std.specs.Prelude.{◌+◌, ◌-◌, ◌^◌, ◌≤◌, ◌||◌, [], Some, true, length, min, is_err};
    ghost use Rattle.std.specs.Prelude.{IfOk, IsErr, OnErr};
    ghost use Rattle.std.specs.Io.KnownBytes.{ReadConsumes};

    ghost remaining = { λ s. Some s.rest.now };

    ghost failed = { λ s. s.failed };

    ghost calls = { λ s. s.calls };

    fn read(&mut self, buf: &mut [u8]) -> Result<usize, ReadFailed>
        // As for every source.
        ensures bound { IfOk result (λ n. n ≤ length buf.new) }
        ensures bytes { ReadConsumes (Some self.old.rest.now) (Some self.new.rest.now) result buf.new }
        ensures failed { self.new.failed ≡ (self.old.failed || is_err result) }
        ensures calls { self.new.calls ≡ min (self.old.calls + 1) (2 ^ 64 - 1) }

        // As much as there is, and a failure after the last byte alone, at each read there.
        ensures count { IfOk result (λ n. n ≡ min (min self.old.piece (length self.old.rest.now)) (length buf.old)) }
        ensures err { OnErr result ((self.old.rest.now ≡ []) × (self.old.fails ≡ true)) }
        ensures fails { self.old.rest.now ≡ [] → self.old.fails ≡ true → IsErr result }
        ensures same { (self.new.piece ≡ self.old.piece) × (self.new.fails ≡ self.old.fails) }
    {
        self.calls = self.calls.saturating_add(1);
        if self.rest.is_empty() && self.fails {
            self.failed = true;
            return Err(ReadFailed);
        }
        let n = self.piece.min(self.rest.len()).min(buf.len());
        let (front, rest) = self.rest.split_at(n);
        buf[..n].copy_from_slice(front);
        self.rest = rest;
        Ok(n)
    }
}
