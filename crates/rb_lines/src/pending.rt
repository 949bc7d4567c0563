//! Bytes that were read and not yet answered. They are one slice, so a line is answered where it was read, without a
//! copy. The queue knows how far it was searched for a line feed, so a line that comes in many reads isn't searched
//! from its start at each of them. Before a read, what waits is moved to the front, each byte once at most.
ghost use Rattle.std.specs.Prelude.{◌≡◌, ◌+◌, ◌-◌, ◌^◌, ◌≤◌, ◌||◌, [], Ok, length, take, drop, min, is_err};
ghost use Rattle.std.specs.Prelude.{MatchResult, IfOk, OnOk, OnErr};
ghost use Rattle.std.specs.Io.KnownBytes.{IsAtEnd, Keeps};
ghost use Rattle.rb_lines.specs.Lines.{line_len};
ghost use Rattle.rb_lines.specs.Buffers.{Reads};
ghost use Rattle.rb_lines.specs.declared.limits.TheConstants.{READ_SIZE};

use crate::feed::line_length;
use crate::limits::READ_SIZE;
use crate::source::{ReadFailed, Source};
use std::alloc::{AllocError, Global};
use std::marker::Model;

/// A queue of the bytes that wait, which is read as one slice, from `start` to `end`; after them is space for reads.
/// It knows how far it was searched for a line feed, so each byte is looked at once.
#[derive(Drop)]
pub struct Pending {
    bytes: Vec<u8>,
    start: usize,
    searched: usize,
    end: usize,
}

impl Model for Pending {
    ghost use Rattle.std.specs.Prelude.{ℕ, List, slice_range, ◌≤◌, length};
    ghost use Rattle.rb_lines.specs.Lines.{line_len};

    ghost Value = { List ℕ };

    ghost view = { λ p. slice_range p.bytes.items p.start p.end };

    // There is no line feed in the part that was searched.
    ghost invariant = { λ p. (p.start ≤ p.end) × (p.end ≤ length p.bytes.items)
        × (p.searched ≤ line_len (slice_range p.bytes.items p.start p.end)) };
}

/// Makes space for a read after the first `end` bytes, which stay. An `Err` means out of memory.
fn make_room(bytes: &mut Vec<u8>, end: usize) -> Result<(), AllocError>
    requires { end ≤ length bytes.old.items }
    ensures front { take end bytes.new.items ≡ take end bytes.old.items }
    ensures room { OnOk result (end + READ_SIZE ≤ length bytes.new.items) }
    ensures within { end ≤ length bytes.new.items }
{
    if bytes.len() - end >= READ_SIZE {
        return Ok(());
    }
    bytes.resize(end + READ_SIZE, 0)
}

/// Reads once, into the space after the first `end` bytes, which stay.
fn read_behind<S: Source>(
    bytes: &mut Vec<u8>,
    end: usize,
    reader: &mut S,
) -> Result<usize, ReadFailed>
    requires { end + READ_SIZE ≤ length bytes.old.items }
    ensures front { take end bytes.new.items ≡ take end bytes.old.items }
    ensures bytes { MatchResult result
        (λ n. Reads (take end bytes.old.items) (take (end + n) bytes.new.items) (S.remaining reader.old)
        (S.remaining reader.new))
        (λ _. Keeps (S.remaining reader.old) (S.remaining reader.new)) }
    ensures bound { IfOk result (λ n. n ≤ READ_SIZE) }
    ensures room { end + READ_SIZE ≤ length bytes.new.items }
    ensures end { result ≡ Ok 0 → IsAtEnd (S.remaining reader.new) }
    ensures failed { S.failed reader.new ≡ (S.failed reader.old || is_err result) }
    ensures calls { S.calls reader.new ≡ min (S.calls reader.old + 1) (2 ^ 64 - 1) }
{
    match reader.read(&mut bytes[end..end + READ_SIZE]) {
        Ok(n) => Ok(n),
        Err(failed) => Err(failed),
    }
}

impl Pending {
    /// No bytes.
    pub fn new(alloc: Global) -> Pending
        ensures { result ≡ [] }
    {
        Pending {
            bytes: Vec::new(alloc),
            start: 0,
            searched: 0,
            end: 0,
        }
    }

    /// All of them.
    pub fn as_slice(&self) -> &[u8]
        ensures { result.now ≡ self.now }
    {
        &self.bytes[self.start..self.end]
    }

    /// The length of the line at the front: the bytes before the first line feed, or all of them.
    #[inline(always)]
    pub fn first_line(&mut self) -> usize
        ensures length { result ≡ line_len self.old }
        ensures within { result ≤ length self.old }
        ensures same { self.new ≡ self.old }
    {
        let searched = self.searched;
        let found = searched + line_length(&self.as_slice()[searched..]);
        self.searched = found;
        found
    }

    /// Takes bytes off the front.
    pub fn skip(&mut self, n: usize)
        requires { n ≤ length self.old }
        ensures { self.new ≡ drop n self.old }
    {
        self.start += n;
        self.searched = 0;
    }

    /// Moves the bytes to the front. Each byte is moved once at most: a line that isn't whole stays there.
    fn compact(&mut self)
        ensures { self.new ≡ self.old }
    {
        let (start, end) = (self.start, self.end);
        if start == 0 {
            return;
        }
        self.bytes.copy_within(start..end, 0);
        self.end = end - start;
        self.start = 0;
    }

    /// Reads once, to the end of the bytes. An `Err` means out of memory: there was no read then.
    pub fn read<S: Source>(
        &mut self,
        reader: &mut S,
    ) -> Result<Result<usize, ReadFailed>, AllocError>
        ensures bytes { IfOk result (λ read. MatchResult read
            (λ _. Reads self.old self.new (S.remaining reader.old) (S.remaining reader.new))
            (λ _. (self.new ≡ self.old) × Keeps (S.remaining reader.old) (S.remaining reader.new))) }
        ensures count { IfOk result (λ read. IfOk read (λ n. (n ≤ READ_SIZE)
            × (length self.new ≡ length self.old + n))) }
        ensures end { result ≡ Ok (Ok 0) → (self.new ≡ self.old) × IsAtEnd (S.remaining reader.new) }
        ensures failed { IfOk result (λ read. S.failed reader.new ≡ (S.failed reader.old || is_err read)) }
        ensures calls { OnOk result (S.calls reader.new ≡ min (S.calls reader.old + 1) (2 ^ 64 - 1)) }
        ensures err { OnErr result ((self.new ≡ self.old) × (reader.new ≡ reader.old)) }
    {
        self.compact();
        let end = self.end;
        if make_room(&mut self.bytes, end).is_err() {
            return Err(AllocError);
        }
        match read_behind(&mut self.bytes, end, reader) {
            Ok(n) => {
                self.end = end + n;
                Ok(Ok(n))
            }
            Err(failed) => Ok(Err(failed)),
        }
    }
}
