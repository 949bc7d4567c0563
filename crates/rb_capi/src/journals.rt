//! Journals in memory, one after another.
//!
//! An export takes no slice of slices, so the journals are one slice of bytes, and their lengths another. That the two
//! fit is checked before a journal is read.
ghost use Rattle.std.specs.Prelude.{◌≡◌, ◌==◌, Some, drop, sum, take};
ghost use Rattle.rb_capi.specs.Close.{pieces_of};

use rb_runs::JournalFiles;
use std::alloc::Global;

/// Whether these are the lengths of files that have this number of bytes together.
pub fn are_lengths_of(lengths: &[usize], bytes: usize) -> bool
    ensures { result ≡ (sum lengths.now == bytes) }
{
    let mut left = bytes;
    for length in lengths {
        if *length > left {
            return false;
        }
        left -= *length;
    }
    left == 0
}

/// Journals in memory, one after another, of these lengths. They are read in their order.
#[derive(Drop)]
pub struct JournalsInMemory<'a> {
    alloc: Global,
    bytes: &'a [u8],
    lengths: &'a [usize],
    taken: usize,
    rest: &'a [u8],
    ghost place: { pieces_of (drop taken lengths.now) rest.now ≡ drop taken (pieces_of lengths.now bytes.now) },
}

impl<'a> JournalsInMemory<'a> {
    /// Before the first journal.
    pub fn new(alloc: Global, bytes: &'a [u8], lengths: &'a [usize]) -> JournalsInMemory<'a>
        ensures bytes { result.bytes.now ≡ bytes.now }
        ensures lengths { result.lengths.now ≡ lengths.now }
        ensures taken { result.taken ≡ 0 }
    {
        JournalsInMemory {
            alloc,
            bytes,
            lengths,
            taken: 0,
            rest: bytes,
        }
    }
}

impl<'a> JournalFiles for JournalsInMemory<'a> {
    ghost read = { λ files. take files.taken (pieces_of files.lengths.now files.bytes.now) };

    ghost known = { λ files. Some (pieces_of files.lengths.now files.bytes.now) };

    /// A copy of the next journal. `None` means out of memory.
    fn read_next(&mut self) -> Option<Vec<u8>> {
        if self.taken >= self.lengths.len() {
            return None;
        }
        let length = self.lengths[self.taken];
        let Some((journal, rest)) = self.rest.split_at_checked(length) else {
            return None;
        };
        let Ok(journal) = Vec::from_slice(self.alloc, journal) else {
            return None;
        };
        self.taken += 1;
        self.rest = rest;
        Some(journal)
    }
}
