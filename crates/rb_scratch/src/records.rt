//! The records of what is tried.
//!
//! The records of a batch are parts in an array of sixteen, which takes no memory, and are handed to the site's log as
//! the batch is kept. The array is 640 bytes, so calls that would move it are made in place.
ghost use Rattle.std.specs.Prelude.{◌≡◌, ◌<◌, ◌≤◌, [], ◌∷◌, ◌++◌, length, MatchOption, IfErr, OnOk, OnErr};
ghost use Rattle.rb_scratch.specs.declared.request.TheConstants.{MOST_REQUESTS};

use crate::request::MOST_REQUESTS;
use rb_undo::{Undo, UndoLog, UndoParts};
use std::marker::Model;

/// The undo records of what is tried, in order, at most as many as a batch has requests, each still to be spent or
/// sealed. They are kept in the value itself and take no memory: a record is spent into its parts, and made
/// anew from them. Clients see the parts. They can't be dropped: they go to the end of a log, or are closed.
pub struct Records {
    parts: [UndoParts; MOST_REQUESTS],
    len: usize,
}

impl Model for Records {
    ghost use Rattle.std.specs.Prelude.{◌≡◌, ◌≤◌, length, take};
    ghost use Rattle.rb_scratch.specs.declared.request.TheConstants.{MOST_REQUESTS};
    ghost use Rattle.rb_scratch.specs.Records.{RecordList};

    ghost Value = { RecordList };

    ghost view = { λ r. record { parts = take r.len r.parts } };

    ghost invariant = { λ r. (length r.parts ≡ MOST_REQUESTS) × (r.len ≤ MOST_REQUESTS) };
}

impl Records {
    /// No records.
    #[inline(always)]
    pub fn new() -> Records
        ensures { result.parts ≡ [] }
    {
        Records {
            parts: [UndoParts::BLANK; MOST_REQUESTS],
            len: 0,
        }
    }

    /// How many records there are.
    pub fn len(&self) -> usize
        ensures { result ≡ length self.now.parts }
    {
        self.len
    }

    /// Adds a record at the end: there are fewer than the most.
    pub fn push(&mut self, undo: Undo)
        requires { length self.old.parts < MOST_REQUESTS }
        ensures { self.new.parts ≡ self.old.parts ++ undo ∷ [] }
    {
        self.parts[self.len] = undo.spend();
        self.len += 1;
    }

    /// Takes the last record out. `None` if there are no records.
    pub fn pop(&mut self) -> Option<Undo>
        ensures { MatchOption result ((self.old.parts ≡ []) × (self.new ≡ self.old)) (λ undo. self.old.parts
            ≡ self.new.parts ++ undo ∷ []) }
    {
        let last = self.len.checked_sub(1)?;
        self.len = last;
        Some(Undo::new(self.parts[last]))
    }

    /// Moves the records to the end of a log. Out of memory they come back, and nothing changes but that the log may
    /// have more spare capacity.
    #[inline(always)]
    pub fn append_to(self, log: &mut UndoLog) -> Result<(), Records>
        ensures log { OnOk result (log.new.parts ≡ log.old.parts ++ self.parts) }
        ensures back { IfErr result (λ back. back ≡ self) }
        ensures unchanged { OnErr result (log.new.parts ≡ log.old.parts) }
        ensures short { OnErr result (log.old.room < length self.parts) }
        ensures grows { OnErr result (log.old.room ≤ log.new.room) }
    {
        if log.reserve(self.len).is_err() {
            return Err(self);
        }
        let Records { parts, len } = self;
        'records: for index in 0..len {
            log.push_reserved(Undo::new(parts[index]));
        }
        Ok(())
    }

    /// Seals all records.
    pub fn close(self) {
        let Records { parts: _, len: _ } = self;
    }
}
