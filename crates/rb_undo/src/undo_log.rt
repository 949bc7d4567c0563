//! Logs of undo records.
//!
//! Clients see how many more records fit without memory. So memory is taken before a ledger changes, and no entry is
//! without its record.
ghost use Rattle.std.specs.Prelude.{◌≡◌, ◌↔◌, ◌+◌, ◌<◌, ◌≤◌, [], ◌∷◌, ◌++◌, length, MatchResult, MatchOption, OnOk};
ghost use Rattle.std.specs.Prelude.{OnErr, IfErr};

use crate::Undo;
use std::alloc::{AllocError, Global};
use std::marker::Model;

/// Keeps the undo records of a ledger in order, until each is spent or sealed. A log can't be dropped
/// either: it is closed.
pub struct UndoLog {
    undos: Vec<Undo>,
}

impl Model for UndoLog {
    ghost use Rattle.std.specs.Prelude.{◌-◌, vec_len, vec_capacity};
    ghost use Rattle.rb_undo.specs.Log.{Log};

    ghost Value = { Log };

    ghost view = { λ l. record { parts = l.undos.items; room = vec_capacity l.undos - vec_len l.undos } };
}

impl UndoLog {
    /// A log without records, and without memory for any.
    pub fn new(alloc: Global) -> UndoLog
        ensures parts { result.parts ≡ [] }
        ensures room { result.room ≡ 0 }
    {
        UndoLog {
            undos: Vec::new(alloc),
        }
    }

    /// How many records there are.
    pub fn len(&self) -> usize
        ensures { result ≡ length self.now.parts }
    {
        self.undos.len()
    }

    /// Reserves capacity for `additional` more records. It takes no memory if there is enough. `Err` means out of
    /// memory.
    pub fn reserve(&mut self, additional: usize) -> Result<(), AllocError>
        ensures parts { self.new.parts ≡ self.old.parts }
        ensures ok { OnOk result (additional ≤ self.new.room) }
        ensures grows { self.old.room ≤ self.new.room }
        ensures short { OnErr result (self.old.room < additional) }
        ensures err { OnErr result (self.new ≡ self.old) }
    {
        self.undos.reserve(additional)
    }

    /// Adds a record at the end. Out of memory the record comes back.
    pub fn push(&mut self, undo: Undo) -> Result<(), Undo>
        ensures added { OnOk result (self.new.parts ≡ self.old.parts ++ undo ∷ []) }
        ensures room { OnOk result (0 < self.old.room → self.new.room + 1 ≡ self.old.room) }
        ensures back { IfErr result (λ back. (back ≡ undo) × (self.new ≡ self.old) × (self.old.room ≡ 0)) }
    {
        if self.make_room().is_err() {
            return Err(undo);
        }
        self.push_reserved(undo);
        Ok(())
    }

    /// Takes memory for a record if there is no spare capacity. `Err` means out of memory.
    fn make_room(&mut self) -> Result<(), AllocError>
        ensures parts { self.new.parts ≡ self.old.parts }
        ensures ok { OnOk result (0 < self.new.room) }
        ensures room { 0 < self.old.room → self.new ≡ self.old }
        ensures err { OnErr result ((self.new ≡ self.old) × (self.old.room ≡ 0)) }
    {
        if self.undos.len() < self.undos.capacity() {
            return Ok(());
        }
        self.undos.reserve(1)
    }

    /// Adds a record at the end, in spare capacity.
    pub fn push_reserved(&mut self, undo: Undo)
        requires { 0 < self.old.room }
        ensures parts { self.new.parts ≡ self.old.parts ++ undo ∷ [] }
        ensures room { self.new.room + 1 ≡ self.old.room }
    {
        self.undos.push_reserved(undo)
    }

    /// Takes the last record out. `None` if the log is empty.
    pub fn pop(&mut self) -> Option<Undo>
        ensures { MatchOption result ((self.old.parts ≡ []) × (self.new ≡ self.old))
            (λ undo. (self.old.parts ≡ self.new.parts ++ undo ∷ []) × (self.new.room ≡ self.old.room + 1)) }
    {
        self.undos.pop()
    }

    /// Seals all records.
    pub fn close(self) {
        let UndoLog { mut undos } = self;
        'undos: while let Some(undo) = undos.pop() {
            undo.seal();
        }
        undos.destroy_empty()
    }
}
