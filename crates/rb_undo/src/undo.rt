//! Undo records.
//!
//! A record is used once, by its type: the compiler refuses a second use, and a program that lets a record go.
use crate::UndoParts;
use std::marker::Model;

/// The record by which an entry of a ledger is undone. Clients see its parts. A record can't be dropped: it is spent
/// to undo the entry, or sealed if the entry is to stay.
pub struct Undo {
    parts: UndoParts,
}

impl Model for Undo {
    ghost use Rattle.rb_undo.specs.declared.parts.UndoParts.{UndoParts};

    ghost Value = { UndoParts };

    ghost view = { λ u. u.parts };
}

impl Undo {
    ghost use Rattle.std.specs.Prelude.{◌≡◌};

    /// The record with these parts.
    pub fn new(parts: UndoParts) -> Undo
        ensures { result ≡ parts }
    {
        Undo { parts }
    }

    /// The entry's position in its ledger, from 1.
    pub fn position(&self) -> u32
        ensures { result ≡ self.now.position }
    {
        self.parts.position
    }

    /// Uses the record up, and gives its parts.
    pub fn spend(self) -> UndoParts
        ensures { result ≡ self }
    {
        let Undo { parts } = self;
        parts
    }

    /// Gives the undo up: the entry stays.
    pub fn seal(self) {
        let Undo { parts: _ } = self;
    }
}
