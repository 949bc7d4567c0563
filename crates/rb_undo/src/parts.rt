//! The parts of an undo record.
//!
//! A record has what an application changed, in 40 bytes, and no copy of the list. A log of them is a third of what a
//! site keeps of an operation.
use rb_money::Place;
use rb_shadow::OpName;

/// What is kept to undo an entry of a ledger: the facts of the entry, as it is applied.
#[derive(Clone, Copy, Debug, PartialEq, Eq)]
pub struct UndoParts {
    /// The entry's position, from 1.
    pub position: u32,
    /// The entry's name.
    pub name: OpName,
    /// The entry's account.
    pub place: Place,
    /// That account's balance before the entry, in cents.
    pub balance: u64,
    /// The position of what the entry cancels, or 0.
    pub target: u32,
    /// The entry's second account, or `Place::NOWHERE`.
    pub other: Place,
    /// The second account's balance before the entry, in cents, or 0 if the entry has no second account.
    pub other_balance: u64,
}

impl UndoParts {
    /// The content of a place for a record before there is one: zeros, so that a list of it is set at once.
    pub const BLANK: UndoParts = UndoParts {
        position: 0,
        name: OpName::Blue { site: 0, n: 0 },
        place: Place(0),
        balance: 0,
        target: 0,
        other: Place(0),
        other_balance: 0,
    };
}
