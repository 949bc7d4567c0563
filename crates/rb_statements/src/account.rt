//! Statements.
ghost use Rattle.std.specs.Prelude.{◌≡◌, ◌↔◌, IfOk, IsTrue};

use crate::Row;
use rb_kit::List;
use std::alloc::{AllocError, Global};

/// A statement of an account: what it started with, its entries and its balance.
#[derive(Debug, Drop)]
pub struct Statement {
    /// The balance that the account started with, in cents.
    pub start: u64,
    /// One row for each entry on the account, in order.
    pub rows: List<Row>,
    /// The account's balance, in cents.
    pub balance: u64,
}

impl Statement {
    /// An equal statement. `Err` means out of memory.
    pub fn try_copy(&self, alloc: Global) -> Result<Statement, AllocError>
        ensures { IfOk result (λ copy. copy ≡ self.now) }
    {
        let rows = self.rows.try_copy(alloc)?;
        Ok(Statement {
            start: self.start,
            rows,
            balance: self.balance,
        })
    }

    /// Whether the two are equal, field by field.
    pub fn same(&self, other: &Statement) -> bool
        ensures { IsTrue result ↔ (self.now ≡ other.now) }
    {
        self.start == other.start && self.balance == other.balance && self.rows.same(&other.rows)
    }
}
