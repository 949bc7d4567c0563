//! Rows of a statement.
use rb_shadow::{Label, OpName};

/// One entry of a statement.
#[derive(Clone, Copy, Debug, PartialEq, Eq)]
pub struct Row {
    /// The entry's position in the ledger, from 1.
    pub position: u32,
    /// The entry's name.
    pub name: OpName,
    /// The entry's kind.
    pub kind: Label,
    /// The cents that the entry moved on the statement's account when it was applied.
    pub moved: i64,
    /// Whether some entry of the ledger cancels it.
    pub cancelled: bool,
    /// The account's balance after the entry, in cents.
    pub balance: u64,
}
