//! The books of a bank, which may be closed where its sites have applied all that any of them made.

pub mod added;
pub mod added_fault;
mod balances;
pub mod close_fault;
pub mod closing;
mod closing_line;
pub mod files;
pub mod journal_fault;
pub mod laws;
pub mod next;
mod open;
pub mod run;
