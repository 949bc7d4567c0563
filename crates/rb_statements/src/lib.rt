//! Statements of accounts.
//! Tests: rb_tests, refused.rt; tests/cases, scripts.cases.
#![tactic(auto)]

mod account;
mod exact;
mod row;
mod views;

pub use account::Statement;
pub use row::Row;
pub use views::{as_of, balance_at, empty_statement, statement};
