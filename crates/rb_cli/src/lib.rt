//! The words of the command line.
//! Tests: tests/cases, words.cases; tests/sites.py, tests/closings.py.
#![tactic(auto)]

mod arguments;
mod command_line;
mod recorded;
mod texts;
mod words;

pub use recorded::Record;
pub use words::{MOST_TELLERS, Words, read_words};
