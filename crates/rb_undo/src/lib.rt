//! Records that undo entries of a ledger, and logs of them.
//! Tests: rb_tests, worlds.rt, refused.rt.
#![tactic(auto)]

mod parts;
mod undo;
mod undo_log;

pub use parts::UndoParts;
pub use undo::Undo;
pub use undo_log::UndoLog;
