//! Whole runs between a reader and a writer, a line each: a script, its histories, an audit and a migration.
//! Tests: rb_tests_runs, scripts.rt, audited.rt; tests/cases.py, tests/closings.py.
#![tactic(auto)]

mod audit;
mod books;
mod entry;
mod explained;
mod lines;
mod migrate;
mod recorded;
mod script;
mod silent;
mod takes_lines;

pub use audit::laws::inputs_are_read_back;
pub use audit::run::run_audit;
pub use books::added::check_added;
pub use books::added_fault::{AddedFault, added_message, added_status};
pub use books::close_fault::{CloseFault, close_status};
pub use books::closing::{Closing, split_line};
pub use books::files::JournalFiles;
pub use books::journal_fault::{JournalFault, journal_message, journal_status};
pub use books::laws::{
    answers_are_periods, carried_forward, closed_balances_agree, next_is_configured,
    open_lists_are_lacking, periods_are_one,
};
pub use books::next::NextBank;
pub use books::run::run_close;
pub use explained::Explained;
pub use migrate::laws::{migrated_lines_are_read, migrated_replays_are_equal, migrations_are_read};
pub use migrate::run::run_migrate;
pub use recorded::laws::histories_are_accepted;
pub use recorded::run::run_histories;
pub use recorded::text::write_text;
pub use recorded::unwritten::Unwritten;
pub use script::run::run_script;
