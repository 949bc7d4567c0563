//! Tellers and serving threads at the sites of a bank, each in a thread, and what they did as text.
//! Tests: rb_tests_runs, audited.rt, tellers.rt; tests/cases.py runs tellers through the program.
#![tactic(auto)]

mod crew;
mod joining;
mod opening;
mod run;
mod running;
mod server;
mod server_of;
mod teller;
mod teller_of;

pub use run::run_threads;
pub use running::run_bank;
pub use teller::{CALLS, INCREMENT, MULTIPLIER};
