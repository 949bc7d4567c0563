//! Lists that contracts see as lists, and spare capacity, for any crate.
//! Tests: rb_tests, worlds.rt.
#![tactic(auto)]

mod exact;
mod list;
mod spare;

pub use exact::Exact;
pub use list::List;
pub use spare::reserve_one;
