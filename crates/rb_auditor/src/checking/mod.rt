//! The check of an order. It uses no code of the search for one (tests/closure.py --check).

pub mod check;
mod following;
mod recorded;
mod sent_before;
pub mod sites;
