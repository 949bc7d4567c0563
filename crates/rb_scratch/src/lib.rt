//! Requests, and what they make.
//! Tests: rb_tests, refused.rt; tests/cases, scripts.cases.
#![tactic(auto)]

ghost use Rattle.std.specs.Prelude.{◌≡◌};
ghost use Rattle.rb_scratch.specs.Requests.{MadeIsValid};
ghost use Rattle.rb_scratch.specs.declared.request.TheConstants.{MOST_REQUESTS as THE_MOST_REQUESTS};

mod effect;
mod exact;
mod generator;
mod in_batch;
mod plan;
mod records;
mod request;
mod run_fault;
mod scratch;

pub use generator::generate;
pub use plan::{CancelPlan, cancel_of};
pub use request::{MOST_REQUESTS, Request};
pub use run_fault::RunFault;
pub use scratch::Scratch;

/// The most requests of a batch, in figures.
pub fn requests_of_a_batch()
    ensures { THE_MOST_REQUESTS ≡ 16 }
{}

/// An operation that a request makes at a valid list may be added to it.
pub fn made_is_valid()
    ensures { MadeIsValid }
{}
