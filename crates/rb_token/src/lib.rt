//! The red token: who may make red operations.
//!
//! After "Ordering and replicating operations" of the published paper: only the coordinator that has the
//! unique token may accept a red operation. The token goes from site to site in messages, each
//! with an epoch of its own, so that a message which comes twice is taken once.
//! Tests: rb_tests, refused.rt; tests/cases.py.
#![tactic(auto)]

mod accepted;
mod message;
mod state;
mod view;

pub use accepted::Accepted;
pub use message::TokenMessage;
pub use state::TokenState;
pub use view::TokenView;
