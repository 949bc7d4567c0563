//! The gate that does nothing.

use crate::Gate;

/// A gate that does nothing.
#[derive(Drop)]
pub struct NoGate;

impl Gate for NoGate {
    fn enter(&self, _site: u8) {}

    fn leave(&self, _site: u8) {}
}
