//! Lines that were answered and not yet committed.
ghost use Rattle.std.specs.Prelude.{◌≡◌, ◌≤◌, []};

use crate::batch::LineBatch;
use std::alloc::Global;

/// How far serving has come: the lines to commit, the number of the next line, and how many lines were answered.
#[derive(Drop)]
pub struct Work {
    pub batch: LineBatch,
    pub number: u64,
    pub count: u64,
    pub ghost counted: { count ≤ number },
}

impl Work {
    /// Nothing was answered. This takes no memory.
    pub fn new(alloc: Global, number: u64) -> Work
        ensures batch { result.batch.bytes.items ≡ [] }
        ensures number { result.number ≡ number }
        ensures count { result.count ≡ 0 }
    {
        Work {
            batch: LineBatch::new(alloc),
            number,
            count: 0,
        }
    }
}
