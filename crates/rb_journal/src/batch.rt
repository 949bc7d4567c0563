//! The bytes of a batch, line by line.
ghost use Rattle.std.specs.Prelude.{◌≡◌, []};
ghost use Rattle.rb_journal.specs.Lines.{IsBatch};

use std::alloc::Global;

/// Whole lines, each with its LF.
#[derive(Drop)]
pub struct LineBatch {
    pub bytes: Vec<u8>,
    pub ghost whole: { IsBatch bytes.items },
}

impl LineBatch {
    /// No line yet. This takes no memory.
    pub fn new(alloc: Global) -> LineBatch
        ensures { result.bytes.items ≡ [] }
    {
        LineBatch {
            bytes: Vec::new(alloc),
        }
    }
}
