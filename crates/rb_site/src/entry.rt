//! Entries of a history.
ghost use Rattle.std.specs.Prelude.{◌≡◌, ◌↔◌, IfOk, IsTrue};

use crate::{Event, Reply};
use std::alloc::{AllocError, Global};

/// An entry of a site's history: an event with its reply.
#[derive(Debug, Drop)]
pub struct Entry {
    /// The event.
    pub event: Event,
    /// The site's answer to it.
    pub reply: Reply,
}

impl Entry {
    /// An equal entry. `Err` means out of memory.
    pub fn try_copy(&self, alloc: Global) -> Result<Entry, AllocError>
        ensures { IfOk result (λ copy. copy ≡ self.now) }
    {
        let event = self.event.try_copy(alloc)?;
        let reply = self.reply.try_copy(alloc)?;
        Ok(Entry { event, reply })
    }

    /// Whether the two are equal.
    pub fn same(&self, other: &Entry) -> bool
        ensures { IsTrue result ↔ (self.now ≡ other.now) }
    {
        self.event.same(&other.event) && self.reply.same(&other.reply)
    }
}
