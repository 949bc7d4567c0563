//! Events of a world.
ghost use Rattle.std.specs.Prelude.{◌≡◌, ◌↔◌, IfOk, IsTrue};
ghost use Rattle.rb_site.specs.Histories.{site_of};

use crate::Event;
use crate::same::same_in;
use std::alloc::{AllocError, Global};

/// An event of a world: an event at a site, or the delivery of a message to a site.
#[derive(Debug, Drop)]
pub enum WorldEvent {
    /// The event at the site of this number, from 0.
    At(u8, Event),
    /// To the site of this number, from 0, the delivery of the message of this number, from 1.
    Deliver(u8, u32),
}

impl WorldEvent {
    /// The site that the event is for.
    pub fn site(&self) -> u8
        ensures { result ≡ site_of self.now }
    {
        match self {
            WorldEvent::At(site, _) => *site,
            WorldEvent::Deliver(site, _) => *site,
        }
    }

    /// An equal event. `Err` means out of memory.
    pub fn try_copy(&self, alloc: Global) -> Result<WorldEvent, AllocError>
        ensures { IfOk result (λ copy. copy ≡ self.now) }
    {
        match self {
            WorldEvent::At(site, event) => {
                let event = event.try_copy(alloc)?;
                Ok(WorldEvent::At(*site, event))
            }
            WorldEvent::Deliver(site, number) => Ok(WorldEvent::Deliver(*site, *number)),
        }
    }

    /// Whether the two are equal.
    pub fn same(&self, other: &WorldEvent) -> bool
        ensures { IsTrue result ↔ (self.now ≡ other.now) }
    {
        match self {
            WorldEvent::At(site, event) => {
                same_in!(other, WorldEvent::At(at, it) => *site == *at && event.same(it))
            }
            WorldEvent::Deliver(site, number) => {
                same_in!(other, WorldEvent::Deliver(at, it) => *site == *at && *number == *it)
            }
        }
    }
}
