//! The part that a world keeps of the events that its sites recorded. It is a type parameter, so that a script keeps no
//! events, by the same code.
ghost use Rattle.std.specs.Prelude.{◌≡◌, IfOk};
ghost use Rattle.rb_site.specs.declared.world_event.WorldEvent.{WorldEvent as TheEvent};

use rb_site::WorldEvent;
use std::alloc::{AllocError, Global};
use std::snapshot::Snapshot;

/// The part of an event that is kept: the event, or nothing that takes memory.
pub trait KeepsEvent: Drop {
    // The event that was noted.
    ghost noted: { Self → TheEvent };

    /// Notes the event. `Err` means out of memory.
    fn note(alloc: Global, event: &WorldEvent) -> Result<Self, AllocError>
        ensures { IfOk result (λ note. noted note ≡ event.now) };
}

impl KeepsEvent for WorldEvent {
    ghost noted = { λ e. e };

    fn note(alloc: Global, event: &WorldEvent) -> Result<WorldEvent, AllocError> {
        event.try_copy(alloc)
    }
}

/// An event that isn't kept. Only proofs read it.
#[derive(Drop)]
pub struct ErasedEvent {
    event: Snapshot<WorldEvent>,
}

impl KeepsEvent for ErasedEvent {
    ghost noted = { λ e. e.event.value };

    #[inline(always)]
    fn note(_alloc: Global, event: &WorldEvent) -> Result<ErasedEvent, AllocError> {
        Ok(ErasedEvent {
            event: Snapshot::of(event),
        })
    }
}
