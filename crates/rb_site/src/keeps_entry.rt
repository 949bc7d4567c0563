//! The part of its entries that a site's history keeps. It is a type parameter, so that a script keeps no histories
//! and no events, by the same code.
ghost use Rattle.std.specs.Prelude.{◌≡◌, Bool, true, false, [], map, IfOk};
ghost use Rattle.rb_site.specs.Notes.{IsNoted};
ghost use Rattle.rb_site.specs.declared.entry.Entry.{Entry as TheEntry};
ghost use Rattle.rb_site.specs.declared.event.Event.{Event as TheEvent};

use crate::{Entry, Event, Reply};
use std::alloc::{AllocError, Global};
use std::snapshot::Snapshot;

/// The part of an entry that is kept: all of it, or nothing that takes memory.
pub trait KeepsEntry: Drop {
    /// The part of an event that is kept, before there is a reply.
    type Kept: Drop;

    // The event that was kept.
    ghost kept: { Self.Kept → TheEvent };

    // The entry that was noted.
    ghost entry: { Self → TheEntry };

    ghost KEEPS: { Bool };

    /// Whether the reply is kept, so that one that holds memory is needed twice.
    const KEEPS: bool;

    /// Keeps an event. `Err` means out of memory.
    fn keep(alloc: Global, event: &Event) -> Result<Self::Kept, AllocError>
        ensures { IfOk result (λ k. kept k ≡ event.now) };

    /// The entry of a kept event and its reply. `noted` is the copy of the reply, if one was made.
    fn note(event: Self::Kept, reply: &Reply, noted: Option<Reply>) -> Self
        requires { IsNoted KEEPS reply.now noted }
        ensures { entry result ≡ record { event = kept event; reply = reply.now } };

    /// The history that is reported: the entries in order if they are kept, and none if they aren't. This takes no
    /// memory.
    fn reported(alloc: Global, history: Vec<Self>) -> Vec<Entry>
        ensures kept { KEEPS ≡ true → result.items ≡ map entry history.items }
        ensures unkept { KEEPS ≡ false → result.items ≡ [] };
}

impl KeepsEntry for Entry {
    type Kept = Event;

    ghost kept = { λ e. e };

    ghost entry = { λ x. x };

    ghost KEEPS = { true };

    const KEEPS: bool = true;

    fn keep(alloc: Global, event: &Event) -> Result<Event, AllocError> {
        event.try_copy(alloc)
    }

    fn note(event: Event, reply: &Reply, noted: Option<Reply>) -> Entry {
        let reply = reply.again(noted);
        Entry { event, reply }
    }

    fn reported(_alloc: Global, history: Vec<Entry>) -> Vec<Entry>
        ensures kept { result.items ≡ map (λ x. x) history.items }
    {
        history
    }
}

/// An entry that isn't kept. Only proofs read it.
#[derive(Drop)]
pub struct ErasedEntry {
    event: Snapshot<Event>,
    reply: Snapshot<Reply>,
}

impl KeepsEntry for ErasedEntry {
    type Kept = Snapshot<Event>;

    ghost kept = { λ e. e.value };

    ghost entry = { λ x. record { event = x.event.value; reply = x.reply.value } };

    ghost KEEPS = { false };

    const KEEPS: bool = false;

    #[inline(always)]
    fn keep(_alloc: Global, event: &Event) -> Result<Snapshot<Event>, AllocError> {
        Ok(Snapshot::of(event))
    }

    #[inline(always)]
    fn note(event: Snapshot<Event>, reply: &Reply, _noted: Option<Reply>) -> ErasedEntry {
        ErasedEntry {
            event,
            reply: Snapshot::of(reply),
        }
    }

    fn reported(alloc: Global, _history: Vec<ErasedEntry>) -> Vec<Entry>
        ensures unkept { result.items ≡ [] }
    {
        Vec::new(alloc)
    }
}
