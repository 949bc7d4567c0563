//! An entry with its id, of which nothing is kept.
ghost use Rattle.std.specs.Prelude.{◌≡◌, ◌≤◌, ◌+◌, ◌++◌, ◌∷◌, [], map, vec_len, vec_capacity};
ghost use Rattle.rb_node.specs.Asked.{with_id};
ghost use Rattle.rb_node.specs.Kept.{entry_erased};

use rb_history::RequestId;
use rb_site::{Event, Reply};
use std::snapshot::Snapshot;

/// An entry with its id, which takes no memory. Only proofs read it.
#[derive(Drop)]
pub struct ErasedAsked {
    id: Snapshot<RequestId>,
    event: Snapshot<Event>,
    reply: Snapshot<Reply>,
}

/// Notes an entry in the capacity that is there.
pub(crate) fn note_entry(asked: &mut Vec<ErasedAsked>, id: &RequestId, event: &Event, reply: &Reply)
    requires { vec_len asked.old + 1 ≤ vec_capacity asked.old }
    ensures { map entry_erased asked.new.items ≡ map entry_erased asked.old.items ++ with_id id.now (record {
      event = event.now;
      reply = reply.now;
    }) ∷ [] }
{
    asked.push_reserved(ErasedAsked {
        id: Snapshot::of(id),
        event: Snapshot::of(event),
        reply: Snapshot::of(reply),
    });
}
