//! A request that was made by an id, as it is kept: its event, and which operations of the ledger it made. Its reply
//! and its messages are made of these again.
ghost use Rattle.std.specs.Prelude.{◌≡◌, ◌≢◌, ◌≤◌, ◌++◌, ◌⊎◌, [], None, IfOk, IfSome, MatchOption, false};
ghost use Rattle.indexmap.specs.IndexMap.{spare};
ghost use Rattle.rb_history.specs.Ids.{may_have_id};
ghost use Rattle.rb_node.specs.Kept.{by_bytes, find_request, request_noted};

use crate::kept_event::KeptEvent;
use indexmap::IndexMap;
use rb_history::RequestId;
use rb_site::{Event, Reply};
use std::alloc::{AllocError, Global};

/// A request that was made, kept to be answered again: its event, and its operations. As many as `first` were applied
/// before it, and as many as `end` with it.
#[derive(Drop)]
pub struct KnownRequest {
    pub event: KeptEvent,
    pub first: u32,
    pub end: u32,
}

/// The id as a key of the map, and a copy of the event, with memory for them in the map; `None` if there is no id, or
/// the event may have none. It is inlined, as `note_request` is, so that an event without an id costs a test, and not a
/// copy of an event that isn't there.
#[inline(always)]
pub(crate) fn copy_asked(
    alloc: Global,
    by_id: &mut IndexMap<Vec<u8>, KnownRequest>,
    id: &RequestId,
    event: &Event,
) -> Result<Option<(Vec<u8>, KeptEvent)>, AllocError>
    ensures entries { by_id.new.entries ≡ by_id.old.entries }
    ensures copies { IfOk result (λ copies. MatchOption copies ((id.now ≡ []) ⊎ (may_have_id event.now ≡ false))
        (λ p. (id.now ≢ []) × (p.0.items ≡ id.now) × (p.1 ≡ event.now))) }
    ensures capacity { IfOk result (λ copies. IfSome copies (λ _. 1 ≤ spare by_id.new)) }
{
    if id.as_bytes().is_empty() {
        return Ok(None);
    }
    let Some(event) = KeptEvent::of(alloc, event)? else {
        return Ok(None);
    };
    by_id.reserve(1)?;
    let mut key = Vec::new(alloc);
    key.extend_from_slice(id.as_bytes())?;
    Ok(Some((key, event)))
}

/// Notes a request by an id that isn't known, if it was made, in the capacity that is there.
#[inline(always)]
pub(crate) fn note_request(
    by_id: &mut IndexMap<Vec<u8>, KnownRequest>,
    copies: Option<(Vec<u8>, KeptEvent)>,
    reply: &Reply,
    first: u32,
    end: u32,
)
    requires new { IfSome copies (λ p. find_request p.0.items (by_bytes by_id.old.entries) ≡ None) }
    requires capacity { IfSome copies (λ _. 1 ≤ spare by_id.old) }
    ensures { by_bytes by_id.new.entries ≡ by_bytes by_id.old.entries ++ request_noted copies reply.now first end }
{
    if let Some((id, event)) = copies {
        if event.may_be_kept(reply) {
            let _before = by_id.insert(id, KnownRequest { event, first, end });
        }
    }
}
