//! The event of a request with an id, in few bytes: an `Event` has room for a message, and takes three times as many.
ghost use Rattle.std.specs.Prelude.{◌≡◌, ◌↔◌, IfOk, IsTrue, MatchOption, false};
ghost use Rattle.rb_history.specs.Ids.{may_be_asked, may_have_id};
ghost use Rattle.rb_node.specs.Kept.{reply_made};

use crate::again::names_in;
use crate::kept_requests::KeptRequests;
use rb_site::{Event, Message, Reply};
use std::alloc::{AllocError, Global};
use std::marker::Model;

/// An event that may have an id: a request, or a batch of them. Clients see the event.
#[derive(Drop)]
pub struct KeptEvent {
    requests: KeptRequests,
}

impl Model for KeptEvent {
    ghost use Rattle.rb_site.specs.declared.event.Event.{Event};
    ghost use Rattle.rb_node.specs.Asked.{event_kept};

    ghost Value = { Event };

    ghost view = { λ a. event_kept a.requests };
}

impl KeptEvent {
    /// A copy of the event; `None` if it may have no id. `Err` means out of memory.
    pub fn of(alloc: Global, event: &Event) -> Result<Option<KeptEvent>, AllocError>
        ensures { IfOk result (λ o. MatchOption o (may_have_id event.now ≡ false) (λ kept. kept ≡ event.now)) }
    {
        match event {
            Event::Submit(request) => Ok(Some(KeptEvent {
                requests: KeptRequests::One(*request),
            })),
            Event::Batch(requests) => {
                let requests = KeptRequests::All(requests.try_copy(alloc)?);
                Ok(Some(KeptEvent { requests }))
            }
            Event::Receive(_) | Event::Apply(_) | Event::Pass(_) => Ok(None),
            Event::Balance(_) | Event::AsOf(_, _) | Event::Statement(_) => Ok(None),
        }
    }

    /// Whether it is this event.
    pub fn is(&self, event: &Event) -> bool
        ensures { IsTrue result ↔ (self.now ≡ event.now) }
    {
        match (&self.requests, event) {
            (KeptRequests::One(request), Event::Submit(other)) => *request == *other,
            (KeptRequests::All(requests), Event::Batch(others)) => requests.same(others),
            _ => false,
        }
    }

    /// Whether an entry of it with this reply has its id.
    pub fn may_be_kept(&self, reply: &Reply) -> bool
        ensures { result ≡ may_be_asked (record { event = self.now; reply = reply.now }) }
    {
        match (&self.requests, reply) {
            (_, Reply::Refused(_)) => false,
            (KeptRequests::One(_), _) | (KeptRequests::All(_), _) => true,
        }
    }

    /// The reply to it, if it was made and sent these messages. `Err` means out of memory.
    pub fn reply_again(&self, alloc: Global, messages: &[Message]) -> Result<Reply, AllocError>
        ensures { IfOk result (λ reply. reply ≡ reply_made self.now messages.now) }
    {
        if let (KeptRequests::One(_), Some(Message::Shadow(shadow))) = (
            &self.requests,
            messages.first(),
        ) {
            return Ok(Reply::Made {
                name: shadow.name,
                kind: shadow.kind.label(),
            });
        }
        Ok(Reply::Names(names_in(alloc, messages)?))
    }
}
