//! The messages that were sent before. One is found by its row and number, which no two messages share in a run of a
//! world. If that finds another one, all are looked through, so that the answer is right for any messages.
ghost use Rattle.std.specs.Prelude.{◌≡◌, ◌↔◌, [], IsTrue};
ghost use Rattle.rb_site.specs.Histories.{IsAmong, IsFrom};

use rb_site::{Event, Message};
use std::alloc::{AllocError, Global};
use std::collections::HashMap;

/// The messages sent so far, to find whether one is among them, in the order in which they were sent.
#[derive(Drop)]
pub struct SentBefore {
    pub messages: Vec<Message>,
    // The place of the last message of each row and number.
    places: HashMap<(usize, u32), usize>,
}

impl SentBefore {
    /// No messages.
    pub fn new(alloc: Global) -> SentBefore
        ensures { result.messages.items ≡ [] }
    {
        SentBefore {
            messages: Vec::new(alloc),
            places: HashMap::new(alloc),
        }
    }

    /// Whether the event is a site's own, or receives one of the messages.
    pub fn may_come(&self, event: &Event) -> bool
        ensures { IsTrue result ↔ IsFrom self.now.messages.items event.now }
    {
        match event {
            Event::Receive(message) => self.has(message),
            _ => true,
        }
    }

    /// Notes the places of the messages, from an index on. `Err` means out of memory.
    pub fn note_from(&mut self, first: usize) -> Result<(), AllocError>
        ensures { self.new.messages.items ≡ self.old.messages.items }
    {
        for at in first..self.messages.len() {
            self.places.insert(number(&self.messages[at]), at)?;
        }
        Ok(())
    }

    /// Whether the message is one of them.
    fn has(&self, message: &Message) -> bool
        ensures { IsTrue result ↔ IsAmong message.now self.now.messages.items }
    {
        self.is_last(message) || is_among(self.messages.as_slice(), message)
    }

    /// Whether the message is the last one of its number.
    fn is_last(&self, message: &Message) -> bool
        ensures { IsTrue result → IsAmong message.now self.now.messages.items }
    {
        let Some(at) = self.places.get(&number(message)) else {
            return false;
        };
        match self.messages.get(*at) {
            Some(known) => known.same(message),
            None => false,
        }
    }
}

/// The row of a message, a last one for tokens, and its number there.
fn number(message: &Message) -> (usize, u32) {
    match message {
        Message::Token(token) => (usize::MAX, token.epoch),
        Message::Shadow(shadow) => (shadow.name.row(), shadow.name.number()),
    }
}

/// Whether the message is one of these.
fn is_among(messages: &[Message], message: &Message) -> bool
    ensures { IsTrue result ↔ IsAmong message.now messages.now }
{
    for known in messages {
        if known.same(message) {
            return true;
        }
    }
    false
}
