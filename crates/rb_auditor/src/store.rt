//! The messages of all histories.
//!
//! Each entry is replayed as it is read, and only a step of 8 bytes is kept of it; a message is kept once, if it was
//! sent before it is received. With all entries kept and replayed at the end an audit took 257 bytes an entry, in place
//! of some 55.
ghost use Rattle.std.specs.Prelude.{◌≡◌, ◌<◌, ◌≤◌, ◌+◌, ◌^◌, ◌++◌, [], Some, IfSome, IfOk, OnErr, length, slice_get};
ghost use Rattle.rb_money.specs.declared.limits.TheConstants.{MOST_SITES as THE_MOST_SITES};
ghost use Rattle.rb_scratch.specs.declared.request.TheConstants.{MOST_REQUESTS};
ghost use Rattle.rb_auditor.specs.Kept.{IsMore};

use crate::message::{row, slot};
use crate::message_list::MessageList;
use rb_money::MOST_SITES;
use rb_scratch::MOST_REQUESTS;
use rb_site::Message;
use std::alloc::{AllocError, Global};

/// Memory for this number of messages is taken at first: 128 kilobytes and more for each part of them, mappings of
/// their own, which grow without a copy and of which only what is used takes memory.
const FIRST_MESSAGES: usize = 16_500;

/// The messages that the entries read so far sent or received, so that a receipt needn't keep the one that was sent.
#[derive(Drop)]
pub struct Store {
    pub messages: MessageList,
    /// The messages that the last entry sent.
    pub posted: Vec<Message>,
    // Places of messages, listed by their numbers: a row of tokens by epoch, one of red operations by number, and one
    // of each home's blue operations by number. A row has those whose number was the next there.
    rows: Vec<Vec<u32>>,
}

impl Store {
    /// Without messages, of a bank of this number of sites. `Err` means out of memory.
    pub fn new(alloc: Global, sites: u8) -> Result<Store, AllocError>
        requires { sites ≤ THE_MOST_SITES }
        ensures { IfOk result (λ store. store.messages.items ≡ []) }
    {
        let mut rows = Vec::new(alloc);
        for _ in 0..MOST_SITES + 2 {
            rows.push(Vec::new(alloc))?;
        }
        let mut messages = MessageList::new(alloc, sites);
        messages.reserve(FIRST_MESSAGES)?;
        Ok(Store {
            messages,
            posted: Vec::new(alloc),
            rows,
        })
    }

    /// Takes memory for the messages of one more entry, and answers the place of the first. `Err` means out of memory,
    /// or that the places of these might not fit a `u32`.
    #[inline(always)]
    pub fn reserve(&mut self) -> Result<u32, AllocError>
        ensures items { self.new.messages.items ≡ self.old.messages.items }
        ensures none { self.new.posted.items ≡ [] }
        ensures at { IfOk result (λ at. at ≡ length self.old.messages.items) }
        ensures room { IfOk result (λ at. at + MOST_REQUESTS ≤ self.new.messages.limit) }
        ensures few { IfOk result (λ _. self.new.messages.limit < 2 ^ 32) }
    {
        self.posted.clear();
        self.messages.reserve(MOST_REQUESTS)?;
        Ok(self.messages.len() as u32)
    }

    /// The place of a message that was received: the one that is listed, or the end, at which it is put then. `Err`
    /// means out of memory.
    pub fn place(&mut self, message: &Message) -> Result<u32, AllocError>
        ensures more { IsMore self.old.messages.items self.new.messages.items }
        ensures there { IfOk result (λ at. slice_get self.new.messages.items at ≡ Some message.now) }
        ensures err { OnErr result (self.new.messages.items ≡ self.old.messages.items) }
    {
        if let Some(at) = self.find(message) {
            return Ok(at);
        }
        let at = self.reserve()?;
        self.messages.push(message);
        Ok(at)
    }

    /// The listed place of the message. One that isn't found may still be there.
    fn find(&self, message: &Message) -> Option<u32>
        ensures { IfSome result (λ at. slice_get self.now.messages.items at ≡ Some message.now) }
    {
        let at = *self.rows.get(row(message))?.get(slot(message))?;
        if self.messages.has_at(at as usize, message) {
            Some(at)
        } else {
            None
        }
    }

    /// Adds what the last entry sent to the messages, for which there is memory.
    pub fn keep_posted(&mut self)
        requires { length self.old.messages.items + length self.old.posted.items ≤ self.old.messages.limit }
        ensures { self.new.messages.items ≡ self.old.messages.items ++ self.old.posted.items }
    {
        add_all(&mut self.messages, &mut self.rows, self.posted.as_slice());
    }
}

/// Adds messages, for which there is memory, and lists each whose number is the next of its row.
fn add_all(messages: &mut MessageList, rows: &mut Vec<Vec<u32>>, posted: &[Message])
    requires { length messages.old.items + length posted.now ≤ messages.old.limit }
    ensures { messages.new.items ≡ messages.old.items ++ posted.now }
{
    for message in posted {
        list(rows, messages.len() as u32, message);
        messages.push(message);
    }
}

/// Lists the place of a message whose number is the next of its row. If there is no memory for that, it isn't found.
fn list(rows: &mut Vec<Vec<u32>>, at: u32, message: &Message) {
    if let Some(places) = rows.get_mut(row(message)) {
        if places.len() == slot(message) {
            let _unlisted = places.push(at).is_err();
        }
    }
}
