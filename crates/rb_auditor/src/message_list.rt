//! A list of messages, in less memory than one of them whole: of the clock of an operation it keeps the entries of the
//! bank's sites alone, if all others are 0. Memory is taken for all its parts at once, so that to add a message can't
//! fail.
ghost use Rattle.std.specs.Prelude.{◌≡◌, ◌↔◌, ◌<◌, ◌≤◌, ◌+◌, ◌^◌, ◌++◌, ◌∷◌, [], IsTrue, OnOk, Some, length};
ghost use Rattle.std.specs.Prelude.{option_map, slice_get};
ghost use Rattle.rb_money.specs.declared.limits.TheConstants.{MOST_OPERATIONS as THE_MOST_OPERATIONS, MOST_SITES};
ghost use Rattle.rb_site.specs.declared.message.Message.{Message as TheMessage};
ghost use Rattle.rb_site.specs.declared.message.Message.TheVariants.{Shadow as ShadowMessage};
ghost use Rattle.rb_auditor.specs.MessageLists.{HasCompactForm};
ghost use Rattle.rb_auditor.specs.Sent.{row_of_message, slot_of};

use crate::compact_operations::has_compact_form;
use crate::kept_at::KeptAt;
use crate::message::{name_row, name_slot, row, slot};
use rb_ledger::OperationList;
use rb_money::MOST_OPERATIONS;
use rb_shadow::Shadow;
use rb_site::Message;
use std::alloc::{AllocError, Global};
use std::marker::Model;

/// Keeps messages in their order, in little memory. Clients see the messages, and for how many there is memory.
#[derive(Drop)]
pub struct MessageList {
    compact: OperationList,
    // Tokens, and operations with other clocks, which no site of the bank makes.
    others: Vec<Message>,
    // The place of each message.
    positions: Vec<KeptAt>,
    limit: usize,
}

impl Model for MessageList {
    ghost use Rattle.std.specs.Prelude.{length, ◌≤◌, ◌<◌, ◌+◌, ◌^◌, vec_capacity};
    ghost use Rattle.std.specs.List.{filter_map};
    ghost use Rattle.rb_auditor.specs.MessageLists.{AreThere, MessageTable, message_kept_at};

    ghost Value = { MessageTable };

    ghost view = { λ l. record {
      items = filter_map (message_kept_at l.compact.items l.others.items) l.positions.items;
      compact = length l.compact.items;
      sites = l.compact.sites;
      limit = l.limit;
    } };

    ghost invariant = { λ l. record {
      each : AreThere (message_kept_at l.compact.items l.others.items) l.positions.items;
      whole : length l.compact.items + length l.others.items ≤ length l.positions.items;
      within : length l.positions.items ≤ l.limit;
      few : l.limit < 2 ^ 32;
      compact_fit : l.limit ≤ l.compact.limit;
      others_fit : l.limit ≤ vec_capacity l.others;
      positions_fit : l.limit ≤ vec_capacity l.positions;
    } };
}

impl MessageList {
    /// No messages, of a bank of this number of sites, without memory for any.
    pub fn new(alloc: Global, sites: u8) -> MessageList
        requires { sites ≤ MOST_SITES }
        ensures { result.items ≡ [] }
    {
        MessageList {
            compact: OperationList::new(alloc, sites),
            others: Vec::new(alloc),
            positions: Vec::new(alloc),
            limit: 0,
        }
    }

    /// How many there are.
    pub fn len(&self) -> usize
        ensures same { result ≡ length self.now.items }
        ensures few { result < 2 ^ 32 }
    {
        self.positions.len()
    }

    /// The message at an index, from 0. `None` past the last.
    #[inline(always)]
    pub fn get(&self, index: usize) -> Option<Message>
        ensures { result ≡ slice_get self.now.items index }
    {
        match *self.positions.get(index)? {
            KeptAt::Compact { at } => Some(Message::Shadow(self.compact.get(at as usize)?)),
            KeptAt::Other { at } => Some(*self.others.get(at as usize)?),
        }
    }

    /// The row and the slot in which the message at an index is listed. `None` past the last.
    #[inline(always)]
    pub fn number(&self, index: usize) -> Option<(usize, usize)>
        ensures { result ≡ option_map (λ m. (row_of_message m, slot_of m)) (slice_get self.now.items index) }
    {
        match *self.positions.get(index)? {
            KeptAt::Compact { at } => {
                let name = self.compact.at(at as usize)?.name();
                Some((name_row(name), name_slot(name)))
            }
            KeptAt::Other { at } => {
                let message = self.others.get(at as usize)?;
                Some((row(message), slot(message)))
            }
        }
    }

    /// Whether the message is at an index.
    #[inline(always)]
    pub fn has_at(&self, index: usize, message: &Message) -> bool
        ensures { IsTrue result ↔ (slice_get self.now.items index ≡ Some message.now) }
    {
        match self.get(index) {
            Some(known) => known.same(message),
            None => false,
        }
    }

    /// Whether the message at an index is that at another.
    #[inline(never)]
    pub fn are_same(&self, index: usize, other: usize) -> bool
        ensures { (m : TheMessage) → slice_get self.now.items other ≡ Some m
            → (IsTrue result ↔ (slice_get self.now.items index ≡ Some m)) }
    {
        match self.get(other) {
            Some(message) => self.has_at(index, &message),
            None => false,
        }
    }

    /// Takes memory for this many messages more. `Err` means out of memory, or that there would be 2^32 or more.
    #[inline(always)]
    pub fn reserve(&mut self, more: usize) -> Result<(), AllocError>
        ensures items { self.new.items ≡ self.old.items }
        ensures room { OnOk result (length self.old.items + more ≤ self.new.limit) }
        ensures few { OnOk result (self.new.limit < 2 ^ 32) }
    {
        let Some(least) = self.positions.len().checked_add(more) else {
            return Err(AllocError);
        };
        if least <= self.limit {
            return Ok(());
        }
        self.grow(least)
    }

    /// Takes memory for at least this number of messages in all, and for twice as many as before if that isn't more
    /// than there may be.
    fn grow(&mut self, least: usize) -> Result<(), AllocError>
        requires { self.old.limit < least }
        ensures items { self.new.items ≡ self.old.items }
        ensures room { OnOk result (least ≤ self.new.limit) }
        ensures few { OnOk result (self.new.limit < 2 ^ 32) }
    {
        let most = u32::MAX as usize;
        if least > most {
            return Err(AllocError);
        }
        let limit = least.max(most.min(self.limit * 2));
        self.compact.reserve(limit)?;
        self.others.reserve(limit - self.others.len())?;
        self.positions.reserve(limit - self.positions.len())?;
        self.limit = limit;
        Ok(())
    }

    /// Adds a message, for which there is memory.
    pub fn push(&mut self, message: &Message)
        requires { length self.old.items < self.old.limit }
        ensures items { self.new.items ≡ self.old.items ++ message.now ∷ [] }
        ensures limit { self.new.limit ≡ self.old.limit }
    {
        match message {
            Message::Shadow(shadow) if self.takes(shadow) => self.push_compact(shadow),
            _ => self.push_other(message),
        }
    }

    /// Whether the operation may be kept in little memory, and there aren't too many of these yet.
    #[inline(always)]
    fn takes(&self, shadow: &Shadow) -> bool
        ensures few { IsTrue result → self.now.compact < THE_MOST_OPERATIONS }
        ensures compact { IsTrue result → HasCompactForm self.now.sites shadow.now }
    {
        self.compact.len() < MOST_OPERATIONS as usize
            && has_compact_form(self.compact.sites(), shadow)
    }

    /// Adds an operation of which little is kept.
    fn push_compact(&mut self, shadow: &Shadow)
        requires room { length self.old.items < self.old.limit }
        requires few { self.old.compact < THE_MOST_OPERATIONS }
        requires compact { HasCompactForm self.old.sites shadow.now }
        ensures items { self.new.items ≡ self.old.items ++ ShadowMessage shadow.now ∷ [] }
        ensures limit { self.new.limit ≡ self.old.limit }
    {
        let at = self.compact.len() as u32;
        self.compact.push(shadow);
        self.positions.push_reserved(KeptAt::Compact { at });
    }

    /// Adds a message that is kept whole.
    fn push_other(&mut self, message: &Message)
        requires { length self.old.items < self.old.limit }
        ensures items { self.new.items ≡ self.old.items ++ message.now ∷ [] }
        ensures limit { self.new.limit ≡ self.old.limit }
    {
        let at = self.others.len() as u32;
        self.others.push_reserved(*message);
        self.positions.push_reserved(KeptAt::Other { at });
    }
}
