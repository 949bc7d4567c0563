//! The messages that were sent, in order. Of each only its place in the list of all is kept, so that to send one copies
//! no message.
ghost use Rattle.std.specs.Prelude.{◌≡◌, ◌↔◌, ◌<◌, ◌≤◌, ◌+◌, ◌^◌, ◌++◌, [], IsTrue, OnOk, OnErr, Some};
ghost use Rattle.std.specs.Prelude.{length, take, drop, option_map};
ghost use Rattle.std.specs.Prelude.{slice_get};
ghost use Rattle.rb_site.specs.declared.message.Message.{Message as TheMessage};
ghost use Rattle.rb_auditor.specs.Sent.{row_of_message, slot_of};

use crate::message_list::MessageList;
use std::alloc::{AllocError, Global};
use std::marker::Model;

/// The messages that were sent so far, in order. Each is read in the list of all. Clients see both.
#[derive(Drop)]
pub struct Posted<'a> {
    all: &'a MessageList,
    // The place of each among all.
    places: Vec<usize>,
}

impl<'a> Model for Posted<'a> {
    ghost use Rattle.std.specs.Prelude.{slice_get};
    ghost use Rattle.std.specs.List.{filter_map};
    ghost use Rattle.rb_auditor.specs.MessageLists.{AreThere, SentTable};

    ghost Value = { SentTable };

    ghost view = { λ p. record {
      all = p.all.now.items;
      items = filter_map (slice_get p.all.now.items) p.places.items;
    } };

    ghost invariant = { λ p. AreThere (slice_get p.all.now.items) p.places.items };
}

impl<'a> Posted<'a> {
    /// Before any of these messages is sent.
    pub fn new(alloc: Global, all: &'a MessageList) -> Posted<'a>
        ensures all { result.all ≡ all.now.items }
        ensures none { result.items ≡ [] }
    {
        Posted {
            all,
            places: Vec::new(alloc),
        }
    }

    /// How many were sent.
    pub fn len(&self) -> usize
        ensures same { result ≡ length self.now.items }
        ensures few { result < 2 ^ 63 }
    {
        self.places.len()
    }

    /// The row and the slot in which the message at a place among all is listed.
    #[inline(always)]
    pub fn number(&self, place: usize) -> Option<(usize, usize)>
        ensures { result ≡ option_map (λ m. (row_of_message m, slot_of m)) (slice_get self.now.all place) }
    {
        self.all.number(place)
    }

    /// Whether the message at a place among all is the one that was sent at a position.
    #[inline(always)]
    pub fn is_at(&self, position: usize, place: usize) -> bool
        ensures { (m : TheMessage) → slice_get self.now.all place ≡ Some m
            → (IsTrue result ↔ (slice_get self.now.items position ≡ Some m)) }
    {
        match self.places.get(position) {
            Some(known) => *known == place || self.all.are_same(*known, place),
            None => false,
        }
    }

    /// Adds messages that are among all, from a place on. `Err` means out of memory, and adds none.
    pub fn add(&mut self, first: u32, count: u8) -> Result<(), AllocError>
        requires { first + count ≤ length self.old.all }
        ensures all { self.new.all ≡ self.old.all }
        ensures ok { OnOk result (self.new.items ≡ self.old.items ++ take count (drop first self.old.all)) }
        ensures err { OnErr result (self.new.items ≡ self.old.items) }
    {
        self.places.reserve(count as usize)?;
        for place in first as usize..first as usize + count as usize {
            self.places.push_reserved(place);
        }
        Ok(())
    }
}
