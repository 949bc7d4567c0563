//! The receiving ends of links.
//!
//! Memory for a message is taken before it leaves its link, so that running out of memory loses none. The inlet keeps
//! what finds the inbox full. All of it is received again after each application, as a later one may be ready first.
ghost use Rattle.std.specs.Prelude.{◌≡◌, ◌<◌, ◌++◌, ◌∷◌, [], IfOk, IfSome, MatchBool, OnErr, Some, length, slice_get};
ghost use Rattle.std.specs.List.{remove};
ghost use Rattle.rb_branch.specs.Seats.{IsSiteMessage};
ghost use Rattle.rb_site.specs.declared.message.Message.{Message as MessageOf};

use crate::{Entries, Letter};
use crossbeam_channel::Receiver;
use rb_site::Message;
use std::alloc::{AllocError, Global};
use std::marker::Model;
use std::sync::Wait;

/// The receiving end of a site's link. It keeps what was taken from the link until its site has received it; what
/// finds the inbox full stays. Clients see what it keeps, in the order in which it was taken.
#[derive(Drop)]
pub struct Inlet<E: Entries> {
    link: Receiver<Letter<E>>,
    kept: Vec<Letter<E>>,
}

impl<E: Entries> Model for Inlet<E> {
    ghost use Rattle.std.specs.Prelude.{List};
    ghost use Rattle.rb_site.specs.declared.message.Message.{Message};

    ghost Value = { List Message };

    ghost view = { λ inlet. inlet.kept.items };
}

impl<E: Entries> Inlet<E> {
    /// The end of this link, which keeps nothing.
    pub(crate) fn new(alloc: Global, link: Receiver<Letter<E>>) -> Inlet<E>
        ensures { result ≡ [] }
    {
        Inlet {
            link,
            kept: Vec::new(alloc),
        }
    }

    /// The next message of the link, once there is one, which isn't kept. `None` once every outbox is dropped
    /// and nothing is left in the link.
    pub fn next<W: Wait>(&mut self, rt: &W) -> Option<Message>
        ensures same { self.new ≡ self.old }
        ensures sent { IfSome result (IsSiteMessage E.settings) }
    {
        match self.link.recv(rt) {
            Ok(letter) => Some(letter.message()),
            Err(_) => None,
        }
    }

    /// The letters that it keeps.
    pub fn kept(&self) -> &[Letter<E>]
        ensures { result.now ≡ self.now }
    {
        self.kept.as_slice()
    }

    /// Takes the next message from the link, once there is one, and keeps it after the others. `false` once
    /// the link is closed. After an `Err`, out of memory, nothing was taken.
    pub(crate) fn take<W: Wait>(&mut self, rt: &W) -> Result<bool, AllocError>
        ensures ok { IfOk result
            (λ b. MatchBool b ((m : MessageOf) × (self.new ≡ self.old ++ m ∷ [])) (self.new ≡ self.old)) }
        ensures err { OnErr result (self.new ≡ self.old) }
    {
        self.kept.reserve(1)?;
        let Ok(letter) = self.link.recv(rt) else {
            return Ok(false);
        };
        self.kept.push_reserved(letter);
        Ok(true)
    }

    /// Takes the next message that has come by the link, without waiting, and keeps it after the others. `false` if
    /// none has come. After an `Err`, out of memory, nothing was taken.
    pub(crate) fn take_come<W: Wait>(&mut self, rt: &W) -> Result<bool, AllocError>
        ensures ok { IfOk result
            (λ b. MatchBool b ((m : MessageOf) × (self.new ≡ self.old ++ m ∷ [])) (self.new ≡ self.old)) }
        ensures err { OnErr result (self.new ≡ self.old) }
    {
        self.kept.reserve(1)?;
        let Ok(come) = self.link.try_recv(rt) else {
            return Ok(false);
        };
        self.kept.push_reserved(come);
        Ok(true)
    }

    /// The kept message at this index, from 0.
    pub(crate) fn message(&self, index: usize) -> Message
        requires { index < length self.now }
        ensures at { slice_get self.now index ≡ Some result }
        ensures sent { IsSiteMessage E.settings result }
    {
        self.kept[index].message()
    }

    /// Keeps the message at this index, from 0, no longer.
    pub(crate) fn let_go(&mut self, index: usize)
        requires { index < length self.old }
        ensures { self.new ≡ remove self.old index }
    {
        self.kept.remove(index);
    }
}
