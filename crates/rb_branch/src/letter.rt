//! What a link carries.
ghost use Rattle.std.specs.Prelude.{◌≡◌};
ghost use Rattle.rb_branch.specs.Seats.{IsSiteMessage};

use crate::Entries;
use rb_site::Message;
use std::marker::{Model, PhantomData};

/// A message on a link, which a site of the branch's configuration sends: who gets it by any link knows that by the
/// type. Clients see the message.
#[derive(Drop)]
pub struct Letter<E: Entries> {
    message: Message,
    of: PhantomData<E>,
}

impl<E: Entries> Model for Letter<E> {
    ghost use Rattle.rb_branch.specs.Seats.{IsSiteMessage};
    ghost use Rattle.rb_site.specs.declared.message.Message.{Message};

    ghost Value = { Message };

    ghost view = { λ letter. letter.message };

    ghost invariant = { λ letter. IsSiteMessage E.settings letter.message };
}

impl<E: Entries> Letter<E> {
    /// The letter of a message.
    pub(crate) fn new(message: Message) -> Letter<E>
        requires { IsSiteMessage E.settings message }
        ensures { result ≡ message }
    {
        Letter {
            message,
            of: PhantomData,
        }
    }

    /// The message.
    pub fn message(&self) -> Message
        ensures same { result ≡ self.now }
        ensures sent { IsSiteMessage E.settings self.now }
    {
        self.message
    }
}
