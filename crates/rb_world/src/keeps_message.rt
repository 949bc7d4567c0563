//! The part that a world keeps of a message. It is a type parameter, so that a script keeps of an operation that was
//! sent only where its site has it, in 16 bytes in place of 112, by the same code.
ghost use Rattle.std.specs.Prelude.{◌≡◌, List, map};
ghost use Rattle.rb_site.specs.declared.message.Message.{Message as TheMessage};
ghost use Rattle.rb_site.specs.Events.{ModelSite};
ghost use Rattle.rb_site.specs.Seen.{state_of};
ghost use Rattle.rb_world.specs.Sent.{AreLonger, IsMadeAt};

use rb_site::{Event, KeepsEntry, Message, Site};
use rb_token::TokenMessage;
use std::snapshot::Snapshot;

/// The part of a message that is kept: the message, or where it can be had.
pub trait KeepsMessage: Drop {
    // The message that was noted.
    ghost noted: { Self → TheMessage };

    // It can be had from sites in these states.
    ghost IsThere: { List ModelSite → Self → Type 0 };

    /// Notes a message of a site, of which the operation at this position, from 1, is the one that the message has.
    fn note(message: &Message, site: u8, position: u32) -> Self
        ensures same { noted result ≡ message.now }
        ensures there { (ts : List ModelSite) → IsMadeAt ts site position message.now → IsThere ts result };

    /// Puts the event by which the message comes to a site in the place of another.
    fn arrive<E: KeepsEntry>(&self, sites: &[Site<E>], event: &mut Event)
        requires { IsThere (map state_of sites.now) self.now }
        ensures { event.new ≡ Event.Receive (noted self.now) };

    // It stays there.
    ghost stays: { (old new : List ModelSite) → AreLonger old new → (kept : Self) → IsThere old kept
        → IsThere new kept };
}

impl KeepsMessage for Message {
    ghost noted = { λ m. m };

    ghost IsThere = { λ ts m. Unit {0} };

    fn note(message: &Message, _site: u8, _position: u32) -> Message {
        *message
    }

    fn arrive<E: KeepsEntry>(&self, _sites: &[Site<E>], event: &mut Event) {
        *event = Event::Receive(*self);
    }

    ghost stays = { λ old new longer m there. tt };
}

/// Where a message can be had: an operation at its site, a token here.
#[derive(Clone, Copy)]
enum MessagePlace {
    Operation { site: u8, position: u32 },
    Token(TokenMessage),
}

/// A message that isn't kept, by its place. Only proofs read the message.
#[derive(Drop)]
pub struct PlacedMessage {
    place: MessagePlace,
    message: Snapshot<Message>,
}

impl KeepsMessage for PlacedMessage {
    ghost use Rattle.rb_world.specs.Places.{IsAtPlace, stays_at_place};

    ghost noted = { λ x. x.message.value };

    ghost IsThere = { λ ts x. IsAtPlace ts x.place x.message.value };

    #[inline(always)]
    fn note(message: &Message, site: u8, position: u32) -> PlacedMessage {
        let place = match message {
            Message::Shadow(_) => MessagePlace::Operation { site, position },
            Message::Token(token) => MessagePlace::Token(*token),
        };
        PlacedMessage {
            place,
            message: Snapshot::of(message),
        }
    }

    #[inline(always)]
    fn arrive<E: KeepsEntry>(&self, sites: &[Site<E>], event: &mut Event) {
        match self.place {
            MessagePlace::Operation { site, position } => {
                let Some(site) = sites.get(site as usize) else {
                    unreachable!();
                };
                let Some(made) = site.ledger().operation(position) else {
                    unreachable!();
                };
                *event = Event::Receive(Message::Shadow(made.shadow()));
            }
            MessagePlace::Token(token) => *event = Event::Receive(Message::Token(token)),
        }
    }

    ghost stays = { λ old new longer x there. stays_at_place old new longer x.place x.message.value there };
}
