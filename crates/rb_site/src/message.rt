//! Messages between sites.
ghost use Rattle.std.specs.Prelude.{◌≡◌, ◌↔◌, IsTrue};

use crate::same::{same_in, same_token};
use rb_shadow::Shadow;
use rb_token::TokenMessage;

/// A message that one site sends to another.
#[derive(Clone, Copy, Debug, PartialEq, Eq)]
pub enum Message {
    /// An operation.
    Shadow(Shadow),
    /// The token.
    Token(TokenMessage),
}

impl Message {
    /// Whether the two are equal.
    pub fn same(&self, other: &Message) -> bool
        ensures { IsTrue result ↔ (self.now ≡ other.now) }
    {
        match self {
            Message::Shadow(shadow) => same_in!(other, Message::Shadow(it) => shadow.same(it)),
            Message::Token(token) => same_in!(other, Message::Token(it) => same_token(token, it)),
        }
    }
}
