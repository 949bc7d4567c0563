//! An entry of a site's history that sent any message, in few bytes.
ghost use Rattle.std.specs.Prelude.{◌≡◌, ◌≤◌, ◌+◌, ◌++◌, vec_len, vec_capacity};
ghost use Rattle.rb_node.specs.Index.{noted_of};

use rb_site::Message;
use rb_token::TokenMessage;

/// The messages of an entry.
#[derive(Clone, Copy, Debug)]
pub enum Sending {
    /// Operations that the site made: as many as `first` were applied before the entry, and as many as `end` with it.
    Operations { first: u32, end: u32 },
    /// The token.
    Token(TokenMessage),
}

/// An entry that sent any message. It takes 20 bytes.
#[derive(Clone, Copy, Debug)]
pub struct SentEntry {
    /// How many entries are before it.
    pub before: u32,
    pub sent: Sending,
}

/// Notes an entry, if it sent any message, in the capacity that is there for one.
#[inline(always)]
pub(crate) fn note_sent(
    index: &mut Vec<SentEntry>,
    before: u32,
    first: u32,
    end: u32,
    messages: &[Message],
)
    requires { vec_len index.old + 1 ≤ vec_capacity index.old }
    ensures { index.new.items ≡ index.old.items ++ noted_of before first end messages.now }
{
    let sent = match messages.first() {
        Some(Message::Shadow(_)) => Sending::Operations { first, end },
        Some(Message::Token(message)) => Sending::Token(*message),
        None => return,
    };
    index.push_reserved(SentEntry { before, sent });
}
