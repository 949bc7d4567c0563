//! The numbers by which messages are listed: a row and a position in it.
ghost use Rattle.std.specs.Prelude.{◌≡◌, ◌+◌, ◌-◌};
ghost use Rattle.rb_shadow.specs.Operations.{number_of, row_of};
ghost use Rattle.rb_auditor.specs.Sent.{row_of_message, slot_of};

use rb_shadow::OpName;
use rb_site::Message;

/// The row of a message: 0 for a token, 1 for a red operation, and 2 more than its home for a blue one.
pub fn row(message: &Message) -> usize
    ensures { result ≡ row_of_message message.now }
{
    match message {
        Message::Token(_) => 0,
        Message::Shadow(shadow) => name_row(shadow.name),
    }
}

/// The position of a message in its row, from 0: numbers and epochs begin at 1.
pub fn slot(message: &Message) -> usize
    ensures { result ≡ slot_of message.now }
{
    match message {
        Message::Token(token) => token.epoch.saturating_sub(1) as usize,
        Message::Shadow(shadow) => name_slot(shadow.name),
    }
}

/// The row of the operation of a name: the first one is that of the tokens.
#[inline(always)]
pub fn name_row(name: OpName) -> usize
    ensures { result ≡ row_of name + 1 }
{
    name.row() + 1
}

/// The position of the operation of a name in its row.
#[inline(always)]
pub fn name_slot(name: OpName) -> usize
    ensures { result ≡ number_of name - 1 }
{
    name.number().saturating_sub(1) as usize
}
