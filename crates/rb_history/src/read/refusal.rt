//! Refusals, from a history's line.
ghost use Rattle.std.specs.Prelude.{◌≡◌};
ghost use Rattle.serde_json.specs.View.{view};
ghost use Rattle.rb_history.specs.RepliesRead.{refused_batch_parsed, behind_of, cancelled_of, cause_at};
ghost use Rattle.rb_history.specs.RepliesRead.{is_word_declined, bad_message_parsed, plain_of};
ghost use Rattle.rb_history.specs.RepliesRead.{refusal_parsed};

use crate::keys::key;
use crate::read::value::{byte, size, word};
use crate::refusals::plain_refusal;
use rb_money::{Cause, Refusal};
use serde_json::Value;

/// Whether a value is the word of a withdrawal or a transfer that would be declined.
fn is_declined(value: &Value) -> bool
    ensures { result ≡ is_word_declined (view value.now) }
{
    match value.as_str() {
        Some(word) => word == key!(declined),
        None => false,
    }
}

/// The cause that stopped a batch.
fn cause(value: &Value) -> Option<Cause>
    ensures { result ≡ cause_at (view value.now) }
{
    if is_declined(value) {
        return Some(Cause::Declined);
    }
    let number = byte(value)?;
    Some(Cause::Refused(number))
}

fn cancelled(value: &Value) -> Option<Refusal>
    ensures { result ≡ cancelled_of (view value.now) }
{
    if size(value) != 2 {
        return None;
    }
    let position = word(value.get(key!(position))?)?;
    Some(Refusal::AlreadyCancelled { position })
}

fn behind(value: &Value) -> Option<Refusal>
    ensures { result ≡ behind_of (view value.now) }
{
    if size(value) != 3 {
        return None;
    }
    let seen = word(value.get(key!(seen))?)?;
    let needed = word(value.get(key!(needed))?)?;
    Some(Refusal::RedBehind { seen, needed })
}

fn batch(value: &Value) -> Option<Refusal>
    ensures { result ≡ refused_batch_parsed (view value.now) }
{
    if size(value) != 3 {
        return None;
    }
    let index = byte(value.get(key!(index))?)?;
    let cause = cause(value.get(key!(cause))?)?;
    Some(Refusal::BatchRefused { index, cause })
}

fn message(value: &Value) -> Option<Refusal>
    ensures { result ≡ bad_message_parsed (view value.now) }
{
    if size(value) != 2 {
        return None;
    }
    let why = byte(value.get(key!(why))?)?;
    Some(Refusal::BadMessage { why })
}

fn plain(value: &Value, number: u8) -> Option<Refusal>
    ensures { result ≡ plain_of (view value.now) number }
{
    if size(value) != 1 {
        return None;
    }
    plain_refusal(number)
}

/// The refusal of this number that an object is read as.
pub fn refusal(value: &Value, number: u8) -> Option<Refusal>
    ensures { result ≡ refusal_parsed (view value.now) number }
{
    if number == 6 {
        return cancelled(value);
    }
    if number == 9 {
        return behind(value);
    }
    if number == 13 {
        return batch(value);
    }
    if number == 17 {
        return message(value);
    }
    plain(value, number)
}
