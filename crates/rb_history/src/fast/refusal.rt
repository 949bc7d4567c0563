//! Refusals of a history's line, in one pass. `None` says nothing of a text.
ghost use Rattle.std.specs.Prelude.{◌≡◌, ◌++◌, IfSome};
ghost use Rattle.serde_json.specs.Written.{compact_text};
ghost use Rattle.rb_history.specs.Replies.{cause_json};
ghost use Rattle.rb_history.specs.Fits.{IsCause};
ghost use Rattle.rb_history.specs.Beginnings.{BeginsWithReply};

use crate::fast::number::{parse_u8, parse_u8_between, parse_u32_between};
use crate::fast::scan::parse_prefix;
use crate::keys::spell;
use crate::refusals::plain_refusal;
use rb_money::{Cause, Refusal};
use rb_site::Reply;

/// Too few red operations applied.
pub fn parse_behind(text: &str) -> Option<(Reply, &str)>
    ensures { IfSome result (λ p. BeginsWithReply p.0 text.now p.1.now) }
{
    let (needed, rest) = parse_u32_between(
        text,
        spell!("{" needed ":"),
        spell!("," refused ":9," seen ":"),
    )?;
    let (seen, rest) = parse_u32_between(rest, "", "}")?;
    Some((Reply::Refused(Refusal::RedBehind { seen, needed }), rest))
}

/// An operation that is already cancelled.
pub fn parse_cancelled(text: &str) -> Option<(Reply, &str)>
    ensures { IfSome result (λ p. BeginsWithReply p.0 text.now p.1.now) }
{
    let (position, rest) = parse_u32_between(
        text,
        spell!("{" position ":"),
        spell!("," refused ":6}"),
    )?;
    let refusal = Refusal::AlreadyCancelled { position };
    Some((Reply::Refused(refusal), rest))
}

/// The cause that stopped a batch, after its key.
fn parse_cause(text: &str) -> Option<(Cause, &str)>
    ensures { IfSome result (λ p. IsCause p.0 × (text.now ≡ compact_text (cause_json p.0) ++ p.1.now)) }
{
    if let Some(rest) = parse_prefix(text, spell!(declined)) {
        return Some((Cause::Declined, rest));
    }
    let (number, rest) = parse_u8(text)?;
    Some((Cause::Refused(number), rest))
}

/// A batch refused.
pub fn parse_batch(text: &str) -> Option<(Reply, &str)>
    ensures { IfSome result (λ p. BeginsWithReply p.0 text.now p.1.now) }
{
    let (cause, rest) = parse_cause(parse_prefix(text, spell!("{" cause ":"))?)?;
    let (index, rest) = parse_u8_between(rest, spell!("," index ":"), spell!("," refused ":13}"))?;
    let refusal = Refusal::BatchRefused { index, cause };
    Some((Reply::Refused(refusal), rest))
}

/// A bad message.
fn parse_message(text: &str) -> Option<(Reply, &str)>
    ensures { IfSome result (λ p. BeginsWithReply p.0 text.now p.1.now) }
{
    let (why, rest) = parse_u8_between(text, spell!("{" refused ":17," why ":"), "}")?;
    Some((Reply::Refused(Refusal::BadMessage { why }), rest))
}

/// A refusal that is written as its number alone, or a bad message.
pub fn parse_refused(text: &str) -> Option<(Reply, &str)>
    ensures { IfSome result (λ p. BeginsWithReply p.0 text.now p.1.now) }
{
    match parse_u8_between(text, spell!("{" refused ":"), "}") {
        Some((number, rest)) => {
            let refusal = plain_refusal(number)?;
            Some((Reply::Refused(refusal), rest))
        }
        None => parse_message(text),
    }
}
