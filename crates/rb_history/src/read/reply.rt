//! Replies, from a history's line.
ghost use Rattle.std.specs.Prelude.{◌≡◌, ◌^◌, option_and_then, option_map};
ghost use Rattle.serde_json.specs.View.{view};
ghost use Rattle.rb_site.specs.declared.reply.Reply.TheVariants.{Names, Refused};
ghost use Rattle.rb_history.specs.Lines.{Gives, GivesAs};
ghost use Rattle.rb_history.specs.RepliesRead.{answer_of, made_parsed, names_at, refusal_parsed};
ghost use Rattle.rb_history.specs.RepliesRead.{reply_parsed, short_of};
ghost use Rattle.rb_history.specs.RepliesRead.{simple_of};
ghost use Rattle.rb_history.specs.Values.{number_below};

use crate::fault::LineFault;
use crate::keys::key;
use crate::read::refusal::refusal;
use crate::read::statement::statement;
use crate::read::value::{byte, label, long, name, size, word};
use rb_kit::List;
use rb_shadow::OpName;
use rb_site::Reply;
use serde_json::Value;
use std::alloc::{AllocError, Global};

/// A reply of one name or one number, by a key of an object that may have others.
fn simple(value: &Value) -> Option<Reply>
    ensures { result ≡ simple_of (view value.now) }
{
    if let Some(made) = value.get(key!(held)) {
        return name(made).map(Reply::Held);
    }
    if let Some(made) = value.get(key!(already)) {
        return name(made).map(Reply::Already);
    }
    if let Some(epoch) = value.get(key!(taken)) {
        return word(epoch).map(Reply::Taken);
    }
    if let Some(epoch) = value.get(key!(stale)) {
        return word(epoch).map(Reply::Stale);
    }
    if let Some(made) = value.get(key!(applied)) {
        return name(made).map(Reply::Applied);
    }
    if let Some(epoch) = value.get(key!(passed)) {
        return word(epoch).map(Reply::Passed);
    }
    long(value.get(key!(balance))?).map(Reply::Balance)
}

/// The names of a list, in its order.
fn names(alloc: Global, value: &Value) -> Result<Vec<OpName>, LineFault>
    ensures { GivesAs (λ v. v.items) result (names_at (view value.now)) }
{
    let items = value.as_array().ok_or(LineFault::Bad)?;
    let mut names = Vec::new(alloc);
    for item in items {
        let name = name(item).ok_or(LineFault::Bad)?;
        names.push(name).map_err(AllocError::from)?;
    }
    Ok(names)
}

/// The names of what a batch made.
fn made_by_batch(alloc: Global, list: &Value) -> Result<Reply, LineFault>
    ensures { Gives result (option_map Names (names_at (view list.now))) }
{
    let names = names(alloc, list)?;
    Ok(Reply::Names(List::new(names)))
}

/// A reply, from an object of one member.
fn short(alloc: Global, value: &Value) -> Result<Reply, LineFault>
    ensures { Gives result (short_of (view value.now)) }
{
    if let Some(list) = value.get(key!(names)) {
        return made_by_batch(alloc, list);
    }
    match simple(value) {
        Some(reply) => Ok(reply),
        None => Err(LineFault::Bad),
    }
}

/// An operation that was made, from an object of two members.
fn made(value: &Value) -> Option<Reply>
    ensures { result ≡ made_parsed (view value.now) }
{
    let name = name(value.get(key!(name))?)?;
    let kind = label(value.get(key!(kind))?)?;
    Some(Reply::Made { name, kind })
}

/// A reply that is no refusal.
fn answer(alloc: Global, value: &Value) -> Result<Reply, LineFault>
    ensures { Gives result (answer_of (view value.now)) }
{
    let size = size(value);
    if size == 1 {
        return short(alloc, value);
    }
    if size == 3 {
        return statement(alloc, value);
    }
    if size != 2 {
        return Err(LineFault::Bad);
    }
    match made(value) {
        Some(reply) => Ok(reply),
        None => Err(LineFault::Bad),
    }
}

/// A refusal, by the value of its number.
fn refused(value: &Value, number: &Value) -> Option<Reply>
    ensures { result ≡ option_map Refused (option_and_then (refusal_parsed (view value.now))
        (number_below (2 ^ 8) (view number.now))) }
{
    let number = byte(number)?;
    refusal(value, number).map(Reply::Refused)
}

/// The reply that an object is.
pub fn reply(alloc: Global, value: &Value) -> Result<Reply, LineFault>
    ensures { Gives result (reply_parsed (view value.now)) }
{
    let Some(number) = value.get(key!(refused)) else {
        return answer(alloc, value);
    };
    match refused(value, number) {
        Some(reply) => Ok(reply),
        None => Err(LineFault::Bad),
    }
}
