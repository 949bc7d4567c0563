//! Replies of a history's line, in one pass. `None` says nothing of a text.
ghost use Rattle.std.specs.Prelude.{IfSome};
ghost use Rattle.rb_history.specs.Beginnings.{BeginsWithReply, BeginsWithEach};
ghost use Rattle.rb_shadow.specs.NameText.{IsName};
ghost use Rattle.rb_history.specs.Values.{name_json};

use crate::fast::kind::parse_label;
use crate::fast::name::{parse_name, parse_name_between};
use crate::fast::number::{parse_u32_between, parse_u64_between};
use crate::fast::refusal::{parse_batch, parse_behind, parse_cancelled, parse_refused};
use crate::fast::scan::parse_prefix;
use crate::fast::statement::parse_statement;
use crate::keys::spell;
use rb_kit::List;
use rb_shadow::OpName;
use rb_site::Reply;
use std::alloc::Global;

/// An operation that was made.
#[inline(always)]
fn parse_made<'a>(text: &'a str, reply: &mut Reply) -> Option<&'a str>
    ensures { IfSome result (λ rest. BeginsWithReply reply.new text.now rest.now) }
{
    let (kind, rest) = parse_label(parse_prefix(text, spell!("{" kind ":\""))?)?;
    let (name, rest) = parse_name_between(rest, spell!("," name ":\""), "}")?;
    *reply = Reply::Made { name, kind };
    Some(rest)
}

/// The names of a list, and its closing bracket.
fn parse_list<'a>(alloc: Global, text: &'a str) -> Option<(Vec<OpName>, &'a str)>
    ensures { IfSome result (λ p. BeginsWithEach name_json IsName p.0.items text.now p.1.now) }
{
    let mut names = Vec::new(alloc);
    let mut left = text;
    let mut comma = "";
    for _ in 0..text.len() {
        if let Some(rest) = parse_prefix(left, "]") {
            return Some((names, rest));
        }
        let (name, rest) = parse_name(parse_prefix(parse_prefix(left, comma)?, "\"")?)?;
        if names.push(name).is_err() {
            return None;
        }
        left = rest;
        comma = ",";
    }
    None
}

/// The names that a batch made.
fn parse_names<'a>(alloc: Global, text: &'a str) -> Option<(Reply, &'a str)>
    ensures { IfSome result (λ p. BeginsWithReply p.0 text.now p.1.now) }
{
    let (names, rest) = parse_list(alloc, parse_prefix(text, spell!("{" names ":["))?)?;
    Some((Reply::Names(List::new(names)), parse_prefix(rest, "}")?))
}

#[inline(always)]
fn parse_held<'a>(text: &'a str, reply: &mut Reply) -> Option<&'a str>
    ensures { IfSome result (λ rest. BeginsWithReply reply.new text.now rest.now) }
{
    let (name, rest) = parse_name_between(text, spell!("{" held ":\""), "}")?;
    *reply = Reply::Held(name);
    Some(rest)
}

fn parse_already(text: &str) -> Option<(Reply, &str)>
    ensures { IfSome result (λ p. BeginsWithReply p.0 text.now p.1.now) }
{
    let (name, rest) = parse_name_between(text, spell!("{" already ":\""), "}")?;
    Some((Reply::Already(name), rest))
}

#[inline(always)]
fn parse_applied<'a>(text: &'a str, reply: &mut Reply) -> Option<&'a str>
    ensures { IfSome result (λ rest. BeginsWithReply reply.new text.now rest.now) }
{
    let (name, rest) = parse_name_between(text, spell!("{" applied ":\""), "}")?;
    *reply = Reply::Applied(name);
    Some(rest)
}

fn parse_taken(text: &str) -> Option<(Reply, &str)>
    ensures { IfSome result (λ p. BeginsWithReply p.0 text.now p.1.now) }
{
    let (epoch, rest) = parse_u32_between(text, spell!("{" taken ":"), "}")?;
    Some((Reply::Taken(epoch), rest))
}

fn parse_stale(text: &str) -> Option<(Reply, &str)>
    ensures { IfSome result (λ p. BeginsWithReply p.0 text.now p.1.now) }
{
    let (epoch, rest) = parse_u32_between(text, spell!("{" stale ":"), "}")?;
    Some((Reply::Stale(epoch), rest))
}

fn parse_passed(text: &str) -> Option<(Reply, &str)>
    ensures { IfSome result (λ p. BeginsWithReply p.0 text.now p.1.now) }
{
    let (epoch, rest) = parse_u32_between(text, spell!("{" passed ":"), "}")?;
    Some((Reply::Passed(epoch), rest))
}

/// A balance, in cents.
#[inline(always)]
fn parse_balance<'a>(text: &'a str, reply: &mut Reply) -> Option<&'a str>
    ensures { IfSome result (λ rest. BeginsWithReply reply.new text.now rest.now) }
{
    let (cents, rest) = parse_u64_between(text, spell!("{" balance ":"), "}")?;
    *reply = Reply::Balance(cents);
    Some(rest)
}

/// A reply that comes seldom, as the first letters of its first key say.
fn parse_rare<'a>(alloc: Global, text: &'a str) -> Option<(Reply, &'a str)>
    ensures { IfSome result (λ p. BeginsWithReply p.0 text.now p.1.now) }
{
    match (text.as_bytes().get(2), text.as_bytes().get(3)) {
        (Some(b'a'), _) => parse_already(text),
        (Some(b'r'), _) => parse_refused(text),
        (Some(b'b'), _) => parse_statement(alloc, text),
        (Some(b't'), _) => parse_taken(text),
        (Some(b's'), _) => parse_stale(text),
        (Some(b'p'), Some(b'a')) => parse_passed(text),
        (Some(b'p'), _) => parse_cancelled(text),
        (Some(b'n'), Some(b'a')) => parse_names(alloc, text),
        (Some(b'n'), _) => parse_behind(text),
        _ => parse_batch(text),
    }
}

/// A reply that comes seldom, in its place, and what follows it.
#[inline(never)]
fn put_rare<'a>(alloc: Global, text: &'a str, reply: &mut Reply) -> Option<&'a str>
    ensures { IfSome result (λ rest. BeginsWithReply reply.new text.now rest.now) }
{
    let Some((found, rest)) = parse_rare(alloc, text) else {
        return None;
    };
    *reply = found;
    Some(rest)
}

/// A reply, in its place, and what follows it. The first letters of its first key say which it is. After `None` it may
/// be any.
#[inline(always)]
pub fn parse_reply<'a>(alloc: Global, text: &'a str, reply: &mut Reply) -> Option<&'a str>
    ensures { IfSome result (λ rest. BeginsWithReply reply.new text.now rest.now) }
{
    match (text.as_bytes().get(2), text.as_bytes().get(3)) {
        (Some(b'k'), _) => parse_made(text, reply),
        (Some(b'h'), _) => parse_held(text, reply),
        (Some(b'a'), Some(b'p')) => parse_applied(text, reply),
        (Some(b'b'), _) => match parse_balance(text, reply) {
            Some(rest) => Some(rest),
            None => put_rare(alloc, text, reply),
        },
        _ => put_rare(alloc, text, reply),
    }
}
