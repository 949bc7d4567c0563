//! Events, in one pass. `None` says nothing of a text.
//!
//! The members that commands and history lines share are read by one reader, [`parse_own`], from the first letter of
//! the key to the end of the value: a command has its site beside it, and an item of a batch, an event's line and an
//! entry an object of its own. An event goes into its place, since a large result is put into memory and read again,
//! 60 to 140 instructions.
ghost use Rattle.std.specs.Prelude.{◌≡◌, [], ◌++◌, codes, true, IfSome, Some};
ghost use Rattle.serde_json.specs.Written.{compact_text};
ghost use Rattle.rb_money.specs.Settings.{IsConfigured};
ghost use Rattle.rb_history.specs.Banks.{event_to, is_receipt};
ghost use Rattle.rb_history.specs.Entries.{asked_event_of_line, request_json};
ghost use Rattle.rb_history.specs.Fits.{IsRequest};
ghost use Rattle.rb_history.specs.Ids.{IsIdOrNone};
ghost use Rattle.rb_history.specs.Beginnings.{BeginsWithEach, BeginsWithEvent, BeginsWithOwn, BeginsWithRequest};
ghost use Rattle.rb_history.specs.Beginnings.{EndsWithId};
ghost use Rattle.rb_site.specs.declared.event.Event.TheVariants.{Apply, AsOf, Balance, Statement};

use crate::bank::BankName;
use crate::fast::account::{parse_account_behind, parse_account_between, parse_asked};
use crate::fast::id::parse_id_behind;
use crate::fast::name::parse_name_behind;
use crate::fast::number::{narrow, parse_u8, parse_u8_between, parse_u32_between};
use crate::fast::scan::parse_prefix;
use crate::fast::shadow::parse_received;
use crate::id::may_have_id;
use crate::keys::{behind_quote, spell};
use rb_kit::List;
use rb_money::{Config, Place};
use rb_scratch::Request;
use rb_shadow::OpName;
use rb_site::{Event, Message};
use rb_token::TokenMessage;
use std::alloc::Global;

#[inline(always)]
pub fn parse_deposit<'a>(config: &Config, text: &'a str) -> Option<(Request, &'a str)>
    ensures { IfSome result (λ p. BeginsWithRequest config.now p.0 text.now p.1.now) }
{
    let (account, amount, rest) = parse_asked(config, text, behind_quote!(deposit ":[\""))?;
    Some((Request::Deposit { account, amount }, rest))
}

#[inline(always)]
pub fn parse_withdraw<'a>(config: &Config, text: &'a str) -> Option<(Request, &'a str)>
    ensures { IfSome result (λ p. BeginsWithRequest config.now p.0 text.now p.1.now) }
{
    let (account, amount, rest) = parse_asked(config, text, behind_quote!(withdraw ":[\""))?;
    Some((Request::Withdraw { account, amount }, rest))
}

#[inline(always)]
pub fn parse_interest<'a>(config: &Config, text: &'a str) -> Option<(Request, &'a str)>
    ensures { IfSome result (λ p. BeginsWithRequest config.now p.0 text.now p.1.now) }
{
    let (account, n, rest) = parse_asked(config, text, behind_quote!(interest ":[\""))?;
    let rate = narrow(n)?;
    Some((Request::Interest { account, rate }, rest))
}

#[inline(always)]
pub fn parse_cancel<'a>(config: &Config, text: &'a str) -> Option<(Request, &'a str)>
    ensures { IfSome result (λ p. BeginsWithRequest config.now p.0 text.now p.1.now) }
{
    let (target, rest) = parse_name_behind(text, behind_quote!(cancel ":\""))?;
    Some((Request::Cancel { target }, rest))
}

#[inline(always)]
pub fn parse_transfer<'a>(config: &Config, text: &'a str) -> Option<(Request, &'a str)>
    ensures { IfSome result (λ p. BeginsWithRequest config.now p.0 text.now p.1.now) }
{
    let (from, rest) = parse_account_between(config, text, behind_quote!(transfer ":[\""), ",\"")?;
    let (to, amount, rest) = parse_asked(config, rest, "")?;
    Some((Request::Transfer { from, to, amount }, rest))
}

/// A request, as the first letter of its key says.
fn parse_request<'a>(config: &Config, text: &'a str) -> Option<(Request, &'a str)>
    ensures { IfSome result (λ p. BeginsWithRequest config.now p.0 text.now p.1.now) }
{
    match text.as_bytes().first() {
        Some(b'd') => parse_deposit(config, text),
        Some(b'w') => parse_withdraw(config, text),
        Some(b'i') => parse_interest(config, text),
        Some(b't') => parse_transfer(config, text),
        _ => parse_cancel(config, text),
    }
}

#[inline(always)]
fn parse_submit<'a>(config: &Config, text: &'a str, event: &mut Event) -> Option<&'a str>
    ensures { IfSome result (λ rest. BeginsWithOwn config.now event.new text.now rest.now) }
{
    let (request, rest) = parse_request(config, text)?;
    *event = Event::Submit(request);
    Some(rest)
}

/// A request in an object of its own.
#[inline(always)]
fn parse_item<'a>(config: &Config, text: &'a str) -> Option<(Request, &'a str)>
    ensures { IfSome result (λ p. IsRequest config.now p.0
        × (text.now ≡ compact_text (request_json config.now p.0) ++ p.1.now)) }
{
    let (request, rest) = parse_request(config, parse_prefix(text, "{\"")?)?;
    Some((request, parse_prefix(rest, "}")?))
}

/// The requests of a list, and its closing bracket.
fn parse_requests<'a>(
    alloc: Global,
    config: &Config,
    text: &'a str,
) -> Option<(Vec<Request>, &'a str)>
    ensures { IfSome result
        (λ p. BeginsWithEach (request_json config.now) (IsRequest config.now) p.0.items text.now p.1.now) }
{
    let mut requests = Vec::new(alloc);
    let mut left = text;
    let mut comma = "";
    for _ in 0..text.len() {
        if let Some(rest) = parse_prefix(left, "]") {
            return Some((requests, rest));
        }
        let (request, rest) = parse_item(config, parse_prefix(left, comma)?)?;
        if requests.push(request).is_err() {
            return None;
        }
        left = rest;
        comma = ",";
    }
    None
}

#[inline(always)]
fn parse_batch<'a>(
    alloc: Global,
    config: &Config,
    text: &'a str,
    event: &mut Event,
) -> Option<&'a str>
    ensures { IfSome result (λ rest. BeginsWithOwn config.now event.new text.now rest.now) }
{
    let list = parse_prefix(text, behind_quote!(batch ":["))?;
    let (requests, rest) = parse_requests(alloc, config, list)?;
    *event = Event::Batch(List::new(requests));
    Some(rest)
}

#[inline(always)]
pub fn parse_apply<'a>(config: &Config, text: &'a str) -> Option<(OpName, &'a str)>
    ensures { IfSome result (λ p. BeginsWithOwn config.now (Apply p.0) text.now p.1.now) }
{
    let (name, rest) = parse_name_behind(text, behind_quote!(apply ":\""))?;
    Some((name, rest))
}

#[inline(always)]
fn parse_pass<'a>(config: &Config, text: &'a str, event: &mut Event) -> Option<&'a str>
    ensures { IfSome result (λ rest. BeginsWithOwn config.now event.new text.now rest.now) }
{
    let (to, rest) = parse_u8(parse_prefix(text, behind_quote!(pass ":"))?)?;
    *event = Event::Pass(to);
    Some(rest)
}

#[inline(always)]
pub fn parse_balance<'a>(config: &Config, text: &'a str) -> Option<(Place, &'a str)>
    ensures { IfSome result (λ p. BeginsWithOwn config.now (Balance p.0) text.now p.1.now) }
{
    let (account, rest) = parse_account_behind(config, text, behind_quote!(balance ":\""))?;
    Some((account, rest))
}

#[inline(always)]
pub fn parse_as_of<'a>(config: &Config, text: &'a str) -> Option<(Place, u32, &'a str)>
    ensures { IfSome result (λ p. BeginsWithOwn config.now (AsOf p.0 p.1) text.now p.2.now) }
{
    let (account, n, rest) = parse_asked(config, text, behind_quote!(asof ":[\""))?;
    let position = narrow(n)?;
    Some((account, position, rest))
}

#[inline(always)]
pub fn parse_statement<'a>(config: &Config, text: &'a str) -> Option<(Place, &'a str)>
    ensures { IfSome result (λ p. BeginsWithOwn config.now (Statement p.0) text.now p.1.now) }
{
    let (account, rest) = parse_account_behind(config, text, behind_quote!(statement ":\""))?;
    Some((account, rest))
}

/// An event of a site's own, as the first letter and the third of its key say, in its place, and what follows its
/// value. After `None` the event may be any.
pub fn parse_own<'a>(
    alloc: Global,
    config: &Config,
    text: &'a str,
    event: &mut Event,
) -> Option<&'a str>
    ensures { IfSome result (λ rest. BeginsWithOwn config.now event.new text.now rest.now) }
{
    let key = text.as_bytes();
    match (key.first(), key.get(2)) {
        (Some(b'a'), Some(b'p')) => {
            let (name, rest) = parse_apply(config, text)?;
            *event = Event::Apply(name);
            Some(rest)
        }
        (Some(b'a'), _) => {
            let (account, position, rest) = parse_as_of(config, text)?;
            *event = Event::AsOf(account, position);
            Some(rest)
        }
        (Some(b'b'), Some(b'l')) => {
            let (account, rest) = parse_balance(config, text)?;
            *event = Event::Balance(account);
            Some(rest)
        }
        (Some(b's'), _) => {
            let (account, rest) = parse_statement(config, text)?;
            *event = Event::Statement(account);
            Some(rest)
        }
        (Some(b'b'), _) => parse_batch(alloc, config, text, event),
        (Some(b'p'), _) => parse_pass(config, text, event),
        _ => parse_submit(config, text, event),
    }
}

/// A token that comes, as the one member of an object, after the object's brace.
#[inline(never)]
fn parse_token<'a>(config: &Config, text: &'a str, event: &mut Event) -> Option<&'a str>
    ensures event { IfSome result (λ rest. BeginsWithEvent config.now event.new (codes "{" ++ text.now) rest.now) }
    ensures receipt { IfSome result (λ _. is_receipt event.new ≡ true) }
{
    let (epoch, rest) = parse_u32_between(text, spell!(token ":["), ",")?;
    let (to, rest) = parse_u8_between(rest, "", ",")?;
    let (red, rest) = parse_u32_between(rest, "", "]}")?;
    let token = TokenMessage { epoch, to, red };
    *event = Event::Receive(Message::Token(token));
    Some(rest)
}

/// A message that comes, as the one member of an object, after the object's brace.
#[inline(always)]
fn parse_message<'a>(config: &Config, text: &'a str, event: &mut Event) -> Option<&'a str>
    ensures event { IfSome result (λ rest. BeginsWithEvent config.now event.new (codes "{" ++ text.now) rest.now) }
    ensures receipt { IfSome result (λ _. is_receipt event.new ≡ true) }
{
    match text.as_bytes().get(1) {
        Some(b's') => parse_received(config, text, event),
        _ => parse_token(config, text, event),
    }
}

/// An event of a site's own, as the one member of an object.
#[inline(always)]
fn parse_object<'a>(
    alloc: Global,
    config: &Config,
    text: &'a str,
    event: &mut Event,
) -> Option<&'a str>
    ensures { IfSome result (λ rest. BeginsWithEvent config.now event.new text.now rest.now) }
{
    let inside = parse_prefix(text, "{\"")?;
    let behind = parse_own(alloc, config, inside, event)?;
    let rest = parse_prefix(behind, "}")?;
    Some(rest)
}

/// An event, as the one member of an object, in its place, and what follows it. After `None` the event may be any. The
/// first letter and the fourth of its key distinguish a message that comes from an event of the site's own.
pub fn parse_event<'a>(
    alloc: Global,
    config: &Config,
    text: &'a str,
    event: &mut Event,
) -> Option<&'a str>
    ensures { IfSome result (λ rest. BeginsWithEvent config.now event.new text.now rest.now) }
{
    let key = text.as_bytes();
    match (key.get(2), key.get(5)) {
        (Some(b's'), Some(b'd')) | (Some(b't'), Some(b'e')) => {
            parse_message(config, parse_prefix(text, "{")?, event)
        }
        _ => parse_object(alloc, config, text, event),
    }
}

/// A message beside the name of the bank that it is to, in its place, as all of a line. After `None` the event may
/// be any.
pub fn parse_sent(config: &Config, bank: &BankName, line: &str, event: &mut Event) -> Option<()>
    ensures { IfSome result (λ _. event_to config.now bank.now line.now
        ≡ Some (record { id = []; event = event.new })) }
{
    // For a fact alone: its settings are those of a configuration.
    let _sites = config.sites();
    let (name, rest) = parse_id_behind(line, spell!("{" bank ":\""))?;
    if name.as_bytes() != bank.as_bytes() {
        return None;
    }
    let end = parse_message(config, parse_prefix(rest, ",")?, event)?;
    if end != "" {
        return None;
    }
    Some(())
}

/// The id with which an object ends, if it has one, from the text after its other member.
#[inline(always)]
fn parse_last_id(text: &str) -> Option<&str>
    ensures { IfSome result (λ id. EndsWithId id.now text.now) }
{
    if text == "}" {
        return Some("");
    }
    let (id, rest) = parse_id_behind(text, spell!("," id ":\""))?;
    if rest != "}" {
        return None;
    }
    Some(id)
}

/// An event of a site's own as all of a line, in its place, with the id before it.
fn parse_id_first<'a>(
    alloc: Global,
    config: &Config,
    line: &'a str,
    event: &mut Event,
) -> Option<&'a str>
    requires { IsConfigured config.now }
    ensures value { IfSome result (λ id. asked_event_of_line config.now line.now
        ≡ Some (record { id = id.now; event = event.new })) }
    ensures id { IfSome result (λ id. IsIdOrNone id.now) }
{
    let (id, rest) = parse_id_behind(line, spell!("{" id ":\""))?;
    let behind = parse_own(alloc, config, parse_prefix(rest, ",\"")?, event)?;
    if behind != "}" || !may_have_id(event) {
        return None;
    }
    Some(id)
}

/// An event of a site's own as all of a line, in its place, with the id after it, or without an id.
#[inline(always)]
fn parse_id_last<'a>(
    alloc: Global,
    config: &Config,
    line: &'a str,
    event: &mut Event,
) -> Option<&'a str>
    requires { IsConfigured config.now }
    ensures value { IfSome result (λ id. asked_event_of_line config.now line.now
        ≡ Some (record { id = id.now; event = event.new })) }
    ensures id { IfSome result (λ id. IsIdOrNone id.now) }
{
    let behind = parse_own(alloc, config, parse_prefix(line, "{\"")?, event)?;
    let id = parse_last_id(behind)?;
    if id != "" && !may_have_id(event) {
        return None;
    }
    Some(id)
}

/// No id, if a line has nothing more.
#[inline(always)]
fn parse_no_more(rest: &str) -> Option<&str>
    ensures { IfSome result (λ id. (rest.now ≡ []) × (id.now ≡ [])) }
{
    if rest != "" {
        return None;
    }
    Some(rest)
}

/// The event of a line as it is written, in its place, and its id: no text if it has none. The first letter and the
/// fourth of the first key distinguish a message that comes, and an id, from an event of the site's own.
pub fn parse_asked_line<'a>(
    alloc: Global,
    config: &Config,
    line: &'a str,
    event: &mut Event,
) -> Option<&'a str>
    ensures value { IfSome result (λ id. asked_event_of_line config.now line.now
        ≡ Some (record { id = id.now; event = event.new })) }
    ensures id { IfSome result (λ id. IsIdOrNone id.now) }
{
    // For a fact alone: its settings are those of a configuration.
    let _sites = config.sites();
    let key = line.as_bytes();
    match (key.get(2), key.get(5)) {
        (Some(b's'), Some(b'd')) | (Some(b't'), Some(b'e')) => {
            parse_no_more(parse_message(config, parse_prefix(line, "{")?, event)?)
        }
        (Some(b'i'), Some(b':')) => parse_id_first(alloc, config, line, event),
        _ => parse_id_last(alloc, config, line, event),
    }
}
