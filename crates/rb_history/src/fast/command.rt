//! Lines of commands as programs spell them: the site first or last. `None` says nothing of a line.
//!
//! A large result is put into memory, read again and copied, 60 to 140 instructions: so each command is put in the
//! place where it is read. Balances and deliveries are parsed there too, a request and an application by calls with
//! small results, and any other event in its own place first. The code that is inlined stays small, since a function
//! that would grow very large isn't inlined, whatever it asks for.
ghost use Rattle.std.specs.Prelude.{◌≡◌, ◌++◌, Some, IfSome, codes, decimal};
ghost use Rattle.std.specs.Bool.{OnTrue};
ghost use Rattle.rb_history.specs.Beginnings.{BeginsWithRequest};
ghost use Rattle.rb_history.specs.Commands.{command_at};
ghost use Rattle.rb_history.specs.SitedLines.{EndsLine, behind_site};
ghost use Rattle.rb_site.specs.Worlds.{IsCommand, IsOwn};
ghost use Rattle.rb_site.specs.declared.event.Event.TheVariants.{Apply, Balance, Submit};
ghost use Rattle.rb_site.specs.declared.world_event.WorldEvent.TheVariants.{At, Deliver};

use crate::fast::blanks::without_blanks;
use crate::fast::event::{
    parse_apply, parse_balance, parse_cancel, parse_deposit, parse_interest, parse_own,
    parse_transfer, parse_withdraw,
};
use crate::fast::number::{parse_u8, parse_u32};
use crate::fast::scan::parse_prefix;
use crate::keys::{behind_quote, spell};
use rb_lines::text_on;
use rb_money::{Config, Place};
use rb_scratch::Request;
use rb_shadow::OpName;
use rb_site::{Event, WorldEvent};
use std::alloc::Global;

/// The end of an object, and of its line.
#[inline(always)]
fn parse_end(text: &str) -> Option<()>
    ensures { IfSome result (λ _. text.now ≡ codes "}") }
{
    let bytes = text.as_bytes();
    if bytes.len() == 1 && bytes[0] == b'}' {
        Some(())
    } else {
        None
    }
}

/// The site's number, as the last member of an object.
#[inline(always)]
fn parse_last_site(text: &str) -> Option<u8>
    ensures { IfSome result (λ site. text.now ≡ codes ",\"site\":" ++ (decimal site ++ codes "}")) }
{
    let (site, rest) = parse_u8(parse_prefix(text, spell!("," site ":"))?)?;
    parse_end(rest)?;
    Some(site)
}

/// The site, from the text after a command's member to the end of the line: the first member's if that was a site.
#[inline(always)]
fn parse_site(first: Option<u8>, text: &str) -> Option<u8>
    ensures { IfSome result (λ site. EndsLine first site text.now) }
{
    match first {
        Some(site) => {
            parse_end(text)?;
            Some(site)
        }
        None => parse_last_site(text),
    }
}

/// The site if it is the first member, and the text from the next key on.
#[inline(always)]
fn parse_first_site(text: &str) -> Option<(Option<u8>, &str)>
    ensures { IfSome result (λ p. text.now ≡ behind_site p.0 p.1.now) }
{
    let Some(number) = parse_prefix(text, behind_quote!(site ":")) else {
        return Some((None, text));
    };
    let (site, rest) = parse_u8(number)?;
    Some((Some(site), parse_prefix(rest, ",\"")?))
}

/// A balance with its site last, from its key on: the site and the account.
#[inline(always)]
fn parse_balance_at(config: &Config, text: &str) -> Option<(u8, Place)>
    ensures { IfSome result (λ p. command_at config.now (codes "{\"" ++ text.now) ≡ Some (At p.0 (Balance p.1))) }
{
    // For a fact alone: its settings are those of a configuration.
    let _sites = config.sites();
    let (account, rest) = parse_balance(config, text)?;
    let site = parse_last_site(rest)?;
    Some((site, account))
}

/// An application with its site last, from its key on: the site and the operation's name. A call of its own, as each
/// command's reader that isn't short.
#[inline(never)]
fn parse_apply_at(config: &Config, text: &str) -> Option<(u8, OpName)>
    ensures { IfSome result (λ p. command_at config.now (codes "{\"" ++ text.now) ≡ Some (At p.0 (Apply p.1))) }
{
    // For a fact alone: its settings are those of a configuration.
    let _sites = config.sites();
    let (name, rest) = parse_apply(config, text)?;
    let site = parse_last_site(rest)?;
    Some((site, name))
}

/// A delivery, from its key on: the site and the message's number.
#[inline(always)]
fn parse_delivery(config: &Config, first: Option<u8>, text: &str) -> Option<(u8, u32)>
    ensures { IfSome result
        (λ p. command_at config.now (codes "{\"" ++ behind_site first text.now) ≡ Some (Deliver p.0 p.1)) }
{
    let (message, rest) = parse_u32(parse_prefix(text, behind_quote!(deliver ":"))?)?;
    let site = parse_site(first, rest)?;
    Some((site, message))
}

/// A request with its site last, if its member is parsed.
#[inline(always)]
fn sited(config: &Config, text: &str, parsed: Option<(Request, &str)>) -> Option<(u8, Request)>
    requires { IfSome parsed (λ p. BeginsWithRequest config.now p.0 text.now p.1.now) }
    ensures { IfSome result (λ p. command_at config.now (codes "{\"" ++ text.now) ≡ Some (At p.0 (Submit p.1))) }
{
    // For a fact alone: its settings are those of a configuration.
    let _sites = config.sites();
    let Some((request, rest)) = parsed else {
        return None;
    };
    let site = parse_last_site(rest)?;
    Some((site, request))
}

/// A request with its site last, from its key on: the site and the request. Each kind returns where it is parsed,
/// since a result of several kinds would be put together from the parts of all.
#[inline(never)]
fn parse_request_at(config: &Config, text: &str) -> Option<(u8, Request)>
    ensures { IfSome result (λ p. command_at config.now (codes "{\"" ++ text.now) ≡ Some (At p.0 (Submit p.1))) }
{
    match text.as_bytes().first() {
        Some(b'd') => sited(config, text, parse_deposit(config, text)),
        Some(b'w') => sited(config, text, parse_withdraw(config, text)),
        Some(b'i') => sited(config, text, parse_interest(config, text)),
        Some(b't') => sited(config, text, parse_transfer(config, text)),
        Some(b'c') => sited(config, text, parse_cancel(config, text)),
        _ => None,
    }
}

/// An event of a site's own, in its place, from the object's first key on: the site. After `None` the event
/// may be any.
fn parse_at(alloc: Global, config: &Config, line: &str, event: &mut Event) -> Option<u8>
    ensures value { IfSome result (λ site. command_at config.now (codes "{\"" ++ line.now) ≡ Some (At site event.new)) }
    ensures own { IfSome result (λ _. IsOwn event.new) }
{
    // For a fact alone: its settings are those of a configuration.
    let _sites = config.sites();
    let (first, text) = parse_first_site(line)?;
    let rest = parse_own(alloc, config, text, event)?;
    let site = parse_site(first, rest)?;
    Some(site)
}

/// Puts a command that comes seldom, from the object's first key on, in the place of another. `false` says nothing of
/// the line.
#[inline(never)]
fn parse_seldom(alloc: Global, config: &Config, line: &str, command: &mut WorldEvent) -> bool
    ensures { OnTrue result ((command_at config.now (codes "{\"" ++ line.now) ≡ Some command.new)
        × IsCommand command.new) }
{
    let mut event = Event::Pass(0);
    if let Some(site) = parse_at(alloc, config, line, &mut event) {
        *command = WorldEvent::At(site, event);
        return true;
    }
    let Some((first, text)) = parse_first_site(line) else {
        return false;
    };
    let Some((site, message)) = parse_delivery(config, first, text) else {
        return false;
    };
    *command = WorldEvent::Deliver(site, message);
    true
}

/// Puts the command of a line, from the object's first key on, in the place of another, if it is spelled as this
/// program does, with the site last or first. `false` says nothing of the line.
#[inline(always)]
fn parse_usual(alloc: Global, config: &Config, text: &str, command: &mut WorldEvent) -> bool
    ensures { OnTrue result ((command_at config.now (codes "{\"" ++ text.now) ≡ Some command.new)
        × IsCommand command.new) }
{
    let key = text.as_bytes();
    match (key.first(), key.get(2)) {
        (Some(b'b'), Some(b'l')) => {
            let Some((site, account)) = parse_balance_at(config, text) else {
                return false;
            };
            *command = WorldEvent::At(site, Event::Balance(account));
        }
        (Some(b'd'), Some(b'l')) => {
            let Some((site, message)) = parse_delivery(config, None, text) else {
                return false;
            };
            *command = WorldEvent::Deliver(site, message);
        }
        (Some(b'a'), Some(b'p')) => {
            let Some((site, name)) = parse_apply_at(config, text) else {
                return false;
            };
            *command = WorldEvent::At(site, Event::Apply(name));
        }
        (Some(b'a') | Some(b'b') | Some(b'p') | Some(b's'), _) => {
            return parse_seldom(alloc, config, text, command);
        }
        _ => {
            let Some((site, request)) = parse_request_at(config, text) else {
                return false;
            };
            *command = WorldEvent::At(site, Event::Submit(request));
        }
    }
    true
}

/// Puts the command of a line in the place of another, as `parse_usual` does.
#[inline(always)]
pub fn parse_line(alloc: Global, config: &Config, line: &str, command: &mut WorldEvent) -> bool
    ensures { OnTrue result ((command_at config.now line.now ≡ Some command.new) × IsCommand command.new) }
{
    match parse_prefix(line, "{\"") {
        Some(text) => parse_usual(alloc, config, text, command),
        None => false,
    }
}

/// The same of a line with blanks between its tokens.
#[inline(always)]
pub fn parse_spaced(alloc: Global, config: &Config, line: &str, command: &mut WorldEvent) -> bool
    ensures { OnTrue result ((command_at config.now line.now ≡ Some command.new) × IsCommand command.new) }
{
    let Some(joined) = without_blanks(alloc, line) else {
        return false;
    };
    match text_on(joined.as_slice()) {
        Some(text) => parse_line(alloc, config, text, command),
        None => false,
    }
}
