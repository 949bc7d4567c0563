//! Events of a history's line, added at the end of bytes.
ghost use Rattle.std.specs.Prelude.{◌++◌, codes};
ghost use Rattle.serde_json.specs.Written.{compact_text};
ghost use Rattle.rb_history.specs.Adds.{Adds};
ghost use Rattle.rb_history.specs.Entries.{event_json, request_json, token_json};
ghost use Rattle.rb_scratch.specs.declared.request.Request.TheVariants.{Transfer};
ghost use Rattle.rb_history.specs.Values.{list_json, one_json};

use crate::keys::spell;
use crate::write::account::{append_account, append_asked};
use crate::write::append::{append, append_named, append_number};
use crate::write::shadow::append_shadow;
use rb_money::{Config, Place};
use rb_scratch::Request;
use rb_site::{Event, Message};
use rb_token::TokenMessage;
use std::alloc::AllocError;

/// A transfer, as the one member of an object.
fn append_transfer(
    out: &mut Vec<u8>,
    config: &Config,
    from: Place,
    to: Place,
    amount: u64,
) -> Result<(), AllocError>
    ensures { Adds result out.old.items out.new.items
        (compact_text (request_json config.now (Transfer from to amount))) }
{
    append_account(out, spell!("{" transfer ":["), config, from, ",")?;
    append_account(out, "", config, to, ",")?;
    append_number(out, "", amount, "]}")
}

/// A request, as it is written in a command.
#[tactic(auto, unfolding(json::specs::Print::escape_byte))]
fn append_request(out: &mut Vec<u8>, config: &Config, request: Request) -> Result<(), AllocError>
    ensures { Adds result out.old.items out.new.items (compact_text (request_json config.now request)) }
{
    match request {
        Request::Deposit { account, amount } => {
            append_asked(out, spell!("{" deposit ":"), config, account, amount)
        }
        Request::Withdraw { account, amount } => {
            append_asked(out, spell!("{" withdraw ":"), config, account, amount)
        }
        Request::Interest { account, rate } => {
            append_asked(out, spell!("{" interest ":"), config, account, rate as u64)
        }
        Request::Cancel { target } => append_named(out, spell!("{" cancel ":"), target, "}"),
        Request::Transfer { from, to, amount } => append_transfer(out, config, from, to, amount),
    }
}

/// A request, after a text.
fn append_listed_request(
    out: &mut Vec<u8>,
    comma: &str,
    config: &Config,
    request: Request,
) -> Result<(), AllocError>
    ensures { Adds result out.old.items out.new.items (comma.now ++ compact_text (request_json config.now request)) }
{
    append(out, comma)?;
    append_request(out, config, request)
}

/// A list of requests, as the one member of an object.
fn append_requests(
    out: &mut Vec<u8>,
    config: &Config,
    requests: &[Request],
) -> Result<(), AllocError>
    ensures { Adds result out.old.items out.new.items
        (compact_text (one_json (codes "batch") (list_json (request_json config.now) requests.now))) }
{
    append(out, spell!("{" batch ":["))?;
    let mut comma = "";
    for request in requests {
        append_listed_request(out, comma, config, *request)?;
        comma = ",";
    }
    append(out, "]}")
}

/// A token message, as the one member of an object.
fn append_token(out: &mut Vec<u8>, token: TokenMessage) -> Result<(), AllocError>
    ensures { Adds result out.old.items out.new.items (compact_text (one_json (codes "token") (token_json token))) }
{
    append_number(out, spell!("{" token ":["), token.epoch as u64, ",")?;
    append_number(out, "", token.to as u64, ",")?;
    append_number(out, "", token.red as u64, "]}")
}

/// Adds the line of an event, without a line feed. An `Err` means out of memory: what was there stays, and more may
/// follow it.
///
/// A place past the accounts is written "?".
#[tactic(auto, unfolding(json::specs::Print::escape_byte))]
pub fn append_event(out: &mut Vec<u8>, config: &Config, event: &Event) -> Result<(), AllocError>
    ensures { Adds result out.old.items out.new.items (compact_text (event_json config.now event.now)) }
{
    match event {
        Event::Submit(request) => append_request(out, config, *request),
        Event::Batch(requests) => append_requests(out, config, requests.as_slice()),
        Event::Receive(Message::Shadow(shadow)) => append_shadow(out, config, *shadow),
        Event::Receive(Message::Token(token)) => append_token(out, *token),
        Event::Apply(name) => append_named(out, spell!("{" apply ":"), *name, "}"),
        Event::Pass(to) => append_number(out, spell!("{" pass ":"), *to as u64, "}"),
        Event::Balance(place) => append_account(out, spell!("{" balance ":"), config, *place, "}"),
        Event::AsOf(place, position) => {
            append_asked(out, spell!("{" asof ":"), config, *place, *position as u64)
        }
        Event::Statement(place) => append_account(
            out,
            spell!("{" statement ":"),
            config,
            *place,
            "}",
        ),
    }
}
