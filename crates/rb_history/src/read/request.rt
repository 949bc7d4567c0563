//! Requests, alone and in lists. `None` and `Bad` mean that a value isn't one.
ghost use Rattle.std.specs.Prelude.{◌≡◌, ◌^◌, option_map};
ghost use Rattle.serde_json.specs.View.{view};
ghost use Rattle.rb_scratch.specs.declared.request.Request.TheVariants.{Cancel, Deposit, Interest, Withdraw};
ghost use Rattle.rb_history.specs.Lines.{GivesAs};
ghost use Rattle.rb_history.specs.Requests.{asked_of, place_at, request_of, request_alone, requests_at};
ghost use Rattle.rb_history.specs.Requests.{transfer_at};
ghost use Rattle.rb_history.specs.Values.{name_at};

use crate::accounts::place;
use crate::fault::LineFault;
use crate::keys::key;
use crate::read::value::{long, name, pair, size, three, word};
use rb_money::{Config, Place};
use rb_scratch::Request;
use serde_json::Value;
use std::alloc::{AllocError, Global};

/// The place of the account that a value names.
pub fn account(config: &Config, value: &Value) -> Option<Place>
    ensures { result ≡ place_at config.now (view value.now) }
{
    let name = value.as_str()?;
    Some(place(config, name))
}

/// A deposit, from the list of its account and amount.
fn deposit(config: &Config, value: &Value) -> Option<Request>
    ensures { result ≡ asked_of config.now (2 ^ 64) Deposit (view value.now) }
{
    let (name, amount) = pair(value)?;
    let account = account(config, name)?;
    let amount = long(amount)?;
    Some(Request::Deposit { account, amount })
}

/// A withdrawal, from the list of its account and amount.
fn withdrawal(config: &Config, value: &Value) -> Option<Request>
    ensures { result ≡ asked_of config.now (2 ^ 64) Withdraw (view value.now) }
{
    let (name, amount) = pair(value)?;
    let account = account(config, name)?;
    let amount = long(amount)?;
    Some(Request::Withdraw { account, amount })
}

/// Interest, from the list of its account and rate.
fn interest(config: &Config, value: &Value) -> Option<Request>
    ensures { result ≡ asked_of config.now (2 ^ 32) Interest (view value.now) }
{
    let (name, rate) = pair(value)?;
    let account = account(config, name)?;
    let rate = word(rate)?;
    Some(Request::Interest { account, rate })
}

/// A cancellation, from its target's name.
fn cancellation(value: &Value) -> Option<Request>
    ensures { result ≡ option_map Cancel (name_at (view value.now)) }
{
    let target = name(value)?;
    Some(Request::Cancel { target })
}

/// A transfer, from the list of its accounts and its amount.
fn transfer(config: &Config, value: &Value) -> Option<Request>
    ensures { result ≡ transfer_at config.now (view value.now) }
{
    let (from, to, amount) = three(value)?;
    let from = account(config, from)?;
    let to = account(config, to)?;
    let amount = long(amount)?;
    Some(Request::Transfer { from, to, amount })
}

/// A request, by a key of an object that may have others.
pub fn request(config: &Config, value: &Value) -> Option<Request>
    ensures { result ≡ request_of config.now (view value.now) }
{
    if let Some(argument) = value.get(key!(deposit)) {
        return deposit(config, argument);
    }
    if let Some(argument) = value.get(key!(withdraw)) {
        return withdrawal(config, argument);
    }
    if let Some(argument) = value.get(key!(interest)) {
        return interest(config, argument);
    }
    if let Some(argument) = value.get(key!(cancel)) {
        return cancellation(argument);
    }
    transfer(config, value.get(key!(transfer))?)
}

/// A request of a batch, from an object of one member.
fn request_alone(config: &Config, value: &Value) -> Option<Request>
    ensures { result ≡ request_alone config.now (view value.now) }
{
    if size(value) != 1 {
        return None;
    }
    request(config, value)
}

/// The requests of a list, in its order.
pub fn requests(alloc: Global, config: &Config, value: &Value) -> Result<Vec<Request>, LineFault>
    ensures { GivesAs (λ v. v.items) result (requests_at config.now (view value.now)) }
{
    let items = value.as_array().ok_or(LineFault::Bad)?;
    let mut requests = Vec::new(alloc);
    for item in items {
        let request = request_alone(config, item).ok_or(LineFault::Bad)?;
        requests.push(request).map_err(AllocError::from)?;
    }
    Ok(requests)
}
