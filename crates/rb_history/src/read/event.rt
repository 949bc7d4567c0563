//! Events. `None` and `Bad` mean that a value isn't one.
ghost use Rattle.std.specs.Prelude.{◌≡◌, ◌^◌, IfOk, IfSome, MatchResult, None, Some};
ghost use Rattle.serde_json.specs.View.{view};
ghost use Rattle.rb_site.specs.Worlds.{IsOwn};
ghost use Rattle.rb_site.specs.declared.event.Event.TheVariants.{AsOf};
ghost use Rattle.rb_history.specs.Commands.{teller_event_of, event_of};
ghost use Rattle.rb_history.specs.Lines.{Gives};
ghost use Rattle.rb_history.specs.declared.fault.LineFault.TheVariants.{Bad};
ghost use Rattle.rb_history.specs.Entries.{asked_event_at, event_with_id};
ghost use Rattle.rb_history.specs.Recorded.{token_at, event_at, recorded_of};
ghost use Rattle.rb_history.specs.Requests.{asked_of};

use crate::fault::LineFault;
use crate::id::{RequestId, may_have_id};
use crate::keys::key;
use crate::read::id::put_id;
use crate::read::request::{account, request, requests};
use crate::read::shadow::shadow;
use crate::read::value::{byte, name, pair, size, three, word};
use rb_kit::List;
use rb_money::Config;
use rb_site::{Event, Message};
use rb_token::TokenMessage;
use serde_json::Value;
use std::alloc::Global;

/// A question for a balance as of a position, from the list of its account and position.
fn as_of(config: &Config, value: &Value) -> Option<Event>
    ensures value { result ≡ asked_of config.now (2 ^ 32) AsOf (view value.now) }
    ensures own { IfSome result IsOwn }
{
    let (name, position) = pair(value)?;
    let account = account(config, name)?;
    let position = word(position)?;
    Some(Event::AsOf(account, position))
}

/// A question of a teller about an account, or a request.
fn teller_event(config: &Config, value: &Value) -> Option<Event>
    ensures value { result ≡ teller_event_of config.now (view value.now) }
    ensures own { IfSome result IsOwn }
{
    if let Some(argument) = value.get(key!(balance)) {
        return Some(Event::Balance(account(config, argument)?));
    }
    if let Some(argument) = value.get(key!(asof)) {
        return as_of(config, argument);
    }
    if let Some(argument) = value.get(key!(statement)) {
        return Some(Event::Statement(account(config, argument)?));
    }
    Some(Event::Submit(request(config, value)?))
}

/// An event that a command asks of a site, by a key of an object that may have others.
pub fn own_event(alloc: Global, config: &Config, value: &Value) -> Result<Event, LineFault>
    ensures value { Gives result (event_of config.now (view value.now)) }
    ensures own { IfOk result IsOwn }
{
    if let Some(list) = value.get(key!(batch)) {
        let requests = requests(alloc, config, list)?;
        return Ok(Event::Batch(List::new(requests)));
    }
    let event = if let Some(argument) = value.get(key!(apply)) {
        name(argument).map(Event::Apply)
    } else if let Some(argument) = value.get(key!(pass)) {
        byte(argument).map(Event::Pass)
    } else {
        teller_event(config, value)
    };
    event.ok_or(LineFault::Bad)
}

/// The token on its way.
fn token(value: &Value) -> Option<TokenMessage>
    ensures { result ≡ token_at (view value.now) }
{
    let (epoch, to, red) = three(value)?;
    let epoch = word(epoch)?;
    let to = byte(to)?;
    let red = word(red)?;
    Some(TokenMessage { epoch, to, red })
}

/// An event, by a key of an object that may have others.
pub fn recorded(alloc: Global, config: &Config, value: &Value) -> Result<Event, LineFault>
    ensures { Gives result (recorded_of config.now (view value.now)) }
{
    if let Some(made) = value.get(key!(shadow)) {
        return match shadow(config, made) {
            Some(shadow) => Ok(Event::Receive(Message::Shadow(shadow))),
            None => Err(LineFault::Bad),
        };
    }
    if let Some(sent) = value.get(key!(token)) {
        return match token(sent) {
            Some(token) => Ok(Event::Receive(Message::Token(token))),
            None => Err(LineFault::Bad),
        };
    }
    own_event(alloc, config, value)
}

/// An event, from an object of one member.
pub fn event(alloc: Global, config: &Config, value: &Value) -> Result<Event, LineFault>
    ensures { Gives result (event_at config.now (view value.now)) }
{
    if size(value) != 1 {
        return Err(LineFault::Bad);
    }
    recorded(alloc, config, value)
}

/// An event that may have an id, by a key of an object that has its id too. This takes the place of another.
pub fn event_with_id(
    alloc: Global,
    config: &Config,
    value: &Value,
    id: &mut RequestId,
) -> Result<Event, LineFault>
    ensures { MatchResult result
        (λ event. event_with_id config.now (view value.now) ≡ Some (record { id = id.new; event = event }))
        (λ why. why ≡ Bad → event_with_id config.now (view value.now) ≡ None) }
{
    put_id(value, id)?;
    let event = recorded(alloc, config, value)?;
    if may_have_id(&event) {
        Ok(event)
    } else {
        Err(LineFault::Bad)
    }
}

/// An event, from an object of one member; or of two, of which one is its id, which takes the place of another. Without
/// an id its place is empty.
pub fn asked_event(
    alloc: Global,
    config: &Config,
    value: &Value,
    id: &mut RequestId,
) -> Result<Event, LineFault>
    ensures { MatchResult result
        (λ event. asked_event_at config.now (view value.now) ≡ Some (record { id = id.new; event = event }))
        (λ why. why ≡ Bad → asked_event_at config.now (view value.now) ≡ None) }
{
    if size(value) == 2 {
        return event_with_id(alloc, config, value, id);
    }
    id.clear();
    event(alloc, config, value)
}
