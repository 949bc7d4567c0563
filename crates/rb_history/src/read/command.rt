//! Commands.
ghost use Rattle.std.specs.Prelude.{◌≡◌, ◌^◌, IfOk, codes, option_and_then};
ghost use Rattle.serde_json.specs.Find.{get};
ghost use Rattle.serde_json.specs.View.{view};
ghost use Rattle.rb_site.specs.Worlds.{IsCommand};
ghost use Rattle.rb_history.specs.Commands.{command_for, command_of};
ghost use Rattle.rb_history.specs.Lines.{Gives};
ghost use Rattle.rb_history.specs.Values.{number_below};

use crate::fault::LineFault;
use crate::keys::key;
use crate::read::event::own_event;
use crate::read::value::{byte, size, word};
use rb_money::Config;
use rb_site::WorldEvent;
use serde_json::Value;
use std::alloc::Global;

/// A command for a site, by a key of an object that may have others.
fn command_at_site(
    alloc: Global,
    config: &Config,
    value: &Value,
    site: u8,
) -> Result<WorldEvent, LineFault>
    ensures value { Gives result (command_for config.now (view value.now) site) }
    ensures command { IfOk result IsCommand }
{
    if let Some(message) = value.get(key!(deliver)) {
        return match word(message) {
            Some(message) => Ok(WorldEvent::Deliver(site, message)),
            None => Err(LineFault::Bad),
        };
    }
    let event = own_event(alloc, config, value)?;
    Ok(WorldEvent::At(site, event))
}

/// The site of a command.
fn site(value: &Value) -> Option<u8>
    ensures { result ≡ option_and_then (number_below (2 ^ 8)) (get (codes "site") (view value.now)) }
{
    byte(value.get(key!(site))?)
}

/// A command, from an object of its site and one more member.
#[inline(never)]
pub fn command(alloc: Global, config: &Config, value: &Value) -> Result<WorldEvent, LineFault>
    ensures value { Gives result (command_of config.now (view value.now)) }
    ensures command { IfOk result IsCommand }
{
    if size(value) != 2 {
        return Err(LineFault::Bad);
    }
    match site(value) {
        Some(site) => command_at_site(alloc, config, value, site),
        None => Err(LineFault::Bad),
    }
}
