//! Entries of a history.
ghost use Rattle.std.specs.Prelude.{◌≡◌, codes, MatchResult, None, Some};
ghost use Rattle.serde_json.specs.View.{view};
ghost use Rattle.rb_history.specs.declared.fault.LineFault.TheVariants.{Bad};
ghost use Rattle.rb_history.specs.Entries.{asked_entry_of_object, entry_in};
ghost use Rattle.rb_history.specs.Fields.{field};
ghost use Rattle.rb_history.specs.Lines.{Gives};
ghost use Rattle.rb_history.specs.Recorded.{event_at};
ghost use Rattle.rb_history.specs.RepliesRead.{reply_parsed};
ghost use Rattle.rb_history.specs.Values.{number_below};

use crate::fault::LineFault;
use crate::id::{RequestId, may_be_asked};
use crate::keys::key;
use crate::read::event::event;
use crate::read::id::put_id;
use crate::read::reply::reply;
use crate::read::value::size;
use rb_money::Config;
use rb_site::{Entry, Event, Reply};
use serde_json::Value;
use std::alloc::Global;

/// The event of an entry.
fn event_of(alloc: Global, config: &Config, value: &Value) -> Result<Event, LineFault>
    ensures { Gives result (field (codes "event") (event_at config.now) (view value.now)) }
{
    match value.get(key!(event)) {
        Some(made) => event(alloc, config, made),
        None => Err(LineFault::Bad),
    }
}

/// The reply of an entry.
fn reply_of(alloc: Global, value: &Value) -> Result<Reply, LineFault>
    ensures { Gives result (field (codes "reply") reply_parsed (view value.now)) }
{
    match value.get(key!(reply)) {
        Some(given) => reply(alloc, given),
        None => Err(LineFault::Bad),
    }
}

/// The number of one of the configuration's sites.
fn site_of(config: &Config, value: &Value) -> Option<u8>
    ensures { result ≡ field (codes "site") (number_below config.now.sites) (view value.now) }
{
    let site = value.get(key!(site))?.as_u64()?;
    if site < u64::from(config.sites()) {
        Some(site as u8)
    } else {
        None
    }
}

/// An entry of a site, from an object of these members, whatever others it has.
fn members(alloc: Global, config: &Config, value: &Value) -> Result<(u8, Entry), LineFault>
    ensures { Gives result (entry_in config.now (view value.now)) }
{
    let site = site_of(config, value).ok_or(LineFault::Bad)?;
    let event = event_of(alloc, config, value)?;
    let reply = reply_of(alloc, value)?;
    Ok((site, Entry { event, reply }))
}

/// An entry of a site, from an object of three members; or of four, of which one is its id, which takes the place of
/// another. Without an id its place is empty.
pub fn asked_entry(
    alloc: Global,
    config: &Config,
    value: &Value,
    id: &mut RequestId,
) -> Result<(u8, Entry), LineFault>
    ensures { MatchResult result
        (λ x. asked_entry_of_object config.now (view value.now) ≡ Some (x.0, record { id = id.new; entry = x.1 }))
        (λ why. why ≡ Bad → asked_entry_of_object config.now (view value.now) ≡ None) }
{
    match size(value) {
        3 => {
            id.clear();
            members(alloc, config, value)
        }
        4 => {
            put_id(value, id)?;
            let (site, entry) = members(alloc, config, value)?;
            if may_be_asked(&entry) {
                Ok((site, entry))
            } else {
                Err(LineFault::Bad)
            }
        }
        _ => Err(LineFault::Bad),
    }
}
