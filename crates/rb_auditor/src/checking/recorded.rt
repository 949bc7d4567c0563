//! Whether a site records a history. A new site replays its events, and the two histories are compared: so the site
//! itself gives each reply anew, at the cost of a copy of the events and of a second history.
ghost use Rattle.std.specs.Prelude.{◌≡◌, ◌↔◌, ◌<◌, IsTrue, IfOk};
ghost use Rattle.rb_site.specs.Histories.{events_of as the_events_of};
ghost use Rattle.rb_auditor.specs.Findings.{IsReplay};

use rb_money::Config;
use rb_site::{Entry, Event, Site};
use std::alloc::{AllocError, Global};

/// Whether the site, from its beginning, records these entries. `Err` means out of memory.
pub fn is_recorded(
    alloc: Global,
    config: &Config,
    me: u8,
    history: &[Entry],
) -> Result<bool, AllocError>
    requires { me < config.now.sites }
    ensures { IfOk result (λ yes. IsTrue yes ↔ IsReplay config.now me history.now) }
{
    let events = events_of(alloc, history)?;
    let site = Site::replay(alloc, config, me, events.as_slice())?;
    let yes = are_same(site.history(), history);
    let _report = site.close();
    Ok(yes)
}

/// The events of these entries. `Err` means out of memory.
fn events_of(alloc: Global, history: &[Entry]) -> Result<Vec<Event>, AllocError>
    ensures { IfOk result (λ events. events.items ≡ the_events_of history.now) }
{
    let mut events = Vec::new(alloc);
    for entry in history {
        let event = entry.event.try_copy(alloc)?;
        events.push(event)?;
    }
    Ok(events)
}

/// Whether the two are equal, entry by entry.
fn are_same(history: &[Entry], other: &[Entry]) -> bool
    ensures { IsTrue result ↔ (history.now ≡ other.now) }
{
    if history.len() != other.len() {
        return false;
    }
    for k in 0..history.len() {
        if !history[k].same(&other[k]) {
            return false;
        }
    }
    true
}
