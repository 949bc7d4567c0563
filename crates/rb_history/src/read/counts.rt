//! How many of each site's blue operations a home had applied, from a line of either version of the format. Version 1
//! has a number for each of eight sites; version 2 names the sites whose count isn't 0, in order, so that most lines
//! stay short.
ghost use Rattle.std.specs.Prelude.{◌≡◌, ◌<◌, ◌≤◌, ◌==◌, IfSome};
ghost use Rattle.rb_money.specs.declared.limits.TheConstants.{MOST_SITES};
ghost use Rattle.serde_json.specs.View.{items_view, view};
ghost use Rattle.rb_history.specs.Counts.{blue_at, counts_at, numbered_at, numbered_in};

use crate::counts::widened;
use crate::read::value::{byte, pair, word};
use rb_money::{MOST_SITES, MOST_SITES_OF_VERSION_1};
use serde_json::Value;

/// A count for each site that version 1 may have.
fn first_counts(value: &Value) -> Option<[u32; MOST_SITES_OF_VERSION_1]>
    ensures { result ≡ counts_at (view value.now) }
{
    let items = value.as_array()?;
    if items.len() != MOST_SITES_OF_VERSION_1 {
        return None;
    }
    let mut counts = [0; MOST_SITES_OF_VERSION_1];
    for site in 0..MOST_SITES_OF_VERSION_1 {
        counts[site] = word(&items[site])?;
    }
    Some(counts)
}

/// The number of a site, at least this, and its count, above 0.
fn numbered_one(value: &Value, least: usize) -> Option<(usize, u32)>
    ensures read { result ≡ numbered_at least (view value.now) }
    ensures near { IfSome result (λ p. (least ≤ p.0) × (p.0 < MOST_SITES)) }
{
    let (site, count) = pair(value)?;
    let site = usize::from(byte(site)?);
    let count = word(count)?;
    if least <= site && site < MOST_SITES && 1 <= count {
        Some((site, count))
    } else {
        None
    }
}

/// The counts of sites that rise, and 0 for each other site.
fn numbered_counts(items: &[Value]) -> Option<[u32; MOST_SITES]>
    ensures { result ≡ numbered_in 0 (items_view items.now) }
{
    let mut counts = [0; MOST_SITES];
    let mut least = 0;
    for item in items {
        let (site, count) = numbered_one(item, least)?;
        counts[site] = count;
        least = site + 1;
    }
    Some(counts)
}

/// The counts of all sites, from a line of this version of the format.
#[tactic(auto, unfolding(crate::specs::Counts::blue_at))]
pub fn counts(version: u8, value: &Value) -> Option<[u32; MOST_SITES]>
    ensures { result ≡ blue_at version (view value.now) }
{
    if version == 1 {
        let first = first_counts(value)?;
        return Some(widened(&first));
    }
    let items = value.as_array()?;
    numbered_counts(items.as_slice())
}
