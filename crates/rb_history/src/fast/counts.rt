//! How many of each site's blue operations a home had applied, in either version of the format, in one pass. `None`
//! says nothing of a text.
ghost use Rattle.std.specs.Prelude.{◌≡◌, ◌<◌, ◌≤◌, ◌^◌, ◌++◌, IfSome, length};
ghost use Rattle.serde_json.specs.Written.{compact_text};
ghost use Rattle.rb_money.specs.declared.limits.TheConstants.{MOST_SITES};
ghost use Rattle.rb_history.specs.Values.{number_json};
ghost use Rattle.rb_history.specs.Counts.{numbered_json};
ghost use Rattle.rb_history.specs.Beginnings.{BeginsWithCounts, BeginsWithEach, BeginsWithNumbered};

use crate::counts::widened;
use crate::fast::number::{parse_u8, parse_u32, parse_u32_between};
use crate::fast::scan::parse_prefix;
use rb_money::{MOST_SITES, MOST_SITES_OF_VERSION_1};

/// A count for each of these places, and what follows the closing bracket.
#[inline(never)]
fn parse_first<'a>(text: &'a str, counts: &mut [u32]) -> Option<&'a str>
    requires { 0 < length counts.old }
    ensures { IfSome result (λ rest. BeginsWithEach number_json (λ n. n < 2 ^ 32) counts.new text.now rest.now) }
{
    let (first, mut left) = parse_u32(text)?;
    counts[0] = first;
    for site in 1..counts.len() {
        let (count, rest) = parse_u32(parse_prefix(left, ",")?)?;
        counts[site] = count;
        left = rest;
    }
    let rest = parse_prefix(left, "]")?;
    Some(rest)
}

/// The number of a site, at least this, and its count, above 0.
fn parse_numbered_one(text: &str, least: usize) -> Option<(usize, u32, &str)>
    ensures near { IfSome result (λ p. (least ≤ p.0) × (p.0 < MOST_SITES)) }
    ensures some { IfSome result (λ p. (0 < p.1) × (p.1 < 2 ^ 32)) }
    ensures written { IfSome result (λ p. text.now ≡ compact_text (numbered_json (p.0, p.1)) ++ p.2.now) }
{
    let (site, rest) = parse_u8(parse_prefix(text, "[")?)?;
    let (count, rest) = parse_u32_between(rest, ",", "]")?;
    let site = usize::from(site);
    if least <= site && site < MOST_SITES && 1 <= count {
        Some((site, count, rest))
    } else {
        None
    }
}

/// The counts above 0, each after its site's number, and what follows the closing bracket.
fn parse_numbered<'a>(text: &'a str, counts: &mut [u32; MOST_SITES]) -> Option<&'a str>
    ensures { IfSome result (λ rest. BeginsWithNumbered counts.new text.now rest.now) }
{
    *counts = [0; MOST_SITES];
    let mut least = 0;
    let mut left = text;
    let mut comma = "";
    'sites: loop {
        if let Some(rest) = parse_prefix(left, "]") {
            return Some(rest);
        }
        let (site, count, rest) = parse_numbered_one(parse_prefix(left, comma)?, least)?;
        counts[site] = count;
        least = site + 1;
        left = rest;
        comma = ",";
    }
}

/// The counts of all sites, as this version of the format has them, in their place, and what follows them.
#[inline(always)]
#[tactic(auto, unfolding(crate::specs::Counts::blue_json))]
pub fn parse_counts<'a>(
    version: u8,
    text: &'a str,
    counts: &mut [u32; MOST_SITES],
) -> Option<&'a str>
    ensures { IfSome result (λ rest. BeginsWithCounts version counts.new text.now rest.now) }
{
    let list = parse_prefix(text, "[")?;
    if version == 1 {
        let mut first = [0; MOST_SITES_OF_VERSION_1];
        let rest = parse_first(list, &mut first)?;
        *counts = widened(&first);
        return Some(rest);
    }
    parse_numbered(list, counts)
}
