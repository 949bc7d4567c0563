//! How many of each site's blue operations a home had applied, added at the end of bytes in either version of the
//! format.
ghost use Rattle.std.specs.Prelude.{◌≡◌, ◌<◌, ◌≤◌, ◌+◌, ◌==◌, ◌++◌, [], codes, if◌then◌else◌, length, IfOk};
ghost use Rattle.rb_money.specs.declared.limits.TheConstants.{MOST_SITES, MOST_SITES_OF_VERSION_1};
ghost use Rattle.serde_json.specs.Written.{compact_text};
ghost use Rattle.rb_history.specs.Adds.{Adds};
ghost use Rattle.rb_history.specs.Values.{list_json, number_json};
ghost use Rattle.rb_history.specs.Placed.{Placed};
ghost use Rattle.rb_history.specs.declared.write.counts.TheConstants.{COUNTS};
ghost use Rattle.rb_history.specs.Counts.{blue_json, numbered_from, numbered_json};

use crate::write::append::{append, append_number, make_space};
use crate::write::put::{put_if, put_small, put_text};
use rb_money::{MOST_SITES, MOST_SITES_OF_VERSION_1};
use std::alloc::AllocError;

/// The memory that is taken for the counts of version 1: ten digits and a comma each, and two brackets.
const COUNTS: usize = 90;

/// Puts the counts of version 1, as a list.
#[inline(always)]
fn put_counts(space: &mut [u8], at: usize, counts: &[u32]) -> usize
    requires few { length counts.now ≤ MOST_SITES_OF_VERSION_1 }
    requires space { at + COUNTS ≤ length space.old }
    ensures { Placed space.old space.new at (compact_text (list_json number_json counts.now)) result }
{
    let mut end = put_text(space, at, "[");
    let mut comma = false;
    for count in counts {
        let digits = put_if(space, end, b',', comma);
        end = put_small(space, digits, *count);
        comma = true;
    }
    put_text(space, end, "]")
}

/// The counts of version 1, as a list.
fn append_listed(out: &mut Vec<u8>, counts: &[u32]) -> Result<(), AllocError>
    requires { length counts.now ≤ MOST_SITES_OF_VERSION_1 }
    ensures { Adds result out.old.items out.new.items (compact_text (list_json number_json counts.now)) }
{
    let at = out.len();
    make_space(out, &[0; COUNTS])?;
    let end = put_counts(out.as_mut_slice(), at, counts);
    out.truncate(end);
    Ok(())
}

/// A site's number and its count, after a text.
fn append_one(out: &mut Vec<u8>, comma: &str, site: u64, count: u32) -> Result<(), AllocError>
    ensures { Adds result out.old.items out.new.items (comma.now ++ compact_text (numbered_json (site, count))) }
{
    append(out, comma)?;
    append_number(out, "[", site, ",")?;
    append_number(out, "", count as u64, "]")
}

/// A site's number and its count after a text, if the count isn't 0; and what is to be
/// written before the next.
fn append_some<'a>(
    out: &mut Vec<u8>,
    comma: &'a str,
    site: u64,
    count: u32,
) -> Result<&'a str, AllocError>
    ensures added { Adds result out.old.items out.new.items (if count == 0 then []
        else comma.now ++ compact_text (numbered_json (site, count))) }
    ensures next { IfOk result (λ next. next.now ≡ (if count == 0 then comma.now else codes ",")) }
{
    if count == 0 {
        return Ok(comma);
    }
    append_one(out, comma, site, count)?;
    Ok(",")
}

/// The counts above 0, each after its site's number.
fn append_numbered(out: &mut Vec<u8>, counts: &[u32]) -> Result<(), AllocError>
    ensures { Adds result out.old.items out.new.items (compact_text
        (list_json numbered_json (numbered_from 0 counts.now))) }
{
    append(out, "[")?;
    let mut comma = "";
    for (site, count) in counts.iter().enumerate() {
        let next = append_some(out, comma, site as u64, *count)?;
        comma = next;
    }
    append(out, "]")
}

/// The counts of all sites, in this version of the format.
#[tactic(auto, unfolding(crate::specs::Counts::blue_json))]
pub fn append_counts(
    out: &mut Vec<u8>,
    version: u8,
    counts: &[u32; MOST_SITES],
) -> Result<(), AllocError>
    ensures { Adds result out.old.items out.new.items (compact_text (blue_json version counts.now)) }
{
    if version == 1 {
        append_listed(out, &counts[..MOST_SITES_OF_VERSION_1])
    } else {
        append_numbered(out, counts)
    }
}
