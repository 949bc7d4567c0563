//! Lines of histories.
ghost use Rattle.std.specs.Prelude.{◌≡◌, ◌<◌, IfOk, MatchResult, None, Some, true};
ghost use Rattle.rb_history.specs.declared.fault.LineFault.TheVariants.{Bad};
ghost use Rattle.rb_history.specs.Entries.{asked_entry_json, asked_entry_of_line, entry_of_line};
ghost use Rattle.rb_history.specs.Lines.{Gives};
ghost use Rattle.serde_json.specs.Written.{compact_text};

use crate::fast::entry::parse_asked_entry;
use crate::fault::LineFault;
use crate::id::RequestId;
use crate::read::entry::asked_entry;
use crate::read::value::read_value;
use rb_money::Config;
use rb_site::{Entry, Event, Reply};
use std::alloc::Global;

/// The entry that a line of any spelling is, with the number of its site. Its id takes the place of another.
#[inline(never)]
fn read_spelled(
    alloc: Global,
    config: &Config,
    line: &str,
    id: &mut RequestId,
) -> Result<(u8, Entry), LineFault>
    ensures read { MatchResult result
        (λ x. asked_entry_of_line config.now line.now ≡ Some (x.0, record { id = id.new; entry = x.1 }))
        (λ why. why ≡ Bad → asked_entry_of_line config.now line.now ≡ None) }
    ensures site { IfOk result (λ x. x.0 < config.now.sites) }
{
    let value = read_value(alloc, line)?;
    asked_entry(alloc, config, &value, id)
}

/// The entry that a line of any spelling is, in its place, and the number of its site. Its id takes the place of
/// another.
#[cold]
#[inline(never)]
fn put_spelled(
    alloc: Global,
    config: &Config,
    line: &str,
    entry: &mut Entry,
    id: &mut RequestId,
) -> Result<u8, LineFault>
    ensures { MatchResult result
        (λ site. (asked_entry_of_line config.now line.now ≡ Some (site, record { id = id.new; entry = entry.new }))
        × (site < config.now.sites))
        (λ why. why ≡ Bad → asked_entry_of_line config.now line.now ≡ None) }
{
    let (site, read) = read_spelled(alloc, config, line, id)?;
    *entry = read;
    Ok(site)
}

/// Reads the entry that a history's line is into its place, and its id into its: `Bad` if it isn't one, `OutOfMemory`
/// if there was no memory to read it. The number of its site comes back, and whether the line was seen to be the one
/// that is written for the entry. Without an id the id's place is empty. After an `Err` entry and id may be any.
///
/// An account that the configuration doesn't have is read as `Place::NOWHERE`. The reply may be one that no
/// site gives, and `why` and the number that stopped a batch may be any byte; but a line that reports running out of
/// memory is bad, as is one of a site that the configuration doesn't have. So is an id on the entry of an event that
/// may have none, or on a refusal.
pub fn read_asked_entry(
    alloc: Global,
    config: &Config,
    line: &str,
    entry: &mut Entry,
    id: &mut RequestId,
) -> Result<(u8, bool), LineFault>
    ensures read { MatchResult result
        (λ x. (asked_entry_of_line config.now line.now ≡ Some (x.0, record { id = id.new; entry = entry.new }))
        × (x.0 < config.now.sites))
        (λ why. why ≡ Bad → asked_entry_of_line config.now line.now ≡ None) }
    ensures written { IfOk result (λ x. x.1 ≡ true → line.now
        ≡ compact_text (asked_entry_json config.now x.0 (record { id = id.new; entry = entry.new }))) }
{
    let Some((text, site)) = parse_asked_entry(alloc, config, line, entry) else {
        let site = put_spelled(alloc, config, line, entry, id)?;
        return Ok((site, false));
    };
    id.set(text);
    Ok((site, true))
}

/// Reads an entry as `read_asked_entry` does, and leaves out its id.
pub fn read_entry(
    alloc: Global,
    config: &Config,
    line: &str,
    entry: &mut Entry,
) -> Result<u8, LineFault>
    ensures { MatchResult result
        (λ site. (entry_of_line config.now line.now ≡ Some (site, entry.new)) × (site < config.now.sites))
        (λ why. why ≡ Bad → entry_of_line config.now line.now ≡ None) }
{
    match parse_asked_entry(alloc, config, line, entry) {
        Some((_id, site)) => Ok(site),
        None => put_spelled(alloc, config, line, entry, &mut RequestId::none()),
    }
}

/// The entry that a history's line is, as `read_entry` reads it, with the number of its site: `Bad` if it isn't one,
/// `OutOfMemory` if there was no memory to read it.
pub fn read_line(alloc: Global, config: &Config, line: &str) -> Result<(u8, Entry), LineFault>
    ensures read { Gives result (entry_of_line config.now line.now) }
    ensures site { IfOk result (λ x. x.0 < config.now.sites) }
{
    let mut entry = Entry {
        event: Event::Pass(0),
        reply: Reply::Taken(0),
    };
    let site = read_entry(alloc, config, line, &mut entry)?;
    Ok((site, entry))
}
