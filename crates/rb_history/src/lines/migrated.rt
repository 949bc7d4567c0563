//! Lines of entries, written again in version 2 of the format.
ghost use Rattle.std.specs.Prelude.{◌≡◌, ◌++◌, ℕ, None, Some, MatchResult, OnErr};
ghost use Rattle.serde_json.specs.Written.{compact_text};
ghost use Rattle.rb_money.specs.Settings.{in_version_2};
ghost use Rattle.rb_history.specs.declared.fault.LineFault.TheVariants.{Bad};
ghost use Rattle.rb_history.specs.Entries.{asked_entry_json, asked_entry_of_line};
ghost use Rattle.rb_history.specs.Ids.{AskedEntry};

use crate::fault::LineFault;
use crate::id::RequestId;
use crate::lines::entry::read_asked_entry;
use crate::write::entry::append_asked_line;
use rb_money::Config;
use rb_site::{Entry, Event, Reply};
use std::alloc::Global;

/// Adds the line, in version 2 of the format, of the entry that a history's line is, without a line feed: `Bad` if
/// it isn't one, `OutOfMemory` if there was no memory to read or to write it. An `Err` adds nothing.
///
/// The line is read as `read_asked_entry` reads it, under a configuration of either version; `written` is that one
/// in version 2. It adds the text that `append_asked_line` adds for the entry and its id under `written`.
pub fn append_migrated(
    alloc: Global,
    config: &Config,
    written: &Config,
    line: &str,
    out: &mut Vec<u8>,
) -> Result<(), LineFault>
    requires { written.now ≡ in_version_2 config.now }
    ensures added { MatchResult result (λ _. (x : ℕ × AskedEntry) × (asked_entry_of_line config.now line.now ≡ Some x)
        × (out.new.items ≡ out.old.items ++ compact_text (asked_entry_json written.now x.0 x.1)))
        (λ why. why ≡ Bad → asked_entry_of_line config.now line.now ≡ None) }
    ensures err { OnErr result (out.new.items ≡ out.old.items) }
{
    let mut entry = Entry {
        event: Event::Pass(0),
        reply: Reply::Taken(0),
    };
    let mut id = RequestId::none();
    let (site, _written) = read_asked_entry(alloc, config, line, &mut entry, &mut id)?;
    Ok(append_asked_line(out, written, site, &id, &entry)?)
}
