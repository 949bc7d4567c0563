//! The entry on a line of a history.
ghost use Rattle.std.specs.Prelude.{◌≡◌, ◌<◌, None, Some, MatchResult};
ghost use Rattle.rb_history.specs.Entries.{entry_on};
ghost use Rattle.rb_history.specs.declared.fault.LineFault.TheVariants.{Bad};

use rb_history::{LineFault, read_entry};
use rb_lines::text_on;
use rb_money::Config;
use rb_site::Entry;
use std::alloc::Global;

/// The entry on a line, in its place, and its site. It may be any if there is none.
#[inline(always)]
#[tactic(auto, unfolding(rb_history::specs::Entries::entry_on))]
pub fn entry_of(
    alloc: Global,
    config: &Config,
    line: &[u8],
    entry: &mut Entry,
) -> Result<u8, LineFault>
    ensures { MatchResult result
        (λ site. (entry_on config.now line.now ≡ Some (site, entry.new)) × (site < config.now.sites))
        (λ why. why ≡ Bad → entry_on config.now line.now ≡ None) }
{
    let text = text_on(line).ok_or(LineFault::Bad)?;
    read_entry(alloc, config, text, entry)
}
