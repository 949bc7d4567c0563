//! The law that an audit takes back what is written for its input.
ghost use Rattle.rb_runs.specs.InputLaws.{InputsAreReadBack};

use rb_history::{configs_are_read, entries_are_read, lines_are_single};

/// The text that is written for a configuration and for entries of its sites is taken as that configuration and
/// those entries, by site in their order, unless a line of it is too long.
pub fn inputs_are_read_back()
    ensures { InputsAreReadBack }
{
    configs_are_read();
    entries_are_read();
    lines_are_single();
}
