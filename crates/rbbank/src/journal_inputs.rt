//! The laws of a site's journal as an input of other runs.
ghost use Rattle.rbbank.specs.JournalInputs.{JournalsAreInputs, SealedJournalsAreBooks};

use rb_history::{configs_are_read, lines_are_single, read_entries_fit};

/// An audit takes a site's journal as it stands, at rest or sealed: as the site's settings and history, and no other
/// site's. And closing the books takes the sealed journals of all sites of a bank, in the order of their numbers, as
/// that bank with those histories. So it is unless a line is too long.
pub fn journals_are_inputs()
    ensures inputs { JournalsAreInputs }
    ensures books { SealedJournalsAreBooks }
{
    configs_are_read();
    read_entries_fit();
    lines_are_single();
}
