//! The laws of what a migration keeps.
ghost use Rattle.rb_runs.specs.MigrationLaws.{MigratedConfigsAreRead, MigratedEntriesAreRead, MigratedReplaysAreEqual};
ghost use Rattle.rb_runs.specs.MigrationLaws.{MigrationsAreRead};

use rb_history::{
    configs_are_read, entries_are_read, lines_are_single, read_configs_are_configured,
    read_entries_fit,
};

/// The text written in version 2 for lines that were read is read, under the configuration in version 2, as what
/// they were read as, an entry with its id.
pub fn migrated_lines_are_read()
    ensures configs { MigratedConfigsAreRead }
    ensures entries { MigratedEntriesAreRead }
{
    read_configs_are_configured();
    configs_are_read();
    entries_are_read();
    read_entries_fit();
}

/// A replay under the configuration in version 2 gives the same site, and the same replies.
pub fn migrated_replays_are_equal()
    ensures { MigratedReplaysAreEqual }
{}

/// If a migration of some bytes has no fault, an audit takes the text that it writes as what it takes the bytes
/// as, in version 2, unless a line of the text is too long. It takes both with the ids left out.
pub fn migrations_are_read()
    ensures { MigrationsAreRead }
{
    read_configs_are_configured();
    read_entries_fit();
    configs_are_read();
    entries_are_read();
    lines_are_single();
}
