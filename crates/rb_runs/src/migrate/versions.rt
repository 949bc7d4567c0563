//! The lines of a migration: its configuration as its line has it, and in version 2 of the format.
//!
//! Both are kept, since each entry is read under the one and written under the other. Each line is answered by itself,
//! as a script's lines are, so no history is kept: the configuration and the entries before a bad line go out.
ghost use Rattle.std.specs.Prelude.{◌≡◌, ◌≤◌, ◌++◌, ℕ, None, Some, codes, length, take, IfOk, MatchResult, OnErr, OnOk};
ghost use Rattle.rb_history.specs.declared.fault.LineFault.TheVariants.{Bad};
ghost use Rattle.rb_history.specs.Entries.{asked_entry_of_line, asked_entry_on};
ghost use Rattle.rb_history.specs.Ids.{AskedEntry};
ghost use Rattle.rb_runs.specs.Migration.{migrated_config_line, migrated_entry_line};

use crate::recorded::text::config_line;
use crate::takes_lines::TakesLines;
use rb_history::write::append::append;
use rb_history::{LineFault, append_migrated, open_config};
use rb_lines::{text_on, whole_or_none};
use rb_money::Config;
use rb_reasons::Expected;
use std::alloc::{AllocError, Global};
use std::marker::Model;

/// The configuration that lines are read under, and the one that they are written under. It is seen as the first.
#[derive(Drop)]
pub struct Versions {
    read: Config,
    written: Config,
}

impl Model for Versions {
    ghost use Rattle.std.specs.Prelude.{◌≡◌};
    ghost use Rattle.rb_money.specs.Settings.{Settings, in_version_2};

    ghost Value = { Settings };

    ghost view = { λ v. v.read };

    ghost invariant = { λ v. v.written ≡ in_version_2 v.read };
}

/// Adds a line feed to the line after the first `before` bytes. An `Err` means out of memory, and takes the line away.
#[tactic(auto, using(crate::proofs::Ended::cut_back))]
fn end_line(out: &mut Vec<u8>, before: usize) -> Result<(), AllocError>
    requires { before ≤ length out.old.items }
    ensures ok { OnOk result (out.new.items ≡ out.old.items ++ codes "\n") }
    ensures err { OnErr result (out.new.items ≡ take before out.old.items) }
{
    whole_or_none(append(out, "\n"), out, before)
}

impl Versions {
    /// The configuration in both versions. `Err` means out of memory.
    fn new(read: Config) -> Result<Versions, AllocError>
        ensures { IfOk result (λ versions. versions ≡ read) }
    {
        let copy = read.try_copy()?;
        let written = copy.to_version2();
        Ok(Versions { read, written })
    }

    /// Adds the line of the configuration in version 2. An `Err` means out of memory, and adds nothing.
    #[tactic(auto, using(crate::proofs::Ended::config_migrated))]
    fn append_config(&self, alloc: Global, out: &mut Vec<u8>) -> Result<(), AllocError>
        ensures ok { OnOk result (out.new.items ≡ out.old.items ++ migrated_config_line self.now) }
        ensures err { OnErr result (out.new.items ≡ out.old.items) }
    {
        let line = config_line(alloc, &self.written)?;
        out.extend_from_slice(line.as_slice())?;
        Ok(())
    }

    /// Adds the line in version 2 of the entry that a line is, with its id, if it has one. An `Err` adds nothing.
    #[inline(always)]
    fn append_migrated_entry(
        &self,
        alloc: Global,
        line: &str,
        out: &mut Vec<u8>,
    ) -> Result<(), LineFault>
        ensures answered { MatchResult result
            (λ _. (x : ℕ × AskedEntry) × (asked_entry_of_line self.now line.now ≡ Some x)
            × (out.new.items ≡ out.old.items ++ migrated_entry_line self.now x))
            (λ why. why ≡ Bad → asked_entry_of_line self.now line.now ≡ None) }
        ensures err { OnErr result (out.new.items ≡ out.old.items) }
    {
        let before = out.len();
        append_migrated(alloc, &self.read, &self.written, line, out)?;
        Ok(end_line(out, before)?)
    }

    /// Buffers the entry on a line in version 2, with its id, if it has one. An `Err` buffers nothing.
    #[tactic(auto, unfolding(rb_history::specs::Entries::asked_entry_on))]
    fn answer_entry(
        &self,
        alloc: Global,
        line: &[u8],
        buffered: &mut Vec<u8>,
    ) -> Result<(), LineFault>
        ensures answered { MatchResult result
            (λ _. (x : ℕ × AskedEntry) × (asked_entry_on self.now line.now ≡ Some x)
            × (buffered.new.items ≡ buffered.old.items ++ migrated_entry_line self.now x))
            (λ why. why ≡ Bad → asked_entry_on self.now line.now ≡ None) }
        ensures err { OnErr result (buffered.new.items ≡ buffered.old.items) }
    {
        let Some(text) = text_on(line) else {
            return Err(LineFault::Bad);
        };
        self.append_migrated_entry(alloc, text, buffered)
    }
}

impl TakesLines for Versions {
    ghost use Rattle.rb_runs.specs.MigrationSession.{migration_rest, migration_takes};
    ghost use Rattle.rb_runs.specs.TakesLines.{makes_nothing};

    ghost rest = { migration_rest };

    ghost made = { makes_nothing };

    const EXPECTED: Expected = Expected::Entry;

    fn open(
        alloc: Global,
        line: &[u8],
        buffered: &mut Vec<u8>,
    ) -> Result<(Versions, u64), LineFault> {
        let config = open_config(alloc, line)?;
        let versions = Versions::new(config)?;
        versions.append_config(alloc, buffered)?;
        Ok((versions, 1))
    }

    #[inline(always)]
    fn take(
        &mut self,
        alloc: Global,
        line: &[u8],
        buffered: &mut Vec<u8>,
    ) -> Result<u64, LineFault> {
        self.answer_entry(alloc, line, buffered)?;
        Ok(1)
    }

    fn config(&self) -> &Config {
        &self.read
    }

    fn close(self) {}

    ghost takes = { migration_takes };
}
