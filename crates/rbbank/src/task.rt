//! A task with lines, from any reader to any writer.
ghost use Rattle.std.specs.Prelude.{◌≡◌, ◌+◌, ◌≤◌, List, ℕ, false};
ghost use Rattle.std.specs.Io.KnownBytes.{Appends};
ghost use Rattle.rb_lines.specs.declared.limits.TheConstants.{MOST_READS};
ghost use Rattle.rbbank.specs.Tasks.{DoesTask, well_of};

use rb_lines::{ScriptFault, Sink, Source};
use rb_runs::{Explained, run_audit, run_histories, run_migrate, run_script};
use std::alloc::Global;

/// A task with the lines of standard input, or of files.
#[derive(Clone, Copy, Debug, PartialEq, Eq)]
pub enum Task {
    Script,
    Histories,
    Audit,
    Migrate,
}

/// Nothing is wrong where a run has an answer.
pub fn well<T: Drop>(ran: Result<T, ScriptFault>) -> Result<bool, ScriptFault>
    ensures { result ≡ well_of ran }
{
    match ran {
        Ok(_) => Ok(true),
        Err(fault) => Err(fault),
    }
}

/// Does this with the lines of the reader, to the writer, and says whether nothing is wrong: `false` if no world has
/// the audited histories.
pub fn run_task<S: Source, W: Sink>(
    alloc: Global,
    task: Task,
    reader: &mut Explained<S>,
    writer: &mut W,
) -> Result<bool, ScriptFault>
    requires unread { S.calls reader.old.source ≡ 0 }
    requires fresh { W.failed writer.old ≡ false }
    ensures done { (text : List ℕ) × Appends (W.contents writer.old) (W.contents writer.new) text
        × DoesTask task result (S.remaining reader.old.source) (S.remaining reader.new.source) text }
    ensures calls { S.calls reader.new.source ≤ S.calls reader.old.source + MOST_READS }
{
    match task {
        Task::Script => well(run_script(alloc, reader, writer)),
        Task::Histories => well(run_histories(alloc, reader, writer)),
        Task::Audit => run_audit(alloc, reader, writer),
        Task::Migrate => well(run_migrate(alloc, reader, writer)),
    }
}
