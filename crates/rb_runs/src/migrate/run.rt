//! A whole migration, from bytes to bytes.
ghost use Rattle.std.specs.Prelude.{◌≡◌, ◌≢◌, ◌↔◌, ◌+◌, ◌≤◌, ◌⊎◌, List, ℕ, true, false, Err, IfSome};
ghost use Rattle.std.specs.Io.KnownBytes.{Appends};
ghost use Rattle.rb_runs.specs.Migration.{MigrationEndsAs};
ghost use Rattle.rb_lines.specs.declared.fault.ScriptFault.TheVariants.{Gather, Read, Write};
ghost use Rattle.rb_lines.specs.declared.limits.TheConstants.{MOST_READS};

use crate::explained::Explained;
use crate::lines::Lines;
use crate::migrate::versions::Versions;
use rb_lines::{ScriptFault, Sink, Source, run_lines};
use std::alloc::Global;

/// Writes each line of the reader's bytes in version 2 of the format, in the same order, and says how many were
/// written.
///
/// The first line that isn't to be skipped is the configuration, and each later one an entry of a site's history, both
/// of either version. The lines of one read go out before the next read, in one write if they fit. Lines written before
/// a fault go out before the fault is reported; if that write fails, the fault is `Write`.
pub fn run_migrate<S: Source, W: Sink>(
    alloc: Global,
    reader: &mut Explained<S>,
    writer: &mut W,
) -> Result<u64, ScriptFault>
    requires unread { S.calls reader.old.source ≡ 0 }
    requires fresh { W.failed writer.old ≡ false }
    // The text written is the lines of the input in version 2, and nothing else.
    ensures written { (text : List ℕ) × Appends (W.contents writer.old) (W.contents writer.new) text
        × IfSome (S.remaining reader.old.source)
        (λ input. MigrationEndsAs result input (S.remaining reader.new.source) text) }
    ensures read { result ≡ Err Read → (S.failed reader.new.source ≡ true) ⊎ (S.calls reader.new.source ≡ MOST_READS) }
    ensures write { (result ≡ Err Write) ↔ (W.failed writer.new ≡ true) }
    // Whatever the reader has, there are no histories to gather.
    ensures gather { result ≢ Err Gather }
    // There are up to `MOST_READS` reads, whatever is answered.
    ensures calls { S.calls reader.new.source ≤ S.calls reader.old.source + MOST_READS }
{
    let mut lines = Lines::<Versions>::new();
    let answered = run_lines(alloc, &mut reader.source, writer, &mut lines);
    reader.why = lines.close();
    answered
}
