//! A whole audit, from bytes to bytes.
ghost use Rattle.std.specs.Prelude.{◌≡◌, ◌↔◌, ◌≢◌, ◌+◌, ◌≤◌, ◌⊎◌, List, ℕ, true, false, Err, IfSome};
ghost use Rattle.std.specs.Io.KnownBytes.{Appends};
ghost use Rattle.rb_lines.specs.declared.fault.ScriptFault.TheVariants.{Gather, Read, Write};
ghost use Rattle.rb_lines.specs.declared.limits.TheConstants.{MOST_READS};
ghost use Rattle.rb_runs.specs.Audit.{AuditEndsAs};

use crate::audit::collected::Collected;
use crate::audit::verdict::answer;
use crate::explained::Explained;
use crate::silent::take_lines;
use rb_lines::{ScriptFault, Sink, Source, write_all};
use std::alloc::Global;

/// Audits the histories in the reader's bytes, answers one line, and says whether they have an order.
///
/// The first line that isn't to be skipped is the configuration, and each later one an entry of a site's history; those
/// of a site come in their order. The whole input is read before anything is answered. After a fault nothing was
/// written, but for `Write`: then a prefix of the line.
pub fn run_audit<S: Source, W: Sink>(
    alloc: Global,
    reader: &mut Explained<S>,
    writer: &mut W,
) -> Result<bool, ScriptFault>
    requires unread { S.calls reader.old.source ≡ 0 }
    requires fresh { W.failed writer.old ≡ false }
    // The text written is what the audit of all histories of the input finds.
    ensures written { (text : List ℕ) × Appends (W.contents writer.old) (W.contents writer.new) text
        × IfSome (S.remaining reader.old.source)
        (λ input. AuditEndsAs result input (S.remaining reader.new.source) text) }
    ensures read { result ≡ Err Read → (S.failed reader.new.source ≡ true) ⊎ (S.calls reader.new.source ≡ MOST_READS) }
    ensures write { (result ≡ Err Write) ↔ (W.failed writer.new ≡ true) }
    // Whatever the reader has, there are no histories to gather.
    ensures gather { result ≢ Err Gather }
    // There are up to `MOST_READS` reads, whatever is answered.
    ensures calls { S.calls reader.new.source ≤ S.calls reader.old.source + MOST_READS }
{
    let opened: Option<Collected> = take_lines(alloc, reader, writer)?;
    let Some(collected) = opened else {
        return Err(ScriptFault::NoConfig);
    };
    let Collected { auditor } = collected;
    let (found, line) = answer(alloc, auditor)?;
    write_all(writer, line.as_slice())?;
    Ok(found)
}
