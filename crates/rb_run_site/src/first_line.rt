//! The first line of an input.
//!
//! It is read through the buffers that the events are read through later, as one read may bring both. Blank lines
//! before it are skipped but counted, so that a fault names the line by its number in the input.
ghost use Rattle.std.specs.Prelude.{◌≡◌, ◌+◌, ◌*◌, ◌≤◌, ◌⊎◌, [], false, true, take, Err, IfErr, IfOk, IfSome};
ghost use Rattle.std.specs.Io.KnownBytes.{IsAtEnd};
ghost use Rattle.rb_lines.specs.Buffers.{Counts, IsWholeLine, left};
ghost use Rattle.rb_lines.specs.Lines.{is_blank};
ghost use Rattle.rb_lines.specs.declared.limits.TheConstants.{MOST_READS, READ_SIZE};
ghost use Rattle.rb_run_site.specs.Faults.{IsFirstLineFault, IsOpeningFault};
ghost use Rattle.rb_run_site.specs.FirstLines.{FindsFirst};
ghost use Rattle.rb_run_site.specs.declared.fault.SiteFault.TheVariants.{Read as NotRead};

use crate::fault::SiteFault;
use rb_lines::{Buffers, NoLine, Sink, Source, is_blank};

/// Brings the first line that isn't blank to the front of what was read: how long it is, without its line feed, and
/// its number, from 1. Nothing is buffered for the writer, so nothing is written. `NoConfig` if there is no such
/// line.
pub fn first_line<S: Source, W: Sink>(
    buffers: &mut Buffers,
    reader: &mut S,
    writer: &mut W,
) -> Result<(usize, u64), SiteFault>
    requires unread { S.calls reader.old ≡ 0 }
    requires fresh { W.failed writer.old ≡ false }
    requires pending { buffers.old.pending ≡ [] }
    requires buffered { buffers.old.buffered.items ≡ [] }
    requires reads { buffers.old.reads ≡ MOST_READS }
    requires going { buffers.old.ended ≡ false }
    ensures counted { Counts (S.calls reader.new) buffers.new.reads }
    ensures end { buffers.new.ended ≡ true → IsAtEnd (S.remaining reader.new) }
    ensures buffered { IfOk result (λ _. buffers.new.buffered.items ≡ []) }
    ensures line { IfOk result (λ found. IsWholeLine buffers.new found.0
        × (is_blank (take found.0 buffers.new.pending) ≡ false)) }
    ensures number { IfOk result (λ found. (1 ≤ found.1)
        × (found.1 + left buffers.new ≤ READ_SIZE * MOST_READS + 1)) }
    ensures input { IfSome (S.remaining reader.old)
        (λ input. FindsFirst result input buffers.new.pending (S.remaining reader.new)) }
    ensures only { IfErr result IsOpeningFault }
    ensures kind { IfErr result IsFirstLineFault }
    ensures read { result ≡ Err NotRead → (S.failed reader.new ≡ true) ⊎ (S.calls reader.new ≡ MOST_READS) }
    ensures calls { S.calls reader.new ≤ MOST_READS }
{
    let mut number = 1u64;
    'lines: loop {
        let n = match buffers.next_line(reader, writer) {
            Ok(Some(n)) => n,
            Ok(None) => return Err(SiteFault::NoConfig),
            Err(NoLine::TooLong) => return Err(SiteFault::LongLine { line: number }),
            Err(NoLine::Read) => return Err(SiteFault::Read),
            Err(NoLine::Write) => return Err(SiteFault::Write),
            Err(NoLine::OutOfMemory) => return Err(SiteFault::OutOfMemory),
        };
        if !is_blank(&buffers.pending.as_slice()[..n]) {
            return Ok((n, number));
        }
        buffers.skip_line(n);
        number += 1;
    }
}
