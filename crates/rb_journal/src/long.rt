//! A line that is too long: its bytes are dropped as they come, and it is answered by its number alone.
ghost use Rattle.std.specs.Prelude.{◌≡◌, ◌+◌, ◌^◌, ◌<◌, ◌≤◌, ◌⊎◌, [], true, Err, OnOk};
ghost use Rattle.std.specs.Io.KnownBytes.{IsAtEnd};
ghost use Rattle.rb_lines.specs.Buffers.{Counts, left};
ghost use Rattle.rb_lines.specs.Lines.{line_len};
ghost use Rattle.rb_lines.specs.declared.limits.TheConstants.{LINE_LIMIT};
ghost use Rattle.rb_journal.specs.Ends.{EndsAtRest, IsFull};
ghost use Rattle.rb_journal.specs.Host.{LeavesOnly};
ghost use Rattle.rb_journal.specs.Journal.{IsSettled};
ghost use Rattle.rb_journal.specs.Lines.{IsIntact, recovered};
ghost use Rattle.rb_journal.specs.Run.{served_input};
ghost use Rattle.rb_journal.specs.Steps.{DropsLine, Goes, IsNext, IsRunFrom, MayReadOn, ReadsAsBefore, ReadsOn};
ghost use Rattle.rb_journal.specs.Steps.{point_at};
ghost use Rattle.rb_journal.specs.declared.fault.ServeFault.TheVariants.{Journal as JournalFailed, Read, Write};

use crate::fault::{ServeFault, fault_of_read};
use crate::host::Host;
use crate::input::Input;
use crate::journal::Journal;
use crate::responder::JournaledResponder;
use crate::spare::take_out_all;
use crate::work::Work;
use rb_lines::Buffers;

/// Drops the line at the front, with its line feed, if it has one. Its bytes that wait are dropped before each read, so
/// no more than one read waits besides.
fn drop_line<I: Input, H: Host>(
    buffers: &mut Buffers,
    reader: &mut I,
    host: &H,
) -> Result<(), ServeFault>
    requires counted { Counts (I.calls reader.old) buffers.old.reads }
    requires end { buffers.old.ended ≡ true → IsAtEnd (I.remaining reader.old) }
    requires nothing_buffered { buffers.old.buffered.items ≡ [] }
    requires order { MayReadOn I.Input buffers.old reader.old (H.output host.now) }
    ensures dropped { OnOk result (DropsLine buffers.old buffers.new (I.remaining reader.old)
        (I.remaining reader.new)) }
    ensures stopped { result ≡ Err Read → ReadsOn I.Input buffers.old buffers.new reader.old reader.new }
    ensures goes_on { ReadsAsBefore I.Input buffers.old buffers.new reader.old reader.new }
    ensures not_write { result ≡ Err Write → ⊥ }
    ensures not_journal { result ≡ Err JournalFailed → ⊥ }
    ensures fewer { OnOk result (buffers.new.reads ≤ buffers.old.reads) }
    ensures left { OnOk result (left buffers.new + line_len buffers.old.pending ≤ left buffers.old) }
    ensures buffered { buffers.new.buffered.items ≡ [] }
    ensures end { OnOk result (buffers.new.ended ≡ true → IsAtEnd (I.remaining reader.new)) }
{
    'reads: loop {
        let n = buffers.pending.first_line();
        let whole = n < buffers.pending.as_slice().len();
        buffers.skip_line(n);
        if whole || buffers.ended {
            return Ok(());
        }
        match reader.read_more(buffers, host) {
            Ok(()) => {}
            Err(no_line) => return Err(fault_of_read(no_line)),
        }
    }
}

/// Drops the line at the front, which is too long, and of which more may have to be read; and then puts out its answer.
/// Nothing is put out before the line has ended.
pub fn answer_long_line<R: JournaledResponder, H: Host, I: Input>(
    responder: &mut R,
    journal: &mut Journal<H>,
    buffers: &mut Buffers,
    work: &mut Work,
    reader: &mut I,
) -> Result<(), ServeFault>
    requires settled { IsSettled H.is_usable H.content H.may_leave journal.old }
    requires same { R.lines (R.state responder.old) ≡ recovered (H.content journal.old.host) }
    requires batch { work.old.batch.bytes.items ≡ [] }
    requires buffered { buffers.old.buffered.items ≡ [] }
    requires counted { Counts (I.calls reader.old) buffers.old.reads }
    requires end { buffers.old.ended ≡ true → IsAtEnd (I.remaining reader.old) }
    requires long { LINE_LIMIT < line_len buffers.old.pending }
    requires order { MayReadOn I.Input buffers.old reader.old (H.output journal.old.host) }
    requires number { work.old.number + 1 < 2 ^ 64 }

    ensures settled { EndsAtRest result → IsSettled H.is_usable H.content H.may_leave journal.new }
    ensures same { EndsAtRest result → R.lines (R.state responder.new) ≡ recovered (H.content journal.new.host) }
    // The bytes read come after those that waited, and of both together the first line was answered.
    ensures answered { OnOk result (Goes R.answers buffers.old.ended buffers.new.ended
        (point_at R.JournaledResponder H.Host responder.old journal.old work.old buffers.old)
        (point_at R.JournaledResponder H.Host responder.new journal.new work.new buffers.new)
        (I.remaining reader.old) (I.remaining reader.new)) }
    ensures stopped { result ≡ Err Read → ReadsOn I.Input buffers.old buffers.new reader.old reader.new
        × (R.state responder.new ≡ R.state responder.old) × (journal.new ≡ journal.old) }

    // A crash leaves a run over what waited and what was still to be read.
    ensures any_moment { LeavesOnly H.moment H.left_since journal.old.host journal.new.host
        (IsRunFrom R.answers (point_at R.JournaledResponder H.Host responder.old journal.old work.old
        buffers.old) (I.remaining reader.old)) }
    ensures intact { LeavesOnly H.moment H.left_since journal.old.host journal.new.host (λ c _. IsIntact c) }

    ensures goes_on { ReadsAsBefore I.Input buffers.old buffers.new reader.old reader.new }
    ensures later { H.faults journal.old.host ≤ H.faults journal.new.host }
    ensures write { result ≡ Err Write → H.faults journal.old.host < H.faults journal.new.host }
    ensures journal { result ≡ Err JournalFailed → (H.faults journal.old.host < H.faults journal.new.host)
        ⊎ IsFull R.answers work.old.number (served_input buffers.old.pending (I.remaining reader.old))
        (R.state responder.old) (recovered (H.content journal.old.host)) }

    ensures batch { work.new.batch.bytes.items ≡ [] }
    ensures next { OnOk result (IsNext I.Input buffers.old buffers.new work.old work.new reader.new) }
{
    drop_line(buffers, reader, &journal.host)?;
    responder.answer_long(work.number, &mut buffers.buffered)?;
    journal.commit_and_put_out(&mut work.batch.bytes, &buffers.buffered)?;
    take_out_all(&mut buffers.buffered);
    work.number += 1;
    work.count += 1;
    Ok(())
}
