//! The lines that one read brought share one commit, since that costs two syncs, however many lines there are: they
//! are answered, committed together, and then their answers are put out. If they come to more than a batch may, the
//! next batch goes on with the rest of them, so that no number of lines takes more memory than one batch.
ghost use Rattle.std.specs.Prelude.{◌≡◌, ◌+◌, ◌^◌, ◌<◌, ◌≤◌, ◌⊎◌, List, ℕ, [], true, Option, Ok, Err, length};
ghost use Rattle.std.specs.Prelude.{IfOk, OnOk};
ghost use Rattle.std.specs.Io.KnownBytes.{IsAtEnd};
ghost use Rattle.rb_journal.specs.Host.{LeavesOnly};
ghost use Rattle.rb_journal.specs.Lines.{IsIntact, recovered};
ghost use Rattle.rb_journal.specs.Journal.{IsSettled};
ghost use Rattle.rb_journal.specs.Ends.{IsFull};
ghost use Rattle.rb_journal.specs.Run.{served_input};
ghost use Rattle.rb_journal.specs.Steps.{Advances, IsRunFrom, IsWaiting, point_at};
ghost use Rattle.rb_journal.specs.declared.fault.ServeFault.TheVariants.{Journal as JournalFailed, Read, Write};
ghost use Rattle.rb_journal.specs.declared.waiting.Waiting.TheVariants.{Line};

use crate::fault::ServeFault;
use crate::host::Host;
use crate::journal::Journal;
use crate::responder::JournaledResponder;
use crate::spare::take_out_all;
use crate::waiting::{Waiting, answer_waiting};
use crate::work::Work;
use rb_lines::Buffers;

/// Answers lines that wait whole, one batch of them, commits what they add, and then puts out their text; says what
/// waits after them. If there is no memory for a line, those before it are committed and put out too.
pub fn answer_group<R: JournaledResponder, H: Host>(
    responder: &mut R,
    journal: &mut Journal<H>,
    buffers: &mut Buffers,
    work: &mut Work,
) -> Result<Waiting, ServeFault>
    requires settled { IsSettled H.is_usable H.content H.may_leave journal.old }
    requires same { R.lines (R.state responder.old) ≡ recovered (H.content journal.old.host) }
    requires batch { work.old.batch.bytes.items ≡ [] }
    requires buffered { buffers.old.buffered.items ≡ [] }
    requires number { work.old.number + length buffers.old.pending < 2 ^ 64 }

    ensures settled { OnOk result (IsSettled H.is_usable H.content H.may_leave journal.new) }
    ensures same { OnOk result (R.lines (R.state responder.new) ≡ recovered (H.content journal.new.host)) }
    ensures answered { OnOk result (Advances R.answers buffers.old.ended
        (point_at R.JournaledResponder H.Host responder.old journal.old work.old buffers.old)
        (point_at R.JournaledResponder H.Host responder.new journal.new work.new buffers.new)) }
    ensures waiting { IfOk result (IsWaiting buffers.new) }
    ensures fewer { (n : ℕ) → result ≡ Ok (Line n) → length buffers.new.pending < length buffers.old.pending }

    // A crash leaves a run over these lines, whatever is read after them, and only one batch isn't put out yet.
    ensures any_moment { (left : Option (List ℕ)) → (buffers.old.ended ≡ true → IsAtEnd left)
        → LeavesOnly H.moment H.left_since journal.old.host journal.new.host (IsRunFrom R.answers
        (point_at R.JournaledResponder H.Host responder.old journal.old work.old buffers.old) left) }
    ensures intact { LeavesOnly H.moment H.left_since journal.old.host journal.new.host (λ c _. IsIntact c) }

    ensures not_read { result ≡ Err Read → ⊥ }
    ensures later { H.faults journal.old.host ≤ H.faults journal.new.host }
    ensures write { result ≡ Err Write → H.faults journal.old.host < H.faults journal.new.host }
    ensures journal { result ≡ Err JournalFailed → (H.faults journal.old.host < H.faults journal.new.host)
        ⊎ ((left : Option (List ℕ)) → (buffers.old.ended ≡ true → IsAtEnd left)
        → IsFull R.answers work.old.number (served_input buffers.old.pending left) (R.state responder.old)
        (recovered (H.content journal.old.host))) }

    ensures batch { OnOk result (work.new.batch.bytes.items ≡ []) }
    ensures buffered { OnOk result (buffers.new.buffered.items ≡ []) }
    ensures reads { buffers.new.reads ≡ buffers.old.reads }
    ensures ended { buffers.new.ended ≡ buffers.old.ended }
    ensures number { work.new.number + length buffers.new.pending ≤ work.old.number + length buffers.old.pending }
{
    let answered = answer_waiting(responder, buffers, work);
    journal.commit_and_put_out(&mut work.batch.bytes, &buffers.buffered)?;
    take_out_all(&mut work.batch.bytes);
    take_out_all(&mut buffers.buffered);
    Ok(answered?)
}
