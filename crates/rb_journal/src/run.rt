//! All lines of a reader. Those that one read brings are answered and committed before the next read, so that nothing
//! that was read waits for more input: in one batch, or in several if they come to more than a batch may.
ghost use Rattle.std.specs.Prelude.{◌≡◌, ◌+◌, ◌^◌, ◌<◌, ◌≤◌, ◌⊎◌, ℕ, List, Option, [], true, Err, length};
ghost use Rattle.std.specs.Io.KnownBytes.{IsAtEnd};
ghost use Rattle.rb_journal.specs.Host.{LeavesOnly};
ghost use Rattle.rb_journal.specs.Lines.{IsIntact, recovered};
ghost use Rattle.rb_journal.specs.Journal.{IsSettled};
ghost use Rattle.rb_lines.specs.Buffers.{Counts};
ghost use Rattle.rb_lines.specs.declared.limits.TheConstants.{MOST_READS};
ghost use Rattle.rb_journal.specs.Ends.{EndsAs, EndsAtRest, IsFull, IsPutOut};
ghost use Rattle.rb_journal.specs.Reads.{IsAnsweredSoFar};
ghost use Rattle.rb_journal.specs.Run.{IsRunOfBatches, IsRunOfTurns, served_input};
ghost use Rattle.rb_journal.specs.Turns.{Turn};
ghost use Rattle.rb_journal.specs.declared.fault.ServeFault.TheVariants.{Journal as JournalFailed, Read, Write};

use crate::fault::{ServeFault, fault_of_read};
use crate::group::answer_group;
use crate::host::Host;
use crate::input::Input;
use crate::journal::Journal;
use crate::long::answer_long_line;
use crate::responder::JournaledResponder;
use crate::waiting::Waiting;
use crate::work::Work;
use rb_lines::Buffers;
use std::alloc::Global;

/// Answers each line of what waits in `buffers` and of what the reader still gives, and says how many were answered;
/// `number` is that of the first of them. Blank lines are counted and not answered, unless they are too long, and a
/// last line without a line feed is a line.
///
/// The whole lines of one read are answered, their entries are committed together, and their text is put out; then
/// comes the next read. Once the entries or the texts have more than `MOST_BATCHED` bytes, they are committed and put
/// out before the next line is answered.
///
/// Before a line that is too long, what was answered is committed and put out. The bytes of that line are dropped as
/// they are read, up to its line feed or the end of the input, and then its answer is put out.
pub fn serve<R: JournaledResponder, H: Host, I: Input>(
    alloc: Global,
    responder: &mut R,
    journal: &mut Journal<H>,
    buffers: &mut Buffers,
    number: u64,
    reader: &mut I,
) -> Result<u64, ServeFault>
    requires settled { IsSettled H.is_usable H.content H.may_leave journal.old }
    requires same { R.lines (R.state responder.old) ≡ recovered (H.content journal.old.host) }
    requires counted { Counts (I.calls reader.old) buffers.old.reads }
    requires end { buffers.old.ended ≡ true → IsAtEnd (I.remaining reader.old) }
    requires buffered { buffers.old.buffered.items ≡ [] }
    // Each read comes while all lines that have come whole are answered, and their answers are put out: whatever the
    // reader asks for that follows from this is met.
    requires order { (left : Option (List ℕ)) (said : List ℕ) → IsAnsweredSoFar R.answers (R.state responder.old) number
        (served_input buffers.old.pending (I.remaining reader.old)) (H.output journal.old.host) left said
        → I.may_read reader.old left said }
    requires number { number + length buffers.old.pending < 2 ^ 63 }

    // If nothing has failed but a read, the journal is at rest, and the responder is the run of its lines.
    ensures settled { EndsAtRest result → IsSettled H.is_usable H.content H.may_leave journal.new }
    ensures same { EndsAtRest result → R.lines (R.state responder.new) ≡ recovered (H.content journal.new.host) }

    // Then the lines and the text are those of the turns, and the turns are those of the lines of the input.
    ensures text { EndsAtRest result → (turns : List (Turn R.State))
        × IsPutOut R.answers (R.state responder.old) (recovered (H.content journal.old.host))
        (H.output journal.old.host) turns (recovered (H.content journal.new.host)) (H.output journal.new.host)
        × EndsAs number turns (served_input buffers.old.pending (I.remaining reader.old)) (I.remaining reader.new)
        result }

    // A crash at any moment leaves a file and an output of a run: nothing is put out that it takes back, and no line
    // of the journal is skipped or there in part.
    ensures any_moment { LeavesOnly H.moment H.left_since journal.old.host journal.new.host
        (IsRunOfTurns R.answers number (served_input buffers.old.pending (I.remaining reader.old))
        (R.state responder.old) (recovered (H.content journal.old.host)) (H.output journal.old.host)) }
    ensures intact { LeavesOnly H.moment H.left_since journal.old.host journal.new.host (λ c _. IsIntact c) }

    // At each moment what is in the file and isn't put out yet is one batch, and a batch is bounded. While a line is
    // answered no more waits for the disk, which is a condition of `answer_line`.
    ensures batches { LeavesOnly H.moment H.left_since journal.old.host journal.new.host
        (IsRunOfBatches R.answers number (served_input buffers.old.pending (I.remaining reader.old))
        (R.state responder.old) (recovered (H.content journal.old.host)) (H.output journal.old.host)) }

    // Each other fault comes only for its cause.
    ensures read { result ≡ Err Read → (I.failed reader.new ≡ true) ⊎ (I.calls reader.new ≡ MOST_READS) }
    ensures write { result ≡ Err Write → H.faults journal.old.host < H.faults journal.new.host }
    ensures journal { result ≡ Err JournalFailed → (H.faults journal.old.host < H.faults journal.new.host)
        ⊎ IsFull R.answers number (served_input buffers.old.pending (I.remaining reader.old)) (R.state responder.old)
        (recovered (H.content journal.old.host)) }
    // At most `MOST_READS` reads are made, whatever is answered.
    ensures calls { I.calls reader.new ≤ MOST_READS }
{
    let mut work = Work::new(alloc, number);
    'batches: loop {
        match answer_group(responder, journal, buffers, &mut work)? {
            Waiting::Line(_) => continue 'batches,
            Waiting::Long => {
                answer_long_line(responder, journal, buffers, &mut work, reader)?;
                continue 'batches;
            }
            Waiting::Nothing => {}
        }
        if buffers.ended {
            return Ok(work.count);
        }
        match reader.read_more(buffers, &journal.host) {
            Ok(()) => {}
            Err(no_line) => return Err(fault_of_read(no_line)),
        }
    }
}
