//! One line, for a caller that has a loop of its own.
ghost use Rattle.std.specs.Prelude.{◌≡◌, ◌⊎◌, [], List, ℕ, Ok, OnOk, Err};
ghost use Rattle.rb_journal.specs.Host.{LeavesOnly};
ghost use Rattle.rb_journal.specs.Journal.{IsSettled};
ghost use Rattle.rb_journal.specs.Lines.{IsIntact, recovered};
ghost use Rattle.rb_journal.specs.Alone.{IsAnsweredAlone, AreEither};
ghost use Rattle.rb_journal.specs.declared.fault.ServeFault.TheVariants.{Read, Write};

use crate::batch::LineBatch;
use crate::fault::ServeFault;
use crate::host::Host;
use crate::journal::Journal;
use crate::responder::JournaledResponder;
use rb_lines::{LINE_LIMIT, is_blank};
use std::alloc::{AllocError, Global};

/// Answers a line as `serve` does: one that is blank isn't answered, and of one that is too long only its number is.
fn take_line<R: JournaledResponder>(
    responder: &mut R,
    line: &[u8],
    number: u64,
    batch: &mut LineBatch,
    text: &mut Vec<u8>,
) -> Result<(), AllocError>
    requires batch { batch.old.bytes.items ≡ [] }
    requires text { text.old.items ≡ [] }
    ensures { OnOk result (IsAnsweredAlone R.answers (R.state responder.old) (R.state responder.new)
        (R.lines (R.state responder.old)) (R.lines (R.state responder.new)) (recovered batch.new.bytes.items)
        number line.now text.new.items) }
{
    if line.len() > LINE_LIMIT {
        return responder.answer_long(number, text);
    }
    if is_blank(line) {
        return Ok(());
    }
    responder.answer_line(line, number, batch, text)
}

/// Answers the line of this number, which has no line feed, and adds its lines to the journal: at `Ok` they are on the
/// disk, and the text is the answer, to be put out by the caller. A blank line has none, unless it is too long. At
/// `Err` nothing is to be put out, and the file is to be opened again.
pub fn answer_alone<R: JournaledResponder, H: Host>(
    alloc: Global,
    responder: &mut R,
    journal: &mut Journal<H>,
    line: &[u8],
    number: u64,
    text: &mut Vec<u8>,
) -> Result<(), ServeFault>
    requires settled { IsSettled H.is_usable H.content H.may_leave journal.old }
    requires same { R.lines (R.state responder.old) ≡ recovered (H.content journal.old.host) }
    requires text { text.old.items ≡ [] }

    ensures settled { OnOk result (IsSettled H.is_usable H.content H.may_leave journal.new) }
    ensures same { OnOk result (R.lines (R.state responder.new) ≡ recovered (H.content journal.new.host)) }
    ensures output { H.output journal.new.host ≡ H.output journal.old.host }
    ensures reported { H.reported journal.new.host ≡ H.reported journal.old.host }

    // The line is answered as among others.
    ensures answered { OnOk result ((batch : List (List ℕ)) × IsAnsweredAlone R.answers (R.state responder.old)
        (R.state responder.new) (recovered (H.content journal.old.host)) (recovered (H.content journal.new.host)) batch
        number line.now text.new.items) }

    // A crash at any moment of the call leaves the lines from before it, with all that the answer adds or none of it.
    ensures any_moment { OnOk result (LeavesOnly H.moment H.left_since journal.old.host journal.new.host
        (λ c d. AreEither (recovered (H.content journal.old.host)) (recovered (H.content journal.new.host))
        (recovered c) × (d ≡ H.output journal.old.host))) }
    ensures intact { LeavesOnly H.moment H.left_since journal.old.host journal.new.host (λ c _. IsIntact c) }

    ensures not_read { result ≡ Err Read → ⊥ }
    ensures not_write { result ≡ Err Write → ⊥ }
{
    let mut batch = LineBatch::new(alloc);
    take_line(responder, line, number, &mut batch, text)?;
    journal.append(&mut batch.bytes)?;
    Ok(())
}
