//! The lines that wait, answered one after another, as one batch. A batch ends once its entries or its texts have more
//! than `MOST_BATCHED` bytes, so that memory is taken for that much and one answer, however many lines wait.
ghost use Rattle.std.specs.Prelude.{◌≡◌, ◌+◌, ◌^◌, ◌<◌, ◌≤◌, ◌++◌, List, ℕ, [], Ok, length, IfOk, OnOk, OnErr};
ghost use Rattle.rb_journal.specs.Lines.{recovered};
ghost use Rattle.rb_lines.specs.Buffers.{IsWholeLine};
ghost use Rattle.rb_lines.specs.declared.limits.TheConstants.{MOST_BATCHED};
ghost use Rattle.rb_journal.specs.Steps.{Advances, AdvancesByBatch, IsWaiting, point_in};
ghost use Rattle.rb_journal.specs.declared.waiting.Waiting.TheVariants.{Line};

use crate::responder::JournaledResponder;
use crate::work::Work;
use rb_lines::{Buffers, LINE_LIMIT, MOST_BATCHED, is_blank};
use std::alloc::AllocError;

/// The front of the bytes that wait.
#[derive(Clone, Copy)]
pub enum Waiting {
    /// A line of this number of bytes, with its line feed or at the end of the input.
    Line(usize),
    /// More than `LINE_LIMIT` bytes without a line feed.
    Long,
    /// The beginning of a line at most.
    Nothing,
}

/// Says what is at the front.
fn next_waiting(buffers: &mut Buffers) -> Waiting
    ensures waiting { IsWaiting buffers.old result }
    ensures same { buffers.new ≡ buffers.old }
{
    let n = buffers.pending.first_line();
    if n > LINE_LIMIT {
        return Waiting::Long;
    }
    if n < buffers.pending.as_slice().len() || (buffers.ended && n > 0) {
        return Waiting::Line(n);
    }
    Waiting::Nothing
}

/// Answers the line at the front, of this number of bytes, or skips it if it is blank. `Err` means out of memory.
fn answer_next<R: JournaledResponder>(
    responder: &mut R,
    buffers: &mut Buffers,
    work: &mut Work,
    n: usize,
) -> Result<(), AllocError>
    requires line { IsWholeLine buffers.old n }
    requires few_entries { length work.old.batch.bytes.items ≤ MOST_BATCHED }
    requires short_text { length buffers.old.buffered.items ≤ MOST_BATCHED }
    requires number { work.old.number + 1 < 2 ^ 64 }
    ensures answered { OnOk result (Advances R.answers buffers.old.ended
        (point_in (R.state responder.old) (R.lines (R.state responder.old)) buffers.old work.old)
        (point_in (R.state responder.new) (R.lines (R.state responder.new)) buffers.new work.new)) }
    // All lines that are added are in the batch.
    ensures batch { OnOk result ((before : List (List ℕ))
        → R.lines (R.state responder.old) ≡ before ++ recovered work.old.batch.bytes.items
        → R.lines (R.state responder.new) ≡ before ++ recovered work.new.batch.bytes.items) }
    ensures same { OnErr result ((state : R.State) (lines : List (List ℕ)) →
        point_in state (lines ++ recovered work.new.batch.bytes.items) buffers.new work.new
        ≡ point_in state (lines ++ recovered work.old.batch.bytes.items) buffers.old work.old) }
    ensures reads { buffers.new.reads ≡ buffers.old.reads }
    ensures ended { buffers.new.ended ≡ buffers.old.ended }
    ensures number { OnOk result ((work.new.number ≡ work.old.number + 1)
        × (length buffers.new.pending < length buffers.old.pending)) }
    ensures one { OnOk result (work.new.count ≤ work.old.count + 1) }
{
    let line = &buffers.pending.as_slice()[..n];
    if !is_blank(line) {
        responder.answer_line(line, work.number, &mut work.batch, &mut buffers.buffered)?;
        work.count += 1;
    }
    buffers.skip_line(n);
    work.number += 1;
    Ok(())
}

/// Answers lines that wait whole, one batch of them, and says what waits after them: a line, if the batch ended before
/// it, which it does once its entries or its texts have more than `MOST_BATCHED` bytes; or a line that is too long.
/// `Err` means out of memory.
pub fn answer_waiting<R: JournaledResponder>(
    responder: &mut R,
    buffers: &mut Buffers,
    work: &mut Work,
) -> Result<Waiting, AllocError>
    requires batch { work.old.batch.bytes.items ≡ [] }
    requires buffered { buffers.old.buffered.items ≡ [] }
    requires number { work.old.number + length buffers.old.pending < 2 ^ 64 }
    // Of a responder without memory nothing is said: then there is the state before the line that it didn't answer.
    ensures answered { (state : R.State) × AdvancesByBatch R.answers buffers.old.ended
        (point_in (R.state responder.old) (R.lines (R.state responder.old)) buffers.old work.old)
        (point_in state (R.lines (R.state responder.old) ++ recovered work.new.batch.bytes.items) buffers.new work.new)
        × OnOk result (R.state responder.new ≡ state) }
    ensures responder { OnOk result (R.lines (R.state responder.new)
        ≡ R.lines (R.state responder.old) ++ recovered work.new.batch.bytes.items) }
    ensures waiting { IfOk result (IsWaiting buffers.new) }
    ensures fewer { (n : ℕ) → result ≡ Ok (Line n) → length buffers.new.pending < length buffers.old.pending }
    ensures reads { buffers.new.reads ≡ buffers.old.reads }
    ensures ended { buffers.new.ended ≡ buffers.old.ended }
    ensures number { work.new.number + length buffers.new.pending ≤ work.old.number + length buffers.old.pending }
{
    'lines: loop {
        let next = next_waiting(buffers);
        let Waiting::Line(n) = next else {
            return Ok(next);
        };
        if work.batch.bytes.len() > MOST_BATCHED || buffers.buffered.len() > MOST_BATCHED {
            return Ok(Waiting::Line(n));
        }
        answer_next(responder, buffers, work, n)?;
    }
}
