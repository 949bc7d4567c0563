//! The trait of a type that answers lines, and keeps its state in a journal.
ghost use Rattle.std.specs.Prelude.{◌≡◌, ◌≤◌, ℕ, List, [], false, true, length, OnOk, OnErr};
ghost use Rattle.rb_lines.specs.Lines.{is_blank, is_long};
ghost use Rattle.rb_lines.specs.declared.limits.TheConstants.{LINE_LIMIT, MOST_BATCHED};
ghost use Rattle.rb_journal.specs.Lines.{recovered};
ghost use Rattle.rb_journal.specs.Turns.{IsTurn};

use crate::batch::LineBatch;
use std::alloc::AllocError;

/// A type that answers lines, one after another. Its state is the run of a journal's lines.
pub trait JournaledResponder {
    /// The part of a responder that clauses see.
    ghost State: { Type 0 };

    /// The responder's state.
    ghost state: { Self → State };

    /// The journal's lines that a responder in that state is the run of, each with its line feed.
    ghost lines: { State → List (List ℕ) };

    /// In the first state, the input line of this number may be answered by adding these lines, with this text, and
    /// then the state is the second.
    ghost answers: { State → ℕ → List ℕ → List (List ℕ) → List ℕ → State → Type 0 };

    /// Takes the line of this number in the input, which isn't blank and not too long: adds its lines to the batch, and
    /// its answer to the text. `Err` means out of memory: neither has changed, and nothing more may be asked of it.
    fn answer_line(
        &mut self,
        line: &[u8],
        number: u64,
        batch: &mut LineBatch,
        text: &mut Vec<u8>,
    ) -> Result<(), AllocError>
        requires some { is_blank line.now ≡ false }
        requires short { length line.now ≤ LINE_LIMIT }
        // Of what was answered before it, up to this much waits for the disk: memory is taken for that and one answer.
        requires few_entries { length batch.old.bytes.items ≤ MOST_BATCHED }
        requires short_text { length text.old.items ≤ MOST_BATCHED }
        ensures answered { OnOk result (IsTurn answers (state self.old) (state self.new)
            (lines (state self.old)) (lines (state self.new))
            (recovered batch.old.bytes.items) (recovered batch.new.bytes.items) number line.now
            text.old.items text.new.items) }
        ensures batch_err { OnErr result (batch.new.bytes.items ≡ batch.old.bytes.items) }
        ensures text_err { OnErr result (text.new.items ≡ text.old.items) };

    /// Takes the line of this number in the input, which is too long, and whose bytes weren't kept: adds its answer to
    /// the text, and no line to the journal. `Err` means out of memory: the text has not changed, and nothing more may
    /// be asked of it.
    fn answer_long(&mut self, number: u64, text: &mut Vec<u8>) -> Result<(), AllocError>
        // It is the answer to the line, whichever bytes it has.
        ensures answered { OnOk result ((line : List ℕ) → is_long line ≡ true →
            IsTurn answers (state self.old) (state self.new) (lines (state self.old)) (lines (state self.new))
            [] [] number line text.old.items text.new.items) }
        ensures text_err { OnErr result (text.new.items ≡ text.old.items) };
}
