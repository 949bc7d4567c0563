//! A reader of lines that says when it may be read from.
ghost use Rattle.std.specs.Prelude.{◌≡◌, ◌<◌, ◌≤◌, ℕ, Bool, List, [], Option, false, true, length, MatchResult, OnOk};
ghost use Rattle.std.specs.Io.KnownBytes.{IsAtEnd};
ghost use Rattle.rb_lines.specs.Lines.{line_len};
ghost use Rattle.rb_lines.specs.Buffers.{Counts, HasRead, Reads, left};

use crate::host::Host;
use rb_lines::{Buffers, NoLine, Source};

/// A reader with a condition on when it is read from: on the bytes that are still to be read and on the output by then.
/// `serve` reads only by its method, and meets each condition that holds while all lines that have come are answered.
pub trait Input {
    /// The bytes that reads will give from here on, if they are known.
    ghost remaining: { Self → Option (List ℕ) };

    /// Whether a read has failed.
    ghost failed: { Self → Bool };

    /// How often it was read from, up to `u64::MAX`.
    ghost calls: { Self → ℕ };

    /// It may be read from while this is what reads will give, and this is what was put out.
    ghost may_read: { Self → Option (List ℕ) → List ℕ → Type 0 };

    /// Reads once more, as `Buffers::read_more` does: the bytes are added after those that wait.
    fn read_more<H: Host>(&mut self, buffers: &mut Buffers, host: &H) -> Result<(), NoLine>
        requires counted { Counts (calls self.old) buffers.old.reads }
        requires going { buffers.old.ended ≡ false }
        requires no_line_waits { line_len buffers.old.pending ≡ length buffers.old.pending }
        requires nothing_buffered { buffers.old.buffered.items ≡ [] }
        requires order { may_read self.old (remaining self.old) (H.output host.now) }
        ensures counted { Counts (calls self.new) buffers.new.reads }
        ensures fewer { OnOk result (buffers.new.reads < buffers.old.reads) }
        ensures left { OnOk result (left buffers.new ≤ left buffers.old) }
        ensures buffered { buffers.new.buffered ≡ buffers.old.buffered }
        ensures read { MatchResult result
            (λ _. Reads buffers.old.pending buffers.new.pending (remaining self.old) (remaining self.new))
            (HasRead buffers.old buffers.new (remaining self.old) (remaining self.new) (failed self.new)
            (calls self.new)) }
        ensures end { OnOk result (buffers.new.ended ≡ true → IsAtEnd (remaining self.new)) }
        ensures order { (left : Option (List ℕ)) (said : List ℕ) → may_read self.old left said
            → may_read self.new left said };
}

/// A reader without a condition.
impl<S: Source> Input for S {
    ghost use Rattle.std.specs.Prelude.{⊤};

    ghost remaining = { S.remaining };

    ghost failed = { S.failed };

    ghost calls = { S.calls };

    ghost may_read = { λ _ _ _. ⊤ };

    fn read_more<H: Host>(&mut self, buffers: &mut Buffers, _host: &H) -> Result<(), NoLine> {
        buffers.read_more(self)
    }
}
