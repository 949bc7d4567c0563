//! The bytes between a reader and a writer: no read while a whole line waits or a reply is buffered, so that no answer
//! waits for more input. Until then replies are buffered, so that those to the lines of one read take one write if they
//! fit.
ghost use Rattle.std.specs.Prelude.{◌≡◌, ◌≢◌, ◌↔◌, ◌+◌, ◌<◌, ◌≤◌, ◌⊎◌, [], true, false, Err, length, drop, MatchResult};
ghost use Rattle.std.specs.Prelude.{IfOk, OnOk};
ghost use Rattle.std.specs.Io.KnownBytes.{IsAtEnd};
ghost use Rattle.rb_lines.specs.Lines.{line_len};
ghost use Rattle.rb_lines.specs.declared.limits.TheConstants.{LINE_LIMIT, MOST_READS};
ghost use Rattle.rb_lines.specs.Buffers.{Counts, HasRead, IsNextLine, Reads, Sends, left};
ghost use Rattle.rb_lines.specs.Writes.{AppendsFront};
ghost use Rattle.rb_lines.specs.declared.no_line.NoLine.TheVariants.{TooLong, Read, Write, OutOfMemory};

use crate::limits::{LINE_LIMIT, MOST_BUFFERED, MOST_READS};
use crate::no_line::NoLine;
use crate::pending::Pending;
use crate::sink::Sink;
use crate::source::Source;
use crate::write::flush;
use std::alloc::Global;

/// What a run keeps between its reader and its writer: the bytes read and not yet answered, the answers not yet
/// written, the number of reads left, and whether the reader has come to its end.
#[derive(Drop)]
pub struct Buffers {
    pub pending: Pending,
    pub buffered: Vec<u8>,
    pub reads: u64,
    pub ended: bool,
}

impl Buffers {
    /// Nothing was read, and nothing is buffered for the writer.
    pub fn new(alloc: Global) -> Buffers
        ensures pending { result.pending ≡ [] }
        ensures buffered { result.buffered.items ≡ [] }
        ensures reads { result.reads ≡ MOST_READS }
        ensures going { result.ended ≡ false }
    {
        Buffers {
            pending: Pending::new(alloc),
            buffered: Vec::new(alloc),
            reads: MOST_READS,
            ended: false,
        }
    }

    /// Takes the line at the front, of `n` bytes without its line feed, and that too.
    pub fn skip_line(&mut self, n: usize)
        requires { n ≤ length self.old.pending }
        ensures { self.new ≡ record self.old { pending = drop (n + 1) self.old.pending } }
    {
        let len = self.pending.as_slice().len();
        self.pending.skip(if n < len { n + 1 } else { n });
    }

    /// Reads once more, after the bytes that wait. That each whole line was answered before, and each answer written,
    /// are premises here, since no clause of `next_line` speaks of the moments between: it says that while a line waits
    /// nothing is read.
    ///
    /// A read that adds nothing is the end of the input, and only such a read is (`end`, `ended`).
    ///
    /// `Read`: the read failed, or there were `MOST_READS` before. `OutOfMemory`: there was no memory to read into. No
    /// other reason is given.
    pub fn read_more<S: Source>(&mut self, reader: &mut S) -> Result<(), NoLine>
        requires counted { Counts (S.calls reader.old) self.old.reads }
        requires going { self.old.ended ≡ false }
        requires no_line_waits { line_len self.old.pending ≡ length self.old.pending }
        requires nothing_buffered { self.old.buffered.items ≡ [] }
        ensures counted { Counts (S.calls reader.new) self.new.reads }
        ensures fewer { OnOk result (self.new.reads < self.old.reads) }
        ensures left { OnOk result (left self.new ≤ left self.old) }
        ensures buffered { self.new.buffered ≡ self.old.buffered }
        ensures read { MatchResult result
            (λ _. Reads self.old.pending self.new.pending (S.remaining reader.old) (S.remaining reader.new))
            (HasRead self.old self.new (S.remaining reader.old) (S.remaining reader.new) (S.failed reader.new)
            (S.calls reader.new)) }
        ensures end { OnOk result (self.new.ended ≡ true
            → (self.new.pending ≡ self.old.pending) × IsAtEnd (S.remaining reader.new)) }
        ensures ended { OnOk result (self.new.pending ≡ self.old.pending → self.new.ended ≡ true) }
    {
        if self.reads == 0 {
            return Err(NoLine::Read);
        }
        let read = self.pending.read(reader)?;
        self.reads -= 1;
        self.ended = read? == 0;
        Ok(())
    }

    /// Brings the next line to the front, and says how many bytes it has: `None` at the end. The bytes buffered for the
    /// writer go out before a read, and once there are `MOST_BUFFERED`.
    #[inline(always)]
    pub fn next_line<S: Source, W: Sink>(
        &mut self,
        reader: &mut S,
        writer: &mut W,
    ) -> Result<Option<usize>, NoLine>
        requires counted { Counts (S.calls reader.old) self.old.reads }
        requires end { self.old.ended ≡ true → IsAtEnd (S.remaining reader.old) }
        requires fresh { W.failed writer.old ≡ false }
        ensures counted { Counts (S.calls reader.new) self.new.reads }
        ensures left { OnOk result (left self.new ≤ left self.old) }
        ensures end { self.new.ended ≡ true → IsAtEnd (S.remaining reader.new) }
        ensures was_going { self.new.ended ≡ false → self.old.ended ≡ false }
        ensures kept { MatchResult result
            (λ _. Reads self.old.pending self.new.pending (S.remaining reader.old) (S.remaining reader.new))
            (λ why. why ≢ OutOfMemory
            → Reads self.old.pending self.new.pending (S.remaining reader.old) (S.remaining reader.new)) }
        ensures sent { MatchResult result
            (λ _. Sends (W.contents writer.old) (W.contents writer.new) self.old.buffered.items self.new.buffered.items)
            (λ why. why ≢ Write
            → Sends (W.contents writer.old) (W.contents writer.new) self.old.buffered.items self.new.buffered.items) }

        // No read while a line waits.
        ensures waits { line_len self.old.pending < length self.old.pending → S.calls reader.new ≡ S.calls reader.old }

        // Each reason.
        ensures line { IfOk result (IsNextLine self.new) }
        ensures long { result ≡ Err TooLong → LINE_LIMIT < line_len self.new.pending }
        ensures read { result ≡ Err Read → (self.new.ended ≡ false)
            × (line_len self.new.pending ≡ length self.new.pending)
            × ((S.failed reader.new ≡ true) ⊎ (S.calls reader.new ≡ MOST_READS)) }
        ensures write { (result ≡ Err Write) ↔ (W.failed writer.new ≡ true) }
        ensures nothing { result ≡ Err Write → 0 < length self.old.buffered.items }
        ensures front { result ≡ Err Write
            → AppendsFront (W.contents writer.old) (W.contents writer.new) self.old.buffered.items
            × (self.new.buffered.items ≡ []) }
    {
        if self.buffered.len() >= MOST_BUFFERED {
            flush(writer, &mut self.buffered)?;
        }
        'reads: loop {
            let n = self.pending.first_line();
            if n > LINE_LIMIT {
                return Err(NoLine::TooLong);
            }
            if n < self.pending.as_slice().len() {
                return Ok(Some(n));
            }
            if self.ended {
                return Ok(if n == 0 { None } else { Some(n) });
            }
            flush(writer, &mut self.buffered)?;
            self.read_more(reader)?;
        }
    }
}
