//! A run over lines: each is answered, in order.
ghost use Rattle.std.specs.Prelude.{◌≡◌, ◌≢◌, ◌↔◌, ◌+◌, ◌++◌, ◌≤◌, ◌⊎◌, List, [], ℕ, true, false, Err, IfSome, OnOk};
ghost use Rattle.std.specs.Io.KnownBytes.{Appends};
ghost use Rattle.rb_lines.specs.Answers.{IsSilent, RunEndsAs, RunWillEndAs};
ghost use Rattle.rb_lines.specs.Lines.{lines_of};
ghost use Rattle.rb_lines.specs.declared.fault.ScriptFault.TheVariants.{Gather, Read, Write};
ghost use Rattle.rb_lines.specs.declared.limits.TheConstants.{MOST_READS};

use crate::buffers::Buffers;
use crate::fault::ScriptFault;
use crate::responder::Responder;
use crate::sink::Sink;
use crate::source::Source;
use crate::write::flush;
use std::alloc::Global;

/// Answers each line, and says how many were answered. Bytes that are buffered at the end, or at a fault, are still to
/// be written; after a failed write none are left.
fn answer_lines<S: Source, W: Sink, R: Responder>(
    alloc: Global,
    reader: &mut S,
    writer: &mut W,
    responder: &mut R,
    buffers: &mut Buffers,
) -> Result<u64, ScriptFault>
    requires unread { S.calls reader.old ≡ 0 }
    requires fresh { W.failed writer.old ≡ false }
    requires first { (R.state responder.old).number ≡ 1 }
    requires none { (R.state responder.old).count ≡ 0 }
    requires pending { buffers.old.pending ≡ [] }
    requires buffered { buffers.old.buffered.items ≡ [] }
    requires reads { buffers.old.reads ≡ MOST_READS }
    requires going { buffers.old.ended ≡ false }
    ensures written { (text : List ℕ) × Appends (W.contents writer.old) (W.contents writer.new) text
        × IfSome (S.remaining reader.old)
        (λ input. RunWillEndAs (R.state responder.old).rest result input (S.remaining reader.new)
        (text ++ buffers.new.buffered.items)) }
    ensures made { OnOk result (IfSome (S.remaining reader.old)
        (λ input. R.made responder.old (lines_of input) ≡ R.made responder.new [])) }
    ensures silent { IsSilent (R.state responder.old) → Appends (W.contents writer.old) (W.contents writer.new) []
        × (W.failed writer.new ≡ false) × (buffers.new.buffered.items ≡ []) }
    ensures read { result ≡ Err Read → (S.failed reader.new ≡ true) ⊎ (S.calls reader.new ≡ MOST_READS) }
    ensures write { (result ≡ Err Write) ↔ (W.failed writer.new ≡ true) }
    // Whatever the reader has, there are no histories to gather.
    ensures gather { result ≢ Err Gather }
    ensures calls { S.calls reader.new ≤ S.calls reader.old + MOST_READS }
{
    'lines: loop {
        let n = match buffers.next_line(reader, writer) {
            Ok(Some(n)) => n,
            Ok(None) => return responder.end(),
            Err(why) => return Err(why.fault_at(responder.number())),
        };
        let line = &buffers.pending.as_slice()[..n];
        responder.answer_line(alloc, line, &mut buffers.buffered)?;
        buffers.skip_line(n);
    }
}

/// Answers each line of the reader's bytes, and says how many were answered.
///
/// The answers to the whole lines of one read go out before the next read, in one write if they fit. The answers before
/// a fault go out before the fault is reported; if that write fails, the fault is `Write`.
pub fn run_lines<S: Source, W: Sink, R: Responder>(
    alloc: Global,
    reader: &mut S,
    writer: &mut W,
    responder: &mut R,
) -> Result<u64, ScriptFault>
    requires unread { S.calls reader.old ≡ 0 }
    requires fresh { W.failed writer.old ≡ false }
    requires first { (R.state responder.old).number ≡ 1 }
    requires none { (R.state responder.old).count ≡ 0 }
    // The outcome of the lines is written, and nothing else.
    ensures written { (text : List ℕ) × Appends (W.contents writer.old) (W.contents writer.new) text
        × IfSome (S.remaining reader.old)
        (λ input. RunEndsAs (R.state responder.old).rest result input (S.remaining reader.new) text) }
    // At the end the responder is as all lines make it.
    ensures made { OnOk result (IfSome (S.remaining reader.old)
        (λ input. R.made responder.old (lines_of input) ≡ R.made responder.new [])) }
    // If no line has an answer, nothing is written, whatever the reader has.
    ensures silent { IsSilent (R.state responder.old) → Appends (W.contents writer.old) (W.contents writer.new) []
        × (W.failed writer.new ≡ false) }
    ensures read { result ≡ Err Read → (S.failed reader.new ≡ true) ⊎ (S.calls reader.new ≡ MOST_READS) }
    ensures write { (result ≡ Err Write) ↔ (W.failed writer.new ≡ true) }
    // Whatever the reader has, there are no histories to gather.
    ensures gather { result ≢ Err Gather }
    // There are up to `MOST_READS` reads, whatever is answered.
    ensures calls { S.calls reader.new ≤ S.calls reader.old + MOST_READS }
{
    let mut buffers = Buffers::new(alloc);
    let answered = answer_lines(alloc, reader, writer, responder, &mut buffers);
    flush(writer, &mut buffers.buffered)?;
    answered
}
