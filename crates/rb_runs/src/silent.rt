//! Lines that are all taken before any is answered.
ghost use Rattle.std.specs.Prelude.{◌≡◌, ◌≢◌, ◌+◌, ◌≤◌, ◌⊎◌, List, [], ℕ, None, true, false, Err, IfSome};
ghost use Rattle.std.specs.Io.KnownBytes.{Appends};
ghost use Rattle.rb_lines.specs.declared.fault.ScriptFault.TheVariants.{Gather, Read, Write};
ghost use Rattle.rb_lines.specs.declared.limits.TheConstants.{MOST_READS};
ghost use Rattle.rb_runs.specs.Silent.{EndsSilently};

use crate::explained::Explained;
use crate::lines::Lines;
use crate::takes_lines::TakesLines;
use rb_lines::{ScriptFault, Sink, Source, run_lines};
use std::alloc::Global;

/// Takes each line of the reader's bytes, and gives what the configuration opened, if there is one. No line is
/// answered, so nothing is written.
pub fn take_lines<T: TakesLines, S: Source, W: Sink>(
    alloc: Global,
    reader: &mut Explained<S>,
    writer: &mut W,
) -> Result<Option<T>, ScriptFault>
    requires unread { S.calls reader.old.source ≡ 0 }
    requires fresh { W.failed writer.old ≡ false }
    requires silent { (ls : List (List ℕ)) → (T.rest None 1 ls).text ≡ [] }
    ensures written { Appends (W.contents writer.old) (W.contents writer.new) [] }
    ensures fresh { W.failed writer.new ≡ false }
    ensures input { IfSome (S.remaining reader.old.source)
        (λ input. EndsSilently T.rest T.made result input (S.remaining reader.new.source)) }
    ensures read { result ≡ Err Read → (S.failed reader.new.source ≡ true) ⊎ (S.calls reader.new.source ≡ MOST_READS) }
    ensures write { result ≢ Err Write }
    ensures gather { result ≢ Err Gather }
    ensures calls { S.calls reader.new.source ≤ S.calls reader.old.source + MOST_READS }
{
    let mut lines = Lines::<T>::new();
    match run_lines(alloc, &mut reader.source, writer, &mut lines) {
        Ok(_answered) => Ok(lines.into_opened()),
        Err(fault) => {
            reader.why = lines.close();
            Err(fault)
        }
    }
}
