//! A whole script whose histories are asked for, from bytes to bytes.
ghost use Rattle.std.specs.Prelude.{◌≡◌, ◌≢◌, ◌↔◌, ◌+◌, ◌≤◌, ◌⊎◌, List, [], ℕ, true, false, Err, IfSome};
ghost use Rattle.std.specs.Io.KnownBytes.{Appends};
ghost use Rattle.rb_site.specs.Histories.{histories_of};
ghost use Rattle.rb_lines.specs.declared.fault.ScriptFault.TheVariants.{Gather, Read, Write};
ghost use Rattle.rb_lines.specs.declared.limits.TheConstants.{MOST_READS};
ghost use Rattle.rb_runs.specs.Recording.{HistoriesEndAs};
ghost use Rattle.rb_runs.specs.Texts.{text_of};
ghost use Rattle.rb_runs.specs.Writing.{Writes};
ghost use Rattle.rb_runs.specs.declared.recorded.unwritten.Unwritten.TheVariants.{Write as NotWritten};

use crate::explained::Explained;
use crate::recorded::recorder::{Recorder, RecordingWorld};
use crate::recorded::text::write_text;
use crate::recorded::unwritten::Unwritten;
use crate::silent::take_lines;
use rb_lines::{ScriptFault, Sink, Source};
use std::alloc::Global;

/// Writes the lines of a world's configuration and of its sites' histories, and ends the world. After an `Err` a prefix
/// of them went out.
fn write_world<W: Sink>(
    alloc: Global,
    writer: &mut W,
    world: RecordingWorld,
) -> Result<(), Unwritten>
    requires fresh { W.failed writer.old ≡ false }
    ensures written { Writes result (W.contents writer.old) (W.contents writer.new)
        (text_of world.settings (histories_of world.settings world.world)) [] }
    ensures write { (result ≡ Err NotWritten) ↔ (W.failed writer.new ≡ true) }
{
    let copied = world.config().try_copy();
    let reports = world.close();
    let config = copied?;
    write_text(alloc, writer, &config, reports)
}

/// Runs the script in the reader's bytes, and writes its configuration and the histories of all its sites, which an
/// audit reads.
///
/// The first line that isn't to be skipped is the configuration, and each later one a command, which isn't answered.
/// The whole input is read before anything is written. Its faults are those of `run_script`, and after one nothing was
/// written. After `Write` a prefix of the histories' lines was, and after `OutOfMemory` a prefix, or nothing.
pub fn run_histories<S: Source, W: Sink>(
    alloc: Global,
    reader: &mut Explained<S>,
    writer: &mut W,
) -> Result<(), ScriptFault>
    requires unread { S.calls reader.old.source ≡ 0 }
    requires fresh { W.failed writer.old ≡ false }
    // The text written is the histories of the script's run, and nothing else.
    ensures written { (text : List ℕ) × Appends (W.contents writer.old) (W.contents writer.new) text
        × IfSome (S.remaining reader.old.source)
        (λ input. HistoriesEndAs result input (S.remaining reader.new.source) text) }
    ensures read { result ≡ Err Read → (S.failed reader.new.source ≡ true) ⊎ (S.calls reader.new.source ≡ MOST_READS) }
    ensures write { (result ≡ Err Write) ↔ (W.failed writer.new ≡ true) }
    // Whatever the reader has, the histories are those of one world, which need no gathering.
    ensures gather { result ≢ Err Gather }
    // There are up to `MOST_READS` reads, whatever is answered.
    ensures calls { S.calls reader.new.source ≤ S.calls reader.old.source + MOST_READS }
{
    let opened: Option<Recorder> = take_lines(alloc, reader, writer)?;
    let Some(recorder) = opened else {
        return Err(ScriptFault::NoConfig);
    };
    let Recorder { world, reply: _ } = recorder;
    match write_world(alloc, writer, world) {
        Ok(()) => Ok(()),
        Err(Unwritten::Write) => Err(ScriptFault::Write),
        Err(Unwritten::OutOfMemory) => Err(ScriptFault::OutOfMemory),
    }
}
