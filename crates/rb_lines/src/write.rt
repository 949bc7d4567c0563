//! Writes of a whole text, in as many calls as it takes: a sink may take only a prefix at each. A write that takes
//! nothing counts as failed, since a loop that tried again might have no end.
ghost use Rattle.std.specs.Prelude.{◌≡◌, ◌<◌, [], true, length, MatchResult, OnErr};
ghost use Rattle.std.specs.Io.KnownBytes.{Appends};
ghost use Rattle.rb_lines.specs.Writes.{AppendsFront};

use crate::sink::{Sink, WriteFailed};

/// Writes the text. After an `Err` a prefix of it went out.
pub fn write_all<W: Sink>(writer: &mut W, text: &[u8]) -> Result<(), WriteFailed>
    ensures written { MatchResult result
        (λ _. Appends (W.contents writer.old) (W.contents writer.new) text.now
        × (W.failed writer.new ≡ W.failed writer.old))
        (λ _. AppendsFront (W.contents writer.old) (W.contents writer.new) text.now × (W.failed writer.new ≡ true)) }
    ensures nothing { OnErr result (0 < length text.now) }
{
    let mut rest = text;
    while !rest.is_empty() {
        let n = match writer.write(rest) {
            Ok(n) if n > 0 => n,
            _ => return Err(WriteFailed),
        };
        rest = &rest[n..];
    }
    Ok(())
}

/// Writes what is buffered, and keeps the buffer's capacity. The buffer is empty afterwards: after an `Err` a prefix of
/// it went out.
pub fn flush<W: Sink>(writer: &mut W, buffered: &mut Vec<u8>) -> Result<(), WriteFailed>
    ensures written { MatchResult result
        (λ _. Appends (W.contents writer.old) (W.contents writer.new) buffered.old.items
        × (W.failed writer.new ≡ W.failed writer.old))
        (λ _. AppendsFront (W.contents writer.old) (W.contents writer.new) buffered.old.items
        × (W.failed writer.new ≡ true)) }
    ensures emptied { buffered.new.items ≡ [] }
    ensures nothing { OnErr result (0 < length buffered.old.items) }
{
    let written = write_all(writer, buffered.as_slice());
    buffered.clear();
    written
}
