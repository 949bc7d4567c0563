//! The entries of a journal, replayed. What the last of them sent is to be sent again.
ghost use Rattle.std.specs.Prelude.{◌≡◌, [], MatchOption, MatchResult};
ghost use Rattle.rb_journal.specs.Lines.{IsBatch, recovered};
ghost use Rattle.rb_run_site.specs.Replays.{EndsReplay, IsSplit, ReplaysLine, ReplaysLines, StopsAtLine};

use crate::fault::SiteFault;
use rb_lines::first_feed;
use rb_node::{EntryFault, Node, Records};

/// The first line, without its line feed, and the lines after it; `None` if there is no line.
fn split_line(lines: &[u8]) -> Option<(&[u8], &[u8])>
    requires { IsBatch lines.now }
    ensures { MatchOption result (recovered lines.now ≡ []) (λ split. IsSplit lines.now split.0.now split.1.now) }
{
    let n = first_feed(lines)?;
    Some((&lines[..n], &lines[n + 1..]))
}

/// Replays one line of a journal, without its line feed. The messages of its entry are added to `sends` if that is
/// asked for.
fn replay_one<M: Records>(
    node: &mut Node<M>,
    line: &[u8],
    number: u64,
    again: bool,
    sends: &mut Vec<u8>,
) -> Result<(), SiteFault>
    ensures { MatchResult result
        (λ _. ReplaysLine node.old.site node.new line.now again sends.old.items sends.new.items)
        (λ why. StopsAtLine node.old.site line.now number why) }
{
    match node.replay_written(line) {
        Ok(()) => {}
        Err(EntryFault::BadLine) => return Err(SiteFault::BadEntry { line: number }),
        Err(EntryFault::WrongReply) => return Err(SiteFault::WrongReply { line: number }),
        Err(EntryFault::OutOfMemory) => return Err(SiteFault::OutOfMemory),
    }
    if again {
        node.append_sent(sends)?;
    }
    Ok(())
}

/// Replays the entries of these lines, each with its line feed, of which the first is line 2 of the journal. The
/// messages of all but the first `skipped` are added to `sends`, a line for each entry that sent any.
///
/// Errors: `BadEntry` and `WrongReply`, by the line's number; `OutOfMemory`.
pub fn replay_all<M: Records>(
    node: &mut Node<M>,
    lines: &[u8],
    skipped: usize,
    sends: &mut Vec<u8>,
) -> Result<(), SiteFault>
    requires { IsBatch lines.now }
    ensures { MatchResult result
        (λ _. ReplaysLines node.old.site node.new.site (recovered lines.now) skipped sends.old.items sends.new.items)
        (λ why. EndsReplay node.old.site (recovered lines.now) why) }
{
    let mut rest = lines;
    let mut left = skipped;
    let mut number = 2u64;
    while let Some((line, later)) = split_line(rest) {
        replay_one(node, line, number, left == 0, sends)?;
        rest = later;
        left = left.saturating_sub(1);
        number += 1;
    }
    Ok(())
}
