//! A script, from bytes to bytes.
ghost use Rattle.rb_capi.specs.Endings.{AnswersRun, IsEndingOf};
ghost use Rattle.rb_runs.specs.Script.{ScriptEndsAs};

use crate::ending::{ending_of, hand_over, in_memory};
use rb_lines::{FromBytes, ToBytes};
use rb_runs::{Explained, run_script};
use std::alloc::Global;

/// Answers a script, a configuration and commands, by a line for each command.
///
/// The result is 0, and `number` how many replies there are; 2 for a line that is wrong, after the replies before it,
/// and `number` is that of the line, from 1, or 0 if there is no configuration; 4 for want of memory. The text is at
/// the beginning of `out`, in `written` bytes. If `out` is too short for it, it gets as much as it has capacity for,
/// the result is 3, and `number` is how many bytes the text has.
#[unsafe(no_mangle)]
pub extern "C" fn rbbank_script(
    alloc: Global,
    input: &[u8],
    out: &mut [u8],
    written: &mut usize,
    number: &mut u64,
) -> i32
    ensures { AnswersRun ScriptEndsAs IsEndingOf input.now out.old out.new written.new number.new result }
{
    let mut reader = Explained::new(FromBytes::new(input));
    let mut writer = ToBytes::new(alloc);
    let ran = run_script(alloc, &mut reader, &mut writer);
    let ended = ending_of(in_memory(ran, &mut writer.taken));
    hand_over(writer.taken.as_slice(), ended, out, written, number)
}
