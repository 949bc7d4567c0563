//! A migration, from bytes to bytes.
ghost use Rattle.rb_capi.specs.Endings.{AnswersRun, IsEndingOf};
ghost use Rattle.rb_runs.specs.Migration.{MigrationEndsAs};

use crate::ending::{ending_of, hand_over, in_memory};
use rb_lines::{FromBytes, ToBytes};
use rb_runs::{Explained, run_migrate};
use std::alloc::Global;

/// Writes the lines of histories, a configuration and entries, in version 2 of the format.
///
/// The result is 0, and `number` how many lines there are; else as for a script.
#[unsafe(no_mangle)]
pub extern "C" fn rbbank_migrate(
    alloc: Global,
    input: &[u8],
    out: &mut [u8],
    written: &mut usize,
    number: &mut u64,
) -> i32
    ensures { AnswersRun MigrationEndsAs IsEndingOf input.now out.old out.new written.new number.new result }
{
    let mut reader = Explained::new(FromBytes::new(input));
    let mut writer = ToBytes::new(alloc);
    let ran = run_migrate(alloc, &mut reader, &mut writer);
    let ended = ending_of(in_memory(ran, &mut writer.taken));
    hand_over(writer.taken.as_slice(), ended, out, written, number)
}
