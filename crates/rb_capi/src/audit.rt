//! An audit, from bytes to bytes.
ghost use Rattle.rb_capi.specs.Endings.{AnswersRun, IsEndOfVerdict};
ghost use Rattle.rb_runs.specs.Audit.{AuditEndsAs};

use crate::ending::{Ending, end_at_fault, hand_over, in_memory};
use rb_lines::{FromBytes, ScriptFault, ToBytes};
use rb_runs::{Explained, run_audit};
use std::alloc::Global;

/// How an audit ends: it writes one line.
fn end_of_verdict(ran: Result<bool, ScriptFault>) -> Ending
    ensures { IsEndOfVerdict ran result }
{
    match ran {
        Ok(true) => Ending {
            status: 0,
            number: 1,
        },
        Ok(false) => Ending {
            status: 1,
            number: 1,
        },
        Err(fault) => end_at_fault(fault),
    }
}

/// Audits histories, a configuration and entries, by one line.
///
/// The result is 0 if that is an order that one world can have recorded them in, and 1 if no world has them, and
/// then `number` is 1; else as for a script, but nothing is written for a line that is wrong.
#[unsafe(no_mangle)]
pub extern "C" fn rbbank_audit(
    alloc: Global,
    input: &[u8],
    out: &mut [u8],
    written: &mut usize,
    number: &mut u64,
) -> i32
    ensures { AnswersRun AuditEndsAs IsEndOfVerdict input.now out.old out.new written.new number.new result }
{
    let mut reader = Explained::new(FromBytes::new(input));
    let mut writer = ToBytes::new(alloc);
    let ran = run_audit(alloc, &mut reader, &mut writer);
    let ended = end_of_verdict(in_memory(ran, &mut writer.taken));
    hand_over(writer.taken.as_slice(), ended, out, written, number)
}
