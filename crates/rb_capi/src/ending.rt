//! How a run in memory ends, and what C finds then. The run's text is kept until the end and then copied, since no
//! contract of a run says that what comes after its text stays as it was.
ghost use Rattle.std.specs.Prelude.{◌≡◌};
ghost use Rattle.rb_capi.specs.Endings.{IsEndAtFault, IsEndingOf, IsHandedOver};
ghost use Rattle.rb_capi.specs.Endings.{number_of_line, result_in_memory, text_in_memory};

use rb_lines::{ScriptFault, status};

/// How a run ended: its status, as the program's, and how many lines it wrote, or the number of the line that is wrong.
#[derive(Clone, Copy)]
pub struct Ending {
    pub status: u8,
    pub number: u64,
}

/// The result of a run from memory to memory. A read or a write fails there only for want of memory; the text is
/// dropped then.
pub fn in_memory<T: Drop>(ran: Result<T, ScriptFault>, text: &mut Vec<u8>) -> Result<T, ScriptFault>
    ensures result { result ≡ result_in_memory ran }
    ensures text { text.new.items ≡ text_in_memory ran text.old.items }
{
    match ran {
        Err(ScriptFault::Read | ScriptFault::Write) => {
            text.clear();
            Err(ScriptFault::OutOfMemory)
        }
        ran => ran,
    }
}

/// The number of the line that is wrong, or 0 if none is.
fn wrong_line(fault: ScriptFault) -> u64
    ensures { result ≡ number_of_line fault }
{
    match fault {
        ScriptFault::BadConfig { line } => line,
        ScriptFault::BadLine { line } => line,
        ScriptFault::LongLine { line } => line,
        _ => 0,
    }
}

/// How a run ends at a fault.
pub fn end_at_fault(fault: ScriptFault) -> Ending
    ensures { IsEndAtFault fault result }
{
    Ending {
        status: status(fault),
        number: wrong_line(fault),
    }
}

/// How a script or a migration ends: the number is that of the lines that it wrote.
pub fn ending_of(ran: Result<u64, ScriptFault>) -> Ending
    ensures { IsEndingOf ran result }
{
    match ran {
        Ok(lines) => Ending {
            status: 0,
            number: lines,
        },
        Err(fault) => end_at_fault(fault),
    }
}

/// Puts the text at the beginning of `out`, as much of it as there is capacity for: `written` is how many bytes these
/// are. If that is the whole text, the result is the run's status, and the number the run's. Else it is the status
/// of a failed write, and the number is how many bytes the text has.
pub fn hand_over(
    text: &[u8],
    ending: Ending,
    out: &mut [u8],
    written: &mut usize,
    number: &mut u64,
) -> i32
    ensures { IsHandedOver text.now ending out.old out.new written.new number.new result }
{
    let n = text.len().min(out.len());
    out[..n].copy_from_slice(&text[..n]);
    *written = n;
    if n < text.len() {
        *number = text.len() as u64;
        return i32::from(status(ScriptFault::Write));
    }
    *number = ending.number;
    i32::from(ending.status)
}
