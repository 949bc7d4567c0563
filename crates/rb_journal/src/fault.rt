//! Why serving stops.
ghost use Rattle.std.specs.Prelude.{◌≡◌, ◌≢◌};
ghost use Rattle.rb_lines.specs.declared.no_line.NoLine.TheVariants.{OutOfMemory as NoMemory};
ghost use Rattle.rb_journal.specs.Faults.{fault_of_host};
ghost use Rattle.rb_journal.specs.declared.fault.ServeFault.TheVariants.{Journal, OutOfMemory, Read, Write};

use crate::host::HostError;
use rb_lines::NoLine;
use std::alloc::AllocError;
use std::fmt;
use thiserror::Error;

/// Why serving stops before the end of its input.
#[derive(Clone, Copy, Debug, PartialEq, Eq, Error)]
pub enum ServeFault {
    /// A read failed, or more than `MOST_READS` were needed.
    Read,
    /// The output failed.
    Write,
    /// The file failed, or is full.
    Journal,
    /// There was no memory to go on.
    OutOfMemory,
}

// By hand, since a derived one states no output.
impl fmt::Display for ServeFault {
    ghost use Rattle.std.specs.Prelude.{Some};
    ghost use Rattle.rb_journal.specs.Faults.{reason_shown};

    ghost output = { λ fault. Some (reason_shown fault) };

    fn fmt<W: fmt::Write>(&self, f: &mut fmt::Formatter<W>) -> fmt::Result {
        match self {
            ServeFault::Read => f.write_str("read failed"),
            ServeFault::Write => f.write_str("write failed"),
            ServeFault::Journal => f.write_str("journal failed"),
            ServeFault::OutOfMemory => f.write_str("out of memory"),
        }
    }
}

impl From<AllocError> for ServeFault {
    ghost from_gives = { λ _ fault. fault ≡ OutOfMemory };

    fn from(_: AllocError) -> ServeFault {
        ServeFault::OutOfMemory
    }
}

impl From<HostError> for ServeFault {
    ghost from_gives = { λ error fault. fault ≡ fault_of_host error };

    fn from(error: HostError) -> ServeFault {
        match error {
            HostError::Memory => ServeFault::OutOfMemory,
            HostError::DiskFailed => ServeFault::Journal,
            HostError::OutputFailed => ServeFault::Write,
            HostError::Full => ServeFault::Journal,
        }
    }
}

/// The fault of a read that failed for this reason: there was no memory, or the read failed.
pub fn fault_of_read(no_line: NoLine) -> ServeFault
    ensures read { result ≡ Read → no_line ≢ NoMemory }
    ensures not_write { result ≡ Write → ⊥ }
    ensures not_journal { result ≡ Journal → ⊥ }
{
    match no_line {
        NoLine::OutOfMemory => ServeFault::OutOfMemory,
        _ => ServeFault::Read,
    }
}
