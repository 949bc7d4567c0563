//! Why a run has no next line.
ghost use Rattle.std.specs.Prelude.{◌≡◌};
ghost use Rattle.rb_lines.specs.Faults.{fault_at};
ghost use Rattle.rb_lines.specs.declared.no_line.NoLine.TheVariants.{OutOfMemory as NoMemory, Read as NotRead};
ghost use Rattle.rb_lines.specs.declared.no_line.NoLine.TheVariants.{Write as NotWritten};

use crate::fault::ScriptFault;
use crate::sink::WriteFailed;
use crate::source::ReadFailed;
use std::alloc::AllocError;

/// Why there is no next line.
#[derive(Clone, Copy, PartialEq, Eq)]
pub enum NoLine {
    TooLong,
    Read,
    Write,
    OutOfMemory,
}

impl NoLine {
    /// The fault of a run that stops here; its next line has this number, from 1.
    pub fn fault_at(self, line: u64) -> ScriptFault
        ensures { result ≡ fault_at self line }
    {
        match self {
            NoLine::TooLong => ScriptFault::LongLine { line },
            NoLine::Read => ScriptFault::Read,
            NoLine::Write => ScriptFault::Write,
            NoLine::OutOfMemory => ScriptFault::OutOfMemory,
        }
    }
}

impl From<ReadFailed> for NoLine {
    ghost from_gives = { λ _ why. why ≡ NotRead };

    fn from(_: ReadFailed) -> NoLine {
        NoLine::Read
    }
}

impl From<WriteFailed> for NoLine {
    ghost from_gives = { λ _ why. why ≡ NotWritten };

    fn from(_: WriteFailed) -> NoLine {
        NoLine::Write
    }
}

impl From<AllocError> for NoLine {
    ghost from_gives = { λ _ why. why ≡ NoMemory };

    fn from(_: AllocError) -> NoLine {
        NoLine::OutOfMemory
    }
}
