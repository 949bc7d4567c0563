//! Why a run stops before its end.
ghost use Rattle.std.specs.Prelude.{◌≡◌, string_bytes, IfOk};
ghost use Rattle.rb_lines.specs.Messages.{message_of, status_of};
ghost use Rattle.rb_lines.specs.declared.fault.ScriptFault.TheVariants.{OutOfMemory, Write};

use crate::sink::WriteFailed;
use std::alloc::{AllocError, Global};
use std::fmt;
use thiserror::Error;

/// Why a script, an audit, a migration or a run of tellers stops before its end. Lines are numbered from 1, and those
/// that are skipped count.
#[derive(Clone, Copy, Debug, PartialEq, Eq, Error)]
pub enum ScriptFault {
    /// Every line is to be skipped.
    NoConfig,
    /// The first line that isn't to be skipped is no configuration.
    BadConfig { line: u64 },
    /// A later line is no command or entry.
    BadLine { line: u64 },
    /// A line has more than `LINE_LIMIT` bytes before its line feed.
    LongLine { line: u64 },
    /// A read failed, or more than `MOST_READS` were needed.
    Read,
    /// A write failed or took nothing, whatever else there was to say.
    Write,
    /// There was no memory to go on, or a thread couldn't be made.
    OutOfMemory,
    /// A site's history was full, or isn't its seats' receipts, interleaved: of runs of tellers alone.
    Gather,
}

// By hand, since a derived one states no output.
impl fmt::Display for ScriptFault {
    ghost use Rattle.std.specs.Prelude.{Some};
    ghost use Rattle.rb_lines.specs.Messages.{reason_of};

    ghost output = { λ fault. Some (reason_of fault) };

    fn fmt<W: fmt::Write>(&self, f: &mut fmt::Formatter<W>) -> fmt::Result {
        match self {
            ScriptFault::NoConfig => f.write_str("no configuration"),
            ScriptFault::BadConfig { line } => write!(f, "line {line}: bad configuration"),
            ScriptFault::BadLine { line } => write!(f, "line {line}: bad line"),
            ScriptFault::LongLine { line } => write!(f, "line {line}: line too long"),
            ScriptFault::Read => f.write_str("read failed"),
            ScriptFault::Write => f.write_str("write failed"),
            ScriptFault::OutOfMemory => f.write_str("out of memory"),
            ScriptFault::Gather => f.write_str("gather failed"),
        }
    }
}

impl From<AllocError> for ScriptFault {
    ghost from_gives = { λ _ fault. fault ≡ OutOfMemory };

    fn from(_: AllocError) -> ScriptFault {
        ScriptFault::OutOfMemory
    }
}

impl From<WriteFailed> for ScriptFault {
    ghost from_gives = { λ _ fault. fault ≡ Write };

    fn from(_: WriteFailed) -> ScriptFault {
        ScriptFault::Write
    }
}

/// The message of a program on standard error, without the line feed. An `Err` means out of memory.
pub fn message(alloc: Global, fault: ScriptFault) -> Result<String, AllocError>
    ensures { IfOk result (λ text. string_bytes text ≡ message_of fault) }
{
    format!(in alloc; "rbbank: {fault}")
}

/// A program's exit status: 2 if the input is wrong, 3 if a read or a write failed, 4 if memory ran out, 5 if histories
/// can't be gathered.
pub fn status(fault: ScriptFault) -> u8
    ensures { result ≡ status_of fault }
{
    match fault {
        ScriptFault::NoConfig => 2,
        ScriptFault::BadConfig { line: _ } => 2,
        ScriptFault::BadLine { line: _ } => 2,
        ScriptFault::LongLine { line: _ } => 2,
        ScriptFault::Read => 3,
        ScriptFault::Write => 3,
        ScriptFault::OutOfMemory => 4,
        ScriptFault::Gather => 5,
    }
}
