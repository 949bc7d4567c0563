//! Why a journal can't be closed.
ghost use Rattle.std.specs.Prelude.{◌≡◌, string_bytes, IfOk};
ghost use Rattle.rb_runs.specs.JournalFiles.{journal_message_of, journal_reason_of, journal_status_of};
ghost use Rattle.rb_runs.specs.declared.books.journal_fault.JournalFault.TheVariants.{OutOfMemory as NoMemory};

use std::alloc::{AllocError, Global};
use std::fmt;
use thiserror::Error;

/// Why the journals of a bank can't be closed. The lines of each are numbered from 1, and its first one is the
/// configuration's.
#[derive(Clone, Copy, Debug, PartialEq, Eq, Error)]
pub enum JournalFault {
    /// The file doesn't end in a line feed and a TAB.
    NotSealed,
    /// The first line is no configuration as a site writes it, or not the first journal's.
    AnotherBank,
    /// The line is no entry, or too long.
    BadLine { line: u64 },
    /// The entry on the line is another site's than the journal's.
    AnotherSite { line: u64 },
    /// There are more journals than sites, or fewer.
    Count { journals: u64, sites: u64 },
    /// There was no memory to go on.
    OutOfMemory,
}

// By hand, since a derived one states no output.
impl fmt::Display for JournalFault {
    ghost use Rattle.std.specs.Prelude.{Some};
    ghost use Rattle.rb_runs.specs.JournalFiles.{journal_reason_of};

    ghost output = { λ fault. Some (journal_reason_of fault) };

    fn fmt<W: fmt::Write>(&self, f: &mut fmt::Formatter<W>) -> fmt::Result {
        match self {
            JournalFault::NotSealed => f.write_str("not sealed"),
            JournalFault::AnotherBank => f.write_str("another bank's journal"),
            JournalFault::BadLine { line } => write!(f, "line {line}: bad line"),
            JournalFault::AnotherSite { line } => write!(f, "line {line}: another site's entry"),
            JournalFault::Count { journals, sites } => {
                write!(f, "{journals} journals for {sites} sites")
            }
            JournalFault::OutOfMemory => f.write_str("out of memory"),
        }
    }
}

impl From<AllocError> for JournalFault {
    ghost from_gives = { λ _ fault. fault ≡ NoMemory };

    fn from(_: AllocError) -> JournalFault {
        JournalFault::OutOfMemory
    }
}

/// The text that a program writes on standard error about a file with the fault, without the line feed. An `Err` means
/// out of memory.
pub fn journal_message(alloc: Global, file: &str, fault: JournalFault) -> Result<String, AllocError>
    ensures { IfOk result (λ text. string_bytes text ≡ journal_message_of file.now fault) }
{
    match fault {
        JournalFault::Count { .. } | JournalFault::OutOfMemory => format!(in alloc;
            "rbbank: {fault}"
        ),
        _ => format!(in alloc; "rbbank: {file}: {fault}"),
    }
}

/// A program's exit status: 2 if a journal is wrong, 4 if memory ran out.
pub fn journal_status(fault: JournalFault) -> u8
    ensures { result ≡ journal_status_of fault }
{
    match fault {
        JournalFault::OutOfMemory => 4,
        _ => 2,
    }
}
