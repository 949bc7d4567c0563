//! Why the books aren't closed.
ghost use Rattle.std.specs.Prelude.{◌≡◌};
ghost use Rattle.rb_runs.specs.Closes.{close_status_of};
ghost use Rattle.rb_runs.specs.declared.books.close_fault.CloseFault.TheVariants.{OutOfMemory as NoMemory};
ghost use Rattle.rb_runs.specs.declared.books.close_fault.CloseFault.TheVariants.{Write as NotWritten};

use crate::books::added_fault::{AddedFault, added_status};
use crate::books::journal_fault::{JournalFault, journal_status};
use rb_lines::WriteFailed;
use std::alloc::AllocError;

/// Why closing the books doesn't write its line. Journals are those of sites, numbered from 0.
#[derive(Clone, Copy, Debug, PartialEq, Eq)]
pub enum CloseFault {
    /// An account can't be added.
    Added(AddedFault),
    /// The journal can't be read.
    Unread { site: u64 },
    /// The journal is at fault.
    Journal { site: u64, fault: JournalFault },
    /// A write failed, or took nothing.
    Write,
    /// There was no memory to go on.
    OutOfMemory,
}

impl From<AllocError> for CloseFault {
    ghost from_gives = { λ _ fault. fault ≡ NoMemory };

    fn from(_: AllocError) -> CloseFault {
        CloseFault::OutOfMemory
    }
}

impl From<WriteFailed> for CloseFault {
    ghost from_gives = { λ _ fault. fault ≡ NotWritten };

    fn from(_: WriteFailed) -> CloseFault {
        CloseFault::Write
    }
}

/// A program's exit status: 2 if the words or a journal are wrong, 3 if a file can't be read or the line can't be
/// written, 4 if memory ran out.
pub fn close_status(fault: CloseFault) -> u8
    ensures { result ≡ close_status_of fault }
{
    match fault {
        CloseFault::Added(why) => added_status(why),
        CloseFault::Unread { site: _ } => 3,
        CloseFault::Journal { site: _, fault } => journal_status(fault),
        CloseFault::Write => 3,
        CloseFault::OutOfMemory => 4,
    }
}
