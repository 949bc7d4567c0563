//! Why a call closes no books.
ghost use Rattle.std.specs.Prelude.{◌≡◌};
ghost use Rattle.rb_capi.specs.Close.{close_code, close_number, ending_of_close, journal_of_close};

use crate::ending::Ending;
use rb_runs::{AddedFault, CloseFault, JournalFault};

/// Why a call closes no books.
#[derive(Clone, Copy)]
pub enum NotClosed {
    /// No bank may have this number of sites.
    Sites,
    /// There is no journal, or the lengths aren't those of the bytes.
    Lengths,
    /// The fault that the run finds.
    Fault(CloseFault),
}

/// The status of a fault.
fn code_of(fault: CloseFault) -> u8
    ensures { result ≡ close_code fault }
{
    match fault {
        CloseFault::Journal { site: _, fault } => match fault {
            JournalFault::BadLine { line: _ } => 2,
            JournalFault::NotSealed => 5,
            JournalFault::AnotherBank => 6,
            JournalFault::AnotherSite { line: _ } => 7,
            JournalFault::Count {
                journals: _,
                sites: _,
            } => 8,
            JournalFault::OutOfMemory => 4,
        },
        CloseFault::Added(why) => match why {
            AddedFault::There { index: _ } => 10,
            AddedFault::NoName { index: _ } => 11,
            AddedFault::TooMany => 12,
            AddedFault::OutOfMemory => 4,
        },
        _ => 4,
    }
}

/// The number of the line that is wrong, or how many sites the bank has, or which added account is wrong.
fn number_of(fault: CloseFault) -> u64
    ensures { result ≡ close_number fault }
{
    match fault {
        CloseFault::Journal { site: _, fault } => match fault {
            JournalFault::BadLine { line } => line,
            JournalFault::AnotherSite { line } => line,
            JournalFault::Count { journals: _, sites } => sites,
            _ => 0,
        },
        CloseFault::Added(AddedFault::There { index }) => index,
        CloseFault::Added(AddedFault::NoName { index }) => index,
        _ => 0,
    }
}

/// How a call ends.
pub fn end_of_close(ended: Result<bool, NotClosed>) -> Ending
    ensures { result ≡ ending_of_close ended }
{
    let (status, number) = match ended {
        Ok(true) => (0, 1),
        Ok(false) => (1, 1),
        Err(NotClosed::Sites) => (9, 0),
        Err(NotClosed::Lengths) => (13, 0),
        Err(NotClosed::Fault(fault)) => (code_of(fault), number_of(fault)),
    };
    Ending { status, number }
}

/// Which journal is wrong, from 0, or 0 if none is.
pub fn wrong_journal(ended: Result<bool, NotClosed>) -> u64
    ensures { result ≡ journal_of_close ended }
{
    match ended {
        Err(NotClosed::Fault(CloseFault::Journal { site, fault: _ })) => site,
        _ => 0,
    }
}
