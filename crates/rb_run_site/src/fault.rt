//! Why a run of a site stops.
ghost use Rattle.std.specs.Prelude.{◌≡◌, string_bytes, IfOk};
ghost use Rattle.rb_run_site.specs.Faults.{fault_of_serve, site_message_of, site_status_of};
ghost use Rattle.rb_run_site.specs.declared.fault.SiteFault.TheVariants.{OutOfMemory};

use rb_journal::ServeFault;
use std::alloc::{AllocError, Global};
use std::fmt;
use thiserror::Error;

/// Why a run of a site stops before the end of its input. Lines are numbered from 1, those of the input and those of
/// the journal each by themselves, and lines that are skipped count.
#[derive(Clone, Copy, Debug, PartialEq, Eq, Error)]
pub enum SiteFault {
    /// Every line of the input is to be skipped.
    NoConfig,
    /// The first line that isn't to be skipped is no configuration.
    BadConfig { line: u64 },
    /// The configuration has no site of the number.
    NoSite,
    /// The file is no journal of this configuration.
    AnotherJournal,
    /// A line of the journal is no entry of this site.
    BadEntry { line: u64 },
    /// The site gives another reply than a line of the journal has.
    WrongReply { line: u64 },
    /// A byte that no crash leaves is where this line of the journal, or the gate before it, should begin.
    Damaged { line: u64 },
    /// The journal isn't there, and no new one was asked for.
    NoJournal,
    /// A new journal was asked for, and there is one.
    JournalThere,
    /// Another process has the journal.
    InUse,
    /// The journal is sealed.
    Sealed,
    /// Before the configuration is a line with more than `LINE_LIMIT` bytes before its line feed, or it is such a line.
    LongLine { line: u64 },
    /// A read failed, or more than `MOST_READS` were needed.
    Read,
    /// A write of an answer failed, or took nothing.
    Write,
    /// The journal can't be opened, read, written or synced, or has 2^60 bytes.
    Journal,
    /// There was no memory to go on.
    OutOfMemory,
}

// By hand, since a derived one states no output.
impl fmt::Display for SiteFault {
    ghost use Rattle.std.specs.Prelude.{Some};
    ghost use Rattle.rb_run_site.specs.Faults.{site_reason_of};

    ghost output = { λ fault. Some (site_reason_of fault) };

    fn fmt<W: fmt::Write>(&self, f: &mut fmt::Formatter<W>) -> fmt::Result {
        match self {
            SiteFault::NoConfig => f.write_str("no configuration"),
            SiteFault::BadConfig { line } => write!(f, "line {line}: bad configuration"),
            SiteFault::NoSite => f.write_str("no such site"),
            SiteFault::AnotherJournal => f.write_str("another bank's journal"),
            SiteFault::BadEntry { line } => write!(f, "journal line {line}: bad line"),
            SiteFault::WrongReply { line } => write!(f, "journal line {line}: wrong reply"),
            SiteFault::Damaged { line } => write!(f, "journal line {line}: damaged"),
            SiteFault::NoJournal => f.write_str("no journal"),
            SiteFault::JournalThere => f.write_str("there is a journal"),
            SiteFault::InUse => f.write_str("journal is in use"),
            SiteFault::Sealed => f.write_str("journal is sealed"),
            SiteFault::LongLine { line } => write!(f, "line {line}: line too long"),
            SiteFault::Read => f.write_str("read failed"),
            SiteFault::Write => f.write_str("write failed"),
            SiteFault::Journal => f.write_str("journal failed"),
            SiteFault::OutOfMemory => f.write_str("out of memory"),
        }
    }
}

impl From<AllocError> for SiteFault {
    ghost from_gives = { λ _ fault. fault ≡ OutOfMemory };

    fn from(_: AllocError) -> SiteFault {
        SiteFault::OutOfMemory
    }
}

impl From<ServeFault> for SiteFault {
    ghost from_gives = { λ fault gives. gives ≡ fault_of_serve fault };

    fn from(fault: ServeFault) -> SiteFault {
        match fault {
            ServeFault::Read => SiteFault::Read,
            ServeFault::Write => SiteFault::Write,
            ServeFault::Journal => SiteFault::Journal,
            ServeFault::OutOfMemory => SiteFault::OutOfMemory,
        }
    }
}

/// The message of a program on standard error, without the line feed. An `Err` means out of memory.
pub fn site_message(alloc: Global, fault: SiteFault) -> Result<String, AllocError>
    ensures { IfOk result (λ text. string_bytes text ≡ site_message_of fault) }
{
    format!(in alloc; "rbbank: {fault}")
}

/// A program's exit status: 2 if the input or the journal is wrong, 3 if a read, a write or the disk failed, 4
/// if memory ran out.
pub fn site_status(fault: SiteFault) -> u8
    ensures { result ≡ site_status_of fault }
{
    match fault {
        SiteFault::Read | SiteFault::Write | SiteFault::Journal => 3,
        SiteFault::OutOfMemory => 4,
        _ => 2,
    }
}
