//! Closing the books by files of the operating system.
ghost use Rattle.std.specs.Prelude.{◌≡◌, ◌≤◌, [], Err, IfSome, List, ℕ, false, length, map};
ghost use Rattle.std.specs.Io.KnownBytes.{Appends};
ghost use Rattle.std.specs.Process.{exit_status};
ghost use Rattle.rb_journal.specs.Calls.{files_read};
ghost use Rattle.rb_money.specs.declared.limits.TheConstants.{MOST_SITES};
ghost use Rattle.rb_runs.specs.Closes.{close_status_of};
ghost use Rattle.rbbank.specs.Files.{ClosesFilesAs};
ghost use Rattle.rbbank.specs.SameFiles.{AreFiles};
ghost use Rattle.rbbank.specs.Statuses.{IsEndOfClosing, IsReportedStatus};

use crate::files_on_disk::{FilesOnDisk, name_of, report_unread};
use crate::same_file::{FileId, SameFile, first_same, ids_of, report_same};
use crate::why::reason_of_file;
use crate::{FAULT_FOUND, out_of_memory, print_line, report_fault, report_why};
use rb_journal::CallLog;
use rb_lines::{ScriptFault, Sink};
use rb_runs::{
    CloseFault, NextBank, added_message, added_status, journal_message, journal_status, run_close,
};
use std::io;
use std::process::ExitCode;

/// Why the books aren't closed by some files.
#[derive(Clone, Copy, Debug, PartialEq, Eq)]
pub enum ClosingFault {
    /// A file is given twice.
    Same(SameFile),
    /// The books aren't closed by what the files contain.
    Books(CloseFault),
}

/// The outcome of closing the books: which files the names led to; the files that were read; whether the books are
/// closed, or why no line was written; and the status that the program ends with.
#[derive(Drop)]
pub struct RanClosing {
    pub ids: Vec<Option<FileId>>,
    pub read: CallLog,
    pub ended: Result<bool, ClosingFault>,
    pub code: ExitCode,
}

/// Says why the books aren't closed. If a file can't be read, this is the system's error.
fn report_closing(
    rt: &HostRuntime,
    accounts: &[&str],
    journals: &[&str],
    fault: CloseFault,
    why: Option<io::Error>,
) -> ExitCode
    ensures { IsReportedStatus (close_status_of fault) (exit_status result) }
{
    let alloc = rt.alloc();
    match fault {
        CloseFault::Added(fault) => print_line(
            rt,
            added_message(alloc, accounts, fault),
            added_status(fault),
        ),
        CloseFault::Unread { site } => report_unread(rt, name_of(journals, site), why),
        CloseFault::Journal { site, fault } => {
            let name = name_of(journals, site);
            print_line(
                rt,
                journal_message(alloc, name, fault),
                journal_status(fault),
            )
        }
        CloseFault::Write => report_fault(rt, ScriptFault::Write),
        CloseFault::OutOfMemory => out_of_memory(rt),
    }
}

/// Says, after the message of a fault, why a line of a journal isn't taken, if that is the fault.
fn report_why_not(rt: &HostRuntime, journals: &[&str], fault: CloseFault) {
    if let CloseFault::Journal { site, fault } = fault {
        report_why(rt, reason_of_file(rt, journals, site, fault));
    }
}

/// The books aren't closed, and no file was opened.
fn not_begun(ids: Vec<Option<FileId>>, fault: ClosingFault, code: ExitCode) -> RanClosing
    ensures ids { result.ids ≡ ids }
    ensures none { files_read result.read.events ≡ [] }
    ensures ended { result.ended ≡ Err fault }
    ensures code { result.code ≡ code }
{
    RanClosing {
        ids,
        read: CallLog::new(),
        ended: Err(fault),
        code,
    }
}

/// Closes the books by the journals in these files, which are different ones, and writes one line to the writer.
fn close_by<W: Sink>(
    rt: &HostRuntime,
    ids: Vec<Option<FileId>>,
    sites: Option<u8>,
    accounts: &[&str],
    journals: &[&str],
    writer: &mut W,
) -> RanClosing
    requires different { AreFiles (length journals.now) ids.items }
    requires some { 1 ≤ length journals.now }
    requires sites { IfSome sites (λ n. (2 ≤ n) × (n ≤ MOST_SITES)) }
    requires fresh { W.failed writer.old ≡ false }
    ensures written { (text : List ℕ) × Appends (W.contents writer.old) (W.contents writer.new) text
        × ClosesFilesAs (record { sites = sites; added = map (λ name. name.now) accounts.now }) (length journals.now)
        result.ids.items (files_read result.read.events) result.ended text }
    ensures status { IsEndOfClosing result.ended (exit_status result.code) }
{
    let ask = NextBank::new(sites, accounts);
    let mut files = FilesOnDisk::new(rt, journals);
    let closed = run_close(rt.alloc(), &ask, journals.len(), &mut files, writer);
    let (read, error) = files.end();
    let (ended, code) = match closed {
        Ok(true) => (Ok(true), ExitCode::SUCCESS),
        Ok(false) => (Ok(false), ExitCode::from(FAULT_FOUND)),
        Err(fault) => {
            let code = report_closing(rt, accounts, journals, fault, error);
            report_why_not(rt, journals, fault);
            (Err(ClosingFault::Books(fault)), code)
        }
    };
    RanClosing {
        ids,
        read,
        ended,
        code,
    }
}

/// Closes the books by the journals in these files, and writes one line to the writer. If a file is one before it, none
/// is opened.
pub fn close_books<W: Sink>(
    rt: &HostRuntime,
    sites: Option<u8>,
    accounts: &[&str],
    journals: &[&str],
    writer: &mut W,
) -> RanClosing
    requires some { 1 ≤ length journals.now }
    requires sites { IfSome sites (λ n. (2 ≤ n) × (n ≤ MOST_SITES)) }
    requires fresh { W.failed writer.old ≡ false }
    ensures written { (text : List ℕ) × Appends (W.contents writer.old) (W.contents writer.new) text
        × ClosesFilesAs (record { sites = sites; added = map (λ name. name.now) accounts.now }) (length journals.now)
        result.ids.items (files_read result.read.events) result.ended text }
    ensures status { IsEndOfClosing result.ended (exit_status result.code) }
{
    let Ok(ids) = ids_of(rt, journals) else {
        return not_begun(
            Vec::new(rt.alloc()),
            ClosingFault::Books(CloseFault::OutOfMemory),
            out_of_memory(rt),
        );
    };
    match first_same(&ids) {
        Some(same) => not_begun(
            ids,
            ClosingFault::Same(same),
            report_same(rt, journals, same),
        ),
        None => close_by(rt, ids, sites, accounts, journals, writer),
    }
}
