//! A task with the lines of files of the operating system.
ghost use Rattle.std.specs.Prelude.{◌≡◌, ◌≤◌, [], Err, IfOk, List, ℕ, false, length, string_bytes};
ghost use Rattle.std.specs.Io.KnownBytes.{Appends};
ghost use Rattle.std.specs.Process.{exit_status};
ghost use Rattle.rb_journal.specs.Calls.{files_read};
ghost use Rattle.rbbank.specs.Files.{FilesEndAs, files_status_of, lines_message_of};
ghost use Rattle.rbbank.specs.SameFiles.{AreFiles};
ghost use Rattle.rb_lines.specs.Messages.{status_of};
ghost use Rattle.rbbank.specs.Statuses.{IsEndOfFiles, IsEndOfTask, IsReportedStatus};

use crate::files_on_disk::{FilesOnDisk, name_of, report_unread};
use crate::joined::{FilesFault, Joined, join_files};
use crate::same_file::{FileId, first_same, ids_of, report_same};
use crate::task::{Task, run_task};
use crate::why::reason_of_file;
use crate::{end_of_task, out_of_memory, print_line, report_fault, report_why};
use rb_journal::CallLog;
use rb_lines::{FromBytes, ScriptFault, Sink, status};
use rb_runs::{Explained, JournalFault, journal_message, journal_status};
use std::alloc::{AllocError, Global};
use std::io;
use std::process::ExitCode;

/// The outcome of a task with the lines of files: which files the names led to; the files that were read; how the task
/// ended, or why the files aren't one input; and the status that the program ends with.
#[derive(Drop)]
pub struct RanOverFiles {
    pub ids: Vec<Option<FileId>>,
    pub read: CallLog,
    pub ended: Result<Result<bool, ScriptFault>, FilesFault>,
    pub code: ExitCode,
}

/// The text about a fault of a file's lines.
fn lines_message(alloc: Global, name: &str, fault: ScriptFault) -> Result<String, AllocError>
    ensures { IfOk result (λ text. string_bytes text ≡ lines_message_of name.now fault) }
{
    format!(in alloc; "rbbank: {name}: {fault}")
}

/// A fault of a line by the line's number in its own file, and which that is. `None` for a fault of no line.
fn in_its_file(joined: &Joined, fault: ScriptFault) -> Option<(u64, ScriptFault)> {
    match fault {
        ScriptFault::NoConfig => Some((0, fault)),
        ScriptFault::BadConfig { line } => {
            let (file, line) = joined.place_of(line);
            Some((file, ScriptFault::BadConfig { line }))
        }
        ScriptFault::BadLine { line } => {
            let (file, line) = joined.place_of(line);
            Some((file, ScriptFault::BadLine { line }))
        }
        ScriptFault::LongLine { line } => {
            let (file, line) = joined.place_of(line);
            Some((file, ScriptFault::LongLine { line }))
        }
        _ => None,
    }
}

/// Says why a task stopped: of a fault of a line, with its file.
fn report_stop(rt: &HostRuntime, names: &[&str], joined: &Joined, fault: ScriptFault) -> ExitCode
    ensures { IsReportedStatus (status_of fault) (exit_status result) }
{
    match in_its_file(joined, fault) {
        Some((file, own)) => print_line(
            rt,
            lines_message(rt.alloc(), name_of(names, file), own),
            status(fault),
        ),
        None => report_fault(rt, fault),
    }
}

/// How a task with the lines of files ends the program.
fn end_over_files(
    rt: &HostRuntime,
    names: &[&str],
    joined: &Joined,
    ran: Result<bool, ScriptFault>,
) -> ExitCode
    ensures { IsEndOfTask ran (exit_status result) }
{
    match ran {
        Err(fault) => report_stop(rt, names, joined, fault),
        Ok(_) => end_of_task(rt, ran),
    }
}

/// Says why files aren't one input. If one can't be read, this is the system's error.
fn report_files(
    rt: &HostRuntime,
    names: &[&str],
    fault: FilesFault,
    why: Option<io::Error>,
) -> ExitCode
    ensures { IsReportedStatus (files_status_of fault) (exit_status result) }
{
    match fault {
        FilesFault::Unread { file } => report_unread(rt, name_of(names, file), why),
        FilesFault::AnotherBank { file } => {
            let fault = JournalFault::AnotherBank;
            let line = journal_message(rt.alloc(), name_of(names, file), fault);
            let code = print_line(rt, line, journal_status(fault));
            report_why(rt, reason_of_file(rt, names, file, fault));
            code
        }
        FilesFault::Same(same) => report_same(rt, names, same),
        FilesFault::OutOfMemory => out_of_memory(rt),
    }
}

/// Nothing is done with the lines of files, of which none was opened.
fn not_begun(
    rt: &HostRuntime,
    names: &[&str],
    ids: Vec<Option<FileId>>,
    fault: FilesFault,
) -> RanOverFiles
    ensures ids { result.ids ≡ ids }
    ensures none { files_read result.read.events ≡ [] }
    ensures ended { result.ended ≡ Err fault }
    ensures status { IsEndOfFiles result.ended (exit_status result.code) }
{
    RanOverFiles {
        ids,
        read: CallLog::new(),
        ended: Err(fault),
        code: report_files(rt, names, fault, None),
    }
}

/// Does this with the lines of these files, which are different ones, to the writer.
fn run_over<W: Sink>(
    rt: &HostRuntime,
    ids: Vec<Option<FileId>>,
    task: Task,
    names: &[&str],
    writer: &mut W,
) -> RanOverFiles
    requires different { AreFiles (length names.now) ids.items }
    requires some { 1 ≤ length names.now }
    requires fresh { W.failed writer.old ≡ false }
    ensures written { (text : List ℕ) × Appends (W.contents writer.old) (W.contents writer.new) text
        × FilesEndAs task (length names.now) result.ids.items (files_read result.read.events) result.ended text }
    ensures status { IsEndOfFiles result.ended (exit_status result.code) }
{
    let mut files = FilesOnDisk::new(rt, names);
    let joined = join_files(rt.alloc(), &mut files, names.len() as u64);
    let (read, error) = files.end();
    match joined {
        Ok(joined) => {
            let mut reader = Explained::new(FromBytes::new(&joined.bytes));
            let ran = run_task(rt.alloc(), task, &mut reader, writer);
            let code = end_over_files(rt, names, &joined, ran);
            report_why(rt, reader.why.take());
            let ended = Ok(ran);
            RanOverFiles {
                ids,
                read,
                ended,
                code,
            }
        }
        Err(fault) => {
            let code = report_files(rt, names, fault, error);
            let ended = Err(fault);
            RanOverFiles {
                ids,
                read,
                ended,
                code,
            }
        }
    }
}

/// Does this with the lines of these files, to the writer. If a file is one before it, none is opened.
pub fn run_over_files<W: Sink>(
    rt: &HostRuntime,
    task: Task,
    names: &[&str],
    writer: &mut W,
) -> RanOverFiles
    requires some { 1 ≤ length names.now }
    requires fresh { W.failed writer.old ≡ false }
    ensures written { (text : List ℕ) × Appends (W.contents writer.old) (W.contents writer.new) text
        × FilesEndAs task (length names.now) result.ids.items (files_read result.read.events) result.ended text }
    ensures status { IsEndOfFiles result.ended (exit_status result.code) }
{
    let Ok(ids) = ids_of(rt, names) else {
        return not_begun(rt, names, Vec::new(rt.alloc()), FilesFault::OutOfMemory);
    };
    match first_same(&ids) {
        Some(same) => not_begun(rt, names, ids, FilesFault::Same(same)),
        None => run_over(rt, ids, task, names, writer),
    }
}
