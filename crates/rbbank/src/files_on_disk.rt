//! Files of the operating system, read whole, one after another.
ghost use Rattle.std.specs.Prelude.{◌≡◌, [], None};
ghost use Rattle.std.specs.Process.{exit_status};
ghost use Rattle.rb_journal.specs.Calls.{files_read};
ghost use Rattle.rbbank.specs.Statuses.{IsReportedStatus};

use crate::{out_of_memory, print_line};
use rb_journal::CallLog;
use rb_runs::JournalFiles;
use std::alloc::{AllocError, Global};
use std::process::ExitCode;
use std::{fs, io};

/// The status if a file can't be read.
const NOT_READ: u8 = 3;

/// The files of these names, which are read one after another. It keeps a log of what it read.
#[derive(Drop)]
pub struct FilesOnDisk<'a> {
    rt: &'a HostRuntime,
    names: &'a [&'a str],
    taken: usize,
    /// The system's error, if the last file couldn't be read.
    error: Option<io::Error>,
    log: CallLog,
}

impl<'a> FilesOnDisk<'a> {
    /// Before the first file.
    pub fn new(rt: &'a HostRuntime, names: &'a [&'a str]) -> FilesOnDisk<'a>
        ensures { files_read result.log.events ≡ [] }
    {
        FilesOnDisk {
            rt,
            names,
            taken: 0,
            error: None,
            log: CallLog::new(),
        }
    }

    /// The files that were read, and the system's error, if the next one couldn't be.
    pub fn end(self) -> (CallLog, Option<io::Error>)
        ensures { result.0 ≡ self.entry.log }
    {
        let FilesOnDisk {
            rt: _,
            names: _,
            taken: _,
            error,
            log,
        } = self;
        (log, error)
    }
}

impl<'a> JournalFiles for FilesOnDisk<'a> {
    ghost read = { λ files. files_read files.log.events };

    ghost known = { λ _. None };

    fn read_next(&mut self) -> Option<Vec<u8>> {
        let name = self.names.get(self.taken)?;
        match fs::read(self.rt, *name) {
            Ok(bytes) => {
                self.taken += 1;
                self.log.note_opened(&bytes);
                Some(bytes)
            }
            Err(error) => {
                self.error = Some(error);
                None
            }
        }
    }
}

/// The name of a file.
pub fn name_of<'a>(names: &[&'a str], file: u64) -> &'a str {
    match names.get(file as usize) {
        Some(name) => name,
        None => "",
    }
}

/// The text about a file that can't be read.
fn unread_message(alloc: Global, name: &str, why: io::Error) -> Result<String, AllocError> {
    format!(in alloc; "rbbank: {name}: {why}")
}

/// Says that a file can't be read, and why.
pub fn report_unread(rt: &HostRuntime, name: &str, why: Option<io::Error>) -> ExitCode
    ensures { IsReportedStatus 3 (exit_status result) }
{
    match why {
        Some(why) if why.kind() != io::ErrorKind::OutOfMemory => {
            print_line(rt, unread_message(rt.alloc(), name, why), NOT_READ)
        }
        _ => out_of_memory(rt),
    }
}
