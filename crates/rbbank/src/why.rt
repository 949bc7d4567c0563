//! The reason of a fault of journals, in words after two spaces. They may change: no clause says that they are right.

use crate::files_on_disk::name_of;
use rb_history::open_config;
use rb_reasons::{Expected, difference_of, line_of, reason_of};
use rb_runs::JournalFault;
use std::fs;

/// The bytes of a file once more, if it is a regular one: what a pipe had is gone, and a read of it may not end.
fn read_again(rt: &HostRuntime, name: &str) -> Option<Vec<u8>> {
    if !fs::metadata(rt, name).ok()?.is_file() {
        return None;
    }
    fs::read(rt, name).ok()
}

/// Why a file isn't taken with those before it, if a line is why. It is read once more, as is the first file.
pub fn reason_of_file(
    rt: &HostRuntime,
    names: &[&str],
    file: u64,
    fault: JournalFault,
) -> Option<String> {
    let alloc = rt.alloc();
    let first = read_again(rt, name_of(names, 0))?;
    let wrong = read_again(rt, name_of(names, file))?;
    let head = line_of(&first, 1);
    match (fault, open_config(alloc, head)) {
        (JournalFault::AnotherBank, Ok(config)) => {
            difference_of(alloc, &config, line_of(&wrong, 1))
        }
        (JournalFault::AnotherBank, Err(_)) if file == 0 => {
            reason_of(alloc, Expected::Config, None, head)
        }
        (JournalFault::BadLine { line }, Ok(config)) => {
            let line = line_of(&wrong, line);
            reason_of(alloc, Expected::Entry, Some(&config), line)
        }
        _ => None,
    }
}
