//! Files that are one, by one name or by several: links, or other spellings of a path.
ghost use Rattle.std.specs.Prelude.{◌≡◌, ◌<◌, ◌↔◌, ℕ, IfOk, IsTrue, MatchOption, Some, length, slice_get, string_bytes};
ghost use Rattle.std.specs.Process.{exit_status};
ghost use Rattle.rbbank.specs.SameFiles.{AreDifferent, IsSameFile, same_message_of};
ghost use Rattle.rbbank.specs.Statuses.{IsReportedStatus};

use crate::files_on_disk::name_of;
use crate::print_line;
use std::alloc::{AllocError, Global};
use std::fs;
use std::os::unix::fs::MetadataExt;
use std::process::ExitCode;

/// The status if a file is given twice.
const GIVEN_TWICE: u8 = 2;

/// A file by the system: a device, and the file's number there.
#[derive(Clone, Copy, Debug, PartialEq, Eq)]
pub struct FileId {
    pub device: u64,
    pub number: u64,
}

/// A file that is given twice: as `file`, and as `before` before that. They are numbered from 0.
#[derive(Clone, Copy, Debug, PartialEq, Eq)]
pub struct SameFile {
    pub file: u64,
    pub before: u64,
}

/// Which file a name leads to, if it leads to one.
fn id_of(rt: &HostRuntime, name: &str) -> Option<FileId> {
    let found = fs::metadata(rt, name).ok()?;
    Some(FileId {
        device: found.dev(),
        number: found.ino(),
    })
}

/// Which files these names lead to. None is opened.
pub fn ids_of(rt: &HostRuntime, names: &[&str]) -> Result<Vec<Option<FileId>>, AllocError>
    ensures { IfOk result (λ ids. length ids.items ≡ length names.now) }
{
    let mut ids = Vec::new(rt.alloc());
    for name in names {
        ids.push(id_of(rt, name))?;
    }
    Ok(ids)
}

/// Whether the file that was found at this place is the one of this id.
fn is_at(ids: &[Option<FileId>], place: usize, id: FileId) -> bool
    requires { place < length ids.now }
    ensures { IsTrue result ↔ (slice_get ids.now place ≡ Some (Some id)) }
{
    match ids[place] {
        Some(other) => other.device == id.device && other.number == id.number,
        None => false,
    }
}

/// The file before this one that it is.
fn same_before(ids: &[Option<FileId>], file: usize) -> Option<usize>
    requires { file < length ids.now }
    ensures { MatchOption result ((before : ℕ) → IsSameFile ids.now file before → ⊥) (IsSameFile ids.now file) }
{
    let Some(id) = ids[file] else {
        return None;
    };
    for before in 0..file {
        if is_at(ids, before, id) {
            return Some(before);
        }
    }
    None
}

/// The first file that is one before it.
pub fn first_same(ids: &[Option<FileId>]) -> Option<SameFile>
    ensures { MatchOption result (AreDifferent ids.now) (λ same. IsSameFile ids.now same.file same.before) }
{
    for file in 0..ids.len() {
        if let Some(before) = same_before(ids, file) {
            return Some(SameFile {
                file: file as u64,
                before: before as u64,
            });
        }
    }
    None
}

/// The text about a file that is one before it.
fn same_message(alloc: Global, name: &str, before: &str) -> Result<String, AllocError>
    ensures { IfOk result (λ text. string_bytes text ≡ same_message_of name.now before.now) }
{
    format!(in alloc; "rbbank: {name}: the same file as {before}")
}

/// Says that a file is one before it.
pub fn report_same(rt: &HostRuntime, names: &[&str], same: SameFile) -> ExitCode
    ensures { IsReportedStatus 2 (exit_status result) }
{
    let (name, before) = (name_of(names, same.file), name_of(names, same.before));
    print_line(rt, same_message(rt.alloc(), name, before), GIVEN_TWICE)
}
