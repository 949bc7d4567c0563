//! A file of the operating system, and an output. Each method makes its calls of the system, and then notes them as one
//! with their answer.
//!
//! The premises, which the contracts of `Host` need and the system is trusted for: what was synced stays; a write of
//! one byte is there or isn't; a write of the bytes that are there changes none of them; only this process writes the
//! file, since it has the lock. And no standard stream is the file: `open_disk` puts the file above their descriptors,
//! so that a closed one isn't the file, and refuses a file that is open at one of them.
ghost use Rattle.std.specs.Prelude.{◌≡◌, ◌⊎◌, ◌↔◌, ◌<◌, ◌≤◌, ◌∷◌, [], false, length, string_bytes, true, None, IfErr};
ghost use Rattle.std.specs.Prelude.{IfOk, IfSome};
ghost use Rattle.std.specs.IoError.{error_kind};
ghost use Rattle.std.specs.declared.io.ErrorKind.TheVariants.{NotFound};
ghost use Rattle.rb_journal.specs.Calls.{content_of, output_of, kept_of, knows_disk, leaves, left_since, faults_of};
ghost use Rattle.rb_journal.specs.CallLaws.{now_counts, now_alone};
ghost use Rattle.rb_journal.specs.Disk.{IsAskedFor, disk_log};
ghost use Rattle.rb_journal.specs.Planned.{opened_event};
ghost use Rattle.rb_journal.specs.declared.open_error.OpenError.TheVariants.{Failed, IsErrors, NoFile};

use crate::call_log::{CUT, CallLog, KEPT, OUTPUT_FAILED, PUT_OUT, SYNCED, WROTE};
use crate::named_file::{keep_beside, leads_to, open_file, read_locked, sync_folder, write_again};
use crate::open_error::OpenError;
use crate::streams::is_errors;
use crate::{Host, HostError};
use std::os::fd::{AsFd, AsRawFd};
use std::os::unix::fs::FileExt;
use std::rt::Files;
use std::time::{Clock, Duration};
use std::{fs, io, thread};

/// How long an output that isn't ready is waited for before it is tried again, in milliseconds.
const NOT_READY: u64 = 1;

/// A host with a file of the system and an output. It keeps a log of its calls.
#[derive(Drop)]
pub struct Disk<R, P> {
    rt: R,
    file: fs::File,
    /// Why the file can only be read, if that is so.
    unwritable: Option<io::Error>,
    /// How many bytes it has, unless somebody else changed it.
    len: u64,
    /// The name that the file was opened by.
    pub path: String,
    out: P,
    out_descriptor: i32,
    failed: Option<io::Error>,
    log: CallLog,
}

impl<R, P> Disk<R, P> {
    /// The system's error of the file's last call, if that failed.
    pub fn error(&self) -> Option<io::Error> {
        self.failed
    }
}

/// Whether the system did what it was asked for. Its error is kept in `failed`.
fn is_done(failed: &mut Option<io::Error>, done: io::Result<()>) -> bool {
    match done {
        Ok(()) => true,
        Err(error) => {
            *failed = Some(error);
            false
        }
    }
}

/// Why a file isn't opened at this error of the system: `NoFile` if it isn't there, and no new one is asked for.
fn not_opened(error: io::Error, new: bool) -> OpenError
    ensures no_file { result ≡ NoFile ↔ (new ≡ false) × (error_kind error ≡ NotFound) }
    ensures failed { (result ≡ NoFile) ⊎ (result ≡ Failed error) }
{
    if !new && error.kind() == io::ErrorKind::NotFound {
        OpenError::NoFile
    } else {
        OpenError::Failed(error)
    }
}

/// Why a file isn't read, after this error: `IsErrors` if it may be standard error.
fn not_read<R: Files + AllocGlobal>(rt: &R, file: &fs::File, error: io::Error) -> OpenError
    ensures { (result ≡ IsErrors) ⊎ (result ≡ Failed error) }
{
    match is_errors(rt, file) {
        Ok(true) => OpenError::IsErrors,
        _ => OpenError::Failed(error),
    }
}

/// Opens the file of this name, locks it against other processes, and reads its bytes. Nothing of it is changed, and
/// nothing is known of the disk: `Host::write_again` comes before all else. If a new file is asked for, it is made,
/// unless it is there and empty.
///
/// Errors: `NoFile` if it isn't there, and no new one is asked for; `NotEmpty` if a new one is asked for, and it is
/// there with bytes in it; `IsErrors` if it may be standard error; else the system's, `WouldBlock` if another process
/// has the file, or `InvalidInput` if it is no regular file, or standard input or the output. A new name has to be one
/// with `.cut` after it too.
pub fn open_disk<R: Files<File = fs::File> + Clock + AllocGlobal + Copy, P: Print + AsFd + Drop>(
    rt: &R,
    path: &str,
    new: bool,
    out: P,
) -> Result<(Disk<R, P>, Vec<u8>), OpenError>
    // The file was read, and no call was made but that; so it isn't known what of it is on the disk.
    ensures log { IfOk result (λ r. disk_log r.0 ≡ opened_event r.1.items ∷ []) }
    ensures unknown { IfOk result (λ r. knows_disk (disk_log r.0) ≡ false) }
    ensures fine { IfOk result (λ r. faults_of (disk_log r.0) ≡ 0) }
    ensures content { IfOk result (λ r. content_of (disk_log r.0) ≡ r.1.items) }
    ensures output { IfOk result (λ r. output_of (disk_log r.0) ≡ []) }
    ensures kept { IfOk result (λ r. kept_of (disk_log r.0) ≡ []) }
    ensures path { IfOk result (λ r. string_bytes r.0.path ≡ path.now) }
    // A new journal begins empty, and only what wasn't asked for is refused for being there or not.
    ensures new { IfOk result (λ r. new ≡ true → r.1.items ≡ []) }
    ensures asked { IfErr result (IsAskedFor new) }
{
    let out_descriptor = out.as_fd().as_raw_fd();
    let (mut file, unwritable) = match open_file(rt, path, new) {
        Ok(opened) => opened,
        Err(error) => return Err(not_opened(error, new)),
    };
    let bytes = match read_locked(rt, &mut file, out_descriptor) {
        Ok(bytes) => bytes,
        Err(error) => return Err(not_read(rt, &file, error)),
    };
    if new && !bytes.is_empty() {
        return Err(OpenError::NotEmpty);
    }
    let mut log = CallLog::new();
    log.note_opened(&bytes);
    let disk = Disk {
        rt: *rt,
        file,
        unwritable,
        len: bytes.len() as u64,
        path: String::from_str(rt.alloc(), path)?,
        out,
        out_descriptor,
        failed: None,
        log,
    };
    Ok((disk, bytes))
}

/// Says on standard error that bytes after this number of lines are cut off and kept. A failed write is no fault.
fn say_kept<R: Eprint + AllocGlobal>(rt: &R, path: &str, lines: u64, count: usize) {
    let text = format!(in rt.alloc();
        "rbbank: journal line {lines}: {count} bytes behind it cut off, kept in {path}.cut"
    );
    if let Ok(text) = text {
        let _ = rt.eprintln(text.as_str());
    }
}

/// Puts out some of the bytes, and says how many: `None` if the output failed. One that isn't ready is waited for.
fn put_out<C: Clock, P: Print>(clock: &C, out: &P, bytes: &[u8]) -> Option<usize>
    ensures { IfSome result (λ n. (0 < n) × (n ≤ length bytes.now)) }
{
    for _ in 0..u64::MAX {
        match out.write_some(bytes) {
            Ok(n) if n > 0 => return Some(n),
            Err(error) if error.kind() == io::ErrorKind::WouldBlock => {
                thread::sleep(clock, Duration::from_millis(NOT_READY));
            }
            _ => return None,
        }
    }
    None
}

impl<R: Files<File = fs::File> + AllocGlobal, P> Disk<R, P> {
    /// Writes what was read again, if the file may be written and is the one that has the name.
    fn make_durable(&self, bytes: &[u8]) -> io::Result<()> {
        if let Some(error) = self.unwritable {
            return Err(error);
        }
        leads_to(&self.rt, self.path.as_str(), &self.file, self.len)?;
        write_again(&self.file, bytes)?;
        sync_folder(&self.rt, self.path.as_str())
    }

    /// Sets the file's length. A sync of the data alone might leave a shorter one for later.
    fn set_len(&self, len: u64) -> io::Result<()> {
        self.file.set_len(len)?;
        self.file.sync_all()
    }

    /// Writes bytes at this place, in the file that the next start opens.
    fn write_there(&self, at: usize, bytes: &[u8]) -> io::Result<()> {
        leads_to(&self.rt, self.path.as_str(), &self.file, self.len)?;
        self.file.write_all_at(bytes, at as u64)
    }
}

impl<R: Files<File = fs::File> + Clock + Eprint + AllocGlobal, P: Print> Host for Disk<R, P> {
    ghost never_failed = { λ h. faults_of h.log.events ≡ 0 };

    ghost knows_disk = { λ h. knows_disk h.log.events ≡ true };

    ghost is_usable = { λ h. (faults_of h.log.events ≡ 0) × (knows_disk h.log.events ≡ true) };

    ghost content = { λ h. content_of h.log.events };

    ghost output = { λ h. output_of h.log.events };

    ghost kept = { λ h. kept_of h.log.events };

    ghost may_leave = { λ h. leaves h.log.events };

    ghost moment = { λ h. length h.log.events };

    ghost left_since = { λ h. left_since h.log.events };

    ghost faults = { λ h. faults_of h.log.events };

    ghost counts_now = { λ h t c known le left. now_counts h.log.events t c known le left };

    ghost only_now = { λ h c d left. now_alone h.log.events c d left };

    ghost is_known = { λ h usable. usable.1 };

    fn write_again(&mut self, bytes: &[u8]) -> Result<(), HostError> {
        let done = self.make_durable(bytes);
        if !is_done(&mut self.failed, done) {
            return self.log.tried(SYNCED, 0, &[], false);
        }
        self.log.note_found(bytes);
        Ok(())
    }

    fn write_at(&mut self, at: usize, bytes: &[u8]) -> Result<(), HostError> {
        let done = self.write_there(at, bytes);
        self.len = self.len.max((at as u64).saturating_add(bytes.len() as u64));
        self.log
            .tried(WROTE, at as u64, bytes, is_done(&mut self.failed, done))
    }

    fn cut(&mut self, len: usize) -> Result<(), HostError> {
        let done = self.set_len(len as u64);
        self.len = len as u64;
        self.log
            .tried(CUT, len as u64, &[], is_done(&mut self.failed, done))
    }

    fn keep(&mut self, lines: u64, bytes: &[u8]) -> Result<(), HostError> {
        let done = keep_beside(
            &self.rt,
            self.path.as_str(),
            &self.file,
            self.out_descriptor,
            bytes,
        );
        let ok = is_done(&mut self.failed, done);
        if ok {
            say_kept(&self.rt, self.path.as_str(), lines, bytes.len());
        }
        self.log.tried(KEPT, 0, bytes, ok)
    }

    fn sync(&mut self) -> Result<(), HostError> {
        let done = self.file.sync_data();
        self.log
            .tried(SYNCED, 0, &[], is_done(&mut self.failed, done))
    }

    fn put_out(&mut self, bytes: &[u8]) -> Result<usize, HostError> {
        match put_out(&self.rt, &self.out, bytes) {
            Some(count) => {
                let _noted = self.log.tried(PUT_OUT, count as u64, bytes, true);
                Ok(count)
            }
            None => {
                let _noted = self.log.tried(OUTPUT_FAILED, 0, bytes, false);
                Err(HostError::OutputFailed)
            }
        }
    }
}
