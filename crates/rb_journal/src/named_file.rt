//! Calls of the system on the file under a journal, beside its reads, writes and syncs. The bytes that were read are
//! written again: after a wait for the disk that failed, the system may have what an earlier process wrote in its
//! memory alone, and count it as written.
use crate::streams::{is_same, is_standard_descriptor, is_stream};
use std::fs::OpenOptions;
use std::io::{Read, Write};
use std::os::fd::AsRawFd;
use std::os::unix::fs::{FileExt, OpenOptionsExt, PermissionsExt};
use std::rt::Files;
use std::{fs, io};

/// The bytes that were read are written again in pieces of this many.
const PIECE: usize = 1 << 20;

/// The bits of a file's mode that say who may read, write and run it.
const PERMISSIONS: u32 = 0o777;

/// Why a file isn't taken, in words of its own.
fn refused(why: &str) -> io::Error {
    io::Error::new(io::ErrorKind::InvalidInput, why)
}

/// An error if the name doesn't lead to this open file, or that hasn't this many bytes: somebody else removed,
/// replaced, cut or wrote it.
pub fn leads_to<R: Files>(rt: &R, path: &str, file: &fs::File, len: u64) -> io::Result<()> {
    let opened = file.metadata()?;
    if !is_same(&fs::metadata(rt, path)?, &opened) {
        return Err(refused("its name leads to another file"));
    }
    if opened.len() != len {
        return Err(refused("somebody else changed its length"));
    }
    Ok(())
}

/// Opens a file, or makes it, and moves it above the descriptors of the standard streams, whichever of these are
/// closed: the system gives the lowest that is free, and a copy one from 3 on.
fn open_above<R: Files<File = fs::File>>(
    rt: &R,
    how: &OpenOptions,
    path: &str,
) -> io::Result<fs::File> {
    let file = how.open(rt, path)?;
    if !is_standard_descriptor(file.as_raw_fd()) {
        return Ok(file);
    }
    let above = file.try_clone()?;
    if is_standard_descriptor(above.as_raw_fd()) {
        Err(io::Error::from(io::ErrorKind::Other))
    } else {
        Ok(above)
    }
}

/// Whether a file that can't be opened to be written, for this error, may be opened to be read. It has to be a regular
/// one: opening another may wait for somebody.
fn is_readable<R: Files>(rt: &R, path: &str, error: &io::Error) -> bool {
    let kind = error.kind();
    if kind != io::ErrorKind::PermissionDenied && kind != io::ErrorKind::ReadOnlyFilesystem {
        return false;
    }
    match fs::metadata(rt, path) {
        Ok(found) => found.is_file(),
        Err(_) => false,
    }
}

/// Opens the file of this name, or makes it, if a new one is asked for, whose name has to be one with `.cut` after it
/// too. One that may not be written is opened to be read, so that it is refused for what it has; then the error is why.
pub fn open_file<R: Files<File = fs::File> + AllocGlobal>(
    rt: &R,
    path: &str,
    new: bool,
) -> io::Result<(fs::File, Option<io::Error>)> {
    if new {
        fits_beside(rt, path)?;
    }
    let mut how = OpenOptions::new();
    how.read(true).write(true).create(new);
    let error = match open_above(rt, &how, path) {
        Ok(file) => return Ok((file, None)),
        Err(error) => error,
    };
    if is_readable(rt, path, &error) {
        if let Ok(file) = open_above(rt, OpenOptions::new().read(true), path) {
            return Ok((file, Some(error)));
        }
    }
    Err(error)
}

/// Locks a file against other processes, and reads its bytes. It is refused if it is no regular file, or is open at the
/// output, which has this descriptor, or at a standard stream.
pub fn read_locked<R: Files + AllocGlobal>(
    rt: &R,
    file: &mut fs::File,
    output: i32,
) -> io::Result<Vec<u8>> {
    if !file.metadata()?.is_file() {
        return Err(refused("it is no regular file"));
    }
    if is_stream(rt, file, output)? {
        return Err(refused("it is standard input or output"));
    }
    file.try_lock()?;
    let mut bytes = Vec::new(rt.alloc());
    file.read_to_end(&mut bytes)?;
    Ok(bytes)
}

/// Writes what was read from a file again, in its place, and waits until it is on the disk.
pub fn write_again(file: &fs::File, bytes: &[u8]) -> io::Result<()> {
    let mut at = 0;
    while at < bytes.len() {
        let end = bytes.len().min(at.saturating_add(PIECE));
        file.write_all_at(&bytes[at..end], at as u64)?;
        at = end;
    }
    file.sync_all()
}

/// The folder of a name.
fn folder_of(path: &str) -> &str {
    match path.rsplit_once('/') {
        Some(("", _)) => "/",
        Some((folder, _)) => folder,
        None => ".",
    }
}

/// Syncs the folder of a file, with its name there; if the name is a link, that of the file that it leads to.
pub fn sync_folder<R: Files<File = fs::File> + AllocGlobal>(rt: &R, path: &str) -> io::Result<()> {
    let folder = if fs::symlink_metadata(rt, path)?.is_symlink() {
        fs::File::open(rt, folder_of(fs::canonicalize(rt, path)?.as_str()))?
    } else {
        fs::File::open(rt, folder_of(path))?
    };
    folder.sync_all()
}

/// The error of the file that keeps what is cut off, which says whose it is.
fn of_beside<R: AllocGlobal>(rt: &R, error: io::Error) -> io::Error {
    match format!(in rt.alloc(); "its .cut: {error}") {
        Ok(why) => io::Error::new(error.kind(), why.as_str()),
        Err(none) => io::Error::from(none),
    }
}

/// An error if no file can have this name with `.cut` after it, as the name is too long: what a crash leaves couldn't
/// be kept.
fn fits_beside<R: Files + AllocGlobal>(rt: &R, path: &str) -> io::Result<()> {
    let name = format!(in rt.alloc(); "{path}.cut")?;
    match fs::symlink_metadata(rt, name.as_str()) {
        Err(error) if error.kind() == io::ErrorKind::InvalidFilename => Err(of_beside(rt, error)),
        _ => Ok(()),
    }
}

/// Adds bytes to the end of the file of this name, which is beside this one, and waits until they are on the disk, and
/// the name too. It is made if it isn't there, with no more permissions than those of this one. It has to be a regular
/// file, and neither this one nor a stream.
fn add_beside<R: Files<File = fs::File> + AllocGlobal>(
    rt: &R,
    name: &str,
    file: &fs::File,
    output: i32,
    bytes: &[u8],
) -> io::Result<()> {
    let opened = file.metadata()?;
    let mut how = OpenOptions::new();
    // A pipe that is opened for reading too doesn't wait for its other end.
    how.read(true).append(true).create(true);
    how.mode(opened.permissions().mode() & PERMISSIONS);
    let mut kept = open_above(rt, &how, name)?;
    let found = kept.metadata()?;
    if !found.is_file() || is_same(&found, &opened) || is_stream(rt, &kept, output)? {
        return Err(refused("it is no regular file of its own"));
    }
    kept.write_all(bytes)?;
    kept.sync_all()?;
    sync_folder(rt, name)
}

/// Adds bytes to the end of the file beside this one, which has its name and `.cut`, and waits until they are on the
/// disk, and the name too. The output has this descriptor.
pub fn keep_beside<R: Files<File = fs::File> + AllocGlobal>(
    rt: &R,
    path: &str,
    file: &fs::File,
    output: i32,
    bytes: &[u8],
) -> io::Result<()> {
    let name = format!(in rt.alloc(); "{path}.cut")?;
    add_beside(rt, name.as_str(), file, output, bytes).map_err(|error| of_beside(rt, error))
}
