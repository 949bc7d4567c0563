//! Whether a standard stream is a journal's file, as /proc/self/fd says it: no call of std says of a descriptor which
//! file is open there, and the crates that could reach beyond this repository's handles. So without /proc each file may
//! be one of the streams.
use std::fs::Metadata;
use std::os::unix::fs::MetadataExt;
use std::rt::Files;
use std::{fs, io};

/// The descriptor of standard input.
const INPUT: i32 = 0;

/// The descriptor of standard error, the greatest of the standard streams.
const ERRORS: i32 = 2;

/// Whether both are one file.
pub fn is_same(one: &Metadata, other: &Metadata) -> bool {
    one.dev() == other.dev() && one.ino() == other.ino()
}

/// Whether a file may be open at this descriptor too. A closed one has no name.
fn is_at<R: Files + AllocGlobal>(rt: &R, file: &fs::File, descriptor: i32) -> io::Result<bool> {
    let name = format!(in rt.alloc(); "/proc/self/fd/{descriptor}")?;
    match fs::metadata(rt, name.as_str()) {
        Ok(found) => Ok(is_same(&found, &file.metadata()?)),
        Err(error) => Ok(error.kind() != io::ErrorKind::NotFound),
    }
}

/// Whether this descriptor is that of a standard stream.
pub fn is_standard_descriptor(descriptor: i32) -> bool {
    descriptor <= ERRORS
}

/// Whether a file may be open at standard error.
pub fn is_errors<R: Files + AllocGlobal>(rt: &R, file: &fs::File) -> io::Result<bool> {
    if fs::metadata(rt, "/proc/self/fd").is_err() {
        return Ok(true);
    }
    is_at(rt, file, ERRORS)
}

/// Whether a file may be open at the output, which has this descriptor, or at a standard stream.
pub fn is_stream<R: Files + AllocGlobal>(rt: &R, file: &fs::File, output: i32) -> io::Result<bool> {
    if is_errors(rt, file)? {
        return Ok(true);
    }
    Ok(is_at(rt, file, output)? || is_at(rt, file, INPUT)?)
}
