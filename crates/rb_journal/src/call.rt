//! A call on a file that somebody else makes.

/// A call on a file, with what it takes. Places and lengths are in bytes from the file's start.
#[derive(Drop)]
pub enum Call {
    /// Write these bytes over what is there at this place, and past the end.
    Write { at: usize, bytes: Vec<u8> },
    /// Cut the file to this length, and wait until that is on the disk.
    Cut { len: usize },
    /// Wait until all that was written is on the disk.
    Sync,
    /// Add these bytes, which come after this number of lines and are to be cut off, to the end of the file that keeps
    /// them, and wait until they are on the disk.
    Keep { lines: u64, bytes: Vec<u8> },
    /// Put these bytes out.
    PutOut { bytes: Vec<u8> },
}
