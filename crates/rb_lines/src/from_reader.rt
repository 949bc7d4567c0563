//! std's readers as sources.
ghost use Rattle.std.specs.Prelude.{◌≡◌, false};

use crate::source::{ReadFailed, Source};
use std::io::Read;

/// Any reader of std, to read lines from: standard input, a file, bytes in memory. It counts its reads, up to
/// `u64::MAX`, and remembers whether one has failed; the error itself is dropped. Each of its reads is one of the
/// reader's, so a reader that answers `Interrupted` fails.
#[derive(Drop)]
pub struct FromReader<R: Read + Drop> {
    pub reader: R,
    pub calls: u64,
    pub failed: bool,
}

impl<R: Read + Drop> FromReader<R> {
    /// No read so far.
    pub fn new(reader: R) -> Self
        ensures reader { result.reader ≡ reader }
        ensures calls { result.calls ≡ 0 }
        ensures fresh { result.failed ≡ false }
    {
        FromReader {
            reader,
            calls: 0,
            failed: false,
        }
    }
}

impl<R: Read + Drop> Source for FromReader<R> {
    ghost remaining = { λ s. R.Read.remaining s.reader };

    ghost failed = { λ s. s.failed };

    ghost calls = { λ s. s.calls };

    fn read(&mut self, buf: &mut [u8]) -> Result<usize, ReadFailed> {
        self.calls = self.calls.saturating_add(1);
        match self.reader.read(buf) {
            Ok(n) => Ok(n),
            Err(_) => {
                self.failed = true;
                Err(ReadFailed)
            }
        }
    }
}
