//! Readers that aren't ready.
ghost use Rattle.std.specs.Prelude.{◌≡◌};

use std::time::{Clock, Duration};
use std::{io, thread};

/// How long a reader that isn't ready is waited for before it is tried again, in milliseconds.
const NOT_READY: u64 = 1;

/// A reader that waits for another one, as long as that isn't ready: standard input may be one that doesn't wait.
#[derive(Drop)]
pub struct Patient<C, R: io::Read + Drop> {
    clock: C,
    pub reader: R,
}

impl<C, R: io::Read + Drop> Patient<C, R> {
    /// Nothing is read yet.
    pub fn new(clock: C, reader: R) -> Self
        ensures { result.reader ≡ reader }
    {
        Patient { clock, reader }
    }
}

impl<C: Clock, R: io::Read + Drop> io::Read for Patient<C, R> {
    ghost remaining = { λ p. R.Read.remaining p.reader };

    fn read(&mut self, buf: &mut [u8]) -> io::Result<usize> {
        for _ in 0..u64::MAX {
            match self.reader.read(buf) {
                Err(error) if error.kind() == io::ErrorKind::WouldBlock => {
                    thread::sleep(&self.clock, Duration::from_millis(NOT_READY));
                }
                done => return done,
            }
        }
        Err(io::Error::from(io::ErrorKind::WouldBlock))
    }
}
