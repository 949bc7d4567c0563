//! std's writers as sinks.
ghost use Rattle.std.specs.Prelude.{◌≡◌, false};

use crate::sink::{Sink, WriteFailed};
use std::io::Write;

/// Any writer of std, to write lines to: standard output, a file, bytes in memory. It remembers whether a write has
/// failed or has taken nothing; the error itself is dropped. Each of its writes is one of the writer's, and it
/// flushes nothing.
#[derive(Drop)]
pub struct ToWriter<W: Write + Drop> {
    pub writer: W,
    pub failed: bool,
}

impl<W: Write + Drop> ToWriter<W> {
    /// No failed write so far.
    pub fn new(writer: W) -> Self
        ensures writer { result.writer ≡ writer }
        ensures fresh { result.failed ≡ false }
    {
        ToWriter {
            writer,
            failed: false,
        }
    }
}

impl<W: Write + Drop> Sink for ToWriter<W> {
    ghost contents = { λ s. W.Write.contents s.writer };

    ghost failed = { λ s. s.failed };

    fn write(&mut self, buf: &[u8]) -> Result<usize, WriteFailed> {
        match self.writer.write(buf) {
            Ok(n) => {
                if n == 0 {
                    self.failed = true;
                }
                Ok(n)
            }
            Err(_) => {
                self.failed = true;
                Err(WriteFailed)
            }
        }
    }
}
