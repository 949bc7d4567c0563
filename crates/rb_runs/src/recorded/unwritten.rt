//! Why a text isn't written whole.
ghost use Rattle.std.specs.Prelude.{◌≡◌};
ghost use Rattle.rb_runs.specs.declared.recorded.unwritten.Unwritten.TheVariants.{OutOfMemory as NoMemory};
ghost use Rattle.rb_runs.specs.declared.recorded.unwritten.Unwritten.TheVariants.{Write as NotWritten};

use rb_lines::WriteFailed;
use std::alloc::AllocError;

/// Why a text isn't written whole.
#[derive(Clone, Copy)]
pub enum Unwritten {
    Write,
    OutOfMemory,
}

impl From<WriteFailed> for Unwritten {
    ghost from_gives = { λ _ why. why ≡ NotWritten };

    fn from(_: WriteFailed) -> Unwritten {
        Unwritten::Write
    }
}

impl From<AllocError> for Unwritten {
    ghost from_gives = { λ _ why. why ≡ NoMemory };

    fn from(_: AllocError) -> Unwritten {
        Unwritten::OutOfMemory
    }
}
