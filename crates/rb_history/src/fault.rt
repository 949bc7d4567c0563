//! The faults of a line.
ghost use Rattle.std.specs.Prelude.{◌≡◌};
ghost use Rattle.rb_history.specs.declared.fault.LineFault.TheVariants.{OutOfMemory as NoMemory};

use std::alloc::AllocError;
use thiserror::Error;

/// Why a line gives nothing.
#[derive(Clone, Copy, Debug, PartialEq, Eq, Error)]
pub enum LineFault {
    /// The line is not what it should be.
    #[error("bad line")]
    Bad,
    /// There was no memory to read it.
    #[error("out of memory")]
    OutOfMemory,
}

impl From<AllocError> for LineFault {
    ghost from_gives = { λ _ why. why ≡ NoMemory };

    fn from(_: AllocError) -> LineFault {
        LineFault::OutOfMemory
    }
}
