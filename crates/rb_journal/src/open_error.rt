//! Why a journal's file isn't opened.
ghost use Rattle.std.specs.Prelude.{◌≡◌};
ghost use Rattle.rb_journal.specs.Disk.{IsOutOfMemory};
ghost use Rattle.rb_journal.specs.declared.open_error.OpenError.TheVariants.{Failed};

use std::alloc::AllocError;
use std::io;

/// Why a journal's file isn't opened.
#[derive(Clone, Copy, Debug)]
pub enum OpenError {
    /// It isn't there, and no new one was asked for.
    NoFile,
    /// A new one was asked for, and it is there, with bytes in it.
    NotEmpty,
    /// It is standard error, as far as the system says: what is said would be written into it.
    IsErrors,
    /// The system's error, or `OutOfMemory`.
    Failed(io::Error),
}

impl From<io::Error> for OpenError {
    ghost from_gives = { λ error gives. gives ≡ Failed error };

    fn from(error: io::Error) -> OpenError {
        OpenError::Failed(error)
    }
}

impl From<AllocError> for OpenError {
    ghost from_gives = { λ _ gives. IsOutOfMemory gives };

    fn from(error: AllocError) -> OpenError {
        OpenError::Failed(io::Error::from(error))
    }
}
