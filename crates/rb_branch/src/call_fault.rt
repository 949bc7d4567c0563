//! Why a call does nothing.

use std::alloc::AllocError;
use thiserror::Error;

/// Why a call does nothing: its seat and its site are as before.
#[derive(Clone, Copy, Debug, PartialEq, Eq, Error)]
pub enum CallFault {
    /// There was no memory for the event, its receipt or what is sent with it.
    #[error("out of memory")]
    OutOfMemory,
    /// The site's history is full, the seat has `MOST_RECEIPTS` receipts, or desk and seat are of two sites.
    #[error("history full")]
    HistoryFull,
}

impl From<AllocError> for CallFault {
    ghost use Rattle.std.specs.Prelude.{◌≡◌};
    ghost use Rattle.rb_branch.specs.declared.call_fault.CallFault.TheVariants.{OutOfMemory};

    ghost from_gives = { λ _ e. e ≡ OutOfMemory };

    fn from(_: AllocError) -> CallFault {
        CallFault::OutOfMemory
    }
}
