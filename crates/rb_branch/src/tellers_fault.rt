//! Why tellers give no histories.

use crate::CallFault;
use std::alloc::AllocError;
use thiserror::Error;

/// Why a run of tellers gives no histories. All threads have ended then, and all sites are closed.
#[derive(Clone, Copy, Debug, PartialEq, Eq, Error)]
pub enum TellersFault {
    /// There was no memory, or a thread couldn't be made.
    #[error("out of memory")]
    OutOfMemory,
    /// A history is full, or isn't its seats' receipts.
    #[error("gather failed")]
    Gather,
}

impl From<AllocError> for TellersFault {
    fn from(_: AllocError) -> TellersFault {
        TellersFault::OutOfMemory
    }
}

impl From<CallFault> for TellersFault {
    ghost use Rattle.std.specs.Prelude.{◌≡◌};
    ghost use Rattle.rb_branch.specs.declared.call_fault.CallFault.TheVariants.{HistoryFull};
    ghost use Rattle.rb_branch.specs.declared.call_fault.CallFault.TheVariants.{OutOfMemory as CallOutOfMemory};
    ghost use Rattle.rb_branch.specs.declared.tellers_fault.TellersFault.TheVariants.{Gather, OutOfMemory};

    ghost from_gives = { λ fault gives. (fault ≡ CallOutOfMemory → gives ≡ OutOfMemory)
        × (fault ≡ HistoryFull → gives ≡ Gather) };

    fn from(fault: CallFault) -> TellersFault {
        match fault {
            CallFault::OutOfMemory => TellersFault::OutOfMemory,
            CallFault::HistoryFull => TellersFault::Gather,
        }
    }
}
