//! Faults that stop a batch.
ghost use Rattle.std.specs.Prelude.{◌≡◌};

use rb_money::{Cause, Refusal};

/// The fault of one request of a batch: it would make a declined withdrawal or transfer, or be refused.
#[derive(Clone, Copy, Debug, PartialEq, Eq)]
pub enum RunFault {
    Declined,
    Refused(Refusal),
}

impl RunFault {
    ghost use Rattle.rb_scratch.specs.Batches.{cause_of};

    /// How a reply reports it: a refusal by its number.
    pub fn cause(self) -> Cause
        ensures { result ≡ cause_of self }
    {
        match self {
            RunFault::Declined => Cause::Declined,
            RunFault::Refused(why) => Cause::Refused(why.number()),
        }
    }
}
