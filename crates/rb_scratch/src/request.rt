//! Requests.

use rb_money::Place;
use rb_shadow::OpName;

/// The most requests of a batch.
pub const MOST_REQUESTS: usize = 16;

/// A teller's request for one operation. Its numbers may be any: what is out of range is refused.
#[derive(Clone, Copy, Debug, PartialEq, Eq)]
pub enum Request {
    /// To add an amount in cents, 1 to `MOST_CENTS`.
    Deposit { account: Place, amount: u64 },
    /// To take an amount in cents, 1 to `MOST_CENTS`; it is declined if the balance is less.
    Withdraw { account: Place, amount: u64 },
    /// To add a share of the balance, rounded down: a rate of 0 to `MOST_RATE` basis points.
    Interest { account: Place, rate: u32 },
    /// To undo what an operation did, a deposit, a withdrawal, interest or a transfer.
    Cancel { target: OpName },
    /// To move an amount in cents, 1 to `MOST_CENTS`, from an account to another; it is declined if the
    /// balance that it would leave is less.
    Transfer { from: Place, to: Place, amount: u64 },
}
