//! Faults of a configuration.

use crate::limits::{MOST_ACCOUNTS, MOST_SITES};
use thiserror::Error;

/// Why a configuration is refused. Accounts are counted from 0.
#[derive(Clone, Copy, Debug, PartialEq, Eq, Error)]
pub enum ConfigFault {
    /// Fewer than 2 sites, or more than `MOST_SITES`.
    #[error("a configuration has 2 to {MOST_SITES} sites")]
    Sites,
    /// No account, or more than `MOST_ACCOUNTS`.
    #[error("a configuration has 1 to {MOST_ACCOUNTS} accounts")]
    Accounts,
    /// The name of this account is empty, longer than `LONGEST_NAME`, or has a byte other than `a` to `z`,
    /// `0` to `9`, `.`, `_` and `-`.
    #[error("account {0} has no proper name")]
    Name(u16),
    /// An account before this one has its name.
    #[error("account {0} has the name of an earlier one")]
    Twice(u16),
    /// This account starts with more than `MOST_CENTS`.
    #[error("account {0} starts with too much")]
    Start(u16),
    /// A limit is 0 or above its largest value.
    #[error("a limit is out of its range")]
    Limit,
    /// Nothing is wrong, and the memory did not suffice.
    #[error("out of memory")]
    OutOfMemory,
}
