//! The limits of a configuration.
ghost use Rattle.std.specs.Prelude.{◌≡◌};
ghost use Rattle.rb_money.specs.declared.limits.TheConstants.{MOST_BLUE, MOST_EPOCH, MOST_HISTORY, MOST_INBOX};
ghost use Rattle.rb_money.specs.declared.limits.TheConstants.{MOST_RED};

use crate::cents::MOST_CENTS;

/// The most sites of a bank.
pub const MOST_SITES: usize = 16;

/// The most sites of a bank whose lines have version 1 of the format.
pub const MOST_SITES_OF_VERSION_1: usize = 8;

/// The most accounts of a bank.
pub const MOST_ACCOUNTS: usize = 1_000;

/// The most blue operations of each site.
pub const MOST_BLUE: u32 = 1_000_000;

/// The most red operations of all sites together.
pub const MOST_RED: u32 = 1_000_000;

/// The most shadows that a site holds, other than ready ones.
pub const MOST_INBOX: u32 = 4_096;

/// The most entries of a site's history.
pub const MOST_HISTORY: u32 = 100_000_000;

/// The token's greatest epoch: how often it may be passed.
pub const MOST_EPOCH: u32 = 4_000_000_000;

/// The most operations of all sites together, and so of a site's list.
pub const MOST_OPERATIONS: u32 = MOST_SITES as u32 * MOST_BLUE + MOST_RED;

/// The most cents of a balance: what an account starts with, and what each operation adds.
pub const MOST_BALANCE: u64 = MOST_CENTS + MOST_OPERATIONS as u64 * MOST_CENTS;

/// The limits of a bank: how many of each thing there may be.
#[derive(Clone, Copy, Debug, PartialEq, Eq)]
pub struct Limits {
    /// Blue operations of each site, 1 to `MOST_BLUE`.
    pub blue: u32,
    /// Red operations of all sites, 1 to `MOST_RED`.
    pub red: u32,
    /// Shadows that a site holds, 1 to `MOST_INBOX`.
    pub inbox: u32,
    /// Entries of a site's history, 1 to `MOST_HISTORY`.
    pub history: u32,
    /// The token's epochs, 1 to `MOST_EPOCH`.
    pub epoch: u32,
}

impl Limits {
    /// The largest of each.
    pub fn largest() -> Limits
        ensures { result ≡ record {
          blue = MOST_BLUE;
          red = MOST_RED;
          inbox = MOST_INBOX;
          history = MOST_HISTORY;
          epoch = MOST_EPOCH;
        } }
    {
        Limits {
            blue: MOST_BLUE,
            red: MOST_RED,
            inbox: MOST_INBOX,
            history: MOST_HISTORY,
            epoch: MOST_EPOCH,
        }
    }
}
