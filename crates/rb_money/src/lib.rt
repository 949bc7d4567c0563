//! Money, places of accounts, limits, refusals and the configuration.
//! Tests: rb_tests, money.rt.
#![tactic(auto)]

mod accounts;
mod amount;
mod cents;
mod checks;
mod config;
mod fault;
mod figures;
mod interest;
mod limits;
mod number;
mod place;
mod rate;
mod refusal;
mod short_names;

pub use accounts::{Accounts, LONGEST_NAME};
pub use amount::Amount;
pub use cents::{Cents, MOST_CENTS};
pub use config::Config;
pub use fault::ConfigFault;
pub use figures::numbers;
pub use interest::interest_of;
pub use limits::{
    Limits, MOST_ACCOUNTS, MOST_BALANCE, MOST_BLUE, MOST_EPOCH, MOST_HISTORY, MOST_INBOX,
    MOST_OPERATIONS, MOST_RED, MOST_SITES, MOST_SITES_OF_VERSION_1,
};
pub use number::read_number;
pub use place::Place;
pub use rate::{BASIS_POINTS_OF_ALL, MOST_RATE, Rate};
pub use refusal::{Cause, OTHER_BANK_REFUSED, OTHER_REQUEST_REFUSED, Refusal};
