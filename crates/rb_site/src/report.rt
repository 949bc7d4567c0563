//! The report of a site as it is closed.

use crate::History;
use rb_ledger::OperationList;
use rb_token::TokenState;
use rb_vclock::Clock;

/// The state of a site when it was closed, and its history.
#[derive(Drop)]
pub struct SiteReport {
    /// The site's number.
    pub me: u8,
    /// The balance of each account in cents, in the order of the configuration.
    pub balances: Vec<u64>,
    /// The operations that were applied, in their order.
    pub entries: OperationList,
    /// For each of them, how many operations cancel it.
    pub counts: Vec<u32>,
    /// How many of each site's blue operations, by the site's number, and how many red ones were applied.
    pub clock: Clock,
    /// The site's knowledge of the token.
    pub token: TokenState,
    /// How many shadows were held and not applied.
    pub waiting: u32,
    /// The events with their replies.
    pub history: History,
}
