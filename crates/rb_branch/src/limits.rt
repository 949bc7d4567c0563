//! How many seats, receipts and messages of a call there may be.

/// The most seats of a branch.
pub const MOST_SEATS: u32 = 1_024;

/// The parts of the ledger of a branch's receipts: one for each seat, and one for the books.
pub const RECEIPT_PARTS: u64 = MOST_SEATS as u64 + 1;

/// The most receipts of a seat, so that their numbers in it, from 1, fit 32 bits.
pub const MOST_RECEIPTS: usize = 4_000_000_000;

/// The most tries of one call: `MOST_REQUESTS` messages, each to one of `MOST_SITES` links.
pub const MOST_TRIES: usize = 256;
