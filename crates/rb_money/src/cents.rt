//! Amounts of money.

/// The most cents of an amount, of a starting balance and of the interest of one operation.
pub const MOST_CENTS: u64 = 100_000_000_000;

/// A number of cents: a balance, or what an operation moves.
#[derive(Clone, Copy, Debug, PartialEq, Eq)]
pub struct Cents(pub u64);
