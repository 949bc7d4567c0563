//! The name of a bank.

use crate::id::RequestId;

/// The name of a bank, or none: a text as an id's.
pub type BankName = RequestId;
