//! Why no seat is given.

use thiserror::Error;

/// Why no seat is given.
#[derive(Clone, Copy, Debug, PartialEq, Eq, Error)]
pub enum SeatFault {
    /// There is no site of this number.
    #[error("no such site")]
    NoSite,
    /// All `MOST_SEATS` seats were given.
    #[error("no seat left")]
    Full,
}
