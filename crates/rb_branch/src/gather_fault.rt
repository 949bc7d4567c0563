//! Why seats and histories don't fit.

use thiserror::Error;

/// Why the seats given back and the histories don't fit. Sites are counted from 0, and looked at in order.
#[derive(Clone, Copy, Debug, PartialEq, Eq, Error)]
pub enum GatherFault {
    /// At this site, and in all, fewer receipts were given back than there are entries.
    #[error("receipts of site {site} are missing")]
    Missing { site: u8 },
    /// The site's history isn't its seats' receipts, interleaved.
    #[error("receipts of site {site} are others than its entries")]
    Mixed { site: u8 },
    /// There was no memory to find out, or no thread could be made.
    #[error("out of memory")]
    OutOfMemory,
}
