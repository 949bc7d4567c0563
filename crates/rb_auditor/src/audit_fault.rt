//! The faults that an audit finds.

use thiserror::Error;

/// Why no order is given. Sites are counted from 0, and entries from 1.
#[derive(Debug, Drop, Error)]
pub enum AuditFault {
    /// The site's entry of this number is the first that its site doesn't record. All entries of the sites
    /// before are recorded.
    #[error("site {site} doesn't record entry {event}")]
    WrongReply { site: u8, event: u32 },
    /// For each site the number of its next entry: one more than its history has if none is left. The
    /// others wait for messages that no entry before them sent.
    #[error("entries wait for messages that were not sent")]
    Stuck { next: Vec<u32> },
    /// There was no memory to find out.
    #[error("out of memory")]
    OutOfMemory,
}
