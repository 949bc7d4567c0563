//! Receipts.
//!
//! A receipt has its event and its reply, in 176 bytes; a number alone would be 12, and two fifths of the page faults
//! of a run fewer.

use rb_site::{Event, Reply};

/// The record that a seat keeps of one event that it made.
#[derive(Debug, Drop)]
pub struct Receipt {
    /// The position of its entry in the site's history, from 1.
    pub number: u32,
    /// The event.
    pub event: Event,
    /// The site's answer.
    pub reply: Reply,
    /// How many sendings failed: each message that went with it counts once for each link that refused it, as
    /// its inlet was dropped or there was no memory, or that wasn't there.
    pub unsent: u32,
}
