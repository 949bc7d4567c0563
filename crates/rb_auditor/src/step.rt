//! The step of an entry: what it does with messages.

/// The messages that an entry of a history receives or sends, each of which is kept in one list for all histories.
/// Places are counted from 0.
#[derive(Clone, Copy)]
pub enum Step {
    /// It neither receives nor sends one.
    Alone,
    /// It receives the message at this place.
    Receives { at: u32 },
    /// It sends this many messages, 1 to `MOST_REQUESTS`, the first of which is at this place.
    Sends { count: u8, at: u32 },
}
