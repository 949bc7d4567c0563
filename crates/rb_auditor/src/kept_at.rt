//! The place at which a message is kept.

/// The place at which a list keeps a message, by positions from 0.
#[derive(Clone, Copy)]
pub enum KeptAt {
    /// Among the operations that are kept in little memory.
    Compact { at: u32 },
    /// Among the messages that are kept whole.
    Other { at: u32 },
}
