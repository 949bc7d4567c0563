//! Outcomes of token messages.

/// The outcome of a token message at the site that it is for.
#[derive(Clone, Copy, Debug, PartialEq, Eq)]
pub enum Accepted {
    /// The site has the token now.
    Taken,
    /// The site had seen the message's epoch, and nothing changed.
    Stale,
}
