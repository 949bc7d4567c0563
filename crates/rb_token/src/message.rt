//! The token on its way.

/// The message that passes the red token: the number of this passing, from 1; the site that it goes to, from 0; and
/// how many red operations that site has to apply before it makes the next.
#[derive(Clone, Copy, Debug, PartialEq, Eq)]
pub struct TokenMessage {
    pub epoch: u32,
    pub to: u8,
    pub red: u32,
}
