//! Places of accounts.

/// An account, by its place in the configuration, from 0.
#[derive(Clone, Copy, Debug, PartialEq, Eq)]
pub struct Place(pub u16);

impl Place {
    /// A place that no configuration has: that of a name that is no account's.
    pub const NOWHERE: Place = Place(u16::MAX);
}
