//! Which events a site records.

/// Which events a site's history has.
#[derive(Clone, Copy, Debug, PartialEq, Eq)]
pub enum Record {
    /// Those that changed the site by more than the length of its history.
    Changes,
    /// Each, but one that changed nothing and whose entry's line would be longer than a line may be.
    All,
}
