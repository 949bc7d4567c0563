//! Gates.

/// Called each time that a site's lock is held, for an event of a seat, a look of `apply_ready`, or the steps of a
/// server, up to 64: `enter` once the lock is got, `leave` once it is released. `enter` must not call the branch at its
/// own site, nor wait for a thread that does: that site's lock is held.
pub trait Gate {
    /// The site's lock is held.
    fn enter(&self, site: u8);

    /// The site's lock is released.
    fn leave(&self, site: u8);
}
