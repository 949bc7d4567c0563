//! Which events a site records.
//!
//! The choice is a type, not a value, so that the contracts of a site and of its run pin it. With `Changes` a line that
//! adds no entry costs no write of a journal.
ghost use Rattle.std.specs.Prelude.{Bool, true, false};

/// A choice of the events that a site records.
pub trait Records {
    ghost ALL: { Bool };

    /// Whether it records all events, and not only those that change it.
    const ALL: bool;
}

/// Each event, but one that changes nothing and whose entry's line would be longer than a line may be.
pub struct AllEvents;

impl Records for AllEvents {
    ghost ALL = { true };

    const ALL: bool = true;
}

/// The events that change the site. Any other is answered, though the history is full, and is no entry.
pub struct Changes;

impl Records for Changes {
    ghost ALL = { false };

    const ALL: bool = false;
}
