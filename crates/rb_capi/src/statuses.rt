//! The statuses of calls on a handle, by the names that they have in bindings/c/rbbank.h.

/// It was done.
pub const OK: i32 = 0;

/// The handle has nothing.
pub const NONE: i32 = 1;

/// The line isn't what it has to be.
pub const BAD_LINE: i32 = 2;

/// The call can't be answered at this site, or at this moment.
pub const REFUSED: i32 = 3;

/// Memory ran out.
pub const NO_MEMORY: i32 = 4;

/// The file is another bank's journal.
pub const ANOTHER_JOURNAL: i32 = 5;

/// A line of the journal is no entry of the site.
pub const BAD_ENTRY: i32 = 6;

/// The site gives another reply than a line of the journal has.
pub const WRONG_REPLY: i32 = 7;

/// A byte of the journal is one that no crash leaves.
pub const DAMAGED: i32 = 8;

/// The journal is sealed.
pub const SEALED: i32 = 9;
