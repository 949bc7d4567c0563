//! Lines, read in one pass, and by their JSON values if they aren't spelled as programs spell them.
pub mod banked;
pub mod command;
pub mod entry;
pub mod migrated;
