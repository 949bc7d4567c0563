//! The writers: each appends to bytes, puts a text into space that is there, or makes a line. An `Err` means out of
//! memory; some of it may have been appended then.
pub(crate) mod account;
pub mod append;
pub(crate) mod banked;
pub(crate) mod config;
pub(crate) mod counts;
pub(crate) mod entry;
pub(crate) mod event;
pub(crate) mod id;
pub(crate) mod kind;
pub(crate) mod line;
pub(crate) mod number;
pub(crate) mod put;
pub(crate) mod refusal;
pub(crate) mod reply;
pub(crate) mod shadow;
pub(crate) mod statement;
pub(crate) mod verdict;
