//! The readers of a line's JSON value. `None` and `Bad` mean that a value is nothing of the kind.
pub mod banked;
pub mod command;
pub mod config;
pub mod counts;
pub mod entry;
pub mod event;
pub mod id;
pub mod kind;
pub mod refusal;
pub mod reply;
pub mod request;
pub mod shadow;
pub mod statement;
pub mod value;
