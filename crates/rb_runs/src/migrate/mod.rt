//! A migration: a configuration and the lines of histories in, and the same lines in version 2 of the format out.

pub mod laws;
pub mod run;
mod versions;
