//! A script whose histories are asked for: a configuration and commands in, and out the histories of all its sites.

pub mod laws;
pub mod recorder;
pub mod run;
pub mod text;
pub mod unwritten;
