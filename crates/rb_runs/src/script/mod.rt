//! A script: a configuration and commands in, a line each, and a line out for each command.

pub mod run;
mod session;
pub mod world;
