//! An audit: a configuration and the lines of histories in, and one line out.

mod collected;
pub mod laws;
pub mod run;
pub mod verdict;
