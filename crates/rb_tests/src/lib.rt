//! Tests of the crates up to worlds, a file for what is tested, and the worked rows for the tests above. Cases that a
//! run of the program shows are in tests/cases.
#![tactic(auto)]

#[cfg(test)]
mod checks;
#[cfg(test)]
mod inbox;
#[cfg(test)]
mod money;
#[cfg(test)]
mod refused;
pub mod row_texts;
pub mod rows;
#[cfg(test)]
mod worlds;
