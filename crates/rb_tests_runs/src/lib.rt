//! Tests of the crates of text, of threads and of runs, a file for what is tested. Cases that a run of the program
//! shows are in tests/cases.
#![tactic(auto)]

#[cfg(test)]
mod audited;
#[cfg(test)]
mod auditor;
#[cfg(test)]
mod branch;
#[cfg(test)]
mod checks;
#[cfg(test)]
mod copies;
#[cfg(test)]
mod flags;
#[cfg(test)]
mod gates;
#[cfg(test)]
mod links;
#[cfg(test)]
mod scripts;
#[cfg(test)]
mod seats;
#[cfg(test)]
mod served;
#[cfg(test)]
mod tellers;
#[cfg(test)]
mod threads;
