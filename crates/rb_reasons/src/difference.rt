//! The difference between a journal's first line and a bank's configuration. A site compares the line as a whole; the
//! parts are compared here, once it differs.

use rb_history::open_config;
use rb_money::{Config, Place};
use std::alloc::Global;

/// The parts of the configuration on a journal's first line that differ, as words after two spaces: another version,
/// number of sites, list of accounts or limit; or, if none of these, another spelling. `None` if memory ran out.
pub fn difference_of(alloc: Global, config: &Config, line: &[u8]) -> Option<String> {
    let Ok(other) = open_config(alloc, line) else {
        return format!(in alloc; "  its first line is no configuration").ok();
    };
    let (ours, theirs) = (config.accounts(), other.accounts());
    let mut places = (0..ours.len()).map(|i| Place(i as u16));
    let same_accounts = ours.len() == theirs.len()
        && places.all(|it| ours.name(it) == theirs.name(it) && ours.start(it) == theirs.start(it));
    let parts = [
        ("version", other.version() != config.version()),
        ("number of sites", other.sites() != config.sites()),
        ("list of accounts", !same_accounts),
        ("limit", other.limits() != config.limits()),
    ];
    let differing = parts.iter().filter(|it| it.1).map(|it| it.0);
    let mut words: Vec<&str> = differing.collect(alloc).ok()?;
    if words.is_empty() {
        words.push("spelling").ok()?;
    }
    let words = words.join(alloc, ", another ").ok()?;
    format!(in alloc; "  its first line has another {words}").ok()
}
