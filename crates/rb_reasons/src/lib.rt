//! Why a line was refused. The readers only say that they refuse a line, which keeps them and their contracts small;
//! the reason is looked for here, once a line was refused.
#![tactic(auto)]

mod difference;
mod scan;
mod shapes;
mod syntax;
mod text;
mod value;

use crate::scan::Scan;
use crate::shapes::Terms;
use crate::syntax::wrong_syntax;
use crate::text::{Checked, fault, number};
pub use difference::difference_of;
use json::Scratch;
use rb_lines::LINE_LIMIT;
use serde_json::Value;
use std::alloc::{AllocError, Global};
pub use text::{MOST_REASON, MOST_SHORT_REASON, reason_at_site, reason_of};

/// Which reader refused the line.
#[derive(Clone, Copy, Debug, PartialEq, Eq)]
pub enum Expected {
    Config,
    Command,
    Entry,
}

/// The line of this number, from 1, without its line feed; what is after the last line feed counts as a line. Nothing
/// if there are fewer lines.
pub fn line_of(bytes: &[u8], number: u64) -> &[u8] {
    let mut lines = bytes.split(|byte| *byte == b'\n');
    lines.nth(number.saturating_sub(1) as usize).unwrap_or(b"")
}

/// Finds the fault of the line, which is refused.
fn check_line(alloc: Global, terms: Terms<'_>, line: &[u8]) -> Checked {
    if line.len() > LINE_LIMIT {
        let (bytes, limit) = (number(alloc, line.len())?, number(alloc, LINE_LIMIT)?);
        return fault!(alloc, LINE_LIMIT => "the line has {bytes} bytes, and the limit is {limit}");
    }
    match (line, std::str::from_utf8(line)) {
        ([0xef, 0xbb, 0xbf, ..], _) =>
            fault!(alloc, 0 => "the line begins with a byte-order mark: the program reads UTF-8 with no such mark"),
        ([0xff, 0xfe, ..] | [0xfe, 0xff, ..], _) =>
            fault!(alloc, 0 => "the line begins with a mark of UTF-16: the program reads UTF-8 with no such mark"),
        (_, Ok(text)) => check_text(alloc, terms, text),
        (_, Err(error)) => {
            let at = error.valid_up_to();
            let byte = line.get(at).copied().unwrap_or(0);
            fault!(alloc, at => "the byte 0x{byte:02x} isn't UTF-8")
        }
    }
}

/// Finds the fault of a line that is UTF-8: in its syntax, or the first among its values, each before those in it.
fn check_text(alloc: Global, terms: Terms<'_>, line: &str) -> Checked {
    match Value::from_str(alloc, line) {
        Err(error) if error.is_memory() => return Err(AllocError.into()),
        Err(error) => return wrong_syntax(alloc, terms, line, &error),
        Ok(_) => (),
    }
    let mut scratch = Scratch::new(alloc);
    let scan = Scan::of(alloc, line, terms, &mut scratch)?;
    for node in &scan.nodes {
        scan.check_value(node)?;
    }
    fault!(alloc, 0 => "this isn't taken here (docs/FORMAT.md has the rules)")
}
