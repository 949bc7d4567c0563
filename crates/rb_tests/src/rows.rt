//! The worked rows: scripts and what they are answered.

use crate::row_texts::ROWS;
use std::test::Fail;

/// A script by its name, and its replies, a line each. Neither has a line feed at its end.
#[derive(Clone, Copy)]
pub struct WorkedRow {
    pub name: &'static str,
    pub script: &'static str,
    pub replies: &'static str,
}

/// The row of these lines.
pub fn row_of(lines: &'static str) -> Option<WorkedRow> {
    let (name, rest) = lines.split_once("\n")?;
    let (script, replies) = rest.split_once("\nreplies:\n")?;
    Some(WorkedRow {
        name,
        script,
        replies,
    })
}

/// The worked row of a name.
pub fn row_named(name: &str) -> Result<WorkedRow, Fail> {
    for lines in ROWS.split("\n\n") {
        let row = row_of(lines).ok_or("no row")?;
        if row.name == name {
            return Ok(row);
        }
    }
    Err(Fail::from("no such row"))
}
