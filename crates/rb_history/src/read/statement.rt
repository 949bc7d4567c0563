//! Statements, from a history's line.
ghost use Rattle.std.specs.Prelude.{◌≡◌, ◌^◌};
ghost use Rattle.serde_json.specs.View.{view};
ghost use Rattle.rb_history.specs.Fields.{field};
ghost use Rattle.rb_history.specs.Lines.{GivesAs, Gives};
ghost use Rattle.rb_history.specs.RepliesRead.{row_at, rows_at, statement_parsed};
ghost use Rattle.rb_history.specs.Values.{number_below};

use crate::fault::LineFault;
use crate::keys::key;
use crate::read::value::{label, long, name, six, word};
use rb_kit::List;
use rb_site::Reply;
use rb_statements::{Row, Statement};
use serde_json::Value;
use std::alloc::{AllocError, Global};

/// A row, from the list of its parts.
fn row(value: &Value) -> Option<Row>
    ensures { result ≡ row_at (view value.now) }
{
    let (position, name_text, kind, moved, cancelled, balance) = six(value)?;
    let position = word(position)?;
    let name = name(name_text)?;
    let kind = label(kind)?;
    let moved = moved.as_i64()?;
    let cancelled = cancelled.as_bool()?;
    let balance = long(balance)?;
    Some(Row {
        position,
        name,
        kind,
        moved,
        cancelled,
        balance,
    })
}

/// The rows of a list, in its order.
fn rows(alloc: Global, value: &Value) -> Result<Vec<Row>, LineFault>
    ensures { GivesAs (λ v. v.items) result (rows_at (view value.now)) }
{
    let items = value.as_array().ok_or(LineFault::Bad)?;
    let mut rows = Vec::new(alloc);
    for item in items {
        let row = row(item).ok_or(LineFault::Bad)?;
        rows.push(row).map_err(AllocError::from)?;
    }
    Ok(rows)
}

/// The cents of a key.
fn cents(value: &Value, key: &str) -> Option<u64>
    ensures { result ≡ field key.now (number_below (2 ^ 64)) (view value.now) }
{
    long(value.get(key)?)
}

/// A statement, from an object of three members.
pub fn statement(alloc: Global, value: &Value) -> Result<Reply, LineFault>
    ensures { Gives result (statement_parsed (view value.now)) }
{
    let start = cents(value, key!(start)).ok_or(LineFault::Bad)?;
    let balance = cents(value, key!(balance)).ok_or(LineFault::Bad)?;
    let list = value.get(key!(rows)).ok_or(LineFault::Bad)?;
    match rows(alloc, list) {
        Ok(rows) => Ok(Reply::Statement(Statement {
            start,
            rows: List::new(rows),
            balance,
        })),
        Err(fault) => Err(fault),
    }
}
