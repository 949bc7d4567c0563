//! Statements of a history's line, in one pass. `None` says nothing of a text.
ghost use Rattle.std.specs.Prelude.{◌≡◌, ◌++◌, IfSome};
ghost use Rattle.std.specs.Fmt.{signed_decimal};
ghost use Rattle.json.specs.Print.{token_text};
ghost use Rattle.json.specs.Token.{boolean};
ghost use Rattle.serde_json.specs.Written.{compact_text};
ghost use Rattle.rb_history.specs.Statements.{row_json};
ghost use Rattle.rb_history.specs.Fits.{IsMoved, IsStatementRow};
ghost use Rattle.rb_history.specs.Beginnings.{BeginsWithEach, BeginsWithReply};

use crate::fast::kind::parse_label;
use crate::fast::name::parse_name;
use crate::fast::number::{parse_number, parse_u32_between, parse_u64_between};
use crate::fast::scan::parse_prefix;
use crate::keys::spell;
use rb_kit::List;
use rb_site::Reply;
use rb_statements::{Row, Statement};
use std::alloc::Global;

/// The amount that an entry moved, with its sign if it is negative.
fn parse_moved(text: &str) -> Option<(i64, &str)>
    ensures { IfSome result (λ p. IsMoved p.0 × (text.now ≡ signed_decimal p.0 ++ p.1.now)) }
{
    let Some(digits) = parse_prefix(text, "-") else {
        let (n, rest) = parse_number(text)?;
        if n >= 1 << 63 {
            return None;
        }
        return Some((n as i64, rest));
    };
    let (n, rest) = parse_number(digits)?;
    if n == 0 || n >= 1 << 63 {
        return None;
    }
    Some((-(n as i64), rest))
}

/// Whether a row is cancelled.
fn parse_cancelled(text: &str) -> Option<(bool, &str)>
    ensures { IfSome result (λ p. text.now ≡ token_text (boolean p.0) ++ p.1.now) }
{
    match parse_prefix(text, "true") {
        Some(rest) => Some((true, rest)),
        None => Some((false, parse_prefix(text, "false")?)),
    }
}

/// A row, in the list of its parts.
fn parse_row(text: &str) -> Option<(Row, &str)>
    ensures { IfSome result (λ p. IsStatementRow p.0 × (text.now ≡ compact_text (row_json p.0) ++ p.1.now)) }
{
    let (position, rest) = parse_u32_between(text, "[", ",\"")?;
    let (name, rest) = parse_name(rest)?;
    let (kind, rest) = parse_label(parse_prefix(rest, ",\"")?)?;
    let (moved, rest) = parse_moved(parse_prefix(rest, ",")?)?;
    let (cancelled, rest) = parse_cancelled(parse_prefix(rest, ",")?)?;
    let (balance, rest) = parse_u64_between(rest, ",", "]")?;
    let row = Row {
        position,
        name,
        kind,
        moved,
        cancelled,
        balance,
    };
    Some((row, rest))
}

/// The rows of a list, and its closing bracket.
fn parse_rows<'a>(alloc: Global, text: &'a str) -> Option<(Vec<Row>, &'a str)>
    ensures { IfSome result (λ p. BeginsWithEach row_json IsStatementRow p.0.items text.now p.1.now) }
{
    let mut rows = Vec::new(alloc);
    let mut left = text;
    let mut comma = "";
    for _ in 0..text.len() {
        if let Some(rest) = parse_prefix(left, "]") {
            return Some((rows, rest));
        }
        let (row, rest) = parse_row(parse_prefix(left, comma)?)?;
        if rows.push(row).is_err() {
            return None;
        }
        left = rest;
        comma = ",";
    }
    None
}

/// A statement.
pub fn parse_statement<'a>(alloc: Global, text: &'a str) -> Option<(Reply, &'a str)>
    ensures { IfSome result (λ p. BeginsWithReply p.0 text.now p.1.now) }
{
    let (balance, rest) = parse_u64_between(text, spell!("{" balance ":"), spell!("," rows ":["))?;
    let (rows, rest) = parse_rows(alloc, rest)?;
    let (start, rest) = parse_u64_between(rest, spell!("," start ":"), "}")?;
    let shown = Statement {
        start,
        rows: List::new(rows),
        balance,
    };
    Some((Reply::Statement(shown), rest))
}
