//! Statements, as they are written.
//!
//! A statement without rows is written by a path of its own. One path for both made space twice and saved registers for
//! rows, 54 of 546 instructions.
ghost use Rattle.std.specs.Prelude.{◌≡◌, ◌≤◌, ◌+◌, ◌++◌, [], cond, codes, decimal, false, length, map};
ghost use Rattle.std.specs.Fmt.{signed_decimal};
ghost use Rattle.serde_json.specs.Written.{compact_text, items_text};
ghost use Rattle.serde_json.specs.View.{items_of};
ghost use Rattle.json.specs.Print.{quoted, token_text};
ghost use Rattle.json.specs.Token.{boolean};
ghost use Rattle.rb_shadow.specs.NameText.{name_text};
ghost use Rattle.rb_history.specs.Adds.{Adds};
ghost use Rattle.rb_history.specs.Placed.{Placed};
ghost use Rattle.rb_history.specs.Statements.{row_json, statement_json};
ghost use Rattle.rb_history.specs.declared.write.statement.TheConstants.{EMPTY, ROW};
ghost use Rattle.rb_history.specs.KindWords.{word_of};

use crate::keys::spell;
use crate::write::append::{append_number, make_space};
use crate::write::put::{put_if, put_integer, put_name, put_number, put_small, put_text, put_word};
use rb_statements::{Row, Statement};
use std::alloc::AllocError;

/// The most bytes of a row and the comma before it.
const ROW: usize = 96;

/// Puts whether a row is cancelled, between commas.
#[inline(always)]
fn put_cancelled(space: &mut [u8], at: usize, cancelled: bool) -> usize
    requires { at + 7 ≤ length space.old }
    ensures text { Placed space.old space.new at (codes "," ++ (token_text (boolean cancelled) ++ codes ",")) result }
    ensures short { result ≤ at + 7 }
{
    if cancelled {
        put_text(space, at, ",true,")
    } else {
        put_text(space, at, ",false,")
    }
}

/// Puts the first parts of a row: its position, name and kind.
#[inline(always)]
fn put_row_front(space: &mut [u8], at: usize, row: &Row) -> usize
    requires { at + 41 ≤ length space.old }
    ensures text { Placed space.old space.new at (codes "[" ++ (decimal row.now.position ++ (codes ","
        ++ (quoted (name_text row.now.name) ++ (codes ",\"" ++ (word_of row.now.kind ++ codes "\",")))))) result }
    ensures short { result ≤ at + 41 }
{
    let at = put_text(space, at, "[");
    let at = put_small(space, at, row.position);
    let at = put_text(space, at, ",");
    let at = put_name(space, at, row.name);
    let at = put_text(space, at, ",\"");
    let at = put_word(space, at, row.kind);
    put_text(space, at, "\",")
}

/// Puts what a row moved, whether it is cancelled, and the balance after it.
#[inline(always)]
fn put_row_back(space: &mut [u8], at: usize, row: &Row) -> usize
    requires { at + 49 ≤ length space.old }
    ensures { Placed space.old space.new at (signed_decimal row.now.moved ++ ((codes "," ++ (token_text
        (boolean row.now.cancelled) ++ codes ",")) ++ (decimal row.now.balance ++ codes "]"))) result }
{
    let at = put_integer(space, at, row.moved);
    let at = put_cancelled(space, at, row.cancelled);
    let at = put_number(space, at, row.balance);
    put_text(space, at, "]")
}

/// Puts a row, after a comma if that is wanted.
#[inline(always)]
fn put_row(space: &mut [u8], at: usize, comma: bool, row: &Row) -> usize
    requires { at + ROW ≤ length space.old }
    ensures { Placed space.old space.new at (cond comma (codes ",") [] ++ compact_text (row_json row.now)) result }
{
    let at = put_if(space, at, b',', comma);
    let at = put_row_front(space, at, row);
    put_row_back(space, at, row)
}

/// A row, after a comma if that is wanted.
#[inline(always)]
fn append_row(out: &mut Vec<u8>, comma: bool, row: &Row) -> Result<(), AllocError>
    ensures { Adds result out.old.items out.new.items (cond comma (codes ",") [] ++ compact_text (row_json row.now)) }
{
    let at = out.len();
    make_space(out, &[0; ROW])?;
    let end = put_row(out.as_mut_slice(), at, comma, row);
    out.truncate(end);
    Ok(())
}

/// The rows of a list, with its closing bracket, and the rest of the object: the start.
fn append_rows(out: &mut Vec<u8>, rows: &[Row], start: u64) -> Result<(), AllocError>
    ensures { Adds result out.old.items out.new.items (items_text false (items_of (map row_json rows.now))
        ++ (codes ",\"start\":" ++ (decimal start ++ codes "}"))) }
{
    let mut comma = false;
    for row in rows {
        append_row(out, comma, row)?;
        comma = true;
    }
    append_number(out, spell!("]," start ":"), start, "}")
}

/// The most bytes of a statement without rows.
const EMPTY: usize = 80;

/// Puts a statement without rows.
#[inline(always)]
fn put_empty(space: &mut [u8], at: usize, shown: &Statement) -> usize
    requires empty { shown.now.rows ≡ [] }
    requires space { at + EMPTY ≤ length space.old }
    ensures { Placed space.old space.new at (compact_text (statement_json shown.now)) result }
{
    let at = put_text(space, at, spell!("{" balance ":"));
    let at = put_number(space, at, shown.balance);
    let at = put_text(space, at, spell!("," rows ":[]," start ":"));
    let at = put_number(space, at, shown.start);
    put_text(space, at, "}")
}

/// A statement without rows, in space that is made once.
#[inline(always)]
fn append_empty(out: &mut Vec<u8>, shown: &Statement) -> Result<(), AllocError>
    requires { shown.now.rows ≡ [] }
    ensures { Adds result out.old.items out.new.items (compact_text (statement_json shown.now)) }
{
    let at = out.len();
    make_space(out, &[0; EMPTY])?;
    let end = put_empty(out.as_mut_slice(), at, shown);
    out.truncate(end);
    Ok(())
}

/// The object of a statement with rows or without.
#[inline(never)]
pub fn append_statement(out: &mut Vec<u8>, shown: &Statement) -> Result<(), AllocError>
    ensures { Adds result out.old.items out.new.items (compact_text (statement_json shown.now)) }
{
    if shown.rows.as_slice().is_empty() {
        return append_empty(out, shown);
    }
    append_number(
        out,
        spell!("{" balance ":"),
        shown.balance,
        spell!("," rows ":["),
    )?;
    append_rows(out, shown.rows.as_slice(), shown.start)
}
