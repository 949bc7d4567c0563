//! Names of accounts, a line each.
//!
//! A name that isn't UTF-8 is read as an empty one, which no account may have: so it is refused as such a name is.
ghost use Rattle.std.specs.Prelude.{◌≡◌, IfOk, map};
ghost use Rattle.rb_lines.specs.Lines.{lines_of};
ghost use Rattle.rb_capi.specs.Close.{name_on};

use rb_lines::text_on;
use rb_runs::split_line;
use std::alloc::{AllocError, Global};

/// The name on a line, or an empty one if it isn't UTF-8.
fn name_on(line: &[u8]) -> &str
    ensures { result.now ≡ name_on line.now }
{
    match text_on(line) {
        Some(name) => name,
        None => "",
    }
}

/// The names on these lines. `Err` means out of memory.
pub fn names_on<'a>(alloc: Global, lines: &'a [u8]) -> Result<Vec<&'a str>, AllocError>
    ensures { IfOk result (λ names. map (λ name. name.now) names.items ≡ map name_on (lines_of lines.now)) }
{
    let mut names = Vec::new(alloc);
    let mut rest = lines;
    'lines: while !rest.is_empty() {
        let (line, later) = split_line(rest);
        names.push(name_on(line))?;
        rest = later;
    }
    Ok(names)
}
