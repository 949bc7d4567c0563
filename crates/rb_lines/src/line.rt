//! Checks of a line's bytes, before its text is read.
ghost use Rattle.std.specs.Prelude.{◌≡◌, false, true, MatchOption};
ghost use Rattle.std.specs.Str.{is_utf8};
ghost use Rattle.rb_lines.specs.Lines.{is_blank as blank};

use std::str;

/// Whether a line is to be skipped: spaces, tabs and carriage returns alone.
#[inline(always)]
pub fn is_blank(line: &[u8]) -> bool
    ensures { result ≡ blank line.now }
{
    line.iter()
        .all(|b| *b == b' ' || *b == b'\t' || *b == b'\r')
}

/// The text of a line, or `None` if it isn't UTF-8. Most lines are ASCII, which is seen at once.
#[inline(always)]
pub fn text_on(line: &[u8]) -> Option<&str>
    ensures { MatchOption result (is_utf8 line.now ≡ false)
        (λ text. (text.now ≡ line.now) × (is_utf8 line.now ≡ true)) }
{
    if line.is_ascii() {
        return Some(unsafe { str::from_utf8_unchecked(line) });
    }
    str::from_utf8(line).ok()
}
