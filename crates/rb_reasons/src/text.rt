//! A fault of a line, and the text of its reason: the column, what is wrong there, and the line round it with a caret.
//! All contracts on what is printed are here, for any words and any line, so that no other file needs a proof of them.
ghost use Rattle.std.specs.Prelude.{◌≤◌, ◌<◌, ◌+◌, length, string_bytes, IfSome};
ghost use Rattle.rb_reasons.specs.Reasons.{IsPlain, IsReason, IsShortReason};
ghost use Rattle.rb_reasons.specs.declared.text.TheConstants.{MOST_REASON, MOST_SHORT_REASON};

use crate::shapes::Terms;
use crate::{Expected, check_line};
use rb_history::BankName;
use rb_money::Config;
use std::alloc::{AllocError, Global};
use std::fmt::Display;

/// The most bytes of a line that are said again in words.
const MOST_QUOTED: usize = 60;
/// The most bytes of a reason.
pub const MOST_REASON: usize = 512;
/// The most bytes of a reason on one line.
pub const MOST_SHORT_REASON: usize = 336;
/// The most bytes of what is wrong.
const MOST_WHY: usize = 300;
/// The most bytes of a line that are shown in front of the column.
const MOST_BEFORE: usize = 48;
/// The bytes that are shown in front of a column that is further in the line.
const BEFORE: usize = 36;
/// The most characters of a line that are shown.
const MOST_SHOWN: usize = 72;

/// A fault of a line: how many bytes are before it, and words on it, if there was memory for them.
#[derive(Drop)]
pub struct Fault {
    pub at: usize,
    pub why: Result<String, AllocError>,
}

/// What a check of a line gives: `Err` is the fault that it finds, or memory ran out.
pub type Checked = Result<(), Fault>;

impl From<AllocError> for Fault {
    fn from(error: AllocError) -> Fault {
        let why = Err(error);
        Fault { at: 0, why }
    }
}

/// The fault of such words, which so many bytes of the line are before.
macro_rules! fault {
    ($alloc:expr, $at:expr => $($words:tt)*) => {
        Err(crate::text::Fault { at: $at, why: format!(in $alloc; $($words)*) })
    };
}

/// A part of a line, of a long one only how it begins.
pub fn quote(alloc: Global, text: &str) -> Result<String, AllocError> {
    let (front, _) = text.split_at(text.ceil_char_boundary(MOST_QUOTED));
    let dots = if MOST_QUOTED < text.len() { ".." } else { "" };
    format!(in alloc; "{front}{dots}")
}

/// A number, as it is written, with a comma before each three of its last digits.
pub fn number(alloc: Global, number: impl Display + Drop) -> Result<String, AllocError> {
    let digits = number.to_string(alloc)?;
    if MOST_QUOTED < digits.len() {
        return quote(alloc, &digits);
    }
    let signs = usize::from(digits.starts_with('-'));
    let mut words = String::new(alloc);
    for (i, digit) in digits.char_indices() {
        if signs < i && digits.len().saturating_sub(i) % 3 == 0 {
            words.push(',')?;
        }
        words.push(digit)?;
    }
    Ok(words)
}

/// Whether a byte goes on with a character of UTF-8.
fn is_within(byte: u8) -> bool {
    0x80 <= byte && byte < 0xc0
}

/// The plain character that is shown for a byte.
fn shown(byte: u8) -> char
    ensures { (32 ≤ result) × (result < 127) }
{
    if 32 <= byte && byte < 127 {
        char::from(byte)
    } else {
        '?'
    }
}

/// At most `most` characters, each as a plain one, or as a space. `None` if memory ran out.
pub fn plain(alloc: Global, bytes: &[u8], most: usize, is_blank: bool) -> Option<String>
    ensures plain { IfSome result (λ s. IsPlain (string_bytes s)) }
    ensures most { IfSome result (λ s. length (string_bytes s) ≤ most) }
{
    let mut text = String::new(alloc);
    for byte in bytes {
        if text.as_bytes().len() < most && !is_within(*byte) {
            text.push(if is_blank { ' ' } else { shown(*byte) }).ok()?;
        }
    }
    Some(text)
}

/// The column of what is wrong with a line this many bytes from its beginning.
pub fn column_of(line: &[u8], at: usize) -> usize
    ensures least { 1 ≤ result }
    ensures most { result ≤ length line.now + 1 }
{
    let (front, _) = line.split_at(at.min(line.len()));
    front.iter().filter(|byte| !is_within(**byte)).count() + 1
}

/// The reason why the reader refused the line.
pub fn reason_of(
    alloc: Global,
    expected: Expected,
    config: Option<&Config>,
    line: &[u8],
) -> Option<String>
    ensures reason { IfSome result (λ s. IsReason (length line.now) (string_bytes s)) }
    ensures most { IfSome result (λ s. length (string_bytes s) ≤ MOST_REASON) }
{
    let Fault { at, why } = check_line(alloc, Terms::Line(expected, config), line).err()?;
    let why = plain(alloc, why.ok()?.as_bytes(), MOST_WHY, false)?;
    let (front, back) = line.split_at(at.min(line.len()));
    let column = column_of(line, front.len());
    let near = if front.len() <= MOST_BEFORE {
        front
    } else {
        &front[front.len() - BEFORE..]
    };
    let before = plain(alloc, near, MOST_BEFORE, false)?;
    let behind = plain(alloc, back, MOST_SHOWN - before.as_bytes().len(), false)?;
    let caret = plain(alloc, near, MOST_BEFORE, true)?;
    match format!(in alloc; "  column {column}: {why}\n  {before}{behind}\n  {caret}^") {
        Ok(text) => Some(text),
        Err(_) => None,
    }
}

/// The reason why a site of the bank, which may have a name, takes the line as no event and no question: the column and
/// what is wrong there, on one line.
pub fn reason_at_site(
    alloc: Global,
    config: &Config,
    bank: &BankName,
    line: &[u8],
) -> Option<String>
    ensures reason { IfSome result (λ s. IsShortReason (length line.now) (string_bytes s)) }
    ensures plain { IfSome result (λ s. IsPlain (string_bytes s)) }
    ensures most { IfSome result (λ s. length (string_bytes s) ≤ MOST_SHORT_REASON) }
{
    let Fault { at, why } = check_line(alloc, Terms::Site(config, bank), line).err()?;
    let why = plain(alloc, why.ok()?.as_bytes(), MOST_WHY, false)?;
    let column = column_of(line, at);
    match format!(in alloc; "column {column}: {why}") {
        Ok(text) => Some(text),
        Err(_) => None,
    }
}

pub(crate) use fault;
