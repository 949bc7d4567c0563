//! Why a line is no JSON: after how many bytes no text that begins so is JSON, and the parts of JSON that may be there.
//! The JSON reader is asked of the line's beginnings, since where it stops reading isn't always where the fault is.

use crate::scan::{Node, Scan};
use crate::shapes::Terms;
use crate::text::{Checked, column_of, fault, number, quote};
use json::{Scratch, Token};
use serde_json::{Error, Value};
use std::alloc::{AllocError, Global};

/// The most bytes with which JSON may begin, of a line that is none.
fn front_len(alloc: Global, line: &str) -> Result<usize, AllocError> {
    let mut low = 0;
    let mut high = line.len();
    for _ in 0..usize::BITS {
        if low < high {
            let middle = low + (high - low) / 2;
            let (front, _) = line.split_at(line.floor_char_boundary(middle + 1));
            match Value::from_str(alloc, front) {
                Err(error) if error.is_memory() => return Err(AllocError),
                Err(error) if !error.is_eof() => high = middle,
                _ => low = middle + 1,
            }
        }
    }
    Ok(low)
}

/// Why a line is no JSON, of which its reader says this.
pub fn wrong_syntax(alloc: Global, terms: Terms<'_>, line: &str, error: &Error) -> Checked {
    let mut known = front_len(alloc, line)?;
    // A text of half a character, a number that is too large and values that are too deep are faults as a whole.
    if line.len() <= known.saturating_add(1) && !error.is_eof() {
        known = known.min(error.column().saturating_sub(1));
    }
    let (front, rest) = line.split_at(line.floor_char_boundary(known));
    let mut scratch = Scratch::new(alloc);
    let scan = Scan::of(alloc, front, terms, &mut scratch)?;
    let last = front.trim_end().as_bytes().last();
    let is_between = matches!(last, None | Some(b',' | b':' | b'[' | b'{'));
    let is_word = front.ends_with(|it: char| it.is_ascii_alphanumeric());
    let goes_on = !rest.is_empty() && !rest.starts_with([',', ']', '}', ' ', '\t', '\r']);
    let has_begun = |it: &&Node<'_>| matches!(it.token, Token::Bad) || is_word && goes_on;
    let begun = scan.nodes.last().filter(has_begun);
    match begun.and_then(|it| line.get(it.start..)) {
        // (between values nothing has begun but a text)
        Some(it) if !is_between || it.starts_with('"') => wrong_token(&scan, front, rest, it),
        _ => wrong_part(&scan, front, rest),
    }
}

/// A text, a number or a word that begins before the rest or with it, and goes on with a byte that it can't have.
fn wrong_token(scan: &Scan<'_>, front: &str, rest: &str, token: &str) -> Checked {
    let at = front.len();
    let begin = at.saturating_add(rest.len()).saturating_sub(token.len());
    let unescaped = front.trim_end_matches('\\').len();
    let is_escaped = at.saturating_sub(unescaped) % 2 == 1;
    let is_second = at == begin.saturating_add(1);
    let (at, why) = match (token.as_bytes().first(), rest.as_bytes().first()) {
        (Some(b'"'), _) if is_escaped => (at.saturating_sub(1), "no such escape in a text"),
        (Some(b'"'), None) => (begin, "this text has no closing \""),
        (Some(b'"'), Some(0..=31)) => (at, "a control character in a text"),
        (Some(b'"'), Some(_)) => (at, "no such escape in a text"),
        (_, None) => return wrong_end(scan, front, rest),
        (Some(b'-'), _) if is_second => (begin, "a minus sign is before a digit"),
        (Some(b'0'), _) if is_second => (begin, "a number has no zero in front"),
        (Some(b'-' | b'0'..=b'9'), _) => (at, "a number goes on with digits, or ends here"),
        _ => return no_value(scan.alloc, token, begin),
    };
    fault!(scan.alloc, at => "{why}")
}

/// Something between values, or that isn't one.
fn wrong_part(scan: &Scan<'_>, front: &str, rest: &str) -> Checked {
    let last = front.trim_end().as_bytes().last();
    let is_object = matches!(scan.holder(), Some((_, true)));
    let why = match (last, rest.as_bytes().first(), scan.nodes.last()) {
        (_, None, _) if scan.holder().is_some() => return wrong_end(scan, front, rest),
        (Some(b','), Some(b'}'), _) if is_object => "a comma is left over before }",
        (Some(b',' | b'{'), _, _) if is_object => "a key is missing here, between \" and \"",
        (None | Some(b',' | b':' | b'['), next, _) => match next {
            None => "the line ends here, and a value is missing",
            Some(b']') if front.ends_with(',') => "a comma is left over before ]",
            Some(b'}') if front.ends_with(',') => "a comma is left over before }",
            Some(b']') => "a value is missing before ]",
            Some(b'}') => "a value is missing before }",
            Some(b'"') => "half of a character: the other half of the pair is missing",
            Some(b'[' | b'{') =>
                "lists and objects may be inside one another 127 times, and no more",
            Some(b'-' | b'0'..=b'9') => "this number is too large",
            Some(_) => return no_value(scan.alloc, rest, front.len()),
        },
        (Some(b'"'), _, Some(key)) if is_object && key.start == key.key_start => {
            let key = quote(scan.alloc, key.said())?;
            return fault!(scan.alloc, front.len() => "a colon is missing behind the key {key}");
        }
        _ => return wrong_end(scan, front, rest),
    };
    fault!(scan.alloc, front.len() => "{why}")
}

/// A word that is no value.
fn no_value(alloc: Global, rest: &str, at: usize) -> Checked {
    let letters = rest.find(|it: char| !it.is_ascii_alphanumeric() && it != '_');
    let len = letters.unwrap_or(rest.len()).max(1);
    let (word, _) = rest.split_at(rest.ceil_char_boundary(len));
    let word = quote(alloc, word)?;
    fault!(alloc, at => "{word} is no value: a text is between \" and \"")
}

/// Something that can't come after a value.
fn wrong_end(scan: &Scan<'_>, front: &str, rest: &str) -> Checked {
    let (alloc, at) = (scan.alloc, front.len());
    let (holder, end, what) = match scan.holder() {
        Some((holder, true)) => (holder, "}", "an object"),
        Some((holder, false)) => (holder, "]", "a list"),
        None =>
            return fault!(alloc, at => "the object ends before this, and a line has one object"),
    };
    if !rest.is_empty() {
        return fault!(alloc, at => "a comma or {end} is missing here");
    }
    let column = number(alloc, column_of(front.as_bytes(), holder.start))?;
    fault!(alloc, at => "the line ends here: {what} is on one line, and that of column {column} has no {end}")
}
