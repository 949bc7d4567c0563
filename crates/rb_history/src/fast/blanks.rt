//! Lines without the blanks between their tokens: many programs write a space after a colon and a comma. `None` says
//! nothing of a line.
ghost use Rattle.std.specs.Prelude.{◌≡◌, ◌<◌, ◌≤◌, IfSome, length, slice_index, take};
ghost use Rattle.json.specs.Lex.{between, lex, tokens};
ghost use Rattle.json.specs.Word.{is_operator, is_space};
ghost use Rattle.rb_history.specs.Blanks.{AreTokens, JoinsTokens};

use crate::fast::number::parse_digits;
use crate::fast::scan::find_quote;
use std::alloc::Global;

/// Whether a byte is a token by itself.
#[inline(always)]
fn is_mark(b: u8) -> bool
    ensures { result ≡ is_operator b }
{
    b == b'{' || b == b'}' || b == b'[' || b == b']' || b == b':' || b == b','
}

/// The length in bytes of the number at the start of the text and of the one-byte token right after it.
#[inline(always)]
fn number_len(text: &[u8]) -> Option<usize>
    ensures { IfSome result (λ len. (0 < len) × (len ≤ length text.now) × AreTokens (take len text.now)) }
{
    let (_, len) = parse_digits(text)?;
    if len < text.len() && is_mark(text[len]) {
        Some(len + 1)
    } else {
        None
    }
}

/// How many bytes the string has that the text begins with.
#[inline(always)]
fn string_len(text: &[u8]) -> Option<usize>
    requires some { 0 < length text.now }
    requires quote { slice_index text.now 0 ≡ 34 }
    ensures { IfSome result (λ len. (0 < len) × (len ≤ length text.now) × AreTokens (take len text.now)) }
{
    let len = find_quote(&text[1..])?;
    Some(len + 2)
}

/// How many bytes the token has that the text begins with; a number is counted with the one-byte token after it.
#[inline(always)]
fn token_len(text: &[u8]) -> Option<usize>
    ensures { IfSome result (λ len. (0 < len) × (len ≤ length text.now) × AreTokens (take len text.now)) }
{
    if text.len() == 0 {
        return None;
    }
    if text[0] == b'"' {
        return string_len(text);
    }
    if is_mark(text[0]) {
        return Some(1);
    }
    number_len(text)
}

/// Whether a byte is one of the four that JSON has between tokens.
#[inline(always)]
fn is_blank(b: u8) -> bool
    ensures { result ≡ is_space b }
{
    b == b' ' || b == b'\t' || b == b'\r' || b == b'\n'
}

/// How many bytes of the text are tokens with nothing between them, before a blank, the end, or a number that a blank
/// follows: at least one token.
#[inline(always)]
fn find_blank(text: &[u8]) -> Option<usize>
    ensures { IfSome result (λ len. (0 < len) × (len ≤ length text.now) × AreTokens (take len text.now)) }
{
    let mut len = token_len(text)?;
    while len < text.len() && !is_blank(text[len]) {
        let Some(more) = token_len(&text[len..]) else {
            break;
        };
        len += more;
    }
    Some(len)
}

/// The text after the blanks that it begins with.
#[inline(always)]
fn skip_blanks(text: &[u8]) -> &[u8]
    ensures same { lex between result.now ≡ lex between text.now }
    ensures shorter { length result.now ≤ length text.now }
{
    let mut left = text;
    while 0 < left.len() && is_blank(left[0]) {
        left = &left[1..];
    }
    left
}

/// Adds the number that the text begins with and the one-byte token after it, which blanks part from it. Gives the text
/// after these.
fn join_number<'a>(joined: &mut Vec<u8>, text: &'a [u8]) -> Option<&'a [u8]>
    ensures shorter { IfSome result (λ rest. length rest.now < length text.now) }
    ensures joins { IfSome result (λ rest. JoinsTokens joined.old.items joined.new.items text.now rest.now) }
{
    let (_, len) = parse_digits(text)?;
    if len >= text.len() || !is_blank(text[len]) {
        return None;
    }
    let behind = skip_blanks(&text[len..]);
    if behind.len() == 0 || !is_mark(behind[0]) {
        return None;
    }
    joined.extend_from_slice(&text[..len]).ok()?;
    joined.push(behind[0]).ok()?;
    Some(&behind[1..])
}

/// Adds the tokens before the next blank, or a number and the token that follows it after blanks. Gives the text after
/// what it added.
fn join_some<'a>(joined: &mut Vec<u8>, text: &'a [u8]) -> Option<&'a [u8]>
    ensures shorter { IfSome result (λ rest. length rest.now < length text.now) }
    ensures joins { IfSome result (λ rest. JoinsTokens joined.old.items joined.new.items text.now rest.now) }
{
    let Some(len) = find_blank(text) else {
        return join_number(joined, text);
    };
    joined.extend_from_slice(&text[..len]).ok()?;
    Some(&text[len..])
}

/// The tokens of a line, with nothing between them.
fn join_tokens(alloc: Global, line: &[u8]) -> Option<Vec<u8>>
    ensures { IfSome result (λ text. tokens text.items ≡ tokens line.now) }
{
    let mut text = Vec::with_capacity(alloc, line.len()).ok()?;
    let mut left = skip_blanks(line);
    while 0 < left.len() {
        left = skip_blanks(join_some(&mut text, left)?);
    }
    Some(text)
}

/// The bytes of a line without the blanks between its tokens, if it has some, and neither an escape nor a word.
pub fn without_blanks(alloc: Global, line: &str) -> Option<Vec<u8>>
    ensures { IfSome result (λ text. tokens text.items ≡ tokens line.now) }
{
    let text = join_tokens(alloc, line.as_bytes())?;
    if text.len() == line.len() {
        None
    } else {
        Some(text)
    }
}
