//! Texts, in one pass: what a text begins with as this program spells it, and what follows it: no space, no escape.
//! `None` says nothing of a text.
//!
//! A text's prefix is compared by eight bytes at once, and by four if four are left. Byte by byte takes 16 to 49
//! instructions more a command, and `strip_prefix`, which isn't inlined, up to 166.
ghost use Rattle.std.specs.Prelude.{◌≡◌, ◌<◌, ◌≤◌, ◌+◌, ◌++◌, IfSome, IsTrue, codes, drop, length, slice_index, take};
ghost use Rattle.std.specs.Int.{to_le_bytes, w32, w64};
ghost use Rattle.json.specs.Print.{escape};

/// The eight bytes from this place on as a number, the lowest first.
#[inline(always)]
fn word_at(bytes: &[u8], at: usize) -> u64
    requires { at + 8 ≤ length bytes.now }
    ensures { to_le_bytes w64 result ≡ take 8 (drop at bytes.now) }
{
    u64::from_le_bytes([
        bytes[at],
        bytes[at + 1],
        bytes[at + 2],
        bytes[at + 3],
        bytes[at + 4],
        bytes[at + 5],
        bytes[at + 6],
        bytes[at + 7],
    ])
}

/// The four bytes from this place on as a number, the lowest first.
#[inline(always)]
fn half_word_at(bytes: &[u8], at: usize) -> u32
    requires { at + 4 ≤ length bytes.now }
    ensures { to_le_bytes w32 result ≡ take 4 (drop at bytes.now) }
{
    u32::from_le_bytes([bytes[at], bytes[at + 1], bytes[at + 2], bytes[at + 3]])
}

/// How many bytes of the front the text has too, eight at once while eight are left, and then four. `None` where they
/// differ.
#[inline(always)]
fn same_words(text: &[u8], front: &[u8]) -> Option<usize>
    requires { length front.now ≤ length text.now }
    ensures { IfSome result (λ len. (len ≤ length front.now) × (take len text.now ≡ take len front.now)) }
{
    let mut len = 0;
    while front.len() - len >= 8 {
        if word_at(text, len) != word_at(front, len) {
            return None;
        }
        len += 8;
    }
    if front.len() - len >= 4 {
        if half_word_at(text, len) != half_word_at(front, len) {
            return None;
        }
        len += 4;
    }
    Some(len)
}

/// Whether these bytes begin with those of the front.
#[inline(always)]
fn begins(text: &[u8], front: &[u8]) -> bool
    ensures { IsTrue result → (length front.now ≤ length text.now) × (take (length front.now) text.now ≡ front.now) }
{
    if text.len() < front.len() {
        return false;
    }
    let Some(mut len) = same_words(text, front) else {
        return false;
    };
    while len < front.len() {
        if text[len] != front[len] {
            return false;
        }
        len += 1;
    }
    true
}

/// What follows `front`, with which the text begins.
#[inline(always)]
pub fn parse_prefix<'a>(text: &'a str, front: &str) -> Option<&'a str>
    ensures { IfSome result (λ rest. text.now ≡ front.now ++ rest.now) }
{
    if begins(text.as_bytes(), front.as_bytes()) {
        Some(&text[front.len()..])
    } else {
        None
    }
}

/// The number of bytes before a quote, if none is part of an escape.
#[inline(always)]
pub(crate) fn find_quote(text: &[u8]) -> Option<usize>
    ensures { IfSome result (λ len. (len < length text.now) × (slice_index text.now len ≡ 34)
        × (escape (take len text.now) ≡ take len text.now)) }
{
    let mut len = 0;
    while len < text.len() {
        let b = text[len];
        if b == b'"' {
            return Some(len);
        }
        if b == b'\\' || b < b' ' {
            return None;
        }
        len += 1;
    }
    None
}

/// The text before a quote, if it has no escape, and the rest after the quote.
#[inline(always)]
pub fn parse_string(text: &str) -> Option<(&str, &str)>
    ensures { IfSome result (λ p. (escape p.0.now ≡ p.0.now) × (text.now ≡ p.0.now ++ (codes "\"" ++ p.1.now))) }
{
    let len = find_quote(text.as_bytes())?;
    Some((&text[..len], &text[len + 1..]))
}
