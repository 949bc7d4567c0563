//! Numbers, in one pass. `None` says nothing of a text.
//!
//! Digits are parsed until the value is large. Until there are 19 of them, most short commands take 7 to 32
//! instructions more.
ghost use Rattle.std.specs.Prelude.{◌≡◌, ◌<◌, ◌≤◌, ◌^◌, ◌++◌, IfSome, decimal, length, take};
ghost use Rattle.rb_history.specs.Beginnings.{IsBetween};

use crate::fast::scan::parse_prefix;

/// The most that is read of a number, so that one more digit fits.
const MOST: u64 = 1_000_000_000_000_000_000;

/// The number that the text begins with, and how many digits it has. A zero is a number by itself.
#[inline(always)]
pub(crate) fn parse_digits(text: &[u8]) -> Option<(u64, usize)>
    ensures { IfSome result (λ p. (p.0 < 2 ^ 64) × (p.1 ≤ length text.now) × (take p.1 text.now ≡ decimal p.0)) }
{
    if text.len() == 0 || text[0] < b'0' || b'9' < text[0] {
        return None;
    }
    let mut n = (text[0] - b'0') as u64;
    if n == 0 {
        return Some((0, 1));
    }
    let mut len = 1;
    'digits: while len < text.len() && n < MOST {
        let digit = text[len].wrapping_sub(b'0');
        if 9 < digit {
            break 'digits;
        }
        n = n * 10 + digit as u64;
        len += 1;
    }
    Some((n, len))
}

/// The number that the text begins with, and what follows it.
#[inline(always)]
pub fn parse_number(text: &str) -> Option<(u64, &str)>
    ensures { IfSome result (λ p. (p.0 < 2 ^ 64) × (text.now ≡ decimal p.0 ++ p.1.now)) }
{
    let (n, len) = parse_digits(text.as_bytes())?;
    Some((n, &text[len..]))
}

/// The number if it is below 2^32.
#[inline(always)]
pub fn narrow(n: u64) -> Option<u32>
    ensures { IfSome result (λ m. (m < 2 ^ 32) × (n ≡ m)) }
{
    if n < 0x1_0000_0000 {
        Some(n as u32)
    } else {
        None
    }
}

/// The number below 2^32 that the text begins with, and what follows it.
#[inline(always)]
pub fn parse_u32(text: &str) -> Option<(u32, &str)>
    ensures { IfSome result (λ p. (p.0 < 2 ^ 32) × (text.now ≡ decimal p.0 ++ p.1.now)) }
{
    let (n, rest) = parse_number(text)?;
    Some((narrow(n)?, rest))
}

/// The number below 2^8 that the text begins with, and what follows it.
#[inline(always)]
pub fn parse_u8(text: &str) -> Option<(u8, &str)>
    ensures { IfSome result (λ p. (p.0 < 2 ^ 8) × (text.now ≡ decimal p.0 ++ p.1.now)) }
{
    let (n, rest) = parse_number(text)?;
    if n < 256 { Some((n as u8, rest)) } else { None }
}

/// A number between two texts.
#[inline(always)]
pub fn parse_u64_between<'a>(text: &'a str, front: &str, back: &str) -> Option<(u64, &'a str)>
    ensures { IfSome result (λ p. (p.0 < 2 ^ 64) × IsBetween (decimal p.0) text.now front.now back.now p.1.now) }
{
    let (n, rest) = parse_number(parse_prefix(text, front)?)?;
    Some((n, parse_prefix(rest, back)?))
}

/// A number below 2^32 between two texts.
#[inline(always)]
pub fn parse_u32_between<'a>(text: &'a str, front: &str, back: &str) -> Option<(u32, &'a str)>
    ensures { IfSome result (λ p. (p.0 < 2 ^ 32) × IsBetween (decimal p.0) text.now front.now back.now p.1.now) }
{
    let (n, rest) = parse_u32(parse_prefix(text, front)?)?;
    Some((n, parse_prefix(rest, back)?))
}

/// A number below 2^8 between two texts.
#[inline(always)]
pub fn parse_u8_between<'a>(text: &'a str, front: &str, back: &str) -> Option<(u8, &'a str)>
    ensures { IfSome result (λ p. (p.0 < 2 ^ 8) × IsBetween (decimal p.0) text.now front.now back.now p.1.now) }
{
    let (n, rest) = parse_u8(parse_prefix(text, front)?)?;
    Some((n, parse_prefix(rest, back)?))
}
