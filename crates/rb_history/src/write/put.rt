//! Texts put into space that is there. Each goes to a place in it, and its end is where the next goes.
//!
//! Replies and rows are put straight into the output. Put together on the stack first, each piece of 128 bytes is
//! cleared and copied by a call, a third of a statement.
ghost use Rattle.std.specs.Prelude.{◌≡◌, ◌≤◌, ◌<◌, ◌+◌, [], ◌∷◌, cond, decimal, length};
ghost use Rattle.std.specs.Fmt.{signed_decimal};
ghost use Rattle.json.specs.Print.{quoted};
ghost use Rattle.rb_history.specs.Placed.{Placed};
ghost use Rattle.rb_history.specs.KindWords.{word_of};
ghost use Rattle.rb_shadow.specs.NameText.{name_text};
ghost use Rattle.rb_shadow.specs.declared.op_name.OpName.TheVariants.{Blue, Red};

use crate::keys::key;
use itoa::write_digits;
use rb_shadow::{Label, OpName};

/// Puts bytes. Of a text that the caller spells, this makes a few stores and no loop.
#[inline(always)]
fn put_bytes(space: &mut [u8], at: usize, bytes: &[u8]) -> usize
    requires { at + length bytes.now ≤ length space.old }
    ensures { Placed space.old space.new at bytes.now result }
{
    for i in 0..bytes.len() {
        space[at + i] = bytes[i];
    }
    at + bytes.len()
}

/// Puts a text.
#[inline(always)]
pub fn put_text(space: &mut [u8], at: usize, text: &str) -> usize
    requires { at + length text.now ≤ length space.old }
    ensures { Placed space.old space.new at text.now result }
{
    put_bytes(space, at, text.as_bytes())
}

/// Puts a byte if it is wanted. It is always stored, and counts only then.
#[inline(always)]
pub fn put_if(space: &mut [u8], at: usize, byte: u8, wanted: bool) -> usize
    requires { at < length space.old }
    ensures { Placed space.old space.new at (cond wanted (byte ∷ []) []) result }
{
    space[at] = byte;
    if wanted { at + 1 } else { at }
}

/// Puts the digits of a number, of which the count is known.
#[inline(always)]
fn put_digits(space: &mut [u8], at: usize, n: u64, count: usize) -> usize
    requires count { length (decimal n) ≡ count }
    requires space { at + count ≤ length space.old }
    ensures { Placed space.old space.new at (decimal n) result }
{
    write_digits(n, space, at + count);
    at + count
}

/// Puts a digit.
#[inline(always)]
fn put_digit(space: &mut [u8], at: usize, n: u64) -> usize
    requires digit { n < 10 }
    requires space { at < length space.old }
    ensures { Placed space.old space.new at (decimal n) result }
{
    space[at] = b'0' + n as u8;
    at + 1
}

/// How many digits a number below 10,000 has.
#[inline(always)]
#[tactic(auto, using(crate::proofs::Digits::few))]
fn few_digits(n: u64) -> usize
    requires { n < 10_000 }
    ensures { result ≡ length (decimal n) }
{
    if n < 10 {
        1
    } else if n < 100 {
        2
    } else if n < 1_000 {
        3
    } else {
        4
    }
}

/// How many digits a number has.
fn digit_count(n: u64) -> usize
    ensures { result ≡ length (decimal n) }
{
    let mut left = n;
    let mut count = 0;
    while left >= 10_000 {
        left /= 10_000;
        count += 4;
    }
    count + few_digits(left)
}

/// Puts the digits of a number. Most have few, for which no loop counts them.
#[inline(always)]
#[tactic(auto, using(crate::proofs::Digits::few))]
fn put_unsigned(space: &mut [u8], at: usize, n: u64) -> usize
    requires { at + length (decimal n) ≤ length space.old }
    ensures { Placed space.old space.new at (decimal n) result }
{
    if n < 10 {
        put_digit(space, at, n)
    } else if n < 100 {
        put_digits(space, at, n, 2)
    } else if n < 1_000 {
        put_digits(space, at, n, 3)
    } else if n < 10_000 {
        put_digits(space, at, n, 4)
    } else {
        put_long(space, at, n)
    }
}

/// Puts the digits of a number, whatever it is.
#[inline(never)]
fn put_long(space: &mut [u8], at: usize, n: u64) -> usize
    requires { at + length (decimal n) ≤ length space.old }
    ensures { Placed space.old space.new at (decimal n) result }
{
    put_digits(space, at, n, digit_count(n))
}

/// Puts the digits of a number.
#[inline(always)]
#[tactic(auto, using(crate::proofs::Digits::within_20))]
pub fn put_number(space: &mut [u8], at: usize, n: u64) -> usize
    requires { at + 20 ≤ length space.old }
    ensures text { Placed space.old space.new at (decimal n) result }
    ensures short { result ≤ at + 20 }
{
    put_unsigned(space, at, n)
}

/// Puts the digits of a number below 2^32.
#[inline(always)]
#[tactic(auto, using(crate::proofs::Digits::within_10))]
pub fn put_small(space: &mut [u8], at: usize, n: u32) -> usize
    requires { at + 10 ≤ length space.old }
    ensures text { Placed space.old space.new at (decimal n) result }
    ensures short { result ≤ at + 10 }
{
    put_unsigned(space, at, n as u64)
}

/// Puts the digits of a number below 256.
#[inline(always)]
#[tactic(auto, using(crate::proofs::Digits::within_3))]
pub fn put_byte(space: &mut [u8], at: usize, n: u8) -> usize
    requires { at + 3 ≤ length space.old }
    ensures text { Placed space.old space.new at (decimal n) result }
    ensures short { result ≤ at + 3 }
{
    put_unsigned(space, at, n as u64)
}

/// Puts the digits of a number, with its sign if it is negative.
#[inline(always)]
pub fn put_integer(space: &mut [u8], at: usize, n: i64) -> usize
    requires { at + 21 ≤ length space.old }
    ensures text { Placed space.old space.new at (signed_decimal n) result }
    ensures short { result ≤ at + 21 }
{
    let at = put_if(space, at, b'-', n < 0);
    put_number(space, at, n.unsigned_abs())
}

#[inline(always)]
fn put_blue(space: &mut [u8], at: usize, site: u8, n: u32) -> usize
    requires { at + 17 ≤ length space.old }
    ensures text { Placed space.old space.new at (quoted (name_text (Blue site n))) result }
    ensures short { result ≤ at + 17 }
{
    let at = put_text(space, at, "\"B");
    let at = put_byte(space, at, site);
    let at = put_text(space, at, ".");
    let at = put_small(space, at, n);
    put_text(space, at, "\"")
}

#[inline(always)]
fn put_red(space: &mut [u8], at: usize, n: u32) -> usize
    requires { at + 13 ≤ length space.old }
    ensures text { Placed space.old space.new at (quoted (name_text (Red n))) result }
    ensures short { result ≤ at + 13 }
{
    let at = put_text(space, at, "\"R");
    let at = put_small(space, at, n);
    put_text(space, at, "\"")
}

/// Puts an operation's name in quotes.
#[inline(always)]
pub fn put_name(space: &mut [u8], at: usize, name: OpName) -> usize
    requires { at + 17 ≤ length space.old }
    ensures text { Placed space.old space.new at (quoted (name_text name)) result }
    ensures short { result ≤ at + 17 }
{
    match name {
        OpName::Blue { site, n } => put_blue(space, at, site, n),
        OpName::Red { n } => put_red(space, at, n),
    }
}

/// Puts a kind's word. Each kind has an arm of its own, in which the length of its word is known, so that a few stores
/// put it.
#[inline(always)]
pub fn put_word(space: &mut [u8], at: usize, kind: Label) -> usize
    requires { at + 8 ≤ length space.old }
    ensures text { Placed space.old space.new at (word_of kind) result }
    ensures short { result ≤ at + 8 }
{
    match kind {
        Label::Deposit => put_text(space, at, key!(deposit)),
        Label::Withdraw => put_text(space, at, key!(withdraw)),
        Label::Declined => put_text(space, at, key!(declined)),
        Label::Interest => put_text(space, at, key!(interest)),
        Label::Cancel => put_text(space, at, key!(cancel)),
        Label::Transfer => put_text(space, at, key!(transfer)),
    }
}
