//! Names of operations, in one pass. `None` says nothing of a text.
ghost use Rattle.std.specs.Prelude.{◌≡◌, ◌<◌, ◌^◌, ◌++◌, IfSome, MatchOption, codes, decimal};
ghost use Rattle.rb_shadow.specs.NameText.{IsName, name_text};
ghost use Rattle.rb_history.specs.Beginnings.{IsBetween, behind_quote};

use crate::fast::number::{parse_u8, parse_u32};
use crate::fast::scan::parse_prefix;
use rb_shadow::OpName;

/// The site of a blue operation's name, or `None` of a red one's, and what follows: the number.
#[inline(always)]
fn parse_site(text: &str) -> Option<(Option<u8>, &str)>
    ensures { IfSome result (λ p. MatchOption p.0 (text.now ≡ codes "R" ++ p.1.now)
        (λ site. (site < 2 ^ 8) × (text.now ≡ codes "B" ++ (decimal site ++ (codes "." ++ p.1.now))))) }
{
    if let Some(number) = parse_prefix(text, "R") {
        return Some((None, number));
    }
    let (site, rest) = parse_u8(parse_prefix(text, "B")?)?;
    Some((Some(site), parse_prefix(rest, ".")?))
}

/// The operation's name before a quote, and what follows the quote.
#[inline(always)]
pub fn parse_name(text: &str) -> Option<(OpName, &str)>
    ensures { IfSome result (λ p. IsName p.0 × (text.now ≡ name_text p.0 ++ (codes "\"" ++ p.1.now))) }
{
    let (site, number) = parse_site(text)?;
    let (n, rest) = parse_u32(number)?;
    let rest = parse_prefix(rest, "\"")?;
    let name = match site {
        Some(site) => OpName::Blue { site, n },
        None => OpName::Red { n },
    };
    Some((name, rest))
}

/// An operation's name after a text that ends with its first quote.
#[inline(always)]
pub fn parse_name_behind<'a>(text: &'a str, front: &str) -> Option<(OpName, &'a str)>
    ensures { IfSome result (λ p. IsName p.0
        × (text.now ≡ front.now ++ (behind_quote (name_text p.0) ++ p.1.now))) }
{
    let (name, rest) = parse_name(parse_prefix(text, front)?)?;
    Some((name, rest))
}

/// An operation's name between two texts, of which the first ends with its first quote.
#[inline(always)]
pub fn parse_name_between<'a>(text: &'a str, front: &str, back: &str) -> Option<(OpName, &'a str)>
    ensures { IfSome result (λ p. IsName p.0 × IsBetween (behind_quote (name_text p.0)) text.now front.now back.now
        p.1.now) }
{
    let (name, rest) = parse_name(parse_prefix(text, front)?)?;
    Some((name, parse_prefix(rest, back)?))
}
