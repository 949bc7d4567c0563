//! Accounts, alone and beside a number, in one pass. `None` says nothing of a text.
ghost use Rattle.std.specs.Prelude.{◌≡◌, ◌<◌, ◌^◌, ◌++◌, IfSome, codes, decimal};
ghost use Rattle.rb_history.specs.Fits.{IsKnown};
ghost use Rattle.rb_history.specs.Beginnings.{IsBetween, account_behind_quote};

use crate::fast::number::parse_u64_between;
use crate::fast::scan::{parse_prefix, parse_string};
use rb_money::{Config, Place};

/// The place of the account whose name comes next, after its first quote. "?" stands for an account that doesn't exist.
fn parse_account<'a>(config: &Config, text: &'a str) -> Option<(Place, &'a str)>
    ensures known { IfSome result (λ p. IsKnown config.now p.0) }
    ensures text { IfSome result (λ p. text.now ≡ account_behind_quote config.now p.0 ++ p.1.now) }
{
    let (name, rest) = parse_string(text)?;
    if let Some(place) = config.accounts().place(name) {
        return Some((place, rest));
    }
    if name == "?" {
        Some((Place::NOWHERE, rest))
    } else {
        None
    }
}

/// An account's name between two texts, of which the first ends with its first quote.
#[inline(always)]
pub fn parse_account_between<'a>(
    config: &Config,
    text: &'a str,
    front: &str,
    back: &str,
) -> Option<(Place, &'a str)>
    ensures { IfSome result (λ p. IsKnown config.now p.0 × IsBetween (account_behind_quote config.now p.0) text.now
        front.now back.now p.1.now) }
{
    let (place, rest) = parse_account(config, parse_prefix(text, front)?)?;
    Some((place, parse_prefix(rest, back)?))
}

/// An account's name after a text that ends with its first quote.
#[inline(always)]
pub fn parse_account_behind<'a>(
    config: &Config,
    text: &'a str,
    front: &str,
) -> Option<(Place, &'a str)>
    ensures { IfSome result (λ p. IsKnown config.now p.0
        × (text.now ≡ front.now ++ (account_behind_quote config.now p.0 ++ p.1.now))) }
{
    let (place, rest) = parse_account(config, parse_prefix(text, front)?)?;
    Some((place, rest))
}

/// An account and a number, which end a list, after a text that ends with the first quote.
#[inline(always)]
pub fn parse_asked<'a>(config: &Config, text: &'a str, front: &str) -> Option<(Place, u64, &'a str)>
    ensures { IfSome result (λ p. IsKnown config.now p.0 × (p.1 < 2 ^ 64) × (text.now ≡ front.now
        ++ ((account_behind_quote config.now p.0 ++ (codes "," ++ (decimal p.1 ++ codes "]"))) ++ p.2.now))) }
{
    let (place, rest) = parse_account_between(config, text, front, ",")?;
    let (n, rest) = parse_u64_between(rest, "", "]")?;
    Some((place, n, rest))
}
