//! Shadows of a history's line, in one pass. `None` says nothing of a text.
ghost use Rattle.std.specs.Prelude.{◌≡◌, ◌<◌, ◌^◌, ◌++◌, codes, true, IfSome};
ghost use Rattle.rb_history.specs.Banks.{is_receipt};
ghost use Rattle.rb_history.specs.Fits.{IsKnown};
ghost use Rattle.rb_history.specs.Beginnings.{BeginsWithEvent};
ghost use Rattle.rb_history.specs.Receipts.{BeginsWithBack, shadow_front};

use crate::fast::account::parse_account_between;
use crate::fast::counts::parse_counts;
use crate::fast::kind::{parse_kind, parse_label};
use crate::fast::name::parse_name;
use crate::fast::number::{parse_u8_between, parse_u32_between, parse_u64_between};
use crate::fast::scan::parse_prefix;
use crate::keys::spell;
use rb_money::{Config, MOST_SITES, Place};
use rb_shadow::{Deps, Kind, OpName, Shadow};
use rb_site::{Event, Message};

/// What `parse_back` gives: the members of a shadow's object after its counts of blue operations.
#[derive(Clone, Copy, Drop)]
pub struct Back {
    pub red: u32,
    pub home: u8,
    pub name: OpName,
    pub kind: Kind,
}

/// The account and the amount of a shadow that comes, after the brace of its event, and what follows the
/// bracket before its counts.
#[inline(always)]
pub fn parse_front<'a>(config: &Config, text: &'a str) -> Option<(Place, u64, &'a str)>
    ensures { IfSome result (λ p. IsKnown config.now p.0 × (p.1 < 2 ^ 64)
        × (codes "{" ++ text.now ≡ shadow_front config.now p.0 p.1 ++ p.2.now)) }
{
    let (account, rest) = parse_account_between(
        config,
        text,
        spell!(shadow ":{" account ":\""),
        ",",
    )?;
    let (amount, rest) = parse_u64_between(rest, spell!(amount ":"), spell!("," deps ":["))?;
    Some((account, amount, rest))
}

/// The members after the counts of a shadow that comes, and the end of its event.
#[inline(always)]
pub fn parse_back<'a>(config: &Config, text: &'a str) -> Option<(Back, &'a str)>
    ensures { IfSome result (λ p. BeginsWithBack config.now p.0 text.now p.1.now) }
{
    let (red, rest) = parse_u32_between(text, ",", "]")?;
    let (home, rest) = parse_u8_between(rest, spell!("," home ":"), spell!("," kind ":\""))?;
    let (label, rest) = parse_label(rest)?;
    let (name, rest) = parse_name(parse_prefix(rest, spell!("," name ":\""))?)?;
    let (kind, rest) = parse_kind(config, label, rest)?;
    let rest = parse_prefix(rest, "}")?;
    let back = Back {
        red,
        home,
        name,
        kind,
    };
    Some((back, rest))
}

/// A shadow that comes, as the one member of an object, after the object's brace. After `None` the event may be any.
#[inline(never)]
pub fn parse_received<'a>(config: &Config, text: &'a str, event: &mut Event) -> Option<&'a str>
    ensures event { IfSome result (λ rest. BeginsWithEvent config.now event.new (codes "{" ++ text.now) rest.now) }
    ensures receipt { IfSome result (λ _. is_receipt event.new ≡ true) }
{
    let (account, amount, rest) = parse_front(config, text)?;
    let mut blue = [0; MOST_SITES];
    let rest = parse_counts(config.version(), rest, &mut blue)?;
    let (back, rest) = parse_back(config, rest)?;
    let shadow = Shadow {
        name: back.name,
        home: back.home,
        deps: Deps {
            blue,
            red: back.red,
        },
        account,
        amount,
        kind: back.kind,
    };
    *event = Event::Receive(Message::Shadow(shadow));
    Some(rest)
}
