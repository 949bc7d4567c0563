//! Kinds, in one pass. `None` says nothing of a text.
ghost use Rattle.std.specs.Prelude.{◌≡◌, ◌<◌, ◌++◌, IfSome, true};
ghost use Rattle.rb_history.specs.Fits.{IsKind};
ghost use Rattle.rb_history.specs.Beginnings.{behind_quote};
ghost use Rattle.serde_json.specs.Written.{members_text};
ghost use Rattle.rb_shadow.specs.Labels.{label_of};
ghost use Rattle.rb_history.specs.KindWords.{word_of};
ghost use Rattle.rb_shadow.specs.declared.label.Label.TheVariants.{Cancel, Transfer};
ghost use Rattle.rb_history.specs.Entries.{last_members};

use crate::fast::account::parse_account_between;
use crate::fast::name::parse_name_between;
use crate::fast::scan::parse_prefix;
use crate::keys::spell;
use crate::labels::strip_word;
use rb_money::Config;
use rb_shadow::{Kind, Label};

/// A kind's word and its second quote, after its first.
#[inline(always)]
pub fn parse_label(text: &str) -> Option<(Label, &str)>
    ensures { IfSome result (λ p. text.now ≡ behind_quote (word_of p.0) ++ p.1.now) }
{
    let (label, rest) = strip_word(text)?;
    Some((label, parse_prefix(rest, "\"")?))
}

/// A cancellation, of its target, and the end of the object.
#[inline(always)]
#[tactic(auto, unfolding(json::specs::Print::escape_byte))]
fn parse_target<'a>(config: &Config, text: &'a str) -> Option<(Kind, &'a str)>
    ensures kind { IfSome result (λ p. IsKind config.now p.0 × (label_of p.0 ≡ Cancel)) }
    ensures text { IfSome result (λ p. text.now ≡ members_text true (last_members config.now p.0) ++ p.1.now) }
{
    let (target, rest) = parse_name_between(text, spell!("," target ":\""), "}")?;
    Some((Kind::Cancel { target }, rest))
}

/// A transfer, of the account to which it goes, and the end of the object.
#[inline(always)]
#[tactic(auto, unfolding(json::specs::Print::escape_byte))]
fn parse_receiver<'a>(config: &Config, text: &'a str) -> Option<(Kind, &'a str)>
    ensures kind { IfSome result (λ p. IsKind config.now p.0 × (label_of p.0 ≡ Transfer)) }
    ensures text { IfSome result (λ p. text.now ≡ members_text true (last_members config.now p.0) ++ p.1.now) }
{
    let (to, rest) = parse_account_between(config, text, spell!("," to ":\""), "}")?;
    Some((Kind::Transfer { to }, rest))
}

/// The kind of this label, with the target of a cancellation or the account to which a transfer goes, and the end of
/// the object.
pub fn parse_kind<'a>(config: &Config, label: Label, text: &'a str) -> Option<(Kind, &'a str)>
    ensures kind { IfSome result (λ p. IsKind config.now p.0 × (label_of p.0 ≡ label)) }
    ensures text { IfSome result (λ p. text.now ≡ members_text true (last_members config.now p.0) ++ p.1.now) }
{
    let kind = match label {
        Label::Deposit => Kind::Deposit,
        Label::Withdraw => Kind::Withdraw,
        Label::Declined => Kind::Declined,
        Label::Interest => Kind::Interest,
        Label::Cancel => return parse_target(config, text),
        Label::Transfer => return parse_receiver(config, text),
    };
    Some((kind, parse_prefix(text, "}")?))
}
