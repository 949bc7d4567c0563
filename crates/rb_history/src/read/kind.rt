//! The kind of a shadow.
ghost use Rattle.std.specs.Prelude.{◌≡◌};
ghost use Rattle.serde_json.specs.View.{view};
ghost use Rattle.rb_money.specs.Settings.{Settings};
ghost use Rattle.rb_history.specs.Recorded.{kind_at, kind_of};

use crate::keys::key;
use crate::read::request::account;
use crate::read::value::{label, name, size};
use rb_money::Config;
use rb_shadow::{Kind, Label};
use serde_json::Value;

/// A cancellation, of its target.
fn cancel(value: &Value) -> Option<Kind>
    ensures { (s : Settings) → result ≡ kind_of s (view value.now) Label.Cancel }
{
    if size(value) != 7 {
        return None;
    }
    let target = name(value.get(key!(target))?)?;
    Some(Kind::Cancel { target })
}

/// A transfer, of the account to which it goes.
fn transfer(config: &Config, value: &Value) -> Option<Kind>
    ensures { result ≡ kind_of config.now (view value.now) Label.Transfer }
{
    if size(value) != 7 {
        return None;
    }
    let to = account(config, value.get(key!(to))?)?;
    Some(Kind::Transfer { to })
}

/// The kind of a shadow of this label.
fn kind_of(config: &Config, value: &Value, label: Label) -> Option<Kind>
    ensures { result ≡ kind_of config.now (view value.now) label }
{
    let kind = match label {
        Label::Deposit => Kind::Deposit,
        Label::Withdraw => Kind::Withdraw,
        Label::Declined => Kind::Declined,
        Label::Interest => Kind::Interest,
        Label::Cancel => return cancel(value),
        Label::Transfer => return transfer(config, value),
    };
    if size(value) != 6 {
        return None;
    }
    Some(kind)
}

/// The kind of the shadow that an object is.
pub fn kind(config: &Config, value: &Value) -> Option<Kind>
    ensures { result ≡ kind_at config.now (view value.now) }
{
    let label = label(value.get(key!(kind))?)?;
    kind_of(config, value, label)
}
