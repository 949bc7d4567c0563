//! Shadows, from a history's line.
ghost use Rattle.std.specs.Prelude.{◌≡◌};
ghost use Rattle.serde_json.specs.View.{view};
ghost use Rattle.rb_history.specs.Recorded.{deps_at, shadow_at};

use crate::keys::key;
use crate::read::counts::counts;
use crate::read::kind::kind;
use crate::read::request::account;
use crate::read::value::{byte, long, name, pair, word};
use rb_money::Config;
use rb_shadow::{Deps, Shadow};
use serde_json::Value;

/// The operations that the home had applied, from a line of this version of the format.
fn deps(version: u8, value: &Value) -> Option<Deps>
    ensures { result ≡ deps_at version (view value.now) }
{
    let (blue, red) = pair(value)?;
    let blue = counts(version, blue)?;
    let red = word(red)?;
    Some(Deps { blue, red })
}

/// An operation that another site made.
pub fn shadow(config: &Config, value: &Value) -> Option<Shadow>
    ensures { result ≡ shadow_at config.now (view value.now) }
{
    let account = account(config, value.get(key!(account))?)?;
    let amount = long(value.get(key!(amount))?)?;
    let deps = deps(config.version(), value.get(key!(deps))?)?;
    let home = byte(value.get(key!(home))?)?;
    let kind = kind(config, value)?;
    let name = name(value.get(key!(name))?)?;
    Some(Shadow {
        name,
        home,
        deps,
        account,
        amount,
        kind,
    })
}
