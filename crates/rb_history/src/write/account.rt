//! Accounts, added at the end of bytes.
ghost use Rattle.std.specs.Prelude.{◌≡◌, ◌++◌, codes, slice_get, unwrap_or};
ghost use Rattle.json.specs.Print.{escape};
ghost use Rattle.serde_json.specs.Written.{compact_text};
ghost use Rattle.rb_history.specs.Adds.{Adds};
ghost use Rattle.rb_history.specs.Entries.{account_json, asked_json};

use crate::write::append::{append, append_number, append_three};
use rb_money::{Config, Place};
use std::alloc::AllocError;

/// An account's name, or "?" if the configuration has no account at the place.
fn account_name(config: &Config, place: Place) -> &str
    ensures name { result.now ≡ unwrap_or (slice_get config.now.names place.0) (codes "?") }
    ensures plain { escape result.now ≡ result.now }
{
    match config.accounts().name(place) {
        Some(name) => name,
        None => "?",
    }
}

/// An account's name in quotes, between two texts.
#[inline(always)]
pub fn append_account(
    out: &mut Vec<u8>,
    front: &str,
    config: &Config,
    place: Place,
    back: &str,
) -> Result<(), AllocError>
    ensures { Adds result out.old.items out.new.items (front.now
        ++ (compact_text (account_json config.now place) ++ back.now)) }
{
    let name = account_name(config, place);
    append(out, front)?;
    append_three(out, "\"", name, "\"")?;
    append(out, back)
}

/// An account and a number, as the last member of an object.
#[inline(always)]
pub fn append_asked(
    out: &mut Vec<u8>,
    front: &str,
    config: &Config,
    place: Place,
    n: u64,
) -> Result<(), AllocError>
    ensures { Adds result out.old.items out.new.items (front.now ++ (compact_text (asked_json config.now place n)
        ++ codes "}")) }
{
    append(out, front)?;
    append_account(out, "[", config, place, ",")?;
    append_number(out, "", n, "]}")
}
