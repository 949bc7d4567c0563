//! The kind of a shadow, written.
ghost use Rattle.std.specs.Prelude.{true};
ghost use Rattle.serde_json.specs.Written.{members_text};
ghost use Rattle.rb_history.specs.Adds.{Adds};
ghost use Rattle.rb_history.specs.Entries.{last_members};

use crate::keys::spell;
use crate::write::account::append_account;
use crate::write::append::{append, append_named};
use rb_money::Config;
use rb_shadow::Kind;
use std::alloc::AllocError;

/// The last member of a shadow if it is a cancellation or a transfer, and the end of the object.
#[tactic(auto, unfolding(json::specs::Print::escape_byte))]
pub fn append_last(out: &mut Vec<u8>, config: &Config, kind: Kind) -> Result<(), AllocError>
    ensures { Adds result out.old.items out.new.items (members_text true (last_members config.now kind)) }
{
    match kind {
        Kind::Cancel { target } => append_named(out, spell!("," target ":"), target, "}"),
        Kind::Transfer { to } => append_account(out, spell!("," to ":"), config, to, "}"),
        _ => append(out, "}"),
    }
}
