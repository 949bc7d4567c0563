//! Shadows of a history's line, added at the end of bytes.
ghost use Rattle.std.specs.Prelude.{◌++◌, codes, decimal, true};
ghost use Rattle.serde_json.specs.Written.{compact_text, members_text};
ghost use Rattle.rb_shadow.specs.Labels.{label_of};
ghost use Rattle.rb_history.specs.KindWords.{word_of};
ghost use Rattle.rb_history.specs.Adds.{Adds};
ghost use Rattle.rb_history.specs.Entries.{account_json, deps_json, last_members, shadow_json};
ghost use Rattle.rb_history.specs.Values.{name_json, one_json};

use crate::keys::spell;
use crate::labels::word_of;
use crate::write::account::append_account;
use crate::write::append::{append, append_named, append_number};
use crate::write::counts::append_counts;
use crate::write::kind::append_last;
use rb_money::Config;
use rb_shadow::{Deps, Shadow};
use std::alloc::AllocError;

/// Adds how many operations of each site were applied, as `deps` has it in this version of the format, 1 or 2. An `Err`
/// means out of memory: what was there stays, and more may follow it.
pub fn append_deps(out: &mut Vec<u8>, version: u8, deps: &Deps) -> Result<(), AllocError>
    ensures { Adds result out.old.items out.new.items (compact_text (deps_json version deps.now)) }
{
    append(out, "[")?;
    append_counts(out, version, &deps.blue)?;
    append_number(out, ",", deps.red as u64, "]")
}

/// The first part of a shadow: its account, its amount in cents and what its home had applied.
fn append_front(out: &mut Vec<u8>, config: &Config, shadow: &Shadow) -> Result<(), AllocError>
    ensures { Adds result out.old.items out.new.items (codes "{\"shadow\":{\"account\":"
        ++ (compact_text (account_json config.now shadow.now.account) ++ (codes ",\"amount\":"
        ++ (decimal shadow.now.amount ++ (codes ",\"deps\":"
        ++ compact_text (deps_json config.now.version shadow.now.deps)))))) }
{
    append_account(
        out,
        spell!("{" shadow ":{" account ":"),
        config,
        shadow.account,
        "",
    )?;
    append_number(
        out,
        spell!("," amount ":"),
        shadow.amount,
        spell!("," deps ":"),
    )?;
    append_deps(out, config.version(), &shadow.deps)
}

/// The rest of a shadow: its home, its kind, its name, and its target, or the account that it goes to.
fn append_back(out: &mut Vec<u8>, config: &Config, shadow: Shadow) -> Result<(), AllocError>
    ensures { Adds result out.old.items out.new.items (codes ",\"home\":" ++ (decimal shadow.home
        ++ (codes ",\"kind\":\"" ++ (word_of (label_of shadow.kind) ++ (codes "\",\"name\":"
        ++ (compact_text (name_json shadow.name) ++ members_text true (last_members config.now shadow.kind))))))) }
{
    append_number(
        out,
        spell!("," home ":"),
        shadow.home as u64,
        spell!("," kind ":\""),
    )?;
    append(out, word_of(shadow.kind.label()))?;
    append_named(out, spell!("\"," name ":"), shadow.name, "")?;
    append_last(out, config, shadow.kind)
}

/// A shadow, as the one member of an object.
pub fn append_shadow(out: &mut Vec<u8>, config: &Config, shadow: Shadow) -> Result<(), AllocError>
    ensures { Adds result out.old.items out.new.items
        (compact_text (one_json (codes "shadow") (shadow_json config.now shadow))) }
{
    append_front(out, config, &shadow)?;
    append_back(out, config, shadow)?;
    append(out, "}")
}
