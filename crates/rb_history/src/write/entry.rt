//! Lines of histories, written.
ghost use Rattle.std.specs.Prelude.{◌≡◌, ◌<◌, ◌++◌, codes, string_bytes, IfOk, OnErr, OnOk};
ghost use Rattle.serde_json.specs.Written.{compact_text};
ghost use Rattle.rb_history.specs.Adds.{Adds};
ghost use Rattle.rb_history.specs.Entries.{asked_entry_json, entry_json, event_json};
ghost use Rattle.rb_history.specs.Ids.{IsIdOrNone, between_if_any};
ghost use Rattle.rb_history.specs.Replies.{reply_json};

use crate::id::RequestId;
use crate::keys::spell;
use crate::write::append::{append, append_number};
use crate::write::event::append_event;
use crate::write::id::append_id;
use crate::write::reply::append_value;
use rb_lines::whole_or_none;
use rb_money::Config;
use rb_site::{Entry, Event};
use std::alloc::{AllocError, Global};

/// The JSON object of an entry with its id, or no bytes, up to its reply.
fn append_front(
    out: &mut Vec<u8>,
    config: &Config,
    id: &[u8],
    event: &Event,
) -> Result<(), AllocError>
    ensures { Adds result out.old.items out.new.items (codes "{\"event\":"
        ++ (compact_text (event_json config.now event.now)
        ++ (between_if_any (codes ",\"id\":\"") id.now (codes "\"") ++ codes ",\"reply\":"))) }
{
    append(out, spell!("{" event ":"))?;
    append_event(out, config, event)?;
    append_id(out, spell!("," id ":\""), id, "\"")?;
    append(out, spell!("," reply ":"))
}

/// The JSON object of an entry with its id, or no bytes, on one line.
fn append_entry(
    out: &mut Vec<u8>,
    config: &Config,
    site: u8,
    id: &[u8],
    entry: &Entry,
) -> Result<(), AllocError>
    requires { IsIdOrNone id.now }
    ensures { Adds result out.old.items out.new.items
        (compact_text (asked_entry_json config.now site (record { id = id.now; entry = entry.now }))) }
{
    append_front(out, config, id, &entry.event)?;
    append_value(out, &entry.reply)?;
    append_number(out, spell!("," site ":"), site as u64, "}")
}

/// The line of an entry with its id, or no bytes, without a line feed. The text of its reply is at hand and is copied,
/// not written again. An `Err` means out of memory: what was there stays, and more may follow it.
pub fn append_line_with(
    out: &mut Vec<u8>,
    config: &Config,
    site: u8,
    id: &[u8],
    entry: &Entry,
    reply: &[u8],
) -> Result<(), AllocError>
    requires id { IsIdOrNone id.now }
    requires reply { reply.now ≡ compact_text (reply_json entry.now.reply) }
    ensures { Adds result out.old.items out.new.items
        (compact_text (asked_entry_json config.now site (record { id = id.now; entry = entry.now }))) }
{
    append_front(out, config, id, &entry.event)?;
    out.extend_from_slice(reply)?;
    append_number(out, spell!("," site ":"), site as u64, "}")
}

/// Adds an entry's JSON object as `append_entry` does; without memory for all of it nothing is added.
fn append_whole(
    out: &mut Vec<u8>,
    config: &Config,
    site: u8,
    id: &[u8],
    entry: &Entry,
) -> Result<(), AllocError>
    requires { IsIdOrNone id.now }
    ensures ok { OnOk result (out.new.items ≡ out.old.items
        ++ compact_text (asked_entry_json config.now site (record { id = id.now; entry = entry.now }))) }
    ensures err { OnErr result (out.new.items ≡ out.old.items) }
{
    let before = out.len();
    whole_or_none(append_entry(out, config, site, id, entry), out, before)
}

/// Adds the line of an entry of a site's history with its id, without a line feed. An `Err` means out of memory, and
/// adds nothing.
///
/// A place past the accounts is written "?". A line has no limit: one with a long statement may be longer
/// than what is read.
pub fn append_asked_line(
    out: &mut Vec<u8>,
    config: &Config,
    site: u8,
    id: &RequestId,
    entry: &Entry,
) -> Result<(), AllocError>
    ensures ok { OnOk result (out.new.items ≡ out.old.items
        ++ compact_text (asked_entry_json config.now site (record { id = id.now; entry = entry.now }))) }
    ensures err { OnErr result (out.new.items ≡ out.old.items) }
{
    append_whole(out, config, site, id.as_bytes(), entry)
}

/// Adds the line of an entry that has no id, without a line feed. An `Err` means out of memory, and adds nothing.
pub fn append_line(
    out: &mut Vec<u8>,
    config: &Config,
    site: u8,
    entry: &Entry,
) -> Result<(), AllocError>
    ensures ok { OnOk result (out.new.items ≡ out.old.items ++ compact_text (entry_json config.now site entry.now)) }
    ensures err { OnErr result (out.new.items ≡ out.old.items) }
{
    append_whole(out, config, site, &[], entry)
}

/// The line of an entry of a site's history, without a line feed. An `Err` means out of memory.
pub fn write_line(
    alloc: Global,
    config: &Config,
    site: u8,
    entry: &Entry,
) -> Result<String, AllocError>
    ensures { IfOk result (λ s. string_bytes s ≡ compact_text (entry_json config.now site entry.now)) }
{
    // For a fact alone: its names are those of a configuration.
    let _sites = config.sites();
    let mut bytes = Vec::new(alloc);
    append_line(&mut bytes, config, site, entry)?;
    match String::from_utf8(bytes) {
        Ok(text) => Ok(text),
        Err(_) => unreachable!(),
    }
}
