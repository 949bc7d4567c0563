//! Lines of histories, in one pass. `None` says nothing of a text.
ghost use Rattle.std.specs.Prelude.{◌≡◌, ◌<◌, ◌++◌, codes, decimal, IfSome, Some};
ghost use Rattle.rb_history.specs.Beginnings.{BeginsWithId};
ghost use Rattle.rb_history.specs.Entries.{asked_entry_json, asked_entry_of_line};
ghost use Rattle.rb_history.specs.Ids.{IsIdOrNone};
ghost use Rattle.serde_json.specs.Written.{compact_text};
ghost use Rattle.rb_history.specs.Replies.{reply_json};
ghost use Rattle.rb_history.specs.Fits.{IsReply};

use crate::fast::event::parse_event;
use crate::fast::id::parse_id_behind;
use crate::fast::number::parse_u8_between;
use crate::fast::reply::parse_reply;
use crate::fast::scan::parse_prefix;
use crate::id::may_be_asked;
use crate::keys::spell;
use rb_money::Config;
use rb_site::{Entry, Reply};
use std::alloc::Global;

/// The number of the site, and its reply in its place, with which an entry's line ends. After `None` the reply
/// may be any.
#[inline(always)]
fn parse_entry_end(alloc: Global, config: &Config, text: &str, reply: &mut Reply) -> Option<u8>
    ensures site { IfSome result (λ site. site < config.now.sites) }
    ensures value { IfSome result (λ site. IsReply reply.new
        × (text.now ≡ codes ",\"reply\":" ++ (compact_text (reply_json reply.new)
        ++ (codes ",\"site\":" ++ (decimal site ++ codes "}"))))) }
{
    let rest = parse_reply(alloc, parse_prefix(text, spell!("," reply ":"))?, reply)?;
    let (site, rest) = parse_u8_between(rest, spell!("," site ":"), "}")?;
    if !rest.is_empty() || config.sites() <= site {
        return None;
    }
    Some(site)
}

/// The id of an entry's line, from the text after its event, and what follows: no text if there is no id.
#[inline(always)]
fn parse_entry_id(text: &str) -> Option<(&str, &str)>
    ensures { IfSome result (λ p. BeginsWithId p.0.now text.now p.1.now) }
{
    match text.as_bytes().get(2) {
        Some(b'i') => parse_id_behind(text, spell!("," id ":\"")),
        _ => Some(("", text)),
    }
}

/// The entry of a line as it is written, in its place, with its id and the number of its site: no text if it has no id.
/// After `None` the entry may be any.
#[inline(always)]
pub fn parse_asked_entry<'a>(
    alloc: Global,
    config: &Config,
    line: &'a str,
    entry: &mut Entry,
) -> Option<(&'a str, u8)>
    ensures read { IfSome result (λ p. (asked_entry_of_line config.now line.now
        ≡ Some (p.1, record { id = p.0.now; entry = entry.new })) × (p.1 < config.now.sites)) }
    ensures written { IfSome result (λ p. line.now
        ≡ compact_text (asked_entry_json config.now p.1 (record { id = p.0.now; entry = entry.new }))) }
    ensures id { IfSome result (λ p. IsIdOrNone p.0.now) }
{
    // For a fact alone: its settings are those of a configuration.
    let _sites = config.sites();
    let text = parse_prefix(line, spell!("{" event ":"))?;
    let behind = parse_event(alloc, config, text, &mut entry.event)?;
    let (id, rest) = parse_entry_id(behind)?;
    let site = parse_entry_end(alloc, config, rest, &mut entry.reply)?;
    if id != "" && !may_be_asked(entry) {
        return None;
    }
    Some((id, site))
}
