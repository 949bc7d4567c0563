//! Messages to the sites of a bank, added at the end of bytes.
ghost use Rattle.std.specs.Prelude.{true};
ghost use Rattle.serde_json.specs.Written.{compact_text, members_text};
ghost use Rattle.rb_history.specs.Adds.{Adds};
ghost use Rattle.rb_history.specs.Banks.{receipt_member, sent_json};

use crate::bank::BankName;
use crate::keys::spell;
use crate::write::event::append_event;
use crate::write::id::append_id;
use rb_money::Config;
use rb_site::{Event, Message};
use std::alloc::AllocError;

/// A message's member after another, and the end of their object: the message's line with a comma in place of its
/// first brace.
fn append_behind(out: &mut Vec<u8>, config: &Config, message: &Message) -> Result<(), AllocError>
    ensures { Adds result out.old.items out.new.items
        (members_text true (receipt_member config.now message.now)) }
{
    let at = out.len();
    append_event(out, config, &Event::Receive(*message))?;
    out[at] = b',';
    Ok(())
}

/// Adds the line of a message to the sites of a bank, without a line feed. An `Err` means out of memory: what was there
/// stays, and more may follow it.
///
/// To a bank with a name, it has the name as its first member, `"bank"`. A place past the accounts is written "?".
pub fn append_sent_message(
    out: &mut Vec<u8>,
    config: &Config,
    bank: &BankName,
    message: &Message,
) -> Result<(), AllocError>
    ensures { Adds result out.old.items out.new.items (compact_text (sent_json config.now bank.now message.now)) }
{
    let name = bank.as_bytes();
    if name.is_empty() {
        return append_event(out, config, &Event::Receive(*message));
    }
    append_id(out, spell!("{" bank ":\""), name, "\"")?;
    append_behind(out, config, message)
}
