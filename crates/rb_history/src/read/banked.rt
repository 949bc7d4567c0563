//! Events to a bank that has a name. `None` means that a value is of another bank.
ghost use Rattle.std.specs.Prelude.{◌≡◌, false, MatchOption, MatchResult, None, not, option_map, Some, true, unwrap_or};
ghost use Rattle.serde_json.specs.View.{view};
ghost use Rattle.rb_history.specs.Banks.{event_beside, event_named, has_bank, has_other_bank, is_other_named};
ghost use Rattle.rb_history.specs.Banks.{is_receipt};
ghost use Rattle.rb_history.specs.declared.fault.LineFault.TheVariants.{Bad};

use crate::bank::BankName;
use crate::fault::LineFault;
use crate::id::RequestId;
use crate::keys::key;
use crate::read::event::{asked_event, event_with_id, recorded};
use crate::read::value::size;
use rb_money::Config;
use rb_site::Event;
use serde_json::Value;
use std::alloc::Global;

/// Whether an object's key "bank" has this name as its value: `None` if it has no text there.
pub fn has_bank(bank: &BankName, value: &Value) -> Option<bool>
    ensures this { unwrap_or result false ≡ has_bank bank.now (view value.now) }
    ensures other { unwrap_or (option_map not result) false ≡ has_other_bank bank.now (view value.now) }
{
    let text = value.get(key!(bank))?.as_str()?;
    Some(bank.as_bytes() == text.as_bytes())
}

/// Whether the event is the receipt of a message.
pub fn is_receipt(event: &Event) -> bool
    ensures { result ≡ is_receipt event.now }
{
    match event {
        Event::Receive(_) => true,
        Event::Submit(_) | Event::Batch(_) | Event::Apply(_) | Event::Pass(_) => false,
        Event::Balance(_) | Event::AsOf(_, _) | Event::Statement(_) => false,
    }
}

/// An event beside a bank's name, from an object of two members, or of three with its id, which takes the place of
/// another. Without an id its place is empty.
fn event_beside(
    alloc: Global,
    config: &Config,
    value: &Value,
    id: &mut RequestId,
) -> Result<Event, LineFault>
    ensures { MatchResult result
        (λ event. event_beside config.now (view value.now) ≡ Some (record { id = id.new; event = event }))
        (λ why. why ≡ Bad → event_beside config.now (view value.now) ≡ None) }
{
    let members = size(value);
    if members == 3 {
        return event_with_id(alloc, config, value, id);
    }
    if members != 2 {
        return Err(LineFault::Bad);
    }
    id.clear();
    recorded(alloc, config, value)
}

/// An event to the bank of a name, by itself or beside the name, with its id, which takes the place of another.
pub fn event_named(
    alloc: Global,
    config: &Config,
    bank: &BankName,
    value: &Value,
    id: &mut RequestId,
) -> Result<Option<Event>, LineFault>
    ensures { MatchResult result
        (λ found. MatchOption found (is_other_named config.now bank.now (view value.now) ≡ true)
        (λ event. event_named config.now bank.now (view value.now) ≡ Some (record { id = id.new; event = event })))
        (λ why. why ≡ Bad → (event_named config.now bank.now (view value.now) ≡ None)
        × (is_other_named config.now bank.now (view value.now) ≡ false)) }
{
    match asked_event(alloc, config, value, id) {
        Ok(event) => {
            if is_receipt(&event) {
                return Ok(None);
            }
            Ok(Some(event))
        }
        Err(LineFault::Bad) => match has_bank(bank, value) {
            Some(true) => Ok(Some(event_beside(alloc, config, value, id)?)),
            Some(false) => Ok(None),
            None => Err(LineFault::Bad),
        },
        Err(LineFault::OutOfMemory) => Err(LineFault::OutOfMemory),
    }
}
