//! Lines of events to a bank.
ghost use Rattle.std.specs.Prelude.{◌≡◌, false, MatchOption, MatchResult, None, Some, true};
ghost use Rattle.rb_history.specs.declared.fault.LineFault.TheVariants.{Bad};
ghost use Rattle.rb_history.specs.Banks.{event_to, is_of_other};

use crate::bank::BankName;
use crate::fast::event::{parse_asked_line, parse_sent};
use crate::fault::LineFault;
use crate::id::RequestId;
use crate::read::banked::{event_named, is_receipt};
use crate::read::event::asked_event;
use crate::read::value::read_value;
use rb_money::Config;
use rb_site::Event;
use std::alloc::Global;

/// Reads a line of any spelling as [`read_event_to`] does.
#[inline(never)]
fn read_spelled_to(
    alloc: Global,
    config: &Config,
    bank: &BankName,
    line: &str,
    id: &mut RequestId,
) -> Result<Option<Event>, LineFault>
    ensures { MatchResult result
        (λ found. MatchOption found (is_of_other config.now bank.now line.now ≡ true)
        (λ event. event_to config.now bank.now line.now ≡ Some (record { id = id.new; event = event })))
        (λ why. why ≡ Bad → (event_to config.now bank.now line.now ≡ None)
        × (is_of_other config.now bank.now line.now ≡ false)) }
{
    let value = read_value(alloc, line)?;
    if bank.as_bytes().is_empty() {
        return Ok(Some(asked_event(alloc, config, &value, id)?));
    }
    event_named(alloc, config, bank, &value, id)
}

/// The event that a line is to a bank with its id, which takes the place of another; `Ok(None)` if the line is of
/// another bank. `Bad` if it is no event, `OutOfMemory` if there was no memory to read it. Without an id its place is
/// empty. After an `Err` or `Ok(None)` it may be any.
///
/// To a bank with a name, an event may have the name beside it, as the member `"bank"`, and a receipt must: without it,
/// it is of another bank. To a bank without a name such a member makes a line bad. A request or a batch may have an id
/// beside it too, as the member `"id"`: 1 to 64 bytes of `A-Z a-z 0-9 . _ : -`. An account that the configuration
/// doesn't have is read as `Place::NOWHERE`.
pub fn read_event_to(
    alloc: Global,
    config: &Config,
    bank: &BankName,
    line: &str,
    id: &mut RequestId,
) -> Result<Option<Event>, LineFault>
    ensures { MatchResult result
        (λ found. MatchOption found (is_of_other config.now bank.now line.now ≡ true)
        (λ event. event_to config.now bank.now line.now ≡ Some (record { id = id.new; event = event })))
        (λ why. why ≡ Bad → (event_to config.now bank.now line.now ≡ None)
        × (is_of_other config.now bank.now line.now ≡ false)) }
{
    let mut event = Event::Pass(0);
    let Some(text) = parse_asked_line(alloc, config, line, &mut event) else {
        if let Some(()) = parse_sent(config, bank, line, &mut event) {
            id.clear();
            return Ok(Some(event));
        }
        return read_spelled_to(alloc, config, bank, line, id);
    };
    if is_receipt(&event) && !bank.as_bytes().is_empty() {
        return Ok(None);
    }
    id.set(text);
    Ok(Some(event))
}
