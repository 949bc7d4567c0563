//! Lines of commands.
ghost use Rattle.std.specs.Prelude.{◌≡◌, IfOk, MatchResult, None, OnOk, Some};
ghost use Rattle.rb_site.specs.Worlds.{IsCommand};
ghost use Rattle.rb_history.specs.Commands.{command_at};
ghost use Rattle.rb_history.specs.Lines.{Gives};
ghost use Rattle.rb_history.specs.declared.fault.LineFault.TheVariants.{Bad};

use crate::fast::command::{parse_line, parse_spaced};
use crate::fault::LineFault;
use crate::read::command::command;
use crate::read::value::read_value;
use rb_money::Config;
use rb_site::WorldEvent;
use std::alloc::Global;

/// The command that a line is: `Bad` if it isn't one, `OutOfMemory` if there was no memory to read it.
///
/// An account that the configuration doesn't have is read as `Place::NOWHERE`. A batch may have any number of requests.
/// The line is read from a copy without blanks, or by its JSON value: `open_command` reads what is spelled as this
/// program does first, in one pass.
#[inline(never)]
pub fn read_command(alloc: Global, config: &Config, line: &str) -> Result<WorldEvent, LineFault>
    ensures value { Gives result (command_at config.now line.now) }
    ensures command { IfOk result IsCommand }
{
    let mut spaced = WorldEvent::Deliver(0, 0);
    if parse_spaced(alloc, config, line, &mut spaced) {
        return Ok(spaced);
    }
    let value = read_value(alloc, line)?;
    command(alloc, config, &value)
}

/// Puts the command that `read_command` reads in the place of another. A call, so that no usual line clears the place
/// of its result.
#[inline(never)]
fn read_other_into(
    alloc: Global,
    config: &Config,
    line: &str,
    command: &mut WorldEvent,
) -> Result<(), LineFault>
    ensures value { MatchResult result (λ _. command_at config.now line.now ≡ Some command.new)
        (λ why. why ≡ Bad → command_at config.now line.now ≡ None) }
    ensures command { OnOk result (IsCommand command.new) }
{
    *command = read_command(alloc, config, line)?;
    Ok(())
}

/// Puts the command that a line is in the place of another. Errors: those of `read_command`, which reads what isn't
/// spelled as this program does. A result would be copied three times, 100 instructions a line.
#[inline(always)]
pub fn read_command_into(
    alloc: Global,
    config: &Config,
    line: &str,
    command: &mut WorldEvent,
) -> Result<(), LineFault>
    ensures value { MatchResult result (λ _. command_at config.now line.now ≡ Some command.new)
        (λ why. why ≡ Bad → command_at config.now line.now ≡ None) }
    ensures command { OnOk result (IsCommand command.new) }
{
    if parse_line(alloc, config, line, command) {
        return Ok(());
    }
    read_other_into(alloc, config, line, command)
}
