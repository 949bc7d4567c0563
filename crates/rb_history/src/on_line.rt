//! The bytes of a line: its text is read if it is UTF-8.
ghost use Rattle.std.specs.Prelude.{◌≡◌, None, Some, MatchResult, OnOk};
ghost use Rattle.rb_history.specs.Configurations.{config_on};
ghost use Rattle.rb_history.specs.declared.fault.LineFault.TheVariants.{Bad};
ghost use Rattle.rb_history.specs.OnLines.{command_on};
ghost use Rattle.rb_site.specs.Worlds.{IsCommand};

use crate::fault::LineFault;
use crate::lines::command::read_command_into;
use crate::read::config::read_config;
use rb_lines::text_on;
use rb_money::Config;
use rb_site::WorldEvent;
use std::alloc::Global;

/// The configuration on a line: `Bad` if it isn't one, `OutOfMemory` if there was no memory to read it.
#[tactic(auto, unfolding(crate::specs::Configurations::config_on))]
pub fn open_config(alloc: Global, line: &[u8]) -> Result<Config, LineFault>
    ensures { MatchResult result
        (λ config. config_on line.now ≡ Some config)
        (λ why. why ≡ Bad → config_on line.now ≡ None) }
{
    let text = text_on(line).ok_or(LineFault::Bad)?;
    read_config(alloc, text)
}

/// Puts the command on a line, under a configuration, in the place of another. `Bad` if it isn't one, `OutOfMemory`
/// without memory to read it.
#[inline(always)]
#[tactic(auto, unfolding(crate::specs::OnLines::command_on))]
pub fn open_command(
    alloc: Global,
    config: &Config,
    line: &[u8],
    command: &mut WorldEvent,
) -> Result<(), LineFault>
    ensures value { MatchResult result
        (λ _. command_on config.now line.now ≡ Some command.new)
        (λ why. why ≡ Bad → command_on config.now line.now ≡ None) }
    ensures command { OnOk result (IsCommand command.new) }
{
    let text = text_on(line).ok_or(LineFault::Bad)?;
    read_command_into(alloc, config, text, command)
}
