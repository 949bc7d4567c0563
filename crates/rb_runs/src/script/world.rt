//! The world of a script: how its configuration opens it, and its commands.
ghost use Rattle.std.specs.Prelude.{◌≡◌, None, Some, MatchResult};
ghost use Rattle.rb_money.specs.Settings.{Settings};
ghost use Rattle.rb_world.specs.Laws.{opened};
ghost use Rattle.rb_history.specs.declared.fault.LineFault.TheVariants.{Bad};
ghost use Rattle.rb_history.specs.Configurations.{config_on};
ghost use Rattle.rb_history.specs.OnLines.{command_on};
ghost use Rattle.rb_runs.specs.ScriptSession.{TakesCommand};

use rb_history::{LineFault, open_command, open_config};
use rb_site::{KeepsEntry, Reply};
use rb_world::{ErasedEvent, PlacedMessage, World, WorldEvent};
use std::alloc::Global;

/// The world before any event of the configuration on a line.
pub fn open_world<E: KeepsEntry>(
    alloc: Global,
    line: &[u8],
) -> Result<World<E, ErasedEvent, PlacedMessage>, LineFault>
    ensures { MatchResult result
        (λ world. (s : Settings) × (config_on line.now ≡ Some s) × (world ≡ opened s))
        (λ why. why ≡ Bad → config_on line.now ≡ None) }
{
    let config = open_config(alloc, line)?;
    Ok(World::open_keeping(alloc, config)?)
}

/// Gives the world the command on a line, and puts its reply in the place of another. An `Err` ends the script.
#[inline(always)]
pub fn take_command<E: KeepsEntry>(
    alloc: Global,
    world: &mut World<E, ErasedEvent, PlacedMessage>,
    reply: &mut Reply,
    line: &[u8],
) -> Result<(), LineFault>
    ensures { MatchResult result
        (λ _. TakesCommand (command_on world.old.settings line.now) world.old world.new reply.new)
        (λ why. why ≡ Bad → command_on world.old.settings line.now ≡ None) }
{
    let mut command = WorldEvent::Deliver(0, 0);
    open_command(alloc, world.config(), line, &mut command)?;
    Ok(world.answer(&command, reply)?)
}
