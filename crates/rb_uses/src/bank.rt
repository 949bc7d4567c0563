//! A bank of two sites with one account.
ghost use Rattle.std.specs.Prelude.{◌≡◌, ◌<◌, All, IfOk, Some, length};
ghost use Rattle.rb_site.specs.Worlds.{IsCommand};
ghost use Rattle.rb_world.specs.Laws.{next_worlds, opened};
ghost use Rattle.rb_uses.specs.Bank.{balance_in, bank};

use rb_money::{Config, ConfigFault, Limits, Place};
use rb_site::WorldEvent;
use rb_world::World;
use std::alloc::{AllocError, Global};

/// The account of the bank.
pub const ANN: Place = Place(0);

/// Two sites, and one account that starts with 1,000 cents. Nothing is wrong with the configuration, so `Err` means out
/// of memory.
pub(crate) fn config(alloc: Global) -> Result<Config, AllocError>
    ensures { IfOk result (λ config. config ≡ bank) }
{
    let mut accounts = Vec::new(alloc);
    accounts.push((String::from_str(alloc, "ann")?, 1_000))?;
    match Config::new(alloc, 2, accounts, Limits::largest()) {
        Ok(config) => Ok(config),
        Err(ConfigFault::OutOfMemory) => Err(AllocError),
        Err(_) => unreachable!(),
    }
}

/// The bank before any event. `Err` means out of memory.
pub fn open_bank(alloc: Global) -> Result<World, AllocError>
    ensures { IfOk result (λ world. world ≡ opened bank) }
{
    let config = config(alloc)?;
    World::open(alloc, config)
}

/// The bank after a list of events. `Err` means out of memory.
pub fn bank_after(alloc: Global, events: &[WorldEvent]) -> Result<World, AllocError>
    requires { All IsCommand events.now }
    ensures { IfOk result (λ world. world ≡ next_worlds (opened bank) events.now) }
{
    let mut world = open_bank(alloc)?;
    match world.run(events) {
        Ok(_) => Ok(world),
        Err(_) => {
            let _reports = world.close();
            Err(AllocError)
        }
    }
}

/// The balance that a site has for an account, in cents.
pub fn balance(world: &World, site: u8, account: Place) -> u64
    requires site { site < length world.now.world.sites }
    requires account { account.0 < length world.now.settings.starts }
    ensures { balance_in world.now site account ≡ Some result }
{
    let Some(site) = world.site(site) else {
        unreachable!()
    };
    let Some(cents) = site.ledger().balance(account) else {
        unreachable!()
    };
    cents
}
