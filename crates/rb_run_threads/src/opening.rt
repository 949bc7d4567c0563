//! The bank that tellers run at.
ghost use Rattle.std.specs.Prelude.{◌≡◌, ◌≤◌, IfOk, map};
ghost use Rattle.rb_money.specs.Faults.{account_of};
ghost use Rattle.rb_money.specs.declared.limits.TheConstants.{MOST_SITES};
ghost use Rattle.rb_run_threads.specs.Bank.{accounts, bank_of};

use rb_money::{Config, ConfigFault, Limits};
use std::alloc::{AllocError, Global};

/// The starting balance of each account, in cents.
const START: u64 = 1000;

/// The accounts, each with its starting balance.
fn accounts(alloc: Global) -> Result<Vec<(String, u64)>, AllocError>
    ensures { IfOk result (λ v. map account_of v.items ≡ accounts) }
{
    let accounts = vec![in alloc;
        (String::from_str(alloc, "a0")?, START),
        (String::from_str(alloc, "a1")?, START),
        (String::from_str(alloc, "a2")?, START),
        (String::from_str(alloc, "a3")?, START),
    ]?;
    Ok(accounts)
}

/// The configuration of a run of threads at this number of sites. `Err` means out of memory.
pub fn bank(alloc: Global, sites: u8) -> Result<Config, AllocError>
    requires some { 2 ≤ sites }
    requires few { sites ≤ MOST_SITES }
    ensures { IfOk result (λ config. config ≡ bank_of sites) }
{
    let accounts = accounts(alloc)?;
    match Config::new(alloc, sites, accounts, Limits::largest()) {
        Ok(config) => Ok(config),
        Err(ConfigFault::OutOfMemory) => Err(AllocError),
        Err(_) => unreachable!(),
    }
}
