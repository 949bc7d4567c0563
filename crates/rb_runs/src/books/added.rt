//! Accounts that are to be added.
//!
//! Their faults are those that `Config::new` finds, so the rules of accounts are in one place. They are checked alone
//! before a journal is read, and after the bank's own accounts once its configuration is known.
ghost use Rattle.std.specs.Prelude.{◌≡◌, ◌≢◌, IfErr, IfOk, MatchResult, None, OnOk, Some, map};
ghost use Rattle.std.specs.Prelude.{option_map};
ghost use Rattle.rb_money.specs.Faults.{account_of, config_fault};
ghost use Rattle.rb_runs.specs.AddedAccounts.{IsAddedFault, added_fault, as_added, largest};

use crate::books::added_fault::AddedFault;
use crate::books::next::{NextBank, add, next_config};
use rb_money::{Config, ConfigFault, Limits};
use std::alloc::{AllocError, Global};

/// The fault of accounts that come after this number of others.
fn as_added(before: usize, fault: ConfigFault) -> AddedFault
    ensures memory { fault ≡ ConfigFault.OutOfMemory → result ≡ AddedFault.OutOfMemory }
    ensures first { fault ≢ ConfigFault.OutOfMemory → result ≡ as_added before fault }
{
    match fault {
        ConfigFault::Name(place) => AddedFault::NoName {
            index: (place as u64).saturating_sub(before as u64),
        },
        ConfigFault::Twice(place) => AddedFault::There {
            index: (place as u64).saturating_sub(before as u64),
        },
        ConfigFault::OutOfMemory => AddedFault::OutOfMemory,
        _ => AddedFault::TooMany,
    }
}

/// The accounts of these names, which start with nothing. `Err` means out of memory.
fn named(alloc: Global, names: &[&str]) -> Result<Vec<(String, u64)>, AllocError>
    ensures { IfOk result (λ accounts. map account_of accounts.items
        ≡ map (λ name. (name, 0)) (map (λ name. name.now) names.now)) }
{
    let mut accounts = Vec::new(alloc);
    for name in names {
        add(alloc, &mut accounts, name, 0)?;
    }
    Ok(accounts)
}

/// A bank with these accounts alone, or the first thing that is wrong with it.
fn alone(alloc: Global, added: &[&str]) -> Result<Config, ConfigFault>
    ensures proper { OnOk result
        (config_fault 2 (map (λ name. (name, 0)) (map (λ name. name.now) added.now)) largest ≡ None) }
    ensures first { IfErr result (λ fault. fault ≢ ConfigFault.OutOfMemory →
        config_fault 2 (map (λ name. (name, 0)) (map (λ name. name.now) added.now)) largest ≡ Some fault) }
{
    let Ok(accounts) = named(alloc, added) else {
        return Err(ConfigFault::OutOfMemory);
    };
    Config::new(alloc, 2, accounts, Limits::largest())
}

/// Whether accounts with these names may be added after those of the bank, or, if none is known yet, be accounts at
/// all: the first thing that is wrong.
pub fn check_added(alloc: Global, added: &[&str], config: Option<&Config>) -> Result<(), AddedFault>
    ensures { MatchResult result
        (λ _. added_fault (option_map (λ c. c.now) config.entry) (map (λ name. name.now) added.now) ≡ None)
        (IsAddedFault (option_map (λ c. c.now) config.entry) (map (λ name. name.now) added.now)) }
{
    let Some(config) = config else {
        if added.is_empty() {
            return Ok(());
        }
        return match alone(alloc, added) {
            Ok(_) => Ok(()),
            Err(fault) => Err(as_added(0, fault)),
        };
    };
    let before = config.accounts().len();
    let Ok(balances) = vec![in alloc; 0u64; before] else {
        return Err(AddedFault::OutOfMemory);
    };
    let ask = NextBank::new(None, added);
    match next_config(alloc, config, balances.as_slice(), &ask) {
        Ok(_) => Ok(()),
        Err(fault) => Err(as_added(before, fault)),
    }
}
