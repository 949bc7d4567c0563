//! The configuration of the next bank.
//!
//! It is made by `Config::new`, which finds what is wrong with it. Added accounts come after the others, so that each
//! account of the bank keeps its place.
ghost use Rattle.std.specs.Prelude.{◌≡◌, ◌≢◌, ◌≤◌, ◌++◌, ◌∷◌, ℕ, [], IfErr, IfOk, None, OnOk, Some, length};
ghost use Rattle.std.specs.Prelude.{map, slice_get};
ghost use Rattle.rb_money.specs.Faults.{account_of, config_fault};
ghost use Rattle.rb_money.specs.Settings.{IsConfigured};
ghost use Rattle.rb_money.specs.declared.cents.TheConstants.{MOST_CENTS};
ghost use Rattle.rb_runs.specs.Books.{next_accounts, sites_of_next, next_with};

use rb_money::{Config, ConfigFault, Place};
use std::alloc::{AllocError, Global};
use std::marker::Model;

/// The settings asked of the next bank: a number of sites, else it has as many as before; and the names of accounts
/// after the others.
#[derive(Drop)]
pub struct NextBank<'a> {
    sites: Option<u8>,
    added: &'a [&'a str],
}

impl<'a> Model for NextBank<'a> {
    ghost use Rattle.std.specs.Prelude.{map};
    ghost use Rattle.rb_runs.specs.Books.{NextBank};

    ghost Value = { NextBank };

    ghost view = { λ a. record { sites = a.sites; added = map (λ name. name.now) a.added.now } };
}

impl<'a> NextBank<'a> {
    /// A bank with these sites, or as many as before, and these added accounts.
    pub fn new(sites: Option<u8>, added: &'a [&'a str]) -> NextBank<'a>
        ensures sites { result.sites ≡ sites }
        ensures added { result.added ≡ map (λ name. name.now) added.entry.now }
    {
        NextBank { sites, added }
    }

    /// The names of the accounts that are added.
    pub(crate) fn added(&self) -> &'a [&'a str]
        ensures { map (λ name. name.now) result.now ≡ self.now.added }
    {
        self.added
    }

    /// The number of the next bank's sites.
    fn sites(&self, config: &Config) -> u8
        ensures { result ≡ sites_of_next config.now self.now.sites }
    {
        match self.sites {
            Some(sites) => sites,
            None => config.sites(),
        }
    }
}

/// Adds an account at the end, with a copy of its name. `Err` means out of memory.
pub fn add(
    alloc: Global,
    accounts: &mut Vec<(String, u64)>,
    name: &str,
    start: u64,
) -> Result<(), AllocError>
    ensures { OnOk result (map account_of accounts.new.items
        ≡ map account_of accounts.old.items ++ (name.now, start) ∷ []) }
{
    let name = String::from_str(alloc, name)?;
    accounts.push((name, start))?;
    Ok(())
}

/// The accounts of the bank, which start with these balances, and after them the added ones, with 0. `Err` means out
/// of memory.
fn accounts(
    alloc: Global,
    config: &Config,
    balances: &[u64],
    ask: &NextBank<'_>,
) -> Result<Vec<(String, u64)>, AllocError>
    requires each { length balances.now ≡ length config.now.names }
    ensures all { IfOk result
        (λ accounts. map account_of accounts.items ≡ next_accounts config.now balances.now ask.now) }
    ensures configured { IsConfigured config.now }
{
    let mut accounts = Vec::new(alloc);
    let list = config.accounts();
    for place in 0..balances.len() {
        let Some(name) = list.name(Place(place as u16)) else {
            unreachable!();
        };
        add(alloc, &mut accounts, name, balances[place])?;
    }
    for name in ask.added {
        add(alloc, &mut accounts, name, 0)?;
    }
    Ok(accounts)
}

/// The configuration of the next bank: each account starts with its balance, and the added ones with 0; or the first
/// thing that is wrong with it.
pub fn next_config(
    alloc: Global,
    config: &Config,
    balances: &[u64],
    ask: &NextBank<'_>,
) -> Result<Config, ConfigFault>
    requires each { length balances.now ≡ length config.now.names }
    ensures next { IfOk result (λ next. next ≡ next_with config.now balances.now ask.now) }
    ensures proper { OnOk result (config_fault (sites_of_next config.now ask.now.sites)
        (next_accounts config.now balances.now ask.now) config.now.limits ≡ None) }
    ensures configured { IsConfigured config.now }
    // Memory may run out before it is known what is wrong.
    ensures first { IfErr result (λ fault. fault ≢ ConfigFault.OutOfMemory →
        config_fault (sites_of_next config.now ask.now.sites) (next_accounts config.now balances.now ask.now)
        config.now.limits ≡ Some fault) }
{
    let accounts = match accounts(alloc, config, balances, ask) {
        Ok(accounts) => accounts,
        Err(_) => return Err(ConfigFault::OutOfMemory),
    };
    let next = Config::new(alloc, ask.sites(config), accounts, config.limits())?;
    if config.version() == 2 {
        Ok(next.to_version2())
    } else {
        Ok(next)
    }
}

/// The same, of accounts that nothing is wrong with but, perhaps, what they start with, and of balances that they may
/// start with. `Err` means out of memory.
pub fn next_of_balances(
    alloc: Global,
    config: &Config,
    balances: &[u64],
    ask: &NextBank<'_>,
) -> Result<Config, AllocError>
    requires each { length balances.now ≡ length config.now.names }
    requires few { (i n : ℕ) → slice_get balances.now i ≡ Some n → n ≤ MOST_CENTS }
    requires proper { config_fault (sites_of_next config.now ask.now.sites)
        (next_accounts config.now config.now.starts ask.now) config.now.limits ≡ None }
    ensures { IfOk result (λ next. next ≡ next_with config.now balances.now ask.now) }
{
    match next_config(alloc, config, balances, ask) {
        Ok(next) => Ok(next),
        Err(fault) => match fault {
            ConfigFault::OutOfMemory => Err(AllocError),
            _ => unreachable!(),
        },
    }
}
