//! The configuration of a bank.
//!
//! A repeated name is found by a set that lives as long as the check, and not by the map that is kept, since out of
//! memory has to come last.
ghost use Rattle.std.specs.Prelude.{◌≡◌, ◌≢◌, ◌≤◌, [], length, map, None, IfErr, IfOk, OnOk};
ghost use Rattle.std.specs.Arc.{arc_value};
ghost use Rattle.rb_money.specs.Faults.{account_fault, account_of, config_fault, listed, settings_of};
ghost use Rattle.rb_money.specs.Settings.{in_version_2, IsConfigured, version_of};
ghost use Rattle.rb_money.specs.declared.limits.TheConstants.{MOST_ACCOUNTS, MOST_SITES};

use crate::accounts::Accounts;
use crate::checks;
use crate::fault::ConfigFault;
use crate::limits::{Limits, MOST_SITES_OF_VERSION_1};
use std::alloc::{AllocError, Global};
use std::marker::Model;
use std::sync::Arc;

/// What is fixed for a bank: how many sites it has, its accounts with their starting balances, its limits, and the
/// version of its lines. Copies share the accounts.
#[derive(Drop)]
pub struct Config {
    sites: u8,
    accounts: Arc<Accounts, Global>,
    limits: Limits,
    version: u8,
}

impl Model for Config {
    ghost use Rattle.std.specs.Arc.{arc_value};
    ghost use Rattle.rb_money.specs.Settings.{Settings, IsConfigured};

    ghost Value = { Settings };

    ghost view = { λ c. record {
      sites = c.sites;
      names = (arc_value c.accounts).names;
      starts = (arc_value c.accounts).starts;
      limits = c.limits;
      version = c.version;
    } };

    ghost invariant = { λ c. IsConfigured (record {
      sites = c.sites;
      names = (arc_value c.accounts).names;
      starts = (arc_value c.accounts).starts;
      limits = c.limits;
      version = c.version;
    }) };
}

/// The version of a configuration with this number of sites.
fn version_of(sites: u8) -> u8
    ensures { result ≡ version_of sites }
{
    if usize::from(sites) <= MOST_SITES_OF_VERSION_1 {
        1
    } else {
        2
    }
}

/// These accounts, of which none is wrong, to be shared. `Err` means out of memory.
fn shared(alloc: Global, accounts: Vec<(String, u64)>) -> Result<Arc<Accounts, Global>, AllocError>
    requires few { length accounts.items ≤ MOST_ACCOUNTS }
    requires proper { account_fault [] 0 (map account_of accounts.items) ≡ None }
    ensures { IfOk result (λ list. arc_value list ≡ listed (map account_of accounts.items)) }
{
    let accounts = Accounts::from_vec(alloc, accounts)?;
    Ok(Arc::new(alloc, accounts)?)
}

impl Config {
    /// The configuration of these sites, accounts (each a name and its starting cents) and limits, or the
    /// first thing that is wrong. Memory is looked at last. Its version is 1 up to `MOST_SITES_OF_VERSION_1`
    /// sites, and 2 above.
    pub fn new(
        alloc: Global,
        sites: u8,
        accounts: Vec<(String, u64)>,
        limits: Limits,
    ) -> Result<Config, ConfigFault>
        ensures config { IfOk result (λ config. config ≡ settings_of sites (map account_of accounts.items) limits) }
        ensures proper { OnOk result (config_fault sites (map account_of accounts.items) limits ≡ None) }
        ensures first { IfErr result (λ fault. fault ≢ ConfigFault.OutOfMemory →
            config_fault sites (map account_of accounts.items) limits ≡ Some fault) }
        ensures memory_last { result ≡ Err ConfigFault.OutOfMemory →
            config_fault sites (map account_of accounts.items) limits ≡ None }
    {
        if let Some(fault) = checks::config_fault(alloc, sites, &accounts, &limits) {
            return Err(fault);
        }
        match shared(alloc, accounts) {
            Ok(accounts) => Ok(Config {
                sites,
                accounts,
                limits,
                version: version_of(sites),
            }),
            Err(_) => Err(ConfigFault::OutOfMemory),
        }
    }

    /// An equal configuration, with the same accounts in memory. `Err` means that they have too many owners.
    pub fn try_copy(&self) -> Result<Config, AllocError>
        ensures same { IfOk result (λ config. config ≡ self.now) }
        ensures configured { IfOk result IsConfigured }
    {
        let accounts = Arc::try_clone(&self.accounts)?;
        Ok(Config {
            sites: self.sites,
            accounts,
            limits: self.limits,
            version: self.version,
        })
    }

    /// How many sites there are.
    pub fn sites(&self) -> u8
        ensures same { result ≡ self.now.sites }
        ensures some { 2 ≤ result }
        ensures few { result ≤ MOST_SITES }
        ensures configured { IsConfigured self.now }
    {
        self.sites
    }

    /// The version of the lines, 1 or 2.
    pub fn version(&self) -> u8
        ensures same { result ≡ self.now.version }
        ensures configured { IsConfigured self.now }
    {
        self.version
    }

    /// This configuration in version 2 of its lines, with nothing else changed.
    pub fn to_version2(self) -> Config
        ensures { result ≡ in_version_2 self }
    {
        Config { version: 2, ..self }
    }

    /// The limits.
    pub fn limits(&self) -> Limits
        ensures { result ≡ self.now.limits }
    {
        self.limits
    }

    /// The accounts.
    pub fn accounts(&self) -> &Accounts
        ensures names { result.now.names ≡ self.now.names }
        ensures starts { result.now.starts ≡ self.now.starts }
        ensures configured { IsConfigured self.now }
    {
        &self.accounts
    }
}
