//! Lines of configurations.
ghost use Rattle.std.specs.Prelude.{◌≡◌, ◌≤◌, ◌^◌, codes, map, option_and_then, option_map, OnOk, true, ◌++◌, ◌∷◌, []};
ghost use Rattle.serde_json.specs.Find.{get};
ghost use Rattle.serde_json.specs.View.{view};
ghost use Rattle.rb_history.specs.Configurations.{account_at, accounts_at, limit_read, limits_of, has, has_known_keys};
ghost use Rattle.rb_history.specs.Configurations.{is_version, version_at, config_from, config_in, config_of};
ghost use Rattle.rb_history.specs.Configurations.{config_at};
ghost use Rattle.rb_money.specs.Faults.{account_of};
ghost use Rattle.rb_money.specs.Settings.{version_of};
ghost use Rattle.rb_history.specs.Lines.{Gives, GivesAs};
ghost use Rattle.rb_history.specs.Values.{number_below};

use crate::fault::LineFault;
use crate::keys::key;
use crate::read::value::{byte, long, pair, read_value, size, word};
use rb_money::{Config, ConfigFault, Limits, MOST_SITES_OF_VERSION_1};
use serde_json::Value;
use std::alloc::{AllocError, Global};

/// An account's name and starting balance, in cents.
fn account(value: &Value) -> Option<(&str, u64)>
    ensures { option_map (λ a. (a.0.now, a.1)) result ≡ account_at (view value.now) }
{
    let (name, start) = pair(value)?;
    let name = name.as_str()?;
    let start = long(start)?;
    Some((name, start))
}

/// Adds an account at the end, with a copy of its name.
fn add(
    alloc: Global,
    accounts: &mut Vec<(String, u64)>,
    name: &str,
    start: u64,
) -> Result<(), AllocError>
    ensures { OnOk result (map account_of accounts.new.items
        ≡ map account_of accounts.old.items ++ (name.now, start) ∷ []) }
{
    let name = String::from_str(alloc, name)?;
    accounts.push((name, start))?;
    Ok(())
}

fn accounts(alloc: Global, value: &Value) -> Result<Vec<(String, u64)>, LineFault>
    ensures { GivesAs (λ v. map account_of v.items) result (accounts_at (view value.now)) }
{
    let items = value.as_array().ok_or(LineFault::Bad)?;
    let mut accounts = Vec::new(alloc);
    for item in items {
        let (name, start) = account(item).ok_or(LineFault::Bad)?;
        add(alloc, &mut accounts, name, start)?;
    }
    Ok(accounts)
}

/// A limit: `most` if it is missing.
fn limit(value: &Value, key: &str, most: u32) -> Option<u32>
    ensures { result ≡ limit_read key.now most (view value.now) }
{
    match value.get(key) {
        Some(limit) => word(limit),
        None => Some(most),
    }
}

fn limits(value: &Value) -> Option<Limits>
    ensures { result ≡ limits_of (view value.now) }
{
    let most = Limits::largest();
    let blue = limit(value, key!(blue), most.blue)?;
    let red = limit(value, key!(red), most.red)?;
    let inbox = limit(value, key!(inbox), most.inbox)?;
    let history = limit(value, key!(history), most.history)?;
    let epoch = limit(value, key!(epoch), most.epoch)?;
    Some(Limits {
        blue,
        red,
        inbox,
        history,
        epoch,
    })
}

/// 1 if the object has the key, else 0.
fn count(value: &Value, key: &str) -> usize
    ensures count { result ≡ has key.now (view value.now) }
    ensures most { result ≤ 1 }
{
    match value.get(key) {
        Some(_) => 1,
        None => 0,
    }
}

/// Whether no key is there but the three that are required and the five of the limits.
fn is_of_known_keys(value: &Value) -> bool
    ensures { result ≡ has_known_keys (view value.now) }
{
    let known = 3
        + count(value, key!(blue))
        + count(value, key!(red))
        + count(value, key!(inbox))
        + count(value, key!(history))
        + count(value, key!(epoch));
    size(value) == known
}

/// The version of the format.
fn version(value: &Value) -> Option<u8>
    ensures { result ≡ version_at (view value.now) }
{
    byte(value.get(key!(version))?)
}

/// Whether lines of a bank with this number of sites may have this version.
fn is_version(version: u8, sites: u8) -> bool
    ensures { result ≡ is_version version sites }
{
    match version {
        1 => usize::from(sites) <= MOST_SITES_OF_VERSION_1,
        2 => true,
        _ => false,
    }
}

fn sites(value: &Value) -> Option<u8>
    ensures { result ≡ option_and_then (number_below (2 ^ 8)) (get (codes "sites") (view value.now)) }
{
    byte(value.get(key!(sites))?)
}

/// The configuration in a version that its sites may have.
#[tactic(auto, using(crate::proofs::Versions::is_second, crate::proofs::Versions::stays))]
fn in_version(config: Config, version: u8) -> Config
    requires made { config.version ≡ version_of config.sites }
    requires allowed { is_version version config.sites ≡ true }
    ensures { result ≡ record config { version = version } }
{
    if version == 2 {
        config.to_version2()
    } else {
        config
    }
}

/// The configuration of these parts.
#[tactic(auto, using(crate::proofs::Versions::faulty, crate::proofs::Versions::from_parts, crate::proofs::Versions::made_version, crate::proofs::Versions::not_allowed, crate::proofs::Versions::still_allowed))]
fn made(
    alloc: Global,
    version: u8,
    sites: u8,
    limits: Limits,
    accounts: Vec<(String, u64)>,
) -> Result<Config, LineFault>
    ensures { Gives result (config_from version sites limits (map account_of accounts.items)) }
{
    if !is_version(version, sites) {
        return Err(LineFault::Bad);
    }
    match Config::new(alloc, sites, accounts, limits) {
        Ok(config) => Ok(in_version(config, version)),
        Err(ConfigFault::OutOfMemory) => Err(LineFault::OutOfMemory),
        Err(_) => Err(LineFault::Bad),
    }
}

/// The configuration that the values of an object's keys come to.
fn parts(alloc: Global, value: &Value) -> Result<Config, LineFault>
    ensures { Gives result (config_in (view value.now)) }
{
    let version = version(value).ok_or(LineFault::Bad)?;
    let sites = sites(value).ok_or(LineFault::Bad)?;
    let limits = limits(value).ok_or(LineFault::Bad)?;
    let list = value.get(key!(accounts)).ok_or(LineFault::Bad)?;
    let accounts = accounts(alloc, list)?;
    made(alloc, version, sites, limits, accounts)
}

fn config(alloc: Global, value: &Value) -> Result<Config, LineFault>
    ensures { Gives result (config_of (view value.now)) }
{
    if !is_of_known_keys(value) {
        return Err(LineFault::Bad);
    }
    parts(alloc, value)
}

/// The configuration that a line is: `Bad` if it isn't one, `OutOfMemory` if there was no memory to read it.
pub fn read_config(alloc: Global, line: &str) -> Result<Config, LineFault>
    ensures { Gives result (config_at line.now) }
{
    let value = read_value(alloc, line)?;
    config(alloc, &value)
}
