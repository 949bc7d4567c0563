//! The checks before a configuration is made.
//!
//! A repeated name is found by a set of the names before it, in time in proportion to the accounts. Without memory for
//! the set each is compared with those before it, in the square of that time, as out of memory is the last fault.
ghost use Rattle.std.specs.Prelude.{◌≡◌, ◌≢◌, ◌≤◌, [], false, length, map, true};
ghost use Rattle.rb_money.specs.Faults.{AreNewUpTo, account_fault, account_of, are_limits, config_fault, is_among};
ghost use Rattle.rb_money.specs.Faults.{is_limit};
ghost use Rattle.rb_money.specs.Settings.{is_account_name, is_name_byte};
ghost use Rattle.rb_money.specs.declared.limits.TheConstants.{MOST_ACCOUNTS};

use crate::accounts::LONGEST_NAME;
use crate::cents::MOST_CENTS;
use crate::fault::ConfigFault;
use crate::limits::{Limits, MOST_ACCOUNTS, MOST_SITES};
use std::alloc::Global;
use std::collections::HashSet;

fn is_name_byte(byte: u8) -> bool
    ensures { result ≡ is_name_byte byte }
{
    matches!(byte, b'a'..=b'z' | b'0'..=b'9' | b'.' | b'_' | b'-')
}

fn is_account_name(name: &[u8]) -> bool
    ensures { result ≡ is_account_name name.now }
{
    if name.is_empty() {
        return false;
    }
    if name.len() > LONGEST_NAME {
        return false;
    }
    for byte in name {
        if !is_name_byte(*byte) {
            return false;
        }
    }
    true
}

/// Whether one of these accounts has the name.
fn has_name(accounts: &[(String, u64)], name: &str) -> bool
    ensures { result ≡ is_among (map (λ a. a.0) (map account_of accounts.now)) name.now }
{
    for account in accounts {
        if name == account.0.as_str() {
            return true;
        }
    }
    false
}

/// Whether one of the accounts before has the name, which none has if it is known to be new.
fn is_repeated(before: &[(String, u64)], name: &str, is_new: bool) -> bool
    requires { is_new ≡ true → is_among (map (λ a. a.0) (map account_of before.now)) name.now ≡ false }
    ensures { result ≡ is_among (map (λ a. a.0) (map account_of before.now)) name.now }
{
    !is_new && has_name(before, name)
}

/// How many accounts there are before the first that has the name of an earlier one: fewer if there is no memory to
/// look each name up among the earlier ones.
fn count_distinct(alloc: Global, accounts: &[(String, u64)]) -> usize
    ensures { AreNewUpTo result accounts.now }
{
    let Ok(mut seen) = HashSet::with_capacity(alloc, accounts.len()) else {
        return 0;
    };
    for (i, account) in accounts.iter().enumerate() {
        let Ok(is_new) = seen.insert(account.0.as_str()) else {
            return i;
        };
        if !is_new {
            return i;
        }
    }
    accounts.len()
}

/// The first account that is wrong, and how.
fn account_fault(alloc: Global, accounts: &[(String, u64)]) -> Option<ConfigFault>
    requires { length accounts.now ≤ MOST_ACCOUNTS }
    ensures first { result ≡ account_fault [] 0 (map account_of accounts.now) }
    ensures no_memory { result ≢ Some ConfigFault.OutOfMemory }
{
    let distinct = count_distinct(alloc, accounts);
    for (i, account) in accounts.iter().enumerate() {
        let place = i as u16;
        if !is_account_name(account.0.as_bytes()) {
            return Some(ConfigFault::Name(place));
        }
        if is_repeated(&accounts[..i], account.0.as_str(), i < distinct) {
            return Some(ConfigFault::Twice(place));
        }
        if account.1 > MOST_CENTS {
            return Some(ConfigFault::Start(place));
        }
    }
    None
}

fn is_limit(limit: u32, most: u32) -> bool
    ensures { result ≡ is_limit limit most }
{
    1 <= limit && limit <= most
}

/// Whether each limit is in its range.
fn are_limits(limits: &Limits) -> bool
    ensures { result ≡ are_limits limits.now }
{
    let most = Limits::largest();
    let blue = is_limit(limits.blue, most.blue);
    let red = is_limit(limits.red, most.red);
    let inbox = is_limit(limits.inbox, most.inbox);
    let history = is_limit(limits.history, most.history);
    let epoch = is_limit(limits.epoch, most.epoch);
    blue && red && inbox && history && epoch
}

/// The first thing that is wrong with a configuration, if any, other than that memory may not suffice.
pub fn config_fault(
    alloc: Global,
    sites: u8,
    accounts: &[(String, u64)],
    limits: &Limits,
) -> Option<ConfigFault>
    ensures first { result ≡ config_fault sites (map account_of accounts.now) limits.now }
    ensures no_memory { result ≢ Some ConfigFault.OutOfMemory }
{
    if sites < 2 || sites as usize > MOST_SITES {
        return Some(ConfigFault::Sites);
    }
    if accounts.is_empty() || accounts.len() > MOST_ACCOUNTS {
        return Some(ConfigFault::Accounts);
    }
    if let Some(fault) = account_fault(alloc, accounts) {
        return Some(fault);
    }
    if are_limits(limits) {
        None
    } else {
        Some(ConfigFault::Limit)
    }
}
