//! Tests of configurations. Amounts, rates and versions at their limits are in tests/cases and the worked rows.
use crate::checks::{equal, holds};
use rb_money::{
    Config, ConfigFault, Limits, MOST_ACCOUNTS, MOST_BLUE, MOST_CENTS, MOST_EPOCH, MOST_HISTORY,
    MOST_INBOX, MOST_RED, MOST_SITES,
};
use std::alloc::{AllocError, Global};
use std::test::Fail;

/// Names of accounts, with what each starts with.
type Accounts = &'static [(&'static str, u64)];

const ANN: Accounts = &[("ann", 0)];

const CAPITAL: Accounts = &[("Ann", 0)];

const LONG: Accounts = &[("abcdefghijklmnopqrstuvwxyz0123456", 0)];

const EMPTY: Accounts = &[("", 0)];

const TWICE: Accounts = &[("ann", 0), ("ann", 0)];

const RICH: Accounts = &[("ann", MOST_CENTS + 1)];

const TWO: Accounts = &[("ann", 0), ("bob", 0)];

const MOST: Limits = Limits {
    blue: MOST_BLUE,
    red: MOST_RED,
    inbox: MOST_INBOX,
    history: MOST_HISTORY,
    epoch: MOST_EPOCH,
};

const WIDE_INBOX: Limits = Limits {
    inbox: MOST_INBOX + 1,
    ..MOST
};

const NO_BLUE: Limits = Limits { blue: 0, ..MOST };

const LATE_EPOCH: Limits = Limits {
    epoch: MOST_EPOCH + 1,
    ..MOST
};

const FAULTS: [(u8, Accounts, Limits, ConfigFault); 12] = [
    (1, ANN, MOST, ConfigFault::Sites),
    (MOST_SITES as u8 + 1, ANN, MOST, ConfigFault::Sites),
    (1, &[], MOST, ConfigFault::Sites),
    (2, &[], MOST, ConfigFault::Accounts),
    (2, CAPITAL, MOST, ConfigFault::Name(0)),
    (2, LONG, MOST, ConfigFault::Name(0)),
    (2, EMPTY, MOST, ConfigFault::Name(0)),
    (2, TWICE, MOST, ConfigFault::Twice(1)),
    (2, RICH, MOST, ConfigFault::Start(0)),
    (2, ANN, WIDE_INBOX, ConfigFault::Limit),
    (2, ANN, NO_BLUE, ConfigFault::Limit),
    (2, ANN, LATE_EPOCH, ConfigFault::Limit),
];

/// Accounts, each with the cents that it starts with.
fn accounts_of(alloc: Global, accounts: &[(&str, u64)]) -> Result<Vec<(String, u64)>, AllocError> {
    let mut all = Vec::new(alloc);
    for (name, start) in accounts {
        all.push((String::from_str(alloc, name)?, *start))?;
    }
    Ok(all)
}

fn fault_of(
    alloc: Global,
    sites: u8,
    accounts: Vec<(String, u64)>,
    limits: Limits,
) -> Option<ConfigFault> {
    Config::new(alloc, sites, accounts, limits).err()
}

/// This number of accounts, with names that differ.
fn many_accounts(alloc: Global, count: usize) -> Result<Vec<(String, u64)>, Fail> {
    let mut accounts = Vec::new(alloc);
    for i in 0..count {
        accounts.push((format!(in alloc; "a{i}")?, 0))?;
    }
    Ok(accounts)
}

#[test]
fn config_faults(rt: HostRuntime) -> Result<(), Fail> {
    let alloc = rt.alloc();
    for (sites, accounts, limits, fault) in FAULTS {
        let accounts = accounts_of(alloc, accounts)?;
        equal(&rt, fault_of(alloc, sites, accounts, limits), Some(fault));
    }
    for (count, fault) in [
        (MOST_ACCOUNTS, None),
        (MOST_ACCOUNTS + 1, Some(ConfigFault::Accounts)),
    ] {
        let accounts = many_accounts(alloc, count)?;
        equal(
            &rt,
            fault_of(alloc, MOST_SITES as u8, accounts, MOST),
            fault,
        );
    }
    Ok(())
}

// Run with each allocation failing in turn, too: what is wrong is answered whether or not memory is left.
#[test]
fn memory_is_looked_at_last(rt: HostRuntime) {
    let alloc = rt.alloc();
    for (accounts, want) in [(TWICE, Some(ConfigFault::Twice(1))), (TWO, None)] {
        if let Ok(accounts) = accounts_of(alloc, accounts) {
            let fault = fault_of(alloc, 2, accounts, Limits::largest());
            let refused = want.is_none() && fault == Some(ConfigFault::OutOfMemory);
            holds(&rt, "the fault is found first", refused || fault == want);
        }
    }
}

#[test]
fn a_fault_in_words(rt: HostRuntime) -> Result<(), Fail> {
    let words = ConfigFault::Twice(7).to_string(rt.alloc())?;
    equal(
        &rt,
        words.as_str(),
        "account 7 has the name of an earlier one",
    );
    Ok(())
}
