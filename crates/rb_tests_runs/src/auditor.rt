//! Certificates that are found and checked. The findings of audits are in tests/cases, audits.cases.
use crate::checks::equal;
use crate::copies::{AT_HOME, AWAY, entries_of};
use rb_auditor::{Certificate, audit, check};
use rb_history::read_config;
use std::test::Fail;

/// Orders, and whether they certify the histories of one deposit.
const ORDERS: [(&[u8], bool); 4] = [
    (&[0, 0, 1, 1, 1, 1], true),
    (&[1, 0, 0, 1, 1, 1], true),
    // An entry is left.
    (&[1, 0, 0, 1, 1], false),
    // The deposit comes before it is made.
    (&[1, 1, 0, 0, 1, 1], false),
];

#[test]
fn orders_are_checked(rt: HostRuntime) -> Result<(), Fail> {
    let alloc = rt.alloc();
    let config = read_config(alloc, r#"{"accounts":[["ann",0]],"sites":2,"version":1}"#)?;
    if config.sites() != 2 {
        return Err(Fail::from("not two sites"));
    }
    let histories = [
        entries_of(alloc, &config, AT_HOME)?,
        entries_of(alloc, &config, AWAY)?,
    ];
    let found = audit(alloc, &config, histories.as_slice())?;
    equal(&rt, found.as_slice(), ORDERS[0].0);
    for (sites, certified) in ORDERS {
        let certificate = Certificate::new(sites.to_vec(alloc)?);
        let found = check(alloc, &config, histories.as_slice(), &certificate)?;
        equal(&rt, found, certified);
    }
    Ok(())
}
