//! A run of tellers, and an audit of what it writes. Other runs of the program, with their audits and a count of their
//! calls, are made by tests/cases.py.
use crate::checks::equal;
use rb_branch::NoGate;
use rb_lines::{FromBytes, ToBytes};
use rb_run_threads::run_threads;
use rb_runs::{Explained, run_audit};
use std::test::Fail;

#[test]
fn threads_audit(rt: HostRuntime) -> Result<(), Fail> {
    let mut writer = ToBytes::new(rt.alloc());
    run_threads(&rt, rt.alloc(), 3, 4, 7, NoGate, &mut writer)?;
    let mut order = ToBytes::new(rt.alloc());
    let mut reader = Explained::new(FromBytes::new(writer.taken.as_slice()));
    equal(
        &rt,
        run_audit(rt.alloc(), &mut reader, &mut order),
        Ok(true),
    );
    Ok(())
}
