//! A script over bytes in memory. The answers to scripts, and reads and writes that fail, are in the worked rows and in
//! tests/cases.
use crate::checks::{equal, holds};
use rb_lines::{FromBytes, ScriptFault, ToBytes};
use rb_runs::{Explained, run_script};
use rb_tests::rows::row_named;
use std::test::Fail;

/// A worked row as a run. It passes whether or not an allocation is refused, and at most one of its process is:
/// tests/refuse.py runs it with each refused in turn.
#[test]
fn refuse_script(rt: HostRuntime) -> Result<(), Fail> {
    let row = row_named("deposit_reaches_the_other_site")?;
    let mut reader = Explained::new(FromBytes::new(row.script.as_bytes()));
    let mut writer = ToBytes::new(rt.alloc());
    // Spare capacity for the text, so that no write takes memory. If it is refused, it is had at once when it is asked
    // for again.
    let capacity = row.replies.len().saturating_add(1);
    if writer.taken.reserve(capacity).is_err() {
        writer.taken.reserve(capacity)?;
    }
    let result = run_script(rt.alloc(), &mut reader, &mut writer);
    let count = row.replies.lines().count() as u64;
    let written = writer.taken.as_slice();
    let written = written.strip_suffix(b"\n".as_slice()).unwrap_or(written);
    let wrote = written.len();
    match result {
        Ok(answered) => equal(&rt, (answered, wrote), (count, row.replies.len())),
        Err(fault) => {
            equal(&rt, fault, ScriptFault::OutOfMemory);
            println!(rt; "{} stopped where it wrote {wrote} bytes", row.name)?;
        }
    }
    holds(
        &rt,
        "a prefix of the replies",
        row.replies.as_bytes().starts_with(written),
    );
    Ok(())
}
