//! Copies of what can be copied, and a site that is made from its history.
ghost use Rattle.std.specs.Prelude.{◌<◌};

use crate::branch::{Case, alone, gathered, some_sites, to_the_second};
use crate::checks::{equal, holds};
use rb_branch::{Branch, Entries, Gate, NoGate, Seat};
use rb_history::{read_command, read_config, read_line};
use rb_money::{Config, Limits};
use rb_site::{Entry, Message, Site};
use rb_tests::rows::row_named;
use rb_token::TokenMessage;
use std::alloc::{AllocError, Global};
use std::process::Abort;
use std::sync::Wait;
use std::sync::ledger::Ledger;
use std::test::Fail;

/// The entries of site 0 as it makes a deposit.
pub const AT_HOME: &str =
    r#"{"event":{"deposit":["ann",500]},"reply":{"kind":"deposit","name":"B0.1"},"site":0}
{"event":{"balance":"ann"},"reply":{"balance":500},"site":0}"#;

/// The entries of site 1 as the deposit comes and is applied.
pub const AWAY: &str = r#"{"event":{"balance":"ann"},"reply":{"balance":0},"site":1}
{"event":{"shadow":{"account":"ann","amount":500,"deps":[[0,0,0,0,0,0,0,0],0],"home":0,"kind":"deposit","name":"B0.1"}},"reply":{"held":"B0.1"},"site":1}
{"event":{"apply":"B0.1"},"reply":{"applied":"B0.1"},"site":1}
{"event":{"balance":"ann"},"reply":{"balance":500},"site":1}"#;

/// Entries whose events or replies have lists.
const LISTS: &str =
    r#"{"event":{"batch":[{"deposit":["ann",50]},{"withdraw":["ann",57]}]},"reply":{"names":["B0.2","R1"]},"site":0}
{"event":{"statement":"ann"},"reply":{"balance":7,"rows":[[1,"B0.1","deposit",7,false,7]],"start":0},"site":0}"#;

/// The entries on these lines.
pub fn entries_of(alloc: Global, config: &Config, lines: &str) -> Result<Vec<Entry>, Fail> {
    let mut entries = Vec::new(alloc);
    for line in lines.lines() {
        let (_site, entry) = read_line(alloc, config, line)?;
        entries.push(entry)?;
    }
    Ok(entries)
}

/// Whether an entry, its event and its reply are the same as their copies.
fn is_copied(alloc: Global, entry: &Entry) -> Result<bool, AllocError> {
    let copy = entry.try_copy(alloc)?;
    let event = entry.event.try_copy(alloc)?;
    let reply = entry.reply.try_copy(alloc)?;
    Ok(entry.same(&copy) & entry.event.same(&event) & entry.reply.same(&reply))
}

/// Whether the command on a line is the same as its copy.
fn is_command_copied(alloc: Global, config: &Config, line: &str) -> Result<bool, Fail> {
    let command = read_command(alloc, config, line)?;
    Ok(command.same(&command.try_copy(alloc)?))
}

/// The token, which goes by a copy of an outbox.
struct ByCopy;

impl Case for ByCopy {
    fn calls<E: Entries, R: Ledger, G: Gate + Drop, W: Wait + Abort + Print>(
        &self,
        rt: &W,
        alloc: Global,
        branch: &Branch<E, R, G>,
    ) -> Result<Vec<Seat<E, R>>, Fail> {
        let (outbox, mut inlet) = to_the_second(alloc)?;
        let copy = outbox.try_copy(alloc)?;
        drop(outbox);
        let mut seat = branch.seat(rt, 0)?;
        let _number = branch.pass(rt, &mut seat, &copy, 1)?;
        let token = Message::Token(TokenMessage {
            epoch: 1,
            to: 1,
            red: 0,
        });
        holds(rt, "it came", inlet.next(rt) == Some(token));
        alone(alloc, seat)
    }
}

#[test]
fn outbox_copied(rt: HostRuntime) -> Result<(), Fail> {
    let config = some_sites(rt.alloc(), 2, Limits::largest())?;
    let reports = gathered(&rt, rt.alloc(), config, NoGate, &ByCopy)??;
    equal(&rt, reports.len(), 2);
    Ok(())
}

/// Whether a site 1 that is made from the events of these entries has them as its history.
fn is_replayed(alloc: Global, config: &Config, entries: &[Entry]) -> Result<bool, AllocError> {
    let sites = config.sites();
    prove!(1 < sites);
    let mut events = Vec::new(alloc);
    for entry in entries {
        events.push(entry.event.try_copy(alloc)?)?;
    }
    let report = Site::replay(alloc, config, 1, events.as_slice())?.close();
    let mut same = report.history.len() == entries.len();
    for (found, entry) in report.history.iter().zip(entries) {
        same = same & found.same(entry);
    }
    Ok(same)
}

#[test]
fn copies(rt: HostRuntime) -> Result<(), Fail> {
    let alloc = rt.alloc();
    let script = row_named("deposit_reaches_the_other_site")?.script;
    let mut lines = script.lines();
    let config = read_config(alloc, lines.next().ok_or("no configuration")?)?.try_copy()?;
    for line in lines {
        holds(&rt, line, is_command_copied(alloc, &config, line)?);
    }
    for lines in [AT_HOME, AWAY, LISTS] {
        for entry in &entries_of(alloc, &config, lines)? {
            holds(&rt, lines, is_copied(alloc, entry)?);
        }
    }
    let away = entries_of(alloc, &config, AWAY)?;
    holds(&rt, AWAY, is_replayed(alloc, &config, away.as_slice())?);
    Ok(())
}
