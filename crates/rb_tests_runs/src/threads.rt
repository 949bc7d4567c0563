//! Seats of a branch in threads of their own.
ghost use Rattle.std.specs.Prelude.{◌≡◌};
ghost use Rattle.rb_branch.specs.declared.limits.TheConstants.{RECEIPT_PARTS};

use crate::branch::{deposited, gathered_with, some_sites, to_the_second};
use crate::checks::equal;
use crate::gates::{Signs, beside_a_held_call};
use rb_branch::{
    Branch, CallFault, Entries, Gate, GatherFault, NoGate, Outbox, RECEIPT_PARTS, Seat,
};
use rb_money::{Config, Limits};
use rb_site::SiteReport;
use std::alloc::Global;
use std::marker::Brand;
use std::rt::Clock;
use std::sync::Wait;
use std::sync::ledger::{Blank, Ledger};
use std::test::Fail;
use std::thread::{Threads, join};

fn threaded_over<
    E: Entries + Send + Sync,
    R: Ledger + Send + Sync,
    G: Gate + Drop + Sync,
    W: Threads + Wait + Clock + Sync,
>(
    rt: &W,
    alloc: Global,
    config: Config,
    gate: G,
    signs: Option<&Signs>,
    entries: Blank,
    receipts: Blank,
) -> Result<Result<Vec<SiteReport>, GatherFault>, Fail>
    requires config { config ≡ E.settings }
    requires entries { (entries.name ≡ E.name) × (entries.parts ≡ E.parts) × (entries.parts ≡ config.sites) }
    requires receipts { (receipts.name ≡ R.name) × (receipts.parts ≡ R.parts) × (receipts.parts ≡ RECEIPT_PARTS) }
{
    let branch: Branch<E, R, G> = Branch::open(alloc, config, gate, entries, receipts)?;
    let seats = match signs {
        Some(signs) => beside_a_held_call(rt, alloc, &branch, signs),
        None => side_by_side(rt, alloc, &branch),
    };
    gathered_with(alloc, branch, seats)
}

/// The branch after what two threads do, with signs for a gate that holds a call or without, gathered with the seats
/// that they gave back.
pub fn threaded<G: Gate + Drop + Sync, W: Threads + Wait + Clock + Sync>(
    rt: &W,
    alloc: Global,
    config: Config,
    gate: G,
    signs: Option<&Signs>,
) -> Result<Result<Vec<SiteReport>, GatherFault>, Fail> {
    let sites = u64::from(config.sites());
    threaded_over::<Brand, Brand, G, W>(
        rt,
        alloc,
        config,
        gate,
        signs,
        Blank::new(sites),
        Blank::new(RECEIPT_PARTS),
    )
}

/// How many deposits a seat makes.
pub const DEPOSITS: u64 = 100;

/// Many deposits of one cent each, at a seat's site.
pub fn many_deposits<E: Entries, R: Ledger, G: Gate + Drop, W: Wait>(
    rt: &W,
    branch: &Branch<E, R, G>,
    mut seat: Seat<E, R>,
    outbox: &Outbox<E>,
) -> Result<Seat<E, R>, CallFault> {
    for _i in 0..DEPOSITS {
        let _number = deposited(rt, branch, &mut seat, outbox, 1)?;
    }
    Ok(seat)
}

/// Two threads with a seat each at site 0, and many deposits by each.
fn side_by_side<
    E: Entries + Send + Sync,
    R: Ledger + Send + Sync,
    G: Gate + Drop + Sync,
    W: Threads + Wait + Clock + Sync,
>(rt: &W, alloc: Global, branch: &Branch<E, R, G>) -> Result<Vec<Seat<E, R>>, Fail> {
    let (outbox, _inlet) = to_the_second(alloc)?;
    let first = branch.seat(rt, 0)?;
    let second = branch.seat(rt, 0)?;
    let (first, second) = join(
        rt,
        || many_deposits(rt, branch, first, &outbox),
        || many_deposits(rt, branch, second, &outbox),
    );
    Ok(vec![in alloc; first?, second?]?)
}

#[test]
fn two_tellers(rt: HostRuntime) -> Result<(), Fail> {
    let config = some_sites(rt.alloc(), 2, Limits::largest())?;
    let reports = threaded(&rt, rt.alloc(), config, NoGate, None)??;
    let first = reports.first().ok_or("no report")?;
    let recorded = first.history.len() as u64;
    let balance = first.balances.first().copied();
    equal(&rt, (recorded, balance), (200, Some(200)));
    Ok(())
}
