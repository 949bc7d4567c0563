//! A server for which many messages wait, and the gate of its site; and one to which they come in turned order.
use crate::branch::{Case, balance_is, deposited, gathered, served_by, some_sites, to_the_second};
use crate::checks::equal;
use crate::flags::Count;
use crate::threads::{DEPOSITS, many_deposits};
use rb_branch::{Branch, Entries, Gate, Inlet, NoGate, Seat};
use rb_money::Limits;
use std::alloc::Global;
use std::process::Abort;
use std::sync::Wait;
use std::sync::ledger::Ledger;
use std::test::Fail;

/// A gate that counts how often site 1 was entered, and left.
#[derive(Drop)]
struct Counting<'a, W> {
    rt: &'a W,
    entered: &'a Count,
    left: &'a Count,
}

impl<W: Wait> Gate for Counting<'_, W> {
    fn enter(&self, site: u8) {
        if site == 1 {
            let _before = self.entered.add_one(self.rt);
        }
    }

    fn leave(&self, site: u8) {
        if site == 1 {
            let _before = self.left.add_one(self.rt);
        }
    }
}

/// A server at site 1, for which what the inlet has waits: how many receipts it has more, and the balance then. It is
/// given back with the teller's seat.
fn served_from<E: Entries, R: Ledger, G: Gate + Drop, W: Wait + Abort>(
    rt: &W,
    alloc: Global,
    branch: &Branch<E, R, G>,
    teller: Seat<E, R>,
    inlet: Inlet<E>,
    wanted: (u64, u64),
) -> Result<Vec<Seat<E, R>>, Fail> {
    let mut server = branch.seat(rt, 1)?;
    let (receipts, cents) = wanted;
    equal(
        rt,
        served_by(rt, branch, &mut server, inlet).ok(),
        Some(receipts),
    );
    let _number = balance_is(rt, branch, &mut server, cents)?;
    Ok(vec![in alloc; teller, server]?)
}

/// Deposits at site 0, all of which wait at site 1's link as its server comes.
struct ManyServed;

impl Case for ManyServed {
    fn calls<E: Entries, R: Ledger, G: Gate + Drop, W: Wait + Abort + Print>(
        &self,
        rt: &W,
        alloc: Global,
        branch: &Branch<E, R, G>,
    ) -> Result<Vec<Seat<E, R>>, Fail> {
        let (outbox, inlet) = to_the_second(alloc)?;
        let teller = many_deposits(rt, branch, branch.seat(rt, 0)?, &outbox)?;
        drop(outbox);
        served_from(rt, alloc, branch, teller, inlet, (2 * DEPOSITS, DEPOSITS))
    }
}

/// A message takes two steps, one to be taken and one to be received and applied. So 100 messages and a last look take
/// 201 steps, for which the site's lock is taken four times, and once more for the balance.
#[test]
fn served(rt: HostRuntime) -> Result<(), Fail> {
    let (entered, left) = (Count::new(), Count::new());
    let gate = Counting {
        rt: &rt,
        entered: &entered,
        left: &left,
    };
    let config = some_sites(rt.alloc(), 2, Limits::largest())?;
    let reports = gathered(&rt, rt.alloc(), config, gate, &ManyServed)??;
    for report in &reports {
        equal(&rt, report.balances.first().copied(), Some(DEPOSITS));
    }
    equal(&rt, (entered.get(&rt), left.get(&rt)), (5, 5));
    Ok(())
}

/// Two deposits at site 0, each by a link of its own, which come to site 1 in turned order: none is ready after the
/// first, and both are after the second.
struct Turned;

impl Case for Turned {
    fn calls<E: Entries, R: Ledger, G: Gate + Drop, W: Wait + Abort + Print>(
        &self,
        rt: &W,
        alloc: Global,
        branch: &Branch<E, R, G>,
    ) -> Result<Vec<Seat<E, R>>, Fail> {
        let (first, late) = to_the_second(alloc)?;
        let (second, early) = to_the_second(alloc)?;
        let mut teller = branch.seat(rt, 0)?;
        let _first = deposited(rt, branch, &mut teller, &first, 1)?;
        let _second = deposited(rt, branch, &mut teller, &second, 2)?;
        drop((first, second));
        let mut server = branch.seat(rt, 1)?;
        equal(rt, served_by(rt, branch, &mut server, early).ok(), Some(1));
        let mut seats = served_from(rt, alloc, branch, teller, late, (3, 3))?;
        seats.push(server)?;
        Ok(seats)
    }
}

#[test]
fn served_in_turned_order(rt: HostRuntime) -> Result<(), Fail> {
    let config = some_sites(rt.alloc(), 2, Limits::largest())?;
    let reports = gathered(&rt, rt.alloc(), config, NoGate, &Turned)??;
    equal(&rt, reports.len(), 2);
    Ok(())
}
