//! Seats of a branch, in threads and out of them.
ghost use Rattle.std.specs.Prelude.{◌≡◌};
ghost use Rattle.rb_branch.specs.declared.limits.TheConstants.{RECEIPT_PARTS};

use crate::checks::{equal, holds};
use rb_branch::{
    Branch, CallFault, Entries, Gate, GatherFault, Inlet, MOST_SEATS, NoGate, Outbox,
    RECEIPT_PARTS, Seat, SeatFault, links,
};
use rb_money::{Config, Limits, Place};
use rb_scratch::Request;
use rb_site::{Event, Reply, SiteReport};
use std::alloc::{AllocError, Global};
use std::marker::Brand;
use std::process::Abort;
use std::sync::Wait;
use std::sync::ledger::{Blank, Ledger};
use std::test::Fail;

/// The calls of one thread at a branch, and the seats that it gives back.
pub trait Case {
    fn calls<E: Entries, R: Ledger, G: Gate + Drop, W: Wait + Abort + Print>(
        &self,
        rt: &W,
        alloc: Global,
        branch: &Branch<E, R, G>,
    ) -> Result<Vec<Seat<E, R>>, Fail>;
}

/// The branch, gathered with the seats that were given back.
pub fn gathered_with<E: Entries, R: Ledger, G: Gate + Drop>(
    alloc: Global,
    branch: Branch<E, R, G>,
    seats: Result<Vec<Seat<E, R>>, Fail>,
) -> Result<Result<Vec<SiteReport>, GatherFault>, Fail> {
    match seats {
        Ok(seats) => Ok(branch.gather(seats)),
        Err(fail) => {
            let _ = branch.gather(Vec::new(alloc));
            Err(fail)
        }
    }
}

fn gathered_over<E: Entries, R: Ledger, G: Gate + Drop, W: Wait + Abort + Print, C: Case>(
    rt: &W,
    alloc: Global,
    config: Config,
    gate: G,
    case: &C,
    entries: Blank,
    receipts: Blank,
) -> Result<Result<Vec<SiteReport>, GatherFault>, Fail>
    requires config { config ≡ E.settings }
    requires entries { (entries.name ≡ E.name) × (entries.parts ≡ E.parts) × (entries.parts ≡ config.sites) }
    requires receipts { (receipts.name ≡ R.name) × (receipts.parts ≡ R.parts) × (receipts.parts ≡ RECEIPT_PARTS) }
{
    let opened: Result<Branch<E, R, G>, AllocError> = Branch::open(
        alloc, config, gate, entries, receipts,
    );
    let Ok(branch) = opened else {
        return Ok(Err(GatherFault::OutOfMemory));
    };
    let seats = case.calls(rt, alloc, &branch);
    gathered_with(alloc, branch, seats)
}

/// The branch after the calls, gathered with the seats that they gave back.
pub fn gathered<G: Gate + Drop, W: Wait + Abort + Print, C: Case>(
    rt: &W,
    alloc: Global,
    config: Config,
    gate: G,
    case: &C,
) -> Result<Result<Vec<SiteReport>, GatherFault>, Fail> {
    let sites = u64::from(config.sites());
    gathered_over::<Brand, Brand, G, W, C>(
        rt,
        alloc,
        config,
        gate,
        case,
        Blank::new(sites),
        Blank::new(RECEIPT_PARTS),
    )
}

/// This number of sites with one account, that starts with nothing.
pub fn some_sites(alloc: Global, sites: u8, limits: Limits) -> Result<Config, Fail> {
    let mut accounts = Vec::new(alloc);
    accounts.push((String::from_str(alloc, "ann")?, 0))?;
    Ok(Config::new(alloc, sites, accounts, limits)?)
}

/// A deposit of this number of cents on the first account.
pub fn deposit(amount: u64) -> Request {
    Request::Deposit {
        account: Place(0),
        amount,
    }
}

/// A deposit of this number of cents at a seat's site. Its receipt's number.
pub fn deposited<E: Entries, R: Ledger, G: Gate + Drop, W: Wait>(
    rt: &W,
    branch: &Branch<E, R, G>,
    seat: &mut Seat<E, R>,
    outbox: &Outbox<E>,
    cents: u64,
) -> Result<u32, CallFault> {
    branch.submit(rt, seat, outbox, deposit(cents))
}

/// A question at a seat's site for the first account's balance. Its receipt's number.
pub fn asked<E: Entries, R: Ledger, G: Gate + Drop, W: Wait>(
    rt: &W,
    branch: &Branch<E, R, G>,
    seat: &mut Seat<E, R>,
) -> Result<u32, CallFault> {
    branch.balance(rt, seat, Place(0))
}

/// The first account's balance is the one that is wanted, as a seat's site answers. The number of the receipt that says
/// so.
pub fn balance_is<E: Entries, R: Ledger, G: Gate + Drop, W: Wait + Abort>(
    rt: &W,
    branch: &Branch<E, R, G>,
    seat: &mut Seat<E, R>,
    cents: u64,
) -> Result<u32, Fail> {
    let number = asked(rt, branch, seat)?;
    let receipt = seat.receipt(number).ok_or("no receipt")?;
    holds(
        rt,
        "the balance",
        receipt.reply.same(&Reply::Balance(cents)),
    );
    Ok(number)
}

/// Links of two sites, of which site 1's is read.
pub fn to_the_second<E: Entries>(alloc: Global) -> Result<(Outbox<E>, Inlet<E>), Fail> {
    let (outbox, mut inlets) = links(alloc, 2)?;
    let inlet = inlets.pop().ok_or("no inlet")?;
    Ok((outbox, inlet))
}

/// Serves a site until its link closes. How many receipts the seat has more.
pub fn served_by<E: Entries, R: Ledger, G: Gate + Drop, W: Wait>(
    rt: &W,
    branch: &Branch<E, R, G>,
    seat: &mut Seat<E, R>,
    inlet: Inlet<E>,
) -> Result<u64, CallFault> {
    branch.serve(rt, seat, inlet)
}

/// The seat, given back alone.
pub fn alone<E: Entries, R: Ledger>(
    alloc: Global,
    seat: Seat<E, R>,
) -> Result<Vec<Seat<E, R>>, Fail> {
    Ok(vec![in alloc; seat]?)
}

/// The receipts of a deposit of 5 cents and then the balance are read by number.
fn are_read_back<E: Entries, R: Ledger>(rt: &impl Abort, seat: &Seat<E, R>) {
    for (number, wanted) in [(0, None), (1, Some(1)), (2, Some(2)), (3, None)] {
        let found = seat.receipt(number).map(|receipt| receipt.number);
        equal(rt, found, wanted);
    }
    if let Some(receipt) = seat.receipt(1) {
        let asked = receipt.event.same(&Event::Submit(deposit(5)));
        holds(rt, "the deposit", asked && receipt.unsent == 0);
    }
}

/// A deposit of 5 cents and then the balance, by one seat.
struct ReadBack;

impl Case for ReadBack {
    fn calls<E: Entries, R: Ledger, G: Gate + Drop, W: Wait + Abort + Print>(
        &self,
        rt: &W,
        alloc: Global,
        branch: &Branch<E, R, G>,
    ) -> Result<Vec<Seat<E, R>>, Fail> {
        let (outbox, _inlet) = to_the_second(alloc)?;
        let mut seat = branch.seat(rt, 0)?;
        let first = deposited(rt, branch, &mut seat, &outbox, 5)?;
        let second = balance_is(rt, branch, &mut seat, 5)?;
        equal(rt, (first, second), (1, 2));
        are_read_back(rt, &seat);
        alone(alloc, seat)
    }
}

#[test]
fn read_back(rt: HostRuntime) -> Result<(), Fail> {
    let config = some_sites(rt.alloc(), 2, Limits::largest())?;
    let reports = gathered(&rt, rt.alloc(), config, NoGate, &ReadBack)??;
    equal(&rt, reports.len(), 2);
    Ok(())
}

/// A seat at a site that doesn't exist, and one seat more than a branch gives.
struct Seats;

impl Case for Seats {
    fn calls<E: Entries, R: Ledger, G: Gate + Drop, W: Wait + Abort + Print>(
        &self,
        rt: &W,
        alloc: Global,
        branch: &Branch<E, R, G>,
    ) -> Result<Vec<Seat<E, R>>, Fail> {
        equal(rt, branch.seat(rt, 2).err(), Some(SeatFault::NoSite));
        let mut seats = Vec::new(alloc);
        for _i in 0..MOST_SEATS {
            let seat = branch.seat(rt, 0)?;
            if seats.push(seat).is_err() {
                return Err(Fail::from("no memory"));
            }
        }
        equal(rt, branch.seat(rt, 1).err(), Some(SeatFault::Full));
        Ok(seats)
    }
}

/// A second entry if the history takes one.
struct Full;

impl Case for Full {
    fn calls<E: Entries, R: Ledger, G: Gate + Drop, W: Wait + Abort + Print>(
        &self,
        rt: &W,
        alloc: Global,
        branch: &Branch<E, R, G>,
    ) -> Result<Vec<Seat<E, R>>, Fail> {
        let mut seat = branch.seat(rt, 0)?;
        equal(rt, branch.apply_ready(rt, &mut seat).ok(), Some(None));
        equal(rt, seat.receipts().len(), 0);
        equal(rt, asked(rt, branch, &mut seat).ok(), Some(1));
        let again = asked(rt, branch, &mut seat);
        equal(rt, again.err(), Some(CallFault::HistoryFull));
        equal(rt, seat.receipts().len(), 1);
        alone(alloc, seat)
    }
}

/// A seat at site 0 and its deposit. Nobody is at the other end of a link.
fn unsent_deposit<E: Entries, R: Ledger, G: Gate + Drop, W: Wait + Abort>(
    rt: &W,
    alloc: Global,
    branch: &Branch<E, R, G>,
) -> Result<Seat<E, R>, Fail> {
    let (outbox, inlets) = links(alloc, 2)?;
    drop(inlets);
    let mut seat = branch.seat(rt, 0)?;
    let number = deposited(rt, branch, &mut seat, &outbox, 1)?;
    let unsent = seat.receipt(number).map(|receipt| receipt.unsent);
    equal(rt, unsent, Some(1));
    Ok(seat)
}

/// A deposit by each of two seats, one of which isn't given back.
struct OneMissing;

impl Case for OneMissing {
    fn calls<E: Entries, R: Ledger, G: Gate + Drop, W: Wait + Abort + Print>(
        &self,
        rt: &W,
        alloc: Global,
        branch: &Branch<E, R, G>,
    ) -> Result<Vec<Seat<E, R>>, Fail> {
        let first = unsent_deposit(rt, alloc, branch)?;
        let _second = unsent_deposit(rt, alloc, branch)?;
        alone(alloc, first)
    }
}

#[test]
fn seat_faults(rt: HostRuntime) -> Result<(), Fail> {
    let alloc = rt.alloc();
    let config = some_sites(alloc, 2, Limits::largest())?;
    holds(
        &rt,
        "gathered",
        gathered(&rt, alloc, config, NoGate, &Seats)?.is_ok(),
    );
    let mut limits = Limits::largest();
    limits.history = 1;
    let config = some_sites(alloc, 2, limits)?;
    holds(
        &rt,
        "gathered",
        gathered(&rt, alloc, config, NoGate, &Full)?.is_ok(),
    );
    let config = some_sites(alloc, 2, Limits::largest())?;
    let missing = gathered(&rt, alloc, config, NoGate, &OneMissing)?;
    equal(&rt, missing.err(), Some(GatherFault::Missing { site: 0 }));
    Ok(())
}
