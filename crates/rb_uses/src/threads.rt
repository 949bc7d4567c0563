//! A branch of two sites: a deposit at the one while a thread serves the other.
ghost use Rattle.std.specs.Prelude.{◌≡◌, [], List, All, IfOk, vec_len};
ghost use Rattle.rb_branch.specs.Gathered.{AllGathered, IsClosedReport};
ghost use Rattle.rb_branch.specs.Seats.{SeenSeat};
ghost use Rattle.rb_branch.specs.declared.limits.TheConstants.{RECEIPT_PARTS};
ghost use Rattle.rb_uses.specs.Bank.{bank};
ghost use Rattle.rb_uses.specs.Served.{AreBoth, IsDepositor, IsAttendant};

use crate::bank::{ANN, config};
use rb_branch::{
    Branch, CallFault, Entries, GatherFault, Inlet, NoGate, Outbox, RECEIPT_PARTS, Seat,
    TellersFault, links,
};
use rb_money::Config;
use rb_scratch::Request;
use rb_site::SiteReport;
use std::alloc::Global;
use std::marker::Brand;
use std::sync::Wait;
use std::sync::ledger::{Blank, Ledger};
use std::thread;
use std::thread::Threads;

/// A deposit at site 0 while a thread serves site 1. Once both have ended the sites are closed, and their
/// reports are given in order: the history of site 0 is the deposit, and that of site 1 what was served.
///
/// An `Err` comes once the thread has ended and the sites are closed.
pub fn deposit_while_served<W: Threads + Wait + Sync>(
    rt: &W,
    alloc: Global,
    amount: u64,
) -> Result<Vec<SiteReport>, TellersFault>
    ensures all { IfOk result (λ reports. vec_len reports ≡ 2) }
    ensures closed { IfOk result (λ reports. All (IsClosedReport bank) reports.items) }
    ensures gathered { IfOk result (λ reports. (seats : List SeenSeat) × AreBoth amount seats
        × AllGathered reports.items seats) }
{
    let config = config(alloc)?;
    let entries = Blank::new(2);
    let receipts = Blank::new(RECEIPT_PARTS);
    with_branch::<Brand, Brand, W>(rt, alloc, config, amount, entries, receipts)
}

/// Makes the deposit of `deposit_while_served`, at a branch with these ledgers of the entries and the receipts.
fn with_branch<E: Entries + Send + Sync, R: Ledger + Send + Sync, W: Threads + Wait + Sync>(
    rt: &W,
    alloc: Global,
    config: Config,
    amount: u64,
    entries: Blank,
    receipts: Blank,
) -> Result<Vec<SiteReport>, TellersFault>
    requires config { config ≡ E.settings }
    requires bank { config ≡ bank }
    requires entries { (entries.name ≡ E.name) × (entries.parts ≡ E.parts) × (entries.parts ≡ config.sites) }
    requires receipts { (receipts.name ≡ R.name) × (receipts.parts ≡ R.parts) × (receipts.parts ≡ RECEIPT_PARTS) }
    ensures all { IfOk result (λ reports. vec_len reports ≡ 2) }
    ensures closed { IfOk result (λ reports. All (IsClosedReport bank) reports.items) }
    ensures gathered { IfOk result (λ reports. (seats : List SeenSeat) × AreBoth amount seats
        × AllGathered reports.items seats) }
{
    let branch: Branch<E, R, NoGate> = Branch::open(alloc, config, NoGate, entries, receipts)?;
    match both(rt, alloc, &branch, amount) {
        Ok(seats) => match branch.gather(seats) {
            Ok(reports) => Ok(reports),
            Err(GatherFault::OutOfMemory) => Err(TellersFault::OutOfMemory),
            Err(_) => Err(TellersFault::Gather),
        },
        Err(fault) => {
            let _closed = branch.close();
            Err(fault)
        }
    }
}

/// The depositor's seat and the server's, once both have ended: the link closes as the depositor's end is
/// dropped, and the server ends then.
fn both<E: Entries + Send + Sync, R: Ledger + Send + Sync, W: Threads + Wait + Sync>(
    rt: &W,
    alloc: Global,
    branch: &Branch<E, R, NoGate>,
    amount: u64,
) -> Result<Vec<Seat<E, R>>, TellersFault>
    ensures { IfOk result (λ seats. AreBoth amount seats.items) }
{
    let mut seats = Vec::with_capacity(alloc, 2)?;
    let (outbox, mut inlets) = links(alloc, 2)?;
    let inlet = inlets.remove(1);
    let (Ok(here), Ok(there)) = (branch.seat(rt, 0), branch.seat(rt, 1)) else {
        return Err(TellersFault::OutOfMemory);
    };
    let (served, deposited) = thread::join(
        rt,
        move || -> Result<Seat<E, R>, CallFault>
            requires { there ≡ record { site = 1; receipts = [] } }
            ensures { IfOk result IsAttendant }
        { serve(rt, branch, there, inlet) },
        move || -> Result<Seat<E, R>, CallFault>
            requires { here ≡ record { site = 0; receipts = [] } }
            ensures { IfOk result (IsDepositor amount) }
        { deposit(rt, branch, here, outbox, amount) },
    );
    let (depositor, server) = (deposited?, served?);
    seats.push_reserved(depositor);
    seats.push_reserved(server);
    Ok(seats)
}

/// Serves site 1 until its link closes.
fn serve<E: Entries, R: Ledger, W: Wait>(
    rt: &W,
    branch: &Branch<E, R, NoGate>,
    mut seat: Seat<E, R>,
    inlet: Inlet<E>,
) -> Result<Seat<E, R>, CallFault>
    requires { seat ≡ record { site = 1; receipts = [] } }
    ensures { IfOk result IsAttendant }
{
    let _count = branch.serve(rt, &mut seat, inlet)?;
    Ok(seat)
}

/// A deposit at site 0, which goes out to site 1.
fn deposit<E: Entries, R: Ledger, W: Wait>(
    rt: &W,
    branch: &Branch<E, R, NoGate>,
    mut seat: Seat<E, R>,
    outbox: Outbox<E>,
    amount: u64,
) -> Result<Seat<E, R>, CallFault>
    requires { seat ≡ record { site = 0; receipts = [] } }
    ensures { IfOk result (IsDepositor amount) }
{
    let request = Request::Deposit {
        account: ANN,
        amount,
    };
    let _number = branch.submit(rt, &mut seat, &outbox, request)?;
    Ok(seat)
}
