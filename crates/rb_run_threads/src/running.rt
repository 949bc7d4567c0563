//! A run: tellers and serving threads over a branch of their own.
ghost use Rattle.std.specs.Prelude.{◌≡◌, ◌<◌, ℕ, List, All, IfOk, Some, vec_len, slice_get};
ghost use Rattle.rb_branch.specs.Gathered.{AllGathered, IsClosedReport};
ghost use Rattle.rb_branch.specs.Seats.{SeenSeat};
ghost use Rattle.rb_branch.specs.declared.limits.TheConstants.{RECEIPT_PARTS};
ghost use Rattle.rb_run_threads.specs.Tellers.{IsCrew, TellersAt};
ghost use Rattle.rb_site.specs.declared.report.SiteReport.{SiteReport};

use crate::crew::Crew;
use rb_branch::{Branch, Entries, Gate, GatherFault, RECEIPT_PARTS, Seat, TellersFault};
use rb_money::Config;
use rb_site::SiteReport;
use std::alloc::Global;
use std::marker::Brand;
use std::sync::Wait;
use std::sync::ledger::{Blank, Ledger};
use std::thread;
use std::thread::Threads;

/// Runs tellers at the sites of a configuration, each in a thread of its own, and a serving thread for each
/// site. Teller `t`, from 0, is at site `t` modulo the number of sites, and its first number is `seed + t`. Once
/// all have ended the sites are closed, and their reports are given in order.
///
/// Tellers call at the accounts of the places 0 to 3: with fewer accounts, calls at the missing ones are refused with
/// `UnknownAccount`.
///
/// An `Err` comes once all threads have ended and all sites are closed. The gate is called with each call.
pub fn run_bank<G: Gate + Drop + Sync, W: Threads + Wait + Sync>(
    rt: &W,
    alloc: Global,
    config: Config,
    gate: G,
    tellers: u8,
    seed: u32,
) -> Result<Vec<SiteReport>, TellersFault>
    ensures all { IfOk result (λ reports. vec_len reports ≡ config.sites) }
    ensures closed { IfOk result (λ reports. All (IsClosedReport config) reports.items) }
    ensures gathered { IfOk result (λ reports. (seats : List SeenSeat) × IsCrew seed tellers config.sites seats
        × AllGathered reports.items seats) }
    ensures tellers { IfOk result (λ reports. (k : ℕ) (r : SiteReport) → slice_get reports.items k ≡ Some r
        → (r.me ≡ k) × TellersAt seed tellers config.sites k r.history.items) }
{
    let entries = Blank::new(u64::from(config.sites()));
    let receipts = Blank::new(RECEIPT_PARTS);
    run_with::<Brand, Brand, G, W>(rt, alloc, config, gate, tellers, seed, entries, receipts)
}

/// Runs tellers as `run_bank` does, with these ledgers of the entries and the receipts.
fn run_with<
    E: Entries + Send + Sync,
    R: Ledger + Send + Sync,
    G: Gate + Drop + Sync,
    W: Threads + Wait + Sync,
>(
    rt: &W,
    alloc: Global,
    config: Config,
    gate: G,
    tellers: u8,
    seed: u32,
    entries: Blank,
    receipts: Blank,
) -> Result<Vec<SiteReport>, TellersFault>
    requires config { config ≡ E.settings }
    requires entries { (entries.name ≡ E.name) × (entries.parts ≡ E.parts) × (entries.parts ≡ config.sites) }
    requires receipts { (receipts.name ≡ R.name) × (receipts.parts ≡ R.parts) × (receipts.parts ≡ RECEIPT_PARTS) }
    ensures all { IfOk result (λ reports. vec_len reports ≡ config.sites) }
    ensures closed { IfOk result (λ reports. All (IsClosedReport config) reports.items) }
    ensures gathered { IfOk result (λ reports. (seats : List SeenSeat) × IsCrew seed tellers config.sites seats
        × AllGathered reports.items seats) }
{
    let sites = config.sites();
    let branch: Branch<E, R, G> = Branch::open(alloc, config, gate, entries, receipts)?;
    match run_branch(rt, alloc, &branch, sites, tellers, seed) {
        Ok(seats) => match branch.gather(seats) {
            Ok(reports) => Ok(reports),
            Err(GatherFault::OutOfMemory) => Err(TellersFault::OutOfMemory),
            Err(_) => Err(TellersFault::Gather),
        },
        Err(fault) => {
            let _closed = branch.close();
            Err(fault)
        }
    }
}

/// Runs all threads over a branch, and gives their seats back.
fn run_branch<
    E: Entries + Send + Sync,
    R: Ledger + Send + Sync,
    G: Gate + Drop + Sync,
    W: Threads + Wait + Sync,
>(
    rt: &W,
    alloc: Global,
    branch: &Branch<E, R, G>,
    sites: u8,
    tellers: u8,
    seed: u32,
) -> Result<Vec<Seat<E, R>>, TellersFault>
    requires { 0 < sites }
    ensures { IfOk result (λ seats. IsCrew seed tellers sites seats.items) }
{
    thread::scope(
        thread::scope_env(),
        rt,
        |scope| -> Result<Vec<Seat<E, R>>, TellersFault>
            requires { 0 < sites }
            ensures { IfOk result (λ seats. IsCrew seed tellers sites seats.items) }
        {
            let crew = Crew {
                scope,
                rt,
                alloc,
                branch,
                sites,
            };
            crew.run(tellers, seed)
        },
    )
}
