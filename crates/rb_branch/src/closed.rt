//! The closed sites of a branch, and the seats that are given back to them.
ghost use Rattle.std.specs.Prelude.{◌≡◌, ◌≢◌, ◌+◌, ◌^◌, ◌<◌, ◌≤◌, ℕ, All, IfOk, IfErr};
ghost use Rattle.std.specs.Prelude.{OnOk, IsTrue, Err, length, vec_len};
ghost use Rattle.rb_branch.specs.Gathered.{AllGathered, Explains, IsClosedReport, IsFirst, IsGathered};
ghost use Rattle.rb_branch.specs.Gathered.{entries_in, receipts_at, receipts_in};
ghost use Rattle.rb_branch.specs.declared.gather_fault.GatherFault.TheVariants.{Missing, Mixed};
ghost use Rattle.rb_branch.specs.declared.limits.TheConstants.{MOST_SEATS};
ghost use Rattle.rb_money.specs.declared.limits.TheConstants.{MOST_SITES};

use crate::closing::take_back;
use crate::merge::merges;
use crate::returned_seat::ReturnedSeat;
use crate::{Books, Entries, GatherFault, Seat};
use rb_site::SiteReport;
use std::alloc::{AllocError, Global};
use std::marker::Model;
use std::sync::ledger::{Ledger, Share};

/// A closed branch, to which seats are given back: the reports of its sites, and its books. Clients see the reports,
/// one for each site, and how many seats were given.
#[derive(Drop)]
pub struct Closed<E: Entries, R: Ledger> {
    alloc: Global,
    books: Books<E, R>,
    reports: Vec<SiteReport>,
    share: Share<E>,
}

impl<E: Entries, R: Ledger> Model for Closed<E, R> {
    ghost use Rattle.std.specs.Prelude.{vec_len};
    ghost use Rattle.rb_branch.specs.Gathered.{AreClosed, SeenClosed};

    ghost Value = { SeenClosed };

    ghost view = { λ c. record { reports = c.reports.items; seats = c.books } };

    ghost invariant = { λ c. AreClosed E.settings E.parts c.reports.items c.share.parts c.share.amount };
}

impl<E: Entries, R: Ledger> Closed<E, R> {
    /// The closed sites' reports and merged shares.
    pub(crate) fn new(
        alloc: Global,
        books: Books<E, R>,
        reports: Vec<SiteReport>,
        share: Share<E>,
    ) -> Closed<E, R>
        requires reports { All (IsClosedReport E.settings) reports.items }
        requires all { (vec_len reports ≡ E.settings.sites) × (vec_len reports ≤ MOST_SITES) }
        requires share { (share.parts ≡ E.parts) × (share.amount ≡ entries_in reports.items) }
        ensures { result ≡ record { reports = reports.items; seats = books } }
    {
        Closed {
            alloc,
            books,
            reports,
            share,
        }
    }

    /// The reports, in the order of the sites.
    pub fn reports(&self) -> &[SiteReport]
        ensures same { result.now ≡ self.now.reports }
        ensures all { length self.now.reports ≡ E.settings.sites }
        ensures closed { All (IsClosedReport E.settings) self.now.reports }
    {
        self.reports.as_slice()
    }

    /// How many seats were given.
    pub fn seats(&self) -> u32
        ensures same { result ≡ self.now.seats }
        ensures few { result ≤ MOST_SEATS }
    {
        self.books.seats()
    }

    /// The reports, if each history is the receipts of the seats given back for it, interleaved. Else the first
    /// site at which it isn't so: if receipts are missing in all, the first at which they are missing or are
    /// others. If every seat is given back, none is missing. `OutOfMemory` if there is no memory to find out.
    pub fn settle(self, seats: Vec<Seat<E, R>>) -> Result<Vec<SiteReport>, GatherFault>
        ensures ok { IfOk result (λ reports. (reports.items ≡ self.reports) × AllGathered reports.items seats.items) }
        ensures err { IfErr result (Explains self.reports seats.items) }
        ensures first { IfErr result (IsFirst self.reports seats.items) }
        ensures every { vec_len seats ≡ self.seats → (site : ℕ) → result ≢ Err (Missing site) }
    {
        let alloc = self.alloc;
        let Ok((reports, given, missing)) = self.take_in(seats) else {
            return Err(GatherFault::OutOfMemory);
        };
        look_at_all(alloc, reports.as_slice(), given.as_slice(), missing)?;
        Ok(reports)
    }

    /// Takes the seats back: the reports, what the seats gave, and whether there are fewer receipts than entries. If
    /// every seat is given back, there are as many. `Err` means out of memory.
    fn take_in(
        self,
        seats: Vec<Seat<E, R>>,
    ) -> Result<(Vec<SiteReport>, Vec<ReturnedSeat>, bool), AllocError>
        ensures reports { IfOk result (λ r. r.0.items ≡ self.reports) }
        ensures given { IfOk result (λ r. r.1.items ≡ seats.items) }
        ensures fits { IfOk result (λ r. receipts_in r.1.items < 2 ^ 64) }
        ensures few { IfOk result (λ r. vec_len r.1 < 2 ^ 16) }
        ensures missing { IfOk result (λ r. IsTrue r.2 → receipts_in r.1.items < entries_in r.0.items) }
        ensures every { IfOk result (λ r. vec_len seats ≡ self.seats → entries_in r.0.items ≤ receipts_in r.1.items) }
    {
        let Closed {
            alloc,
            books,
            reports,
            mut share,
        } = self;
        let (mut entries, mut receipts, rest) = books.apart();
        let (given, mut mine) = take_back(alloc, seats, rest)?;
        entries.audit(&mut share);
        receipts.audit(&mut mine);
        let total = count_entries(reports.as_slice());
        let missing = count_receipts(given.as_slice()) < total;
        Ok((reports, given, missing))
    }
}

/// Looks at all sites, from the first. `missing` says that there are fewer receipts than entries.
fn look_at_all(
    alloc: Global,
    reports: &[SiteReport],
    seats: &[ReturnedSeat],
    missing: bool,
) -> Result<(), GatherFault>
    requires fits { receipts_in seats.now < 2 ^ 64 }
    requires few { length seats.now < 2 ^ 16 }
    requires missing { IsTrue missing → receipts_in seats.now < entries_in reports.now }
    ensures ok { OnOk result (AllGathered reports.now seats.now) }
    ensures err { IfErr result (Explains reports.now seats.now) }
    ensures first { IfErr result (IsFirst reports.now seats.now) }
{
    for k in 0..reports.len() {
        let report = &reports[k];
        look_at(alloc, report, k, seats, missing)?;
    }
    Ok(())
}

/// Looks at the site of this number.
fn look_at(
    alloc: Global,
    report: &SiteReport,
    number: usize,
    seats: &[ReturnedSeat],
    missing: bool,
) -> Result<(), GatherFault>
    requires fits { receipts_in seats.now < 2 ^ 64 }
    requires few { length seats.now < 2 ^ 16 }
    ensures ok { OnOk result ((report.now.me ≡ number) × IsGathered number report.now.history.items seats.now) }
    ensures missing { (s : ℕ) → result ≡ Err (Missing s)
        → (s ≡ number) × (report.now.me ≡ number) × IsTrue missing
        × (receipts_at s seats.now < vec_len report.now.history) }
    ensures mixed { (s : ℕ) → result ≡ Err (Mixed s)
        → (s ≡ number) × ¬ IsGathered s report.now.history.items seats.now }
{
    let site = report.me;
    if usize::from(site) != number {
        // `Branch::open` puts each lock's site at its number, but no type can say so.
        return Err(GatherFault::OutOfMemory);
    }
    if missing && count_at(site, seats) < report.history.len() as u64 {
        return Err(GatherFault::Missing { site });
    }
    match merges(alloc, site, report.history.as_slice(), seats) {
        Ok(true) => Ok(()),
        Ok(false) => Err(GatherFault::Mixed { site }),
        Err(_) => Err(GatherFault::OutOfMemory),
    }
}

/// How many entries there are.
fn count_entries(reports: &[SiteReport]) -> u64
    requires few { length reports.now ≤ MOST_SITES }
    requires short { All (λ r. vec_len r.history < 2 ^ 32) reports.now }
    ensures { result ≡ entries_in reports.now }
{
    let mut count: u64 = 0;
    for report in reports {
        count += report.history.len() as u64;
    }
    count
}

/// How many receipts there are.
fn count_receipts(seats: &[ReturnedSeat]) -> u64
    requires { receipts_in seats.now < 2 ^ 64 }
    ensures { result ≡ receipts_in seats.now }
{
    let mut count: u64 = 0;
    for seat in seats {
        count += seat.receipts().len() as u64;
    }
    count
}

/// How many receipts there are of a site.
fn count_at(site: u8, seats: &[ReturnedSeat]) -> u64
    requires { receipts_in seats.now < 2 ^ 64 }
    ensures { result ≡ receipts_at site seats.now }
{
    let mut count: u64 = 0;
    for seat in seats {
        if seat.site() == site {
            count += seat.receipts().len() as u64;
        }
    }
    count
}
