//! Sites opened and closed, and seats given back.
//!
//! Each desk and each seat has one part of a ledger. As they end, their shares are merged, so that the merged share
//! counts every entry or receipt that they have. Closing takes no memory: `Branch::open` took it for the reports. Desks
//! can't be dropped, so sites that were opened before memory ran out are closed too.
ghost use Rattle.std.specs.Prelude.{◌≡◌, ◌+◌, ◌≤◌, [], All, IfOk, vec_capacity, vec_len};
ghost use Rattle.rb_branch.specs.Gathered.{IsClosedReport, entries_in, receipts_in};

use crate::returned_seat::ReturnedSeat;
use crate::{Desk, Entries, Seat};
use rb_money::Config;
use rb_site::{Site, SiteReport};
use std::alloc::{AllocError, Global};
use std::sync::Mutex;
use std::sync::ledger::{Ledger, Share};

/// A desk for each site of the configuration, in order. `Err` means out of memory.
pub(crate) fn open_desks<E: Entries>(
    alloc: Global,
    config: &Config,
    mut rest: Share<E>,
) -> Result<Vec<Mutex<Desk<E>>>, AllocError>
    requires config { config.now ≡ E.settings }
    requires parts { (rest.parts ≡ config.now.sites) × (rest.amount ≡ 0) }
    ensures { IfOk result (λ desks. vec_len desks ≡ E.settings.sites) }
{
    let sites = config.sites();
    let mut desks = Vec::with_capacity(alloc, sites as usize)?;
    for me in 0..sites {
        let Ok(site) = Site::open(alloc, config, me) else {
            end_desks(desks);
            return Err(AllocError);
        };
        let desk = Desk::open(site, rest.split_off(1, 0));
        desks.push_reserved(Mutex::new(desk));
    }
    Ok(desks)
}

/// Closes all sites, and gives their reports up.
fn end_desks<E: Entries>(mut desks: Vec<Mutex<Desk<E>>>) {
    while let Some(desk) = desks.pop() {
        let (_report, _share) = desk.into_inner().close();
    }
    desks.destroy_empty();
}

/// Closes all sites, in order, and merges their shares.
pub(crate) fn close_desks<E: Entries>(
    mut desks: Vec<Mutex<Desk<E>>>,
    mut reports: Vec<SiteReport>,
    mut all: Share<E>,
) -> (Vec<SiteReport>, Share<E>)
    requires none { (all.parts ≡ 0) × (all.amount ≡ 0) }
    requires empty { reports.items ≡ [] }
    requires room { vec_len desks ≤ vec_capacity reports }
    ensures len { vec_len result.0 ≡ vec_len desks }
    ensures share { (result.1.parts ≡ vec_len desks) × (result.1.amount ≡ entries_in result.0.items) }
    ensures reports { All (IsClosedReport E.settings) result.0.items }
{
    let count = desks.len();
    for _k in 0..count {
        let (report, share) = desks.remove(0).into_inner().close();
        all.merge(share);
        reports.push_reserved(report);
    }
    desks.destroy_empty();
    (reports, all)
}

/// Takes all seats back, and merges their shares. `Err` means out of memory.
pub(crate) fn take_back<E: Entries, R: Ledger>(
    alloc: Global,
    seats: Vec<Seat<E, R>>,
    mut all: Share<R>,
) -> Result<(Vec<ReturnedSeat>, Share<R>), AllocError>
    requires { all.parts ≤ R.parts }
    ensures same { IfOk result (λ r. r.0.items ≡ seats.items) }
    ensures share { IfOk result (λ r. (r.1.parts ≡ all.parts + vec_len seats)
        × (r.1.amount ≡ all.amount + receipts_in seats.items)) }
    ensures few { IfOk result (λ r. r.1.parts ≤ R.parts) }
{
    let mut given = Vec::with_capacity(alloc, seats.len())?;
    for seat in seats {
        let (own, share) = seat.give_back();
        all.merge(share);
        given.push_reserved(own);
    }
    Ok((given, all))
}
