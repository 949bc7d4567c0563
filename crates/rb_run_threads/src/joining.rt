//! Threads joined, and their seats put together.
//!
//! All threads are joined before the fault of one is returned. Seats stay in the order of the handles: by its place a
//! seat is known to be as its thread promised.
ghost use Rattle.std.specs.Prelude.{◌≡◌, ◌++◌, ℕ, map, IfOk, Ok, Some, vec_len, slice_get};
ghost use Rattle.rb_branch.specs.Seats.{SeenSeat};

use rb_branch::{CallFault, Entries, Seat, TellersFault};
use std::alloc::Global;
use std::sync::ledger::Ledger;
use std::thread;
use std::thread::{Promise, PromisedHandle, Threads};

/// Waits for all threads. Each gives its seat back, in the order of the handles, as it promised.
pub(crate) fn join<E: Entries, R: Ledger, P: Promise<Result<Seat<E, R>, CallFault>>, W: Threads>(
    rt: &W,
    alloc: Global,
    handles: Vec<PromisedHandle<Result<Seat<E, R>, CallFault>, P>>,
) -> Result<Vec<Seat<E, R>>, TellersFault>
    ensures len { IfOk result (λ v. vec_len v ≡ vec_len handles) }
    ensures each { IfOk result (λ v. (k : ℕ) (seat : SeenSeat) → slice_get v.items k ≡ Some seat
        → (h : _) × (slice_get handles.items k ≡ Some h) × P.kept_by h.promise (Ok seat)) }
{
    let Ok(results) = thread::join_promised(rt, handles) else {
        return Err(TellersFault::OutOfMemory);
    };
    all_ok(alloc, results)
}

/// The seats, if every thread gave one back.
fn all_ok<E: Entries, R: Ledger>(
    alloc: Global,
    results: Vec<Result<Seat<E, R>, CallFault>>,
) -> Result<Vec<Seat<E, R>>, TellersFault>
    ensures { IfOk result (λ v. map Ok v.items ≡ results.items) }
{
    let mut seats = Vec::with_capacity(alloc, results.len())?;
    for outcome in results {
        let seat = outcome?;
        seats.push_reserved(seat);
    }
    Ok(seats)
}

/// All seats, the tellers' first.
pub(crate) fn together<E: Entries, R: Ledger>(
    mut tellers: Vec<Seat<E, R>>,
    servers: Vec<Seat<E, R>>,
) -> Result<Vec<Seat<E, R>>, TellersFault>
    ensures { IfOk result (λ v. v.items ≡ tellers.items ++ servers.items) }
{
    tellers.reserve(servers.len())?;
    for seat in servers {
        tellers.push_reserved(seat);
    }
    Ok(tellers)
}
