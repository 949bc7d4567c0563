//! Serving threads.
ghost use Rattle.std.specs.Prelude.{◌≡◌, [], IfOk};
ghost use Rattle.rb_run_threads.specs.Tellers.{IsServer};

use rb_branch::{Branch, CallFault, Entries, Gate, Inlet, Seat};
use std::sync::Wait;
use std::sync::ledger::Ledger;

/// Serves the seat's site until its link closes. The seat comes back with a receipt for each message that came
/// and each operation that was applied. A message that its inbox never had space for goes with the inlet: its
/// receipts are refusals.
pub(crate) fn attend<E: Entries, R: Ledger, G: Gate + Drop, W: Wait>(
    rt: &W,
    branch: &Branch<E, R, G>,
    mut seat: Seat<E, R>,
    inlet: Inlet<E>,
) -> Result<Seat<E, R>, CallFault>
    requires { seat.receipts ≡ [] }
    ensures { IfOk result (IsServer seat.site) }
{
    let _count = branch.serve(rt, &mut seat, inlet)?;
    Ok(seat)
}
