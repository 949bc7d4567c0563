//! The serving of a site: what comes by its link is received, and what is ready is applied.
ghost use Rattle.std.specs.Prelude.{◌<◌, ℕ, IfNone, IfOk, IfSome, List, OnErr, OnOk, length};
ghost use Rattle.rb_branch.specs.Seats.{AreRefused, HasServed, RefusesOn, receipts_since};
ghost use Rattle.rb_site.specs.declared.message.Message.{Message as MessageOf};

use crate::receiving::serve_step;
use crate::{Branch, CallFault, Entries, Gate, Inlet, Seat};
use std::sync::Wait;
use std::sync::ledger::Ledger;

/// The most steps for which a server keeps its site's lock. Each receives all that the inlet keeps, which is the
/// message that was taken last and those that found the inbox full, and then applies an operation or takes a message.
const MOST_STEPS: u32 = 64;

impl<E: Entries, R: Ledger, G: Gate + Drop> Branch<E, R, G> {
    /// Receives what the inlet keeps and then what comes by its link until it closes, and after each message
    /// applies what is ready. Ok is how many receipts the seat has more. A message that the site refuses as its inbox
    /// is full is received again after each application; if it never finds space it goes with the inlet, and the seat
    /// has a receipt of its refusal. After an `Err` the seat has the receipts of the events before, and what was taken
    /// and not received goes with the inlet: `serve_from` leaves it with the caller.
    ///
    /// The link closes once all outboxes are dropped, so a thread that serves must not hold one of them: it
    /// would wait for itself.
    pub fn serve<W: Wait>(
        &self,
        rt: &W,
        seat: &mut Seat<E, R>,
        inlet: Inlet<E>,
    ) -> Result<u64, CallFault>
        ensures ok { IfOk result (λ n. (left : List MessageOf) × HasServed E.settings seat.old seat.new inlet left n
            × AreRefused (length left) left (receipts_since seat.old seat.new)) }
        ensures err { OnErr result
            ((left : List MessageOf) × (n : ℕ) × HasServed E.settings seat.old seat.new inlet left n) }
    {
        let mut inlet = inlet;
        self.serve_from(rt, seat, &mut inlet)
    }

    /// Serves as `serve` does, but the inlet stays with the caller. A message that the site refuses as its inbox is
    /// full is kept in the inlet, and all that is kept is received again after each application. After an `Err` the
    /// seat has the receipts of the events before, the inlet keeps what was taken and not received, and `serve_from`
    /// may be called again. After Ok the call's own receipts have the refusal of each message that is kept.
    pub fn serve_from<W: Wait>(
        &self,
        rt: &W,
        seat: &mut Seat<E, R>,
        inlet: &mut Inlet<E>,
    ) -> Result<u64, CallFault>
        ensures ok { IfOk result (λ n. HasServed E.settings seat.old seat.new inlet.old inlet.new n) }
        ensures refused { OnOk result (AreRefused (length inlet.new) inlet.new (receipts_since seat.old seat.new)) }
        ensures err { OnErr result ((n : ℕ) × HasServed E.settings seat.old seat.new inlet.old inlet.new n) }
    {
        let before = seat.receipts().len();
        self.serve_all(rt, seat, inlet)?;
        Ok((seat.receipts().len() - before) as u64)
    }

    /// Serves until the link is closed.
    fn serve_all<W: Wait>(
        &self,
        rt: &W,
        seat: &mut Seat<E, R>,
        inlet: &mut Inlet<E>,
    ) -> Result<(), CallFault>
        ensures served { (n : ℕ) × HasServed E.settings seat.old seat.new inlet.old inlet.new n }
        ensures refused { OnOk result (AreRefused (length inlet.new) inlet.new (receipts_since seat.old seat.new)) }
    {
        let mut first: usize = 0;
        for _ in rt.forever() {
            let Some(next) = self.serve_once(rt, seat, inlet, first)? else {
                return Ok(());
            };
            first = next;
        }
        // The rounds of `forever` have no end.
        unreachable!()
    }

    /// Receives what is kept from this index on and applies what is ready. Then waits for the next message: the index
    /// to receive from next. `None` once the link is closed.
    fn serve_once<W: Wait>(
        &self,
        rt: &W,
        seat: &mut Seat<E, R>,
        inlet: &mut Inlet<E>,
        first: usize,
    ) -> Result<Option<usize>, CallFault>
        ensures served { (n : ℕ) × HasServed E.settings seat.old seat.new inlet.old inlet.new n }
        ensures some { IfOk result
            (λ o. IfSome o (λ next. RefusesOn first inlet.old seat.old next inlet.new seat.new)) }
        ensures none { IfOk result
            (λ o. IfNone o (RefusesOn first inlet.old seat.old (length inlet.new) inlet.new seat.new)) }
    {
        let site = seat.site();
        let answer = self.serve_locked(rt, site, seat, inlet, first);
        self.gate.leave(site);
        if let Some(next) = answer? {
            return Ok(Some(next));
        }
        let kept = inlet.kept().len();
        let taken = inlet.take(rt)?;
        if !taken {
            return Ok(None);
        }
        Ok(Some(kept))
    }

    /// The part of serving that is under the site's lock: receives what is kept from this index on and what has come by
    /// the link, and applies what is ready, until `MOST_STEPS` steps are done: the index to receive from next; `None`
    /// once nothing is ready and nothing has come.
    fn serve_locked<W: Wait>(
        &self,
        rt: &W,
        site: u8,
        seat: &mut Seat<E, R>,
        inlet: &mut Inlet<E>,
        first: usize,
    ) -> Result<Option<usize>, CallFault>
        requires { site < E.settings.sites }
        ensures served { (n : ℕ) × HasServed E.settings seat.old seat.new inlet.old inlet.new n }
        ensures some { IfOk result
            (λ o. IfSome o (λ next. RefusesOn first inlet.old seat.old next inlet.new seat.new)) }
        ensures none { IfOk result
            (λ o. IfNone o (RefusesOn first inlet.old seat.old (length inlet.new) inlet.new seat.new)) }
    {
        let mut desk = self.desks[site as usize].lock(rt);
        self.gate.enter(site);
        let mut next = first;
        for _k in 0..MOST_STEPS {
            let Some(index) = serve_step(rt, &mut desk, seat, &self.books, inlet, next)? else {
                return Ok(None);
            };
            next = index;
        }
        Ok(Some(next))
    }
}
