//! The steps of a server at its desk while it has the site's lock.
//!
//! A message that finds the inbox full stays in the inlet. All that is kept is received again after each application,
//! as a later one may be ready first. Until then each is received once: the index says which were refused already.
ghost use Rattle.std.specs.Prelude.{◌≡◌, ◌<◌, ◌+◌, ◌^◌, ℕ, Err, IfNone, IfOk, IfSome, MatchOption, OnErr, OnOk, length};
ghost use Rattle.rb_site.specs.Ready.{NoneIsReady};
ghost use Rattle.rb_site.specs.Seen.{state_of};
ghost use Rattle.rb_branch.specs.Seats.{AppliesNext, CannotRecord, HasOneMore, HasServed, IsApply};
ghost use Rattle.rb_branch.specs.Seats.{RefusesOn};
ghost use Rattle.rb_branch.specs.declared.call_fault.CallFault.TheVariants.{HistoryFull};

use crate::{Books, CallFault, Desk, Entries, Inlet, Seat, record, record_ready};
use rb_site::Event;
use std::sync::ledger::Ledger;
use std::sync::{Mutex, Wait};

/// Receives what is kept from this index on. Then applies what is ready or, if nothing is, takes the next message that
/// has come: the index to receive from next, which after an application is that of all. `None` if nothing has come.
pub(crate) fn serve_step<E: Entries, R: Ledger, W: Wait>(
    rt: &W,
    desk: &mut Desk<E>,
    seat: &mut Seat<E, R>,
    books: &Mutex<Books<E, R>>,
    inlet: &mut Inlet<E>,
    first: usize,
) -> Result<Option<usize>, CallFault>
    ensures served { (n : ℕ) × HasServed E.settings seat.old seat.new inlet.old inlet.new n }
    ensures some { IfOk result (λ o. IfSome o (λ next. RefusesOn first inlet.old seat.old next inlet.new seat.new)) }
    ensures none { IfOk result
        (λ o. IfNone o (RefusesOn first inlet.old seat.old (length inlet.new) inlet.new seat.new)) }
{
    receive_from(rt, desk, seat, books, inlet, first)?;
    if apply_at(rt, desk, seat, books)?.is_some() {
        return Ok(Some(0));
    }
    let kept = inlet.kept().len();
    let taken = inlet.take_come(rt)?;
    if !taken {
        return Ok(None);
    }
    Ok(Some(kept))
}

/// Receives each kept message once, from this index on.
fn receive_from<E: Entries, R: Ledger, W: Wait>(
    rt: &W,
    desk: &mut Desk<E>,
    seat: &mut Seat<E, R>,
    books: &Mutex<Books<E, R>>,
    inlet: &mut Inlet<E>,
    first: usize,
) -> Result<(), CallFault>
    ensures served { (n : ℕ) × HasServed E.settings seat.old seat.new inlet.old inlet.new n }
    ensures refused { OnOk result (RefusesOn first inlet.old seat.old (length inlet.new) inlet.new seat.new) }
{
    let mut index = first;
    while index < inlet.kept().len() {
        index = receive_at(rt, desk, seat, books, inlet, index)?;
    }
    Ok(())
}

/// Receives the kept message at this index. It stays if the inbox is full, and goes otherwise: the index
/// of the next.
fn receive_at<E: Entries, R: Ledger, W: Wait>(
    rt: &W,
    desk: &mut Desk<E>,
    seat: &mut Seat<E, R>,
    books: &Mutex<Books<E, R>>,
    inlet: &mut Inlet<E>,
    index: usize,
) -> Result<usize, CallFault>
    requires within { index < length inlet.old }
    requires fits { index + 1 < 2 ^ 64 }
    ensures served { (n : ℕ) × HasServed E.settings seat.old seat.new inlet.old inlet.new n }
    ensures refused { IfOk result (λ next. RefusesOn index inlet.old seat.old next inlet.new seat.new) }
    ensures fewer { IfOk result (λ next. length inlet.new + index < length inlet.old + next) }
{
    let message = inlet.message(index);
    let _made = record(rt, desk, seat, books, Event::Receive(message))?;
    if seat.found_full() {
        return Ok(index + 1);
    }
    inlet.let_go(index);
    Ok(index)
}

/// Applies what is ready, if anything is: its receipt's number in the seat, from 1.
pub(crate) fn apply_at<E: Entries, R: Ledger, W: Wait>(
    rt: &W,
    desk: &mut Desk<E>,
    seat: &mut Seat<E, R>,
    books: &Mutex<Books<E, R>>,
) -> Result<Option<u32>, CallFault>
    ensures ok { IfOk result
        (λ o. MatchOption o (seat.new ≡ seat.old) (λ n. HasOneMore seat.old seat.new IsApply n)) }
    ensures next { IfOk result (λ o. IfSome o (λ n. AppliesNext desk.old desk.new seat.old seat.new n)) }
    ensures none { IfOk result (λ o. IfNone o (NoneIsReady (state_of desk.old))) }
    ensures err { OnErr result (seat.new ≡ seat.old) }
    ensures full { result ≡ Err HistoryFull → CannotRecord desk.old seat.old }
{
    match record_ready(rt, desk, seat, books)? {
        Some((number, _posted)) => Ok(Some(number)),
        None => Ok(None),
    }
}
