//! Tellers.
//!
//! Each call follows from a teller's number and the name of the last operation that it made, and from nothing else. So
//! the contract names every call, and one can find a teller's calls again in the histories of a run.
ghost use Rattle.std.specs.Prelude.{◌≡◌, ◌<◌, ◌++◌, ◌∷◌, [], List, IfOk};
ghost use Rattle.rb_branch.specs.declared.receipt.Receipt.{Receipt};
ghost use Rattle.rb_run_threads.specs.Tellers.{IsTeller, call_of, cancel_or, last_after, next_number};

use rb_branch::{Branch, CallFault, Entries, Gate, Outbox, Seat};
use rb_money::Place;
use rb_scratch::Request;
use rb_shadow::OpName;
use rb_site::{Event, Reply};
use std::sync::Wait;
use std::sync::ledger::Ledger;

/// How many calls a teller makes.
pub const CALLS: u8 = 100;

/// The factor that a teller's number is multiplied by, modulo 2^64, for the next one.
pub const MULTIPLIER: u64 = 6_364_136_223_846_793_005;

/// The number that is added then.
pub const INCREMENT: u64 = 1_442_695_040_888_963_407;

/// A teller's calls, one after another, each chosen by the next number and the name of the last operation
/// that it made; one that is refused is followed by the next. The seat comes back with a receipt for each.
pub(crate) fn make_calls<E: Entries, R: Ledger, G: Gate + Drop, W: Wait>(
    rt: &W,
    branch: &Branch<E, R, G>,
    mut seat: Seat<E, R>,
    outbox: Outbox<E>,
    first: u64,
    sites: u8,
) -> Result<Seat<E, R>, CallFault>
    requires fresh { seat.receipts ≡ [] }
    requires within { seat.site < sites }
    ensures { IfOk result (IsTeller first seat.site sites) }
{
    let site = seat.site();
    let mut x = first;
    let mut last = None;
    for _i in 0..CALLS {
        x = next_x(x);
        let event = call_at(x, last, site, sites);
        let _number = branch.send(rt, &mut seat, &outbox, event)?;
        last = last_made(&seat, last);
    }
    Ok(seat)
}

/// The number after this one.
#[tactic(auto, unfolding(crate::specs::Tellers::next_number))]
fn next_x(x: u64) -> u64
    ensures { result ≡ next_number x }
{
    x.wrapping_mul(MULTIPLIER).wrapping_add(INCREMENT)
}

/// The call at this number, by a teller of this site, of a bank of `sites`, who last made the operation of this name.
#[tactic(auto, unfolding(crate::specs::Tellers::call_of))]
fn call_at(x: u64, last: Option<OpName>, site: u8, sites: u8) -> Event
    requires { site < sites }
    ensures { result ≡ call_of x last site sites }
{
    let r = x / 8_589_934_592;
    let q = r / 8;
    let kind = r % 8;
    let account = Place((r / 8192 % 4) as u16);
    if kind < 4 {
        Event::Submit(Request::Deposit {
            account,
            amount: 1 + q % 1000,
        })
    } else if kind == 4 {
        Event::Submit(Request::Withdraw {
            account,
            amount: 1 + q % 500,
        })
    } else if kind == 5 {
        Event::Submit(Request::Interest {
            account,
            rate: (q % 200) as u32,
        })
    } else if kind == 6 {
        Event::Submit(cancel_last(account, last))
    } else {
        Event::Pass((site + 1) % sites)
    }
}

/// A cancellation of the last name, or a deposit of 1 if there is no name.
fn cancel_last(account: Place, last: Option<OpName>) -> Request
    ensures { result ≡ cancel_or account last }
{
    match last {
        Some(target) => Request::Cancel { target },
        None => Request::Deposit { account, amount: 1 },
    }
}

/// The name of the operation that the last receipt says was made, or else the last name before it.
fn last_made<E: Entries, R: Ledger>(seat: &Seat<E, R>, last: Option<OpName>) -> Option<OpName>
    ensures { (xs : List Receipt) (r : Receipt) → seat.now.receipts ≡ xs ++ r ∷ [] → result ≡ last_after last r.reply }
{
    match seat.receipts().last() {
        Some(receipt) => match &receipt.reply {
            Reply::Made { name, .. } => Some(*name),
            _ => last,
        },
        None => last,
    }
}
