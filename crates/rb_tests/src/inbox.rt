//! Tests of the inbox. Which of the operations that are ready at once goes first is in tests/sites.py, and two hundred
//! that come backwards in tests/cases.py.
ghost use Rattle.rb_shadow.specs.Operations.{HasEntry};
ghost use Rattle.rb_inbox.specs.Held.{IsNumbered};

use crate::checks::equal;
use rb_inbox::{Inbox, PutAnswer};
use rb_money::{MOST_SITES, Place, Refusal};
use rb_shadow::{Deps, Kind, OpName, Shadow};
use rb_vclock::Clock;

/// The deposit of site 0 after this number of others, of an amount in cents.
fn deposit(before: u8, amount: u64) -> Shadow
    ensures numbered { IsNumbered result }
    ensures entry { HasEntry result.name }
{
    let mut blue = [0; MOST_SITES];
    blue[0] = u32::from(before);
    Shadow {
        name: OpName::Blue {
            site: 0,
            n: u32::from(before) + 1,
        },
        home: 0,
        deps: Deps { blue, red: 0 },
        account: Place(0),
        amount,
        kind: Kind::Deposit,
    }
}

/// Deposits that come to an inbox of one, each with the answer. The first of site 0 is ready, and is held although the
/// inbox is full.
const PUT: [(u8, u64, Result<PutAnswer, Refusal>); 5] = [
    (1, 5, Ok(PutAnswer::Held)),
    (2, 5, Err(Refusal::InboxFull)),
    (1, 5, Ok(PutAnswer::Already)),
    (1, 6, Err(Refusal::Conflict)),
    (0, 5, Ok(PutAnswer::Held)),
];

/// Those that are taken then, each with why it is refused.
const TAKEN: [(u8, Option<Refusal>); 3] = [
    (1, Some(Refusal::NotReady)),
    (0, None),
    (0, Some(Refusal::NotHeld)),
];

#[test]
fn holds_until_ready(rt: HostRuntime) {
    let mut clock = Clock::zero();
    let mut inbox = Inbox::open(rt.alloc(), 1);
    for (before, amount, answer) in PUT {
        equal(&rt, inbox.put(deposit(before, amount), &clock), answer);
    }
    equal(&rt, inbox.ready(&clock), Some(deposit(0, 5).name));
    for (before, refusal) in TAKEN {
        let taken = inbox.take(deposit(before, 5).name, &clock);
        equal(&rt, taken.err(), refusal);
    }
    equal(&rt, inbox.len(), 1);
    equal(&rt, inbox.next_ready(&clock), None);
    clock.advance(&OpName::Blue { site: 0, n: 1 });
    equal(&rt, inbox.next_ready(&clock), Some(deposit(1, 5).name));
}
