//! Tests of running out of memory. `refuse_each` and `reserved` pass whether or not an allocation is refused, and at
//! most one of their process is: tests/refuse.py runs them with each refused in turn. `whole_run` passes only if none
//! is refused, and no world stops.
ghost use Rattle.std.specs.Prelude.{◌≡◌, ◌≤◌, [], All, IfOk, length};
ghost use Rattle.rb_ledger.specs.Records.{records_of};
ghost use Rattle.rb_site.specs.Worlds.{IsCommand};

use crate::checks::{equal, equal_at, holds};
use crate::row_texts::ROWS;
use crate::rows::{WorkedRow, row_named, row_of};
use crate::worlds::{
    applied_at_first, apply_next, config_of, opened, same_answers, text_of, undo_last,
};
use rb_ledger::Ledger;
use rb_money::{Config, Place};
use rb_shadow::Shadow;
use rb_site::{Message, Reply, Site, WorldEvent};
use rb_undo::UndoLog;
use rb_world::{Stopped, World};
use std::alloc::{AllocError, Global};
use std::process::Abort;
use std::test::Fail;

/// The result of a call or, if that is refused memory, of the same call once more.
macro_rules! twice {
    ($call:expr) => {
        match $call {
            Ok(given) => given,
            Err(_) => $call?,
        }
    };
}

/// Whether two sites hold the same shadows, of those that a world's messages bring.
fn same_held(site: &Site, other: &Site, world: &World) -> bool {
    let mut same = site.inbox().len() == other.inbox().len();
    for message in world.messages() {
        if let Message::Shadow(shadow) = message {
            let name = &shadow.name;
            same = same & (site.inbox().held(name) == other.inbox().held(name));
        }
    }
    same
}

/// Whether two sites are equal in their operations, balances, counts, clocks, tokens and histories.
fn same_sites(site: &Site, other: &Site) -> bool {
    let mut same = same_answers(site.ledger(), other.ledger())
        & (site.token().view() == other.token().view())
        & (site.token().epoch() == other.token().epoch())
        & (site.history().len() == other.history().len());
    for (entry, it) in site.history().iter().zip(other.history()) {
        same = same & entry.same(it);
    }
    same
}

/// Whether two worlds have a site of this number, and are equal in it.
fn same_at_place(world: &World, other: &World, place: u8) -> bool {
    match (world.site(place), other.site(place)) {
        (Some(site), Some(it)) => same_sites(site, it) & same_held(site, it, world),
        _ => false,
    }
}

/// Whether two worlds are equal in their sites, the messages that were sent and the events.
fn same_worlds(world: &World, other: &World) -> bool {
    let mut same = (world.messages() == other.messages())
        & (world.events().len() == other.events().len());
    for (event, it) in world.events().iter().zip(other.events()) {
        same = same & event.same(it);
    }
    for place in 0..world.config().sites() {
        same = same & same_at_place(world, other, place);
    }
    same
}

/// Whether a world is as one that ran only these events.
fn is_after(alloc: Global, world: &World, events: &[WorldEvent]) -> Result<bool, AllocError>
    requires { All IsCommand events.now }
{
    let config = world.config().try_copy()?;
    let mut other = World::open(alloc, config)?;
    let same = other.run(events).is_ok() && same_worlds(world, &other);
    let _reports = other.close();
    Ok(same)
}

/// Whether these are a row's replies after the first `past`.
fn answers_rest(
    alloc: Global,
    row: &WorkedRow,
    past: usize,
    replies: &[Reply],
) -> Result<bool, AllocError> {
    let text = twice!(text_of(alloc, replies));
    let rest = row.replies.lines().skip(past).count();
    Ok(replies.len() == rest && row.replies.ends_with(text.as_str().trim_end()))
}

/// Whether a world that stopped is as one that ran only the events before, and answers the rest as the row says.
fn goes_on(
    alloc: Global,
    world: &mut World,
    row: &WorkedRow,
    events: &[WorldEvent],
    answered: usize,
) -> Result<bool, AllocError>
    requires commands { All IsCommand events.now }
    requires within { answered ≤ length events.now }
{
    let (before, rest) = events.split_at(answered);
    if !is_after(alloc, world, before)? {
        return Ok(false);
    }
    match world.run(rest) {
        Ok(replies) => answers_rest(alloc, row, answered, replies.as_slice()),
        Err(_) => Ok(false),
    }
}

/// Runs a row's events. How many were answered before memory was refused, if it was.
fn stopped_at(rt: &(impl Abort + AllocGlobal), row: &WorkedRow) -> Result<Option<usize>, Fail> {
    let alloc = rt.alloc();
    let (mut world, events) = twice!(opened(alloc, row.script));
    let events = events.as_slice();
    let (right, stopped) = match world.run(events) {
        Ok(replies) => (answers_rest(alloc, row, 0, replies.as_slice()), None),
        Err(Stopped { answered }) => (
            goes_on(alloc, &mut world, row, events, answered),
            Some(answered),
        ),
    };
    let _reports = world.close();
    holds(rt, row.name, right?);
    Ok(stopped)
}

#[test]
fn refuse_each(rt: HostRuntime) -> Result<(), Fail> {
    for name in [
        "deposit_reaches_the_other_site",
        "two_cancels_of_one_withdrawal",
        "batch_all_or_nothing",
        "as_of_each_position",
    ] {
        let row = row_named(name)?;
        if let Some(answered) = stopped_at(&rt, &row)? {
            let reply = row.replies.lines().nth(answered).ok_or("no such event")?;
            println!(rt; "{name} stopped where it answers {reply}")?;
        }
    }
    Ok(())
}

/// Each worked row is one whole run, which nothing stops.
#[test]
fn whole_run(rt: HostRuntime) -> Result<(), Fail> {
    for lines in ROWS.split("\n\n") {
        let row = row_of(lines).ok_or("no row")?;
        equal_at(&rt, row.name, stopped_at(&rt, &row)?, None);
    }
    Ok(())
}

/// A ledger without operations, with capacity for `count`.
fn roomy_ledger(alloc: Global, config: &Config, count: usize) -> Result<Ledger, AllocError>
    ensures { IfOk result (λ ledger. ledger.entries ≡ []) }
{
    let mut ledger = Ledger::open(alloc, config)?;
    ledger.reserve(count)?;
    Ok(ledger)
}

/// A log without records, with capacity for `count`.
fn roomy_log(alloc: Global, count: usize) -> Result<UndoLog, AllocError>
    ensures { IfOk result (λ log. log.parts ≡ []) }
{
    let mut log = UndoLog::new(alloc);
    match log.reserve(count) {
        Ok(()) => Ok(log),
        Err(refused) => {
            log.close();
            Err(refused)
        }
    }
}

/// Applies the operation and keeps its record. The balance that follows is the one that is wanted.
fn climb(rt: &impl Abort, ledger: &mut Ledger, log: &mut UndoLog, shadow: &Shadow, balance: u64)
    requires { log.old.parts ≡ records_of ledger.old.settings ledger.old.entries }
    ensures { log.new.parts ≡ records_of ledger.new.settings ledger.new.entries }
{
    assert!(rt; apply_next(ledger, log, shadow));
    equal(rt, ledger.balance(Place(0)), Some(balance));
}

/// Undoes the last operation. The balance that was before it, and how often the first was cancelled then, are those
/// that are wanted.
fn descend(
    rt: &impl Abort,
    ledger: &mut Ledger,
    log: &mut UndoLog,
    balance: u64,
    count: Option<u32>,
)
    requires { log.old.parts ≡ records_of ledger.old.settings ledger.old.entries }
    ensures { log.new.parts ≡ records_of ledger.new.settings ledger.new.entries }
{
    holds(rt, "undone", undo_last(ledger, log));
    let seen = (ledger.balance(Place(0)), ledger.count(1));
    equal_at(rt, "undo_two", seen, (Some(balance), count));
}

/// Rewinds to a position and goes forward again. The balance there is the one that is wanted.
fn look_back(
    rt: &impl Abort,
    ledger: Ledger,
    log: UndoLog,
    position: u32,
    balance: u64,
) -> (Ledger, UndoLog)
    requires { log.parts ≡ records_of ledger.settings ledger.entries }
    ensures ledger { result.0 ≡ ledger }
    ensures log { result.1 ≡ log }
{
    match ledger.rewind(log, position) {
        Ok(rewound) => {
            let seen = (rewound.position(), rewound.balance(Place(0)));
            equal(rt, seen, (position, Some(balance)));
            rewound.forward()
        }
        Err((ledger, log, _)) => {
            holds(rt, "such a position", false);
            (ledger, log)
        }
    }
}

/// A withdrawal of 300 from 1,000 and two cancellations of it, of which only the first moves money, are applied,
/// rewound and undone.
fn up_and_down(rt: &impl Abort, mut ledger: Ledger, mut log: UndoLog, shadows: [&Shadow; 3])
    requires { log.parts ≡ records_of ledger.settings ledger.entries }
{
    let [withdrawal, cancel, again] = shadows;
    climb(rt, &mut ledger, &mut log, withdrawal, 700);
    climb(rt, &mut ledger, &mut log, cancel, 1000);
    climb(rt, &mut ledger, &mut log, again, 1000);
    let (ledger, log) = look_back(rt, ledger, log, 0, 1000);
    let (ledger, log) = look_back(rt, ledger, log, 1, 700);
    let (ledger, log) = look_back(rt, ledger, log, 2, 1000);
    let (mut ledger, mut log) = look_back(rt, ledger, log, 3, 1000);
    descend(rt, &mut ledger, &mut log, 1000, Some(1));
    descend(rt, &mut ledger, &mut log, 700, Some(0));
    descend(rt, &mut ledger, &mut log, 1000, None);
    log.close();
}

/// Once there is capacity for them, operations are applied, rewound and undone without memory.
#[test]
fn reserved(rt: HostRuntime) -> Result<(), Fail> {
    let script = row_named("two_cancels_of_one_withdrawal")?.script;
    let applied = twice!(applied_at_first(rt.alloc(), script));
    let [withdrawal, cancel, again] = applied.as_slice() else {
        return Err(Fail::from("not three operations"));
    };
    let config = twice!(config_of(rt.alloc(), script));
    let ledger = twice!(roomy_ledger(rt.alloc(), &config, 3));
    let log = twice!(roomy_log(rt.alloc(), 3));
    up_and_down(&rt, ledger, log, [withdrawal, cancel, again]);
    Ok(())
}
