//! Worked rows through seats and links. A delivery is of what the links brought, in the order of sending, and an
//! application is of what the site has ready.
//!
//! `refuse_seats` passes whether or not an allocation is refused, and at most one of its process is:
//! tests/refuse.py runs it with each refused in turn.

use crate::branch::{Case, gathered};
use crate::checks::{equal, holds};
use rb_branch::{
    Branch, CallFault, Entries, Gate, GatherFault, Inlet, NoGate, Outbox, Seat, links,
};
use rb_history::{LineFault, append_reply, read_command, read_config};
use rb_money::Config;
use rb_scratch::Request;
use rb_site::{Event, Message, Reply, SiteReport, WorldEvent};
use rb_tests::rows::{WorkedRow, row_named};
use std::alloc::{AllocError, Global};
use std::process::Abort;
use std::sync::Wait;
use std::sync::ledger::Ledger;
use std::test::Fail;

/// The result of a call or, if that is refused memory, of the same call once more.
macro_rules! twice {
    ($call:expr) => {
        match $call {
            Ok(given) => given,
            Err(_) => $call?,
        }
    };
}

/// What a row is run with: a seat at each of two sites, their links, what these brought so far, and a reply's bytes.
#[derive(Drop)]
struct Desks<E: Entries, R: Ledger> {
    seats: Vec<Seat<E, R>>,
    outbox: Outbox<E>,
    inlets: Vec<Inlet<E>>,
    sent: Vec<Message>,
    /// A link refused a message, which it does only if memory is refused. Those after it have other numbers.
    lost: bool,
    bytes: Vec<u8>,
}

/// The call that an event is. Its receipt's place in the seat, or `None` if nothing is to be applied.
fn called<E: Entries, R: Ledger, G: Gate + Drop, W: Wait>(
    rt: &W,
    branch: &Branch<E, R, G>,
    seat: &mut Seat<E, R>,
    outbox: &Outbox<E>,
    event: Event,
) -> Result<Option<u32>, CallFault> {
    let number = match event {
        Event::Submit(Request::Cancel { target }) => branch.cancel(rt, seat, outbox, target),
        Event::Submit(request) => branch.submit(rt, seat, outbox, request),
        Event::Batch(requests) => branch.batch(rt, seat, outbox, requests),
        Event::Receive(message) => branch.receive(rt, seat, message),
        Event::Apply(_) => return branch.apply_ready(rt, seat),
        Event::Pass(to) => branch.pass(rt, seat, outbox, to),
        Event::Balance(place) => branch.balance(rt, seat, place),
        Event::AsOf(place, position) => branch.as_of(rt, seat, place, position),
        Event::Statement(place) => branch.statement(rt, seat, place),
    };
    Ok(Some(number?))
}

/// How many messages go out with a reply.
fn sent_with(reply: &Reply) -> usize {
    match reply {
        Reply::Made { .. } | Reply::Passed(_) => 1,
        Reply::Names(names) => names.as_slice().len(),
        _ => 0,
    }
}

/// Takes in what a link brought with a reply. Whether all came.
fn take_in<E: Entries, W: Wait>(
    rt: &W,
    inlet: &mut Inlet<E>,
    sent: &mut Vec<Message>,
    reply: &Reply,
) -> bool {
    for _i in 0..sent_with(reply) {
        let Some(message) = inlet.next(rt) else {
            return false;
        };
        if sent.push(message).is_err() {
            return false;
        }
    }
    true
}

/// The event that a command is, and its site. `None` if a message is to be delivered that no link brought.
fn event_of(command: WorldEvent, sent: &[Message]) -> Option<(u8, Event)> {
    match command {
        WorldEvent::At(site, event) => Some((site, event)),
        WorldEvent::Deliver(site, number) => {
            let index = number.checked_sub(1)? as usize;
            Some((site, Event::Receive(*sent.get(index)?)))
        }
    }
}

/// The answer of a world if no such message was sent.
const NO_MESSAGE: &str = r#"{"refused":19}"#;

impl<E: Entries, R: Ledger> Desks<E, R> {
    /// A seat at each of two sites, with capacity for a row's messages and the longest of its replies.
    fn open<G: Gate + Drop, W: Wait>(
        rt: &W,
        alloc: Global,
        branch: &Branch<E, R, G>,
    ) -> Result<Desks<E, R>, AllocError> {
        let (outbox, inlets) = links(alloc, 2)?;
        let mut seats = Vec::with_capacity(alloc, 2)?;
        let sent = Vec::with_capacity(alloc, 16)?;
        let bytes = Vec::with_capacity(alloc, 4096)?;
        for site in 0..2 {
            let Ok(seat) = branch.seat(rt, site) else {
                return Err(AllocError);
            };
            seats.push(seat)?;
        }
        Ok(Desks {
            seats,
            outbox,
            inlets,
            sent,
            lost: false,
            bytes,
        })
    }

    /// The command on a line. The reply is the one that is wanted. `false` if memory was refused: nothing was done.
    fn answers<G: Gate + Drop, W: Wait + Abort>(
        &mut self,
        rt: &W,
        alloc: Global,
        branch: &Branch<E, R, G>,
        config: &Config,
        line: &str,
        wanted: &str,
    ) -> bool {
        let Ok(command) = read_command(alloc, config, line) else {
            return false;
        };
        let Some((site, event)) = event_of(command, self.sent.as_slice()) else {
            holds(rt, line, self.lost || wanted == NO_MESSAGE);
            return true;
        };
        let Some(seat) = self.seats.get_mut(usize::from(site)) else {
            return false;
        };
        let Ok(Some(number)) = called(rt, branch, seat, &self.outbox, event) else {
            return false;
        };
        let (Some(receipt), Some(inlet)) = (
            seat.receipt(number),
            self.inlets.get_mut(usize::from(site == 0)),
        ) else {
            return false;
        };
        self.bytes.clear();
        let written = append_reply(&mut self.bytes, &receipt.reply).is_ok();
        equal(
            rt,
            self.bytes.as_slice().trim_ascii_end(),
            wanted.as_bytes(),
        );
        self.lost = self.lost
            || receipt.unsent > 0
            || !take_in(rt, inlet, &mut self.sent, &receipt.reply);
        written
    }
}

/// A row's commands, one after another, by a seat at each site.
#[derive(Drop)]
struct Through<'a> {
    config: &'a Config,
    row: &'a WorkedRow,
    may_lose: bool,
}

impl Case for Through<'_> {
    fn calls<E: Entries, R: Ledger, G: Gate + Drop, W: Wait + Abort + Print>(
        &self,
        rt: &W,
        alloc: Global,
        branch: &Branch<E, R, G>,
    ) -> Result<Vec<Seat<E, R>>, Fail> {
        let mut desks = twice!(Desks::open(rt, alloc, branch));
        let commands = self.row.script.lines().skip(1);
        for (line, wanted) in commands.zip(self.row.replies.lines()) {
            if !desks.answers(rt, alloc, branch, self.config, line, wanted) {
                println!(rt; "{} stopped where it answers {wanted}", self.row.name)?;
                let again = desks.answers(rt, alloc, branch, self.config, line, wanted);
                holds(rt, line, again);
            }
        }
        holds(rt, "no link refuses", self.may_lose || !desks.lost);
        Ok(desks.seats)
    }
}

/// The configuration on a row's first line.
fn config_of(alloc: Global, row: &WorkedRow) -> Result<Config, LineFault> {
    let first = row.script.lines().next().ok_or(LineFault::Bad)?;
    read_config(alloc, first)
}

/// A row through the seats of a branch, which is gathered then. Whether a link may refuse a message.
fn row_through<W: Wait + Abort + Print>(
    rt: &W,
    alloc: Global,
    row: &WorkedRow,
    may_lose: bool,
) -> Result<Result<Vec<SiteReport>, GatherFault>, Fail> {
    let config = twice!(config_of(alloc, row));
    let copy = config.try_copy()?;
    let case = Through {
        config: &config,
        row,
        may_lose,
    };
    gathered(rt, alloc, copy, NoGate, &case)
}

#[test]
fn seat_calls(rt: HostRuntime) -> Result<(), Fail> {
    for name in [
        "token_waits_for_reds",
        "two_cancels_of_one_withdrawal",
        "interest_stays",
        "batch_all_or_nothing",
        "transfer_and_cancel",
    ] {
        let reports = row_through(&rt, rt.alloc(), &row_named(name)?, false)??;
        holds(&rt, name, reports.len() == 2);
    }
    Ok(())
}

#[test]
fn refuse_seats(rt: HostRuntime) -> Result<(), Fail> {
    let row = row_named("batch_all_or_nothing")?;
    match row_through(&rt, rt.alloc(), &row, true)? {
        Ok(reports) => equal(&rt, reports.len(), 2),
        Err(fault) => equal(&rt, fault, GatherFault::OutOfMemory),
    }
    Ok(())
}
