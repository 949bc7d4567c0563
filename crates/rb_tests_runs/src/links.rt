//! The messages that go by the links between sites.
use crate::branch::{Case, alone, deposit, deposited, gathered, some_sites};
use crate::checks::{equal, holds};
use rb_branch::{Branch, CallFault, Entries, Gate, Inlet, NoGate, Outbox, Receipt, Seat, links};
use rb_kit::List;
use rb_money::Limits;
use rb_scratch::Request;
use rb_shadow::OpName;
use rb_site::Message;
use std::alloc::Global;
use std::process::Abort;
use std::sync::Wait;
use std::sync::ledger::Ledger;
use std::test::Fail;

/// What comes of three calls at site 0 of three, a deposit, a passing of the token to site 2 and a batch of two: over
/// this number of links, of which only the first `read` are read, how many of each call's messages weren't taken, and
/// what each of these links brought.
struct SentCase {
    links: u8,
    read: usize,
    unsent: [u32; 3],
    brought: [&'static [u32]; 3],
}

/// The numbers of the operations that links 1 and 2 bring; 0 stands for the token.
const BLUES: &[u32] = &[1, 2, 3];

const ALL: &[u32] = &[1, 0, 2, 3];

const SENT: [SentCase; 5] = [
    SentCase {
        links: 3,
        read: 3,
        unsent: [0, 0, 0],
        brought: [&[], BLUES, ALL],
    },
    SentCase {
        links: 3,
        read: 2,
        unsent: [1, 1, 2],
        brought: [&[], BLUES, &[]],
    },
    SentCase {
        links: 3,
        read: 1,
        unsent: [2, 1, 4],
        brought: [&[], &[], &[]],
    },
    SentCase {
        links: 2,
        read: 2,
        unsent: [1, 1, 2],
        brought: [&[], BLUES, &[]],
    },
    SentCase {
        links: 1,
        read: 1,
        unsent: [2, 1, 4],
        brought: [&[], &[], &[]],
    },
];

/// The number of an operation; 0 for the token.
fn number_of(message: &Message) -> u32 {
    match message {
        Message::Token(_) => 0,
        Message::Shadow(shadow) => match shadow.name {
            OpName::Blue { n, .. } | OpName::Red { n } => n,
        },
    }
}

/// Whether a link brings these to its end, and no more.
fn brings<E: Entries, W: Wait>(rt: &W, inlet: &mut Inlet<E>, wanted: &[u32]) -> bool {
    for number in wanted {
        match inlet.next(rt) {
            Some(message) if number_of(&message) == *number => {}
            _ => return false,
        }
    }
    inlet.next(rt).is_none()
}

/// The three calls.
fn three_calls<E: Entries, R: Ledger, G: Gate + Drop, W: Wait>(
    rt: &W,
    branch: &Branch<E, R, G>,
    seat: &mut Seat<E, R>,
    outbox: &Outbox<E>,
    two: Vec<Request>,
) -> Result<u32, CallFault> {
    let _first = deposited(rt, branch, seat, outbox, 1)?;
    let _second = branch.pass(rt, seat, outbox, 2)?;
    branch.batch(rt, seat, outbox, List::new(two))
}

impl SentCase {
    /// The receipts and the links are as they should be.
    fn shows<E: Entries, W: Wait + Abort>(
        &self,
        rt: &W,
        receipts: &[Receipt],
        inlets: &mut [Inlet<E>],
    ) {
        for (receipt, unsent) in receipts.iter().zip(self.unsent) {
            equal(rt, receipt.unsent, unsent);
        }
        for (inlet, wanted) in inlets.iter_mut().zip(self.brought) {
            holds(rt, "these messages", brings(rt, inlet, wanted));
        }
    }
}

impl Case for SentCase {
    fn calls<E: Entries, R: Ledger, G: Gate + Drop, W: Wait + Abort + Print>(
        &self,
        rt: &W,
        alloc: Global,
        branch: &Branch<E, R, G>,
    ) -> Result<Vec<Seat<E, R>>, Fail> {
        let two = vec![in alloc; deposit(2), deposit(3)]?;
        let mut seat = branch.seat(rt, 0)?;
        let (outbox, mut inlets) = links(alloc, self.links)?;
        inlets.truncate(self.read);
        let _third = three_calls(rt, branch, &mut seat, &outbox, two)?;
        drop(outbox);
        self.shows(rt, seat.receipts(), inlets.as_mut_slice());
        alone(alloc, seat)
    }
}

#[test]
fn sent_by_links(rt: HostRuntime) -> Result<(), Fail> {
    for case in &SENT {
        let config = some_sites(rt.alloc(), 3, Limits::largest())?;
        let reports = gathered(&rt, rt.alloc(), config, NoGate, case)??;
        equal(&rt, reports.len(), 3);
    }
    Ok(())
}
