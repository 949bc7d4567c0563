//! Which calls go on while one is inside a gate.
//!
//! The gate holds a call at site 0 until another site has answered. With one lock for both sites that answer would be
//! late. A second call at site 0 has time to come meanwhile: without the site's lock it would be early.

use crate::branch::{asked, some_sites, to_the_second};
use crate::checks::{equal, holds};
use crate::flags::{Count, Flag};
use crate::threads::{DEPOSITS, many_deposits, threaded};
use rb_branch::{Branch, CallFault, Entries, Gate, Outbox, Seat};
use rb_money::Limits;
use std::alloc::Global;
use std::rt::Clock;
use std::sync::Wait;
use std::sync::ledger::Ledger;
use std::test::Fail;
use std::thread::{Threads, join};

/// For how many looks the call after the held one is watched.
const WATCHED: u32 = 100;

/// The flags that the gate and the calls show one another. The held call is the first at site 0.
#[derive(Drop)]
pub struct Signs {
    held: Flag,
    /// A call at site 1 was answered, and a second one is made at site 0.
    beside: Flag,
    /// The held call goes on.
    released: Flag,
    /// The held call left.
    left_first: Flag,
    /// The second call at site 0 was answered.
    behind: Flag,
    /// It entered, or was answered, while the first was held.
    early: Flag,
    /// Something that was waited for didn't come.
    late: Flag,
    /// How many calls entered each site, and left it.
    entered: [Count; 2],
    left: [Count; 2],
}

impl Signs {
    fn none() -> Signs {
        Signs {
            held: Flag::new(),
            beside: Flag::new(),
            released: Flag::new(),
            left_first: Flag::new(),
            behind: Flag::new(),
            early: Flag::new(),
            late: Flag::new(),
            entered: [Count::new(), Count::new()],
            left: [Count::new(), Count::new()],
        }
    }

    /// Waits for a flag, and notes if it doesn't come.
    fn wants<W: Wait + Clock>(&self, rt: &W, flag: &Flag) {
        if !flag.comes(rt) {
            self.late.raise(rt);
        }
    }

    /// The second call at site 0 entered or was answered.
    fn passes<W: Wait>(&self, rt: &W) {
        if !self.released.is_raised(rt) {
            self.early.raise(rt);
        }
    }
}

/// Counts one more call at a site. How many there were before.
fn count<W: Wait>(rt: &W, counts: &[Count; 2], site: u8) -> u64 {
    match counts.get(usize::from(site)) {
        Some(calls) => calls.add_one(rt),
        None => 0,
    }
}

/// A gate that holds the first call at site 0 until a call at site 1 was answered and a second at site 0 had its
/// time. The second goes on once the first leaves, and is answered before it has left.
#[derive(Drop)]
struct Holding<'a, W> {
    rt: &'a W,
    signs: &'a Signs,
}

impl<W: Wait + Clock> Gate for Holding<'_, W> {
    fn enter(&self, site: u8) {
        let before = count(self.rt, &self.signs.entered, site);
        if site == 0 && before == 0 {
            self.signs.held.raise(self.rt);
            self.signs.wants(self.rt, &self.signs.beside);
            let _early = self.signs.early.comes_within(self.rt, WATCHED);
            self.signs.released.raise(self.rt);
        } else if site == 0 {
            self.signs.passes(self.rt);
            self.signs.wants(self.rt, &self.signs.left_first);
        }
    }

    fn leave(&self, site: u8) {
        let before = count(self.rt, &self.signs.left, site);
        if site == 0 && before == 0 {
            self.signs.left_first.raise(self.rt);
            self.signs.wants(self.rt, &self.signs.behind);
        }
    }
}

/// A question at a seat's site, and then deposits.
fn asked_and_deposited<E: Entries, R: Ledger, G: Gate + Drop, W: Wait>(
    rt: &W,
    branch: &Branch<E, R, G>,
    mut seat: Seat<E, R>,
    outbox: &Outbox<E>,
) -> Result<Seat<E, R>, CallFault> {
    let _number = asked(rt, branch, &mut seat)?;
    many_deposits(rt, branch, seat, outbox)
}

/// Once a call is held at site 0: a question and an application at site 1, which has nothing ready, and then one more
/// question at site 0, and deposits.
fn asked_meanwhile<E: Entries, R: Ledger, G: Gate + Drop, W: Wait + Clock>(
    rt: &W,
    branch: &Branch<E, R, G>,
    mut other: Seat<E, R>,
    mut second: Seat<E, R>,
    outbox: &Outbox<E>,
    signs: &Signs,
) -> Result<(Seat<E, R>, Seat<E, R>), CallFault> {
    signs.wants(rt, &signs.held);
    let _number = asked(rt, branch, &mut other)?;
    let _none = branch.apply_ready(rt, &mut other)?;
    signs.beside.raise(rt);
    let number = asked(rt, branch, &mut second);
    signs.passes(rt);
    signs.behind.raise(rt);
    let _number = number?;
    let second = many_deposits(rt, branch, second, outbox)?;
    Ok((other, second))
}

/// The held call in a thread of its own, and the calls meanwhile in another. Then the deposits of both seats at site 0,
/// side by side.
pub fn beside_a_held_call<
    E: Entries + Send + Sync,
    R: Ledger + Send + Sync,
    G: Gate + Drop + Sync,
    W: Threads + Wait + Clock + Sync,
>(rt: &W, alloc: Global, branch: &Branch<E, R, G>, signs: &Signs) -> Result<Vec<Seat<E, R>>, Fail> {
    let (outbox, _inlet) = to_the_second(alloc)?;
    let first = branch.seat(rt, 0)?;
    let second = branch.seat(rt, 0)?;
    let other = branch.seat(rt, 1)?;
    let (first, others) = join(
        rt,
        || asked_and_deposited(rt, branch, first, &outbox),
        || asked_meanwhile(rt, branch, other, second, &outbox, signs),
    );
    let (other, second) = others?;
    Ok(vec![in alloc; first?, second, other]?)
}

#[test]
fn gate(rt: HostRuntime) -> Result<(), Fail> {
    let signs = Signs::none();
    let gate = Holding {
        rt: &rt,
        signs: &signs,
    };
    let config = some_sites(rt.alloc(), 2, Limits::largest())?;
    let reports = threaded(&rt, rt.alloc(), config, gate, Some(&signs))??;
    let first = reports.first().ok_or("no report")?;
    let recorded = first.history.len() as u64;
    equal(&rt, (reports.len(), recorded), (2, 2 * DEPOSITS + 2));
    equal(&rt, first.balances.first().copied(), Some(2 * DEPOSITS));
    holds(&rt, "late", !signs.late.is_raised(&rt));
    holds(&rt, "early", !signs.early.is_raised(&rt));
    for counts in [&signs.entered, &signs.left] {
        let counted = [counts[0].get(&rt), counts[1].get(&rt)];
        equal(&rt, counted, [2 * DEPOSITS + 2, 2]);
    }
    Ok(())
}
