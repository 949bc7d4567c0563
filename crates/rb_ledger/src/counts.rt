//! The counts that are kept of clocks.
//!
//! The entries of up to three sites are copied one by one, and of more sites by a call, which takes 5 to 17
//! instructions more.
ghost use Rattle.std.specs.Prelude.{◌≡◌, ◌-◌, ◌+◌, ◌<◌, ◌≤◌, ◌++◌, ◌∷◌, length, take};
ghost use Rattle.std.specs.Prelude.{slice_set, vec_len, vec_capacity};
ghost use Rattle.std.specs.Prelude.{IsTrue, ℕ};
ghost use Rattle.rb_money.specs.declared.limits.TheConstants.{MOST_SITES};
ghost use Rattle.rb_shadow.specs.Operations.{number_of, row_of};
ghost use Rattle.rb_ledger.specs.declared.counts.TheConstants.{FEW_SITES};
ghost use Rattle.rb_ledger.specs.ClockLists.{AreNear, base_of, kept_step, step_added, steps_of};
ghost use Rattle.rb_ledger.specs.OperationLists.{clock_of_counts};

use crate::kept_clock::KeptClock;
use rb_money::MOST_SITES;
use rb_shadow::{Deps, OpName};

/// Of each clock the entries of this many sites are kept at least, so that those of a small bank are copied at once.
pub const FEW_SITES: usize = 3;

/// How much less an entry of a base is than that of the clock that it is made for: later clocks whose entries are less
/// fit it too.
pub const LESS: u32 = 64;

/// Whether what is kept is that of a clock, but for the entry of a name.
#[inline(always)]
pub fn is_same(kept: &KeptClock<'_>, deps: &Deps, name: OpName) -> bool
    ensures same { IsTrue result → (n : ℕ) → slice_set kept.now (row_of name) n
        ≡ slice_set (deps.now.red ∷ take (length kept.now - 1) deps.now.blue) (row_of name) n }
    ensures all { length deps.now.blue ≡ MOST_SITES }
{
    if kept.len() > FEW_SITES + 1 {
        return is_same_of_many(kept, deps.red, &deps.blue, name.row() as u32);
    }
    is_same_of_few(&kept.few(), deps.red, &deps.blue, name)
}

/// Whether what is kept is that of a clock of a small bank, but for the entry of a name.
#[inline(always)]
fn is_same_of_few(kept: &[u32], red: u32, blue: &[u32], name: OpName) -> bool
    requires all { length blue.now ≡ MOST_SITES }
    requires few { length kept.now ≡ FEW_SITES + 1 }
    ensures { IsTrue result → (n : ℕ) →
        slice_set kept.now (row_of name) n ≡ slice_set (red ∷ take FEW_SITES blue.now) (row_of name) n }
{
    match name {
        OpName::Red { .. } => { (kept[1] == blue[0]) & (kept[2] == blue[1]) & (kept[3] == blue[2]) }
        OpName::Blue { site: 0, .. } => {
            (kept[0] == red) & (kept[2] == blue[1]) & (kept[3] == blue[2])
        }
        OpName::Blue { site: 1, .. } => {
            (kept[0] == red) & (kept[1] == blue[0]) & (kept[3] == blue[2])
        }
        OpName::Blue { site: 2, .. } => {
            (kept[0] == red) & (kept[1] == blue[0]) & (kept[2] == blue[1])
        }
        OpName::Blue { .. } => false,
    }
}

/// Whether what is kept is that of a clock of any number of sites, but for the entry of a row. Each entry is looked
/// at, as several are compared at once.
#[inline(never)]
fn is_same_of_many(kept: &KeptClock<'_>, red: u32, blue: &[u32], own: u32) -> bool
    requires all { length blue.now ≡ MOST_SITES }
    ensures { IsTrue result → (n : ℕ) →
        slice_set kept.now own n ≡ slice_set (red ∷ take (length kept.now - 1) blue.now) own n }
{
    let sites = kept.len() - 1;
    let mut same = (own == 0) | (kept.count(0) == red);
    for site in 0..sites {
        same &= (site as u32 + 1 == own) | (kept.count(site + 1) == blue[site]);
    }
    same
}

/// By how much a count is more than a base's, of which one byte is kept.
#[inline(always)]
fn step(base: u32, count: u32) -> u8
    ensures { result ≡ kept_step base count }
{
    (count.wrapping_sub(base) % 256) as u8
}

/// Whether a clock can be kept by a base: no entry is less than the base's, or more by over a byte's most. All are
/// looked at, as several are compared at once.
#[inline(always)]
pub fn fits(base: &[u32], red: u32, blue: &[u32]) -> bool
    requires some { 0 < length base.now }
    requires few { length base.now ≤ length blue.now + 1 }
    requires most { length base.now ≤ MOST_SITES + 1 }
    ensures { IsTrue result → AreNear base.now (red ∷ blue.now) }
{
    let mut near = is_near(base[0], red);
    for site in 0..base.len() - 1 {
        near &= is_near(base[site + 1], blue[site]);
    }
    near
}

/// Whether a count can be kept by a base's.
#[inline(always)]
fn is_near(base: u32, count: u32) -> bool
    ensures { IsTrue result → step_added base (kept_step base count) ≡ count }
{
    count.wrapping_sub(base) < 256
}

/// Adds the steps of a clock from a base, in spare capacity.
#[inline(always)]
pub fn push_steps(steps: &mut Vec<u8>, base: &[u32], red: u32, blue: &[u32])
    requires some { 0 < length base.now }
    requires few { length base.now ≤ length blue.now + 1 }
    requires most { length base.now ≤ MOST_SITES + 1 }
    requires room { vec_len steps.old + length base.now ≤ vec_capacity steps.old }
    ensures items { steps.new.items ≡ steps.old.items ++ steps_of base.now (red ∷ blue.now) }
    ensures capacity { vec_capacity steps.old ≤ vec_capacity steps.new }
{
    if base.len() == FEW_SITES + 1 {
        steps.push_reserved(step(base[0], red));
        steps.push_reserved(step(base[1], blue[0]));
        steps.push_reserved(step(base[2], blue[1]));
        steps.push_reserved(step(base[3], blue[2]));
        return;
    }
    let mut all = [0; MOST_SITES + 1];
    all[0] = step(base[0], red);
    for site in 0..base.len() - 1 {
        all[site + 1] = step(base[site + 1], blue[site]);
    }
    if steps.extend_from_slice(&all[..base.len()]).is_err() {
        unreachable!()
    }
}

/// Adds a base for a clock, in spare capacity: each entry is less than the clock's by `LESS`, or 0.
#[inline(never)]
pub fn push_base(bases: &mut Vec<u32>, red: u32, blue: &[u32])
    requires room { vec_len bases.old + length blue.now + 1 ≤ vec_capacity bases.old }
    ensures items { bases.new.items ≡ bases.old.items ++ base_of (red ∷ blue.now) }
    ensures near { AreNear (base_of (red ∷ blue.now)) (red ∷ blue.now) }
    ensures capacity { vec_capacity bases.old ≤ vec_capacity bases.new }
{
    bases.push_reserved(red.saturating_sub(LESS));
    for count in blue {
        bases.push_reserved(count.saturating_sub(LESS));
    }
}

/// The clock of the operation of a name, of what is kept of it: its own entry is its number less 1.
#[inline(always)]
pub fn clock(kept: &KeptClock<'_>, name: OpName) -> Deps
    ensures { result ≡ clock_of_counts (length kept.now - 1)
        (slice_set kept.now (row_of name) (number_of name - 1)) }
{
    let mut deps = kept_clock(kept);
    match name {
        OpName::Blue { site, n } => {
            if usize::from(site) + 1 < kept.len() {
                deps.blue[usize::from(site)] = n.saturating_sub(1);
            }
        }
        OpName::Red { n } => deps.red = n.saturating_sub(1),
    }
    deps
}

/// The clock of what is kept, with the own entry that is kept.
#[inline(always)]
fn kept_clock(kept: &KeptClock<'_>) -> Deps
    ensures clock { result ≡ clock_of_counts (length kept.now - 1) kept.now }
    ensures some { 0 < length kept.now }
{
    if kept.len() > FEW_SITES + 1 {
        return clock_of_many(kept);
    }
    let mut blue = [0; MOST_SITES];
    blue[0] = kept.count(1);
    blue[1] = kept.count(2);
    blue[2] = kept.count(3);
    Deps {
        blue,
        red: kept.count(0),
    }
}

/// The clock of what is kept, of any number of sites, with the own entry that is kept.
#[inline(never)]
fn clock_of_many(kept: &KeptClock<'_>) -> Deps
    ensures { result ≡ clock_of_counts (length kept.now - 1) kept.now }
{
    let mut blue = [0; MOST_SITES];
    for site in 0..kept.len() - 1 {
        blue[site] = kept.count(site + 1);
    }
    Deps {
        blue,
        red: kept.count(0),
    }
}
