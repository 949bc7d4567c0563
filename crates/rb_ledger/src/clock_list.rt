//! Clocks, in their order.
//!
//! Of a run of one site's operations the clock is kept once, since their clocks differ in their own entries alone; only
//! the clock that was kept last is compared. A deposit takes 15 bytes less at its home for that.
//!
//! An entry takes a byte: what it is more than that of a base, which is that of the clock before if all entries fit,
//! and else is kept anew, each entry 64 less than the clock's. A clock of eight sites takes 13 bytes in place of 36,
//! and a deposit 2 % more instructions. Two bytes an entry would be 10 bytes a clock more.
ghost use Rattle.std.specs.Prelude.{◌≡◌, ◌⊎◌, ◌-◌, ◌+◌, ◌<◌, ◌≤◌, ◌++◌, ◌∷◌, [], length, take, List, ℕ, IsTrue, OnOk};
ghost use Rattle.std.specs.Prelude.{slice_get, slice_index_or, slice_set, Some};
ghost use Rattle.rb_money.specs.declared.limits.TheConstants.{MOST_OPERATIONS, MOST_SITES};
ghost use Rattle.rb_shadow.specs.Operations.{entry_of, number_of, row_of};
ghost use Rattle.rb_ledger.specs.declared.counts.TheConstants.{FEW_SITES};
ghost use Rattle.rb_ledger.specs.OperationLists.{clock_of_counts, IsOfSites};

use crate::counts::{FEW_SITES, fits, is_same, push_base, push_steps};
use crate::kept_clock::KeptClock;
use rb_money::MOST_SITES;
use rb_shadow::{Deps, OpName, Shadow};
use std::alloc::{AllocError, Global};
use std::marker::Model;

/// The clocks of operations in little memory: of each the red entry and those of the first sites. An entry is kept in
/// one byte, as what it is more than that of a base, which is that of the clock before if all entries fit, and else is
/// kept anew. So there are at most as many bases as clocks.
#[derive(Drop)]
pub struct ClockList {
    /// The bases, one after another.
    bases: Vec<u32>,
    /// For each clock, the index at which its base begins.
    starts: Vec<u32>,
    /// For each clock, one after another, by how much its entries are more than its base's.
    steps: Vec<u8>,
    sites: usize,
    limit: usize,
}

impl Model for ClockList {
    ghost use Rattle.std.specs.Prelude.{length, ◌≡◌, ◌≤◌, ◌+◌, ◌*◌, vec_capacity};
    ghost use Rattle.rb_money.specs.declared.limits.TheConstants.{MOST_SITES};
    ghost use Rattle.rb_ledger.specs.declared.counts.TheConstants.{FEW_SITES};
    ghost use Rattle.rb_ledger.specs.ClockLists.{ClockTable, AreBased, clocks_of};

    ghost Value = { ClockTable };

    ghost view = { λ l. record {
      items = clocks_of (l.sites + 1) l.bases.items l.starts.items l.steps.items;
      sites = l.sites;
      limit = l.limit;
    } };

    ghost invariant = { λ l. record {
      least : FEW_SITES ≤ l.sites;
      most : l.sites ≤ MOST_SITES;
      steps : length l.steps.items ≡ length l.starts.items * (l.sites + 1);
      few : length l.bases.items ≤ length l.starts.items * (l.sites + 1);
      based : AreBased (l.sites + 1) 0 (length l.bases.items) l.starts.items;
      bases_fit : l.limit * (l.sites + 1) ≤ vec_capacity l.bases;
      starts_fit : l.limit ≤ vec_capacity l.starts;
      steps_fit : l.limit * (l.sites + 1) ≤ vec_capacity l.steps;
    } };
}

impl ClockList {
    /// No clocks, of a bank of this number of sites, without memory for any.
    pub fn new(alloc: Global, sites: u8) -> ClockList
        requires { sites ≤ MOST_SITES }
        ensures items { result.items ≡ [] }
        ensures sites { sites ≤ result.sites }
        ensures limit { result.limit ≡ 0 }
    {
        ClockList {
            bases: Vec::new(alloc),
            starts: Vec::new(alloc),
            steps: Vec::new(alloc),
            sites: usize::from(sites).max(FEW_SITES),
            limit: 0,
        }
    }

    /// Of how many sites the entries are kept.
    #[inline(always)]
    pub fn sites(&self) -> usize
        ensures same { result ≡ self.now.sites }
        ensures least { FEW_SITES ≤ result }
        ensures most { result ≤ MOST_SITES }
    {
        self.sites
    }

    /// The counts that are kept of the clock at an index, from 0.
    #[inline(always)]
    pub fn at(&self, index: usize) -> KeptClock<'_>
        requires { index < length self.now.items }
        ensures counts { slice_get self.now.items index ≡ Some result }
        ensures length { length result ≡ self.now.sites + 1 }
    {
        self.at_of(index, self.sites + 1)
    }

    /// The `width` counts that are kept of the clock at an index, from 0.
    #[inline(always)]
    pub fn at_of(&self, index: usize, width: usize) -> KeptClock<'_>
        requires near { index < length self.now.items }
        requires width { width ≡ self.now.sites + 1 }
        ensures counts { slice_get self.now.items index ≡ Some result }
        ensures length { length result ≡ self.now.sites + 1 }
    {
        let start = self.starts[index] as usize;
        let first = index * width;
        KeptClock {
            base: &self.bases[start..start + width],
            steps: &self.steps[first..first + width],
        }
    }

    /// The number, from 0, of an operation's clock among those that are kept. It is that of the last one, if the two
    /// differ in the operation's own entry alone, which is implied; else the clock is kept after the others, in spare
    /// capacity.
    #[inline(always)]
    pub fn keep(&mut self, shadow: &Shadow) -> usize
        requires room { length self.old.items < self.old.limit }
        requires few { length self.old.items < MOST_OPERATIONS }
        requires sites { IsOfSites self.old.sites shadow.now.deps }
        requires own { entry_of shadow.now.deps shadow.now.name + 1 ≡ number_of shadow.now.name }
        ensures number { (result ≡ length self.old.items) ⊎ (result + 1 ≡ length self.old.items) }
        ensures count { length self.new.items ≡ result + 1 }
        ensures more { (cs : List (List ℕ)) × (self.new.items ≡ self.old.items ++ cs) }
        ensures clock { clock_of_counts self.old.sites (slice_set (slice_index_or self.new.items result [])
            (row_of shadow.now.name) (number_of shadow.now.name - 1)) ≡ shadow.now.deps }
        ensures sites { self.new.sites ≡ self.old.sites }
        ensures limit { self.new.limit ≡ self.old.limit }
    {
        let count = self.starts.len();
        if count > 0 && self.is_at(count - 1, &shadow.deps, shadow.name) {
            return count - 1;
        }
        self.push(shadow.deps.red, &shadow.deps.blue);
        count
    }

    /// Whether a clock is the one that is kept at an index, from 0, but for the entry of a name.
    #[inline(always)]
    pub fn is_at(&self, index: usize, deps: &Deps, name: OpName) -> bool
        requires { index < length self.now.items }
        ensures same { IsTrue result → (n : ℕ) → slice_set (slice_index_or self.now.items index []) (row_of name) n
            ≡ slice_set (deps.now.red ∷ take self.now.sites deps.now.blue) (row_of name) n }
        ensures all { length deps.now.blue ≡ MOST_SITES }
    {
        if self.sites > FEW_SITES {
            let kept = self.at(index);
            return is_same(&kept, deps, name);
        }
        let kept = self.at_of(index, FEW_SITES + 1);
        is_same(&kept, deps, name)
    }

    /// Adds a clock, in spare capacity.
    #[inline(always)]
    fn push(&mut self, red: u32, blue: &[u32])
        requires all { length blue.now ≡ MOST_SITES }
        requires room { length self.old.items < self.old.limit }
        requires few { length self.old.items < MOST_OPERATIONS }
        ensures items { self.new.items ≡ self.old.items ++ (red ∷ take self.old.sites blue.now) ∷ [] }
        ensures sites { self.new.sites ≡ self.old.sites }
        ensures limit { self.new.limit ≡ self.old.limit }
        ensures all { length blue.now ≡ MOST_SITES }
    {
        if self.sites > FEW_SITES {
            return self.push_many(red, blue);
        }
        self.push_of(red, blue, FEW_SITES + 1);
    }

    /// Adds a clock of a bank of any number of sites, in spare capacity.
    #[inline(never)]
    fn push_many(&mut self, red: u32, blue: &[u32])
        requires all { length blue.now ≡ MOST_SITES }
        requires room { length self.old.items < self.old.limit }
        requires few { length self.old.items < MOST_OPERATIONS }
        ensures items { self.new.items ≡ self.old.items ++ (red ∷ take self.old.sites blue.now) ∷ [] }
        ensures sites { self.new.sites ≡ self.old.sites }
        ensures limit { self.new.limit ≡ self.old.limit }
    {
        self.push_of(red, blue, self.sites + 1);
    }

    /// Adds a clock, of which `width` counts are kept, in spare capacity.
    #[inline(always)]
    fn push_of(&mut self, red: u32, blue: &[u32], width: usize)
        requires all { length blue.now ≡ MOST_SITES }
        requires room { length self.old.items < self.old.limit }
        requires few { length self.old.items < MOST_OPERATIONS }
        requires width { width ≡ self.old.sites + 1 }
        ensures items { self.new.items ≡ self.old.items ++ (red ∷ take self.old.sites blue.now) ∷ [] }
        ensures sites { self.new.sites ≡ self.old.sites }
        ensures limit { self.new.limit ≡ self.old.limit }
    {
        if let Some(last) = self.starts.last() {
            let start = *last;
            let base = &self.bases[start as usize..start as usize + width];
            if fits(base, red, blue) {
                push_steps(&mut self.steps, base, red, blue);
                self.starts.push_reserved(start);
                return;
            }
        }
        self.push_anew(red, blue);
    }

    /// Adds a clock with a base of its own, in spare capacity.
    #[inline(never)]
    fn push_anew(&mut self, red: u32, blue: &[u32])
        requires all { length blue.now ≡ MOST_SITES }
        requires room { length self.old.items < self.old.limit }
        requires few { length self.old.items < MOST_OPERATIONS }
        ensures items { self.new.items ≡ self.old.items ++ (red ∷ take self.old.sites blue.now) ∷ [] }
        ensures sites { self.new.sites ≡ self.old.sites }
        ensures limit { self.new.limit ≡ self.old.limit }
    {
        let start = self.bases.len();
        let first = &blue[..self.sites];
        push_base(&mut self.bases, red, first);
        let base = &self.bases[start..start + self.sites + 1];
        push_steps(&mut self.steps, base, red, first);
        self.starts.push_reserved(start as u32);
    }

    /// Takes all clocks out again but for the first `count`.
    #[inline(always)]
    pub fn truncate(&mut self, count: usize)
        ensures items { self.new.items ≡ take count self.old.items }
        ensures sites { self.new.sites ≡ self.old.sites }
        ensures limit { self.new.limit ≡ self.old.limit }
    {
        self.starts.truncate(count);
        let counts = self.starts.len() * (self.sites + 1);
        self.steps.truncate(counts);
        self.bases.truncate(counts);
    }

    /// Takes memory for at least `limit` clocks in all. `Err` means out of memory.
    pub fn reserve(&mut self, limit: usize) -> Result<(), AllocError>
        ensures items { self.new.items ≡ self.old.items }
        ensures sites { self.new.sites ≡ self.old.sites }
        ensures ok { OnOk result (limit ≤ self.new.limit) }
        ensures grows { self.old.limit ≤ self.new.limit }
    {
        if limit <= self.limit {
            return Ok(());
        }
        let Some(counts) = limit.checked_mul(self.sites + 1) else {
            return Err(AllocError);
        };
        self.bases
            .reserve_exact(counts.saturating_sub(self.bases.len()))?;
        self.starts
            .reserve_exact(limit.saturating_sub(self.starts.len()))?;
        self.steps
            .reserve_exact(counts.saturating_sub(self.steps.len()))?;
        self.limit = limit;
        Ok(())
    }
}
