//! The operations of a ledger, in their order.
//!
//! Of a clock the red entry and those of the bank's sites are kept beside the operation's other fields: 40 bytes at up
//! to three sites, 45 at eight, in place of 104. A balance on a second account is in a list of its own. An operation is
//! given by value, or lent as an `OperationRef`, since a plan of a cancellation and a statement read two fields of one.
ghost use Rattle.std.specs.Prelude.{◌≡◌, ◌↔◌, ◌-◌, ◌+◌, ◌<◌, ◌≤◌, ◌++◌, ◌∷◌, [], length, take, drop, OnOk, OnErr, IfOk};
ghost use Rattle.std.specs.Prelude.{IsTrue, Some, false, slice_get, slice_index_or};
ghost use Rattle.rb_money.specs.declared.limits.TheConstants.{MOST_OPERATIONS, MOST_SITES};
ghost use Rattle.rb_shadow.specs.declared.shadow.Shadow.{Shadow as TheShadow};
ghost use Rattle.rb_shadow.specs.Operations.{entry_of, number_of, receiver_of};
ghost use Rattle.rb_shadow.specs.Sound.{is_foreign};
ghost use Rattle.rb_ledger.specs.OperationLists.{IsOfSites, clock_count};

use crate::OperationRef;
use crate::clock_list::ClockList;
use crate::kept_operation::KeptOperation;
use crate::prefix::Prefix;
use rb_money::Place;
use rb_shadow::Shadow;
use std::alloc::{AllocError, Global};
use std::marker::Model;

/// Operations in their order, in less memory than a list of shadows: of each clock it keeps the red entry and those of
/// the bank's sites, as all others are 0, and one clock for neighbours whose clocks differ in their own entries alone,
/// as an operation's own entry is its number less 1.
#[derive(Drop)]
pub struct OperationList {
    kept: Vec<KeptOperation>,
    /// Operations that a site made one after another, without hearing of others, have one clock but for their own
    /// entries.
    clocks: ClockList,
    limit: usize,
}

impl Model for OperationList {
    ghost use Rattle.std.specs.Prelude.{length, ◌≡◌, ◌≤◌, vec_capacity};
    ghost use Rattle.rb_ledger.specs.OperationLists.{AreInOrder, OperationTable, clock_count, operations_of};

    ghost Value = { OperationTable };

    ghost view = { λ l. record {
      items = operations_of l.clocks.sites l.kept.items l.clocks.items;
      sites = l.clocks.sites;
      limit = l.limit;
    } };

    ghost invariant = { λ l. record {
      clocks : length l.clocks.items ≡ clock_count 0 l.kept.items;
      order : AreInOrder 0 l.kept.items;
      operations_fit : l.limit ≤ vec_capacity l.kept;
      clocks_fit : l.limit ≤ l.clocks.limit;
    } };
}

impl OperationList {
    /// No operations, of a bank of this number of sites, without memory for any.
    pub fn new(alloc: Global, sites: u8) -> OperationList
        requires { sites ≤ MOST_SITES }
        ensures items { result.items ≡ [] }
        ensures sites { sites ≤ result.sites }
        ensures limit { result.limit ≡ 0 }
    {
        OperationList {
            kept: Vec::new(alloc),
            clocks: ClockList::new(alloc, sites),
            limit: 0,
        }
    }

    /// How many operations there are.
    pub fn len(&self) -> usize
        ensures { result ≡ length self.now.items }
    {
        self.kept.len()
    }

    /// Of how many sites the entries of each clock are kept.
    #[inline(always)]
    pub fn sites(&self) -> usize
        ensures same { result ≡ self.now.sites }
        ensures most { result ≤ MOST_SITES }
    {
        self.clocks.sites()
    }

    /// Whether the list is empty.
    pub fn is_empty(&self) -> bool
        ensures { IsTrue result ↔ (self.now.items ≡ []) }
    {
        self.len() == 0
    }

    /// The operation at an index, from 0. `None` past the last.
    #[inline(always)]
    pub fn get(&self, index: usize) -> Option<Shadow>
        ensures { result ≡ slice_get self.now.items index }
    {
        Some(self.at(index)?.shadow())
    }

    /// The operation at an index, from 0, as it is kept. `None` past the last.
    #[inline(always)]
    pub fn at(&self, index: usize) -> Option<OperationRef<'_>>
        ensures { result ≡ slice_get self.now.items index }
    {
        let kept = self.kept.get(index)?;
        Some(OperationRef {
            kept,
            clocks: &self.clocks,
        })
    }

    /// Whether a shadow was found to be the operation at an index, from 0: the two are compared as the operation is
    /// kept. `false` says nothing.
    #[inline(always)]
    pub(crate) fn is_at(&self, index: usize, shadow: &Shadow) -> bool
        requires near { index < length self.now.items }
        requires sites { IsOfSites self.now.sites shadow.now.deps }
        requires home { is_foreign shadow.now.name shadow.now.home ≡ false }
        requires own { entry_of shadow.now.deps shadow.now.name + 1 ≡ number_of shadow.now.name }
        ensures { IsTrue result → slice_get self.now.items index ≡ Some shadow.now }
    {
        let kept = &self.kept[index];
        kept.is_of(shadow)
            && self
                .clocks
                .is_at(kept.clock as usize, &shadow.deps, shadow.name)
    }

    /// The second account of a transfer at an index, from 0.
    #[inline(always)]
    pub(crate) fn receiver(&self, index: usize) -> Option<Place>
        requires { index < length self.now.items }
        ensures { (d : TheShadow) → result ≡ receiver_of (slice_index_or self.now.items index d).kind }
    {
        self.kept[index].kind.receiver()
    }

    /// The last operations, from an index on. `Err` means out of memory.
    pub fn copy_from(&self, alloc: Global, first: usize) -> Result<Vec<Shadow>, AllocError>
        ensures { IfOk result (λ shadows. shadows.items ≡ drop first self.now.items) }
    {
        let count = self.len().saturating_sub(first);
        let mut shadows = Vec::with_capacity(alloc, count)?;
        for k in 0..count {
            shadows.push(self.get(first + k).unwrap())?;
        }
        Ok(shadows)
    }

    /// All operations, as what another one comes after.
    #[inline(always)]
    pub(crate) fn all(&self) -> Prefix<'_>
        ensures { result ≡ self.now.items }
    {
        Prefix {
            all: self,
            count: self.kept.len(),
        }
    }

    /// The first operations, up to this number, as what the next one comes after.
    #[inline(always)]
    pub(crate) fn first(&self, count: usize) -> Prefix<'_>
        requires { count ≤ length self.now.items }
        ensures { result ≡ take count self.now.items }
    {
        Prefix { all: self, count }
    }

    /// Adds one more operation, in spare capacity.
    #[inline(always)]
    pub fn push(&mut self, shadow: &Shadow)
        requires room { length self.old.items < self.old.limit }
        requires few { length self.old.items < MOST_OPERATIONS }
        requires sites { IsOfSites self.old.sites shadow.now.deps }
        requires home { is_foreign shadow.now.name shadow.now.home ≡ false }
        requires own { entry_of shadow.now.deps shadow.now.name + 1 ≡ number_of shadow.now.name }
        ensures items { self.new.items ≡ self.old.items ++ shadow.now ∷ [] }
        ensures sites { self.new.sites ≡ self.old.sites }
        ensures limit { self.new.limit ≡ self.old.limit }
    {
        let clock = self.clocks.keep(shadow);
        self.kept.push_reserved(KeptOperation {
            colour: shadow.name.colour(),
            home: shadow.home,
            account: shadow.account,
            number: shadow.name.number(),
            kind: shadow.kind,
            clock: clock as u32,
            amount: shadow.amount,
        });
    }

    /// Takes the last operation out again.
    pub(crate) fn pop(&mut self)
        ensures items { self.new.items ≡ take (length self.old.items - 1) self.old.items }
        ensures sites { self.new.sites ≡ self.old.sites }
        ensures limit { self.new.limit ≡ self.old.limit }
    {
        if self.kept.pop().is_some() {
            self.clocks.truncate(kept_clocks(&self.kept));
        }
    }

    /// Takes memory for at least `limit` operations in all. `Err` means out of memory.
    pub fn reserve(&mut self, limit: usize) -> Result<(), AllocError>
        ensures items { self.new.items ≡ self.old.items }
        ensures sites { self.new.sites ≡ self.old.sites }
        ensures ok { OnOk result (limit ≤ self.new.limit) }
        ensures grows { self.old.limit ≤ self.new.limit }
        ensures short { OnErr result (self.old.limit < limit) }
        ensures err { OnErr result (self.new ≡ self.old) }
    {
        if limit <= self.limit {
            return Ok(());
        }
        self.kept
            .reserve_exact(limit.saturating_sub(self.kept.len()))?;
        self.clocks.reserve(limit)?;
        self.limit = limit;
        Ok(())
    }
}

/// How many clocks are kept for operations.
#[inline(always)]
fn kept_clocks(kept: &[KeptOperation]) -> usize
    ensures { result ≡ clock_count 0 kept.now }
{
    match kept.last() {
        Some(last) => last.clock as usize + 1,
        None => 0,
    }
}
