//! A clock as a list keeps it.
//!
//! It borrows its base and its steps from the list, and a count is added up as it is read: no clock is copied.
ghost use Rattle.std.specs.Prelude.{◌≡◌, ◌+◌, ◌<◌, ◌≤◌, length, slice_index};
ghost use Rattle.rb_money.specs.declared.limits.TheConstants.{MOST_SITES};
ghost use Rattle.rb_ledger.specs.declared.counts.TheConstants.{FEW_SITES};

use crate::counts::FEW_SITES;
use std::marker::Model;

/// The part of a clock that a list keeps: its red entry, and then those of the first sites. Clients see these counts.
#[derive(Drop)]
pub struct KeptClock<'a> {
    pub base: &'a [u32],
    /// By how much each count is more than the base's.
    pub steps: &'a [u8],
}

impl<'a> Model for KeptClock<'a> {
    ghost use Rattle.std.specs.Prelude.{◌≡◌, ◌+◌, ◌≤◌, List, ℕ, length};
    ghost use Rattle.rb_money.specs.declared.limits.TheConstants.{MOST_SITES};
    ghost use Rattle.rb_ledger.specs.declared.counts.TheConstants.{FEW_SITES};
    ghost use Rattle.rb_ledger.specs.ClockLists.{sums};

    ghost Value = { List ℕ };

    ghost view = { λ k. sums k.base.now k.steps.now };

    ghost invariant = { λ k. record {
      least : FEW_SITES + 1 ≤ length k.steps.now;
      most : length k.steps.now ≤ MOST_SITES + 1;
      base : length k.base.now ≡ length k.steps.now;
    } };
}

impl<'a> KeptClock<'a> {
    /// How many counts are kept.
    #[inline(always)]
    pub fn len(&self) -> usize
        ensures same { result ≡ length self.now }
        ensures least { FEW_SITES + 1 ≤ result }
        ensures most { result ≤ MOST_SITES + 1 }
    {
        self.steps.len()
    }

    /// The counts for a small bank.
    #[inline(always)]
    pub fn few(&self) -> [u32; FEW_SITES + 1]
        requires { length self.now ≡ FEW_SITES + 1 }
        ensures { result ≡ self.now }
    {
        [self.count(0), self.count(1), self.count(2), self.count(3)]
    }

    /// The count at an index, from 0.
    #[inline(always)]
    pub fn count(&self, index: usize) -> u32
        requires near { index < length self.now }
        requires few { length self.now ≤ MOST_SITES + 1 }
        ensures { result ≡ slice_index self.now index }
    {
        self.base[index].wrapping_add(u32::from(self.steps[index]))
    }
}
