//! An operation as a list keeps it.
//!
//! It is lent, since a plan of a cancellation and a statement read two fields of one. Its clock is put together only
//! where the whole operation is needed.
ghost use Rattle.std.specs.Prelude.{◌≡◌};

use crate::clock_list::ClockList;
use crate::counts::{FEW_SITES, clock};
use crate::kept_operation::KeptOperation;
use rb_money::Place;
use rb_shadow::{Kind, OpName, Shadow};
use std::marker::Model;

/// An operation as a list keeps it. Clients see the operation.
#[derive(Drop)]
pub struct OperationRef<'a> {
    pub(crate) kept: &'a KeptOperation,
    /// The clocks, of which one is its own, but for its own entry.
    pub(crate) clocks: &'a ClockList,
}

impl<'a> Model for OperationRef<'a> {
    ghost use Rattle.std.specs.Prelude.{length, ◌<◌, [], slice_index_or};
    ghost use Rattle.rb_shadow.specs.declared.shadow.Shadow.{Shadow};
    ghost use Rattle.rb_ledger.specs.OperationLists.{with_counts};

    ghost Value = { Shadow };

    ghost view = { λ k. with_counts k.clocks.now.sites k.kept.now
        (slice_index_or k.clocks.now.items k.kept.now.clock []) };

    ghost invariant = { λ k. k.kept.now.clock < length k.clocks.now.items };
}

impl<'a> OperationRef<'a> {
    /// Its name.
    #[inline(always)]
    pub fn name(&self) -> OpName
        ensures { result ≡ self.now.name }
    {
        self.kept.name()
    }

    /// Its account.
    #[inline(always)]
    pub fn account(&self) -> Place
        ensures { result ≡ self.now.account }
    {
        self.kept.account
    }

    /// Its amount, in cents.
    #[inline(always)]
    pub fn amount(&self) -> u64
        ensures { result ≡ self.now.amount }
    {
        self.kept.amount
    }

    /// Its kind.
    #[inline(always)]
    pub fn kind(&self) -> Kind
        ensures { result ≡ self.now.kind }
    {
        self.kept.kind
    }

    /// The operation.
    #[inline(always)]
    pub fn shadow(&self) -> Shadow
        ensures { result ≡ self.now }
    {
        let kept = self.kept;
        let name = kept.name();
        let index = kept.clock as usize;
        let deps = if self.clocks.sites() > FEW_SITES {
            clock(&self.clocks.at(index), name)
        } else {
            clock(&self.clocks.at_of(index, FEW_SITES + 1), name)
        };
        Shadow {
            name,
            home: kept.home,
            account: kept.account,
            deps,
            amount: kept.amount,
            kind: kept.kind,
        }
    }
}
