//! The first operations of a list.
//!
//! A rewound ledger keeps its whole list, and its index is that of the operations up to its position: a prefix.
ghost use Rattle.std.specs.Prelude.{◌≡◌, ◌<◌, length, slice_index_or};
ghost use Rattle.rb_shadow.specs.declared.shadow.Shadow.{Shadow as TheShadow};
ghost use Rattle.rb_shadow.specs.Operations.{receiver_of};

use crate::OperationList;
use rb_money::Place;
use std::marker::Model;

/// The first operations of a list.
#[derive(Drop)]
pub struct Prefix<'a> {
    pub(crate) all: &'a OperationList,
    pub(crate) count: usize,
}

impl<'a> Model for Prefix<'a> {
    ghost use Rattle.std.specs.Prelude.{List, take, length, ◌≤◌};
    ghost use Rattle.rb_shadow.specs.declared.shadow.Shadow.{Shadow};

    ghost Value = { List Shadow };

    ghost view = { λ p. take p.count p.all.now.items };

    ghost invariant = { λ p. p.count ≤ length p.all.now.items };
}

impl<'a> Prefix<'a> {
    /// How many there are.
    #[inline(always)]
    pub fn len(&self) -> usize
        ensures { result ≡ length self.now }
    {
        self.count
    }

    /// The second account of a transfer at an index, from 0.
    #[inline(always)]
    pub fn receiver(&self, index: usize) -> Option<Place>
        requires { index < length self.now }
        ensures { (d : TheShadow) → result ≡ receiver_of (slice_index_or self.now index d).kind }
    {
        self.all.receiver(index)
    }
}
