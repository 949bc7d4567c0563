//! Lists.
//!
//! A `List` is a `Vec` whose capacity no contract sees, so two lists with the same items are the same value.
ghost use Rattle.std.specs.Prelude.{◌≡◌, ◌↔◌, IfOk, IsTrue};

use crate::Exact;
use std::alloc::{AllocError, Global};
use std::marker::Model;

/// A list that is its items, in order, whatever its capacity. Clients see the items.
#[derive(Debug, Drop)]
pub struct List<T> {
    items: Vec<T>,
}

impl<T> Model for List<T> {
    ghost use Rattle.std.specs.Prelude.{List as ListOf};

    ghost Value = { ListOf T };

    ghost view = { λ r. r.items.items };
}

impl<T> List<T> {
    /// The list of these items.
    pub fn new(items: Vec<T>) -> List<T>
        ensures { result ≡ items.items }
    {
        List { items }
    }

    /// The items, in order.
    pub fn as_slice(&self) -> &[T]
        ensures { result.now ≡ self.now }
    {
        self.items.as_slice()
    }

    /// The items themselves. This takes no memory.
    pub fn into_vec(self) -> Vec<T>
        ensures { result.items ≡ self }
    {
        let List { items } = self;
        items
    }
}

impl<T: Exact> List<T> {
    /// An equal list. `Err` means out of memory.
    pub fn try_copy(&self, alloc: Global) -> Result<List<T>, AllocError>
        ensures { IfOk result (λ copy. copy ≡ self.now) }
    {
        let items = self.items.as_slice().to_vec(alloc)?;
        Ok(List { items })
    }

    /// Whether the two are equal, one by one.
    pub fn same(&self, other: &List<T>) -> bool
        ensures { IsTrue result ↔ (self.now ≡ other.now) }
    {
        self.items.as_slice() == other.items.as_slice()
    }
}
