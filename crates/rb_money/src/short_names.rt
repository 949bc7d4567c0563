//! Short names of accounts, each looked up as one number.
//!
//! The number of a name is that of no other name, so one comparison finds it. A slot keeps the name that was put in
//! last: a look-up reads one slot and never probes, and a name that lost its slot is found by the map of `Accounts`.
ghost use Rattle.std.specs.Prelude.{◌≡◌, ◌≤◌, List, [], ℕ, length, map, string_bytes, None, Some, IfOk, IfSome};
ghost use Rattle.rb_money.specs.Faults.{account_fault, account_of};
ghost use Rattle.rb_money.specs.Settings.{place_in};
ghost use Rattle.rb_money.specs.Words.{AreBytes, AreShort, word};
ghost use Rattle.rb_money.specs.declared.limits.TheConstants.{MOST_ACCOUNTS};
ghost use Rattle.rb_money.specs.declared.short_names.TheConstants.{SHORT};

use crate::place::Place;
use std::alloc::{AllocError, Global};

/// The most bytes of a name that is looked up as one number.
const SHORT: usize = 7;

/// How many places for such names a table contains, in a bank of few accounts and in any other.
const FEW_SLOTS: usize = 128;

const SLOTS: usize = 2_048;

/// Spreads words over a table: an odd number near 2^64 by the golden ratio.
const SPREAD: u64 = 0x9e37_79b9_7f4a_7c15;

/// Finds most short names of a bank: the word of each is kept with its place, in the slot that `slot_of` gives.
#[derive(Drop)]
pub(crate) struct ShortNames {
    slots: Vec<(u64, Place)>,
}

/// A short name as one number: its bytes, the first the lowest, and a 1 above them.
#[inline(always)]
fn word_of(name: &[u8]) -> u64
    requires { length name.now ≤ SHORT }
    ensures word { result ≡ word name.now }
    ensures bytes { AreBytes name.now }
{
    let mut word = 1;
    let mut i = name.len();
    while 0 < i {
        i -= 1;
        word = word * 256 + name[i] as u64;
    }
    word
}

/// The slot of a word in a table of this length, a power of two.
#[inline(always)]
fn slot_of(word: u64, len: usize) -> usize {
    (word.wrapping_mul(SPREAD) >> 40) as usize & len.wrapping_sub(1)
}

impl ShortNames {
    /// The short names of these accounts, of which none is wrong. `Err` means out of memory.
    pub(crate) fn of(alloc: Global, accounts: &[(String, u64)]) -> Result<ShortNames, AllocError>
        requires few { length accounts.now ≤ MOST_ACCOUNTS }
        requires proper { account_fault [] 0 (map account_of accounts.now) ≡ None }
        ensures { IfOk result (λ short. AreShort (map (λ e. string_bytes e.0) accounts.now) short.slots.items) }
    {
        let len = if accounts.len() <= FEW_SLOTS / 2 {
            FEW_SLOTS
        } else {
            SLOTS
        };
        let mut slots = Vec::new(alloc);
        slots.resize(len, (0, Place(0)))?;
        let mut short = ShortNames { slots };
        for (i, account) in accounts.iter().enumerate() {
            short.put(account.0.as_bytes(), Place(i as u16));
        }
        Ok(short)
    }

    /// Puts the place of a name in, if it is short, whatever was there.
    fn put(&mut self, name: &[u8], place: Place)
        ensures { (names : List (List ℕ)) → AreShort names self.old.slots.items → place_in names name.now ≡ Some place →
            AreShort names self.new.slots.items }
    {
        if name.len() > SHORT {
            return;
        }
        let word = word_of(name);
        let slot = slot_of(word, self.slots.len());
        if slot < self.slots.len() {
            self.slots[slot] = (word, place);
        }
    }

    /// The place of the name, if the table has it.
    #[inline(always)]
    pub(crate) fn find(&self, name: &[u8]) -> Option<Place>
        ensures { IfSome result (λ place. (names : List (List ℕ)) → AreShort names self.now.slots.items →
            place_in names name.now ≡ Some place) }
    {
        if name.len() > SHORT {
            return None;
        }
        let word = word_of(name);
        let slot = slot_of(word, self.slots.len());
        if slot < self.slots.len() && self.slots[slot].0 == word {
            Some(self.slots[slot].1)
        } else {
            None
        }
    }
}
