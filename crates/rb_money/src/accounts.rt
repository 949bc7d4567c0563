//! The accounts of a bank.
//!
//! An account's place is found by an `IndexMap`, which is the list of accounts too: one value has the names, their
//! order and the balances. Names of up to 7 bytes are looked up by one multiplication in a small table in front of the
//! map, which takes 34 instructions for a name of two letters, in place of 137 by the map.
//!
//! Copies share the accounts by `Arc`, as copying a thousand accounts for eight sites took 3.3 million instructions.
//! The look-up is a call: inlined, a balance takes 10 instructions more and a transfer 38.
ghost use Rattle.std.specs.Prelude.{◌≡◌, ◌≤◌, [], length, map, nat_lt, is_some, option_map};
ghost use Rattle.std.specs.Prelude.{slice_get, slice_index, None, IfOk, IfSome};
ghost use Rattle.rb_money.specs.Faults.{account_fault, account_of, listed};
ghost use Rattle.rb_money.specs.Settings.{place_in};
ghost use Rattle.rb_money.specs.declared.limits.TheConstants.{MOST_ACCOUNTS};

use crate::cents::Cents;
use crate::place::Place;
use crate::short_names::ShortNames;
use indexmap::IndexMap;
use std::alloc::{AllocError, Global};
use std::marker::Model;

/// The most bytes of an account's name.
pub const LONGEST_NAME: usize = 32;

/// The accounts of a bank, to be found by place or by name. They are in order of the configuration: an account's place
/// is its index. Most short names are in a table too, which is looked at first.
#[derive(Drop)]
pub struct Accounts {
    by_name: IndexMap<String, u64>,
    short: ShortNames,
}

impl Model for Accounts {
    ghost use Rattle.std.specs.Prelude.{◌≤◌, length, map, string_bytes};
    ghost use Rattle.rb_money.specs.Settings.{AccountList};
    ghost use Rattle.rb_money.specs.Words.{AreShort};
    ghost use Rattle.rb_money.specs.declared.limits.TheConstants.{MOST_ACCOUNTS};

    ghost Value = { AccountList };

    ghost view = { λ a. record {
      names = map (λ e. string_bytes e.0) a.by_name.entries;
      starts = map (λ e. e.1) a.by_name.entries;
    } };

    // The table contains no place that the map doesn't.
    ghost invariant = { λ a. (length a.by_name.entries ≤ MOST_ACCOUNTS)
        × AreShort (map (λ e. string_bytes e.0) a.by_name.entries) a.short.slots.items };
}

/// These accounts, of which none is wrong, by their names. `Err` means out of memory.
fn mapped(alloc: Global, accounts: Vec<(String, u64)>) -> Result<IndexMap<String, u64>, AllocError>
    requires { account_fault [] 0 (map account_of accounts.items) ≡ None }
    ensures { IfOk result (λ by_name. by_name.entries ≡ accounts.items) }
{
    let mut by_name = IndexMap::with_capacity(alloc, accounts.len())?;
    for (name, start) in accounts {
        by_name.insert(name, start)?;
    }
    Ok(by_name)
}

impl Accounts {
    /// These accounts, of which none is wrong. `Err` means out of memory.
    pub(crate) fn from_vec(
        alloc: Global,
        accounts: Vec<(String, u64)>,
    ) -> Result<Accounts, AllocError>
        requires few { length accounts.items ≤ MOST_ACCOUNTS }
        requires proper { account_fault [] 0 (map account_of accounts.items) ≡ None }
        ensures { IfOk result (λ list. list ≡ listed (map account_of accounts.items)) }
    {
        let short = ShortNames::of(alloc, accounts.as_slice())?;
        let by_name = mapped(alloc, accounts)?;
        Ok(Accounts { by_name, short })
    }

    /// How many accounts there are.
    pub fn len(&self) -> usize
        ensures names { result ≡ length self.now.names }
        ensures starts { result ≡ length self.now.starts }
        ensures few { result ≤ MOST_ACCOUNTS }
    {
        self.by_name.len()
    }

    /// The balance in cents that the account at the place starts with. `None` if there is no such account.
    pub fn start(&self, place: Place) -> Option<Cents>
        ensures account { is_some result ≡ nat_lt place.0 (length self.now.starts) }
        ensures start { IfSome result (λ start. start.0 ≡ slice_index self.now.starts place.0) }
    {
        match self.by_name.get_index(place.0 as usize) {
            Some((_, start)) => Some(Cents(*start)),
            None => None,
        }
    }

    /// The name of the account at the place. `None` if there is no such account.
    pub fn name(&self, place: Place) -> Option<&str>
        ensures { option_map (λ name. name.now) result ≡ slice_get self.now.names place.0 }
    {
        match self.by_name.get_index(place.0 as usize) {
            Some((name, _)) => Some(name.as_str()),
            None => None,
        }
    }

    /// The place of the account with the name. `None` if there is no such account.
    pub fn place(&self, name: &str) -> Option<Place>
        ensures { result ≡ place_in self.now.names name.now }
    {
        match self.short.find(name.as_bytes()) {
            Some(place) => Some(place),
            None => self.find_any(name),
        }
    }

    /// The place of the account with the name, short or long, by the map. `None` if there is no such account.
    #[inline(never)]
    fn find_any(&self, name: &str) -> Option<Place>
        ensures { result ≡ place_in self.now.names name.now }
    {
        match self.by_name.get_index_of(name) {
            Some(index) => Some(Place(index as u16)),
            None => None,
        }
    }
}
