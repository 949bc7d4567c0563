//! The balances that a bank ends with.
//!
//! A balance may be above what an account may start with, and then there is no next bank: the first such account is
//! looked for before one is made.
ghost use Rattle.std.specs.Prelude.{◌≡◌, ◌≤◌, ℕ, IfOk, MatchOption, Some, slice_get};
ghost use Rattle.rb_money.specs.declared.cents.TheConstants.{MOST_CENTS};
ghost use Rattle.rb_site.specs.Reports.{balances_of};
ghost use Rattle.rb_runs.specs.Books.{IsFirstAbove};

use rb_ledger::Ledger;
use rb_money::{MOST_CENTS, Place};
use std::alloc::{AllocError, Global};

/// Each account's balance, in order of place. `Err` means out of memory.
pub fn balances_at(alloc: Global, ledger: &Ledger) -> Result<Vec<u64>, AllocError>
    ensures { IfOk result (λ balances. balances.items ≡ balances_of ledger.now.settings ledger.now.entries) }
{
    let accounts = ledger.config().accounts().len();
    let mut balances = Vec::new(alloc);
    for place in 0..accounts {
        match ledger.balance(Place(place as u16)) {
            Some(balance) => balances.push(balance)?,
            None => unreachable!(),
        }
    }
    Ok(balances)
}

/// The first place of an account whose balance is above what an account may start with.
pub fn first_above(balances: &[u64]) -> Option<usize>
    ensures { MatchOption result ((i n : ℕ) → slice_get balances.now i ≡ Some n → n ≤ MOST_CENTS)
        (IsFirstAbove balances.now) }
{
    for place in 0..balances.len() {
        if balances[place] > MOST_CENTS {
            return Some(place);
        }
    }
    None
}
