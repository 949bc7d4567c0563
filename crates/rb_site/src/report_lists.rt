//! Memory for the lists of a report. It is taken while the site goes on, before each event, so that closing a site
//! takes none and can't fail.
ghost use Rattle.std.specs.Prelude.{◌≡◌, ◌≤◌, [], true, false, IfOk, OnOk, length, vec_capacity};
ghost use Rattle.rb_site.specs.Reports.{balances_of, counts_of};

use rb_ledger::Ledger;
use rb_money::Place;
use std::alloc::{AllocError, Global};
use std::marker::Model;

/// Memory for the balances and the counts of a report. Clients see for how many accounts and operations it is enough.
#[derive(Drop)]
pub struct ReportLists {
    balances: Vec<u64>,
    counts: Vec<u32>,
}

impl Model for ReportLists {
    ghost use Rattle.std.specs.Prelude.{◌≡◌, [], vec_capacity};
    ghost use Rattle.rb_site.specs.Reports.{RoomFor};

    ghost Value = { RoomFor };

    ghost view = { λ r. record { accounts = vec_capacity r.balances; entries = vec_capacity r.counts } };

    ghost invariant = { λ r. (r.balances.items ≡ []) × (r.counts.items ≡ []) };
}

impl ReportLists {
    /// Memory for this number of accounts, and for no operation yet, if the report has these lists. `Err` means out of
    /// memory.
    pub fn open(alloc: Global, reports: bool, accounts: usize) -> Result<ReportLists, AllocError>
        ensures { reports ≡ true → IfOk result (λ room. accounts ≤ room.accounts) }
    {
        let mut balances = Vec::new(alloc);
        if reports {
            balances.reserve(accounts)?;
        }
        Ok(ReportLists {
            balances,
            counts: Vec::new(alloc),
        })
    }

    /// Takes memory for this number of operations in all, if the report has these lists. `Err` means out of memory.
    #[inline(always)]
    pub fn grow(&mut self, reports: bool, entries: usize) -> Result<(), AllocError>
        ensures ok { reports ≡ true → OnOk result (entries ≤ self.new.entries) }
        ensures kept { self.old.entries ≤ self.new.entries }
        ensures accounts { self.new.accounts ≡ self.old.accounts }
    {
        if !reports {
            return Ok(());
        }
        self.counts.reserve(entries)
    }

    /// The balances, in cents, and the counts of a ledger, for which there is memory; both lists are empty if they
    /// aren't reported.
    pub fn filled(self, reports: bool, ledger: &Ledger) -> (Vec<u64>, Vec<u32>)
        requires accounts { reports ≡ true → length ledger.now.settings.starts ≤ self.accounts }
        requires entries { reports ≡ true → length ledger.now.entries ≤ self.entries }
        ensures balances { reports ≡ true → result.0.items ≡ balances_of ledger.now.settings ledger.now.entries }
        ensures counts { reports ≡ true → result.1.items ≡ counts_of ledger.now.entries }
        ensures unreported { reports ≡ false → (result.0.items ≡ []) × (result.1.items ≡ []) }
    {
        let ReportLists { balances, counts } = self;
        if !reports {
            return (balances, counts);
        }
        (with_balances(balances, ledger), with_counts(counts, ledger))
    }
}

/// Each account's balance.
fn with_balances(mut balances: Vec<u64>, ledger: &Ledger) -> Vec<u64>
    requires empty { balances.items ≡ [] }
    requires room { length ledger.now.settings.starts ≤ vec_capacity balances }
    ensures { result.items ≡ balances_of ledger.now.settings ledger.now.entries }
{
    let accounts = ledger.config().accounts().len();
    for place in 0..accounts {
        match ledger.balance(Place(place as u16)) {
            Some(balance) => balances.push_reserved(balance),
            None => unreachable!(),
        }
    }
    balances
}

/// How many operations cancel each one.
fn with_counts(mut counts: Vec<u32>, ledger: &Ledger) -> Vec<u32>
    requires empty { counts.items ≡ [] }
    requires room { length ledger.now.entries ≤ vec_capacity counts }
    ensures { result.items ≡ counts_of ledger.now.entries }
{
    let entries = ledger.len();
    for before in 0..entries {
        match ledger.count(before + 1) {
            Some(count) => counts.push_reserved(count),
            None => unreachable!(),
        }
    }
    counts
}
