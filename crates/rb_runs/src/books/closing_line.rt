//! The line that closing a bank's books answers.
//!
//! Once no site lacks an operation the balances of all sites agree, so the next bank starts with those of the first.
ghost use Rattle.std.specs.Prelude.{◌≡◌, ◌<◌, ◌≤◌, ℕ, List, IfOk, IfSome, None, Some, length, slice_get};
ghost use Rattle.rb_money.specs.Faults.{config_fault};
ghost use Rattle.rb_money.specs.Settings.{IsConfigured};
ghost use Rattle.rb_money.specs.declared.limits.TheConstants.{MOST_SITES};
ghost use Rattle.rb_auditor.specs.Replays.{ended_sites};
ghost use Rattle.rb_history.specs.Verdicts.{limit_json, verdict_line};
ghost use Rattle.rb_site.specs.Histories.{AreOneWorlds};
ghost use Rattle.rb_runs.specs.AddedAccounts.{added_fault};
ghost use Rattle.rb_runs.specs.Books.{ReportsBalances, ReportsClosing, input_at, next_accounts, sites_of_next};

use crate::audit::verdict::fault_line;
use crate::books::balances::{balances_at, first_above};
use crate::books::laws::{closed_balances_agree, open_lists_are_lacking};
use crate::books::next::{NextBank, next_of_balances};
use crate::books::open::{are_empty, open_lists};
use crate::recorded::text::config_line;
use rb_auditor::{Auditor, close_all};
use rb_history::{limit_line, open_line};
use rb_ledger::Ledger;
use rb_money::{Config, Place};
use rb_site::{ErasedEntry, Site};
use std::alloc::{AllocError, Global};

/// The line that names the account at the place. `Err` means out of memory.
fn above_line(alloc: Global, config: &Config, place: usize) -> Result<Vec<u8>, AllocError>
    requires configured { IsConfigured config.now }
    requires account { place < length config.now.names }
    ensures { IfOk result (λ line. (name : List ℕ) × (slice_get config.now.names place ≡ Some name)
        × (line.items ≡ verdict_line (limit_json name))) }
{
    let Some(name) = config.accounts().name(Place(place as u16)) else {
        unreachable!();
    };
    limit_line(alloc, name)
}

/// Of books that may be closed, the next configuration's line, or the line of the first account that has more than it
/// may start with, and whether it is the first. `Err` means out of memory.
fn answer_closed(
    alloc: Global,
    ledger: &Ledger,
    ask: &NextBank<'_>,
) -> Result<(bool, Vec<u8>), AllocError>
    requires proper { config_fault (sites_of_next ledger.now.settings ask.now.sites)
        (next_accounts ledger.now.settings ledger.now.settings.starts ask.now) ledger.now.settings.limits ≡ None }
    ensures { IfOk result
        (λ found. ReportsBalances ask.now found.0 ledger.now.settings ledger.now.entries found.1.items) }
{
    let config = ledger.config();
    let balances = balances_at(alloc, ledger)?;
    if let Some(place) = first_above(balances.as_slice()) {
        let line = above_line(alloc, config, place)?;
        return Ok((false, line));
    }
    let next = next_of_balances(alloc, config, balances.as_slice(), ask)?;
    let line = config_line(alloc, &next)?;
    Ok((true, line))
}

/// The line for sites at the end of one world's histories, of which this is the first, and whether it is the next
/// configuration's. `Err` means out of memory.
fn answer_accepted(
    alloc: Global,
    first: &Site<ErasedEntry>,
    sites: &[Site<ErasedEntry>],
    ask: &NextBank<'_>,
) -> Result<(bool, Vec<u8>), AllocError>
    requires first { slice_get sites.now 0 ≡ Some first.now }
    requires configured { IsConfigured first.now.settings }
    requires ended { sites.now ≡ ended_sites first.now.settings 0 (input_at first.now.settings sites.now).histories }
    requires one { AreOneWorlds first.now.settings (input_at first.now.settings sites.now).histories }
    requires proper { config_fault (sites_of_next first.now.settings ask.now.sites)
        (next_accounts first.now.settings first.now.settings.starts ask.now) first.now.settings.limits ≡ None }
    ensures { IfOk result
        (λ found. ReportsClosing ask.now found.0 (input_at first.now.settings sites.now) found.1.items) }
{
    open_lists_are_lacking();
    let lists = open_lists(alloc, sites)?;
    if !are_empty(lists.as_slice()) {
        let line = open_line(alloc, lists.as_slice())?;
        return Ok((false, line));
    }
    closed_balances_agree();
    answer_closed(alloc, first.ledger(), ask)
}

/// The line that closing the books of what the auditor read answers, and whether it is the next configuration's:
/// that configuration where the histories are one world's and no site lacks an operation that another has applied; else
/// what the audit finds, what each site lacks, or the first account that has more than it may start with. `Err` means
/// out of memory.
pub fn answer_closing(
    alloc: Global,
    auditor: Auditor,
    ask: &NextBank<'_>,
) -> Result<(bool, Vec<u8>), AllocError>
    requires sites { IfSome ask.now.sites (λ n. (2 ≤ n) × (n ≤ MOST_SITES)) }
    requires added { added_fault (Some auditor.settings) ask.now.added ≡ None }
    ensures { IfOk result (λ found. ReportsClosing ask.now found.0
        (record { settings = auditor.settings; histories = auditor.histories }) found.1.items) }
{
    // For a fact alone: its settings are those of a configuration.
    let _sites = auditor.config().sites();
    match auditor.finish_with_sites() {
        Ok((_order, sites)) => {
            let answer = answer_accepted(alloc, &sites[0], sites.as_slice(), ask);
            close_all(sites);
            answer
        }
        Err(fault) => Ok((false, fault_line(alloc, fault)?)),
    }
}
