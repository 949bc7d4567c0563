//! An order, followed through histories that their sites record. Histories don't say what was sent, so sites take their
//! entries again in the order, and a receipt has to come after its message.
ghost use Rattle.std.specs.Prelude.{◌≡◌, ◌↔◌, IsTrue, IfOk, IfSome, MatchBool, false, length, map, drop};
ghost use Rattle.std.specs.Prelude.{option_map, slice_get};
ghost use Rattle.std.specs.List.{range_with_len};
ghost use Rattle.rb_site.specs.Events.{is_full};
ghost use Rattle.rb_site.specs.Seen.{first_seen, state_of};
ghost use Rattle.rb_auditor.specs.Certificates.{Certifies};
ghost use Rattle.rb_auditor.specs.Findings.{IsReplay, lists_of};
ghost use Rattle.rb_auditor.specs.Progress.{IsHeldUp};
ghost use Rattle.rb_auditor.specs.Walks.{AreAtEnd, AreReplays, IsAlong, IsBeforeEnd, TakesNext};

use crate::checking::sent_before::SentBefore;
use crate::checking::sites::{close_all, open_all};
use rb_money::{Config, Refusal};
use rb_site::{Entry, ErasedEntry, History, Reply, Site};
use std::alloc::{AllocError, Global};

/// Whether one world could have recorded these histories in this order. Each is one that its site records. `Err`
/// means out of memory.
pub fn follow(
    alloc: Global,
    config: &Config,
    histories: &[History],
    order: &[u8],
) -> Result<bool, AllocError>
    requires one { length histories.now ≡ config.now.sites }
    requires replays { AreReplays config.now (lists_of histories.now) }
    ensures { IfOk result (λ yes. IsTrue yes ↔ Certifies config.now (lists_of histories.now) order.now) }
{
    let mut sites = open_all(alloc, config)?;
    let answer = lead(alloc, config, &mut sites, histories, order);
    close_all(sites);
    answer
}

/// Whether the sites, which are before any event, come to the ends of their histories in this order. `Err` means out of
/// memory.
fn lead(
    alloc: Global,
    config: &Config,
    sites: &mut Vec<Site<ErasedEntry>>,
    histories: &[History],
    order: &[u8],
) -> Result<bool, AllocError>
    requires first { sites.old.items ≡ map (first_seen config.now) (range_with_len 0 config.now.sites) }
    requires one { length histories.now ≡ config.now.sites }
    requires replays { AreReplays config.now (lists_of histories.now) }
    ensures { IfOk result (λ yes. IsTrue yes ↔ Certifies config.now (lists_of histories.now) order.now) }
{
    let mut sent = SentBefore::new(alloc);
    for place in order {
        if *place >= config.sites() {
            return Ok(false);
        }
        let site = *place as usize;
        if !take_next(&mut sites[site], histories[site].as_slice(), &mut sent)? {
            return Ok(false);
        }
    }
    Ok(are_at_end(sites.as_slice(), histories))
}

/// Takes the site's next entry of its history, if one is left and it isn't the receipt of a message that wasn't sent.
/// The messages that it sends go to the end of those before. `Err` means out of memory.
fn take_next(
    site: &mut Site<ErasedEntry>,
    history: &[Entry],
    sent: &mut SentBefore,
) -> Result<bool, AllocError>
    requires along { IsAlong site.old history.now }
    requires replays { IsReplay site.old.settings site.old.me history.now }
    ensures { IfOk result (λ took. MatchBool took
        (TakesNext site.old site.new history.now sent.old.messages.items sent.new.messages.items)
        (IsHeldUp sent.old.messages.items (drop (length site.old.entries) history.now))) }
{
    let Some(entry) = next_entry(site, history) else {
        return Ok(false);
    };
    if !sent.may_come(&entry.event) {
        return Ok(false);
    }
    let first = sent.messages.len();
    let mut reply = Reply::Refused(Refusal::HistoryFull);
    site.answer(&entry.event, &mut sent.messages, &mut reply)?;
    sent.note_from(first)?;
    Ok(true)
}

/// The entry after those that the site recorded, if one is left: its history isn't full then.
fn next_entry<'a>(site: &Site<ErasedEntry>, history: &'a [Entry]) -> Option<&'a Entry>
    requires along { IsAlong site.now history.now }
    requires replays { IsReplay site.now.settings site.now.me history.now }
    ensures next { option_map (λ x. x.now) result ≡ slice_get history.now (length site.now.entries) }
    ensures room { IfSome result (λ _. is_full site.now.settings (state_of site.now) ≡ false) }
{
    history.get(site.len() as usize)
}

/// Whether each site recorded its whole history.
fn are_at_end(sites: &[Site<ErasedEntry>], histories: &[History]) -> bool
    requires { length sites.now ≡ length histories.now }
    ensures { MatchBool result (AreAtEnd (lists_of histories.now) sites.now)
        (IsBeforeEnd (lists_of histories.now) sites.now) }
{
    for k in 0..sites.len() {
        if (sites[k].len() as usize) < histories[k].len() {
            return false;
        }
    }
    true
}
