//! Whether a history is its seats' receipts, interleaved.
//!
//! A receipt has its entry's number, so a table of owners says for each entry which seat has its receipt. With it the
//! time is linear in entries and receipts; a search of all seats for each entry would cost their number times as much.
ghost use Rattle.std.specs.Prelude.{◌≡◌, ◌+◌, ◌^◌, ◌<◌, ◌↔◌, ℕ, IfOk, IfSome, IsNone, IsTrue, length};
ghost use Rattle.rb_site.specs.Seen.{entry as entry_of};
ghost use Rattle.rb_branch.specs.Gathered.{IsGathered};
ghost use Rattle.rb_branch.specs.Owners.{AllRead, AreDistinct, AreOwners, IsHolder};

use crate::Receipt;
use crate::owners::owners_of;
use crate::returned_seat::ReturnedSeat;
use rb_site::Entry;
use std::alloc::{AllocError, Global};

/// Whether the history of a site is the receipts of these seats, interleaved. Each entry is looked at once,
/// and each receipt, for any number of seats. `Err` means out of memory.
pub(crate) fn merges(
    alloc: Global,
    site: u8,
    history: &[Entry],
    seats: &[ReturnedSeat],
) -> Result<bool, AllocError>
    requires { length seats.now < 2 ^ 16 }
    ensures { IfOk result (λ b. IsTrue b ↔ IsGathered site history.now seats.now) }
{
    let owners = owners_of(alloc, site, history.len(), seats)?;
    let mut next: Vec<usize> = vec![in alloc; 0; seats.len()]?;
    for (i, entry) in history.iter().enumerate() {
        let Some(k) = holder(site, i, seats, next.as_slice(), owners.as_slice()) else {
            return Ok(false);
        };
        let taken = next[k];
        let seat = &seats[k];
        let receipt = seat.receipt(taken);
        if !is_of(receipt, entry) {
            return Ok(false);
        }
        next[k] = taken + 1;
    }
    Ok(all_read(site, seats, next.as_slice()))
}

/// The seat that the table contains at this index, if its next receipt has the number one above the index.
fn holder(
    site: u8,
    index: usize,
    seats: &[ReturnedSeat],
    next: &[usize],
    owners: &[u16],
) -> Option<usize>
    requires len { length next.now ≡ length seats.now }
    requires index { index < length owners.now }
    requires owners { AreOwners site seats.now owners.now }
    ensures found { IfSome result (λ k. IsHolder site (index + 1) seats.now next.now k) }
    ensures within { IfSome result (λ k. k < length seats.now) }
    ensures none { IsNone result → AreDistinct site seats.now → (k : ℕ)
        → ¬ IsHolder site (index + 1) seats.now next.now k }
{
    let k = owners[index] as usize;
    if k >= seats.len() {
        return None;
    }
    if seats[k].is_next(site, next[k], index + 1) {
        Some(k)
    } else {
        None
    }
}

/// Whether the receipt is of this entry.
fn is_of(receipt: &Receipt, entry: &Entry) -> bool
    ensures { IsTrue result ↔ (entry_of receipt.now.event receipt.now.reply ≡ entry.now) }
{
    receipt.event.same(&entry.event) && receipt.reply.same(&entry.reply)
}

/// Whether all receipts of the site were read.
fn all_read(site: u8, seats: &[ReturnedSeat], next: &[usize]) -> bool
    requires { length next.now ≡ length seats.now }
    ensures { IsTrue result ↔ AllRead site seats.now next.now }
{
    for k in 0..seats.len() {
        if !seats[k].is_read(site, next[k]) {
            return false;
        }
    }
    true
}
