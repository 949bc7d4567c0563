//! Messages, listed by their numbers: the positions of those whose number was the next are in a row, and the others are
//! apart. So one look in a row finds a message, and only the others, of which a run of a world has none, are looked
//! through.
ghost use Rattle.std.specs.Prelude.{◌≡◌, ℕ, List, Some, IsTrue, OnOk, slice_get};
ghost use Rattle.rb_site.specs.declared.message.Message.{Message as TheMessage};
ghost use Rattle.rb_site.specs.Histories.{IsAmong};
ghost use Rattle.rb_auditor.specs.Findings.{lists_of};
ghost use Rattle.rb_auditor.specs.Sent.{IsListed, row_of_message, slot_of};

use crate::posted::Posted;
use std::alloc::AllocError;

/// Whether the message at a place among all was sent at the position that is listed in a slot of a row.
pub fn is_in_row(
    posted: &Posted<'_>,
    rows: &[Vec<usize>],
    row: usize,
    slot: usize,
    place: usize,
) -> bool
    ensures known { (m : TheMessage) → slice_get posted.now.all place ≡ Some m → IsTrue result
        → IsAmong m posted.now.items }
    ensures found { (m : TheMessage) (positions : List ℕ) (position : ℕ) → slice_get posted.now.all place ≡ Some m
        → slice_get (lists_of rows.now) row ≡ Some positions → slice_get positions slot ≡ Some position
        → slice_get posted.now.items position ≡ Some m → IsTrue result }
{
    match rows.get(row) {
        Some(positions) => match positions.get(slot) {
            Some(position) => posted.is_at(*position, place),
            None => false,
        },
        None => false,
    }
}

/// Whether the message at a place among all was sent at one of these positions.
pub fn is_at_one(posted: &Posted<'_>, positions: &[usize], place: usize) -> bool
    ensures known { (m : TheMessage) → slice_get posted.now.all place ≡ Some m → IsTrue result
        → IsAmong m posted.now.items }
    ensures found { (m : TheMessage) (k position : ℕ) → slice_get posted.now.all place ≡ Some m
        → slice_get positions.now k ≡ Some position → slice_get posted.now.items position ≡ Some m → IsTrue result }
{
    for position in positions {
        if posted.is_at(*position, place) {
            return true;
        }
    }
    false
}

/// Lists the position of a message, of this row and slot: in its row if its number is the next there, and else among
/// the others. `Err` means out of memory, and lists nothing more.
pub fn list(
    rows: &mut Vec<Vec<usize>>,
    others: &mut Vec<usize>,
    position: usize,
    row: usize,
    slot: usize,
) -> Result<(), AllocError>
    ensures kept { (j : ℕ) (m : TheMessage) → IsListed (lists_of rows.old.items) others.old.items j m
        → IsListed (lists_of rows.new.items) others.new.items j m }
    ensures listed { OnOk result ((m : TheMessage) → row_of_message m ≡ row → slot_of m ≡ slot
        → IsListed (lists_of rows.new.items) others.new.items position m) }
{
    if row < rows.len() && rows[row].len() == slot {
        rows[row].push(position)?;
    } else {
        others.push(position)?;
    }
    Ok(())
}
