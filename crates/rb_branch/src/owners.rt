//! Which seat has which receipt of a site.
//!
//! The table is filled in one pass over the receipts, and takes two bytes for each entry. Of two seats with one number
//! it keeps the last. So a merge never reads the other's receipt, and finds in the end that it is left.
ghost use Rattle.std.specs.Prelude.{◌≡◌, ◌+◌, ◌^◌, ◌<◌, List, Some, slice_get, IfOk, length, vec_len};
ghost use Rattle.rb_branch.specs.Owners.{AreOwners, OwnedWithin, Puts, PutsAll};
ghost use Rattle.rb_branch.specs.Seats.{SeenSeat};

use crate::Receipt;
use crate::returned_seat::ReturnedSeat;
use std::alloc::{AllocError, Global};

/// For each number of the site, from 1 to this count, the seat that has its receipt, counted from 0; the
/// number of seats if none has. Of two with one number it is the last. `Err` means out of memory.
pub(crate) fn owners_of(
    alloc: Global,
    site: u8,
    count: usize,
    seats: &[ReturnedSeat],
) -> Result<Vec<u16>, AllocError>
    requires { length seats.now < 2 ^ 16 }
    ensures len { IfOk result (λ v. vec_len v ≡ count) }
    ensures owners { IfOk result (λ v. AreOwners site seats.now v.items) }
{
    let mut owners: Vec<u16> = vec![in alloc; seats.len() as u16; count]?;
    for k in 0..seats.len() {
        put_seat(&mut owners, k as u16, site, &seats[k]);
    }
    Ok(owners)
}

/// Puts the seat at k into the table at all numbers of its receipts, if it is of this site.
fn put_seat(owners: &mut Vec<u16>, k: u16, site: u8, seat: &ReturnedSeat)
    ensures len { vec_len owners.new ≡ vec_len owners.old }
    ensures owned { (seats : List SeenSeat) → slice_get seats k ≡ Some seat.now
        → OwnedWithin k site seats owners.old.items → OwnedWithin (k + 1) site seats owners.new.items }
{
    if seat.site() != site {
        return;
    }
    put_all(owners, k, seat.receipts());
}

/// Puts a seat into the table at the numbers of all these receipts.
fn put_all(owners: &mut Vec<u16>, k: u16, receipts: &[Receipt])
    ensures { PutsAll (length receipts.now) receipts.now k owners.old.items owners.new.items }
{
    for i in 0..receipts.len() {
        put(owners, k, receipts[i].number);
    }
}

/// Puts a seat into the table at a number, from 1, if the table is long enough.
fn put(owners: &mut Vec<u16>, k: u16, number: u32)
    ensures { Puts number k owners.old.items owners.new.items }
{
    let number = number as usize;
    if 1 <= number && number <= owners.len() {
        owners[number - 1] = k;
    }
}
