//! The books of a branch.
//!
//! Both ledgers count under one lock, which an event takes for a moment. So there are as many entries as receipts
//! whenever it is got, by the type alone; with a lock for each ledger no type could say so.
ghost use Rattle.std.specs.Prelude.{◌≡◌, ◌+◌, ◌<◌, ◌≤◌, ◌↔◌, [], IsSome, IfSome, OnSome};
ghost use Rattle.rb_branch.specs.declared.limits.TheConstants.{MOST_SEATS, RECEIPT_PARTS};

use crate::{Entries, MOST_SEATS, Seat};
use std::alloc::Global;
use std::marker::Model;
use std::sync::ledger::{Blank, Book, Ledger, Share};

/// The contents of the one lock that all sites share: how many entries and how many receipts there are,
/// which is one number, and the parts of the receipts that no seat has. Clients see how many seats were given.
#[derive(Drop)]
pub struct Books<E: Entries, R: Ledger> {
    entries: Book<E>,
    receipts: Book<R>,
    rest: Share<R>,
    seats: u32,
    spare: Share<E>,
}

impl<E: Entries, R: Ledger> Model for Books<E, R> {
    ghost use Rattle.std.specs.Prelude.{ℕ};
    ghost use Rattle.rb_branch.specs.Seats.{AreBooks};

    ghost Value = { ℕ };

    ghost view = { λ b. b.seats };

    ghost invariant = { λ b. AreBooks R.parts b.seats b.entries.total b.receipts.total b.rest.parts b.rest.amount };
}

impl<E: Entries, R: Ledger> Books<E, R> {
    /// New books, and all parts of the entries.
    pub(crate) fn open(entries: Blank, receipts: Blank) -> (Books<E, R>, Share<E>)
        requires entries { (entries.name ≡ E.name) × (entries.parts ≡ E.parts) }
        requires receipts { (receipts.name ≡ R.name) × (receipts.parts ≡ R.parts) × (receipts.parts ≡ RECEIPT_PARTS) }
        ensures none { result.0 ≡ 0 }
        ensures all { (result.1.parts ≡ E.parts) × (result.1.amount ≡ 0) }
    {
        let (entries, mut all) = entries.open::<E>();
        let spare = all.empty();
        let (receipts, rest) = receipts.open::<R>();
        (
            Books {
                entries,
                receipts,
                rest,
                seats: 0,
                spare,
            },
            all,
        )
    }

    /// A seat at a site, unless `MOST_SEATS` were given.
    pub(crate) fn seat(&mut self, alloc: Global, site: u8) -> Option<Seat<E, R>>
        requires { site < E.settings.sites }
        ensures some { IsSome result ↔ (self.old < MOST_SEATS) }
        ensures seat { IfSome result (λ s. s ≡ record { site = site; receipts = [] }) }
        ensures more { OnSome result (self.new ≡ self.old + 1) }
    {
        if self.seats >= MOST_SEATS {
            return None;
        }
        let Books { rest, seats, .. } = self;
        let share = rest.split_off(1, 0);
        *seats += 1;
        Some(Seat::open(alloc, site, share))
    }

    /// How many seats were given.
    pub(crate) fn seats(&self) -> u32
        ensures same { result ≡ self.now }
        ensures few { result ≤ MOST_SEATS }
    {
        self.seats
    }

    /// Counts what an event left: this number of entries at a site and of receipts at a seat, which is one number.
    pub(crate) fn count(
        &mut self,
        entry: &mut Share<E>,
        made: u64,
        receipt: &mut Share<R>,
        noted: u64,
    )
        requires same { made ≡ noted }
        requires entry { 0 < entry.old.parts }
        requires receipt { 0 < receipt.old.parts }
        ensures entry { (entry.new.amount ≡ entry.old.amount + made) × (entry.new.parts ≡ entry.old.parts) }
        ensures receipt { (receipt.new.amount ≡ receipt.old.amount + noted) × (receipt.new.parts ≡ receipt.old.parts) }
        ensures seats { self.new ≡ self.old }
    {
        let Books {
            entries,
            receipts,
            ..
        } = self;
        entries.add(entry, made);
        receipts.add(receipt, noted);
    }

    /// A share of the entries that has no part.
    pub(crate) fn empty(&mut self) -> Share<E>
        ensures none { (result.parts ≡ 0) × (result.amount ≡ 0) }
        ensures seats { self.new ≡ self.old }
    {
        self.spare.empty()
    }

    /// Both books, and the parts that no seat has.
    pub(crate) fn apart(self) -> (Book<E>, Book<R>, Share<R>)
        ensures same { result.0.total ≡ result.1.total }
        ensures parts { (result.2.parts + self ≡ R.parts) × (R.parts ≡ RECEIPT_PARTS) }
        ensures none { result.2.amount ≡ 0 }
    {
        let Books {
            entries,
            receipts,
            rest,
            seats: _,
            spare,
        } = self;
        drop(spare);
        (entries, receipts, rest)
    }
}
