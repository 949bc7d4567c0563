//! Seats that were given back.
ghost use Rattle.std.specs.Prelude.{◌≡◌, ◌+◌, ◌^◌, ◌<◌, length, slice_index_or};
ghost use Rattle.rb_branch.specs.Owners.{is_next, is_read};

use crate::Receipt;
use std::marker::Model;

/// A seat that was given back: its site's number and its receipts.
#[derive(Drop)]
pub struct ReturnedSeat {
    site: u8,
    receipts: Vec<Receipt>,
}

impl Model for ReturnedSeat {
    ghost use Rattle.rb_branch.specs.Seats.{SeenSeat};

    ghost Value = { SeenSeat };

    ghost view = { λ g. record { site = g.site; receipts = g.receipts.items } };
}

impl ReturnedSeat {
    /// A seat of this site with these receipts.
    pub(crate) fn new(site: u8, receipts: Vec<Receipt>) -> ReturnedSeat
        ensures { result ≡ record { site = site; receipts = receipts.items } }
    {
        ReturnedSeat { site, receipts }
    }

    /// The site's number.
    pub(crate) fn site(&self) -> u8
        ensures { result ≡ self.now.site }
    {
        self.site
    }

    /// The receipts.
    pub(crate) fn receipts(&self) -> &[Receipt]
        ensures { result.now ≡ self.now.receipts }
    {
        self.receipts.as_slice()
    }

    /// The receipt at this index, from 0.
    pub(crate) fn receipt(&self, index: usize) -> &Receipt
        requires { index < length self.now.receipts }
        ensures here { result.now ≡ slice_index_or self.now.receipts index result.now }
        ensures fits { index + 1 < 2 ^ 64 }
    {
        &self.receipts()[index]
    }

    /// Whether the seat is of this site, and its receipt at this index has the number.
    pub(crate) fn is_next(&self, site: u8, index: usize, number: usize) -> bool
        ensures { result ≡ is_next site index number self.now }
    {
        if self.site != site {
            return false;
        }
        match self.receipts.get(index) {
            Some(receipt) => receipt.number as usize == number,
            None => false,
        }
    }

    /// Whether the seat has no receipt of this site from this index on.
    pub(crate) fn is_read(&self, site: u8, index: usize) -> bool
        ensures { result ≡ is_read site index self.now }
    {
        self.site != site || self.receipts.len() <= index
    }
}
