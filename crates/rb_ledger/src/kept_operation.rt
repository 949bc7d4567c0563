//! An operation without its clock's entries.
ghost use Rattle.std.specs.Prelude.{◌≡◌, IsTrue};
ghost use Rattle.rb_shadow.specs.Operations.{number_of, shown_colour};
ghost use Rattle.rb_ledger.specs.OperationLists.{kept_name};

use rb_money::Place;
use rb_shadow::{Colour, Kind, OpName, Shadow};

/// An operation as a list keeps it, without the entries of its clock. The fields lie in this order, in 32 bytes. The
/// site of a blue name isn't kept, as it is the home.
#[derive(Clone, Copy)]
pub struct KeptOperation {
    pub colour: Colour,
    pub home: u8,
    pub account: Place,
    /// The number in the name.
    pub number: u32,
    pub kind: Kind,
    /// The number of its clock, from 0, among those that are kept.
    pub clock: u32,
    pub amount: u64,
}

impl KeptOperation {
    /// The operation's name.
    #[inline(always)]
    pub fn name(&self) -> OpName
        ensures { result ≡ kept_name self.now.colour self.now.home self.now.number }
    {
        match self.colour {
            Colour::Blue => OpName::Blue {
                site: self.home,
                n: self.number,
            },
            Colour::Red => OpName::Red { n: self.number },
        }
    }

    /// Whether it is what a shadow is beside its clock.
    #[inline(always)]
    pub fn is_of(&self, shadow: &Shadow) -> bool
        ensures { IsTrue result → self.now ≡ record {
          colour = shown_colour shadow.now.name;
          home = shadow.now.home;
          account = shadow.now.account;
          number = number_of shadow.now.name;
          kind = shadow.now.kind;
          clock = self.now.clock;
          amount = shadow.now.amount;
        } }
    {
        self.colour == shadow.name.colour()
            && self.number == shadow.name.number()
            && self.home == shadow.home
            && self.account == shadow.account
            && self.amount == shadow.amount
            && self.kind == shadow.kind
    }
}
