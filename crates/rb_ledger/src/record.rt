//! The undo records of a ledger's operations.
ghost use Rattle.std.specs.Prelude.{◌≡◌, ◌<◌, ◌-◌, take, Some, IfSome, option_map, unwrap_or};
ghost use Rattle.rb_money.specs.Amounts.{cents};
ghost use Rattle.rb_shadow.specs.Operations.{bal};
ghost use Rattle.rb_ledger.specs.Valid.{IsValid, operation_at, parts_of};
ghost use Rattle.rb_ledger.specs.OnAccount.{IsOn};
ghost use Rattle.rb_ledger.specs.Records.{record_at};

use crate::Ledger;
use rb_money::Place;
use rb_shadow::Shadow;
use rb_undo::UndoParts;

impl Ledger {
    /// The record to undo the operation at a position, counted from 1: that of the operations before it. It is made
    /// from what is kept beside the operations, in a bounded number of steps. `None` if there is no such position.
    pub fn record(&self, position: u32) -> Option<UndoParts>
        ensures { result ≡ record_at self.now.settings self.now.entries position }
    {
        let entry = self.entry(position)?;
        Some(self.record_of(position, &entry))
    }

    /// The record to undo the entry at the position.
    fn record_of(&self, position: u32, entry: &Shadow) -> UndoParts
        requires { Some entry.now ≡ operation_at self.now.entries position }
        ensures { result ≡ parts_of self.now.settings (take (position - 1) self.now.entries) entry.now }
    {
        let second = self.index.other(&self.entries.all(), entry.kind);
        let balance = self.balance_before(position, entry.account);
        let other_balance = self.second_before(position, second);
        UndoParts {
            position,
            name: entry.name,
            place: entry.account,
            balance,
            target: self.index.target(entry.kind),
            other: second.unwrap_or(Place::NOWHERE),
            other_balance,
        }
    }

    /// The balance of an account just before its entry at the position, in cents.
    fn balance_before(&self, position: u32, place: Place) -> u64
        requires valid { IsValid self.now.settings self.now.entries }
        requires on { IsOn self.now.entries place position }
        requires some { 0 < position }
        ensures { result ≡ cents (bal self.now.settings (take (position - 1) self.now.entries) place) }
    {
        let link = self.link_at(position, place);
        self.balance_at(link.earlier, place)
    }

    /// The balance of the second account just before its entry at the position, in cents, or 0 if there isn't one.
    fn second_before(&self, position: u32, second: Option<Place>) -> u64
        requires valid { IsValid self.now.settings self.now.entries }
        requires on { IfSome second (λ place. IsOn self.now.entries place position) }
        requires some { 0 < position }
        ensures { result ≡ unwrap_or (option_map (λ a. cents (bal self.now.settings
            (take (position - 1) self.now.entries) a)) second) 0 }
    {
        match second {
            Some(place) => self.balance_before(position, place),
            None => 0,
        }
    }
}
