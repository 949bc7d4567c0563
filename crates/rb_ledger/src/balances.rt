//! Balances of a ledger's accounts.
ghost use Rattle.std.specs.Prelude.{◌≡◌, ◌↔◌, ◌≤◌, ◌<◌, ◌+◌, ◌+ℤ◌, ◌≤ℤ◌, length, take, pos, neg_ℤ, IsNone, IfSome};
ghost use Rattle.rb_money.specs.declared.limits.TheConstants.{MOST_BALANCE};
ghost use Rattle.rb_money.specs.declared.cents.TheConstants.{MOST_CENTS};
ghost use Rattle.rb_shadow.specs.Operations.{bal};
ghost use Rattle.rb_ledger.specs.Changes.{moved_at};
ghost use Rattle.rb_ledger.specs.OnAccount.{IsOn};

use crate::Ledger;
use crate::index::start;
use rb_money::Place;

impl Ledger {
    /// The balance of the account, in cents: what it starts with, and what the operations moved that
    /// neither cancel nor are cancelled. `None` if there is no such account.
    pub fn balance(&self, place: Place) -> Option<u64>
        ensures absent { IsNone result ↔ (length self.now.settings.starts ≤ place.0) }
        ensures sum { IfSome result (λ n. pos n ≡ bal self.now.settings self.now.entries place) }
        ensures bounded { IfSome result (λ n. n ≤ MOST_BALANCE) }
    {
        let head = self.index.heads.get(usize::from(place.0))?;
        Some(head.balance)
    }

    /// The balance of the account after the first `position` operations, in cents. `None` if there is no
    /// such account.
    pub fn balance_after(&self, position: u32, place: Place) -> Option<u64>
        requires { position ≤ length self.now.entries }
        ensures absent { IsNone result ↔ (length self.now.settings.starts ≤ place.0) }
        ensures sum { IfSome result (λ n. pos n ≡ bal self.now.settings (take position self.now.entries) place) }
        ensures bounded { IfSome result (λ n. n ≤ MOST_BALANCE) }
    {
        let head = self.index.heads.get(usize::from(place.0))?;
        Some(self.balance_at(self.last_within(position, head.last, place), place))
    }

    /// The cents that the operation at the position, counted from 1, moved on an account when it was applied: the
    /// balance as of it less the balance as of the one before. `None` if there is no such position.
    pub fn moved(&self, position: u32, place: Place) -> Option<i64>
        ensures moved { result ≡ moved_at self.now.settings self.now.entries place position }
        ensures least { IfSome result (λ n. neg_ℤ (pos MOST_CENTS) ≤ℤ n) }
        ensures most { IfSome result (λ n. n ≤ℤ pos MOST_CENTS) }
    {
        let entry = self.operation(position)?;
        if !self.index.is_on(&self.entries.all(), &entry, place) {
            return Some(0);
        }
        let link = self.link_at(position, place);
        let before = self.balance_at(link.earlier, place);
        Some(net(link.balance, before))
    }

    /// The balance of an account just after its entry at the position, or what it starts with.
    pub(crate) fn balance_at(&self, position: u32, place: Place) -> u64
        requires on { IsOn self.now.entries place position }
        requires account { place.0 < length self.now.settings.starts }
        ensures sum { pos result ≡ bal self.now.settings (take position self.now.entries) place }
        ensures bounded { result ≤ MOST_BALANCE }
    {
        let config = self.config();
        if position == 0 {
            return start(config, place);
        }
        self.link_at(position, place).balance
    }
}

/// The balance after an operation less the balance before it.
fn net(after: u64, before: u64) -> i64
    requires after { after ≤ MOST_BALANCE }
    requires before { before ≤ MOST_BALANCE }
    requires more { after ≤ before + MOST_CENTS }
    requires less { before ≤ after + MOST_CENTS }
    ensures difference { pos after ≡ pos before +ℤ result }
    ensures least { neg_ℤ (pos MOST_CENTS) ≤ℤ result }
    ensures most { result ≤ℤ pos MOST_CENTS }
{
    after as i64 - before as i64
}
