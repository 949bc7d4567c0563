//! The entries on an account, from the last back.
//!
//! An entry has a link to the one before it on each of its accounts, so a statement reads the entries of its account
//! alone. A search as of a position begins at the position and, by links, at the next checkpoint.
ghost use Rattle.std.specs.Prelude.{◌≡◌, ◌↔◌, ◌≤◌, ◌<◌, ◌-◌, length, take, IsTrue, Some, [], ◌∷◌, ◌++◌};
ghost use Rattle.rb_money.specs.Settings.{IsConfigured};
ghost use Rattle.rb_money.specs.declared.limits.TheConstants.{MOST_OPERATIONS};
ghost use Rattle.rb_ledger.specs.Valid.{IsValid, parts_of};
ghost use Rattle.rb_ledger.specs.OnAccount.{IsOn, IsLast, IsNoneAfter};
ghost use Rattle.rb_ledger.specs.Index.{IsLink, IsLinked};

use crate::Ledger;
use crate::marks::{Link, Links, NO_LINK};
use rb_money::Place;
use rb_shadow::Shadow;
use rb_undo::UndoParts;

impl Ledger {
    /// The position of the last operation on the account, or 0 if none is on it.
    pub fn last_on(&self, place: Place) -> u32
        ensures last { IsLast self.now.entries place result }
        ensures within { result ≤ length self.now.entries }
        ensures few { result ≤ MOST_OPERATIONS }
    {
        match self.index.heads.get(usize::from(place.0)) {
            Some(head) => head.last,
            None => 0,
        }
    }

    /// The position of the last operation on the account before the one at the position, which is on it.
    /// It is 0 if there is no such operation.
    #[inline(always)]
    pub fn earlier(&self, position: u32, place: Place) -> u32
        requires on { IsOn self.now.entries place position }
        requires some { 0 < position }
        ensures last { IsLast (take (position - 1) self.now.entries) place result }
        ensures before { result < position }
    {
        self.links.earlier_on(position as usize - 1, place)
    }

    /// Of the first `limit` entries the position of the last that is on the account, or 0. `last` is that of all
    /// entries. Two searches go back by turns, until the first ends: one by the account's links from after the limit,
    /// and one by all entries from the limit.
    pub(crate) fn last_within(&self, limit: u32, last: u32, place: Place) -> u32
        requires within { limit ≤ length self.now.entries }
        requires last { IsLast self.now.entries place last }
        requires account { place.0 < length self.now.settings.starts }
        ensures last { IsLast (take limit self.now.entries) place result }
        ensures on { IsOn self.now.entries place result }
    {
        let mut at = self.last_from(limit, last, place);
        let mut back = limit;
        while at > limit {
            if self.is_on(back, place) {
                return back;
            }
            back -= 1;
            at = self.earlier(at, place);
        }
        at
    }

    /// Whether the position is that of an operation on the account, or 0.
    #[inline(always)]
    fn is_on(&self, position: u32, place: Place) -> bool
        requires { position ≤ length self.now.entries }
        ensures { IsTrue result ↔ IsOn self.now.entries place position }
    {
        match self.operation(position) {
            Some(entry) => self.index.is_on(&self.entries.all(), &entry, place),
            None => true,
        }
    }

    /// The position of an entry on the account, or 0, after which none of the first entries is on it: that of the last
    /// one as of the next checkpoint, if there is one, and else of the last of all, which is given.
    #[inline(always)]
    fn last_from(&self, limit: u32, last: u32, place: Place) -> u32
        requires last { IsLast self.now.entries place last }
        requires account { place.0 < length self.now.settings.starts }
        ensures on { IsOn self.now.entries place result }
        ensures after { IsNoneAfter (take limit self.now.entries) place result }
    {
        match self.checkpoints.last_from(limit, place) {
            Some(last) => last,
            None => last,
        }
    }

    /// The link, on an account, of the entry at the position, which is on it.
    #[inline(always)]
    pub(crate) fn link_at(&self, position: u32, place: Place) -> Link
        requires on { IsOn self.now.entries place position }
        requires some { 0 < position }
        ensures { IsLink self.now.settings (take (position - 1) self.now.entries) (take position self.now.entries) place
            result }
    {
        self.links.on(position as usize - 1, place)
    }

    /// The links of a shadow as the next entry, with what is kept to undo it.
    #[inline(always)]
    pub(crate) fn links_of(&self, shadow: &Shadow, parts: &UndoParts) -> Links
        requires configured { IsConfigured self.now.settings }
        requires valid { IsValid self.now.settings (self.now.entries ++ shadow.now ∷ []) }
        requires parts { parts.now ≡ parts_of self.now.settings self.now.entries shadow.now }
        ensures { IsLinked self.now.settings self.now.entries shadow.now result }
    {
        let (added, taken) = self.moved_by(shadow, parts.target);
        let own_balance = parts.balance + added - taken;
        let own = self.link(parts.place, own_balance);
        if parts.other == Place::NOWHERE {
            return Links {
                own,
                account: shadow.account,
                other: NO_LINK,
            };
        }
        let other_balance = parts.other_balance + taken - added;
        let other = self.link(parts.other, other_balance);
        Links {
            own,
            account: shadow.account,
            other,
        }
    }

    /// The link of the next entry on an account, with the balance after it.
    fn link(&self, place: Place, balance: u64) -> Link
        requires { place.0 < length self.now.settings.starts }
        ensures balance { result.balance ≡ balance }
        ensures earlier { IsLast self.now.entries place result.earlier }
    {
        let head = self.index.heads[usize::from(place.0)];
        Link {
            balance,
            earlier: head.last,
        }
    }
}
