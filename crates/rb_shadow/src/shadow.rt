//! Shadow operations.
ghost use Rattle.std.specs.Prelude.{◌≡◌, ◌↔◌, ℕ, Some, None, IsTrue, OnOk, IfErr};
ghost use Rattle.rb_shadow.specs.Operations.{same_shadow};
ghost use Rattle.rb_shadow.specs.Sound.{fault_of};

use crate::{Deps, Kind, OpName};
use rb_money::{Config, MOST_CENTS, Place, Refusal};

/// The effect of a request, as it is sent to every site.
#[derive(Clone, Copy, Debug, PartialEq, Eq)]
pub struct Shadow {
    pub name: OpName,
    /// The number of the site that made it, from 0.
    pub home: u8,
    pub account: Place,
    /// The counts of what its home had applied when it was made.
    pub deps: Deps,
    /// In cents. A cancellation has its target's.
    pub amount: u64,
    pub kind: Kind,
}

impl Shadow {
    /// Whether a site of this configuration could have made the shadow, as far as the shadow alone shows.
    ///
    /// The error is `BadMessage`, with the first of these as its `why`:
    ///
    /// 1. the home is no site, or a blue name is of another site than the home;
    /// 2. the name's number is 0, or over the limit of its colour;
    /// 3. the account isn't one of the configuration's, or a transfer would go to one that isn't or to its own;
    /// 4. the amount is over `MOST_CENTS`, or 0 for another kind than an Interest or a Cancel;
    /// 5. a Withdraw or a Transfer has a blue name, or a Deposit, a Declined or an Interest a red one;
    /// 6. a Cancel's target isn't one of the operations that the home had applied;
    /// 7. an entry of `deps` is over its limit, one past the sites isn't 0, or the one of the own
    ///    name isn't that name's number less 1.
    #[inline(always)]
    pub fn sound(&self, config: &Config) -> Result<(), Refusal>
        ensures sound { OnOk result (fault_of config.now self.now ≡ None) }
        ensures faulty { IfErr result (λ refusal. (why : ℕ) × (refusal ≡ Refusal.BadMessage why)
            × (fault_of config.now self.now ≡ Some why)) }
    {
        match self.fault(config) {
            None => Ok(()),
            Some(why) => Err(Refusal::BadMessage { why }),
        }
    }

    #[tactic(auto, unfolding(crate::specs::Sound::fault_of))]
    #[inline(always)]
    fn fault(&self, config: &Config) -> Option<u8>
        ensures { result ≡ fault_of config.now self.now }
    {
        let (sites, limits) = (config.sites(), config.limits());
        let accounts = config.accounts().len();
        if self.home >= sites || self.name.is_foreign(self.home) {
            return Some(1);
        }
        let n = self.name.number();
        if n == 0 || n > self.name.most(limits) {
            return Some(2);
        }
        if usize::from(self.account.0) >= accounts
            || self.kind.is_misdirected(accounts, self.account)
        {
            return Some(3);
        }
        if self.amount > MOST_CENTS || (self.amount == 0 && !self.kind.may_be_nothing()) {
            return Some(4);
        }
        if self.kind.is_miscoloured(self.name) {
            return Some(5);
        }
        if self.kind.cancels_unseen(sites, &self.deps) {
            return Some(6);
        }
        if !self.deps.is_clock(sites, limits) || self.deps.entry(self.name) != n - 1 {
            return Some(7);
        }
        None
    }

    /// Whether the two are equal, field by field.
    #[inline(always)]
    pub fn same(&self, other: &Shadow) -> bool
        ensures same { result ≡ same_shadow self.now other.now }
        ensures equal { IsTrue result ↔ (self.now ≡ other.now) }
    {
        *self == *other
    }
}
