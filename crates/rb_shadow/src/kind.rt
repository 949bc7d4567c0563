//! Kinds of operations.
//!
//! Each table has a line for each kind, so a new kind without its line is refused.
ghost use Rattle.std.specs.Prelude.{◌≡◌, ◌≤◌, ◌⊎◌, ◌||◌, ◌&&◌, ◌==◌, None, false, is_some, nat_le, not, pos, ◌+ℤ◌};
ghost use Rattle.rb_money.specs.Refusals.{unless};
ghost use Rattle.rb_shadow.specs.Operations.{target_of, receiver_of, colour_of, moved, may_be_cancelled};
ghost use Rattle.rb_shadow.specs.Operations.{names_of_clock, same_colour, shown_colour};
ghost use Rattle.rb_shadow.specs.Labels.{label_of};
ghost use Rattle.rb_shadow.specs.Sound.{is_absent, may_be_nothing};

use crate::{Colour, Deps, Label, OpName};
use rb_money::Place;

/// The kind of an operation, by what it does.
#[derive(Clone, Copy, Debug, PartialEq, Eq)]
pub enum Kind {
    /// Adds its amount.
    Deposit,
    /// Takes its amount.
    Withdraw,
    /// A withdrawal or a transfer that wasn't covered: it moves nothing.
    Declined,
    /// Adds its amount, which its home worked out from the balance.
    Interest,
    /// Undoes what its target did.
    Cancel { target: OpName },
    /// Moves its amount from its account to another.
    Transfer { to: Place },
}

impl Kind {
    /// The name of the operation that one of this kind cancels: only a cancellation has a target.
    #[inline(always)]
    pub fn target(self) -> Option<OpName>
        ensures { result ≡ target_of self }
    {
        match self {
            Kind::Cancel { target } => Some(target),
            Kind::Deposit => None,
            Kind::Withdraw => None,
            Kind::Declined => None,
            Kind::Interest => None,
            Kind::Transfer { .. } => None,
        }
    }

    /// The account to which one of this kind moves its amount: only a transfer has one.
    #[inline(always)]
    pub fn receiver(self) -> Option<Place>
        ensures { result ≡ receiver_of self }
    {
        match self {
            Kind::Transfer { to } => Some(to),
            Kind::Deposit => None,
            Kind::Withdraw => None,
            Kind::Declined => None,
            Kind::Interest => None,
            Kind::Cancel { .. } => None,
        }
    }

    /// The colour of an operation of this kind, whose target, if it cancels one, is of the second kind.
    ///
    /// After "What can be blue? What must be red?" of the published paper: what could break "no balance is
    /// negative" is red.
    pub fn colour(self, target: Option<Kind>) -> Colour
        ensures { result ≡ colour_of self target }
    {
        match self {
            Kind::Deposit => Colour::Blue,
            Kind::Withdraw => Colour::Red,
            Kind::Declined => Colour::Blue,
            Kind::Interest => Colour::Blue,
            Kind::Cancel { .. } => match target {
                Some(Kind::Withdraw) => Colour::Blue,
                _ => Colour::Red,
            },
            Kind::Transfer { .. } => Colour::Red,
        }
    }

    /// The kind as replies show it.
    pub fn label(self) -> Label
        ensures { result ≡ label_of self }
    {
        match self {
            Kind::Deposit => Label::Deposit,
            Kind::Withdraw => Label::Withdraw,
            Kind::Declined => Label::Declined,
            Kind::Interest => Label::Interest,
            Kind::Cancel { .. } => Label::Cancel,
            Kind::Transfer { .. } => Label::Transfer,
        }
    }

    /// Whether an operation of this kind may be cancelled: a deposit, a withdrawal, interest or a transfer.
    pub fn may_be_cancelled(self) -> bool
        ensures { result ≡ may_be_cancelled self }
    {
        match self {
            Kind::Deposit | Kind::Withdraw | Kind::Interest | Kind::Transfer { .. } => true,
            Kind::Declined | Kind::Cancel { .. } => false,
        }
    }

    /// The cents that an operation of this kind and amount adds to its own account, and those that it takes from it.
    #[inline(always)]
    pub fn moved(self, amount: u64) -> (u64, u64)
        ensures sums { pos result.0 ≡ pos result.1 +ℤ moved self amount }
        ensures one { (result.0 ≡ 0) ⊎ (result.1 ≡ 0) }
        ensures added { result.0 ≤ amount }
        ensures taken { result.1 ≤ amount }
    {
        match self {
            Kind::Deposit => (amount, 0),
            Kind::Withdraw => (0, amount),
            Kind::Declined => (0, 0),
            Kind::Interest => (amount, 0),
            Kind::Cancel { .. } => (0, 0),
            Kind::Transfer { .. } => (0, amount),
        }
    }

    /// Whether an operation of this kind may be of no cents.
    pub(crate) fn may_be_nothing(self) -> bool
        ensures { result ≡ may_be_nothing self }
    {
        match self {
            Kind::Interest | Kind::Cancel { .. } => true,
            Kind::Deposit | Kind::Withdraw | Kind::Declined | Kind::Transfer { .. } => false,
        }
    }

    /// Whether it would move money to an account whose place isn't below `accounts`, or to its own.
    #[inline(always)]
    pub(crate) fn is_misdirected(self, accounts: usize, own: Place) -> bool
        ensures { result ≡ unless (λ to. nat_le accounts to.0 || (to.0 == own.0)) (receiver_of self) false }
    {
        match self.receiver() {
            Some(to) => usize::from(to.0) >= accounts || to.0 == own.0,
            None => false,
        }
    }

    /// Whether no operation of this kind, whatever its target, has a name of this colour.
    pub(crate) fn is_miscoloured(self, name: OpName) -> bool
        ensures { result ≡ (not (is_some (target_of self))
            && not (same_colour (shown_colour name) (colour_of self None))) }
    {
        match self.target() {
            Some(_) => false,
            None => !name.colour().same(self.colour(None)),
        }
    }

    /// Whether it cancels an operation of a site that the bank doesn't have, or one that the clock doesn't count.
    #[inline(always)]
    pub(crate) fn cancels_unseen(self, sites: u8, deps: &Deps) -> bool
        ensures { result ≡ unless (λ x. is_absent sites x || not (names_of_clock deps.now x)) (target_of self) false }
    {
        match self.target() {
            Some(target) => target.is_absent(sites) || !deps.covers(target),
            None => false,
        }
    }
}
