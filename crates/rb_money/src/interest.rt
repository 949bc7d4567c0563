//! The interest of a balance at a rate.
ghost use Rattle.std.specs.Prelude.{◌≡◌, ◌<◌, ◌≤◌, IfOk, OnOk, IfErr, OnErr};
ghost use Rattle.rb_money.specs.Amounts.{interest};
ghost use Rattle.rb_money.specs.declared.cents.TheConstants.{MOST_CENTS};

use crate::cents::{Cents, MOST_CENTS};
use crate::rate::{BASIS_POINTS_OF_ALL, Rate};
use crate::refusal::Refusal;

/// The interest of a balance at a rate, rounded down to whole cents, or `DeltaTooLarge` if that is
/// more than `MOST_CENTS`.
pub fn interest_of(balance: Cents, rate: Rate) -> Result<Cents, Refusal>
    ensures value { IfOk result (λ cents. cents.0 ≡ interest balance.0 rate) }
    ensures within { OnOk result (interest balance.0 rate ≤ MOST_CENTS) }
    ensures beyond { OnErr result (MOST_CENTS < interest balance.0 rate) }
    ensures why { IfErr result (λ why. why ≡ Refusal.DeltaTooLarge) }
{
    let interest = balance.0 as u128 * rate.basis_points() as u128 / BASIS_POINTS_OF_ALL as u128;
    if interest <= MOST_CENTS as u128 {
        Ok(Cents(interest as u64))
    } else {
        Err(Refusal::DeltaTooLarge)
    }
}
