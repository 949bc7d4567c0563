//! Amounts of deposits, withdrawals and transfers.
//!
//! The range is tested once, by `Amount::new`, and is the type's invariant: code that has an `Amount` needs no check.
ghost use Rattle.std.specs.Prelude.{◌≡◌, true, false, IfOk, OnOk, IfErr, OnErr};
ghost use Rattle.rb_money.specs.Amounts.{is_amount};

use crate::cents::{Cents, MOST_CENTS};
use crate::refusal::Refusal;
use std::marker::Model;

/// The amount that a deposit, a withdrawal or a transfer moves: 1 to `MOST_CENTS` cents.
#[derive(Clone, Copy, Debug, PartialEq, Eq)]
pub struct Amount {
    cents: u64,
}

impl Model for Amount {
    ghost use Rattle.std.specs.Prelude.{◌≡◌, ℕ, true};
    ghost use Rattle.rb_money.specs.Amounts.{is_amount};

    ghost Value = { ℕ };

    ghost view = { λ a. a.cents };

    ghost invariant = { λ a. is_amount a.cents ≡ true };

    ghost inverse = { λ n. record { cents = n } };
}

impl Amount {
    /// The amount of this number of cents, or `BadAmount` if it isn't 1 to `MOST_CENTS`.
    pub fn new(cents: u64) -> Result<Amount, Refusal>
        ensures value { IfOk result (λ amount. amount ≡ cents) }
        ensures proper { OnOk result (is_amount cents ≡ true) }
        ensures improper { OnErr result (is_amount cents ≡ false) }
        ensures why { IfErr result (λ why. why ≡ Refusal.BadAmount) }
    {
        if 1 <= cents && cents <= MOST_CENTS {
            Ok(Amount { cents })
        } else {
            Err(Refusal::BadAmount)
        }
    }

    /// How many cents it is.
    pub fn cents(self) -> Cents
        ensures same { result.0 ≡ self }
        ensures proper { is_amount result.0 ≡ true }
    {
        Cents(self.cents)
    }
}
