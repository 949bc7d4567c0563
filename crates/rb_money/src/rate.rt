//! Rates of interest.
//!
//! The range is tested once, by `Rate::new`, and is the type's invariant: code that has a `Rate` needs no check.
ghost use Rattle.std.specs.Prelude.{◌≡◌, ◌<◌, ◌≤◌, IfOk, OnOk, IfErr, OnErr};
ghost use Rattle.rb_money.specs.declared.rate.TheConstants.{MOST_RATE};

use crate::refusal::Refusal;
use std::marker::Model;

/// The most basis points of a rate.
pub const MOST_RATE: u32 = 10_000;

/// The basis points of a whole balance: a basis point is a hundredth of a percent.
pub const BASIS_POINTS_OF_ALL: u32 = 10_000;

/// A rate of interest: 0 to `MOST_RATE` basis points, hundredths of a percent.
#[derive(Clone, Copy, Debug, PartialEq, Eq)]
pub struct Rate {
    basis_points: u32,
}

impl Model for Rate {
    ghost use Rattle.std.specs.Prelude.{◌≤◌, ℕ};
    ghost use Rattle.rb_money.specs.declared.rate.TheConstants.{MOST_RATE};

    ghost Value = { ℕ };

    ghost view = { λ r. r.basis_points };

    ghost invariant = { λ r. r.basis_points ≤ MOST_RATE };

    ghost inverse = { λ n. record { basis_points = n } };
}

impl Rate {
    /// The rate of this number of basis points, or `BadRate` if it is more than `MOST_RATE`.
    pub fn new(basis_points: u32) -> Result<Rate, Refusal>
        ensures value { IfOk result (λ rate. rate ≡ basis_points) }
        ensures within { OnOk result (basis_points ≤ MOST_RATE) }
        ensures beyond { OnErr result (MOST_RATE < basis_points) }
        ensures why { IfErr result (λ why. why ≡ Refusal.BadRate) }
    {
        if basis_points <= MOST_RATE {
            Ok(Rate { basis_points })
        } else {
            Err(Refusal::BadRate)
        }
    }

    /// How many basis points it is.
    pub fn basis_points(self) -> u32
        ensures same { result ≡ self }
        ensures within { result ≤ MOST_RATE }
    {
        self.basis_points
    }
}
