//! Comparison of what events and replies hold.
ghost use Rattle.std.specs.Prelude.{◌≡◌, ◌↔◌, IsTrue};

use rb_kit::Exact;
use rb_money::{Place, Refusal};
use rb_shadow::Label;
use rb_token::TokenMessage;

/// The test of what the pattern finds in the value, and `false` if the value is another variant.
macro_rules! same_in {
    ($value:expr, $pattern:pat => $test:expr) => {
        match $value {
            $pattern => $test,
            _ => false,
        }
    };
}

pub(crate) use same_in;

/// Whether two values of a type whose `==` is exact are equal.
#[inline(always)]
pub fn same_value<T: Exact>(first: &T, second: &T) -> bool
    ensures { IsTrue result ↔ (first.now ≡ second.now) }
{
    *first == *second
}

/// Whether two places are equal.
pub fn same_place(first: &Place, second: &Place) -> bool
    ensures { IsTrue result ↔ (first.now ≡ second.now) }
{
    first.0 == second.0
}

/// Whether two labels are equal.
pub fn same_label(first: &Label, second: &Label) -> bool
    ensures { IsTrue result ↔ (first.now ≡ second.now) }
{
    *first == *second
}

/// Whether two refusals are equal.
pub fn same_refusal(first: &Refusal, second: &Refusal) -> bool
    ensures { IsTrue result ↔ (first.now ≡ second.now) }
{
    *first == *second
}

/// Whether two token messages are equal.
pub fn same_token(first: &TokenMessage, second: &TokenMessage) -> bool
    ensures { IsTrue result ↔ (first.now ≡ second.now) }
{
    first.epoch == second.epoch && first.to == second.to && first.red == second.red
}
