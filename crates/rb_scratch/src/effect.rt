//! Effects of requests.

use rb_money::{Cents, Place};
use rb_shadow::{Colour, Kind};

/// The decision of a generator on a request: the account, the amount, the kind and the colour of the
/// operation that it would make.
#[derive(Clone, Copy)]
pub struct Effect {
    pub account: Place,
    pub amount: Cents,
    pub kind: Kind,
    pub colour: Colour,
}
