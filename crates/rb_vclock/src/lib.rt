//! A site's clock: how many blue operations of each site, and how many red ones of all, it applied.
//! Tests: rb_tests, refused.rt.
#![tactic(auto)]

mod clock;

ghost use Rattle.rb_vclock.specs.Clocks.{AtLeastMeansWithin};

pub use clock::Clock;

/// One clock is at least another, entry by entry, exactly if it counts all the other's names.
pub fn at_least_means_within()
    ensures { AtLeastMeansWithin }
{}
