//! Counts of sites.
ghost use Rattle.std.specs.Prelude.{◌≡◌};
ghost use Rattle.rb_history.specs.Counts.{widened};

use rb_money::{MOST_SITES, MOST_SITES_OF_VERSION_1};

/// The counts of the sites that version 1 may have, and 0 for each further site.
pub fn widened(first: &[u32; MOST_SITES_OF_VERSION_1]) -> [u32; MOST_SITES]
    ensures { result ≡ widened first.now }
{
    let mut counts = [0; MOST_SITES];
    for site in 0..MOST_SITES_OF_VERSION_1 {
        counts[site] = first[site];
    }
    counts
}
