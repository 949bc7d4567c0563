//! What is known of the held shadows that wait.
//!
//! Once nothing is ready, an entry of the clock that has to grow first is noted for each held shadow: the least of
//! these are the quiet clock. So no held shadow is looked at again until the site's clock leaves the quiet one, and
//! each is the cause of a look at all of them at most once for each entry of its past, whatever a faulty site sends.
ghost use Rattle.std.specs.Prelude.{◌≡◌, ◌<◌, ◌≤◌, ℕ, List, length, slice_index, IfSome};
ghost use Rattle.std.specs.Bool.{OnTrue};
ghost use Rattle.rb_money.specs.declared.limits.TheConstants.{MOST_SITES};
ghost use Rattle.rb_shadow.specs.Operations.{IsWithin, names_of_clock};
ghost use Rattle.rb_shadow.specs.declared.shadow.Shadow.{Shadow};
ghost use Rattle.rb_inbox.specs.Held.{with_held, without};
ghost use Rattle.rb_inbox.specs.Quiet.{IsCovered, IsQuiet};

use rb_money::MOST_SITES;
use rb_shadow::{Deps, OpName, Shadow};
use rb_vclock::Clock;

/// A clock at which all held shadows wait but the fresh one, if there is one: the only one that came since, ready.
#[derive(Clone, Copy)]
pub struct Quiet {
    pub clock: Deps,
    pub fresh: Option<OpName>,
}

impl Quiet {
    /// What is known if nothing is held: the greatest clock.
    pub fn new() -> Quiet {
        Quiet {
            clock: Deps {
                blue: [u32::MAX; MOST_SITES],
                red: u32::MAX,
            },
            fresh: None,
        }
    }

    /// Whether the clock is within the quiet one, entry by entry.
    pub fn reaches(&self, clock: &Clock) -> bool
        ensures { OnTrue result (IsWithin (names_of_clock clock.now) (names_of_clock self.now.clock)) }
    {
        let entries = clock.entries();
        are_within(&entries.blue, &self.clock.blue) && entries.red <= self.clock.red
    }

    /// Takes a shadow in: it waits for an entry of the site's clock that its past is ahead of, or it is the fresh one.
    /// `false` if it is ready, and so was another.
    #[tactic(auto, unfolding(rb_shadow::specs::Operations::past))]
    pub fn add(&mut self, shadow: &Shadow, clock: &Clock) -> bool
        ensures covers { OnTrue result (IsCovered self.new shadow.now) }
        ensures keeps { OnTrue result ((u : Shadow) → IsCovered self.old u → IsCovered self.new u) }
    {
        if lower(&mut self.clock, clock.entries(), shadow.home, &shadow.deps) {
            return true;
        }
        if self.fresh.is_some() {
            return false;
        }
        self.fresh = Some(shadow.name);
        true
    }
}

/// Takes a shadow in that is held from now on.
pub fn note_held(quiet: &mut Option<Quiet>, shadow: &Shadow, clock: &Clock)
    ensures { (us : List Shadow) → IsQuiet quiet.old us → IsQuiet quiet.new (with_held shadow.now us) }
{
    if let Some(known) = quiet {
        if !known.add(shadow, clock) {
            *quiet = None;
        }
    }
}

/// Takes the shadow of a name out, which is held no longer.
pub fn note_removed(quiet: &mut Option<Quiet>, name: &OpName)
    ensures { (us : List Shadow) → IsQuiet quiet.old us → IsQuiet quiet.new (without name.now us) }
{
    if let Some(known) = quiet {
        if let Some(fresh) = known.fresh {
            if fresh == *name {
                known.fresh = None;
            }
        }
    }
}

/// Lowers an entry of the quiet clock to just below that of the past, where the past is ahead of the site's clock.
/// `false` if it isn't ahead in any.
fn lower(quiet: &mut Deps, clock: &Deps, home: u8, past: &Deps) -> bool
    ensures waits { OnTrue result (¬ IsWithin (names_of_clock past.now) (names_of_clock quiet.new)) }
    ensures lower { IsWithin (names_of_clock quiet.new) (names_of_clock quiet.old) }
{
    if let Some(site) = site_ahead(&past.blue, &clock.blue, usize::from(home)) {
        quiet.blue[site] = quiet.blue[site].min(past.blue[site] - 1);
        return true;
    }
    if past.red > clock.red {
        quiet.red = quiet.red.min(past.red - 1);
        return true;
    }
    false
}

/// A site whose entry in the past is ahead of that in the clock: the home, if it is one. What a faulty home never sent
/// is waited for so, and not what the site makes itself.
fn site_ahead(past: &[u32], clock: &[u32], home: usize) -> Option<usize>
    requires { length clock.now ≡ length past.now }
    ensures { IfSome result (λ i. (i < length past.now) × (slice_index clock.now i < slice_index past.now i)) }
{
    if home < past.len() && past[home] > clock[home] {
        return Some(home);
    }
    for site in 0..past.len() {
        if past[site] > clock[site] {
            return Some(site);
        }
    }
    None
}

/// Whether each entry is at most the other.
fn are_within(entries: &[u32], others: &[u32]) -> bool
    requires { length others.now ≡ length entries.now }
    ensures { OnTrue result ((i : ℕ) → slice_index entries.now i ≤ slice_index others.now i) }
{
    let mut within = true;
    for (entry, other) in entries.iter().zip(others) {
        within &= *entry <= *other;
    }
    within
}
