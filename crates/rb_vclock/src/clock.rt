//! Clocks.
//!
//! A site's operations are counted in order of their numbers, so a count for each site and one of the red ones are the
//! whole set of names. Two clocks are compared to the end, as several pairs of entries are compared at once.
ghost use Rattle.std.specs.Prelude.{◌≡◌, ◌↔◌, ◌≤◌, ◌+◌, ◌&&◌, ◌||◌, false, not, IsTrue, slice_index, length, ℕ};
ghost use Rattle.rb_shadow.specs.declared.op_name.OpName.{OpName};
ghost use Rattle.rb_shadow.specs.Operations.{HasEntry, IsWithin, entry_of, names_of_clock, number_of, same_name};
ghost use Rattle.rb_vclock.specs.Clocks.{IsAtLeast, lowered, raised, zero_clock};

use rb_money::MOST_SITES;
use rb_shadow::{Deps, OpName, Shadow};
use std::marker::Model;

/// Counts what a site applied: how many blue operations of each site, and how many red ones. Clients see its entries.
#[derive(Drop)]
pub struct Clock {
    entries: Deps,
}

impl Model for Clock {
    ghost use Rattle.rb_shadow.specs.declared.deps.Deps.{Deps};

    ghost Value = { Deps };

    ghost view = { λ c. c.entries };
}

impl Clock {
    /// The clock that counts nothing.
    pub fn zero() -> Clock
        ensures entries { result ≡ zero_clock }
        ensures names { (x : OpName) → names_of_clock result x ≡ false }
    {
        Clock {
            entries: Deps {
                blue: [0; MOST_SITES],
                red: 0,
            },
        }
    }

    /// The entries.
    pub fn entries(&self) -> &Deps
        ensures { result.now ≡ self.now }
    {
        &self.entries
    }

    /// The entries, as a shadow made now would carry them.
    pub fn deps(&self) -> Deps
        ensures { result ≡ self.now }
    {
        self.entries
    }

    /// Whether the name is one of those that the clock counts.
    pub fn covers(&self, name: &OpName) -> bool
        ensures { result ≡ names_of_clock self.now name.now }
    {
        self.entries.covers(*name)
    }

    /// Whether each entry is at least that of `deps`, so that all the names counted there are counted here.
    #[inline(always)]
    pub fn at_least(&self, deps: &Deps) -> bool
        ensures entries { IsTrue result ↔ IsAtLeast self.now deps.now }
        ensures names { IsTrue result ↔ IsWithin (names_of_clock deps.now) (names_of_clock self.now) }
    {
        are_at_least(&self.entries.blue, &deps.blue) && self.entries.red >= deps.red
    }

    /// Whether the clock has an entry for the shadow's name, which has its next number: what `advance` requires.
    pub fn is_next(&self, shadow: &Shadow) -> bool
        ensures { IsTrue result ↔ (HasEntry shadow.now.name ×
            (number_of shadow.now.name ≡ entry_of self.now shadow.now.name + 1)) }
    {
        has_entry(shadow.name)
            && self.entries.entry(shadow.name).checked_add(1) == Some(shadow.name.number())
    }

    /// Counts the name, which is the next of its entry.
    pub fn advance(&mut self, name: &OpName)
        requires next { number_of name.now ≡ entry_of self.old name.now + 1 }
        requires entry { HasEntry name.now }
        ensures entries { self.new ≡ raised self.old name.now }
        ensures names { (x : OpName) → names_of_clock self.new x ≡ (names_of_clock self.old x || same_name name.now x) }
    {
        match *name {
            OpName::Blue { site, n } => self.entries.blue[usize::from(site)] = n,
            OpName::Red { n } => self.entries.red = n,
        }
    }

    /// Counts the name no longer, which is the last of its entry.
    pub fn retreat(&mut self, name: &OpName)
        requires last { number_of name.now ≡ entry_of self.old name.now }
        requires positive { 1 ≤ number_of name.now }
        requires entry { HasEntry name.now }
        ensures entries { self.new ≡ lowered self.old name.now }
        ensures names { (x : OpName) → names_of_clock self.new x
            ≡ (names_of_clock self.old x && not (same_name name.now x)) }
    {
        match *name {
            OpName::Blue { site, n } => self.entries.blue[usize::from(site)] = n - 1,
            OpName::Red { n } => self.entries.red = n - 1,
        }
    }
}

fn has_entry(name: OpName) -> bool
    ensures { IsTrue result ↔ HasEntry name }
{
    match name {
        OpName::Blue { site, .. } => usize::from(site) < MOST_SITES,
        OpName::Red { .. } => true,
    }
}

/// Each pair is looked at, as several pairs are compared at once.
#[inline(always)]
fn are_at_least(entries: &[u32], others: &[u32]) -> bool
    requires { length others.now ≡ length entries.now }
    ensures { IsTrue result ↔ ((i : ℕ) → slice_index others.now i ≤ slice_index entries.now i) }
{
    let mut fits = true;
    for (entry, other) in entries.iter().zip(others) {
        fits &= *entry >= *other;
    }
    fits
}
