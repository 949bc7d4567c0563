//! The operations that an operation depends on, counted.
//!
//! The test of the entries has no early end, so that several are compared at once. In a bank of up to three sites the
//! limit applies to the first entries alone, and all others are compared with 0.
ghost use Rattle.std.specs.Prelude.{◌≡◌, ◌≤◌, ◌&&◌, length, nat_le, ℕ};
ghost use Rattle.rb_money.specs.declared.limits.TheConstants.{MOST_SITES};
ghost use Rattle.rb_shadow.specs.declared.deps.TheConstants.{FEW};
ghost use Rattle.rb_shadow.specs.Operations.{entry_of, names_of_clock};
ghost use Rattle.rb_shadow.specs.Sound.{are_entries};

use crate::OpName;
use rb_money::{Limits, MOST_SITES};

/// Of a bank of up to this number of sites each site's entry is tested by itself.
const FEW: u8 = 3;

/// What an operation depends on, counted: how many blue operations of each site, by its number, and how many red ones.
#[derive(Clone, Copy, Debug, PartialEq, Eq)]
pub struct Deps {
    pub blue: [u32; MOST_SITES],
    pub red: u32,
}

impl Deps {
    /// The entry that counts names such as this one: 0 if there is no entry for the name's site.
    pub fn entry(&self, name: OpName) -> u32
        ensures { result ≡ entry_of self.now name }
    {
        match name {
            OpName::Blue { site, .. } => self.blue.get(usize::from(site)).copied().unwrap_or(0),
            OpName::Red { .. } => self.red,
        }
    }

    /// Whether the name is one of those that are counted.
    pub fn covers(&self, name: OpName) -> bool
        ensures { result ≡ names_of_clock self.now name }
    {
        let n = name.number();
        1 <= n && n <= self.entry(name)
    }

    /// Whether the entries are within their limits, and 0 for all but the first `sites` sites.
    #[inline(always)]
    pub(crate) fn is_clock(&self, sites: u8, limits: Limits) -> bool
        ensures { result ≡ (are_entries sites limits.blue self.now.blue && nat_le self.now.red limits.red) }
    {
        are_within(&self.blue, sites, limits.blue) && self.red <= limits.red
    }
}

/// Whether the entries are within the limit, and 0 for all but the first `sites` sites.
#[inline(always)]
fn are_within(entries: &[u32], sites: u8, limit: u32) -> bool
    requires { length entries.now ≡ MOST_SITES }
    ensures { result ≡ are_entries sites limit entries.now }
{
    if sites <= FEW {
        return are_within_few(entries, sites, limit);
    }
    are_within_many(entries, sites, limit)
}

/// Whether the entries are within the limit, and 0 past the first `sites` sites, in a bank of up to `FEW` sites.
#[inline(always)]
fn are_within_few(entries: &[u32], sites: u8, limit: u32) -> bool
    requires all { length entries.now ≡ MOST_SITES }
    requires few { sites ≤ FEW }
    ensures { result ≡ are_entries sites limit entries.now }
{
    let first = if sites == 0 { 0 } else { limit };
    let second = if sites <= 1 { 0 } else { limit };
    let third = if sites <= 2 { 0 } else { limit };
    (entries[0] <= first) & (entries[1] <= second) & (entries[2] <= third) & are_none(&entries[3..])
}

/// Whether all entries are 0.
#[inline(always)]
fn are_none(entries: &[u32]) -> bool
    ensures { (limit : ℕ) → result ≡ are_entries 0 limit entries.now }
{
    let mut none = true;
    for n in entries {
        none &= *n == 0;
    }
    none
}

/// Whether the entries are within the limit, and 0 past the first `sites` sites, for any number of sites.
fn are_within_many(entries: &[u32], sites: u8, limit: u32) -> bool
    ensures { result ≡ are_entries sites limit entries.now }
{
    let mut fits = true;
    for (site, n) in entries.iter().enumerate() {
        let most = if site < usize::from(sites) { limit } else { 0 };
        fits &= *n <= most;
    }
    fits
}
