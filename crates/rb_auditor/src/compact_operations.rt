//! Operations that are kept in little memory.
//!
//! An operation is kept in little memory if its clock has entries of the bank's sites alone, its own entry is its
//! number less 1, and a blue name is its home's, as with those that sites make. All else is kept whole, in 112 bytes.
//! So 71 bytes an entry became 58.
ghost use Rattle.std.specs.Prelude.{◌≡◌, ◌≤◌, IsTrue, drop, length};
ghost use Rattle.rb_money.specs.declared.limits.TheConstants.{MOST_SITES as THE_MOST_SITES};
ghost use Rattle.rb_shadow.specs.Sound.{are_entries};
ghost use Rattle.rb_auditor.specs.MessageLists.{HasCompactForm};

use rb_shadow::Shadow;

/// At banks of up to this number of sites the entries of a clock that must be 0 are looked at all at once.
const FEW_SITES: usize = 3;

/// Whether the operation's clock has entries for the first `sites` sites alone, and counts all operations before it in
/// the row of its name, and a blue name is of its home, as with those that sites make.
#[inline(always)]
pub fn has_compact_form(sites: usize, shadow: &Shadow) -> bool
    requires { sites ≤ THE_MOST_SITES }
    ensures { IsTrue result → HasCompactForm sites shadow.now }
{
    if !are_none_from(&shadow.deps.blue, sites) {
        return false;
    }
    if shadow.name.is_foreign(shadow.home) {
        return false;
    }
    let entry = u64::from(shadow.deps.entry(shadow.name));
    let number = u64::from(shadow.name.number());
    entry + 1 == number
}

/// Whether all entries from a site on are 0.
#[inline(always)]
fn are_none_from(entries: &[u32], site: usize) -> bool
    requires all { length entries.now ≡ THE_MOST_SITES }
    requires within { site ≤ THE_MOST_SITES }
    ensures { result ≡ are_entries 0 0 (drop site entries.now) }
{
    if site == FEW_SITES {
        return are_none(&entries[FEW_SITES..]);
    }
    are_none(&entries[site..])
}

/// Whether all entries are 0.
#[inline(always)]
fn are_none(entries: &[u32]) -> bool
    ensures { result ≡ are_entries 0 0 entries.now }
{
    let mut none = true;
    for n in entries {
        none &= *n == 0;
    }
    none
}
