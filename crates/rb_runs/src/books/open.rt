//! Open operations: of each site the first of each home, and of the red ones, that it lacks.
//!
//! A site applies the operations of a home, and the red ones, in order of their numbers. So only the next number of
//! each is looked up at the sites, and the lists of operations aren't compared.
ghost use Rattle.std.specs.Prelude.{◌≡◌, ◌∷◌, ◌++◌, ◌↔◌, [], IfOk, IsTrue, OnOk, Some, filter, map, slice_get, List, ℕ};
ghost use Rattle.std.specs.List.{list_any};
ghost use Rattle.rb_shadow.specs.Operations.{names};
ghost use Rattle.rb_shadow.specs.declared.op_name.OpName.{OpName as TheName};
ghost use Rattle.rb_site.specs.Seen.{SeenSite, state_of};
ghost use Rattle.rb_runs.specs.Books.{applied_by, lacked, lacks};

use rb_shadow::OpName;
use rb_site::{ErasedEntry, Site};
use std::alloc::{AllocError, Global};

/// Whether the site has applied the operation of the name.
fn has_applied(site: &Site<ErasedEntry>, name: &OpName) -> bool
    ensures { result ≡ names (state_of site.now).ops name.now }
{
    site.ledger().find(name).is_some()
}

/// Whether one of the sites has.
fn any_applied(sites: &[Site<ErasedEntry>], name: &OpName) -> bool
    ensures { result ≡ list_any (λ us. names us name.now) (applied_by sites.now) }
{
    for site in sites {
        if has_applied(site, name) {
            return true;
        }
    }
    false
}

/// Adds the name to the list if the site lacks the operation. `Err` means out of memory.
fn add_lacked(
    list: &mut Vec<OpName>,
    sites: &[Site<ErasedEntry>],
    site: &Site<ErasedEntry>,
    name: OpName,
) -> Result<(), AllocError>
    ensures { OnOk result (list.new.items
        ≡ list.old.items ++ filter (lacks (applied_by sites.now) (state_of site.now).ops) (name ∷ [])) }
{
    if any_applied(sites, &name) && !has_applied(site, &name) {
        list.push(name)?;
    }
    Ok(())
}

/// Of each home, and of the red ones, the first operation that the site lacks. `Err` means out of memory.
fn lacked_at(
    alloc: Global,
    sites: &[Site<ErasedEntry>],
    site: &Site<ErasedEntry>,
) -> Result<Vec<OpName>, AllocError>
    ensures { IfOk result (λ list. list.items
        ≡ lacked site.now.settings.sites (applied_by sites.now) (state_of site.now).ops) }
{
    let ledger = site.ledger();
    let homes = ledger.config().sites();
    let mut list = Vec::new(alloc);
    for home in 0..homes {
        let n = ledger.blue_row(home).len() as u32 + 1;
        add_lacked(&mut list, sites, site, OpName::Blue { site: home, n })?;
    }
    let n = ledger.red_row().len() as u32 + 1;
    add_lacked(&mut list, sites, site, OpName::Red { n })?;
    Ok(list)
}

/// For each site the list of what it lacks. `Err` means out of memory.
pub fn open_lists(
    alloc: Global,
    sites: &[Site<ErasedEntry>],
) -> Result<Vec<Vec<OpName>>, AllocError>
    ensures { IfOk result (λ lists. map (λ list. list.items) lists.items
        ≡ map (λ (x : SeenSite). lacked x.settings.sites (applied_by sites.now) (state_of x).ops) sites.now) }
{
    let mut lists = Vec::new(alloc);
    for site in sites {
        let list = lacked_at(alloc, sites, site)?;
        lists.push(list)?;
    }
    Ok(lists)
}

/// Whether no list has a name.
pub fn are_empty(lists: &[Vec<OpName>]) -> bool
    ensures { IsTrue result ↔ ((i : ℕ) (list : List TheName)
        → slice_get (map (λ list. list.items) lists.now) i ≡ Some list → list ≡ []) }
{
    for list in lists {
        if !list.is_empty() {
            return false;
        }
    }
    true
}
