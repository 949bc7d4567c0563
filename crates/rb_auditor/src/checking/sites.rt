//! The sites that record histories. A site can't be dropped, so each is closed, even if there is no memory for the
//! next. The search for an order opens its sites here too.
ghost use Rattle.std.specs.Prelude.{◌≡◌, IfOk, map};
ghost use Rattle.std.specs.List.{range_with_len};
ghost use Rattle.rb_site.specs.Seen.{first_seen};

use rb_money::Config;
use rb_site::{ErasedEntry, Site};
use std::alloc::{AllocError, Global};

/// A site for each number of the configuration, before any event. `Err` means out of memory.
pub fn open_all(alloc: Global, config: &Config) -> Result<Vec<Site<ErasedEntry>>, AllocError>
    ensures { IfOk result (λ sites. sites.items ≡ map (first_seen config.now) (range_with_len 0 config.now.sites)) }
{
    let mut sites = Vec::new(alloc);
    let count = config.sites();
    if sites.reserve(count as usize).is_err() {
        sites.destroy_empty();
        return Err(AllocError);
    }
    for me in 0..count {
        match Site::open_keeping(alloc, config, me) {
            Ok(site) => sites.push_reserved(site),
            Err(refused) => {
                close_all(sites);
                return Err(refused);
            }
        }
    }
    Ok(sites)
}

/// Closes sites whose state nobody asks for any more.
pub fn close_all(mut sites: Vec<Site<ErasedEntry>>) {
    'sites: while let Some(site) = sites.pop() {
        let _report = site.close();
    }
    sites.destroy_empty();
}
