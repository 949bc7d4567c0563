//! Histories that are there as a whole. An `Auditor` reads them entry by entry, so that there is one audit of both.
ghost use Rattle.std.specs.Prelude.{◌≡◌, ◌<◌, IfOk, OnOk, length};
ghost use Rattle.rb_auditor.specs.Audits.{HasMore};
ghost use Rattle.rb_auditor.specs.Findings.{lists_of};

use crate::Auditor;
use rb_money::Config;
use rb_site::{Entry, History};
use std::alloc::{AllocError, Global};

/// An auditor that read these histories, one for each site. `Err` means out of memory.
pub fn read_all(
    alloc: Global,
    config: &Config,
    histories: &[History],
) -> Result<Auditor, AllocError>
    requires { length histories.now ≡ config.now.sites }
    ensures settings { IfOk result (λ auditor. auditor.settings ≡ config.now) }
    ensures histories { IfOk result (λ auditor. auditor.histories ≡ lists_of histories.now) }
{
    let mut auditor = Auditor::open(alloc, config.try_copy()?)?;
    for site in 0..config.sites() {
        if read(&mut auditor, site, histories[site as usize].as_slice()).is_err() {
            auditor.close();
            return Err(AllocError);
        }
    }
    Ok(auditor)
}

/// Takes all entries of one site's history. `Err` means out of memory.
fn read(auditor: &mut Auditor, site: u8, history: &[Entry]) -> Result<(), AllocError>
    requires { site < length auditor.old.histories }
    ensures settings { auditor.new.settings ≡ auditor.old.settings }
    ensures ok { OnOk result (HasMore auditor.old auditor.new site history.now) }
{
    for entry in history {
        auditor.take(site, entry)?;
    }
    Ok(())
}
