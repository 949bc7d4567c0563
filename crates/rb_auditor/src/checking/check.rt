//! Whether an order is right. Replies and order are tested anew, without the search's code: each history is replayed by
//! its site, and then the order is followed by sites of its own, for what they send.
ghost use Rattle.std.specs.Prelude.{◌≡◌, ◌≢◌, ◌↔◌, IsTrue, IfOk, Ok, false, length};
ghost use Rattle.rb_auditor.specs.Certificates.{Certifies};
ghost use Rattle.rb_auditor.specs.Findings.{lists_of};

use crate::Certificate;
use crate::checking::following::follow;
use crate::checking::recorded::is_recorded;
use rb_money::Config;
use rb_site::History;
use std::alloc::{AllocError, Global};

/// Whether a world could have recorded these histories in this order. `Err` means out of memory, which the answer that
/// there isn't one history for each site never is.
pub fn check(
    alloc: Global,
    config: &Config,
    histories: &[History],
    certificate: &Certificate,
) -> Result<bool, AllocError>
    ensures certified { IfOk result
        (λ yes. IsTrue yes ↔ Certifies config.now (lists_of histories.now) certificate.now) }
    ensures few { length histories.now ≢ config.now.sites → result ≡ Ok false }
{
    if histories.len() != config.sites() as usize {
        return Ok(false);
    }
    for site in 0..config.sites() {
        if !is_recorded(alloc, config, site, histories[site as usize].as_slice())? {
            return Ok(false);
        }
    }
    follow(alloc, config, histories, certificate.as_slice())
}
