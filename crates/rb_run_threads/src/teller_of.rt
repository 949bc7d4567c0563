//! The promise of a teller's thread.
ghost use Rattle.std.specs.Prelude.{IfOk};
ghost use Rattle.rb_run_threads.specs.Tellers.{IsTeller};

use rb_branch::{CallFault, Entries, Seat};
use std::sync::ledger::Ledger;
use std::thread::Promise;

/// The promise that a thread gives its seat back after all calls of the teller of this first number, at this site,
/// of a bank of `sites`.
#[derive(Clone, Copy)]
pub struct TellerOf {
    pub first: u64,
    pub site: u8,
    pub sites: u8,
}

impl<E: Entries, R: Ledger> Promise<Result<Seat<E, R>, CallFault>> for TellerOf {
    ghost kept_by = { λ p r. IfOk r (IsTeller p.first p.site p.sites) };
}
