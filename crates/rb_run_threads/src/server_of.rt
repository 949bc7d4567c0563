//! The promise of a serving thread.
ghost use Rattle.std.specs.Prelude.{IfOk};
ghost use Rattle.rb_run_threads.specs.Tellers.{IsServer};

use rb_branch::{CallFault, Entries, Seat};
use std::sync::ledger::Ledger;
use std::thread::Promise;

/// The promise that a thread gives its seat back after it served this site.
#[derive(Clone, Copy)]
pub struct ServerOf {
    pub site: u8,
}

impl<E: Entries, R: Ledger> Promise<Result<Seat<E, R>, CallFault>> for ServerOf {
    ghost kept_by = { λ p r. IfOk r (IsServer p.site) };
}
