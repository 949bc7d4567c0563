//! The threads of a run.
//!
//! A serving thread ends once its link closes, and a link closes once all its outboxes are dropped. So the run gives
//! each teller a copy of the outbox and drops its own before it waits, else the serving threads would never end.
ghost use Rattle.std.specs.Prelude.{◌≡◌, ◌+◌, ◌%◌, ◌<◌, [], ℕ, IfOk, Some, vec_len, slice_get};
ghost use Rattle.rb_run_threads.specs.Tellers.{IsCrew, IsServer, IsTeller};

use crate::joining::{join, together};
use crate::server::attend;
use crate::server_of::ServerOf;
use crate::teller::make_calls;
use crate::teller_of::TellerOf;
use rb_branch::{Branch, CallFault, Entries, Gate, Inlet, Outbox, Seat, TellersFault, links};
use std::alloc::Global;
use std::sync::Wait;
use std::sync::ledger::Ledger;
use std::thread::{PromisedHandle, Scope, Threads};

/// A teller's thread, which gives its seat back.
pub(crate) type TellerHandle<E, R> = PromisedHandle<Result<Seat<E, R>, CallFault>, TellerOf>;

/// A serving thread, which gives its seat back.
pub(crate) type ServerHandle<E, R> = PromisedHandle<Result<Seat<E, R>, CallFault>, ServerOf>;

/// The values that all threads of a run use: the scope that they end in, the branch, and how many sites it has.
#[derive(Drop)]
pub(crate) struct Crew<'s, X, E: Entries, R: Ledger, G: Gate, W> {
    pub scope: &'s Scope<'s, X>,
    pub rt: &'s W,
    pub alloc: Global,
    pub branch: &'s Branch<E, R, G>,
    pub sites: u8,
}

impl<
    's,
    X,
    E: Entries + Send + Sync + 's,
    R: Ledger + Send + Sync + 's,
    G: Gate + Drop + Sync + 's,
    W: Threads + Wait + Sync + 's,
> Crew<'s, X, E, R, G, W> {
    /// Runs all threads, and gives their seats back. The links close as the tellers end, and then the serving
    /// threads end. `Err` means out of memory, that no thread could be made, or a full history.
    pub(crate) fn run(&self, tellers: u8, seed: u32) -> Result<Vec<Seat<E, R>>, TellersFault>
        requires { 0 < self.now.sites }
        ensures { IfOk result (λ seats. IsCrew seed tellers self.now.sites seats.items) }
    {
        let (outbox, inlets) = links(self.alloc, self.sites)?;
        let servers = self.hire_servers(inlets)?;
        let hired = self.hire_tellers(&outbox, tellers, seed)?;
        drop(outbox);
        let hired = join(self.rt, self.alloc, hired)?;
        let servers = join(self.rt, self.alloc, servers)?;
        together(hired, servers)
    }

    /// A thread for each teller, counted from 0: each at the next site, with the next first number.
    fn hire_tellers(
        &self,
        outbox: &Outbox<E>,
        tellers: u8,
        seed: u32,
    ) -> Result<Vec<TellerHandle<E, R>>, TellersFault>
        requires { 0 < self.now.sites }
        ensures len { IfOk result (λ v. vec_len v ≡ tellers) }
        ensures each { IfOk result (λ v. (t : ℕ) (h : _) → slice_get v.items t ≡ Some h
            → h.promise ≡ record { first = seed + t; site = t % self.now.sites; sites = self.now.sites }) }
    {
        let mut handles = Vec::with_capacity(self.alloc, usize::from(tellers))?;
        for t in 0..tellers {
            let handle = self.hire_teller(outbox, t, seed)?;
            handles.push_reserved(handle);
        }
        Ok(handles)
    }

    /// The thread of the teller of this number, with a seat and an outbox of its own.
    fn hire_teller(
        &self,
        outbox: &Outbox<E>,
        t: u8,
        seed: u32,
    ) -> Result<TellerHandle<E, R>, TellersFault>
        requires { 0 < self.now.sites }
        ensures { IfOk result (λ h. h.promise
            ≡ record { first = seed + t; site = t % self.now.sites; sites = self.now.sites }) }
    {
        let Ok(seat) = self.branch.seat(self.rt, t % self.sites) else {
            return Err(TellersFault::OutOfMemory);
        };
        let own = outbox.try_copy(self.alloc)?;
        self.start_teller(seat, own, u64::from(seed) + u64::from(t))
    }

    /// A serving thread for each site, in order.
    fn hire_servers(
        &self,
        mut inlets: Vec<Inlet<E>>,
    ) -> Result<Vec<ServerHandle<E, R>>, TellersFault>
        requires { vec_len inlets ≡ self.now.sites }
        ensures len { IfOk result (λ v. vec_len v ≡ self.now.sites) }
        ensures each { IfOk result (λ v. (k : ℕ) (h : _) → slice_get v.items k ≡ Some h
            → h.promise ≡ record { site = k }) }
    {
        let mut handles = Vec::with_capacity(self.alloc, usize::from(self.sites))?;
        for site in 0..self.sites {
            let inlet = inlets.remove(0);
            let handle = self.hire_server(site, inlet)?;
            handles.push_reserved(handle);
        }
        Ok(handles)
    }

    /// The serving thread of a site, with a seat of its own.
    fn hire_server(&self, site: u8, inlet: Inlet<E>) -> Result<ServerHandle<E, R>, TellersFault>
        requires { site < self.now.sites }
        ensures { IfOk result (λ h. h.promise ≡ record { site = site }) }
    {
        match self.branch.seat(self.rt, site) {
            Ok(seat) => self.start_server(seat, inlet),
            Err(_) => Err(TellersFault::OutOfMemory),
        }
    }

    /// Starts a teller's thread.
    fn start_teller(
        &self,
        seat: Seat<E, R>,
        outbox: Outbox<E>,
        first: u64,
    ) -> Result<TellerHandle<E, R>, TellersFault>
        requires fresh { seat.receipts ≡ [] }
        requires within { seat.site < self.now.sites }
        ensures { IfOk result (λ h. h.promise ≡ record { first = first; site = seat.site; sites = self.now.sites }) }
    {
        let (rt, branch, sites) = (self.rt, self.branch, self.sites);
        let site = seat.site();
        let job = move || -> Result<Seat<E, R>, CallFault>
            requires { (seat.receipts ≡ []) × (seat.site < sites) }
            ensures { IfOk result (IsTeller first seat.site sites) }
        { make_calls(rt, branch, seat, outbox, first, sites) };
        match self.scope.spawn_with(TellerOf { first, site, sites }, job) {
            Ok(handle) => Ok(handle),
            Err(_) => Err(TellersFault::OutOfMemory),
        }
    }

    /// Starts a serving thread.
    fn start_server(
        &self,
        seat: Seat<E, R>,
        inlet: Inlet<E>,
    ) -> Result<ServerHandle<E, R>, TellersFault>
        requires { seat.receipts ≡ [] }
        ensures { IfOk result (λ h. h.promise ≡ record { site = seat.site }) }
    {
        let (rt, branch) = (self.rt, self.branch);
        let site = seat.site();
        let job = move || -> Result<Seat<E, R>, CallFault>
            requires { seat.receipts ≡ [] }
            ensures { IfOk result (IsServer seat.site) }
        { attend(rt, branch, seat, inlet) };
        match self.scope.spawn_with(ServerOf { site }, job) {
            Ok(handle) => Ok(handle),
            Err(_) => Err(TellersFault::OutOfMemory),
        }
    }
}
