//! A run of tellers at the sites of a bank, and what they did as text.
ghost use Rattle.std.specs.Prelude.{◌≡◌, ◌↔◌, ◌≤◌, List, ℕ, true, false, Err};
ghost use Rattle.std.specs.Io.KnownBytes.{Appends};
ghost use Rattle.rb_lines.specs.declared.fault.ScriptFault.TheVariants.{Write};
ghost use Rattle.rb_money.specs.declared.limits.TheConstants.{MOST_SITES};
ghost use Rattle.rb_run_threads.specs.Runs.{ThreadsEndAs};

use crate::opening::bank;
use crate::running::run_bank;
use rb_branch::{Gate, TellersFault};
use rb_lines::{ScriptFault, Sink};
use rb_runs::{Unwritten, write_text};
use std::alloc::Global;
use std::sync::Wait;
use std::thread::Threads;

/// Runs tellers at the sites of a bank, each in a thread of its own for `CALLS` calls, and writes the
/// bank's configuration and the sites' histories, which an audit reads.
///
/// Teller `t`, from 0, is at site `t % sites`; its calls come from its own numbers, the first of which is `seed + t`.
/// One more thread at each site receives what the others send, and applies what is ready. All threads have ended before
/// anything is written. Refuses with `OutOfMemory`, also if a thread can't be made; with `Gather` if a site's
/// history was full, or is no interleaving of the clients' receipts; and with `Write`.
pub fn run_threads<G: Gate + Drop + Sync, K: Sink, W: Threads + Wait + Sync>(
    rt: &W,
    alloc: Global,
    sites: u8,
    tellers: u8,
    seed: u32,
    gate: G,
    writer: &mut K,
) -> Result<(), ScriptFault>
    requires some_sites { 2 ≤ sites }
    requires few_sites { sites ≤ MOST_SITES }
    requires fresh { K.failed writer.old ≡ false }
    // The written text is the configuration and the histories that the tellers made.
    ensures written { (text : List ℕ) × Appends (K.contents writer.old) (K.contents writer.new) text
        × ThreadsEndAs result sites tellers seed text }
    ensures write { (result ≡ Err Write) ↔ (K.failed writer.new ≡ true) }
{
    let config = bank(alloc, sites)?;
    let copy = config.try_copy()?;
    let reports = match run_bank(rt, alloc, copy, gate, tellers, seed) {
        Ok(reports) => reports,
        Err(TellersFault::OutOfMemory) => return Err(ScriptFault::OutOfMemory),
        Err(TellersFault::Gather) => return Err(ScriptFault::Gather),
    };
    match write_text(alloc, writer, &config, reports) {
        Ok(()) => Ok(()),
        Err(Unwritten::Write) => Err(ScriptFault::Write),
        Err(Unwritten::OutOfMemory) => Err(ScriptFault::OutOfMemory),
    }
}
