//! The requests of a batch, made on a ledger. They are tried in a scratch that can take them all back, each after those
//! before it: a batch is made whole or not at all. Memory for the answer and for the messages is taken once all were
//! tried and before they are committed, so that out of memory leaves the site as it was.
ghost use Rattle.std.specs.Prelude.{◌≡◌, ◌≤◌, ◌<◌, ◌++◌, [], ◌⊎◌, List, length, map, Ok, Err, IfOk, IfErr, OnOk, ◌+◌};
ghost use Rattle.rb_shadow.specs.declared.shadow.Shadow.{Shadow as TheShadow};
ghost use Rattle.rb_token.specs.Token.{Token};
ghost use Rattle.rb_token.specs.Seen.{Shows};
ghost use Rattle.rb_scratch.specs.Batches.{batch_of, cause_of, names_of_all};
ghost use Rattle.rb_scratch.specs.Tried.{IsTried};
ghost use Rattle.rb_scratch.specs.declared.request.TheConstants.{MOST_REQUESTS};
ghost use Rattle.rb_site.specs.States.{Says};

use crate::batch_capacity::BatchCapacity;
use crate::noted_reply::NotedReply;
use crate::recorded_ledger::RecordedLedger;
use crate::{Message, Reply};
use rb_money::Refusal;
use rb_scratch::{Request, RunFault, Scratch};
use rb_token::TokenView;
use std::alloc::Global;

/// The refusal of a batch whose request of this index, from 0, is at fault. Out of memory is
/// answered as it is.
fn why_stopped(index: u8, fault: RunFault) -> Refusal
    ensures { ((fault ≡ RunFault.Refused Refusal.OutOfMemory) × (result ≡ Refusal.OutOfMemory))
        ⊎ ((fault ≡ RunFault.Refused Refusal.OutOfMemory → ⊥)
        × (result ≡ Refusal.BatchRefused index (cause_of fault))) }
{
    let cause = fault.cause();
    match fault {
        RunFault::Refused(Refusal::OutOfMemory) => Refusal::OutOfMemory,
        _ => Refusal::BatchRefused { index, cause },
    }
}

/// Runs the requests in order. If one is at fault, what those before it made is in the scratch.
fn run_all(scratch: &mut Scratch, requests: &[Request]) -> Result<(), Refusal>
    requires here { scratch.old.token.me < scratch.old.ledger.now.settings.sites }
    requires empty { scratch.old.made.items ≡ [] }
    requires none { IsTried scratch.old.ledger.now.entries [] scratch.old.ledger.now scratch.old.undos.parts }
    requires few { length requests.now ≤ MOST_REQUESTS }
    ensures same_reference { scratch.new.ledger.ghost_name ≡ scratch.old.ledger.ghost_name }
    ensures settings { scratch.new.ledger.now.settings ≡ scratch.old.ledger.now.settings }
    ensures tried { IsTried scratch.old.ledger.now.entries scratch.new.made.items scratch.new.ledger.now
        scratch.new.undos.parts }
    ensures all { OnOk result (length scratch.new.made.items ≡ length requests.now) }
    ensures made { OnOk result ((known : Token) → Shows scratch.old.token known →
        batch_of scratch.old.ledger.now.settings scratch.old.token.me scratch.old.ledger.now.entries known 0
        requests.now ≡ Ok scratch.new.made.items) }
    ensures refused { IfErr result (λ why. (why ≡ Refusal.OutOfMemory)
        ⊎ ((known : Token) → Shows scratch.old.token known →
        batch_of scratch.old.ledger.now.settings scratch.old.token.me scratch.old.ledger.now.entries known 0
        requests.now ≡ Err why)) }
{
    'requests: for index in 0..requests.len() {
        let _name = match scratch.run(&requests[index]) {
            Ok(name) => name,
            Err(fault) => return Err(why_stopped(index as u8, fault)),
        };
    }
    Ok(())
}

impl RecordedLedger {
    /// Makes the requests of a batch at the site of the token's view, each after those before it: all of them or none.
    /// The answer names the operations, in the memory of the names of the reply before if it has any, and their
    /// messages are put at the end of what was sent.
    ///
    /// Refuses, and changes nothing but that reply: with `BatchRefused` by the first request at fault, or with
    /// `OutOfMemory`.
    pub fn batch(
        &mut self,
        alloc: Global,
        token: TokenView,
        requests: &[Request],
        before: &mut Reply,
        keeps: bool,
        sent: &mut Vec<Message>,
    ) -> Result<NotedReply, Refusal>
        requires site { token.me < self.old.settings.sites }
        requires few { length requests.now ≤ MOST_REQUESTS }
        ensures made { IfOk result (λ answer. (made : List TheShadow)
            × (self.new ≡ record self.old { ops = self.old.ops ++ made })
            × Says keeps answer (Reply.Names (names_of_all made))
            × (sent.new.items ≡ sent.old.items ++ map Message.Shadow made)
            × ((known : Token) → Shows token known → batch_of self.old.settings token.me self.old.ops known 0
            requests.now ≡ Ok made)) }
        ensures refused { IfErr result (λ why. (self.new ≡ self.old) × (sent.new.items ≡ sent.old.items)
            × ((why ≡ Refusal.OutOfMemory) ⊎ ((known : Token) → Shows token known →
            batch_of self.old.settings token.me self.old.ops known 0 requests.now ≡ Err why))) }
    {
        let mut scratch = Scratch::open(alloc, &mut self.ledger, token);
        if let Err(why) = run_all(&mut scratch, requests) {
            scratch.abort();
            return Err(why);
        }
        let room = match BatchCapacity::open(alloc, before, requests.len(), keeps, sent) {
            Ok(room) => room,
            Err(_) => {
                scratch.abort();
                return Err(Refusal::OutOfMemory);
            }
        };
        let made = match scratch.commit(&mut self.log) {
            Ok(made) => made,
            Err(back) => {
                back.abort();
                return Err(Refusal::OutOfMemory);
            }
        };
        Ok(room.filled(made.as_slice(), sent))
    }

    /// Whether all requests of a batch can be made at the site of the token's view, each after those before it. They
    /// are made on the ledger and all taken back.
    ///
    /// Refuses with `BatchRefused` by the first request at fault, or with `OutOfMemory`.
    #[inline(never)]
    pub fn try_batch(
        &mut self,
        alloc: Global,
        token: TokenView,
        requests: &[Request],
    ) -> Result<(), Refusal>
        requires site { token.me < self.old.settings.sites }
        requires few { length requests.now ≤ MOST_REQUESTS }
        ensures same { self.new ≡ self.old }
        ensures fits { OnOk result ((made : List TheShadow) × ((known : Token) → Shows token known →
            batch_of self.old.settings token.me self.old.ops known 0 requests.now ≡ Ok made)) }
        ensures refused { IfErr result (λ why. (why ≡ Refusal.OutOfMemory)
            ⊎ ((known : Token) → Shows token known →
            batch_of self.old.settings token.me self.old.ops known 0 requests.now ≡ Err why)) }
    {
        let mut scratch = Scratch::open(alloc, &mut self.ledger, token);
        let ran = run_all(&mut scratch, requests);
        scratch.abort();
        ran
    }
}
