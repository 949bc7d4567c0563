//! Requests that are tried together.
//!
//! The operations of a batch are applied to the ledger itself, so each request is decided after those before it, and no
//! ledger is copied. Each is listed as it is made, so that to keep a batch reads none of them back. If the batch isn't
//! kept they are undone by their records. A scratch that is neither kept nor taken back doesn't compile.
ghost use Rattle.std.specs.Prelude.{◌≡◌, ◌+◌, ◌-◌, ◌≤◌, ◌<◌, ◌++◌, [], List, length, vec_capacity, IfOk, IfErr, OnOk};
ghost use Rattle.std.specs.Prelude.{OnErr};
ghost use Rattle.std.specs.Borrow.{sem};
ghost use Rattle.rb_shadow.specs.declared.shadow.Shadow.{Shadow as TheShadow};
ghost use Rattle.rb_ledger.specs.contracts.ledger.Ledger.{the_row};
ghost use Rattle.rb_token.specs.Token.{Token};
ghost use Rattle.rb_token.specs.Seen.{Shows};
ghost use Rattle.rb_scratch.specs.Batches.{made_in_batch};
ghost use Rattle.rb_scratch.specs.Tried.{IsTried, IsOfTheLast, IsAdded, IsFault, RestsIfOk};
ghost use Rattle.rb_scratch.specs.declared.request.TheConstants.{MOST_REQUESTS};

use crate::in_batch::generate_in_batch;
use crate::records::Records;
use crate::request::{MOST_REQUESTS, Request};
use crate::run_fault::RunFault;
use rb_kit::reserve_one;
use rb_ledger::Ledger;
use rb_money::Refusal;
use rb_shadow::{OpName, Shadow};
use rb_token::TokenView;
use rb_undo::UndoLog;
use std::alloc::Global;

/// A ledger on which requests are tried, to be kept all or not at all: it must be spent by `commit` or
/// `abort`. It has the ledger alone meanwhile. That what it made are the ledger's last entries, and its records theirs,
/// is a condition of `abort`, and each run keeps it. The list of what it made has its type as a parameter, so that a
/// contract can say what `abort` leaves in the ledger.
pub struct Scratch<'a, M = Vec<Shadow>> {
    ledger: &'a mut Ledger,
    token: TokenView,
    undos: Records,
    made: M,
}

/// Takes the last entries out again, backwards, as many as there are records.
fn undo_all(ledger: &mut Ledger, undos: Records)
    requires { (made : List TheShadow) × IsOfTheLast ledger.old made undos.parts }
    ensures settings { ledger.new.settings ≡ ledger.old.settings }
    ensures entries { (base made : List TheShadow) → IsTried base made ledger.old undos.parts →
        ledger.new.entries ≡ base }
    ensures room { ledger.new.room ≡ ledger.old.room + length undos.parts }
{
    let mut undos = undos;
    'undos: while let Some(undo) = undos.pop() {
        ledger.undo(undo);
    }
    undos.close();
}

/// Runs a request on a ledger, at the site of the token's view, unless there are too many records.
fn try_one(
    ledger: &mut Ledger,
    undos: &mut Records,
    made: &mut Vec<Shadow>,
    token: TokenView,
    request: &Request,
) -> Result<OpName, RunFault>
    requires { token.me < ledger.old.settings.sites }
    ensures few { OnOk result (length undos.old.parts < MOST_REQUESTS) }
    ensures ran { IfOk result (λ name. (v : TheShadow) × (name ≡ v.name)
        × IsAdded ledger.old ledger.new made.old.items made.new.items undos.old.parts undos.new.parts v
        × ((known : Token) → Shows token known → made_in_batch ledger.old.settings token.me ledger.old.entries known
        request.now ≡ Ok v)) }
    ensures fault { IfErr result (λ fault. (known : Token) → Shows token known →
        IsFault ledger.old (vec_capacity made.old - length made.old.items) undos.old.parts token.me known request.now
        fault) }
    ensures unchanged { OnErr result ((ledger.new ≡ ledger.old) × (made.new.items ≡ made.old.items)
        × (undos.new.parts ≡ undos.old.parts)) }
{
    if undos.len() >= MOST_REQUESTS {
        return Err(RunFault::Refused(Refusal::BadBatch));
    }
    let shadow = generate_in_batch(ledger, &token, request)?;
    if reserve_one(made).is_err() {
        return Err(RunFault::Refused(Refusal::OutOfMemory));
    }
    match ledger.apply_valid(&shadow) {
        Ok(undo) => {
            undos.push(undo);
            made.push_reserved(shadow);
            Ok(shadow.name)
        }
        Err(_) => Err(RunFault::Refused(Refusal::OutOfMemory)),
    }
}

impl<'a> Scratch<'a> {
    /// A scratch on the ledger, at the site of the token's view.
    #[inline(always)]
    pub fn open(alloc: Global, ledger: &'a mut Ledger, token: TokenView) -> Scratch<'a>
        requires { token.me < ledger.old.settings.sites }
        ensures same_reference { result.ledger.ghost_name ≡ ledger.entry.ghost_name }
        ensures ledger { result.ledger.now ≡ ledger.old }
        ensures token { result.token ≡ token }
        ensures made { result.made.items ≡ [] }
        ensures capacity { vec_capacity result.made ≡ 0 }
        ensures records { result.undos.parts ≡ [] }
        ensures tried { IsTried ledger.old.entries [] ledger.old result.undos.parts }
    {
        let undos = Records::new();
        Scratch {
            ledger,
            token,
            undos,
            made: Vec::new(alloc),
        }
    }

    /// How many requests were run.
    pub fn len(&self) -> usize
        ensures { result ≡ length self.now.undos.parts }
    {
        self.undos.len()
    }

    /// Runs a request: what it makes in a batch is at the ledger's end, and its name is answered.
    /// After a fault all is as before. The fault is `Refused(BadBatch)` for one request more than `MOST_REQUESTS`, else
    /// `Declined` or what refuses the request, else `Refused(OutOfMemory)`. A request that would be declined is at
    /// fault before its number is looked at: if no number is left either, the fault is `Declined` and not
    /// `Refused(NumbersExhausted)`.
    pub fn run(&mut self, request: &Request) -> Result<OpName, RunFault>
        requires { self.old.token.me < self.old.ledger.now.settings.sites }
        ensures same_reference { self.new.ledger.ghost_name ≡ self.old.ledger.ghost_name }
        ensures token { self.new.token ≡ self.old.token }
        ensures settings { self.new.ledger.now.settings ≡ self.old.ledger.now.settings }
        ensures last { IsOfTheLast self.old.ledger.now self.old.made.items self.old.undos.parts →
            IsOfTheLast self.new.ledger.now self.new.made.items self.new.undos.parts }
        ensures few { OnOk result (length self.old.undos.parts < MOST_REQUESTS) }
        ensures ran { IfOk result (λ name. (v : TheShadow) × (name ≡ v.name)
            × IsAdded self.old.ledger.now self.new.ledger.now self.old.made.items self.new.made.items
            self.old.undos.parts self.new.undos.parts v
            × ((known : Token) → Shows self.old.token known →
            made_in_batch self.old.ledger.now.settings self.old.token.me self.old.ledger.now.entries known
            request.now ≡ Ok v)) }
        ensures fault { IfErr result (λ fault. (known : Token) → Shows self.old.token known →
            IsFault self.old.ledger.now (vec_capacity self.old.made - length self.old.made.items)
            self.old.undos.parts self.old.token.me known request.now fault) }
        ensures unchanged { OnErr result ((self.new.ledger.now ≡ self.old.ledger.now)
            × (self.new.made.items ≡ self.old.made.items) × (self.new.undos.parts ≡ self.old.undos.parts)) }
    {
        let token = self.token;
        try_one(self.ledger, &mut self.undos, &mut self.made, token, request)
    }

    /// Keeps what was run: gives the shadows in order, and puts their records at the log's end. Out of
    /// memory the scratch comes back, and nothing changes but that the log may have more spare capacity.
    /// That can be only if the log has less than was run.
    #[inline(always)]
    pub fn commit(self, log: &mut UndoLog) -> Result<Vec<Shadow>, Scratch<'a>>
        ensures* ledger { sem 𝓛 (RestsIfOk the_row self.entry.ledger (λ scratch. scratch.ledger.ghost_name) result
            (λ book. book ≡ self.entry.ledger.now)) }
        ensures made { IfOk result (λ shadows. shadows.items ≡ self.entry.made.items) }
        ensures log { OnOk result (log.new.parts ≡ log.old.parts ++ self.entry.undos.parts) }
        ensures back { IfErr result (λ back. (back.ledger.ghost_name ≡ self.entry.ledger.ghost_name)
            × (back.ledger.now ≡ self.entry.ledger.now) × (back.token ≡ self.entry.token)
            × (back.made ≡ self.entry.made) × (back.undos ≡ self.entry.undos)) }
        ensures unchanged { OnErr result (log.new.parts ≡ log.old.parts) }
        ensures short { OnErr result (log.old.room < length self.entry.undos.parts) }
        ensures grows { OnErr result (log.old.room ≤ log.new.room) }
    {
        let Scratch {
            ledger,
            token,
            undos,
            made,
        } = self;
        match undos.append_to(log) {
            Ok(()) => Ok(made),
            Err(undos) => Err(Scratch {
                ledger,
                token,
                undos,
                made,
            }),
        }
    }

    /// Takes back what was run: the ledger's list is that at the opening, and there is spare
    /// capacity for one more for each operation taken out.
    #[inline(never)]
    pub fn abort(self)
        requires { IsOfTheLast self.ledger.now self.made.items self.undos.parts }
        ensures settings { self.exit.0.now.settings ≡ self.entry.ledger.now.settings }
        ensures entries { (base : List TheShadow) → IsTried base self.entry.made.items self.entry.ledger.now
            self.entry.undos.parts → self.exit.0.now.entries ≡ base }
        ensures room { self.exit.0.now.room ≡ self.entry.ledger.now.room + length self.entry.undos.parts }
    {
        let Scratch {
            ledger,
            token: _,
            undos,
            made: _,
        } = self;
        undo_all(ledger, undos);
    }
}
