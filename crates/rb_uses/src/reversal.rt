//! The ways back, each one call: an operation is undone, a list is cut back, a balance is read as of a
//! position, and requests are tried and given up.
ghost use Rattle.std.specs.Prelude.{◌≡◌, ◌≤◌, ◌<◌, [], ◌⊎◌, length, take, pos, None, Some, Ok, IfOk, IfErr, OnOk};
ghost use Rattle.rb_shadow.specs.Operations.{bal};
ghost use Rattle.rb_shadow.specs.declared.shadow.Shadow.{Shadow as TheShadow};
ghost use Rattle.rb_ledger.specs.Checks.{refusal_of};
ghost use Rattle.rb_ledger.specs.Records.{records_of};
ghost use Rattle.rb_token.specs.Token.{Token};
ghost use Rattle.rb_token.specs.Seen.{Shows};
ghost use Rattle.rb_scratch.specs.Batches.{made_in_batch};
ghost use Rattle.rb_scratch.specs.Tried.{IsFault};

use rb_ledger::Ledger;
use rb_money::{Place, Refusal};
use rb_scratch::{Request, RunFault, Scratch};
use rb_shadow::{OpName, Shadow};
use rb_token::TokenView;
use rb_undo::UndoLog;
use std::alloc::Global;

/// An operation is applied and undone: the list is that before. One that is refused comes back with the
/// refusal, and out of memory is a refusal only if the ledger has no spare capacity.
pub fn there_and_back(ledger: &mut Ledger, shadow: Shadow) -> Result<(), (Shadow, Refusal)>
    ensures settings { ledger.new.settings ≡ ledger.old.settings }
    ensures entries { ledger.new.entries ≡ ledger.old.entries }
    ensures taken { OnOk result (refusal_of ledger.old.settings ledger.old.entries shadow ≡ None) }
    ensures refused { IfErr result (λ back. (ledger.new ≡ ledger.old) × (back.0 ≡ shadow)) }
    ensures reason { IfErr result (λ back. (refusal_of ledger.old.settings ledger.old.entries shadow ≡ Some back.1)
        ⊎ ((back.1 ≡ Refusal.OutOfMemory) × (refusal_of ledger.old.settings ledger.old.entries shadow ≡ None)
        × (ledger.old.room ≡ 0))) }
{
    let undo = ledger.apply(shadow)?;
    ledger.undo(undo);
    Ok(())
}

/// The operations after the first `position` are undone, the last one first, each by its record of the log.
/// Nothing is undone if there are no more than `position`.
pub fn back_to(ledger: &mut Ledger, log: &mut UndoLog, position: u32)
    requires { log.old.parts ≡ records_of ledger.old.settings ledger.old.entries }
    ensures settings { ledger.new.settings ≡ ledger.old.settings }
    ensures entries { ledger.new.entries ≡ take position ledger.old.entries }
    ensures log { log.new.parts ≡ take position log.old.parts }
    ensures records { log.new.parts ≡ records_of ledger.new.settings ledger.new.entries }
{
    'last: while ledger.len() > position {
        match log.pop() {
            Some(undo) => ledger.undo(undo),
            None => unreachable!(),
        }
    }
}

/// The balance, in cents, after the first `position` operations. The ledger is rewound to there, read, and
/// brought forward again, and it and its log come back as they were.
pub fn as_of_by_rewinding(
    ledger: Ledger,
    log: UndoLog,
    account: Place,
    position: u32,
) -> (Ledger, UndoLog, u64)
    requires records { log.parts ≡ records_of ledger.settings ledger.entries }
    requires account { account.0 < length ledger.settings.starts }
    requires within { position ≤ length ledger.entries }
    ensures ledger { result.0 ≡ ledger }
    ensures log { result.1 ≡ log }
    ensures balance { pos result.2 ≡ bal ledger.settings (take position ledger.entries) account }
{
    let rewound = match ledger.rewind(log, position) {
        Ok(rewound) => rewound,
        Err((_ledger, log, _beyond)) => {
            log.close();
            unreachable!()
        }
    };
    let Some(balance) = rewound.balance(account) else {
        unreachable!()
    };
    let (ledger, log) = rewound.forward();
    (ledger, log, balance)
}

/// A request is run as the first of a batch, and given up: the list is that before. It answers the name of
/// what the request made, or why it made nothing.
pub fn tried_and_aborted(
    alloc: Global,
    ledger: &mut Ledger,
    token: TokenView,
    request: &Request,
) -> Result<OpName, RunFault>
    requires { token.me < ledger.old.settings.sites }
    ensures settings { ledger.new.settings ≡ ledger.old.settings }
    ensures entries { ledger.new.entries ≡ ledger.old.entries }
    ensures made { IfOk result (λ name. (v : TheShadow) × (name ≡ v.name)
        × ((known : Token) → Shows token known → made_in_batch ledger.old.settings token.me ledger.old.entries known
        request.now ≡ Ok v)) }
    ensures fault { IfErr result (λ fault. (known : Token) → Shows token known →
        IsFault ledger.old 0 [] token.me known request.now fault) }
{
    let mut scratch = Scratch::open(alloc, ledger, token);
    let answer = scratch.run(request);
    scratch.abort();
    answer
}
