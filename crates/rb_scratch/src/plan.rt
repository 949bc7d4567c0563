//! Plans to cancel.
//!
//! A cancellation's target is looked up once, and its position passed on, which is a fifth of a cancelled transfer. The
//! plan reads the operation in the ledger: a copy of it takes 5 % of a cancellation that is refused.
ghost use Rattle.std.specs.Prelude.{◌≡◌, IfOk, IfErr, Ok, Err};
ghost use Rattle.rb_shadow.specs.Operations.{colour_of, kind_in};
ghost use Rattle.rb_scratch.specs.Requests.{plan_of};
ghost use Rattle.rb_scratch.specs.declared.request.Request.TheVariants.{Cancel as AskCancel};

use rb_ledger::Ledger;
use rb_money::{Place, Refusal};
use rb_shadow::{Colour, Kind, OpName};

/// The plan to cancel an operation: the operation's account and amount, in cents, and the
/// cancellation's colour.
#[derive(Clone, Copy, Debug, PartialEq, Eq)]
pub struct CancelPlan {
    pub account: Place,
    pub amount: u64,
    pub colour: Colour,
}

/// The plan to cancel the operation of this name at this ledger.
///
/// Refuses with `UnknownOperation` if the ledger hasn't the operation, then with
/// `NotCancellable` if it is a declined withdrawal or transfer, or a cancellation, then with
/// `AlreadyCancelled` and the position of the first cancellation if the ledger has one.
pub fn cancel_of(ledger: &Ledger, target: OpName) -> Result<CancelPlan, Refusal>
    ensures planned { IfOk result (λ plan. plan_of ledger.now.settings ledger.now.entries (AskCancel target)
        ≡ Ok (record { account = plan.account; amount = plan.amount; kind = Kind.Cancel target })) }
    ensures colour { IfOk result (λ plan. plan.colour ≡ colour_of (Kind.Cancel target)
        (kind_in ledger.now.entries target)) }
    ensures reason { IfErr result (λ why. plan_of ledger.now.settings ledger.now.entries (AskCancel target) ≡ Err why) }
{
    let Some(position) = ledger.find(&target) else {
        return Err(Refusal::UnknownOperation);
    };
    let found = ledger.operation(position).unwrap();
    let kind = found.kind();
    if !kind.may_be_cancelled() {
        return Err(Refusal::NotCancellable);
    }
    if let Some(position) = ledger.first_cancel(position) {
        return Err(Refusal::AlreadyCancelled { position });
    }
    Ok(CancelPlan {
        account: found.account(),
        amount: found.amount(),
        colour: Kind::Cancel { target }.colour(Some(kind)),
    })
}
