//! Uses of the sites of a bank, as a client writes them. The first is the one to read.
//! Tests: none. Each call's contract says what it answers.
#![tactic(auto)]

mod bank;
mod numbers;
mod reversal;
mod threads;

ghost use Rattle.std.specs.Prelude.{◌≡◌, [], ◌∷◌, IfOk, Some, length};
ghost use Rattle.rb_money.specs.declared.refusal.Refusal.TheVariants.{BatchRefused};
ghost use Rattle.rb_money.specs.declared.refusal.Cause.TheVariants.{Declined};
ghost use Rattle.rb_site.specs.declared.reply.Reply.TheVariants.{Refused};
ghost use Rattle.rb_world.specs.Laws.{next_reply};
ghost use Rattle.rb_uses.specs.Bank.{after, ann, balance_in, batch, cancellation, deposit_events, withdrawal};

pub use bank::{ANN, balance, bank_after, open_bank};
pub use numbers::other_numbers;
use rb_kit::List;
use rb_scratch::Request;
use rb_shadow::OpName;
use rb_site::{Event, Reply, WorldEvent};
pub use reversal::{as_of_by_rewinding, back_to, there_and_back, tried_and_aborted};
use std::alloc::{AllocError, Global};
pub use threads::deposit_while_served;

/// A deposit at site 0 comes to site 1 and is applied there: the balance at each, in cents. The site refuses an amount
/// that isn't of 1 to `MOST_CENTS` cents; both balances are then 1,000. `Err` means out of memory.
pub fn deposit_reaches_both(alloc: Global, amount: u64) -> Result<(u64, u64), AllocError>
    ensures here { IfOk result (λ both. balance_in (after (deposit_events amount)) 0 ann ≡ Some both.0) }
    ensures there { IfOk result (λ both. balance_in (after (deposit_events amount)) 1 ann ≡ Some both.1) }
    ensures example { amount ≡ 500 → IfOk result (λ both. both ≡ (1500, 1500)) }
{
    let deposit = Request::Deposit {
        account: ANN,
        amount,
    };
    let events = [
        WorldEvent::At(0, Event::Submit(deposit)),
        WorldEvent::Deliver(1, 1),
        WorldEvent::At(1, Event::Apply(OpName::Blue { site: 0, n: 1 })),
    ];
    let world = bank_after(alloc, events.as_slice())?;
    let both = (balance(&world, 0, ANN), balance(&world, 1, ANN));
    let _reports = world.close();
    Ok(both)
}

/// A withdrawal is cancelled: the balance after it, and after its cancellation, in cents. `Err` means out of memory.
pub fn cancel_gives_back(alloc: Global, amount: u64) -> Result<(u64, u64), AllocError>
    ensures taken { IfOk result (λ balances. balance_in (after (withdrawal amount ∷ [])) 0 ann ≡ Some balances.0) }
    ensures given_back { IfOk result (λ balances. balance_in (after (withdrawal amount ∷ cancellation ∷ [])) 0 ann
        ≡ Some balances.1) }
    ensures example { amount ≡ 300 → IfOk result (λ balances. balances ≡ (700, 1000)) }
{
    let withdrawal = Request::Withdraw {
        account: ANN,
        amount,
    };
    let cancellation = Request::Cancel {
        target: OpName::Red { n: 1 },
    };
    let events = [WorldEvent::At(0, Event::Submit(withdrawal))];
    let mut world = bank_after(alloc, events.as_slice())?;
    let taken = balance(&world, 0, ANN);
    match world.step(WorldEvent::At(0, Event::Submit(cancellation))) {
        Ok(_) => {
            let given_back = balance(&world, 0, ANN);
            let _reports = world.close();
            Ok((taken, given_back))
        }
        Err(error) => {
            let _reports = world.close();
            Err(error)
        }
    }
}

/// A batch of a deposit and a withdrawal: what is answered, the balance, and how many messages were sent.
/// If the withdrawal isn't covered, the whole batch is refused.
pub fn batch_is_refused_whole(
    alloc: Global,
    deposited: u64,
    withdrawn: u64,
) -> Result<(Reply, u64, usize), AllocError>
    ensures reply { IfOk result (λ r. r.0 ≡ next_reply (after []) (batch deposited withdrawn)) }
    ensures balance { IfOk result (λ r. balance_in (after (batch deposited withdrawn ∷ [])) 0 ann ≡ Some r.1) }
    ensures sent { IfOk result (λ r. r.2 ≡ length (after (batch deposited withdrawn ∷ [])).world.messages) }
    ensures example { deposited ≡ 50 → withdrawn ≡ 2000 → IfOk result (λ r. r
        ≡ (Refused (BatchRefused 1 Declined), 1000, 0)) }
{
    let mut requests = Vec::new(alloc);
    requests.push(Request::Deposit {
        account: ANN,
        amount: deposited,
    })?;
    requests.push(Request::Withdraw {
        account: ANN,
        amount: withdrawn,
    })?;
    let mut world = open_bank(alloc)?;
    match world.step(WorldEvent::At(0, Event::Batch(List::new(requests)))) {
        Ok(reply) => {
            let answered = (reply, balance(&world, 0, ANN), world.messages().len());
            let _reports = world.close();
            Ok(answered)
        }
        Err(error) => {
            let _reports = world.close();
            Err(error)
        }
    }
}
