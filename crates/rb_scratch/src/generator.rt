//! The generator: the operation that a request makes at a site.
//!
//! It decides on an effect, and then makes the effect's operation. A batch stops between the two if the effect is
//! declined, before a number is looked at.
ghost use Rattle.std.specs.Prelude.{◌≡◌, ◌+◌, ◌<◌, ◌≤◌, ◌∷◌, ◌++◌, [], if◌then◌else◌, Some, None, Ok, Err, MatchResult};
ghost use Rattle.std.specs.Prelude.{IfOk};
ghost use Rattle.rb_money.specs.declared.limits.TheConstants.{MOST_SITES};
ghost use Rattle.rb_shadow.specs.Sound.{limit_of};
ghost use Rattle.rb_shadow.specs.Operations.{bal, number_of, colour_in};
ghost use Rattle.rb_ledger.specs.Valid.{IsValid};
ghost use Rattle.rb_ledger.specs.Checks.{refusal_of, overdraws};
ghost use Rattle.rb_token.specs.Token.{Token};
ghost use Rattle.rb_token.specs.Seen.{Shows};
ghost use Rattle.rb_scratch.specs.declared.request.Request.TheVariants.{Deposit as AskDeposit, Withdraw as AskWithdraw};
ghost use Rattle.rb_scratch.specs.declared.request.Request.TheVariants.{Interest as AskInterest, Cancel as AskCancel};
ghost use Rattle.rb_scratch.specs.declared.request.Request.TheVariants.{Transfer as AskTransfer};
ghost use Rattle.rb_scratch.specs.declared.request.Request.{Request as TheRequest};
ghost use Rattle.rb_scratch.specs.Requests.{plan_of, next_name, operation_of, allowed, allowed_red, made_of};
ghost use Rattle.rb_scratch.specs.Effects.{IsColoured, IsDecision, plan_of_effect};
ghost use Rattle.rb_scratch.specs.Originals.{DoesOriginal, granted_kind};

use crate::effect::Effect;
use crate::plan::cancel_of;
use crate::request::Request;
use rb_ledger::Ledger;
use rb_money::{Amount, Cents, Place, Rate, Refusal, interest_of};
use rb_shadow::{Colour, Kind, OpName, Shadow};
use rb_token::TokenView;

/// The effect of a deposit.
#[tactic(auto, unfolding(crate::specs::Requests::plan_of))]
fn deposit(ledger: &Ledger, account: Place, amount: u64) -> Result<Effect, Refusal>
    ensures plan { IsDecision ledger.now.settings ledger.now.entries (AskDeposit account amount) result }
    ensures colour { IsColoured ledger.now.entries result }
{
    if ledger.config().accounts().len() <= account.0 as usize {
        return Err(Refusal::UnknownAccount);
    }
    let amount = Amount::new(amount)?.cents();
    Ok(Effect {
        account,
        amount,
        kind: Kind::Deposit,
        colour: Colour::Blue,
    })
}

/// The effect of a withdrawal: it is declined if the balance is below it.
#[tactic(auto, unfolding(crate::specs::Requests::plan_of))]
fn withdrawal(ledger: &Ledger, account: Place, amount: u64) -> Result<Effect, Refusal>
    ensures plan { IsDecision ledger.now.settings ledger.now.entries (AskWithdraw account amount) result }
    ensures colour { IsColoured ledger.now.entries result }
{
    let Some(balance) = ledger.balance(account) else {
        return Err(Refusal::UnknownAccount);
    };
    let amount = Amount::new(amount)?.cents();
    let kind = if balance < amount.0 {
        Kind::Declined
    } else {
        Kind::Withdraw
    };
    Ok(Effect {
        account,
        amount,
        kind,
        colour: kind.colour(None),
    })
}

/// The effect of a transfer: it is declined if the balance that it leaves is below it.
#[tactic(auto, unfolding(crate::specs::Requests::plan_of))]
fn transfer(ledger: &Ledger, from: Place, to: Place, amount: u64) -> Result<Effect, Refusal>
    ensures plan { IsDecision ledger.now.settings ledger.now.entries (AskTransfer from to amount) result }
    ensures colour { IsColoured ledger.now.entries result }
{
    let Some(balance) = ledger.balance(from) else {
        return Err(Refusal::UnknownAccount);
    };
    if ledger.config().accounts().len() <= to.0 as usize {
        return Err(Refusal::UnknownAccount);
    }
    let amount = Amount::new(amount)?.cents();
    if from.0 == to.0 {
        return Err(Refusal::SameAccount);
    }
    let covered = amount.0 <= balance;
    let kind = if covered {
        Kind::Transfer { to }
    } else {
        Kind::Declined
    };
    Ok(Effect {
        account: from,
        amount,
        kind,
        colour: kind.colour(None),
    })
}

/// The effect of interest.
#[tactic(auto, unfolding(crate::specs::Requests::plan_of))]
fn interest(ledger: &Ledger, account: Place, rate: u32) -> Result<Effect, Refusal>
    ensures plan { IsDecision ledger.now.settings ledger.now.entries (AskInterest account rate) result }
    ensures colour { IsColoured ledger.now.entries result }
{
    let Some(balance) = ledger.balance(account) else {
        return Err(Refusal::UnknownAccount);
    };
    let rate = Rate::new(rate)?;
    Ok(Effect {
        account,
        amount: interest_of(Cents(balance), rate)?,
        kind: Kind::Interest,
        colour: Colour::Blue,
    })
}

/// The effect of a cancellation.
#[tactic(auto, unfolding(crate::specs::Requests::plan_of))]
fn cancellation(ledger: &Ledger, target: OpName) -> Result<Effect, Refusal>
    ensures plan { IsDecision ledger.now.settings ledger.now.entries (AskCancel target) result }
    ensures colour { IsColoured ledger.now.entries result }
{
    let plan = cancel_of(ledger, target)?;
    Ok(Effect {
        account: plan.account,
        amount: Cents(plan.amount),
        kind: Kind::Cancel { target },
        colour: plan.colour,
    })
}

/// The effect of the request, decided on the ledger as it is, or why it is refused.
#[inline(always)]
pub(crate) fn decide(ledger: &Ledger, request: &Request) -> Result<Effect, Refusal>
    ensures plan { IsDecision ledger.now.settings ledger.now.entries request.now result }
    ensures colour { IsColoured ledger.now.entries result }
{
    match *request {
        Request::Deposit { account, amount } => deposit(ledger, account, amount),
        Request::Withdraw { account, amount } => withdrawal(ledger, account, amount),
        Request::Interest { account, rate } => interest(ledger, account, rate),
        Request::Cancel { target } => cancellation(ledger, target),
        Request::Transfer { from, to, amount } => transfer(ledger, from, to, amount),
    }
}

/// The number after this one, up to the limit.
fn number_after(count: u32, limit: u32) -> Result<u32, Refusal>
    ensures { MatchResult result (λ n. (n ≡ count + 1) × (count < limit)) (λ why. (why ≡ Refusal.NumbersExhausted)
        × (limit ≤ count)) }
{
    if limit <= count {
        return Err(Refusal::NumbersExhausted);
    }
    Ok(count + 1)
}

/// The next name of the colour at site `me`.
fn name_after(ledger: &Ledger, me: u8, colour: Colour) -> Result<OpName, Refusal>
    requires { me < MOST_SITES }
    ensures { MatchResult result
        (λ name. (name ≡ next_name me ledger.now.entries colour)
        × (number_of name ≤ limit_of ledger.now.settings.limits name))
        (λ why. (why ≡ Refusal.NumbersExhausted) × (limit_of ledger.now.settings.limits
        (next_name me ledger.now.entries colour) < number_of (next_name me ledger.now.entries colour))) }
{
    let limits = ledger.config().limits();
    let counts = ledger.clock().entries();
    match colour {
        Colour::Blue => {
            let n = number_after(counts.blue[me as usize], limits.blue)?;
            Ok(OpName::Blue { site: me, n })
        }
        Colour::Red => {
            let n = number_after(counts.red, limits.red)?;
            Ok(OpName::Red { n })
        }
    }
}

/// The operation that the effect makes at site `me`.
#[tactic(auto, unfolding(crate::specs::Requests::operation_of))]
fn operation(ledger: &Ledger, me: u8, effect: Effect) -> Result<Shadow, Refusal>
    requires here { me < MOST_SITES }
    requires colour { effect.colour ≡ colour_in ledger.now.entries effect.kind }
    ensures { MatchResult result
        (λ made. (made ≡ operation_of me ledger.now.entries (plan_of_effect effect))
        × (number_of made.name ≤ limit_of ledger.now.settings.limits made.name))
        (λ why. (why ≡ Refusal.NumbersExhausted) × (limit_of ledger.now.settings.limits
        (operation_of me ledger.now.entries (plan_of_effect effect)).name
        < number_of (operation_of me ledger.now.entries (plan_of_effect effect)).name)) }
{
    let name = name_after(ledger, me, effect.colour)?;
    Ok(Shadow {
        name,
        home: me,
        deps: ledger.clock().deps(),
        account: effect.account,
        amount: effect.amount.0,
        kind: effect.kind,
    })
}

/// Whether the site may make the red operation: it needs the token and all red operations before
/// it, and a cancellation needs the money that it takes back.
#[inline(always)]
fn permit_red(ledger: &Ledger, token: &TokenView, shadow: &Shadow) -> Result<(), Refusal>
    requires { refusal_of ledger.now.settings ledger.now.entries shadow.now
        ≡ (if overdraws ledger.now.settings ledger.now.entries shadow.now then Some Refusal.WouldOverdraw else None) }
    ensures { (known : Token) → Shows token.now known → MatchResult result
        (λ _. allowed_red ledger.now.settings ledger.now.entries known shadow.now ≡ Ok shadow.now)
        (λ why. allowed_red ledger.now.settings ledger.now.entries known shadow.now ≡ Err why) }
{
    token.may_red(ledger.clock())?;
    if shadow.kind.target().is_none() {
        return Ok(());
    }
    if ledger.would_overdraw(shadow) {
        return Err(Refusal::WouldOverdraw);
    }
    Ok(())
}

/// The operation that an effect, decided on a request, makes at the token's site. Nothing changes. It may be refused
/// with `NumbersExhausted`, and a red one with `NeedToken` or `RedBehind`, a red cancellation then with
/// `WouldOverdraw`.
#[inline(always)]
pub(crate) fn carry_out(
    ledger: &Ledger,
    token: &TokenView,
    effect: Effect,
) -> Result<Shadow, Refusal>
    requires site { token.now.me < ledger.now.settings.sites }
    requires plan { (request : TheRequest) × (plan_of ledger.now.settings ledger.now.entries request
        ≡ Ok (plan_of_effect effect)) }
    requires colour { effect.colour ≡ colour_in ledger.now.entries effect.kind }
    ensures made { (known : Token) → Shows token.now known →
        result ≡ allowed ledger.now.settings ledger.now.entries known
        (operation_of token.now.me ledger.now.entries (plan_of_effect effect)) }
    ensures valid { IfOk result (λ made. IsValid ledger.now.settings (ledger.now.entries ++ made ∷ [])) }
    ensures kind { IfOk result (λ made. made.kind ≡ effect.kind) }
    ensures original { IfOk result (λ made. (request : TheRequest) →
        plan_of ledger.now.settings ledger.now.entries request ≡ Ok (plan_of_effect effect) →
        DoesOriginal ledger.now.settings ledger.now.entries request made) }
{
    let sites = ledger.config().sites();
    prove!(token.me < sites);
    let shadow = operation(ledger, token.me, effect)?;
    if let Colour::Red = effect.colour {
        permit_red(ledger, token, &shadow)?;
    }
    Ok(shadow)
}

/// The operation that the request makes at the token's site, whose ledger this is, and that every site is to apply.
/// Nothing changes.
///
/// After "Defining shadow operations" of the published paper: a generator runs at the submitting
/// site, decides, and has no side effects. A withdrawal or a transfer above the balance makes a declined one.
///
/// The refusals, of which the first that holds is answered: `UnknownAccount`; `BadAmount` or
/// `BadRate`; `SameAccount`; `UnknownOperation`, `NotCancellable`, `AlreadyCancelled`; `DeltaTooLarge`;
/// `NumbersExhausted`; for a red operation `NeedToken`, `RedBehind`; for a red cancellation `WouldOverdraw`.
#[inline(always)]
pub fn generate(ledger: &Ledger, token: &TokenView, request: &Request) -> Result<Shadow, Refusal>
    requires { token.now.me < ledger.now.settings.sites }
    ensures made { (known : Token) → Shows token.now known →
        result ≡ made_of ledger.now.settings token.now.me ledger.now.entries known request.now }
    ensures valid { IfOk result (λ made. IsValid ledger.now.settings (ledger.now.entries ++ made ∷ [])) }
    ensures kind { IfOk result (λ made. made.kind ≡ granted_kind (bal ledger.now.settings ledger.now.entries)
        request.now) }
    ensures original { IfOk result (λ made. DoesOriginal ledger.now.settings ledger.now.entries request.now made) }
{
    let effect = decide(ledger, request)?;
    carry_out(ledger, token, effect)
}
