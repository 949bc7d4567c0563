//! The refusals that are written as their numbers alone.
ghost use Rattle.std.specs.Prelude.{◌≡◌};
ghost use Rattle.rb_history.specs.RepliesRead.{find_refusal, plain_refusals};

use rb_money::Refusal;

const PLAIN: [Refusal; 20] = [
    Refusal::UnknownAccount,
    Refusal::BadAmount,
    Refusal::BadRate,
    Refusal::UnknownOperation,
    Refusal::NotCancellable,
    Refusal::NumbersExhausted,
    Refusal::NeedToken,
    Refusal::WouldOverdraw,
    Refusal::DeltaTooLarge,
    Refusal::BadBatch,
    Refusal::NotHeld,
    Refusal::NotReady,
    Refusal::InboxFull,
    Refusal::Conflict,
    Refusal::NoMessage,
    Refusal::NoSite,
    Refusal::NotYours,
    Refusal::PositionBeyond,
    Refusal::HistoryFull,
    Refusal::SameAccount,
];

/// The first of these that has the number.
fn find_refusal(number: u8, refusals: &[Refusal]) -> Option<Refusal>
    ensures { result ≡ find_refusal number refusals.now }
{
    for refusal in refusals {
        if refusal.number() == number {
            return Some(*refusal);
        }
    }
    None
}

/// The refusal that is written as this number alone.
pub fn plain_refusal(number: u8) -> Option<Refusal>
    ensures { result ≡ find_refusal number plain_refusals }
{
    find_refusal(number, &PLAIN)
}
