//! Refusals.
ghost use Rattle.std.specs.Prelude.{◌≡◌};

/// The number by which a site's line refuses another request of a known id. It is no `Refusal`: no site records it.
pub const OTHER_REQUEST_REFUSED: u64 = 25;

/// The number by which a site's line refuses one that is to another bank. It is no `Refusal` either.
pub const OTHER_BANK_REFUSED: u64 = 26;

/// The cause that stopped a batch: a withdrawal or a transfer that would be declined, or a refusal by its number.
#[derive(Clone, Copy, Debug, PartialEq, Eq)]
pub enum Cause {
    Declined,
    Refused(u8),
}

/// Why a request or a message was refused.
#[derive(Clone, Copy, Debug, PartialEq, Eq)]
pub enum Refusal {
    /// There was no memory for it.
    OutOfMemory,
    /// The configuration has no such account.
    UnknownAccount,
    /// The amount isn't 1 to `MOST_CENTS`.
    BadAmount,
    /// The rate is over `MOST_RATE`.
    BadRate,
    /// The operation to cancel isn't applied here.
    UnknownOperation,
    /// It is a declined withdrawal or transfer, or a cancellation.
    NotCancellable,
    /// It is cancelled already, first by the operation at this position, from 1.
    AlreadyCancelled { position: u32 },
    /// The operation numbers of its colour, or the epochs, are used up.
    NumbersExhausted,
    /// It would be red, and the site hasn't the token.
    NeedToken,
    /// The site has the token, but applied only `seen` of the `needed` red operations.
    RedBehind { seen: u32, needed: u32 },
    /// It would leave a balance below zero.
    WouldOverdraw,
    /// The interest would be over `MOST_CENTS`.
    DeltaTooLarge,
    /// The batch has no request, or more than a batch may have.
    BadBatch,
    /// A request of the batch, by its index from 0, and what stopped it.
    BatchRefused { index: u8, cause: Cause },
    /// Nothing is held under the name.
    NotHeld,
    /// Its past isn't applied here yet, or, if `Ledger::check` says so, it is applied already.
    NotReady,
    /// The inbox is full, and the operation isn't ready.
    InboxFull,
    /// No site made such a message; `why` is 1 to 7.
    BadMessage { why: u8 },
    /// Another operation has the name, or it is said to be of this site, which didn't make it.
    Conflict,
    /// No message has the number.
    NoMessage,
    /// There is no such site, or a site would pass the token to itself.
    NoSite,
    /// The token message is for another site.
    NotYours,
    /// The position is beyond the operations that the site applied.
    PositionBeyond,
    /// The site's history is full.
    HistoryFull,
    /// The transfer would go to the account that it comes from.
    SameAccount,
}

impl Refusal {
    ghost use Rattle.rb_money.specs.Refusals.{number_of_refusal};

    /// The number by which lines name the refusal: 1 to 24, and 0 if memory runs out, which no line reports.
    pub fn number(&self) -> u8
        ensures { result ≡ number_of_refusal self.now }
    {
        match self {
            Refusal::OutOfMemory => 0,
            Refusal::UnknownAccount => 1,
            Refusal::BadAmount => 2,
            Refusal::BadRate => 3,
            Refusal::UnknownOperation => 4,
            Refusal::NotCancellable => 5,
            Refusal::AlreadyCancelled { .. } => 6,
            Refusal::NumbersExhausted => 7,
            Refusal::NeedToken => 8,
            Refusal::RedBehind { .. } => 9,
            Refusal::WouldOverdraw => 10,
            Refusal::DeltaTooLarge => 11,
            Refusal::BadBatch => 12,
            Refusal::BatchRefused { .. } => 13,
            Refusal::NotHeld => 14,
            Refusal::NotReady => 15,
            Refusal::InboxFull => 16,
            Refusal::BadMessage { .. } => 17,
            Refusal::Conflict => 18,
            Refusal::NoMessage => 19,
            Refusal::NoSite => 20,
            Refusal::NotYours => 21,
            Refusal::PositionBeyond => 22,
            Refusal::HistoryFull => 23,
            Refusal::SameAccount => 24,
        }
    }
}
