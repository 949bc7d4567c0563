//! The token, as a generator knows it.
ghost use Rattle.std.specs.Prelude.{◌≡◌, Some, None, MatchResult};
ghost use Rattle.rb_token.specs.Token.{Token, refusal_of_red};
ghost use Rattle.rb_token.specs.Seen.{Shows};

use rb_money::Refusal;
use rb_vclock::Clock;

/// The token as a site knows it when a request comes.
#[derive(Clone, Copy, Debug, PartialEq, Eq)]
pub struct TokenView {
    /// The site, from 0.
    pub me: u8,
    /// Whether it has the token.
    pub held: bool,
    /// How many red operations it needs to have applied before it makes one.
    pub needed: u32,
}

impl TokenView {
    /// Whether the site may make a red operation, having applied what the clock counts.
    ///
    /// Refuses with `NeedToken` if it hasn't the token, then with `RedBehind` if it applied fewer red operations than
    /// it needs.
    pub fn may_red(&self, clock: &Clock) -> Result<(), Refusal>
        ensures { (known : Token) → Shows self.now known → MatchResult result (λ _. refusal_of_red known clock.now.red
            ≡ None) (λ why. refusal_of_red known clock.now.red ≡ Some why) }
    {
        if !self.held {
            return Err(Refusal::NeedToken);
        }
        let seen = clock.deps().red;
        if seen < self.needed {
            return Err(Refusal::RedBehind {
                seen,
                needed: self.needed,
            });
        }
        Ok(())
    }
}
