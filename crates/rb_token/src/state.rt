//! The token, as a site knows it.
//!
//! Each pass has the next epoch, so a message that comes again or late is stale and changes nothing. A message says how
//! many red operations were applied before: the addressee makes none until it has applied as many.
ghost use Rattle.std.specs.Prelude.{◌≡◌, ◌<◌, true, false, Some, None, OnOk, OnErr, IfOk, IfErr, MatchResult};
ghost use Rattle.rb_token.specs.Token.{first_token, refusal_of_pass, pass_message, passed_token, refusal_of_token};
ghost use Rattle.rb_token.specs.Token.{is_stale, taken_token, refusal_of_red};
ghost use Rattle.rb_token.specs.Seen.{Shows};

use crate::{Accepted, TokenMessage, TokenView};
use rb_money::{Config, Limits, Refusal};
use rb_vclock::Clock;
use std::marker::Model;

/// The token as a site knows it, with the limits that bound it. The site, the number of sites and the limits never
/// change.
#[derive(Drop)]
pub struct TokenState {
    me: u8,
    sites: u8,
    limits: Limits,
    epoch: u32,
    held: bool,
    needed: u32,
}

impl Model for TokenState {
    ghost use Rattle.rb_token.specs.Seen.{SeenToken};

    ghost Value = { SeenToken };

    ghost view = { λ s. record {
      me = s.me;
      sites = s.sites;
      limits = s.limits;
      token = record { epoch = s.epoch; held = s.held; needed = s.needed };
    } };
}

impl TokenState {
    /// The token as site `me` knows it at first: site 0 has it.
    pub fn open(me: u8, config: &Config) -> TokenState
        requires { me < config.now.sites }
        ensures me { result.me ≡ me }
        ensures sites { result.sites ≡ config.now.sites }
        ensures limits { result.limits ≡ config.now.limits }
        ensures token { result.token ≡ first_token me }
    {
        TokenState {
            me,
            sites: config.sites(),
            limits: config.limits(),
            epoch: 0,
            held: me == 0,
            needed: 0,
        }
    }

    /// A copy of what the site knows of the token.
    pub fn copy(&self) -> TokenState
        ensures { result ≡ self.now }
    {
        let TokenView { me, held, needed } = self.view();
        TokenState {
            me,
            sites: self.sites,
            limits: self.limits,
            epoch: self.epoch,
            held,
            needed,
        }
    }

    /// The token, as a generator at this site knows it.
    pub fn view(&self) -> TokenView
        ensures me { result.me ≡ self.now.me }
        ensures shows { Shows result self.now.token }
    {
        TokenView {
            me: self.me,
            held: self.held,
            needed: self.needed,
        }
    }

    /// The greatest epoch that the site has seen.
    pub fn epoch(&self) -> u32
        ensures { result ≡ self.now.token.epoch }
    {
        self.epoch
    }

    /// Gives up the token, and makes the message that hands it to site `to`. The message says how
    /// many red operations the addressee needs: the larger of this site's need and its clock's count.
    ///
    /// Refuses, and changes nothing: with `NoSite` if there is no other site `to`, then with
    /// `NumbersExhausted` if the epochs are used up, then with `NeedToken` if it hasn't the token.
    pub fn pass(&mut self, to: u8, clock: &Clock) -> Result<TokenMessage, Refusal>
        ensures allowed { OnOk result (refusal_of_pass self.old.sites self.old.limits self.old.me self.old.token to
            ≡ None) }
        ensures sent { IfOk result (λ message. message ≡ pass_message self.old.token to clock.now.red) }
        // the site, the number of sites and the limits stay
        ensures passed { IfOk result (λ message. self.new ≡ record self.old
            { token = passed_token self.old.token message }) }
        ensures reason { IfErr result (λ why. refusal_of_pass self.old.sites self.old.limits self.old.me self.old.token
            to ≡ Some why) }
        ensures unchanged { OnErr result (self.new ≡ self.old) }
    {
        if to >= self.sites || to == self.me {
            return Err(Refusal::NoSite);
        }
        if self.epoch >= self.limits.epoch {
            return Err(Refusal::NumbersExhausted);
        }
        if !self.held {
            return Err(Refusal::NeedToken);
        }
        self.epoch += 1;
        self.held = false;
        Ok(TokenMessage {
            epoch: self.epoch,
            to,
            red: self.needed.max(clock.deps().red),
        })
    }

    /// Takes a token message, or leaves a stale one: that of an epoch which the site has seen.
    ///
    /// Refuses, and changes nothing: with `NotYours` if the message is for another site, then
    /// with `BadMessage {why: 2}` if its epoch or its count of red operations is over the limit.
    pub fn accept(&mut self, message: TokenMessage) -> Result<Accepted, Refusal>
        ensures allowed { OnOk result (refusal_of_token self.old.limits self.old.me message ≡ None) }
        ensures stale { is_stale self.old.token message ≡ true →
            IfOk result (λ accepted. (accepted ≡ Accepted.Stale) × (self.new ≡ self.old)) }
        // the site, the number of sites and the limits stay
        ensures taken { is_stale self.old.token message ≡ false →
            IfOk result (λ accepted. (accepted ≡ Accepted.Taken)
            × (self.new ≡ record self.old { token = taken_token message })) }
        ensures reason { IfErr result (λ why. refusal_of_token self.old.limits self.old.me message ≡ Some why) }
        ensures unchanged { OnErr result (self.new ≡ self.old) }
    {
        if message.to != self.me {
            return Err(Refusal::NotYours);
        }
        if message.epoch > self.limits.epoch || message.red > self.limits.red {
            return Err(Refusal::BadMessage { why: 2 });
        }
        if message.epoch <= self.epoch {
            return Ok(Accepted::Stale);
        }
        self.epoch = message.epoch;
        self.held = true;
        self.needed = message.red;
        Ok(Accepted::Taken)
    }

    /// Whether the site may make a red operation, having applied what the clock counts.
    ///
    /// Refuses with `NeedToken` if it hasn't the token, then with `RedBehind` if it applied fewer red operations than
    /// it needs.
    pub fn may_red(&self, clock: &Clock) -> Result<(), Refusal>
        ensures { MatchResult result (λ _. refusal_of_red self.now.token clock.now.red
            ≡ None) (λ why. refusal_of_red self.now.token clock.now.red ≡ Some why) }
    {
        self.view().may_red(clock)
    }
}
