//! The state of a site between two events.
//!
//! An arm that needs large locals and comes seldom is a function of its own that isn't inlined: a function clears the
//! locals of all its arms before the first.
//!
//! A request's operation is taken out of what `generate` answers. Read where it is, a deposit takes some 20
//! instructions more, as the answer stays in memory.
ghost use Rattle.std.specs.Prelude.{◌≡◌, ◌<◌, ◌&&◌, [], true, nat_le, if◌then◌else◌, IfNone, IfOk, IfSome, None, OnErr};
ghost use Rattle.std.specs.Prelude.{OnOk};
ghost use Rattle.rb_shadow.specs.Operations.{clock_of, find_in};
ghost use Rattle.rb_ledger.specs.Records.{records_of};
ghost use Rattle.rb_shadow.specs.Sound.{IsSound};
ghost use Rattle.rb_scratch.specs.declared.request.TheConstants.{MOST_REQUESTS};
ghost use Rattle.rb_site.specs.Events.{changes, first_site, outcome_of, outcome_of_new};
ghost use Rattle.rb_site.specs.Ready.{IsNextName, NoneIsReady};
ghost use Rattle.rb_site.specs.States.{Follows, Says, noting, plain};

use crate::noted_reply::give;
use crate::recorded_ledger::RecordedLedger;
use crate::{Event, Message, Reply};
use rb_inbox::{Inbox, PutAnswer};
use rb_kit::List;
use rb_ledger::{Ledger, OperationList};
use rb_money::{Config, Place, Refusal};
use rb_scratch::{MOST_REQUESTS, Request, generate};
use rb_shadow::{OpName, Shadow};
use rb_statements::{balance_at, empty_statement, statement};
use rb_token::{Accepted, TokenMessage, TokenState};
use rb_undo::UndoLog;
use rb_vclock::Clock;
use std::alloc::{AllocError, Global};
use std::marker::Model;

/// A site's state between two events: what it applied, what it holds, and what it knows of the token.
pub struct State {
    pub(crate) alloc: Global,
    pub(crate) recorded: RecordedLedger,
    pub(crate) inbox: Inbox,
    pub(crate) token: TokenState,
}

impl Model for State {
    ghost use Rattle.std.specs.Prelude.{[]};
    ghost use Rattle.rb_site.specs.States.{SiteState, IsTied};

    ghost Value = { SiteState };

    ghost view = { λ s. record {
      settings = s.recorded.settings;
      site = record { me = s.token.me; ops = s.recorded.ops; held = s.inbox.held; token = s.token.token; history = [] };
    } };

    ghost invariant = { λ s. IsTied s.recorded.settings s.inbox s.token };
}

impl State {
    /// The state of a site before any event. `Err` means out of memory.
    pub fn open(alloc: Global, config: &Config, me: u8) -> Result<State, AllocError>
        requires { me < config.now.sites }
        ensures { IfOk result (λ state. (state.settings ≡ config.now) × (state.site ≡ first_site me)) }
    {
        let recorded = RecordedLedger::open(alloc, config)?;
        Ok(State {
            alloc,
            recorded,
            inbox: Inbox::open(alloc, config.limits().inbox),
            token: TokenState::open(me, config),
        })
    }

    /// The configuration.
    pub fn config(&self) -> &Config
        ensures { result.now ≡ self.now.settings }
    {
        self.recorded.ledger().config()
    }

    /// The site's number.
    pub fn me(&self) -> u8
        ensures same { result ≡ self.now.site.me }
        ensures within { result < self.now.settings.sites }
    {
        self.token.view().me
    }

    /// The operations that the site applied.
    pub fn ledger(&self) -> &Ledger
        ensures settings { result.now.settings ≡ self.now.settings }
        ensures entries { result.now.entries ≡ self.now.site.ops }
    {
        self.recorded.ledger()
    }

    /// The undo records: the k-th is that of the first k operations.
    pub fn log(&self) -> &UndoLog
        ensures { result.now.parts ≡ records_of self.now.settings self.now.site.ops }
    {
        self.recorded.log()
    }

    /// The operations that the site holds.
    pub fn inbox(&self) -> &Inbox
        ensures held { result.now.held ≡ self.now.site.held }
        ensures limit { result.now.limit ≡ self.now.settings.limits.inbox }
    {
        &self.inbox
    }

    /// The name of the held operation that is applied first of those that are ready, if there is one.
    pub fn ready(&mut self) -> Option<OpName>
        ensures same { self.new ≡ self.old }
        ensures next { IfSome result (IsNextName self.old.site) }
        ensures none { IfNone result (NoneIsReady self.old.site) }
    {
        self.inbox.next_ready(self.recorded.ledger().clock())
    }

    /// The site's knowledge of the token.
    pub fn token(&self) -> &TokenState
        ensures me { result.now.me ≡ self.now.site.me }
        ensures sites { result.now.sites ≡ self.now.settings.sites }
        ensures limits { result.now.limits ≡ self.now.settings.limits }
        ensures token { result.now.token ≡ self.now.site.token }
    {
        &self.token
    }

    /// The operations in order, their clock, and what the site knows of the token.
    pub fn close(self) -> (OperationList, Clock, TokenState)
        ensures entries { result.0.items ≡ self.site.ops }
        ensures clock { result.1 ≡ clock_of self.site.ops }
        ensures me { result.2.me ≡ self.site.me }
        ensures sites { result.2.sites ≡ self.settings.sites }
        ensures limits { result.2.limits ≡ self.settings.limits }
        ensures token { result.2.token ≡ self.site.token }
    {
        let State {
            alloc: _,
            recorded,
            inbox: _,
            token,
        } = self;
        let (entries, clock) = recorded.close();
        (entries, clock, token)
    }

    /// One event, for a history that keeps replies or doesn't. The answer goes to the two places, and what the event
    /// sends to the end of the messages sent. After running out of memory the state and the messages are as before.
    #[inline(always)]
    #[tactic(auto, unfolding(crate::specs::Events::outcome_of))]
    pub fn act(
        &mut self,
        event: &Event,
        keeps: bool,
        sent: &mut Vec<Message>,
        reply: &mut Reply,
        noted: &mut Option<Reply>,
    ) -> Result<(), AllocError>
        requires { noted.old ≡ None }
        ensures ok { OnOk result (Follows keeps self.old self.new sent.old.items sent.new.items
            (outcome_of self.old.settings self.old.site event.now) (noting reply.new noted.new)) }
        ensures err { OnErr result ((self.new ≡ self.old) × (sent.new.items ≡ sent.old.items)) }
    {
        match event {
            Event::Submit(request) => self.submit(request, sent, reply),
            Event::Batch(requests) => self.batch(requests, keeps, sent, reply, noted),
            Event::Receive(Message::Shadow(shadow)) => self.receive(shadow, reply),
            Event::Receive(Message::Token(message)) => {
                self.accept(message, reply);
                Ok(())
            }
            Event::Apply(name) => self.apply(name, reply),
            Event::Pass(to) => self.pass(*to, sent, reply),
            Event::Balance(place) => {
                self.balance(*place, reply);
                Ok(())
            }
            Event::AsOf(place, position) => {
                self.as_of(*place, *position, reply);
                Ok(())
            }
            Event::Statement(place) => self.statement(*place, keeps, reply, noted),
        }
    }

    /// Takes one event as `act` does, and answers whether it changed the state.
    #[inline(always)]
    pub fn act_seeing(
        &mut self,
        event: &Event,
        keeps: bool,
        sent: &mut Vec<Message>,
        reply: &mut Reply,
        noted: &mut Option<Reply>,
    ) -> Result<bool, AllocError>
        requires { noted.old ≡ None }
        ensures ok { OnOk result (Follows keeps self.old self.new sent.old.items sent.new.items
            (outcome_of self.old.settings self.old.site event.now) (noting reply.new noted.new)) }
        ensures changed { IfOk result (λ changed. changed
            ≡ changes (outcome_of self.old.settings self.old.site event.now)) }
        ensures err { OnErr result ((self.new ≡ self.old) × (sent.new.items ≡ sent.old.items)) }
    {
        let held = self.inbox.len();
        self.act(event, keeps, sent, reply, noted)?;
        Ok(reply.shows_change(self.inbox.len() < held))
    }

    /// A request is decided here, and its shadow is applied here and sent.
    #[tactic(auto, unfolding(crate::specs::Events::outcome_of))]
    fn submit(
        &mut self,
        request: &Request,
        sent: &mut Vec<Message>,
        reply: &mut Reply,
    ) -> Result<(), AllocError>
        ensures ok { OnOk result (Follows true self.old self.new sent.old.items sent.new.items
            (outcome_of self.old.settings self.old.site (Event.Submit request.now)) (plain reply.new)) }
        ensures err { OnErr result ((self.new ≡ self.old) × (sent.new.items ≡ sent.old.items)) }
    {
        let shadow = match generate(self.recorded.ledger(), &self.token.view(), request) {
            Ok(shadow) => shadow,
            Err(why) => {
                give(reply, Reply::Refused(why));
                return Ok(());
            }
        };
        sent.reserve(1)?;
        self.recorded.apply_made(&shadow)?;
        sent.push_reserved(Message::Shadow(shadow));
        let name = shadow.name;
        let kind = shadow.kind.label();
        give(reply, Reply::Made { name, kind });
        Ok(())
    }

    /// The requests of a batch are decided here one after another, and their shadows are applied
    /// here and sent: all of them or none.
    #[inline(never)]
    fn batch(
        &mut self,
        requests: &List<Request>,
        keeps: bool,
        sent: &mut Vec<Message>,
        reply: &mut Reply,
        noted: &mut Option<Reply>,
    ) -> Result<(), AllocError>
        requires { noted.old ≡ None }
        ensures ok { OnOk result (Follows keeps self.old self.new sent.old.items sent.new.items
            (outcome_of self.old.settings self.old.site (Event.Batch requests.now)) (noting reply.new noted.new)) }
        ensures err { OnErr result ((self.new ≡ self.old) × (sent.new.items ≡ sent.old.items)) }
    {
        let asked = requests.as_slice();
        if !is_batch(asked.len()) {
            give(reply, Reply::Refused(Refusal::BadBatch));
            return Ok(());
        }
        let token = self.token.view();
        let made = self
            .recorded
            .batch(self.alloc, token, asked, reply, keeps, sent);
        let why = match made {
            Ok(made) => {
                made.put(reply, noted);
                return Ok(());
            }
            Err(why) => why,
        };
        if let Refusal::OutOfMemory = why {
            return Err(AllocError);
        }
        give(reply, Reply::Refused(why));
        Ok(())
    }

    /// A shadow from another site is held until it is applied.
    #[inline(never)]
    #[tactic(auto, unfolding(crate::specs::Events::outcome_of))]
    fn receive(&mut self, shadow: &Shadow, reply: &mut Reply) -> Result<(), AllocError>
        ensures ok { OnOk result (Follows true self.old self.new [] []
            (outcome_of self.old.settings self.old.site (Event.Receive (Message.Shadow shadow.now)))
            (plain reply.new)) }
        ensures err { OnErr result (self.new ≡ self.old) }
    {
        let ledger = self.recorded.ledger();
        if let Err(why) = shadow.sound(ledger.config()) {
            give(reply, Reply::Refused(why));
            return Ok(());
        }
        if let Some(same) = ledger.knows(shadow) {
            again(shadow, same, reply);
            return Ok(());
        }
        self.receive_new(shadow, reply)
    }

    /// A sound shadow, of a name that isn't applied here, is held until it is.
    #[tactic(auto, unfolding(crate::specs::Events::outcome_of))]
    fn receive_new(&mut self, shadow: &Shadow, reply: &mut Reply) -> Result<(), AllocError>
        requires sound { IsSound self.old.settings shadow.now }
        requires new { find_in self.old.site.ops shadow.now.name ≡ None }
        ensures ok { OnOk result (Follows true self.old self.new [] []
            (outcome_of self.old.settings self.old.site (Event.Receive (Message.Shadow shadow.now)))
            (plain reply.new)) }
        ensures err { OnErr result (self.new ≡ self.old) }
    {
        if shadow.home == self.token.view().me {
            give(reply, Reply::Refused(Refusal::Conflict));
            return Ok(());
        }
        self.hold(shadow, reply)
    }

    /// A sound shadow that isn't applied here is held until it is.
    #[inline(always)]
    fn hold(&mut self, shadow: &Shadow, reply: &mut Reply) -> Result<(), AllocError>
        requires { IsSound self.old.settings shadow.now }
        ensures ok { OnOk result (Follows true self.old self.new [] []
            (outcome_of_new self.old.settings self.old.site shadow.now) (plain reply.new)) }
        ensures err { OnErr result (self.new ≡ self.old) }
    {
        let why = match self.inbox.put_copy(shadow, self.recorded.ledger().clock()) {
            Ok(PutAnswer::Held) => {
                give(reply, Reply::Held(shadow.name));
                return Ok(());
            }
            Ok(PutAnswer::Already) => {
                give(reply, Reply::Already(shadow.name));
                return Ok(());
            }
            Err(why) => why,
        };
        if let Refusal::OutOfMemory = why {
            return Err(AllocError);
        }
        give(reply, Reply::Refused(why));
        Ok(())
    }

    /// A token message makes this site the holder, unless its epoch was seen.
    #[inline(never)]
    #[tactic(auto, unfolding(crate::specs::Events::outcome_of))]
    fn accept(&mut self, message: &TokenMessage, reply: &mut Reply)
        ensures { Follows true self.old self.new [] [] (outcome_of self.old.settings self.old.site
            (Event.Receive (Message.Token message.now))) (plain reply.new) }
    {
        match self.token.accept(*message) {
            Ok(Accepted::Taken) => give(reply, Reply::Taken(message.epoch)),
            Ok(Accepted::Stale) => give(reply, Reply::Stale(message.epoch)),
            Err(why) => give(reply, Reply::Refused(why)),
        }
    }

    /// A held shadow whose past is applied is applied too, or is let go if it can't be.
    #[tactic(auto, unfolding(crate::specs::Events::outcome_of))]
    fn apply(&mut self, name: &OpName, reply: &mut Reply) -> Result<(), AllocError>
        ensures ok { OnOk result (Follows true self.old self.new [] []
            (outcome_of self.old.settings self.old.site (Event.Apply name.now)) (plain reply.new)) }
        ensures err { OnErr result (self.new ≡ self.old) }
    {
        let (index, held) = self.inbox.find(name);
        let Some(held) = held else {
            give(reply, Reply::Refused(Refusal::NotHeld));
            return Ok(());
        };
        if !self.recorded.ledger().is_eligible(held) {
            give(reply, Reply::Refused(Refusal::NotReady));
            return Ok(());
        }
        let name = held.name;
        let why = match self.recorded.apply(held) {
            Ok(()) => {
                self.inbox.remove_at(&name, index);
                give(reply, Reply::Applied(name));
                return Ok(());
            }
            Err(why) => why,
        };
        match why {
            Refusal::OutOfMemory => Err(AllocError),
            Refusal::NotReady => {
                give(reply, Reply::Refused(Refusal::NotReady));
                Ok(())
            }
            why => {
                self.inbox.remove_at(&name, index);
                give(reply, Reply::Refused(why));
                Ok(())
            }
        }
    }

    /// The token goes to another site.
    #[inline(never)]
    #[tactic(auto, unfolding(crate::specs::Events::outcome_of))]
    fn pass(&mut self, to: u8, sent: &mut Vec<Message>, reply: &mut Reply) -> Result<(), AllocError>
        ensures ok { OnOk result (Follows true self.old self.new sent.old.items sent.new.items
            (outcome_of self.old.settings self.old.site (Event.Pass to)) (plain reply.new)) }
        ensures err { OnErr result ((self.new ≡ self.old) × (sent.new.items ≡ sent.old.items)) }
    {
        let mut passed = self.token.copy();
        let message = match passed.pass(to, self.recorded.ledger().clock()) {
            Ok(message) => message,
            Err(why) => {
                give(reply, Reply::Refused(why));
                return Ok(());
            }
        };
        sent.reserve(1)?;
        sent.push_reserved(Message::Token(message));
        self.token = passed;
        give(reply, Reply::Passed(message.epoch));
        Ok(())
    }

    /// An account's balance.
    #[inline(always)]
    #[tactic(auto, unfolding(crate::specs::Events::outcome_of))]
    pub fn balance(&self, place: Place, reply: &mut Reply)
        ensures { Follows true self.now self.now [] [] (outcome_of self.now.settings self.now.site
            (Event.Balance place)) (plain reply.new) }
    {
        match self.recorded.ledger().balance(place) {
            Some(cents) => give(reply, Reply::Balance(cents)),
            None => give(reply, Reply::Refused(Refusal::UnknownAccount)),
        }
    }

    /// An account's balance, in cents, after the first `position` operations of the ledger.
    #[inline(never)]
    #[tactic(auto, unfolding(crate::specs::Events::outcome_of))]
    pub fn as_of(&self, place: Place, position: u32, reply: &mut Reply)
        ensures { Follows true self.now self.now [] [] (outcome_of self.now.settings self.now.site
            (Event.AsOf place position)) (plain reply.new) }
    {
        match balance_at(self.recorded.ledger(), place, position) {
            Ok(cents) => give(reply, Reply::Balance(cents)),
            Err(why) => give(reply, Reply::Refused(why)),
        }
    }

    /// An account's statement, for a history that keeps it or doesn't. One without rows that isn't kept takes no
    /// memory.
    #[inline(never)]
    #[tactic(auto, unfolding(crate::specs::Events::outcome_of))]
    pub fn statement(
        &self,
        place: Place,
        keeps: bool,
        reply: &mut Reply,
        noted: &mut Option<Reply>,
    ) -> Result<(), AllocError>
        requires { noted.old ≡ None }
        ensures { OnOk result (Follows keeps self.now self.now [] []
            (outcome_of self.now.settings self.now.site (Event.Statement place)) (noting reply.new noted.new)) }
    {
        if keeps {
            return self.any_statement(place, keeps, reply, noted);
        }
        match empty_statement(self.alloc, self.recorded.ledger(), place) {
            Some(shown) => {
                *reply = Reply::Statement(shown);
                Ok(())
            }
            None => self.any_statement(place, keeps, reply, noted),
        }
    }

    /// An account's statement, with rows or without, for a history that keeps it or doesn't.
    #[inline(never)]
    #[tactic(auto, unfolding(crate::specs::Events::outcome_of))]
    fn any_statement(
        &self,
        place: Place,
        keeps: bool,
        reply: &mut Reply,
        noted: &mut Option<Reply>,
    ) -> Result<(), AllocError>
        requires { noted.old ≡ None }
        ensures { OnOk result (Follows keeps self.now self.now [] []
            (outcome_of self.now.settings self.now.site (Event.Statement place)) (noting reply.new noted.new)) }
    {
        let shown = match statement(self.alloc, self.recorded.ledger(), place) {
            Ok(shown) => shown,
            Err(Refusal::OutOfMemory) => return Err(AllocError),
            Err(why) => {
                give(reply, Reply::Refused(why));
                return Ok(());
            }
        };
        if keeps {
            let copy = shown.try_copy(self.alloc)?;
            *noted = Some(Reply::Statement(copy));
        }
        *reply = Reply::Statement(shown);
        Ok(())
    }
}

/// Whether a batch may have this number of requests: 1 to `MOST_REQUESTS`.
pub fn is_batch(requests: usize) -> bool
    ensures { result ≡ (nat_le 1 requests && nat_le requests MOST_REQUESTS) }
{
    1 <= requests && requests <= MOST_REQUESTS
}

/// Answers a shadow whose name is known: `Already` if it is the shadow of that name, and `Conflict` if it is another.
pub fn again(shadow: &Shadow, same: bool, reply: &mut Reply)
    ensures { Says true (plain reply.new) (if same then Reply.Already shadow.now.name
        else Reply.Refused Refusal.Conflict) }
{
    if same {
        give(reply, Reply::Already(shadow.name));
    } else {
        give(reply, Reply::Refused(Refusal::Conflict));
    }
}
