//! Answers at a full history: an event that changes nothing is answered, and any other is refused.
ghost use Rattle.std.specs.Prelude.{◌≡◌, OnOk, true};
ghost use Rattle.rb_shadow.specs.Sound.{IsSound};
ghost use Rattle.rb_site.specs.Events.{outcome_of_new, reply_of, unless_full};
ghost use Rattle.rb_site.specs.Unchanging.{reply_at_full};

use crate::noted_reply::give;
use crate::state::{State, again, is_batch};
use crate::{Event, Message, Reply};
use rb_inbox::PutAnswer;
use rb_kit::List;
use rb_money::{Place, Refusal};
use rb_scratch::{Request, generate};
use rb_shadow::{OpName, Shadow};
use rb_token::{Accepted, TokenMessage};
use std::alloc::AllocError;

impl State {
    /// One event at a full history: what would change the state is refused by `HistoryFull`, and all else is answered.
    /// The state stays. `Err` means out of memory.
    #[inline(never)]
    pub fn answer_full(&mut self, event: &Event, reply: &mut Reply) -> Result<(), AllocError>
        ensures same { self.new ≡ self.old }
        ensures reply { OnOk result (reply.new ≡ reply_at_full self.old.settings self.old.site event.now) }
    {
        match event {
            Event::Submit(request) => {
                self.submit_full(request, reply);
                Ok(())
            }
            Event::Batch(requests) => self.batch_full(requests, reply),
            Event::Receive(Message::Shadow(shadow)) => {
                self.receive_full(shadow, reply);
                Ok(())
            }
            Event::Receive(Message::Token(message)) => {
                self.accept_full(message, reply);
                Ok(())
            }
            Event::Apply(name) => {
                self.apply_full(name, reply);
                Ok(())
            }
            Event::Pass(to) => {
                self.pass_full(*to, reply);
                Ok(())
            }
            Event::Balance(place) => {
                self.balance(*place, reply);
                Ok(())
            }
            Event::AsOf(place, position) => {
                self.as_of(*place, *position, reply);
                Ok(())
            }
            Event::Statement(place) => self.statement_full(place, reply),
        }
    }

    /// A request: the refusal that it has by itself, or else that the history is full.
    fn submit_full(&self, request: &Request, reply: &mut Reply)
        ensures { reply.new ≡ reply_at_full self.now.settings self.now.site (Event.Submit request.now) }
    {
        match generate(self.recorded.ledger(), &self.token.view(), request) {
            Ok(_) => give(reply, Reply::Refused(Refusal::HistoryFull)),
            Err(why) => give(reply, Reply::Refused(why)),
        }
    }

    /// A batch: the refusal that it has by itself, or else that the history is full. `Err` means out of memory.
    fn batch_full(&mut self, requests: &List<Request>, reply: &mut Reply) -> Result<(), AllocError>
        ensures same { self.new ≡ self.old }
        ensures reply { OnOk result (reply.new
            ≡ reply_at_full self.old.settings self.old.site (Event.Batch requests.now)) }
    {
        let asked = requests.as_slice();
        if !is_batch(asked.len()) {
            give(reply, Reply::Refused(Refusal::BadBatch));
            return Ok(());
        }
        let token = self.token.view();
        let why = match self.recorded.try_batch(self.alloc, token, asked) {
            Ok(()) => {
                give(reply, Reply::Refused(Refusal::HistoryFull));
                return Ok(());
            }
            Err(why) => why,
        };
        if let Refusal::OutOfMemory = why {
            return Err(AllocError);
        }
        give(reply, Reply::Refused(why));
        Ok(())
    }

    /// A shadow from another site: what is known of it, the refusal that it has by itself, or else that the history is
    /// full.
    fn receive_full(&self, shadow: &Shadow, reply: &mut Reply)
        ensures { reply.new
            ≡ reply_at_full self.now.settings self.now.site (Event.Receive (Message.Shadow shadow.now)) }
    {
        let ledger = self.recorded.ledger();
        if let Err(why) = shadow.sound(ledger.config()) {
            give(reply, Reply::Refused(why));
            return;
        }
        if let Some(same) = ledger.knows(shadow) {
            again(shadow, same, reply);
            return;
        }
        if shadow.home == self.token.view().me {
            give(reply, Reply::Refused(Refusal::Conflict));
            return;
        }
        self.hold_full(shadow, reply);
    }

    /// A sound shadow of another site, not applied here: `Already`, its own refusal, or else that the history is full.
    fn hold_full(&self, shadow: &Shadow, reply: &mut Reply)
        requires { IsSound self.now.settings shadow.now }
        ensures { reply.new ≡ reply_of self.now.settings self.now.site.ops
            (unless_full true (outcome_of_new self.now.settings self.now.site shadow.now)) }
    {
        match self.inbox.check(shadow, self.recorded.ledger().clock()) {
            Ok(PutAnswer::Held) => give(reply, Reply::Refused(Refusal::HistoryFull)),
            Ok(PutAnswer::Already) => give(reply, Reply::Already(shadow.name)),
            Err(why) => give(reply, Reply::Refused(why)),
        }
    }

    /// A token message: that it is stale, the refusal that it has by itself, or else that the history is full.
    fn accept_full(&self, message: &TokenMessage, reply: &mut Reply)
        ensures { reply.new
            ≡ reply_at_full self.now.settings self.now.site (Event.Receive (Message.Token message.now)) }
    {
        let mut token = self.token.copy();
        match token.accept(*message) {
            Ok(Accepted::Taken) => give(reply, Reply::Refused(Refusal::HistoryFull)),
            Ok(Accepted::Stale) => give(reply, Reply::Stale(message.epoch)),
            Err(why) => give(reply, Reply::Refused(why)),
        }
    }

    /// The name of a held shadow: why it stays, or else that the history is full. So what can't be applied isn't let
    /// go.
    fn apply_full(&self, name: &OpName, reply: &mut Reply)
        ensures { reply.new ≡ reply_at_full self.now.settings self.now.site (Event.Apply name.now) }
    {
        let Some(held) = self.inbox.held(name) else {
            give(reply, Reply::Refused(Refusal::NotHeld));
            return;
        };
        let ledger = self.recorded.ledger();
        if !ledger.is_eligible(held) {
            give(reply, Reply::Refused(Refusal::NotReady));
            return;
        }
        let why = match ledger.check(held) {
            Ok(()) => {
                give(reply, Reply::Refused(Refusal::HistoryFull));
                return;
            }
            Err(why) => why,
        };
        match why {
            Refusal::NotReady => give(reply, Reply::Refused(Refusal::NotReady)),
            // The shadow would be let go.
            _ => give(reply, Reply::Refused(Refusal::HistoryFull)),
        }
    }

    /// The token is to go: the refusal that this has by itself, or else that the history is full.
    fn pass_full(&self, to: u8, reply: &mut Reply)
        ensures { reply.new ≡ reply_at_full self.now.settings self.now.site (Event.Pass to) }
    {
        let mut token = self.token.copy();
        match token.pass(to, self.recorded.ledger().clock()) {
            Ok(_) => give(reply, Reply::Refused(Refusal::HistoryFull)),
            Err(why) => give(reply, Reply::Refused(why)),
        }
    }

    /// An account's statement, of which nothing is noted. `Err` means out of memory.
    fn statement_full(&self, place: &Place, reply: &mut Reply) -> Result<(), AllocError>
        ensures { OnOk result (reply.new
            ≡ reply_at_full self.now.settings self.now.site (Event.Statement place.now)) }
    {
        let mut noted = None;
        self.statement(*place, false, reply, &mut noted)
    }
}
