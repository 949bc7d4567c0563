//! The calls that a seat makes at its site.
ghost use Rattle.std.specs.Prelude.{◌≡◌, Err, IfOk, OnErr};
ghost use Rattle.rb_branch.specs.Seats.{CannotCall, HasOneMore};
ghost use Rattle.rb_branch.specs.declared.call_fault.CallFault.TheVariants.{HistoryFull};

use crate::{Branch, CallFault, Entries, Gate, Outbox, Seat};
use rb_kit::List;
use rb_money::Place;
use rb_scratch::Request;
use rb_shadow::OpName;
use rb_site::{Event, Message};
use std::sync::Wait;
use std::sync::ledger::Ledger;

/// Each call is one event at the seat's site, and answers the number of its receipt in the seat, from 1. After
/// an `Err`, that memory ran out or that the history or the seat is full, site and seat are as before.
impl<E: Entries, R: Ledger, G: Gate + Drop> Branch<E, R, G> {
    /// A request for one operation.
    pub fn submit<W: Wait>(
        &self,
        rt: &W,
        seat: &mut Seat<E, R>,
        outbox: &Outbox<E>,
        request: Request,
    ) -> Result<u32, CallFault>
        ensures ok { IfOk result (λ n. HasOneMore seat.old seat.new (λ e. e ≡ Event.Submit request) n) }
        ensures err { OnErr result (seat.new ≡ seat.old) }
        ensures full { result ≡ Err HistoryFull → CannotCall E.settings seat.old }
    {
        self.send(rt, seat, outbox, Event::Submit(request))
    }

    /// A request to cancel an operation.
    pub fn cancel<W: Wait>(
        &self,
        rt: &W,
        seat: &mut Seat<E, R>,
        outbox: &Outbox<E>,
        target: OpName,
    ) -> Result<u32, CallFault>
        ensures ok { IfOk result (λ n. HasOneMore seat.old seat.new (λ e. e ≡ Event.Submit (Request.Cancel target)) n) }
        ensures err { OnErr result (seat.new ≡ seat.old) }
        ensures full { result ≡ Err HistoryFull → CannotCall E.settings seat.old }
    {
        self.send(rt, seat, outbox, Event::Submit(Request::Cancel { target }))
    }

    /// 1 to `MOST_REQUESTS` requests, of which all are made or none.
    pub fn batch<W: Wait>(
        &self,
        rt: &W,
        seat: &mut Seat<E, R>,
        outbox: &Outbox<E>,
        requests: List<Request>,
    ) -> Result<u32, CallFault>
        ensures ok { IfOk result (λ n. HasOneMore seat.old seat.new (λ e. e ≡ Event.Batch requests) n) }
        ensures err { OnErr result (seat.new ≡ seat.old) }
        ensures full { result ≡ Err HistoryFull → CannotCall E.settings seat.old }
    {
        self.send(rt, seat, outbox, Event::Batch(requests))
    }

    /// The token is to go to the site of this number.
    pub fn pass<W: Wait>(
        &self,
        rt: &W,
        seat: &mut Seat<E, R>,
        outbox: &Outbox<E>,
        to: u8,
    ) -> Result<u32, CallFault>
        ensures ok { IfOk result (λ n. HasOneMore seat.old seat.new (λ e. e ≡ Event.Pass to) n) }
        ensures err { OnErr result (seat.new ≡ seat.old) }
        ensures full { result ≡ Err HistoryFull → CannotCall E.settings seat.old }
    {
        self.send(rt, seat, outbox, Event::Pass(to))
    }

    /// One event. Its messages go out by the outbox once the site's lock is released.
    pub fn send<W: Wait>(
        &self,
        rt: &W,
        seat: &mut Seat<E, R>,
        outbox: &Outbox<E>,
        event: Event,
    ) -> Result<u32, CallFault>
        ensures ok { IfOk result (λ n. HasOneMore seat.old seat.new (λ e. e ≡ event) n) }
        ensures err { OnErr result (seat.new ≡ seat.old) }
        ensures full { result ≡ Err HistoryFull → CannotCall E.settings seat.old }
    {
        let (number, posted) = self.call(rt, seat, event)?;
        let posting = outbox.post(rt, seat.site(), self.sites(), posted.as_slice());
        seat.set_unsent(posting.unsent());
        Ok(number)
    }

    /// One event that sends nothing.
    fn ask<W: Wait>(&self, rt: &W, seat: &mut Seat<E, R>, event: Event) -> Result<u32, CallFault>
        ensures ok { IfOk result (λ n. HasOneMore seat.old seat.new (λ e. e ≡ event) n) }
        ensures err { OnErr result (seat.new ≡ seat.old) }
        ensures full { result ≡ Err HistoryFull → CannotCall E.settings seat.old }
    {
        let (number, _posted) = self.call(rt, seat, event)?;
        Ok(number)
    }

    /// A message comes.
    pub fn receive<W: Wait>(
        &self,
        rt: &W,
        seat: &mut Seat<E, R>,
        message: Message,
    ) -> Result<u32, CallFault>
        ensures ok { IfOk result (λ n. HasOneMore seat.old seat.new (λ e. e ≡ Event.Receive message) n) }
        ensures err { OnErr result (seat.new ≡ seat.old) }
        ensures full { result ≡ Err HistoryFull → CannotCall E.settings seat.old }
    {
        self.ask(rt, seat, Event::Receive(message))
    }

    /// A question for an account's balance.
    pub fn balance<W: Wait>(
        &self,
        rt: &W,
        seat: &mut Seat<E, R>,
        place: Place,
    ) -> Result<u32, CallFault>
        ensures ok { IfOk result (λ n. HasOneMore seat.old seat.new (λ e. e ≡ Event.Balance place) n) }
        ensures err { OnErr result (seat.new ≡ seat.old) }
        ensures full { result ≡ Err HistoryFull → CannotCall E.settings seat.old }
    {
        self.ask(rt, seat, Event::Balance(place))
    }

    /// A question for an account's balance after this number of the site's operations.
    pub fn as_of<W: Wait>(
        &self,
        rt: &W,
        seat: &mut Seat<E, R>,
        place: Place,
        position: u32,
    ) -> Result<u32, CallFault>
        ensures ok { IfOk result (λ n. HasOneMore seat.old seat.new (λ e. e ≡ Event.AsOf place position) n) }
        ensures err { OnErr result (seat.new ≡ seat.old) }
        ensures full { result ≡ Err HistoryFull → CannotCall E.settings seat.old }
    {
        self.ask(rt, seat, Event::AsOf(place, position))
    }

    /// A question for an account's statement.
    pub fn statement<W: Wait>(
        &self,
        rt: &W,
        seat: &mut Seat<E, R>,
        place: Place,
    ) -> Result<u32, CallFault>
        ensures ok { IfOk result (λ n. HasOneMore seat.old seat.new (λ e. e ≡ Event.Statement place) n) }
        ensures err { OnErr result (seat.new ≡ seat.old) }
        ensures full { result ≡ Err HistoryFull → CannotCall E.settings seat.old }
    {
        self.ask(rt, seat, Event::Statement(place))
    }
}
