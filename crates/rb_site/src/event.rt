//! Events of a site.
ghost use Rattle.std.specs.Prelude.{◌≡◌, ◌↔◌, IfOk, IsTrue};

use crate::Message;
use crate::same::{same_in, same_place, same_value};
use rb_kit::List;
use rb_money::Place;
use rb_scratch::Request;
use rb_shadow::OpName;
use std::alloc::{AllocError, Global};

/// An event at a site.
#[derive(Debug, Drop)]
pub enum Event {
    /// A teller asks for one operation.
    Submit(Request),
    /// A teller asks for 1 to `MOST_REQUESTS` operations, of which all are made or none.
    Batch(List<Request>),
    /// A message comes.
    Receive(Message),
    /// A held operation is to be applied.
    Apply(OpName),
    /// The token is to go to the site of this number.
    Pass(u8),
    /// A teller asks for an account's balance.
    Balance(Place),
    /// A teller asks for an account's balance after this number of the site's operations.
    AsOf(Place, u32),
    /// A teller asks for an account's statement.
    Statement(Place),
}

impl Event {
    /// An equal event. `Err` means out of memory.
    pub fn try_copy(&self, alloc: Global) -> Result<Event, AllocError>
        ensures { IfOk result (λ copy. copy ≡ self.now) }
    {
        match self {
            Event::Submit(request) => Ok(Event::Submit(*request)),
            Event::Batch(requests) => {
                let requests = requests.try_copy(alloc)?;
                Ok(Event::Batch(requests))
            }
            Event::Receive(message) => Ok(Event::Receive(*message)),
            Event::Apply(name) => Ok(Event::Apply(*name)),
            Event::Pass(to) => Ok(Event::Pass(*to)),
            Event::Balance(place) => Ok(Event::Balance(*place)),
            Event::AsOf(place, position) => Ok(Event::AsOf(*place, *position)),
            Event::Statement(place) => Ok(Event::Statement(*place)),
        }
    }

    /// Whether the two are equal.
    pub fn same(&self, other: &Event) -> bool
        ensures { IsTrue result ↔ (self.now ≡ other.now) }
    {
        match self {
            Event::Submit(request) => {
                same_in!(other, Event::Submit(it) => same_value(request, it))
            }
            Event::Batch(requests) => same_in!(other, Event::Batch(it) => requests.same(it)),
            Event::Receive(message) => same_in!(other, Event::Receive(it) => message.same(it)),
            Event::Apply(name) => same_in!(other, Event::Apply(it) => same_value(name, it)),
            Event::Pass(to) => same_in!(other, Event::Pass(it) => *to == *it),
            Event::Balance(place) => same_in!(other, Event::Balance(it) => same_place(place, it)),
            Event::AsOf(place, position) => {
                same_in!(other, Event::AsOf(it, at) => same_place(place, it) && *position == *at)
            }
            Event::Statement(place) => {
                same_in!(other, Event::Statement(it) => same_place(place, it))
            }
        }
    }
}
