//! The sites of a bank, together.
//!
//! Sites share nothing but messages, so each has its own list of operations: at eight sites some 82 bytes each beside
//! the record. The world keeps each message for good, as it may be delivered at any time: in 112 bytes, or in 16 the
//! place at which its site has the operation.
ghost use Rattle.std.specs.Prelude.{◌≡◌, ◌<◌, ◌≤◌, ◌⊎◌, Some, IfSome, IfOk, IfErr, OnErr, OnOk, All};
ghost use Rattle.std.specs.Prelude.{◌+◌, ◌++◌, ◌^◌, List, length, true, map, option_map, slice_get, take};
ghost use Rattle.std.specs.Prelude.{vec_capacity, vec_len, None};
ghost use Rattle.std.specs.Bool.{OnFalse, OnTrue};
ghost use Rattle.std.specs.List.{range_with_len};
ghost use Rattle.rb_money.specs.declared.limits.TheConstants.{MOST_SITES};
ghost use Rattle.rb_site.specs.Events.{ModelSite, first_site};
ghost use Rattle.rb_site.specs.Seen.{state_of};
ghost use Rattle.rb_site.specs.Histories.{site_of};
ghost use Rattle.rb_site.specs.Worlds.{IsCommand, arrival, is_recorded, message_at};
ghost use Rattle.rb_site.specs.declared.event.Event.TheVariants.{Receive};
ghost use Rattle.rb_world.specs.Laws.{Headline, IsRunOf, OtherLaws, next_replies, next_reply};
ghost use Rattle.rb_world.specs.Laws.{next_world, next_worlds, opened};
ghost use Rattle.rb_world.specs.Reports.{AreReportsOf};
ghost use Rattle.rb_world.specs.Sent.{AreMadeFrom};

use crate::{KeepsEvent, KeepsMessage, Stopped};
use rb_kit::reserve_one;
use rb_money::{Config, Refusal};
use rb_scratch::MOST_REQUESTS;
use rb_site::{Entry, Event, KeepsEntry, Message, Reply, Site, SiteReport, WorldEvent};
use std::alloc::{AllocError, Global};
use std::marker::Model;

/// The sites of a bank, together: one for each site number, every message that was ever sent, in order, and the events
/// that the sites recorded. Sites share nothing else. A world is always the run of its events. It can't be dropped: it
/// is closed. `E` is what the sites keep of each entry, `R` what the world keeps of each event, and `M` what it keeps
/// of each message.
pub struct World<E: KeepsEntry = Entry, R: KeepsEvent = WorldEvent, M: KeepsMessage = Message> {
    alloc: Global,
    pub(crate) config: Config,
    sites: Vec<Site<E>>,
    messages: Vec<M>,
    // What an event sends, in memory that the next one uses again.
    sent: Vec<Message>,
    events: Vec<R>,
    reports: Vec<SiteReport>,
}

impl<E: KeepsEntry, R: KeepsEvent, M: KeepsMessage> Model for World<E, R, M> {
    ghost use Rattle.std.specs.Prelude.{◌≡◌, ◌≤◌, [], All, length, map, vec_capacity};
    ghost use Rattle.rb_site.specs.Seen.{SeenSite, state_of};
    ghost use Rattle.rb_world.specs.Laws.{SeenWorld, IsRunOf};

    ghost Value = { SeenWorld };

    ghost view = { λ w. record {
      settings = w.config;
      world = record { sites = map state_of w.sites.items; messages = map M.noted w.messages.items };
      events = map R.noted w.events.items;
    } };

    ghost invariant = { λ w. IsRunOf (record {
      settings = w.config;
      world = record { sites = map state_of w.sites.items; messages = map M.noted w.messages.items };
      events = map R.noted w.events.items;
    })
        × All (λ (x : SeenSite). x.settings ≡ w.config) w.sites.items
        × All (M.IsThere (map state_of w.sites.items)) w.messages.items
        × (w.reports.items ≡ [])
        × (length w.sites.items ≤ vec_capacity w.reports) };
}

impl World {
    /// The sites of a configuration before any event. `Err` means out of memory.
    pub fn open(alloc: Global, config: Config) -> Result<World, AllocError>
        ensures { IfOk result (λ world. world ≡ opened config) }
    {
        World::open_keeping(alloc, config)
    }

    /// A list of events, and their replies. After running out of memory the world is as after as many
    /// events as `Stopped` says, and the next one is one that a site would record. Memory for the replies comes first.
    pub fn run(&mut self, events: &[WorldEvent]) -> Result<Vec<Reply>, Stopped>
        requires { All IsCommand events.now }
        ensures ok { IfOk result (λ replies. (replies.items ≡ next_replies self.old events.now)
            × (self.new ≡ next_worlds self.old events.now)) }
        ensures stopped { IfErr result (λ stopped. (stopped.answered ≤ length events.now)
            × (self.new ≡ next_worlds self.old (take stopped.answered events.now))) }
        ensures why { IfErr result (λ stopped. (stopped.answered ≡ 0) ⊎ IfSome (slice_get events.now stopped.answered)
            (λ event. is_recorded self.new.settings self.new.world event ≡ true)) }
        ensures headline { Headline self.new.settings self.new.world }
        ensures others { OtherLaws self.new.settings self.new.world }
    {
        // At each end `laws_hold` is called for its facts alone.
        let mut replies = Vec::new(self.alloc);
        if replies.reserve(events.len()).is_err() {
            self.laws_hold();
            return Err(Stopped { answered: 0 });
        }
        for (answered, event) in events.iter().enumerate() {
            let mut reply = Reply::Refused(Refusal::NoSite);
            match self.answer(event, &mut reply) {
                Ok(()) => replies.push_reserved(reply),
                Err(_) => {
                    self.laws_hold();
                    return Err(Stopped { answered });
                }
            }
        }
        self.laws_hold();
        Ok(replies)
    }

    /// Every message that was ever sent, in order.
    pub fn messages(&self) -> &[Message]
        ensures { result.now ≡ self.now.world.messages }
    {
        self.messages.as_slice()
    }

    /// The events that the sites recorded, in order. The world is the run of them.
    pub fn events(&self) -> &[WorldEvent]
        ensures same { result.now ≡ self.now.events }
        ensures run { IsRunOf self.now }
    {
        self.events.as_slice()
    }
}

impl<E: KeepsEntry, R: KeepsEvent, M: KeepsMessage> World<E, R, M> {
    /// The sites of a configuration before any event, in a world that keeps an `R` of each event and an `M` of each
    /// message, and whose sites keep an `E` of each entry. `Err` means out of memory.
    pub fn open_keeping(alloc: Global, config: Config) -> Result<World<E, R, M>, AllocError>
        ensures { IfOk result (λ world. world ≡ opened config) }
    {
        let mut reports = Vec::new(alloc);
        reports.reserve(config.sites() as usize)?;
        let sites = open_sites(alloc, &config)?;
        Ok(World {
            alloc,
            config,
            sites,
            messages: Vec::new(alloc),
            sent: Vec::new(alloc),
            events: Vec::new(alloc),
            reports,
        })
    }

    /// One event, and its reply. The event is listed if a site recorded it. `Err` means out of memory, and comes
    /// only for an event that a site would record: the world is then as before.
    pub fn step(&mut self, event: WorldEvent) -> Result<Reply, AllocError>
        requires { IsCommand event }
        ensures ok { IfOk result (λ reply. (reply ≡ next_reply self.old event)
            × (self.new ≡ next_world self.old event)) }
        ensures err { OnErr result (self.new ≡ self.old) }
        ensures recordable { OnErr result (is_recorded self.old.settings self.old.world event ≡ true) }
    {
        let mut reply = Reply::Refused(Refusal::NoSite);
        self.answer(&event, &mut reply)?;
        Ok(reply)
    }

    /// As `step`, but it borrows the event, and puts the reply in the place of another. After an `Err` that place may
    /// have any reply.
    #[inline(always)]
    pub fn answer(&mut self, event: &WorldEvent, reply: &mut Reply) -> Result<(), AllocError>
        requires { IsCommand event.now }
        ensures ok { OnOk result ((reply.new ≡ next_reply self.old event.now)
            × (self.new ≡ next_world self.old event.now)) }
        ensures err { OnErr result (self.new ≡ self.old) }
        ensures recordable { OnErr result (is_recorded self.old.settings self.old.world event.now ≡ true) }
    {
        if self.site(event.site()).is_none() {
            *reply = Reply::Refused(Refusal::NoSite);
            return Ok(());
        }
        match event {
            WorldEvent::At(_, arrived) => self.arrive(event, arrived, reply),
            WorldEvent::Deliver(_, number) => self.deliver(event, *number, reply),
        }
    }

    /// A message of this number is delivered to a site. This is a call, so that no other event clears the memory of the
    /// message.
    #[inline(never)]
    fn deliver(
        &mut self,
        event: &WorldEvent,
        number: u32,
        reply: &mut Reply,
    ) -> Result<(), AllocError>
        requires command { IsCommand event.now }
        requires site { site_of event.now < length self.old.world.sites }
        requires delivery { event.now ≡ WorldEvent.Deliver (site_of event.now) number }
        ensures ok { OnOk result ((reply.new ≡ next_reply self.old event.now)
            × (self.new ≡ next_world self.old event.now)) }
        ensures err { OnErr result (self.new ≡ self.old) }
        ensures recordable { OnErr result (is_recorded self.old.settings self.old.world event.now ≡ true) }
    {
        let mut arrived = Event::Pass(0);
        if !self.put_arrival(number, &mut arrived) {
            *reply = Reply::Refused(Refusal::NoMessage);
            return Ok(());
        }
        self.arrive(event, &arrived, reply)
    }

    /// The site's event `arrived` comes to the site: unless its history is full, the site takes a step, and the world's
    /// event is listed.
    #[inline(always)]
    fn arrive(
        &mut self,
        event: &WorldEvent,
        arrived: &Event,
        reply: &mut Reply,
    ) -> Result<(), AllocError>
        requires command { IsCommand event.now }
        requires site { site_of event.now < length self.old.world.sites }
        requires arrived { arrival self.old.world.messages event.now ≡ Some arrived.now }
        ensures ok { OnOk result ((reply.new ≡ next_reply self.old event.now)
            × (self.new ≡ next_world self.old event.now)) }
        ensures err { OnErr result (self.new ≡ self.old) }
        ensures recordable { OnErr result (is_recorded self.old.settings self.old.world event.now ≡ true) }
    {
        let number = event.site();
        let site = number as usize;
        if self.sites[site].is_full() {
            *reply = Reply::Refused(Refusal::HistoryFull);
            return Ok(());
        }
        reserve_one(&mut self.events)?;
        self.messages.reserve(MOST_REQUESTS)?;
        let noted = R::note(self.alloc, event)?;
        let first = self.sites[site].ledger().len() + 1;
        self.sent.clear();
        self.sites[site].answer(arrived, &mut self.sent, reply)?;
        self.events.push_reserved(noted);
        note_all(&mut self.messages, self.sent.as_slice(), number, first);
        Ok(())
    }

    /// The configuration.
    pub fn config(&self) -> &Config
        ensures { result.now ≡ self.now.settings }
    {
        &self.config
    }

    /// A site, if there is one of that number.
    pub fn site(&self, site: u8) -> Option<&Site<E>>
        ensures state { option_map (λ site. state_of site.now) result ≡ slice_get self.now.world.sites site }
        ensures settings { IfSome result (λ site. site.now.settings ≡ self.now.settings) }
    {
        self.sites.get(site as usize)
    }

    /// Puts the event by which the message of a number, from 1 in the order of sending, comes to a site in the place of
    /// another. `false` if there is no such message.
    #[inline(always)]
    fn put_arrival(&self, number: u32, event: &mut Event) -> bool
        ensures some { OnTrue result (option_map Receive (message_at self.now.world.messages number)
            ≡ Some event.new) }
        ensures none { OnFalse result (option_map Receive (message_at self.now.world.messages number) ≡ None) }
    {
        if number == 0 {
            return false;
        }
        let Some(kept) = self.messages.get(number as usize - 1) else {
            return false;
        };
        kept.arrive(self.sites.as_slice(), event);
        true
    }

    /// Closes the world: each site reports its state, in order. A site that keeps no history reports no balances, no
    /// counts and no history. This takes no memory.
    pub fn close(self) -> Vec<SiteReport>
        ensures reports { AreReportsOf E.KEEPS self.settings self.world.sites result.items }
        ensures few { length result.items ≤ MOST_SITES }
    {
        let World {
            alloc: _,
            config: _,
            mut sites,
            messages: _,
            sent: _,
            events: _,
            mut reports,
        } = self;
        'sites: while let Some(site) = sites.pop() {
            reports.push_reserved(site.close());
        }
        sites.destroy_empty();
        reports.reverse();
        reports
    }
}

/// Notes the messages that a site sent, in spare capacity. Its operations that they have are at its positions from
/// `first` on.
#[inline(always)]
fn note_all<M: KeepsMessage>(messages: &mut Vec<M>, sent: &[Message], site: u8, first: u32)
    requires room { vec_len messages.old + length sent.now ≤ vec_capacity messages.old }
    requires few { first + length sent.now < 2 ^ 32 }
    ensures noted { map M.noted messages.new.items ≡ map M.noted messages.old.items ++ sent.now }
    ensures there { (ts : List ModelSite) → AreMadeFrom ts site first sent.now
        → All (M.IsThere ts) messages.old.items → All (M.IsThere ts) messages.new.items }
{
    let mut position = first;
    for message in sent {
        messages.push_reserved(M::note(message, site, position));
        position += 1;
    }
}

/// A site for each number of the configuration.
fn open_sites<E: KeepsEntry>(alloc: Global, config: &Config) -> Result<Vec<Site<E>>, AllocError>
    ensures sites { IfOk result (λ sites. map state_of sites.items
        ≡ map first_site (range_with_len 0 config.now.sites)) }
    ensures settings { IfOk result (λ sites. All (λ x. x.settings ≡ config.now) sites.items) }
    ensures few { IfOk result (λ sites. length sites.items ≡ config.now.sites) }
{
    let mut sites = Vec::new(alloc);
    let count = config.sites();
    if sites.reserve(count as usize).is_err() {
        sites.destroy_empty();
        return Err(AllocError);
    }
    for me in 0..count {
        match Site::open_keeping(alloc, config, me) {
            Ok(site) => sites.push_reserved(site),
            Err(refused) => {
                end_all(sites);
                return Err(refused);
            }
        }
    }
    Ok(sites)
}

/// Closes sites whose reports nobody asks for.
fn end_all<E: KeepsEntry>(mut sites: Vec<Site<E>>) {
    'sites: while let Some(site) = sites.pop() {
        let _report = site.close();
    }
    sites.destroy_empty();
}
