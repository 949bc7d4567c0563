//! Desks, seats, and the one call that makes a receipt.
//!
//! Only `record` makes receipts and entries, and it counts them in the books by the lengths of both lists. So an event
//! that leaves no entry at its own site can't be counted. Memory is taken before the step, so a call that fails leaves
//! desk and seat as they were.
ghost use Rattle.std.specs.Prelude.{◌≡◌, ◌<◌, ◌≤◌, ◌++◌, ◌∷◌, [], All, IfNone, IfOk, IfSome, List, OnErr, Err, Ok};
ghost use Rattle.std.specs.Prelude.{None, false, length};
ghost use Rattle.std.specs.Option.{option_copied};
ghost use Rattle.rb_site.specs.Events.{first_site, is_full, reply_to, sent_at};
ghost use Rattle.rb_site.specs.Ready.{IsNextName, NoneIsReady};
ghost use Rattle.rb_site.specs.Seen.{Replays, first_seen, state_of, stepped};
ghost use Rattle.rb_branch.specs.Gathered.{IsClosedReport};
ghost use Rattle.rb_branch.specs.Seats.{Records, SetsUnsent, CannotRecord, IsSiteReply};
ghost use Rattle.rb_branch.specs.Seats.{is_full_inbox, receipt, receipt_at};
ghost use Rattle.rb_branch.specs.declared.call_fault.CallFault.TheVariants.{HistoryFull};
ghost use Rattle.rb_branch.specs.declared.limits.TheConstants.{MOST_RECEIPTS};
ghost use Rattle.rb_branch.specs.declared.receipt.Receipt.{Receipt as ReceiptOf};
ghost use Rattle.rb_shadow.specs.declared.op_name.OpName.{OpName as NameOf};
ghost use Rattle.rb_site.specs.declared.event.Event.TheVariants.{Apply};

use crate::returned_seat::ReturnedSeat;
use crate::{Books, CallFault, Entries, MOST_RECEIPTS, Receipt};
use rb_kit::reserve_one;
use rb_money::Refusal;
use rb_shadow::OpName;
use rb_site::{Event, Posted, Reply, Site, SiteReport};
use std::alloc::{AllocError, Global};
use std::marker::{Model, PhantomData};
use std::sync::ledger::{Ledger, Share};
use std::sync::{Mutex, Wait};

/// The contents of a site's lock: the site, and its share of the entries. Clients see the site. It can't be
/// dropped.
pub struct Desk<E: Entries> {
    site: Site,
    share: Share<E>,
}

impl<E: Entries> Model for Desk<E> {
    ghost use Rattle.rb_site.specs.Seen.{SeenSite};
    ghost use Rattle.rb_branch.specs.Seats.{IsDesk};

    ghost Value = { SeenSite };

    ghost view = { λ d. d.site };

    ghost invariant = { λ d. IsDesk E.settings d.site d.share.parts d.share.amount };
}

/// One client at one site: what it was answered, and its share of the receipts. Clients see the site's number
/// and the receipts.
#[derive(Drop)]
pub struct Seat<E: Entries, R: Ledger> {
    site: u8,
    receipts: Vec<Receipt>,
    share: Share<R>,
    of: PhantomData<E>,
}

impl<E: Entries, R: Ledger> Model for Seat<E, R> {
    ghost use Rattle.rb_branch.specs.Seats.{SeenSeat, IsSeat};

    ghost Value = { SeenSeat };

    ghost view = { λ s. record { site = s.site; receipts = s.receipts.items } };

    ghost invariant = { λ s. IsSeat E.settings s.site s.receipts.items s.share.parts s.share.amount };
}

/// One event at the desk, and its receipt at the end of the seat: its number there, from 1, and what is to be
/// sent. Nothing else makes a receipt. Memory for it is taken before the step, and the books' lock once it is made.
///
/// `Err` means out of memory, or a full history, a full seat, or a seat of another site; desk and seat are
/// then as before.
pub fn record<E: Entries, R: Ledger, W: Wait>(
    rt: &W,
    desk: &mut Desk<E>,
    seat: &mut Seat<E, R>,
    books: &Mutex<Books<E, R>>,
    event: Event,
) -> Result<(u32, Posted), CallFault>
    ensures ok { IfOk result (λ r. Records desk.old desk.new event seat.old seat.new r.0 r.1.items) }
    ensures err { OnErr result ((desk.new ≡ desk.old) × (seat.new ≡ seat.old)) }
    ensures full { result ≡ Err HistoryFull → CannotRecord desk.old seat.old }
{
    let Desk { site, share: entry } = desk;
    let Seat {
        site: me,
        receipts,
        share,
        ..
    } = seat;
    let (entries, noted) = (site.len(), receipts.len());
    let posted = note(site, *me, receipts, event)?;
    let made = u64::from(site.len() - entries);
    books
        .lock(rt)
        .count(entry, made, share, (receipts.len() - noted) as u64);
    Ok((receipts.len() as u32, posted))
}

/// One event at a site, and its receipt at the end of these, a seat's at the site of this number. Memory
/// for it is taken before the step. After an `Err` site and receipts are as before.
fn note(
    site: &mut Site,
    me: u8,
    receipts: &mut Vec<Receipt>,
    event: Event,
) -> Result<Posted, CallFault>
    ensures here { IfOk result (λ _. me ≡ site.old.me) }
    ensures few { IfOk result (λ _. length receipts.old.items < MOST_RECEIPTS) }
    ensures step { IfOk result (λ _. site.new ≡ stepped site.old event) }
    ensures room { IfOk result (λ _. is_full site.old.settings (state_of site.old) ≡ false) }
    ensures receipt { IfOk result (λ _. receipts.new.items ≡ receipts.old.items
        ++ receipt (length site.new.entries) event (reply_to site.old.settings (state_of site.old) event) 0 ∷ []) }
    ensures posted { IfOk result (λ p. p.items ≡ sent_at site.old.settings (state_of site.old) event) }
    ensures err { OnErr result ((site.new ≡ site.old) × (receipts.new.items ≡ receipts.old.items)) }
    ensures full { result ≡ Err HistoryFull
        → CannotRecord site.old (record { site = me; receipts = receipts.old.items }) }
{
    if site.me() != me || site.is_full() || receipts.len() >= MOST_RECEIPTS {
        return Err(CallFault::HistoryFull);
    }
    reserve_one(receipts)?;
    let mut posted = Vec::new(*receipts.allocator());
    let mut reply = Reply::Refused(Refusal::HistoryFull);
    site.answer(&event, &mut posted, &mut reply)?;
    let number = site.len();
    receipts.push_reserved(Receipt {
        number,
        event,
        reply,
        unsent: 0,
    });
    Ok(posted)
}

/// The first, by home, colour and number, of the held operations whose past the desk's site applied is applied, and its
/// receipt is the last of the seat, as `record` puts it: its number there, and what is to be sent. `None` comes only
/// if there is no such operation; there is no event then.
pub fn record_ready<E: Entries, R: Ledger, W: Wait>(
    rt: &W,
    desk: &mut Desk<E>,
    seat: &mut Seat<E, R>,
    books: &Mutex<Books<E, R>>,
) -> Result<Option<(u32, Posted)>, CallFault>
    ensures some { IfOk result
        (λ o. IfSome o (λ r. (x : NameOf) × IsNextName (state_of desk.old) x
        × Records desk.old desk.new (Apply x) seat.old seat.new r.0 r.1.items)) }
    ensures none { IfOk result (λ o. IfNone o
        (NoneIsReady (state_of desk.old) × (desk.new ≡ desk.old) × (seat.new ≡ seat.old))) }
    ensures err { OnErr result ((desk.new ≡ desk.old) × (seat.new ≡ seat.old)) }
    ensures full { result ≡ Err HistoryFull → CannotRecord desk.old seat.old }
{
    let Some(name) = desk.ready() else {
        return Ok(None);
    };
    let made = record(rt, desk, seat, books, Event::Apply(name))?;
    Ok(Some(made))
}

/// Whether the reply is that the inbox is full.
fn is_full_inbox(reply: &Reply) -> bool
    ensures { result ≡ is_full_inbox reply.now }
{
    match reply {
        Reply::Refused(Refusal::InboxFull) => true,
        _ => false,
    }
}

impl<E: Entries> Desk<E> {
    /// The desk of a site before any event.
    pub(crate) fn open(site: Site, share: Share<E>) -> Desk<E>
        requires site { site ≡ first_seen E.settings site.me }
        requires within { site.me < E.settings.sites }
        requires share { (share.parts ≡ 1) × (share.amount ≡ 0) }
        ensures { result ≡ site }
    {
        Desk { site, share }
    }

    /// The site. Whenever its lock is got it is one of the branch's configuration, and its history replays.
    pub fn site(&self) -> &Site
        ensures same { result.now ≡ self.now }
        ensures settings { self.now.settings ≡ E.settings }
        ensures within { self.now.me < E.settings.sites }
        ensures replays { Replays E.settings (first_site self.now.me) self.now.entries }
        ensures room { length self.now.entries ≤ E.settings.limits.history }
    {
        &self.site
    }

    /// The name of the first of the held operations whose past the site applied, by the site's own clock, if there is
    /// one.
    pub(crate) fn ready(&mut self) -> Option<OpName>
        ensures same { self.new ≡ self.old }
        ensures next { IfSome result (IsNextName (state_of self.old)) }
        ensures none { IfNone result (NoneIsReady (state_of self.old)) }
    {
        self.site.ready()
    }

    /// Closes the site, and gives its share back. This takes no memory.
    pub(crate) fn close(self) -> (SiteReport, Share<E>)
        ensures report { IsClosedReport E.settings result.0 }
        ensures share { (result.1.parts ≡ 1) × (result.1.amount ≡ length result.0.history.items) }
    {
        let Desk { site, share } = self;
        (site.close(), share)
    }
}

impl<E: Entries, R: Ledger> Seat<E, R> {
    /// A seat at a site, without receipts.
    pub(crate) fn open(alloc: Global, site: u8, share: Share<R>) -> Seat<E, R>
        requires within { site < E.settings.sites }
        requires share { (share.parts ≡ 1) × (share.amount ≡ 0) }
        ensures { result ≡ record { site = site; receipts = [] } }
    {
        Seat {
            site,
            receipts: Vec::new(alloc),
            share,
            of: PhantomData,
        }
    }

    /// The number of its site.
    pub fn site(&self) -> u8
        ensures same { result ≡ self.now.site }
        ensures within { result < E.settings.sites }
    {
        self.site
    }

    /// The receipts, in the order of the calls.
    pub fn receipts(&self) -> &[Receipt]
        ensures same { result.now ≡ self.now.receipts }
        ensures few { length self.now.receipts ≤ MOST_RECEIPTS }
        ensures answered { All (IsSiteReply E.settings self.now.site) self.now.receipts }
    {
        self.receipts.as_slice()
    }

    /// The receipt of this number, from 1, if there is one.
    pub fn receipt(&self, number: u32) -> Option<&Receipt>
        ensures { option_copied result ≡ receipt_at self.now.receipts number }
    {
        if number == 0 {
            return None;
        }
        self.receipts.get(number as usize - 1)
    }

    /// Whether the last receipt's reply is that the inbox is full.
    pub(crate) fn found_full(&self) -> bool
        ensures { (before : List ReceiptOf) (last : ReceiptOf) → self.now.receipts ≡ before ++ last ∷ []
            → result ≡ is_full_inbox last.reply }
    {
        match self.receipts.last() {
            Some(receipt) => is_full_inbox(&receipt.reply),
            None => false,
        }
    }

    /// Notes how many links refused a message of the last receipt.
    pub(crate) fn set_unsent(&mut self, count: u32)
        requires { 0 < length self.old.receipts }
        ensures { SetsUnsent self.old self.new count }
    {
        let last = self.receipts.len() - 1;
        let receipt = &mut self.receipts[last];
        receipt.unsent = count;
    }

    /// Gives the seat's receipts and its share back.
    pub(crate) fn give_back(self) -> (ReturnedSeat, Share<R>)
        ensures given { result.0 ≡ self }
        ensures share { (result.1.parts ≡ 1) × (result.1.amount ≡ length self.receipts) }
    {
        let Seat {
            site,
            receipts,
            share,
            of: _,
        } = self;
        (ReturnedSeat::new(site, receipts), share)
    }
}
