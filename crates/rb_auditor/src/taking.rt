//! Entries of histories, taken one after another. Each was replayed as it was read, so its step is enough here: a
//! receipt can be taken once its message was sent, and any other entry at once.
ghost use Rattle.std.specs.Prelude.{◌≡◌, ◌+◌, ◌<◌, ◌≤◌, IfOk, IfSome, OnErr, MatchBool, length, map};
ghost use Rattle.std.specs.Prelude.{option_map, take, drop};
ghost use Rattle.rb_auditor.specs.Kept.{AreJudged, AreWhole, IsTakenAs, HasPlaces, histories_in};
ghost use Rattle.rb_auditor.specs.Progress.{IsDone, IsLeft, IsTaking, Rests, Took, first_progress};

use crate::Certificate;
use crate::message_list::MessageList;
use crate::notes::Notes;
use crate::sent_messages::SentMessages;
use crate::step::Step;
use rb_money::Config;
use std::alloc::{AllocError, Global};
use std::marker::Model;

/// The search for an order: histories that their sites record, and the order in which entries of them were taken
/// so far, each receipt after its message was sent.
#[derive(Drop)]
pub struct Taking<'a> {
    config: &'a Config,
    notes: &'a [Notes],
    order: Vec<u8>,
    // How many entries of each history were taken.
    taken: Vec<usize>,
    // The messages that these sent, among those that the steps of the notes speak of.
    sent: SentMessages<'a>,
}

impl<'a> Model for Taking<'a> {
    ghost use Rattle.rb_money.specs.Settings.{IsConfigured};
    ghost use Rattle.rb_auditor.specs.Kept.{AreJudged, AreWhole, histories_in};
    ghost use Rattle.rb_auditor.specs.Progress.{IsTaking, Progress};

    ghost Value = { Progress };

    ghost view = { λ t. record {
      settings = t.config.now;
      histories = histories_in t.notes.now;
      order = t.order.items;
      taken = t.taken.items;
      messages = t.sent.items;
    } };

    ghost invariant = { λ t. IsTaking (record {
      settings = t.config.now;
      histories = histories_in t.notes.now;
      order = t.order.items;
      taken = t.taken.items;
      messages = t.sent.items;
    })
        × AreJudged t.config.now t.notes.now t.sent.all
        × AreWhole t.notes.now
        × IsConfigured t.config.now };
}

impl<'a> Taking<'a> {
    /// The notes of histories, one for each site, all of whose entries their sites record. No entry is taken yet.
    pub fn open(
        alloc: Global,
        config: &'a Config,
        notes: &'a [Notes],
        messages: &'a MessageList,
    ) -> Result<Taking<'a>, AllocError>
        requires judged { AreJudged config.now notes.now messages.now.items }
        requires whole { AreWhole notes.now }
        ensures { IfOk result (λ taking. taking ≡ first_progress config.now (histories_in notes.now)) }
    {
        let sent = SentMessages::new(alloc, config.sites(), messages)?;
        let mut taken = Vec::new(alloc);
        taken.resize(notes.len(), 0)?;
        Ok(Taking {
            config,
            notes,
            order: Vec::new(alloc),
            taken,
            sent,
        })
    }

    /// Takes the next entry of a site, if one is left, and it isn't the receipt of a message that
    /// wasn't sent. `Err` means out of memory: nothing is taken then.
    pub fn take(&mut self, site: usize) -> Result<bool, AllocError>
        requires { site < length self.old.histories }
        ensures ok { IfOk result
            (λ took. MatchBool took (Took self.old self.new site) ((self.new ≡ self.old)
            × Rests self.old site)) }
        ensures err { OnErr result (self.new ≡ self.old) }
    {
        let taken = self.taken[site];
        let Some(step) = self.notes[site].steps.get(taken) else {
            return Ok(false);
        };
        let Some((first, count)) = moved(&self.sent, *step) else {
            return Ok(false);
        };
        self.order.reserve(1)?;
        self.sent.add_all(first, count)?;
        self.taken[site] = taken + 1;
        self.order.push_reserved(site as u8);
        Ok(true)
    }

    /// How many sites there are. The entries that were taken are in an order that certifies them.
    pub fn sites(&self) -> usize
        ensures sites { result ≡ length self.now.histories }
        ensures taking { IsTaking self.now }
    {
        self.notes.len()
    }

    /// Whether all entries were taken. Those that were are in an order that certifies them.
    pub fn is_done(&self) -> bool
        ensures done { MatchBool result (IsDone self.now) (IsLeft self.now) }
        ensures taking { IsTaking self.now }
    {
        for site in 0..self.notes.len() {
            if self.taken[site] < self.notes[site].steps.len() {
                return false;
            }
        }
        true
    }

    /// The number of each site's next entry, from 1. `Err` means out of memory.
    pub fn next(&self, alloc: Global) -> Result<Vec<u32>, AllocError>
        ensures { IfOk result (λ next. next.items ≡ map (λ k. k + 1) self.now.taken) }
    {
        let mut next = Vec::new(alloc);
        for taken in &self.taken {
            next.push(*taken as u32 + 1)?;
        }
        Ok(next)
    }

    /// The sites of the entries, in the order in which they were taken.
    pub fn close(self) -> Certificate
        ensures order { result ≡ self.entry.order }
    {
        let Taking {
            config: _,
            notes: _,
            order,
            taken: _,
            sent: _,
        } = self;
        Certificate::new(order)
    }
}

/// The place among all messages of the first that an entry sends, by its step, and how many it sends. `None` if it is
/// the receipt of a message that wasn't sent.
fn moved(sent: &SentMessages<'_>, step: Step) -> Option<(u32, u8)>
    requires { HasPlaces sent.now.all step }
    ensures taken { IsTakenAs sent.now.items sent.now.all step
        (option_map (λ p. take p.1 (drop p.0 sent.now.all)) result) }
    ensures within { IfSome result (λ p. p.0 + p.1 ≤ length sent.now.all) }
{
    match step {
        Step::Alone => Some((0, 0)),
        Step::Receives { at } => {
            if sent.has(at as usize) {
                Some((0, 0))
            } else {
                None
            }
        }
        Step::Sends { count, at } => Some((at, count)),
    }
}
