//! A site that keeps no history, but finds again the requests that were made by an id, and the messages of its entries.
//!
//! The entries with their ids are in a list of which nothing is kept in memory, so that contracts speak of entries
//! alone. What runs is a map from ids to requests, and an index of messages. The operations that the site made are in
//! its ledger, each after those that were applied before it: the index says which they are. The token's messages it
//! keeps. The invariant ties both to the list. Whatever may fail comes before the event, which is noted without memory.
ghost use Rattle.std.specs.Prelude.{◌≡◌, ◌<◌, ◌++◌, ◌∷◌, [], None, IfNone, IfOk, IfSome, OnErr, OnOk, MatchOption};
ghost use Rattle.std.specs.Prelude.{false, length};
ghost use Rattle.rb_site.specs.Events.{first_site, is_full, reply_to, sent_at};
ghost use Rattle.rb_site.specs.Ready.{IsNextName, NoneIsReady};
ghost use Rattle.rb_site.specs.Seen.{entry};
ghost use Rattle.rb_site.specs.Unchanging.{changes_site};
ghost use Rattle.rb_node.specs.Asked.{asked_state, first_asked, known_of, without_ids, with_id, with_more};
ghost use Rattle.rb_node.specs.Index.{lines_again};
ghost use Rattle.rb_node.specs.Kept.{IsKeptAs};
ghost use Rattle.rb_node.specs.Resends.{resent, senders};
ghost use Rattle.rb_node.specs.Steps.{RecordsIf, without_id};

use crate::erased_asked::{ErasedAsked, note_entry};
use crate::known_request::{KnownRequest, copy_asked, note_request};
use crate::sent_entry::{SentEntry, note_sent};
use indexmap::IndexMap;
use rb_history::{BankName, RequestId};
use rb_kit::reserve_one;
use rb_money::Config;
use rb_shadow::OpName;
use rb_site::{ErasedEntry, Event, Message, Reply, Site};
use std::alloc::{AllocError, Global};
use std::marker::Model;

/// A site that finds requests again by their ids, and its entries' messages. It has its bank's name, its entries' ids,
/// the requests that were made by an id, and the index of messages. Clients see the site, the name and the ids.
pub struct AskedSite {
    alloc: Global,
    bank: BankName,
    site: Site<ErasedEntry>,
    index: Vec<SentEntry>,
    asked: Vec<ErasedAsked>,
    by_id: IndexMap<Vec<u8>, KnownRequest>,
}

impl Model for AskedSite {
    ghost use Rattle.std.specs.Prelude.{◌≡◌, map};
    ghost use Rattle.rb_node.specs.Asked.{SeenAsked};
    ghost use Rattle.rb_node.specs.Index.{index_of};
    ghost use Rattle.rb_node.specs.Kept.{IsKeeping, entry_erased, by_bytes};

    ghost Value = { SeenAsked };

    ghost view = { λ s. record {
      settings = s.site.settings;
      me = s.site.me;
      bank = s.bank;
      asked = map entry_erased s.asked.items;
    } };

    ghost invariant = { λ s. IsKeeping s.site (map entry_erased s.asked.items) (by_bytes s.by_id.entries)
        × (s.index.items ≡ index_of s.site) };
}

impl AskedSite {
    /// A site of the configuration, before any event, and the name of its bank. `Err` means out of memory.
    pub fn open(
        alloc: Global,
        config: &Config,
        me: u8,
        bank: BankName,
    ) -> Result<AskedSite, AllocError>
        requires { me < config.now.sites }
        ensures { IfOk result (λ site. site ≡ first_asked config.now me bank) }
    {
        let site = Site::open_keeping(alloc, config, me)?;
        Ok(AskedSite {
            alloc,
            bank,
            site,
            index: Vec::new(alloc),
            asked: Vec::new(alloc),
            by_id: IndexMap::new(alloc),
        })
    }

    /// The name of its bank.
    pub fn bank(&self) -> &BankName
        ensures { result.now ≡ self.now.bank }
    {
        &self.bank
    }

    /// The site, without its ids.
    pub fn site(&self) -> &Site<ErasedEntry>
        ensures { result.now ≡ without_ids self.now }
    {
        &self.site
    }

    /// The name of the held operation that is applied next, as `Site::ready` gives it.
    pub fn ready(&mut self) -> Option<OpName>
        ensures same { self.new ≡ self.old }
        ensures next { IfSome result (IsNextName (asked_state self.old)) }
        ensures none { IfNone result (NoneIsReady (asked_state self.old)) }
    {
        self.site.ready()
    }

    /// The request that was made by the id, as it is kept; `None` if no request was, or if there is no id.
    pub fn known(&self, id: &RequestId) -> Option<&KnownRequest>
        ensures { MatchOption result (known_of self.now id.now ≡ None) (λ kept. IsKeptAs self.now id.now kept.now) }
    {
        if id.as_bytes().is_empty() {
            return None;
        }
        self.by_id.get(id.as_bytes())
    }

    /// The entries that sent any message, of those that have at least this number before them.
    pub fn sent_since(&self, before: u32) -> &[SentEntry]
        ensures lines { lines_again self.now.settings self.now.bank (asked_state self.now).ops result.now
            ≡ resent self.now.settings self.now.bank (first_site self.now.me) before (without_ids self.now).entries }
        ensures count { length result.now ≡ length (senders self.now.settings (first_site self.now.me) before
            (without_ids self.now).entries) }
    {
        let index = self.index.as_slice();
        let skipped = index.partition_point(|entry| entry.before < before);
        &index[skipped..]
    }

    /// One event, which is recorded with its id only if it changes more than the history: as `Site::answer_if_changes`.
    /// Whether it was recorded. The id isn't known.
    pub fn answer_if_changes(
        &mut self,
        id: &RequestId,
        event: &Event,
        sent: &mut Vec<Message>,
        reply: &mut Reply,
    ) -> Result<bool, AllocError>
        requires { known_of self.old id.now ≡ None }
        ensures recorded { IfOk result (RecordsIf self.old self.new id.now event.now reply.new) }
        ensures sent { OnOk result (sent.new.items
            ≡ sent.old.items ++ sent_at self.old.settings (asked_state self.old) event.now) }
        ensures err { OnErr result ((self.new ≡ self.old) × (sent.new.items ≡ sent.old.items)) }
    {
        reserve_one(&mut self.index)?;
        reserve_one(&mut self.asked)?;
        let copies = copy_asked(self.alloc, &mut self.by_id, id, event)?;
        let (before, first) = (self.site.len(), self.site.ledger().len());
        let sent_before = sent.len();
        let recorded = self.site.answer_if_changes(event, sent, reply)?;
        if !recorded {
            return Ok(false);
        }
        let end = self.site.ledger().len();
        let messages = &sent.as_slice()[sent_before..];
        note_sent(&mut self.index, before, first, end, messages);
        note_entry(&mut self.asked, id, event, reply);
        note_request(&mut self.by_id, copies, reply, first, end);
        Ok(true)
    }

    /// Records an event that changes nothing, with the reply that the site gave to it. `Err` means out of memory.
    pub fn record_unchanging(&mut self, event: &Event, reply: &Reply) -> Result<(), AllocError>
        requires free { is_full self.old.settings (asked_state self.old) ≡ false }
        requires unchanging { changes_site self.old.settings (asked_state self.old) event.now ≡ false }
        requires reply { reply.now ≡ reply_to self.old.settings (asked_state self.old) event.now }
        ensures ok { OnOk result (self.new ≡ with_more self.old (without_id (entry event.now reply.now) ∷ [])) }
        ensures err { OnErr result (self.new ≡ self.old) }
    {
        reserve_one(&mut self.asked)?;
        self.site.record_unchanging(event, reply)?;
        let no_id = RequestId::none();
        note_entry(&mut self.asked, &no_id, event, reply);
        Ok(())
    }

    /// One event, which is recorded with its id whatever it changes: the history has spare capacity, and the id isn't
    /// known. `Err` means out of memory.
    pub fn answer(
        &mut self,
        id: &RequestId,
        event: &Event,
        sent: &mut Vec<Message>,
        reply: &mut Reply,
    ) -> Result<(), AllocError>
        requires free { is_full self.old.settings (asked_state self.old) ≡ false }
        requires unknown { known_of self.old id.now ≡ None }
        ensures ok { OnOk result ((self.new ≡ with_more self.old (with_id id.now (entry event.now reply.new) ∷ []))
            × (reply.new ≡ reply_to self.old.settings (asked_state self.old) event.now)
            × (sent.new.items ≡ sent.old.items ++ sent_at self.old.settings (asked_state self.old) event.now)) }
        ensures err { OnErr result (self.new ≡ self.old) }
    {
        if self.answer_if_changes(id, event, sent, reply)? {
            return Ok(());
        }
        self.record_unchanging(event, reply)
    }

    /// Closes the site.
    pub fn close(self) {
        let AskedSite {
            alloc: _,
            bank: _,
            site,
            index: _,
            asked: _,
            by_id: _,
        } = self;
        let _report = site.close();
    }
}
