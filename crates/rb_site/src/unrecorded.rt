//! Events that are recorded only if they change the site. The others can be left out of a history by a law,
//! `unchanging_events_left_out`.
ghost use Rattle.std.specs.Prelude.{◌≡◌, ◌++◌, ◌&&◌, ◌||◌, if◌then◌else◌, Option, false, not, IfOk, OnErr, OnOk};
ghost use Rattle.rb_site.specs.Events.{changes, is_full, outcome_of, reply_to, sent_at};
ghost use Rattle.rb_site.specs.States.{Follows, noting};
ghost use Rattle.rb_site.specs.declared.reply.Reply.{Reply as TheReply};
ghost use Rattle.rb_site.specs.Seen.{next_site, state_of};
ghost use Rattle.rb_site.specs.Unchanging.{changes_site, next_if_changes, reply_if_changes};

use crate::state::State;
use crate::{ErasedEntry, Event, KeepsEntry, Message, Reply, Site};
use rb_kit::reserve_one;
use rb_scratch::MOST_REQUESTS;
use std::alloc::{AllocError, Global};

/// One event: whether it changed the state, and its entry. The answer goes to the place of the reply, and what the
/// event sends to the end of those sent. After an `Err`, out of memory, the state and the messages are as before.
#[inline(always)]
fn act_noted<E: KeepsEntry>(
    state: &mut State,
    alloc: Global,
    event: &Event,
    sent: &mut Vec<Message>,
    reply: &mut Reply,
) -> Result<(bool, E), AllocError>
    ensures ok { IfOk result (λ _. (noted : Option TheReply) × Follows E.KEEPS state.old state.new sent.old.items
        sent.new.items (outcome_of state.old.settings state.old.site event.now) (noting reply.new noted)) }
    ensures changed { IfOk result (λ r. r.0 ≡ changes (outcome_of state.old.settings state.old.site event.now)) }
    ensures entry { IfOk result (λ r. E.entry r.1 ≡ record { event = event.now; reply = reply.new }) }
    ensures err { OnErr result ((state.new ≡ state.old) × (sent.new.items ≡ sent.old.items)) }
{
    let kept = E::keep(alloc, event)?;
    let mut noted = None;
    let changed = state.act_seeing(event, E::KEEPS, sent, reply, &mut noted)?;
    Ok((changed, E::note(kept, reply, noted)))
}

impl<E: KeepsEntry> Site<E> {
    /// One event, with an entry only if it changes more of the site than its history. At a full history what would
    /// change the site is refused by `HistoryFull`, and all else is answered. The reply is put in the place of another,
    /// and what is sent goes to the end of the messages sent. The answer is whether there is an entry.
    ///
    /// `Err` means out of memory: the site and the messages are then as before, and the place of the reply may have
    /// any.
    #[inline(always)]
    pub fn answer_if_changes(
        &mut self,
        event: &Event,
        sent: &mut Vec<Message>,
        reply: &mut Reply,
    ) -> Result<bool, AllocError>
        ensures ok { OnOk result ((self.new ≡ next_if_changes self.old event.now)
            × (reply.new ≡ reply_if_changes self.old.settings (state_of self.old) event.now)
            × (sent.new.items ≡ sent.old.items ++ sent_at self.old.settings (state_of self.old) event.now)) }
        ensures recorded { IfOk result (λ recorded. recorded
            ≡ (changes_site self.old.settings (state_of self.old) event.now
            && not (is_full self.old.settings (state_of self.old)))) }
        ensures err { OnErr result ((self.new ≡ self.old) × (sent.new.items ≡ sent.old.items)) }
    {
        if self.is_full() {
            self.state.answer_full(event, reply)?;
            return Ok(false);
        }
        self.step_recording(event, false, sent, reply)
    }

    /// Takes one event at a history that isn't full, and records it if `all` says so or if it changes the site: memory
    /// for the event comes first, and at last it is noted with its reply. The answer is whether it was.
    #[inline(always)]
    pub(crate) fn step_recording(
        &mut self,
        event: &Event,
        all: bool,
        sent: &mut Vec<Message>,
        reply: &mut Reply,
    ) -> Result<bool, AllocError>
        requires { is_full self.old.settings (state_of self.old) ≡ false }
        ensures ok { OnOk result ((self.new ≡ (if all || changes_site self.old.settings (state_of self.old) event.now
            then next_site self.old event.now else self.old))
            × (reply.new ≡ reply_to self.old.settings (state_of self.old) event.now)
            × (sent.new.items ≡ sent.old.items ++ sent_at self.old.settings (state_of self.old) event.now)) }
        ensures recorded { IfOk result (λ recorded. recorded
            ≡ (all || changes_site self.old.settings (state_of self.old) event.now)) }
        ensures err { OnErr result ((self.new ≡ self.old) × (sent.new.items ≡ sent.old.items)) }
    {
        reserve_one(&mut self.history)?;
        let most = self.state.ledger().len() as usize + MOST_REQUESTS;
        self.report_lists.grow(E::KEEPS, most)?;
        let (changed, entry) = act_noted(&mut self.state, self.alloc, event, sent, reply)?;
        let recorded = all | changed;
        if recorded {
            self.history.push_reserved(entry);
        }
        Ok(recorded)
    }
}

impl Site<ErasedEntry> {
    /// Notes an event that changes nothing in the history, with the reply that the site gave to it. `Err` means out of
    /// memory.
    pub fn record_unchanging(&mut self, event: &Event, reply: &Reply) -> Result<(), AllocError>
        requires free { is_full self.old.settings (state_of self.old) ≡ false }
        requires unchanging { changes_site self.old.settings (state_of self.old) event.now ≡ false }
        requires reply { reply.now ≡ reply_to self.old.settings (state_of self.old) event.now }
        ensures ok { OnOk result (self.new ≡ next_site self.old event.now) }
        ensures err { OnErr result (self.new ≡ self.old) }
    {
        reserve_one(&mut self.history)?;
        let kept = ErasedEntry::keep(self.alloc, event)?;
        self.history
            .push_reserved(ErasedEntry::note(kept, reply, None));
        Ok(())
    }
}
