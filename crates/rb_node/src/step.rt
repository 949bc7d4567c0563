//! One event of a site, its reply, and the line of its entry, into which the reply's text is copied.
ghost use Rattle.std.specs.Prelude.{◌≡◌, ◌++◌, ◌&&◌, false, true, length, take, MatchResult, None};
ghost use Rattle.serde_json.specs.Written.{compact_text};
ghost use Rattle.rb_site.specs.Events.{is_full, sent_at};
ghost use Rattle.rb_site.specs.declared.reply.Reply.{Reply as TheReply};
ghost use Rattle.rb_history.specs.Adds.{Adds};
ghost use Rattle.rb_history.specs.Entries.{asked_entry_json};
ghost use Rattle.rb_history.specs.Replies.{reply_json};
ghost use Rattle.rb_node.specs.Asked.{asked_state, known_of, with_id};
ghost use Rattle.rb_node.specs.Steps.{AppliesOne, IsUnchanging, Notes, RecordsShort, StepsKept};

use crate::{Node, Records};
use rb_history::write::append::append;
use rb_history::{RequestId, append_line_with, append_value, may_be_asked};
use rb_lines::LINE_LIMIT;
use rb_money::{Config, Refusal};
use rb_shadow::OpName;
use rb_site::{Entry, Event, Reply};
use std::alloc::AllocError;

/// The line of an entry of a site without its line feed, with the id if the entry may have one. The reply's text is at
/// hand.
fn append_recorded(
    out: &mut Vec<u8>,
    config: &Config,
    site: u8,
    id: &RequestId,
    entry: &Entry,
    reply: &[u8],
) -> Result<(), AllocError>
    requires { reply.now ≡ compact_text (reply_json entry.now.reply) }
    ensures { Adds result out.old.items out.new.items
        (compact_text (asked_entry_json config.now site (with_id id.now entry.now))) }
{
    if may_be_asked(entry) {
        return append_line_with(out, config, site, id.as_bytes(), entry, reply);
    }
    append_line_with(out, config, site, &[], entry, reply)
}

impl<M: Records> Node<M> {
    /// Records an entry of an event that changes nothing, unless its line would be longer than a line may be.
    fn record_if_short(
        &mut self,
        entry: &Entry,
        reply: &[u8],
        entries: &mut Vec<u8>,
    ) -> Result<(), AllocError>
        requires unchanging { IsUnchanging self.old.site entry.now }
        requires reply { reply.now ≡ compact_text (reply_json entry.now.reply) }
        ensures { MatchResult result
            (λ _. RecordsShort self.old.site self.new.site entry.now entries.old.items entries.new.items
            × (self.new.sent ≡ self.old.sent))
            (λ _. take (length entries.old.items) entries.new.items ≡ entries.old.items) }
    {
        let before = entries.len();
        append_line_with(entries, &self.config, self.me(), &[], entry, reply)?;
        if entries.len() - before > LINE_LIMIT {
            entries.truncate(before);
            return Ok(());
        }
        append(entries, "\n")?;
        self.site.record_unchanging(&entry.event, &entry.reply)
    }

    /// The line of a step's entry, if it was recorded. If it wasn't, since it changes nothing, it is recorded now,
    /// unless its line is too long.
    #[inline(always)]
    fn note(
        &mut self,
        recorded: bool,
        id: &RequestId,
        entry: &Entry,
        reply: &[u8],
        entries: &mut Vec<u8>,
    ) -> Result<(), AllocError>
        requires unchanging { recorded ≡ false → IsUnchanging self.old.site entry.now }
        requires reply { reply.now ≡ compact_text (reply_json entry.now.reply) }
        ensures { MatchResult result
            (λ _. Notes recorded self.old.site self.new.site id.now entry.now entries.old.items entries.new.items
            × (self.new.sent ≡ self.old.sent))
            (λ _. take (length entries.old.items) entries.new.items ≡ entries.old.items) }
    {
        if !recorded {
            return self.record_if_short(entry, reply, entries);
        }
        append_recorded(entries, &self.config, self.me(), id, entry, reply)?;
        append(entries, "\n")
    }

    /// The end of a step: its reply after the text, and the line of its entry, as `note` adds it.
    #[inline(always)]
    fn finish(
        &mut self,
        recorded: bool,
        id: &RequestId,
        entry: &Entry,
        text: &mut Vec<u8>,
        entries: &mut Vec<u8>,
    ) -> Result<(), AllocError>
        requires { recorded ≡ false → IsUnchanging self.old.site entry.now }
        ensures { MatchResult result
            (λ _. Notes recorded self.old.site self.new.site id.now entry.now entries.old.items entries.new.items
            × (text.new.items ≡ text.old.items ++ compact_text (reply_json entry.now.reply))
            × (self.new.sent ≡ self.old.sent))
            (λ _. (take (length text.old.items) text.new.items ≡ text.old.items)
            × (take (length entries.old.items) entries.new.items ≡ entries.old.items)) }
    {
        let before = text.len();
        append_value(text, &entry.reply)?;
        self.note(recorded, id, entry, &text.as_slice()[before..], entries)
    }

    /// Applies the operation of a name, for which the history has spare capacity. The comma and the reply are added to
    /// the text, and the line of its entry to the entries. After an `Err`, out of memory, nothing more may be asked of
    /// the site.
    pub(crate) fn apply_one(
        &mut self,
        name: OpName,
        comma: &str,
        text: &mut Vec<u8>,
        entries: &mut Vec<u8>,
    ) -> Result<(), AllocError>
        requires { is_full self.old.site.settings (asked_state self.old.site) ≡ false }
        ensures { MatchResult result
            (λ _. AppliesOne self.old.site self.new.site name comma.now text.old.items text.new.items entries.old.items
            entries.new.items)
            (λ _. (take (length text.old.items) text.new.items ≡ text.old.items)
            × (take (length entries.old.items) entries.new.items ≡ entries.old.items)) }
    {
        append(text, comma)?;
        let none = RequestId::none();
        let event = Event::Apply(name);
        let mut reply = Reply::Refused(Refusal::HistoryFull);
        self.site.answer(&none, &event, &mut self.sent, &mut reply)?;
        let entry = Entry { event, reply };
        self.finish(true, &none, &entry, text, entries)
    }

    /// Whether the history is full and all events are recorded, so that each is refused.
    fn refuses(&self) -> bool
        ensures { result ≡ (M.ALL && is_full self.now.site.settings (asked_state self.now.site)) }
    {
        M::ALL && self.site.site().is_full()
    }

    /// One event with the id, which isn't known: its reply is added to the text, and the line of its entry to the
    /// entries. It is recorded if it changes the site, or if all events are recorded and its line isn't too long. It is
    /// refused (23) if it would be recorded and the history is full. Its messages take the place of those sent before.
    pub(crate) fn step(
        &mut self,
        id: &RequestId,
        event: Event,
        text: &mut Vec<u8>,
        entries: &mut Vec<u8>,
    ) -> Result<(), AllocError>
        requires { known_of self.old.site id.now ≡ None }
        ensures stepped { MatchResult result
            (λ _. (reply : TheReply) × StepsKept M.ALL self.old.site self.new.site id.now event reply entries.old.items
            entries.new.items
            × (text.new.items ≡ text.old.items ++ compact_text (reply_json reply))
            × (self.new.sent ≡ sent_at self.old.site.settings (asked_state self.old.site) event))
            (λ _. (take (length text.old.items) text.new.items ≡ text.old.items)
            × (take (length entries.old.items) entries.new.items ≡ entries.old.items)) }
    {
        self.sent.clear();
        let mut reply = Reply::Refused(Refusal::HistoryFull);
        if self.refuses() {
            return append_value(text, &reply);
        }
        let recorded = self
            .site
            .answer_if_changes(id, &event, &mut self.sent, &mut reply)?;
        if !recorded && !M::ALL {
            return append_value(text, &reply);
        }
        let entry = Entry { event, reply };
        self.finish(recorded, id, &entry, text, entries)
    }
}
