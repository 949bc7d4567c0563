//! The line of an entry, replayed. A journal's line is taken only as the site writes it, so that the replayed entry and
//! the file can't differ: what is read in one pass is written so, and any other line is written once more and compared.
ghost use Rattle.std.specs.Prelude.{◌≡◌, ◌≢◌, ◌++◌, Some, None, Err, IfOk, OnOk, OnErr, true};
ghost use Rattle.std.specs.Prelude.{MatchResult};
ghost use Rattle.rb_history.specs.Adds.{Adds};
ghost use Rattle.rb_history.specs.Entries.{asked_entry_json, asked_entry_on};
ghost use Rattle.rb_history.specs.Ids.{AskedEntry, IsAsked};
ghost use Rattle.serde_json.specs.Written.{compact_text};
ghost use Rattle.rb_node.specs.Answers.{sent_line};
ghost use Rattle.rb_node.specs.Asked.{known_of};
ghost use Rattle.rb_node.specs.Replays.{IsNotNext, IsReadBack, IsReplayedAs};

use crate::event_line::append_messages;
use crate::{EntryFault, Node, Records};
use rb_history::write::append::append;
use rb_history::{
    BankName, LineFault, RequestId, append_asked_line, append_reply, read_asked_entry, spell,
};
use rb_lines::{text_on, whole_or_none};
use rb_money::{Config, Refusal};
use rb_site::{Entry, Event, Message, Reply};
use std::alloc::AllocError;

/// The messages as a line, if there are any.
pub(crate) fn append_sends(
    out: &mut Vec<u8>,
    config: &Config,
    bank: &BankName,
    messages: &[Message],
) -> Result<(), AllocError>
    ensures { Adds result out.old.items out.new.items (sent_line config.now bank.now messages.now) }
{
    if messages.is_empty() {
        return Ok(());
    }
    append(out, spell!("{" sends ":["))?;
    append_messages(out, config, bank, messages)?;
    append(out, "}\n")
}

impl<M: Records> Node<M> {
    /// The entry of this site on a line, and its id in its place; and whether the line was seen to be the one that is
    /// written for it.
    #[tactic(auto, unfolding(rb_history::specs::Entries::asked_entry_on))]
    fn entry_of(&self, line: &[u8], id: &mut RequestId) -> Result<(Entry, bool), EntryFault>
        ensures read { MatchResult result
            (λ x. asked_entry_on self.now.site.settings line.now
            ≡ Some (self.now.site.me, record { id = id.new; entry = x.0 }))
            (λ why. (why ≡ EntryFault.BadLine → (x : AskedEntry) → asked_entry_on self.now.site.settings line.now
            ≢ Some (self.now.site.me, x)) × (why ≢ EntryFault.WrongReply)) }
        ensures asked { IfOk result (λ x. IsAsked (record { id = id.new; entry = x.0 })) }
        ensures written { IfOk result (λ x. x.1 ≡ true → line.now
            ≡ compact_text (asked_entry_json self.now.site.settings self.now.site.me
            (record { id = id.new; entry = x.0 }))) }
    {
        rb_history::read_entries_fit();
        let text = text_on(line).ok_or(EntryFault::BadLine)?;
        let mut entry = Entry {
            event: Event::Pass(0),
            reply: Reply::Taken(0),
        };
        match read_asked_entry(self.alloc, &self.config, text, &mut entry, id) {
            Ok((site, written)) if site == self.me() => Ok((entry, written)),
            Err(LineFault::OutOfMemory) => Err(EntryFault::OutOfMemory),
            _ => Err(EntryFault::BadLine),
        }
    }

    /// The next entry of the site's history, from its line. The messages that the entry sent stay, to be sent again
    /// by `append_sent`.
    ///
    /// Errors: `BadLine` if the line is no entry of this site, or has the id of an entry before; `WrongReply` if the
    /// site gives another reply, or its history is full; `OutOfMemory`. After the last two nothing more may be asked of
    /// the site.
    pub fn replay(&mut self, line: &[u8]) -> Result<(), EntryFault>
        ensures replayed { OnOk result ((x : AskedEntry) × (asked_entry_on self.old.site.settings line.now
            ≡ Some (self.old.site.me, x)) × IsReplayedAs self.old.site self.new x) }
        ensures bad { result ≡ Err EntryFault.BadLine → ((x : AskedEntry)
            → asked_entry_on self.old.site.settings line.now ≡ Some (self.old.site.me, x)
            → known_of self.old.site x.id ≢ None) × (self.new ≡ self.old) }
        ensures wrong { result ≡ Err EntryFault.WrongReply → (x : AskedEntry)
            × (asked_entry_on self.old.site.settings line.now ≡ Some (self.old.site.me, x))
            × IsNotNext self.old.site x }
    {
        let mut id = RequestId::none();
        let (entry, _written) = self.entry_of(line, &mut id)?;
        self.replay_entry(&id, &entry)
    }

    /// Replays as `replay` does, but only a line that is exactly what `answer` adds: any other spelling is `BadLine`.
    pub fn replay_written(&mut self, line: &[u8]) -> Result<(), EntryFault>
        ensures replayed { OnOk result ((x : AskedEntry) × (line.now
            ≡ compact_text (asked_entry_json self.old.site.settings self.old.site.me x))
            × IsReadBack self.old.site.settings self.old.site.me x × IsReplayedAs self.old.site self.new x) }
        ensures bad { result ≡ Err EntryFault.BadLine → ((x : AskedEntry)
            → asked_entry_on self.old.site.settings line.now ≡ Some (self.old.site.me, x)
            → known_of self.old.site x.id ≡ None → line.now
            ≢ compact_text (asked_entry_json self.old.site.settings self.old.site.me x)) × (self.new ≡ self.old) }
        ensures wrong { result ≡ Err EntryFault.WrongReply → (x : AskedEntry)
            × (line.now ≡ compact_text (asked_entry_json self.old.site.settings self.old.site.me x))
            × IsReadBack self.old.site.settings self.old.site.me x
            × IsNotNext self.old.site x }
    {
        let mut id = RequestId::none();
        let (entry, written) = self.entry_of(line, &mut id)?;
        if written {
            self.written.clear();
            return self.replay_entry(&id, &entry);
        }
        self.replay_spelled(line, &id, &entry)
    }

    /// The entry on a line, if the line is exactly what is written for it: any other is `BadLine`.
    fn replay_spelled(
        &mut self,
        line: &[u8],
        id: &RequestId,
        entry: &Entry,
    ) -> Result<(), EntryFault>
        requires { IsAsked (record { id = id.now; entry = entry.now }) }
        ensures replayed { OnOk result ((line.now ≡ compact_text (asked_entry_json self.old.site.settings
            self.old.site.me (record { id = id.now; entry = entry.now })))
            × IsReplayedAs self.old.site self.new (record { id = id.now; entry = entry.now })) }
        ensures bad { result ≡ Err EntryFault.BadLine → (known_of self.old.site id.now ≡ None → line.now
            ≢ compact_text (asked_entry_json self.old.site.settings self.old.site.me
            (record { id = id.now; entry = entry.now }))) × (self.new ≡ self.old) }
        ensures wrong { result ≡ Err EntryFault.WrongReply
            → (line.now ≡ compact_text (asked_entry_json self.old.site.settings self.old.site.me
            (record { id = id.now; entry = entry.now })))
            × IsNotNext self.old.site (record { id = id.now; entry = entry.now }) }
    {
        let me = self.me();
        self.written.clear();
        append_asked_line(&mut self.written, &self.config, me, id, entry)?;
        if self.written.as_slice() != line {
            return Err(EntryFault::BadLine);
        }
        self.replay_entry(id, entry)
    }

    /// An entry of this site is its next one, if its id isn't known and the site gives the reply that it has.
    fn replay_entry(&mut self, id: &RequestId, entry: &Entry) -> Result<(), EntryFault>
        requires { IsAsked (record { id = id.now; entry = entry.now }) }
        ensures replayed { OnOk result (IsReplayedAs self.old.site self.new
            (record { id = id.now; entry = entry.now })) }
        ensures bad { result ≡ Err EntryFault.BadLine → (known_of self.old.site id.now ≢ None)
            × (self.new ≡ self.old) }
        ensures wrong { result ≡ Err EntryFault.WrongReply
            → IsNotNext self.old.site (record { id = id.now; entry = entry.now }) }
    {
        if self.site.known(id).is_some() {
            return Err(EntryFault::BadLine);
        }
        self.sent.clear();
        let mut reply = Reply::Refused(Refusal::HistoryFull);
        if self.site.site().is_full() {
            self.keep_replies(&entry.reply, &reply);
            return Err(EntryFault::WrongReply);
        }
        self.site
            .answer(id, &entry.event, &mut self.sent, &mut reply)?;
        if !reply.same(&entry.reply) {
            self.keep_replies(&entry.reply, &reply);
            return Err(EntryFault::WrongReply);
        }
        Ok(())
    }

    /// Keeps the line of a reply that is wrong, and the line of the right one, for `written`. Without memory for both
    /// nothing is kept.
    #[inline(never)]
    fn keep_replies(&mut self, wrong: &Reply, right: &Reply)
        ensures { self.new ≡ self.old }
    {
        self.written.clear();
        let kept = append_reply(&mut self.written, wrong).and_then(|()| append_reply(
            &mut self.written,
            right,
        ));
        if kept.is_err() {
            self.written.clear();
        }
    }

    /// The text that was written last, to be compared. After `BadLine` for the line of an entry of this site it is the
    /// line that the site writes for the entry, or nothing if that is this line. After `WrongReply` it is two lines,
    /// the entry's reply and the site's own; or nothing, if there was no memory.
    pub fn written(&self) -> &[u8] {
        self.written.as_slice()
    }

    /// Adds the line `{"sends":[M..]}` of what the last entry sent, with its line feed; nothing if it sent nothing.
    /// An `Err` means out of memory, and adds nothing.
    pub fn append_sent(&self, out: &mut Vec<u8>) -> Result<(), AllocError>
        ensures ok { OnOk result (out.new.items ≡ out.old.items ++ sent_line self.now.site.settings
            self.now.site.bank self.now.sent) }
        ensures err { OnErr result (out.new.items ≡ out.old.items) }
    {
        let before = out.len();
        let done = append_sends(out, &self.config, self.site.bank(), self.sent.as_slice());
        whole_or_none(done, out, before)
    }
}
