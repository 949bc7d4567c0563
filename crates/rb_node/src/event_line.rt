//! The line of an event, answered. The answer is written after those before it, in the order in which its parts come
//! about, and not made apart and copied; the entry's line copies the reply out of it. If memory runs out on the way,
//! answers and entries are cut back to what they were.
ghost use Rattle.std.specs.Prelude.{◌≡◌, ◌++◌, codes, List, ℕ, Some, None, false, map, length, take, Err, IfErr};
ghost use Rattle.std.specs.Prelude.{IfNone, IfSome};
ghost use Rattle.std.specs.Prelude.{OnErr, OnOk, MatchOption, MatchResult, true};
ghost use Rattle.std.specs.Option.{OnSome};
ghost use Rattle.std.specs.Str.{is_utf8};
ghost use Rattle.serde_json.specs.View.{items_of};
ghost use Rattle.serde_json.specs.Written.{compact_text, items_text};
ghost use Rattle.rb_site.specs.Events.{is_full};
ghost use Rattle.rb_history.specs.Adds.{Adds};
ghost use Rattle.rb_history.specs.Banks.{sent_json};
ghost use Rattle.rb_history.specs.Ids.{IsIdOrNone, between_if_any};
ghost use Rattle.rb_node.specs.Answers.{IsAllApplied, asked_event_on, messages_json};
ghost use Rattle.rb_site.specs.Ready.{IsNextName};
ghost use Rattle.rb_node.specs.Answers.{other_bank_on};
ghost use Rattle.rb_node.specs.Asked.{asked_state, known_of};
ghost use Rattle.rb_node.specs.LineAnswers.{AddsEvent, IsLineAnswer, question_on};
ghost use Rattle.rb_node.specs.Steps.{Applies};

use crate::again::append_other_bank;
use crate::{Node, Records};
use rb_history::write::append::append;
use rb_history::{BankName, LineFault, RequestId, append_sent_message, read_event_to, spell};
use rb_lines::{text_on, whole_or_none};
use rb_money::Config;
use rb_shadow::OpName;
use rb_site::{Event, Message};
use std::alloc::AllocError;

/// The messages, each as the event of the sites that it goes to, with the closing bracket of their list.
pub(crate) fn append_messages(
    out: &mut Vec<u8>,
    config: &Config,
    bank: &BankName,
    messages: &[Message],
) -> Result<(), AllocError>
    ensures { Adds result out.old.items out.new.items
        (items_text false (items_of (map (sent_json config.now bank.now) messages.now))) }
{
    let mut comma = "";
    for message in messages {
        append(out, comma)?;
        append_sent_message(out, config, bank, message)?;
        comma = ",";
    }
    append(out, "]")
}

/// The beginning of an answer after a text: its id, if it has one, and the key of the reply. `alone` is the text with
/// that key, which an answer without an id begins with.
#[inline(always)]
pub(crate) fn append_answer_head(
    out: &mut Vec<u8>,
    front: &str,
    alone: &str,
    id: &RequestId,
) -> Result<(), AllocError>
    requires { alone.now ≡ front.now ++ codes "\"reply\":" }
    ensures added { Adds result out.old.items out.new.items
        (front.now ++ (between_if_any (codes "\"id\":\"") id.now (codes "\",") ++ codes "\"reply\":")) }
    ensures id { IsIdOrNone id.now }
{
    let bytes = id.as_bytes();
    if bytes.is_empty() {
        return append(out, alone);
    }
    append(out, front)?;
    append(out, spell!(id ":\""))?;
    out.extend_from_slice(bytes)?;
    append(out, spell!("\"," reply ":"))
}

/// What follows the reply of an answer: the messages, and the bracket that opens the list of what is applied then.
pub(crate) fn append_rest(
    out: &mut Vec<u8>,
    config: &Config,
    bank: &BankName,
    sent: &[Message],
) -> Result<(), AllocError>
    ensures { Adds result out.old.items out.new.items (codes ",\"sends\":"
        ++ (compact_text (messages_json config.now bank.now sent.now) ++ codes ",\"then\":[")) }
{
    if sent.is_empty() {
        return append(out, spell!("," sends ":[]," then ":["));
    }
    append(out, spell!("," sends ":["))?;
    append_messages(out, config, bank, sent)?;
    append(out, spell!("," then ":["))
}

impl<M: Records> Node<M> {
    /// The event on a line, and its id in its place. `None` if the line is of another bank.
    #[tactic(auto, unfolding(crate::specs::Answers::asked_event_on, crate::specs::Answers::other_bank_on))]
    fn event_of(&self, line: &[u8], id: &mut RequestId) -> Result<Option<Event>, LineFault>
        ensures read { MatchResult result
            (λ found. MatchOption found (other_bank_on self.now.site.settings self.now.site.bank line.now ≡ true)
            (λ event. asked_event_on self.now.site.settings self.now.site.bank line.now
            ≡ Some (record { id = id.new; event = event })))
            (λ why. why ≡ LineFault.Bad
            → (asked_event_on self.now.site.settings self.now.site.bank line.now ≡ None)
            × (other_bank_on self.now.site.settings self.now.site.bank line.now ≡ false)) }
        ensures not_text { is_utf8 line.now ≡ false → result ≡ Err LineFault.Bad }
    {
        let text = text_on(line).ok_or(LineFault::Bad)?;
        read_event_to(self.alloc, &self.config, self.site.bank(), text, id)
    }

    /// Applies what is held and ready, one operation after another, until nothing is or the history is full. The
    /// replies are added to the text, with commas between and then the end of the line, and the entries' lines to the
    /// entries.
    fn apply_ready(&mut self, text: &mut Vec<u8>, entries: &mut Vec<u8>) -> Result<(), AllocError>
        ensures { MatchResult result
            (λ _. Applies self.old.site self.new.site text.old.items text.new.items entries.old.items entries.new.items)
            (λ _. (take (length text.old.items) text.new.items ≡ text.old.items)
            × (take (length entries.old.items) entries.new.items ≡ entries.old.items)) }
    {
        let mut comma = "";
        while let Some(name) = self.ready() {
            self.apply_one(name, comma, text, entries)?;
            comma = ",";
        }
        append(text, "]}\n")
    }

    /// The name of the operation that is to be applied next: the first, by home, colour and number, of those that are
    /// held and whose past is applied. `None` if no operation is ready, or the history is full.
    fn ready(&mut self) -> Option<OpName>
        ensures same { self.new ≡ self.old }
        ensures some { IfSome result (IsNextName (asked_state self.old.site)) }
        ensures free { OnSome result (is_full self.old.site.settings (asked_state self.old.site) ≡ false) }
        ensures none { IfNone result (IsAllApplied self.old.site.settings (asked_state self.old.site)) }
    {
        if self.site.site().is_full() {
            return None;
        }
        self.site.ready()
    }

    /// One event of an id that isn't known, answered.
    fn answer_event(
        &mut self,
        id: &RequestId,
        event: Event,
        text: &mut Vec<u8>,
        entries: &mut Vec<u8>,
    ) -> Result<(), AllocError>
        requires { known_of self.old.site id.now ≡ None }
        ensures { MatchResult result
            (λ _. AddsEvent M.ALL self.old.site self.new.site (record { id = id.now; event = event }) text.old.items
            text.new.items entries.old.items entries.new.items)
            (λ _. (take (length text.old.items) text.new.items ≡ text.old.items)
            × (take (length entries.old.items) entries.new.items ≡ entries.old.items)) }
    {
        append_answer_head(text, "{", spell!("{" reply ":"), id)?;
        self.step(id, event, text, entries)?;
        append_rest(text, &self.config, self.site.bank(), self.sent.as_slice())?;
        self.apply_ready(text, entries)
    }

    /// One event with its id, answered: by what is known of the id, or as a new one.
    fn answer_asked(
        &mut self,
        id: &RequestId,
        event: Event,
        text: &mut Vec<u8>,
        entries: &mut Vec<u8>,
    ) -> Result<(), AllocError>
        ensures { MatchResult result
            (λ _. AddsEvent M.ALL self.old.site self.new.site (record { id = id.now; event = event }) text.old.items
            text.new.items entries.old.items entries.new.items)
            (λ _. (take (length text.old.items) text.new.items ≡ text.old.items)
            × (take (length entries.old.items) entries.new.items ≡ entries.old.items)) }
    {
        match self.site.known(id) {
            Some(known) => self.append_kept(text, id, &event, known),
            None => self.answer_event(id, event, text, entries),
        }
    }

    /// One event with its id, answered. `OutOfMemory` leaves answers and entries as they were.
    fn answer_whole(
        &mut self,
        id: &RequestId,
        event: Event,
        answers: &mut Vec<u8>,
        entries: &mut Vec<u8>,
    ) -> Result<(), LineFault>
        ensures answered { OnOk result (AddsEvent M.ALL self.old.site self.new.site
            (record { id = id.now; event = event }) answers.old.items answers.new.items entries.old.items
            entries.new.items) }
        ensures err { OnErr result ((answers.new.items ≡ answers.old.items) × (entries.new.items ≡ entries.old.items)) }
        ensures memory { IfErr result (λ why. why ≡ LineFault.OutOfMemory) }
    {
        let (answered, recorded) = (answers.len(), entries.len());
        let done = self.answer_asked(id, event, answers, entries);
        let done = whole_or_none(done, answers, answered);
        Ok(whole_or_none(done, entries, recorded)?)
    }

    /// Answers a line: its answer is added to the answers, each line of it with a line feed, and the lines of the
    /// entries that it recorded to the entries, each with a line feed.
    ///
    /// An event is answered by `{"reply":R,"sends":[M..],"then":[A..]}`. R is the reply, each M a message that was
    /// sent, as the event's line of the sites that it goes to, and each A the reply of an application that followed:
    /// whatever is held and ready is applied, by home, of one home the blue ones before the red ones, and of one colour
    /// by number, until nothing is ready or the history is full.
    ///
    /// By `AllEvents` each event is recorded, but for one that changes nothing and whose entry's line would be longer
    /// than a line may be. By `Changes` an event is recorded only if it changes the site, and any other is answered
    /// though the history is full.
    ///
    /// A request or a batch may have an id: 1 to 64 bytes of `A-Z a-z 0-9 . _ : -`, as the member `"id"`. Answer and
    /// entry have it too. It is known once the request is made; then the same request is answered by its reply and its
    /// messages once more, `{"again":true,"id":..}`, and another one of the id by refusal 25. Neither changes anything.
    ///
    /// If the bank has a name, a message that comes must have it as the member `"bank"`, and any other line may. A line
    /// that has another text there, or a message without it, is refused by 26. It changes nothing and isn't recorded.
    ///
    /// A question leaves the site as it was, and isn't recorded. `{"about":"site"}` has a reply `{"about":..}` of what
    /// the site applied and holds, and `{"resend":N}` (N 0 to 100,000,000) a reply `{"resent":K}` after K lines
    /// `{"sends":[M..]}`, one for each of the last N entries that sent any message.
    ///
    /// Errors: `Bad` if the line is no event and no question, and nothing has changed then; a line that isn't UTF-8
    /// takes no memory, and is always that. `OutOfMemory`, after which nothing more may be asked of the site: it may
    /// come with any other line, as the JSON reader may want memory for it, and what is written may. Each leaves
    /// answers and entries as they were.
    pub fn answer(
        &mut self,
        line: &[u8],
        answers: &mut Vec<u8>,
        entries: &mut Vec<u8>,
    ) -> Result<(), LineFault>
        ensures answered { OnOk result ((text : List ℕ) × (lines : List ℕ)
            × IsLineAnswer M.ALL self.old.site self.new.site line.now text lines
            × (answers.new.items ≡ answers.old.items ++ text) × (entries.new.items ≡ entries.old.items ++ lines)) }
        ensures bad { result ≡ Err LineFault.Bad
            → (asked_event_on self.old.site.settings self.old.site.bank line.now ≡ None)
            × (other_bank_on self.old.site.settings self.old.site.bank line.now ≡ false)
            × (question_on self.old.site.bank line.now ≡ None) × (self.new ≡ self.old) }
        ensures not_text { is_utf8 line.now ≡ false → result ≡ Err LineFault.Bad }
        ensures err { OnErr result ((answers.new.items ≡ answers.old.items) × (entries.new.items ≡ entries.old.items)) }
    {
        let mut id = RequestId::none();
        match self.event_of(line, &mut id) {
            Ok(Some(event)) => self.answer_whole(&id, event, answers, entries),
            Ok(None) => append_other_bank(answers),
            Err(LineFault::Bad) => self.answer_question(line, answers),
            Err(LineFault::OutOfMemory) => Err(LineFault::OutOfMemory),
        }
    }
}
