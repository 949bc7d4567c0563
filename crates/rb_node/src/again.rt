//! The line of a request whose id is known, answered. Neither the reply nor the messages of a request are kept: both
//! are made again of its operations in the ledger. So an id takes the memory of its event, and what is answered once
//! more can't differ from what other sites were sent.
ghost use Rattle.std.specs.Prelude.{◌≡◌, ◌++◌, ◌∷◌, [], Bool, List, ℕ, length, take};
ghost use Rattle.std.specs.Prelude.{IfErr, IfOk, MatchResult, OnErr, OnOk};
ghost use Rattle.rb_history.specs.Adds.{Adds};
ghost use Rattle.rb_node.specs.Answers.{again_json, line_of, other_bank_json, refused_json};
ghost use Rattle.rb_node.specs.Asked.{asked_state};
ghost use Rattle.rb_node.specs.Kept.{IsKeptAs, names_sent, known_again};
ghost use Rattle.rb_node.specs.LineAnswers.{AddsEvent};

use crate::event_line::{append_answer_head, append_rest};
use crate::known_request::KnownRequest;
use crate::resend::push_operations;
use crate::{Node, Records};
use rb_history::write::append::{append, append_number};
use rb_history::{LineFault, RequestId, append_value, spell};
use rb_kit::List;
use rb_lines::whole_or_none;
use rb_money::{OTHER_BANK_REFUSED, OTHER_REQUEST_REFUSED};
use rb_shadow::OpName;
use rb_site::{Event, Message};
use std::alloc::{AllocError, Global};

/// Adds the name of a message's operation, if it has one.
fn push_name(names: &mut Vec<OpName>, message: &Message) -> Result<(), AllocError>
    ensures { OnOk result (names.new.items ≡ names.old.items ++ names_sent (message.now ∷ [])) }
{
    match message {
        Message::Shadow(shadow) => {
            names.push(shadow.name)?;
            Ok(())
        }
        Message::Token(_) => Ok(()),
    }
}

/// The names of the operations of messages.
pub(crate) fn names_in(alloc: Global, messages: &[Message]) -> Result<List<OpName>, AllocError>
    ensures { IfOk result (λ names. names ≡ names_sent messages.now) }
{
    let mut names = Vec::new(alloc);
    for message in messages {
        push_name(&mut names, message)?;
    }
    Ok(List::new(names))
}

/// An answer that refuses by a number, with the id of the event, if it has one.
fn append_refusal(out: &mut Vec<u8>, id: &RequestId, number: u64) -> Result<(), AllocError>
    ensures { Adds result out.old.items out.new.items (line_of (refused_json id.now number)) }
{
    append_answer_head(out, "{", spell!("{" reply ":"), id)?;
    append_number(
        out,
        spell!("{" refused ":"),
        number,
        spell!("}," sends ":[]," then ":[]}\n"),
    )
}

/// Adds the answer to a line of another bank: refusal 26. `OutOfMemory` leaves the answers as they were.
pub(crate) fn append_other_bank(answers: &mut Vec<u8>) -> Result<(), LineFault>
    ensures added { OnOk result (answers.new.items ≡ answers.old.items ++ line_of other_bank_json) }
    ensures err { OnErr result (answers.new.items ≡ answers.old.items) }
    ensures memory { IfErr result (λ why. why ≡ LineFault.OutOfMemory) }
{
    let no_id = RequestId::none();
    let before = answers.len();
    let done = append_refusal(answers, &no_id, OTHER_BANK_REFUSED);
    Ok(whole_or_none(done, answers, before)?)
}

impl<M: Records> Node<M> {
    /// The answer to a request that was made before by the id.
    fn append_made(
        &self,
        out: &mut Vec<u8>,
        id: &RequestId,
        known: &KnownRequest,
    ) -> Result<(), AllocError>
        ensures { Adds result out.old.items out.new.items
            (line_of (again_json self.now.site.settings self.now.site.bank id.now
            (known_again (asked_state self.now.site).ops known.now))) }
    {
        let operations = self.site.site().ledger().entries();
        let mut messages = Vec::new(self.alloc);
        push_operations(&mut messages, operations, known.first, known.end)?;
        let reply = known.event.reply_again(self.alloc, messages.as_slice())?;
        append_answer_head(
            out,
            spell!("{" again ":true,"),
            spell!("{" again ":true," reply ":"),
            id,
        )?;
        append_value(out, &reply)?;
        append_rest(out, &self.config, self.site.bank(), messages.as_slice())?;
        append(out, "]}\n")
    }

    /// The answer to an event with the id of this request: the reply and the messages once more if the event is that of
    /// the request, and else refusal 25.
    pub(crate) fn append_kept(
        &self,
        out: &mut Vec<u8>,
        id: &RequestId,
        event: &Event,
        known: &KnownRequest,
    ) -> Result<(), AllocError>
        requires { IsKeptAs self.now.site id.now known.now }
        ensures { MatchResult result
            (λ _. (all : Bool) (entries : List ℕ) → AddsEvent all self.now.site self.now.site
            (record { id = id.now; event = event.now }) out.old.items out.new.items entries entries)
            (λ _. take (length out.old.items) out.new.items ≡ out.old.items) }
    {
        if known.event.is(event) {
            return self.append_made(out, id, known);
        }
        append_refusal(out, id, OTHER_REQUEST_REFUSED)
    }
}
