//! The messages of the last entries, once more, read out of the ledger. A site keeps for each entry that sent any
//! message which operations of the ledger these were, and not the messages: 20 bytes an entry in place of a journal.
ghost use Rattle.std.specs.Prelude.{◌≡◌, ◌++◌, OnOk};
ghost use Rattle.rb_history.specs.Adds.{Adds};
ghost use Rattle.rb_history.specs.declared.question.Question.TheVariants.{Resend};
ghost use Rattle.rb_node.specs.Asked.{asked_state, without_ids};
ghost use Rattle.rb_node.specs.Answers.{sent_line};
ghost use Rattle.rb_node.specs.Index.{lines_again, messages_of};
ghost use Rattle.rb_node.specs.LineAnswers.{question_text};
ghost use Rattle.rb_node.specs.declared.sent_entry.Sending.TheVariants.{Operations as TheOperations};

use crate::replay::append_sends;
use crate::sent_entry::{Sending, SentEntry};
use crate::{Node, Records};
use rb_history::spell;
use rb_history::write::append::append_number;
use rb_ledger::OperationList;
use rb_site::Message;
use std::alloc::AllocError;

/// Adds operations to messages: those from one number of them to another.
pub(crate) fn push_operations(
    messages: &mut Vec<Message>,
    operations: &OperationList,
    first: u32,
    end: u32,
) -> Result<(), AllocError>
    ensures { OnOk result (messages.new.items ≡ messages.old.items
        ++ messages_of operations.now.items (TheOperations first end)) }
{
    let count = end.saturating_sub(first);
    for k in 0..count {
        if let Some(shadow) = operations.get(first as usize + k as usize) {
            messages.push(Message::Shadow(shadow))?;
        }
    }
    Ok(())
}

/// Adds the messages of an entry to others.
fn push_sent(
    messages: &mut Vec<Message>,
    operations: &OperationList,
    sent: Sending,
) -> Result<(), AllocError>
    ensures { OnOk result (messages.new.items ≡ messages.old.items ++ messages_of operations.now.items sent) }
{
    match sent {
        Sending::Operations { first, end } => push_operations(messages, operations, first, end)?,
        Sending::Token(message) => messages.push(Message::Token(message))?,
    }
    Ok(())
}

impl<M: Records> Node<M> {
    /// The line of an entry's messages. They take the place of those in `messages`.
    fn append_again(
        &self,
        out: &mut Vec<u8>,
        messages: &mut Vec<Message>,
        sent: Sending,
    ) -> Result<(), AllocError>
        ensures { Adds result out.old.items out.new.items
            (sent_line self.now.site.settings self.now.site.bank (messages_of (asked_state self.now.site).ops sent)) }
    {
        messages.clear();
        push_sent(messages, self.site.site().ledger().entries(), sent)?;
        append_sends(out, &self.config, self.site.bank(), messages.as_slice())
    }

    /// The lines of the messages of entries.
    fn append_all_again(&self, out: &mut Vec<u8>, entries: &[SentEntry]) -> Result<(), AllocError>
        ensures { Adds result out.old.items out.new.items
            (lines_again self.now.site.settings self.now.site.bank (asked_state self.now.site).ops entries.now) }
    {
        let mut messages = Vec::new(self.alloc);
        for entry in entries {
            self.append_again(out, &mut messages, entry.sent)?;
        }
        Ok(())
    }

    /// The messages of up to `most` of the last entries, a line for each that sent any, and then the answer's line,
    /// which says how many these are.
    pub(crate) fn append_resent(&self, out: &mut Vec<u8>, most: u32) -> Result<(), AllocError>
        ensures { Adds result out.old.items out.new.items (question_text self.now.site.bank
            (without_ids self.now.site) (Resend most)) }
    {
        let skipped = self.site.site().len().saturating_sub(most);
        let entries = self.site.sent_since(skipped);
        self.append_all_again(out, entries)?;
        append_number(
            out,
            spell!("{" reply ":{" resent ":"),
            entries.len() as u64,
            spell!("}," sends ":[]," then ":[]}\n"),
        )
    }
}
