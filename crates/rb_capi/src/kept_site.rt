//! A site with the texts of its last answer.
//!
//! An answer is written beside the last one and takes its place only once it is whole: after a bad line the last one
//! stays, so that nothing has changed.
ghost use Rattle.std.specs.Prelude.{◌≡◌, ◌<◌, ◌≤◌, [], Some, None, false, IfOk, Err, OnOk};
ghost use Rattle.std.specs.Str.{is_utf8};
ghost use Rattle.rb_money.specs.Settings.{Settings};
ghost use Rattle.rb_history.specs.Configurations.{config_on};
ghost use Rattle.rb_node.specs.Answers.{asked_event_on, other_bank_on};
ghost use Rattle.rb_node.specs.LineAnswers.{question_on};
ghost use Rattle.rb_capi.specs.Sites.{AnswersSiteLine, IsNoEntryLine, IsWrongEntry, ReplaysEntryLine, first_kept};

use rb_history::{BankName, LineFault};
use rb_node::{AllEvents, EntryFault, Node, OpenFault};
use std::alloc::Global;
use std::marker::Model;
use std::mem::swap;

/// What a `SiteHandle` keeps: a site with the text of its last answer and the lines for its journal.
pub struct KeptSite {
    node: Node<AllEvents>,
    pub(crate) answer: Vec<u8>,
    pub(crate) entries: Vec<u8>,
    /// The next answer while it is written, so that a bad line leaves the last one as it is. Empty between two calls.
    next_answer: Vec<u8>,
    next_entries: Vec<u8>,
}

impl Model for KeptSite {
    ghost use Rattle.std.specs.Prelude.{◌≡◌, []};
    ghost use Rattle.rb_capi.specs.Sites.{SeenKept};

    ghost Value = { SeenKept };

    ghost view = { λ k. record { site = k.node.site; answer = k.answer.items; entries = k.entries.items } };

    ghost invariant = { λ k. (k.next_answer.items ≡ []) × (k.next_entries.items ≡ []) };
}

impl Drop for KeptSite {
    fn drop(self) {
        let KeptSite {
            node,
            answer: _,
            entries: _,
            next_answer: _,
            next_entries: _,
        } = self;
        node.close();
    }
}

impl KeptSite {
    /// The site of a number of the configuration on a line, before any event.
    pub fn open(alloc: Global, config: &[u8], me: u8) -> Result<KeptSite, OpenFault>
        ensures opened { IfOk result (λ site. (s : Settings) × (config_on config.now ≡ Some s) × (me < s.sites)
            × (site ≡ first_kept s me)) }
        ensures bad { result ≡ Err OpenFault.BadConfig → config_on config.now ≡ None }
        ensures no_site { result ≡ Err OpenFault.NoSite → (s : Settings) × (config_on config.now ≡ Some s)
            × (s.sites ≤ me) }
    {
        let node = Node::open(alloc, config, me, BankName::none())?;
        let entries = match node.config_line() {
            Ok(line) => line,
            Err(_) => {
                node.close();
                return Err(OpenFault::OutOfMemory);
            }
        };
        Ok(KeptSite {
            node,
            answer: Vec::new(alloc),
            entries,
            next_answer: Vec::new(alloc),
            next_entries: Vec::new(alloc),
        })
    }

    /// Answers the line of an event or of a question, and keeps the answer's lines and the lines of its entries. Each
    /// event is recorded, but for one whose id is known, and for one that changes nothing and whose entry's line would
    /// be longer than a line may be.
    ///
    /// Errors: `Bad` if the line is neither, and nothing has changed then; `OutOfMemory`.
    pub fn answer_line(&mut self, line: &[u8]) -> Result<(), LineFault>
        ensures answered { OnOk result (AnswersSiteLine self.old self.new line.now) }
        ensures bad { result ≡ Err LineFault.Bad
            → (asked_event_on self.old.site.settings self.old.site.bank line.now ≡ None)
            × (other_bank_on self.old.site.settings self.old.site.bank line.now ≡ false)
            × (question_on self.old.site.bank line.now ≡ None) × (self.new ≡ self.old) }
        ensures not_text { is_utf8 line.now ≡ false → result ≡ Err LineFault.Bad }
    {
        self.node
            .answer(line, &mut self.next_answer, &mut self.next_entries)?;
        swap(&mut self.answer, &mut self.next_answer);
        swap(&mut self.entries, &mut self.next_entries);
        self.next_answer.clear();
        self.next_entries.clear();
        Ok(())
    }

    /// Replays the line of the site's next entry, and keeps the line of what the entry sent, for it to be sent again.
    ///
    /// Errors: `BadLine` if the line is no entry of this site, or has the id of an entry before, and nothing has
    /// changed then; `WrongReply` if the site gives another reply, or its history is full; `OutOfMemory`.
    pub fn replay_line(&mut self, line: &[u8]) -> Result<(), EntryFault>
        ensures replayed { OnOk result (ReplaysEntryLine self.old self.new line.now) }
        ensures bad { result ≡ Err EntryFault.BadLine
            → IsNoEntryLine self.old.site line.now × (self.new ≡ self.old) }
        ensures wrong { result ≡ Err EntryFault.WrongReply → IsWrongEntry self.old.site line.now }
    {
        self.node.replay(line)?;
        self.answer.clear();
        self.entries.clear();
        self.node.append_sent(&mut self.answer)?;
        Ok(())
    }
}
