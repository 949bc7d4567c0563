//! A site as the responder that answers lines over a journal.
//!
//! The entries of a line are written to the end of the batch, and its answer to the end of the text. If memory runs out
//! on the way, both are as before, so no answer is put out whose entries aren't in the batch.
ghost use Rattle.std.specs.Prelude.{◌≡◌};
ghost use Rattle.serde_json.specs.Written.{compact_text};
ghost use Rattle.rb_money.specs.Settings.{IsConfigured};
ghost use Rattle.rb_history.specs.ConfigLines.{config_json};
ghost use Rattle.rb_journal.specs.Lines.{IsLine};

use crate::bad_line::{append_bad_line, append_long_line};
use rb_history::{LineFault, lines_are_single, read_events_fit};
use rb_journal::{JournaledResponder, LineBatch};
use rb_node::{Node, Records};
use rb_reasons::reason_at_site;
use std::alloc::{AllocError, Global};

/// For facts alone: a site's settings are those of a configuration, and its line is a line of a journal.
pub fn settings_are_configured<M: Records>(node: &Node<M>)
    ensures configured { IsConfigured node.now.site.settings }
    ensures line { IsLine (compact_text (config_json node.now.site.settings)) }
{
    lines_are_single();
    let _sites = node.config().sites();
}

/// A site whose history is in a journal.
pub struct SiteResponder<M: Records> {
    alloc: Global,
    pub node: Node<M>,
}

impl<M: Records> SiteResponder<M> {
    /// The site, as the responder of its journal. This takes no memory.
    pub fn new(alloc: Global, node: Node<M>) -> SiteResponder<M>
        ensures { result.node ≡ node }
    {
        SiteResponder { alloc, node }
    }

    /// Closes the site.
    pub fn close(self) {
        let SiteResponder { alloc: _, node } = self;
        node.close();
    }
}

impl<M: Records> JournaledResponder for SiteResponder<M> {
    ghost use Rattle.rb_node.specs.Asked.{SeenAsked};
    ghost use Rattle.rb_run_site.specs.Journals.{SiteAnswers, journal_of};

    ghost State = { SeenAsked };

    ghost state = { λ m. m.node.site };

    ghost lines = { journal_of };

    ghost answers = { SiteAnswers M.ALL };

    fn answer_line(
        &mut self,
        line: &[u8],
        number: u64,
        batch: &mut LineBatch,
        text: &mut Vec<u8>,
    ) -> Result<(), AllocError> {
        settings_are_configured(&self.node);
        // For a fact alone: lines of entries are lines if the id that was read is one.
        lines_are_single();
        read_events_fit();
        match self.node.answer(line, text, &mut batch.bytes) {
            Ok(()) => Ok(()),
            Err(LineFault::Bad) => {
                let why = reason_at_site(self.alloc, self.node.config(), self.node.bank(), line);
                append_bad_line(self.alloc, text, number, why)
            }
            Err(LineFault::OutOfMemory) => Err(AllocError),
        }
    }

    fn answer_long(&mut self, number: u64, text: &mut Vec<u8>) -> Result<(), AllocError> {
        settings_are_configured(&self.node);
        append_long_line(text, number)
    }
}
