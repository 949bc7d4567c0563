//! A site that is opened over a file, and its journal, for a caller that has a loop of its own.
ghost use Rattle.std.specs.Prelude.{◌≡◌, IfErr, IfOk, MatchResult};
ghost use Rattle.rb_journal.specs.Alone.{AreEither};
ghost use Rattle.rb_journal.specs.Host.{LeavesOnly, Only};
ghost use Rattle.rb_journal.specs.Journal.{IsSettled};
ghost use Rattle.rb_journal.specs.Lines.{recovered};
ghost use Rattle.rb_run_site.specs.Journals.{journal_of};
ghost use Rattle.rb_run_site.specs.Openings.{EndsOnLine, IsToBegin, OpensSite};
ghost use Rattle.rb_run_site.specs.Starts.{IsJournalOf};

use crate::fault::SiteFault;
use crate::opening::{Opened, open_over};
use crate::responder::settings_are_configured;
use rb_history::BankName;
use rb_journal::{Host, HostError, Journal, is_sealed};
use rb_node::Records;
use std::alloc::Global;

/// Opens site `me` (0 to 15) of the configuration on a line, of the bank of the name, with the history in the file of
/// these bytes, of which nothing is changed yet. `sends` is then what the last `resend` entries sent.
///
/// Errors: as those of `run_site` before it changes anything; the configuration's line is line 1.
pub fn open_on_line<M: Records>(
    alloc: Global,
    config: &[u8],
    bytes: &[u8],
    me: u8,
    bank: BankName,
    resend: usize,
) -> Result<Opened<M>, SiteFault>
    ensures { MatchResult result
        (λ opened. OpensSite config.now me bank resend bytes.now opened.responder.node.site opened.first.items
        opened.sends.items)
        (EndsOnLine me bank bytes.now config.now) }
{
    if is_sealed(bytes) {
        return Err(SiteFault::Sealed);
    }
    let mut why = None;
    open_over(alloc, config, 1, bytes, me, bank, resend, &mut why)
}

impl<M: Records> Opened<M> {
    /// Repairs the end of the site's file, whose bytes these are, and adds the configuration's line if the journal
    /// doesn't have it yet. At `Ok` the file's lines are those of the site's journal, all of them on the disk. At
    /// `Err`, open the file again.
    pub fn begin<H: Host>(&mut self, host: H, bytes: &[u8]) -> Result<Journal<H>, (HostError, H)>
        requires opened { H.never_failed host }
        requires bytes { bytes.now ≡ H.content host }
        requires durable { H.knows_disk host → Only (H.content host) (H.may_leave host) }
        requires begins { IsToBegin (recovered bytes.now) self.old.responder.node.site self.old.first.items }
        requires journal { IsJournalOf (recovered bytes.now) self.old.responder.node.site }
        ensures responder { self.new.responder ≡ self.old.responder }
        ensures sends { self.new.sends ≡ self.old.sends }
        ensures settled { IfOk result (λ journal. IsSettled H.is_usable H.content H.may_leave journal) }
        ensures lines { IfOk result (λ journal. recovered (H.content journal.host)
            ≡ journal_of self.old.responder.node.site) }
        ensures output { IfOk result (λ journal. H.output journal.host ≡ H.output host) }
        ensures reported { IfOk result (λ journal. H.reported journal.host ≡ H.reported host) }

        // A crash at any moment leaves the lines from before, or those of the site's journal.
        ensures any_moment { IfOk result (λ journal. LeavesOnly H.moment H.left_since host journal.host
            (λ c d. AreEither (recovered bytes.now) (journal_of self.old.responder.node.site) (recovered c)
            × (d ≡ H.output host))) }
        ensures any_moment_err { IfErr result (λ e. LeavesOnly H.moment H.left_since host e.1
            (λ c d. AreEither (recovered bytes.now) (journal_of self.old.responder.node.site) (recovered c)
            × (d ≡ H.output host))) }
        ensures no_output_fault { IfErr result (λ e. e.0 ≡ HostError.OutputFailed → ⊥) }
    {
        settings_are_configured(&self.responder.node);
        match Journal::open(host, bytes) {
            Ok(mut journal) => match journal.append(&mut self.first) {
                Ok(()) => Ok(journal),
                Err(error) => {
                    let Journal { host, end: _ } = journal;
                    Err((error, host))
                }
            },
            Err(stopped) => Err(stopped),
        }
    }
}
