//! A site with its journal in a file whose calls C makes, and the text of its last answer.
ghost use Rattle.std.specs.Prelude.{◌≡◌, [], IfOk, IsTrue, IsFalse, MatchOption, MatchResult, ◌∷◌, ◌++◌, List};
ghost use Rattle.rb_journal.specs.Calls.{NotedCall};
ghost use Rattle.rb_journal.specs.Planned.{made_event};
ghost use Rattle.rb_run_site.specs.Openings.{EndsOnLine};
ghost use Rattle.rb_capi.specs.JournalSites.{answer_behind, AnswersJournalLine, HasMade, IsAsBefore, OpensJournal};

use rb_history::BankName;
use rb_journal::{Call, Journal, Planned, ServeFault, answer_alone};
use rb_run_site::{AllEvents, Opened, SiteFault, SiteResponder, open_on_line};
use std::alloc::Global;
use std::marker::Model;

/// What a `JournalHandle` keeps: a site with its journal, and the text of its last answer.
pub struct KeptJournal {
    responder: SiteResponder<AllEvents>,
    journal: Journal<Planned>,
    answer: Vec<u8>,
}

impl Model for KeptJournal {
    ghost use Rattle.std.specs.Prelude.{◌≡◌};
    ghost use Rattle.rb_journal.specs.Calls.{content_of, faults_of, leaves};
    ghost use Rattle.rb_journal.specs.Journal.{IsSettled};
    ghost use Rattle.rb_journal.specs.Lines.{recovered};
    ghost use Rattle.rb_journal.specs.PlannedFiles.{log_left, log_made, log_planned};
    ghost use Rattle.rb_run_site.specs.Journals.{journal_of};
    ghost use Rattle.rb_capi.specs.JournalSites.{SeenJournal};

    ghost Value = { SeenJournal };

    ghost view = { λ k. record {
      site = k.responder.node.site;
      answer = k.answer.items;
      made = log_made k.journal.host;
      left = log_left k.journal.host;
    } };

    ghost invariant = { λ k. IsSettled (λ h. faults_of (log_planned h) ≡ 0) (λ h. content_of (log_planned h))
        (λ h. leaves (log_planned h)) k.journal
        × (journal_of k.responder.node.site ≡ recovered (content_of (log_planned k.journal.host))) };
}

impl Drop for KeptJournal {
    fn drop(self) {
        let KeptJournal {
            responder,
            journal: _,
            answer: _,
        } = self;
        responder.close();
    }
}

impl KeptJournal {
    /// The site of a number of the configuration on a line, with the history in a file of these bytes.
    ///
    /// Errors: those of `open_on_line`; also out of memory, and a file of 2^60 bytes counts as that.
    pub fn open(
        alloc: Global,
        me: u8,
        resend: usize,
        config: &[u8],
        file: &[u8],
    ) -> Result<KeptJournal, SiteFault>
        ensures { MatchResult result (λ journal. OpensJournal config.now me resend file.now journal)
            (EndsOnLine me [] file.now config.now) }
    {
        let bank = BankName::none();
        let mut opened = open_on_line::<AllEvents>(alloc, config, file, me, bank, resend)?;
        match opened.begin(Planned::new(alloc, file), file) {
            Ok(journal) => {
                let Opened {
                    responder,
                    first: _,
                    sends,
                } = opened;
                Ok(KeptJournal {
                    responder,
                    journal,
                    answer: sends,
                })
            }
            Err(_) => {
                opened.close();
                Err(SiteFault::OutOfMemory)
            }
        }
    }

    /// Answers the line of this number. `Err` means out of memory, or that the file would have 2^60 bytes: it ends the
    /// site.
    pub fn answer_line(
        self,
        alloc: Global,
        number: usize,
        line: &[u8],
    ) -> Result<KeptJournal, ServeFault>
        requires { self.left ≡ [] }
        ensures { IfOk result (λ new. AnswersJournalLine self new number line.now) }
    {
        let KeptJournal {
            mut responder,
            mut journal,
            mut answer,
        } = self;
        answer.clear();
        match answer_alone(
            alloc,
            &mut responder,
            &mut journal,
            line,
            number as u64,
            &mut answer,
        ) {
            Ok(()) => Ok(KeptJournal {
                responder,
                journal,
                answer,
            }),
            Err(fault) => {
                responder.close();
                Err(fault)
            }
        }
    }

    /// The call that is to be made next on the file.
    pub fn next(&self) -> Option<&Call>
        ensures { MatchOption result (self.now.left ≡ [])
            (λ call. (later : List NotedCall) × (self.now.left ≡ later ++ made_event call.now ∷ [])) }
    {
        self.journal.host.next()
    }

    /// Notes that the next call was made, and succeeded; `false` if no call is left, and nothing has changed.
    pub fn made(&mut self) -> bool
        ensures made { IsTrue result → HasMade self.old self.new }
        ensures none { IsFalse result → (self.old.left ≡ []) × IsAsBefore self.old self.new }
    {
        self.journal.host.made().is_some()
    }

    /// The last answer, once no call is left; else nothing.
    pub fn shown(&self) -> &[u8]
        ensures { result.now ≡ answer_behind self.now.left self.now.answer }
    {
        match self.next() {
            Some(_) => &[],
            None => self.answer.as_slice(),
        }
    }
}
