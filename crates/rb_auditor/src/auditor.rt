//! An auditor, which reads histories entry by entry. Each entry is replayed by its site as it is read, so that little
//! of it has to be kept (store.rt).
ghost use Rattle.std.specs.Prelude.{◌≡◌, ◌<◌, ◌∷◌, [], IfOk, IfErr, OnOk, OnErr, length, replicate};
ghost use Rattle.rb_auditor.specs.Audits.{HasMore};
ghost use Rattle.rb_auditor.specs.Certificates.{Certifies};
ghost use Rattle.rb_auditor.specs.Findings.{IsFound, Refutes};
ghost use Rattle.rb_auditor.specs.Replays.{ended_sites};

use crate::auditing::find;
use crate::checking::sites::{close_all, open_all};
use crate::notes::{Notes, no_notes};
use crate::replay::take_entry;
use crate::store::Store;
use crate::{AuditFault, Certificate};
use rb_money::Config;
use rb_site::{Entry, ErasedEntry, Site};
use std::alloc::{AllocError, Global};
use std::marker::Model;

/// Audits histories that are read entry by entry, those of the sites in any order. Clients see the configuration and
/// each site's entries. It can't be dropped: it finishes or is closed.
pub struct Auditor {
    alloc: Global,
    config: Config,
    sites: Vec<Site<ErasedEntry>>,
    notes: Vec<Notes>,
    store: Store,
}

impl Model for Auditor {
    ghost use Rattle.rb_auditor.specs.Audits.{Audited};
    ghost use Rattle.rb_auditor.specs.Kept.{AreAllNotes, histories_in};

    ghost Value = { Audited };

    ghost view = { λ a. record { settings = a.config; histories = histories_in a.notes.items } };

    ghost invariant = { λ a. AreAllNotes a.config a.sites.items a.notes.items a.store.messages.items };
}

impl Auditor {
    /// Before any entry. `Err` means out of memory.
    pub fn open(alloc: Global, config: Config) -> Result<Auditor, AllocError>
        ensures settings { IfOk result (λ auditor. auditor.settings ≡ config) }
        ensures none { IfOk result (λ auditor. auditor.histories ≡ replicate config.sites []) }
    {
        let store = Store::new(alloc, config.sites())?;
        let notes = no_notes(alloc, config.sites())?;
        let sites = open_all(alloc, &config)?;
        Ok(Auditor {
            alloc,
            config,
            sites,
            notes,
            store,
        })
    }

    /// The configuration.
    pub fn config(&self) -> &Config
        ensures same { result.now ≡ self.now.settings }
        ensures each { length self.now.histories ≡ self.now.settings.sites }
    {
        &self.config
    }

    /// Takes the next entry of a site's history. `Err` means out of memory, and takes nothing.
    pub fn take(&mut self, site: u8, entry: &Entry) -> Result<(), AllocError>
        requires { site < length self.old.histories }
        ensures ok { OnOk result (HasMore self.old self.new site (entry.now ∷ [])) }
        ensures err { OnErr result (self.new ≡ self.old) }
    {
        let replayed = &mut self.sites[site as usize];
        let notes = &mut self.notes[site as usize];
        take_entry(replayed, notes, entry, &mut self.store)
    }

    /// An order in which a world could have recorded the histories. Entries are taken in rounds from site 0, from each
    /// site as many as possible; if a site doesn't record an entry, or no entry can be taken any more, no world has the
    /// histories.
    ///
    /// Errors: `WrongReply` or `Stuck` if no world has them, `OutOfMemory` if there was no memory to find out: a wrong
    /// reply is found without any.
    pub fn finish(self) -> Result<Certificate, AuditFault>
        ensures certified { IfOk result (Certifies self.settings self.histories) }
        ensures found { IfErr result (IsFound self.settings self.histories) }
        ensures refuted { IfErr result (Refutes self.settings self.histories) }
    {
        match self.finish_with_sites() {
            Ok((order, sites)) => {
                close_all(sites);
                Ok(order)
            }
            Err(fault) => Err(fault),
        }
    }

    /// Finds what `finish` does, and gives the sites too, after their histories. They are closed by `close_all`.
    pub fn finish_with_sites(self) -> Result<(Certificate, Vec<Site<ErasedEntry>>), AuditFault>
        ensures certified { IfOk result (λ found. Certifies self.settings self.histories found.0) }
        ensures sites { IfOk result (λ found. found.1.items ≡ ended_sites self.settings 0 self.histories) }
        ensures each { IfOk result (λ found. length found.1.items ≡ self.settings.sites) }
        ensures found { IfErr result (IsFound self.settings self.histories) }
        ensures refuted { IfErr result (Refutes self.settings self.histories) }
    {
        let Auditor {
            alloc,
            config,
            sites,
            notes,
            store,
        } = self;
        match find(alloc, &config, notes.as_slice(), &store.messages) {
            Ok(order) => Ok((order, sites)),
            Err(fault) => {
                close_all(sites);
                Err(fault)
            }
        }
    }

    /// Closes the auditor.
    pub fn close(self) {
        let Auditor {
            alloc: _,
            config: _,
            sites,
            notes: _,
            store: _,
        } = self;
        close_all(sites);
    }
}
