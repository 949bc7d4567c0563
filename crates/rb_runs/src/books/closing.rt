//! The journals of a bank that is closed, one file at a time.
//!
//! The auditor reads each entry as its line comes, so no file is needed once it was taken. The seal is checked first,
//! and then each line has to be an entry, since other bytes may end as a sealed file does.
ghost use Rattle.std.specs.Prelude.{◌≡◌, ◌+◌, ◌<◌, ◌⊎◌, ◌∷◌, [], Err, None, Ok, Some, length};
ghost use Rattle.std.specs.Prelude.{IfOk, MatchOption, MatchResult};
ghost use Rattle.rb_auditor.specs.Audits.{Audited, HasMore};
ghost use Rattle.rb_lines.specs.Lines.{lines_of};
ghost use Rattle.rb_runs.specs.JournalFiles.{EndsAtFile, TakesFile, bank_by, entry_of_site, is_head};
ghost use Rattle.rb_runs.specs.JournalFiles.{with_lines};
ghost use Rattle.rb_site.specs.declared.entry.Entry.{Entry as TheEntry};

use crate::books::journal_fault::JournalFault;
use crate::entry::entry_of;
use rb_auditor::Auditor;
use rb_history::{LineFault, open_config, write_config};
use rb_lines::{LINE_LIMIT, first_feed};
use rb_money::Config;
use rb_site::{Entry, Event, Reply};
use std::alloc::{AllocError, Global};

/// The journals of a bank that were taken: once there is one, the auditor, which has read their entries so far. It
/// can't be dropped: it is closed, or gives its auditor.
pub struct Closing {
    alloc: Global,
    journals: usize,
    taken: usize,
    auditor: Option<Auditor>,
}

/// The first line, without its line feed, and the lines after it.
pub fn split_line(lines: &[u8]) -> (&[u8], &[u8])
    requires some { 0 < length lines.now }
    ensures split { lines_of lines.now ≡ result.0.now ∷ lines_of result.1.now }
    ensures shorter { length result.1.now < length lines.now }
{
    match first_feed(lines) {
        Some(n) => (&lines[..n], &lines[n + 1..]),
        None => (lines, &[]),
    }
}

/// Whether a line is the configuration's, as a site writes it. `Err` means out of memory.
fn is_head(alloc: Global, config: &Config, line: &[u8]) -> Result<bool, AllocError>
    ensures { IfOk result (λ is. is ≡ is_head config.now line.now) }
{
    let head = write_config(alloc, config)?;
    Ok(line == head.as_bytes())
}

/// Opens the auditor of the bank whose first journal has this first line. `AnotherBank` if a site writes no such line.
fn open(alloc: Global, line: &[u8]) -> Result<Auditor, JournalFault>
    ensures { MatchResult result (λ auditor. bank_by None line.now ≡ Some auditor)
        (λ fault. (fault ≡ JournalFault.OutOfMemory)
        ⊎ ((fault ≡ JournalFault.AnotherBank) × (bank_by None line.now ≡ None))) }
{
    let config = match open_config(alloc, line) {
        Ok(config) => config,
        Err(LineFault::Bad) => return Err(JournalFault::AnotherBank),
        Err(LineFault::OutOfMemory) => return Err(JournalFault::OutOfMemory),
    };
    if is_head(alloc, &config, line)? {
        Ok(Auditor::open(alloc, config)?)
    } else {
        Err(JournalFault::AnotherBank)
    }
}

/// Takes the line of this number, which has to be an entry of the site.
fn take_entry(
    alloc: Global,
    auditor: &mut Auditor,
    site: usize,
    number: u64,
    line: &[u8],
) -> Result<(), JournalFault>
    ensures { MatchResult result
        (λ _. (x : TheEntry) × (entry_of_site auditor.old.settings site number line.now ≡ Ok x)
        × HasMore auditor.old auditor.new site (x ∷ []))
        (λ fault. (fault ≡ JournalFault.OutOfMemory)
        ⊎ (entry_of_site auditor.old.settings site number line.now ≡ Err fault)) }
{
    if line.len() > LINE_LIMIT {
        return Err(JournalFault::BadLine { line: number });
    }
    let mut entry = Entry {
        event: Event::Pass(0),
        reply: Reply::Taken(0),
    };
    let found = match entry_of(alloc, auditor.config(), line, &mut entry) {
        Ok(found) => found,
        Err(LineFault::Bad) => return Err(JournalFault::BadLine { line: number }),
        Err(LineFault::OutOfMemory) => return Err(JournalFault::OutOfMemory),
    };
    if usize::from(found) != site {
        return Err(JournalFault::AnotherSite { line: number });
    }
    Ok(auditor.take(found, &entry)?)
}

/// Takes the lines after the first of a site's journal.
fn take_entries(
    alloc: Global,
    auditor: &mut Auditor,
    site: usize,
    lines: &[u8],
) -> Result<(), JournalFault>
    ensures { MatchResult result
        (λ _. with_lines auditor.old.settings site auditor.old.histories 2 (lines_of lines.now) ≡ Ok auditor.new)
        (λ fault. (fault ≡ JournalFault.OutOfMemory)
        ⊎ (with_lines auditor.old.settings site auditor.old.histories 2 (lines_of lines.now) ≡ Err fault)) }
{
    let mut rest = lines;
    let mut number = 2u64;
    'lines: while !rest.is_empty() {
        let (line, later) = split_line(rest);
        take_entry(alloc, auditor, site, number, line)?;
        rest = later;
        number += 1;
    }
    Ok(())
}

impl Closing {
    /// Before the first of this number of journals.
    pub fn new(alloc: Global, journals: usize) -> Closing
        ensures auditor { result.auditor ≡ None }
        ensures journals { result.journals ≡ journals }
        ensures taken { result.taken ≡ 0 }
    {
        Closing {
            alloc,
            journals,
            taken: 0,
            auditor: None,
        }
    }

    /// Takes the first line of a journal: that of the configuration.
    fn take_head(&mut self, line: &[u8]) -> Result<(), JournalFault>
        ensures { MatchResult result
            (λ _. (bank : Audited) × (bank_by self.old.auditor line.now ≡ Some bank)
            × (self.new ≡ record self.old { auditor = Some bank }))
            (λ fault. (fault ≡ JournalFault.OutOfMemory)
            ⊎ ((fault ≡ JournalFault.AnotherBank) × (bank_by self.old.auditor line.now ≡ None))) }
    {
        let Some(auditor) = &self.auditor else {
            let auditor = open(self.alloc, line)?;
            if let Some(before) = self.auditor.replace(auditor) {
                before.close();
            }
            return Ok(());
        };
        if is_head(self.alloc, auditor.config(), line)? {
            Ok(())
        } else {
            Err(JournalFault::AnotherBank)
        }
    }

    /// Takes the file of the next site's journal. After a fault it can only be closed.
    pub fn take(&mut self, file: &[u8]) -> Result<(), JournalFault>
        requires more { self.old.taken < self.old.journals }
        ensures { MatchResult result (λ _. TakesFile self.old self.new file.now) (EndsAtFile self.old file.now) }
    {
        if !file.ends_with(b"\n\t") {
            return Err(JournalFault::NotSealed);
        }
        let (first, entries) = split_line(&file[..file.len() - 1]);
        self.take_head(first)?;
        let Some(auditor) = &mut self.auditor else {
            unreachable!();
        };
        take_entries(self.alloc, auditor, self.taken, entries)?;
        let sites = usize::from(auditor.config().sites());
        if self.journals != sites {
            return Err(JournalFault::Count {
                journals: self.journals as u64,
                sites: sites as u64,
            });
        }
        self.taken += 1;
        Ok(())
    }

    /// The configuration, once a journal was taken.
    pub fn config(&self) -> Option<&Config>
        ensures { MatchOption result (self.now.auditor ≡ None)
            (λ config. (bank : Audited) × (self.now.auditor ≡ Some bank) × (config.now ≡ bank.settings)) }
    {
        match &self.auditor {
            Some(auditor) => Some(auditor.config()),
            None => None,
        }
    }

    /// The auditor of what was taken, if there was a journal.
    pub fn into_auditor(self) -> Option<Auditor>
        ensures { result ≡ self.auditor }
    {
        let Closing {
            alloc: _,
            journals: _,
            taken: _,
            auditor,
        } = self;
        auditor
    }

    /// Closes what was taken.
    pub fn close(self) {
        if let Some(auditor) = self.into_auditor() {
            auditor.close();
        }
    }
}
