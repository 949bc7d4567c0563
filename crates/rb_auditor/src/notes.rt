//! Notes of one site's history. Of an entry only its step is kept: the search for an order needs no more of it, as its
//! reply was tested when it was read.
ghost use Rattle.std.specs.Prelude.{◌≡◌, ◌<◌, ◌↔◌, ◌++◌, ◌∷◌, [], IsTrue, IfOk, OnOk, length, vec_capacity};
ghost use Rattle.rb_auditor.specs.Kept.{HaveNoEntries, entries_noted, one_step_more};

use crate::step::Step;
use rb_site::Entry;
use std::alloc::{AllocError, Global};
use std::snapshot::Snapshot;

/// Memory for this number of steps is taken at first: 128 kilobytes, a mapping of its own, which grows without a copy
/// and of which only what is used takes memory.
const FIRST_STEPS: usize = 16_500;

/// What is kept of a site's history to find an order: of each entry that the site records, what it does with messages.
#[derive(Drop)]
pub struct Notes {
    pub entries: Vec<Snapshot<Entry>>,
    /// One for each entry, up to the first that the site doesn't record.
    pub steps: Vec<Step>,
}

impl Notes {
    /// The notes of no entry. `Err` means out of memory.
    pub fn new(alloc: Global) -> Result<Notes, AllocError>
        ensures entries { IfOk result (λ notes. notes.entries.items ≡ []) }
        ensures steps { IfOk result (λ notes. notes.steps.items ≡ []) }
    {
        let mut steps = Vec::new(alloc);
        steps.reserve(FIRST_STEPS)?;
        Ok(Notes {
            entries: Vec::new(alloc),
            steps,
        })
    }

    /// Whether the site records all entries.
    pub fn are_whole(&self) -> bool
        ensures { IsTrue result ↔ (length self.now.steps.items ≡ length (entries_noted self.now)) }
    {
        self.steps.len() == self.entries.len()
    }

    /// Takes memory for one entry more. `Err` means out of memory.
    pub fn reserve(&mut self) -> Result<(), AllocError>
        ensures entries { self.new.entries.items ≡ self.old.entries.items }
        ensures steps { self.new.steps.items ≡ self.old.steps.items }
        ensures room { OnOk result ((length self.old.entries.items < vec_capacity self.new.entries)
            × (length self.old.steps.items < vec_capacity self.new.steps)) }
    {
        self.entries.reserve(1)?;
        self.steps.reserve(1)
    }

    /// Adds an entry for which there is memory, with its step if the site records it.
    pub fn add(&mut self, entry: &Entry, step: Option<Step>)
        requires entries { length self.old.entries.items < vec_capacity self.old.entries }
        requires steps { length self.old.steps.items < vec_capacity self.old.steps }
        ensures entries { entries_noted self.new ≡ entries_noted self.old ++ entry.now ∷ [] }
        ensures steps { self.new.steps.items ≡ one_step_more self.old.steps.items step }
    {
        self.entries.push_reserved(Snapshot::of(entry));
        if let Some(step) = step {
            self.steps.push_reserved(step);
        }
    }
}

/// The notes of no entry, for each of this number of sites. `Err` means out of memory.
pub fn no_notes(alloc: Global, sites: u8) -> Result<Vec<Notes>, AllocError>
    ensures { IfOk result (λ notes. (length notes.items ≡ sites) × HaveNoEntries notes.items) }
{
    let mut notes = Vec::new(alloc);
    notes.reserve(sites as usize)?;
    for _site in 0..sites {
        let none = Notes::new(alloc)?;
        notes.push_reserved(none);
    }
    Ok(notes)
}
