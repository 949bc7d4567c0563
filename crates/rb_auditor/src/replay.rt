//! One entry more of a history, replayed by its site.
ghost use Rattle.std.specs.Prelude.{◌≡◌, ◌++◌, ◌∷◌, [], IfOk, OnOk, OnErr, MatchBool};
ghost use Rattle.rb_site.specs.Seen.{IsReplayed};
ghost use Rattle.rb_auditor.specs.Kept.{AreNotes, IsMore, IsPlaced, IsStepOf, entries_noted};
ghost use Rattle.rb_auditor.specs.Replays.{RecordsEntry, seen_at};

use crate::notes::Notes;
use crate::step::Step;
use crate::store::Store;
use rb_money::Refusal;
use rb_site::{Entry, ErasedEntry, Event, Message, Reply, Site};
use std::alloc::AllocError;

/// Takes the next entry of the site's history. `Err` means out of memory, and takes nothing.
pub fn take_entry(
    site: &mut Site<ErasedEntry>,
    notes: &mut Notes,
    entry: &Entry,
    store: &mut Store,
) -> Result<(), AllocError>
    requires { AreNotes site.old.settings site.old.me site.old notes.old store.old.messages.items }
    ensures more { IsMore store.old.messages.items store.new.messages.items }
    ensures notes { AreNotes site.old.settings site.old.me site.new notes.new store.new.messages.items }
    ensures ok { OnOk result (entries_noted notes.new ≡ entries_noted notes.old ++ entry.now ∷ []) }
    ensures err { OnErr result (entries_noted notes.new ≡ entries_noted notes.old) }
{
    notes.reserve()?;
    if !notes.are_whole() {
        notes.add(entry, None);
        return Ok(());
    }
    let step = step_of(site, entry, store)?;
    notes.add(entry, step);
    Ok(())
}

/// The step of the entry, if the site records it. The messages that it sends come to the end of the store. `Err` means
/// out of memory: the site is then as before.
fn step_of(
    site: &mut Site<ErasedEntry>,
    entry: &Entry,
    store: &mut Store,
) -> Result<Option<Step>, AllocError>
    requires { IsReplayed site.old }
    ensures more { IsMore store.old.messages.items store.new.messages.items }
    ensures step { IfOk result (λ step. IsStepOf site.old site.new entry.now store.new.messages.items step) }
    ensures err { OnErr result (site.new ≡ site.old) }
    ensures same { (site.new.settings ≡ site.old.settings) × (site.new.me ≡ site.old.me) }
{
    let place = place_of(&entry.event, store)?;
    let first = store.reserve()?;
    if !note(site, entry, &mut store.posted)? {
        return Ok(None);
    }
    store.keep_posted();
    let count = store.messages.len() - first as usize;
    Ok(Some(match place {
        Some(at) => Step::Receives { at },
        None if count == 0 => Step::Alone,
        None => Step::Sends {
            count: count as u8,
            at: first,
        },
    }))
}

/// The place of the message that the event receives, if it is a receipt. `Err` means out of memory.
fn place_of(event: &Event, store: &mut Store) -> Result<Option<u32>, AllocError>
    ensures more { IsMore store.old.messages.items store.new.messages.items }
    ensures place { IfOk result (IsPlaced store.new.messages.items event.now) }
{
    match event {
        Event::Receive(message) => Ok(Some(store.place(message)?)),
        _ => Ok(None),
    }
}

/// Whether the site records the entry. The messages that it sends go to the end of the others. `Err` means out of
/// memory: the site is then as before.
fn note(
    site: &mut Site<ErasedEntry>,
    entry: &Entry,
    messages: &mut Vec<Message>,
) -> Result<bool, AllocError>
    requires { IsReplayed site.old }
    ensures noted { IfOk result (λ noted. MatchBool noted
        (RecordsEntry site.old site.new entry.now messages.old.items messages.new.items)
        (¬ IsReplayed (seen_at site.old.settings site.old.me (site.old.entries ++ entry.now ∷ [])))) }
    ensures err { OnErr result (site.new ≡ site.old) }
    ensures same { (site.new.settings ≡ site.old.settings) × (site.new.me ≡ site.old.me) }
{
    if site.is_full() {
        return Ok(false);
    }
    let mut reply = Reply::Refused(Refusal::HistoryFull);
    site.answer(&entry.event, messages, &mut reply)?;
    Ok(reply.same(&entry.reply))
}
