//! One site with its journal in a file. An export makes no call on a file: it says which is to be made next, and the
//! caller makes it and says how it ended. So a program has its own loop, and a reply can be seen only once all that it
//! rests on is on the disk.
ghost use Rattle.std.specs.Prelude.{◌≡◌, ◌≢◌, ◌<◌, ◌⊎◌, [], None, Some, true, IfSome};
ghost use Rattle.std.specs.Prelude.{MatchResult, pos};
ghost use Rattle.rb_journal.specs.Planned.{made_event};
ghost use Rattle.rb_run_site.specs.Openings.{EndsOnLine};
ghost use Rattle.rb_run_site.specs.declared.fault.SiteFault.{SiteFault as SeenFault};
ghost use Rattle.rb_capi.specs.Copies.{Copies};
ghost use Rattle.rb_capi.specs.JournalSites.{AnswersJournalLine, HandsCall, HasMade, IsAsBefore, OpensJournal};
ghost use Rattle.rb_capi.specs.JournalSites.{SeenJournal, calls_left, open_number, open_status, shown_text};

use crate::copy::copy_text;
use crate::handles::{Handle, JournalHandle};
use crate::kept_journal::KeptJournal;
use crate::statuses::{
    ANOTHER_JOURNAL, BAD_ENTRY, BAD_LINE, DAMAGED, NO_MEMORY, NONE, OK, REFUSED, SEALED,
    WRONG_REPLY,
};
use rb_journal::Call;
use rb_run_site::SiteFault;
use std::alloc::Global;

/// The status of an opening that ends so.
fn open_status(fault: SiteFault) -> i32
    ensures { result ≡ pos (open_status fault) }
{
    match fault {
        SiteFault::BadConfig { line: _ } => BAD_LINE,
        SiteFault::NoSite => REFUSED,
        SiteFault::AnotherJournal => ANOTHER_JOURNAL,
        SiteFault::BadEntry { line: _ } => BAD_ENTRY,
        SiteFault::WrongReply { line: _ } => WRONG_REPLY,
        SiteFault::Damaged { line: _ } => DAMAGED,
        SiteFault::Sealed => SEALED,
        _ => NO_MEMORY,
    }
}

/// The number of the journal's line that is wrong, or 0.
fn open_number(fault: SiteFault) -> u64
    ensures { result ≡ open_number fault }
{
    match fault {
        SiteFault::BadEntry { line }
        | SiteFault::WrongReply { line }
        | SiteFault::Damaged { line } => line,
        _ => 0,
    }
}

/// A call as it is noted: its kind, its number and its bytes.
fn parts(call: &Call) -> (u8, u64, &[u8])
    ensures noted { made_event call.now ≡ (result.0, result.1, true, result.2.now) }
    ensures some { 0 < result.0 }
{
    match call {
        Call::Write { at, bytes } => (1, *at as u64, bytes.as_slice()),
        Call::Cut { len } => (2, *len as u64, &[]),
        Call::Sync => (3, 0, &[]),
        Call::PutOut { bytes } => (4, bytes.len() as u64, bytes.as_slice()),
        Call::Keep { lines: _, bytes } => (6, 0, bytes.as_slice()),
    }
}

/// Hands over the call that is to be made next: its kind, or 0 if no call is left.
fn hand_call(kept: &KeptJournal, out: &mut [u8], length: &mut usize, at: &mut u64) -> i32
    ensures { HandsCall kept.now.left out.old out.new length.new at.new result }
{
    match kept.next() {
        Some(call) => {
            let (kind, number, bytes) = parts(call);
            *at = number;
            *length = copy_text(bytes, out);
            i32::from(kind)
        }
        None => {
            *at = 0;
            *length = copy_text(&[], out);
            0
        }
    }
}

/// A site that is opened, in a box that C may keep.
fn open_boxed(
    alloc: Global,
    me: u8,
    resend: usize,
    config: &[u8],
    file: &[u8],
) -> Result<Box<KeptJournal>, SiteFault>
    ensures { MatchResult result (λ opened. OpensJournal config.now me resend file.now opened.value)
        (EndsOnLine me [] file.now config.now) }
{
    let opened = KeptJournal::open(alloc, me, resend, config, file)?;
    match Box::new(alloc, opened) {
        Ok(opened) => Ok(opened),
        Err(_) => Err(SiteFault::OutOfMemory),
    }
}

/// The site after the answer to a line; `None` if it has ended.
fn answer_boxed(
    alloc: Global,
    kept: Box<KeptJournal>,
    number: usize,
    line: &[u8],
) -> Option<Box<KeptJournal>>
    requires { kept.value.left ≡ [] }
    ensures { IfSome result (λ answered. AnswersJournalLine kept.value answered.value number line.now) }
{
    let Ok(answered) = Box::into_inner(kept).answer_line(alloc, number, line) else {
        return None;
    };
    match Box::new(alloc, answered) {
        Ok(answered) => Some(answered),
        Err(_) => None,
    }
}

/// Opens the site `me` (0 to 15) of the configuration on a line, with the history in its journal's file, whose bytes
/// these are: all that were read, all of them on the disk. A file that isn't there yet has none. A site that was kept
/// there before is ended. Calls on the file are left then, which repair its end; the reply after them is what the last
/// `resend` entries sent, to be sent again.
///
/// Statuses: 0; 2 if the line is no configuration; 3 if it has no such site; 4 for want of memory; 5 if the file is
/// another bank's journal; 6 if its line `number`, from 1, is no entry of this site; 7 if the site gives another reply
/// than that line has; 8 if a byte that no crash leaves is where that line, or the gate before it, should begin; 9 if
/// the journal is sealed. After each but 0 there is no site, and the file is to stay as it is. Else `number` is 0.
#[unsafe(no_mangle)]
pub extern "C" fn rbbank_journal_open(
    alloc: Global,
    journal: &mut JournalHandle,
    me: u8,
    resend: usize,
    config: &[u8],
    file: &[u8],
    number: &mut u64,
) -> i32
    ensures opened { result ≡ pos 0 → (j : SeenJournal) × (journal.new.value ≡ Some j)
        × OpensJournal config.now me resend file.now j × (number.new ≡ 0) }
    ensures refused { result ≢ pos 0 → (journal.new.value ≡ None) × (fault : SeenFault)
        × EndsOnLine me [] file.now config.now fault
        × (result ≡ pos (open_status fault)) × (number.new ≡ open_number fault) }
{
    journal.clear(alloc);
    match open_boxed(alloc, me, resend, config, file) {
        Ok(opened) => {
            journal.put(opened);
            *number = 0;
            OK
        }
        Err(fault) => {
            *number = open_number(fault);
            open_status(fault)
        }
    }
}

/// Answers a line as `rbbank site` does, and keeps the answer: `number` is the line's, which the answer to a line that
/// is no event has. Calls on the file are left then, if the site recorded anything, and the reply can be read only
/// after them.
///
/// Statuses: 0; 1 if there is no site; 3 if calls of an answer before are left, and then nothing has changed; 4 for
/// want of memory, or if the file would have 2^60 bytes, which ends the site.
#[unsafe(no_mangle)]
pub extern "C" fn rbbank_journal_answer(
    alloc: Global,
    journal: &mut JournalHandle,
    number: usize,
    line: &[u8],
) -> i32
    ensures answered { result ≡ pos 0 → (old : SeenJournal) × (new : SeenJournal) × (journal.old.value ≡ Some old)
        × (journal.new.value ≡ Some new) × (old.left ≡ []) × AnswersJournalLine old new number line.now }
    ensures none { result ≡ pos 1 → journal.old.value ≡ None }
    ensures waits { result ≡ pos 3 → (old : SeenJournal) × (journal.old.value ≡ Some old) × (old.left ≢ [])
        × (journal.new.value ≡ journal.old.value) }
    ensures ended { result ≡ pos 4 → journal.new.value ≡ None }
    ensures still_none { journal.old.value ≡ None → (result ≡ pos 1) × (journal.new.value ≡ None) }
    ensures statuses { (result ≡ pos 0) ⊎ ((result ≡ pos 1) ⊎ ((result ≡ pos 3) ⊎ (result ≡ pos 4))) }
{
    let Some(kept) = journal.take(alloc) else {
        return NONE;
    };
    if kept.next().is_some() {
        journal.put(kept);
        return REFUSED;
    }
    match answer_boxed(alloc, kept, number, line) {
        Some(answered) => {
            journal.put(answered);
            OK
        }
        None => NO_MEMORY,
    }
}

/// Hands over the call that is to be made next on the file, and copies its bytes to the beginning of `out`, as much of
/// them as fits; `length` is how many there are. It is the same until `rbbank_journal_done` is called.
///
/// The result is 0 if no call is left, or there is no site. Else: 1, write the bytes at `at`, over what is there; 2,
/// cut the file to `at` bytes, and wait until that is on the disk; 3, wait until what was written is on the disk; 6,
/// add the bytes, which are about to be cut off, to a file that keeps them, and wait until they are on the disk. 4
/// would be to put the bytes out: no call of this library asks for it.
#[unsafe(no_mangle)]
pub extern "C" fn rbbank_journal_call(
    alloc: Global,
    journal: &mut JournalHandle,
    out: &mut [u8],
    length: &mut usize,
    at: &mut u64,
) -> i32
    ensures call { HandsCall (calls_left journal.old.value) out.old out.new length.new at.new result }
    ensures same { journal.new.value ≡ journal.old.value }
{
    let Some(kept) = journal.take(alloc) else {
        *at = 0;
        *length = copy_text(&[], out);
        return 0;
    };
    let kind = hand_call(&kept, out, length, at);
    journal.put(kept);
    kind
}

/// Says that the call that was to be made next was made and succeeded, or, by 0, that it failed. A failed call ends the
/// site: open the file again.
///
/// Statuses: 0; 1 if there is no site, or none any more; 3 if no call is left, and then nothing has changed.
#[unsafe(no_mangle)]
pub extern "C" fn rbbank_journal_done(alloc: Global, journal: &mut JournalHandle, made: u8) -> i32
    ensures made { result ≡ pos 0 → (old : SeenJournal) × (new : SeenJournal) × (journal.old.value ≡ Some old)
        × (journal.new.value ≡ Some new) × HasMade old new }
    ensures none { result ≡ pos 1 → (journal.new.value ≡ None) × ((made ≡ 0) ⊎ (journal.old.value ≡ None)) }
    ensures failed { made ≡ 0 → result ≡ pos 1 }
    ensures nothing { result ≡ pos 3 → (old : SeenJournal) × (new : SeenJournal) × (journal.old.value ≡ Some old)
        × (journal.new.value ≡ Some new) × (old.left ≡ []) × IsAsBefore old new }
    ensures statuses { (result ≡ pos 0) ⊎ ((result ≡ pos 1) ⊎ (result ≡ pos 3)) }
{
    let Some(mut kept) = journal.take(alloc) else {
        return NONE;
    };
    if made == 0 {
        drop(kept);
        return NONE;
    }
    if kept.made() {
        journal.put(kept);
        return OK;
    }
    journal.put(kept);
    REFUSED
}

/// Copies the kept answer to the beginning of `out`, as much of it as fits: how many bytes the whole answer has. That
/// is 0 as long as calls are left, and if there is no site or nothing was answered: so an answer is seen only once all
/// that the site recorded is on the disk.
#[unsafe(no_mangle)]
pub extern "C" fn rbbank_journal_reply(
    alloc: Global,
    journal: &mut JournalHandle,
    out: &mut [u8],
) -> usize
    ensures copied { Copies (shown_text journal.old.value) out.old out.new result }
    ensures same { journal.new.value ≡ journal.old.value }
{
    let Some(kept) = journal.take(alloc) else {
        return copy_text(&[], out);
    };
    let n = copy_text(kept.shown(), out);
    journal.put(kept);
    n
}

/// Ends the site, if there is one. The file stays as it is: if calls are left, a crash would leave it so too.
#[unsafe(no_mangle)]
pub extern "C" fn rbbank_journal_close(alloc: Global, journal: &mut JournalHandle)
    ensures { journal.new.value ≡ None }
{
    journal.clear(alloc);
}
