//! One site of a bank.
ghost use Rattle.std.specs.Prelude.{◌≡◌, ◌≢◌, ◌<◌, ◌≤◌, ◌⊎◌, ◌↔◌, None, Some, false, pos};
ghost use Rattle.std.specs.Str.{is_utf8};
ghost use Rattle.rb_money.specs.Settings.{Settings};
ghost use Rattle.rb_history.specs.Configurations.{config_on};
ghost use Rattle.rb_node.specs.Answers.{asked_event_on, other_bank_on};
ghost use Rattle.rb_node.specs.LineAnswers.{question_on};
ghost use Rattle.rb_capi.specs.Copies.{Copies};
ghost use Rattle.rb_capi.specs.Sites.{AnswersSiteLine, IsNoEntryLine, IsWrongEntry, ReplaysEntryLine, SeenKept};
ghost use Rattle.rb_capi.specs.Sites.{first_kept, kept_entries, kept_text};

use crate::copy::copy_text;
use crate::handles::{Handle, SiteHandle};
use crate::kept_site::KeptSite;
use crate::statuses::{BAD_LINE, NO_MEMORY, NONE, OK, REFUSED};
use rb_history::LineFault;
use rb_node::{EntryFault, OpenFault};
use std::alloc::Global;

/// Opens the site `me` (0 to 15) of the configuration on a line, before any event. A site that was kept there before is
/// ended. The kept entries are the line of the configuration, with its line feed: the first of the site's journal.
///
/// Statuses: 0; 2 if the line is no configuration; 3 if it has no such site; 4 for want of memory. After 2, 3 and
/// 4 there is no site.
#[unsafe(no_mangle)]
pub extern "C" fn rbbank_site_open(
    alloc: Global,
    site: &mut SiteHandle,
    me: u8,
    config: &[u8],
) -> i32
    ensures opened { result ≡ pos 0 → (s : Settings) × (config_on config.now ≡ Some s) × (me < s.sites)
        × (site.new.value ≡ Some (first_kept s me)) }
    ensures bad { result ≡ pos 2 → config_on config.now ≡ None }
    ensures no_site { result ≡ pos 3 → (s : Settings) × (config_on config.now ≡ Some s) × (s.sites ≤ me) }
    ensures empty { result ≢ pos 0 → site.new.value ≡ None }
    ensures statuses { (result ≡ pos 0) ⊎ ((result ≡ pos 2) ⊎ ((result ≡ pos 3) ⊎ (result ≡ pos 4))) }
{
    site.clear(alloc);
    let opened = match KeptSite::open(alloc, config, me) {
        Ok(opened) => opened,
        Err(OpenFault::BadConfig) => return BAD_LINE,
        Err(OpenFault::NoSite) => return REFUSED,
        Err(OpenFault::OutOfMemory) => return NO_MEMORY,
    };
    match Box::new(alloc, opened) {
        Ok(opened) => {
            site.put(opened);
            OK
        }
        Err(_) => NO_MEMORY,
    }
}

/// Answers the line of an event, and keeps the answer's line, with its line feed, and the lines of the entries that the
/// site recorded: these belong into its journal before anyone sees the answer. Each event is recorded, but for one that
/// changes nothing and whose entry's line would be longer than a line may be. A question, `{"about":"site"}` or
/// `{"resend":N}` (N 0 to 100,000,000), is answered too: it changes nothing and records nothing, and the answer to
/// `resend` has a line before its last for each of the last N entries that sent any message.
///
/// A request or a batch may have an id: 1 to 64 bytes of `A-Z a-z 0-9 . _ : -`, as the member `"id"`. Answer and entry
/// have it too. It is known once the request is made; then the same request is answered by its reply and its messages
/// once more, `{"again":true,"id":..}`, and another one of the id by refusal 25. Neither changes or records anything.
///
/// Statuses: 0; 1 if there is no site; 2 if the line is no event and no question, and then nothing has changed, the
/// kept texts included; 4 for want of memory, which ends the site, and which a line that isn't UTF-8 never takes.
#[unsafe(no_mangle)]
pub extern "C" fn rbbank_site_answer(alloc: Global, site: &mut SiteHandle, line: &[u8]) -> i32
    ensures answered { result ≡ pos 0 → (old : SeenKept) × (new : SeenKept) × (site.old.value ≡ Some old)
        × (site.new.value ≡ Some new) × AnswersSiteLine old new line.now }
    ensures none { (result ≡ pos 1) ↔ (site.old.value ≡ None) }
    ensures bad { result ≡ pos 2 → (old : SeenKept) × (site.old.value ≡ Some old)
        × (asked_event_on old.site.settings old.site.bank line.now ≡ None)
        × (other_bank_on old.site.settings old.site.bank line.now ≡ false)
        × (question_on old.site.bank line.now ≡ None) × (site.new.value ≡ site.old.value) }
    ensures ended { result ≡ pos 4 → site.new.value ≡ None }
    ensures text { is_utf8 line.now ≡ false → result ≢ pos 4 }
    ensures still_none { site.old.value ≡ None → site.new.value ≡ None }
    ensures statuses { (result ≡ pos 0) ⊎ ((result ≡ pos 1) ⊎ ((result ≡ pos 2) ⊎ (result ≡ pos 4))) }
{
    let Some(mut kept) = site.take(alloc) else {
        return NONE;
    };
    match kept.answer_line(line) {
        Ok(()) => {
            site.put(kept);
            OK
        }
        Err(LineFault::Bad) => {
            site.put(kept);
            BAD_LINE
        }
        Err(LineFault::OutOfMemory) => NO_MEMORY,
    }
}

/// Replays the line of the site's next entry, as a restart does with each line of the journal after the first. The
/// kept answer is then the line `{"sends":[..]}` of what the entry sent, with its line feed, to be sent again, or empty
/// if it sent nothing; and there are no kept entries. The line of a request or a batch that was made may have its id,
/// which is known then; a second entry of one id is a bad line.
///
/// Statuses: 0; 1 if there is no site; 2 if the line is no entry of this site, or has the id of an entry before, and
/// then nothing has changed; 3 if the site gives another reply than the entry has, or its history is full, and 4 for
/// want of memory, each of which ends the site.
#[unsafe(no_mangle)]
pub extern "C" fn rbbank_site_replay(alloc: Global, site: &mut SiteHandle, line: &[u8]) -> i32
    ensures replayed { result ≡ pos 0 → (old : SeenKept) × (new : SeenKept) × (site.old.value ≡ Some old)
        × (site.new.value ≡ Some new) × ReplaysEntryLine old new line.now }
    ensures none { (result ≡ pos 1) ↔ (site.old.value ≡ None) }
    ensures bad { result ≡ pos 2 → (old : SeenKept) × (site.old.value ≡ Some old)
        × IsNoEntryLine old.site line.now × (site.new.value ≡ site.old.value) }
    ensures wrong { result ≡ pos 3 → (old : SeenKept) × (site.old.value ≡ Some old)
        × IsWrongEntry old.site line.now × (site.new.value ≡ None) }
    ensures ended { result ≡ pos 4 → site.new.value ≡ None }
    ensures still_none { site.old.value ≡ None → site.new.value ≡ None }
    ensures statuses { (result ≡ pos 0) ⊎ ((result ≡ pos 1) ⊎ ((result ≡ pos 2) ⊎ ((result ≡ pos 3)
        ⊎ (result ≡ pos 4)))) }
{
    let Some(mut kept) = site.take(alloc) else {
        return NONE;
    };
    match kept.replay_line(line) {
        Ok(()) => {
            site.put(kept);
            OK
        }
        Err(EntryFault::BadLine) => {
            site.put(kept);
            BAD_LINE
        }
        Err(EntryFault::WrongReply) => REFUSED,
        Err(EntryFault::OutOfMemory) => NO_MEMORY,
    }
}

/// Copies the kept answer to the beginning of `out`, as much of it as fits: how many bytes the whole answer has. That
/// is 0 if there is no site or nothing was answered.
#[unsafe(no_mangle)]
pub extern "C" fn rbbank_site_reply(alloc: Global, site: &mut SiteHandle, out: &mut [u8]) -> usize
    ensures copied { Copies (kept_text site.old.value) out.old out.new result }
    ensures same { site.new.value ≡ site.old.value }
{
    let Some(kept) = site.take(alloc) else {
        return copy_text(&[], out);
    };
    let n = copy_text(kept.answer.as_slice(), out);
    site.put(kept);
    n
}

/// Copies the kept entries as `rbbank_site_reply` copies the answer: the lines for the site's journal of the last
/// answer, each with its line feed; after an open the line of the configuration.
#[unsafe(no_mangle)]
pub extern "C" fn rbbank_site_entries(alloc: Global, site: &mut SiteHandle, out: &mut [u8]) -> usize
    ensures copied { Copies (kept_entries site.old.value) out.old out.new result }
    ensures same { site.new.value ≡ site.old.value }
{
    let Some(kept) = site.take(alloc) else {
        return copy_text(&[], out);
    };
    let n = copy_text(kept.entries.as_slice(), out);
    site.put(kept);
    n
}

/// Ends the site, if there is one.
#[unsafe(no_mangle)]
pub extern "C" fn rbbank_site_close(alloc: Global, site: &mut SiteHandle)
    ensures { site.new.value ≡ None }
{
    site.clear(alloc);
}
