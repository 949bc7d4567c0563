//! A whole closing of the books, from the bytes of journals to those of a line.
//!
//! Files are read one after another, and none after one that is at fault. The line is written once all is known, so
//! after a fault nothing was written, unless it is the write that failed.
ghost use Rattle.std.specs.Prelude.{◌≡◌, ◌↔◌, ◌+◌, ◌<◌, ◌≤◌, [], List, ℕ, Err, IfSome, MatchResult, None, false, true};
ghost use Rattle.std.specs.Io.KnownBytes.{Appends};
ghost use Rattle.rb_money.specs.declared.limits.TheConstants.{MOST_SITES};
ghost use Rattle.rb_runs.specs.Closes.{ClosesAs, HasTaken};
ghost use Rattle.rb_runs.specs.declared.books.close_fault.CloseFault.TheVariants.{Write as NotWritten};

use crate::books::added::check_added;
use crate::books::close_fault::CloseFault;
use crate::books::closing::Closing;
use crate::books::closing_line::answer_closing;
use crate::books::files::JournalFiles;
use crate::books::next::NextBank;
use rb_lines::{Sink, write_all};
use std::alloc::Global;

/// Takes the journal of a site from the next file. With that of site 0 it is known whether the accounts may be added.
fn take_next<F: JournalFiles>(
    alloc: Global,
    ask: &NextBank<'_>,
    site: u64,
    files: &mut F,
    closing: &mut Closing,
) -> Result<(), CloseFault>
    requires more { closing.old.taken < closing.old.journals }
    requires site { site ≡ closing.old.taken }
    requires taken { HasTaken closing.old ask.now (F.read files.old) }
    ensures taken { MatchResult result
        (λ _. HasTaken closing.new ask.now (F.read files.new) × (closing.new.taken ≡ closing.old.taken + 1)
        × (closing.new.journals ≡ closing.old.journals))
        (λ fault. ClosesAs ask.now closing.old.journals (F.read files.new) (Err fault) []) }
    ensures write { result ≡ Err NotWritten → ⊥ }
    ensures same { F.known files.new ≡ F.known files.old }
{
    let Some(bytes) = files.read_next() else {
        return Err(CloseFault::Unread { site });
    };
    if let Err(fault) = closing.take(&bytes) {
        return Err(CloseFault::Journal { site, fault });
    }
    if site > 0 {
        return Ok(());
    }
    match check_added(alloc, ask.added(), closing.config()) {
        Ok(()) => Ok(()),
        Err(why) => Err(CloseFault::Added(why)),
    }
}

/// Takes this number of journals, in the order of their sites.
fn take_all<F: JournalFiles>(
    alloc: Global,
    ask: &NextBank<'_>,
    journals: usize,
    files: &mut F,
    closing: &mut Closing,
) -> Result<(), CloseFault>
    requires journals { closing.old.journals ≡ journals }
    requires none { closing.old.taken ≡ 0 }
    requires empty { closing.old.auditor ≡ None }
    requires unread { F.read files.old ≡ [] }
    ensures taken { MatchResult result
        (λ _. HasTaken closing.new ask.now (F.read files.new) × (closing.new.taken ≡ journals)
        × (closing.new.journals ≡ journals))
        (λ fault. ClosesAs ask.now journals (F.read files.new) (Err fault) []) }
    ensures write { result ≡ Err NotWritten → ⊥ }
    ensures same { F.known files.new ≡ F.known files.old }
{
    for site in 0..journals as u64 {
        take_next(alloc, ask, site, files, closing)?;
    }
    Ok(())
}

/// Closes the books of a bank by this number of journals, one for each site, and writes one line: the next bank's
/// configuration, if the histories are one bank's and each site has applied all operations; else the verdict of the
/// audit, or what each site lacks, or the first account that has more than it may start with. The answer is whether the
/// books are closed.
///
/// Files are read one after another, and none after one that is at fault. After a fault nothing was written, but for
/// `Write`: then a prefix of the line.
pub fn run_close<F: JournalFiles, W: Sink>(
    alloc: Global,
    ask: &NextBank<'_>,
    journals: usize,
    files: &mut F,
    writer: &mut W,
) -> Result<bool, CloseFault>
    requires some { 1 ≤ journals }
    requires sites { IfSome ask.now.sites (λ n. (2 ≤ n) × (n ≤ MOST_SITES)) }
    requires unread { F.read files.old ≡ [] }
    requires fresh { W.failed writer.old ≡ false }
    ensures written { (text : List ℕ) × Appends (W.contents writer.old) (W.contents writer.new) text
        × ClosesAs ask.now journals (F.read files.new) result text }
    ensures write { (result ≡ Err NotWritten) ↔ (W.failed writer.new ≡ true) }
    ensures same { F.known files.new ≡ F.known files.old }
{
    if let Err(why) = check_added(alloc, ask.added(), None) {
        return Err(CloseFault::Added(why));
    }
    let mut closing = Closing::new(alloc, journals);
    if let Err(fault) = take_all(alloc, ask, journals, files, &mut closing) {
        closing.close();
        return Err(fault);
    }
    let Some(auditor) = closing.into_auditor() else {
        unreachable!();
    };
    let (closed, line) = answer_closing(alloc, auditor, ask)?;
    write_all(writer, line.as_slice())?;
    Ok(closed)
}
