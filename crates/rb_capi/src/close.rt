//! Closing the books, from bytes to bytes.
ghost use Rattle.std.specs.Prelude.{◌≡◌, ◌↔◌, [], IsTrue, false};
ghost use Rattle.rb_capi.specs.Close.{AnswersClose, CallEndsAs, MayBeAsked, sites_asked};
ghost use Rattle.rb_capi.specs.Close.{closed_in_memory, closed_text};

use crate::ending::hand_over;
use crate::journals::{JournalsInMemory, are_lengths_of};
use crate::names::names_on;
use crate::not_closed::{NotClosed, end_of_close, wrong_journal};
use rb_lines::ToBytes;
use rb_money::MOST_SITES;
use rb_runs::{CloseFault, NextBank, run_close};
use std::alloc::Global;

/// Whether the next bank may have this number of sites; 0 is as many as before.
fn may_be_asked(sites: u8) -> bool
    ensures { IsTrue result ↔ MayBeAsked sites }
{
    sites == 0 || (2 <= sites && usize::from(sites) <= MOST_SITES)
}

/// The number of sites that the next bank is to have, or `None` for as many as before.
fn sites_asked(sites: u8) -> Option<u8>
    ensures { result ≡ sites_asked sites }
{
    if sites == 0 { None } else { Some(sites) }
}

/// The result of closing the books from memory to memory. A read or a write fails there only for want of memory; the
/// text is dropped then.
fn closed_in_memory(ran: Result<bool, CloseFault>, text: &mut Vec<u8>) -> Result<bool, CloseFault>
    ensures result { result ≡ closed_in_memory ran }
    ensures text { text.new.items ≡ closed_text ran text.old.items }
{
    match ran {
        Err(CloseFault::Unread { site: _ } | CloseFault::Write) => {
            text.clear();
            Err(CloseFault::OutOfMemory)
        }
        ran => ran,
    }
}

/// Closes the books by journals that follow one another in memory, and writes the line.
fn close(
    alloc: Global,
    sites: u8,
    names: &[u8],
    journals: &[u8],
    lengths: &[usize],
    writer: &mut ToBytes,
) -> Result<bool, NotClosed>
    requires empty { writer.old.taken.items ≡ [] }
    requires fresh { writer.old.failed ≡ false }
    ensures { CallEndsAs (record { sites = sites; names = names.now; journals = journals.now; lengths = lengths.now })
        result writer.new.taken.items }
{
    if !may_be_asked(sites) {
        return Err(NotClosed::Sites);
    }
    if lengths.is_empty() || !are_lengths_of(lengths, journals.len()) {
        return Err(NotClosed::Lengths);
    }
    let Ok(added) = names_on(alloc, names) else {
        return Err(NotClosed::Fault(CloseFault::OutOfMemory));
    };
    let ask = NextBank::new(sites_asked(sites), added.as_slice());
    let mut files = JournalsInMemory::new(alloc, journals, lengths);
    let ran = run_close(alloc, &ask, lengths.len(), &mut files, writer);
    match closed_in_memory(ran, &mut writer.taken) {
        Ok(closed) => Ok(closed),
        Err(fault) => Err(NotClosed::Fault(fault)),
    }
}

/// Closes a bank's books: audits its sealed journals, one after another and of these lengths, in the order of their
/// sites, and writes one line. `sites` is how many sites the next bank has, 2 to 16, or 0 for as many as before;
/// `names` are those of the accounts that it has after the others, a line each.
///
/// The result is 0 if the line is the next bank's configuration, and 1 if it says why the books can't be closed, and
/// then `number` is 1. Else nothing was written:
///
/// - 2 for a bad line of the journal `journal`, from 0, and `number` is the line's, from 1; 5 if the journal isn't
///   sealed; 6 if it is another bank's; 7 if the entry on the line is another site's;
/// - 8 if there are more journals than sites, or fewer, and `number` is how many sites there are; 9 for a number of
///   sites that no bank has; 13 if there is no journal, or the lengths aren't those of the bytes;
/// - 10 if there is an account of the name already, and 11 if it is no name, and `number` is which added account it is,
///   from 0; 12 for too many accounts;
/// - 4 for want of memory.
///
/// If `out` is too short, it is 3, as for a script. `number` and `journal` are 0 if nothing is said of them.
#[unsafe(no_mangle)]
pub extern "C" fn rbbank_close_books(
    alloc: Global,
    sites: u8,
    names: &[u8],
    journals: &[u8],
    lengths: &[usize],
    out: &mut [u8],
    written: &mut usize,
    number: &mut u64,
    journal: &mut u64,
) -> i32
    ensures { AnswersClose (record { sites = sites; names = names.now; journals = journals.now; lengths = lengths.now })
        out.old out.new written.new number.new journal.new result }
{
    let mut writer = ToBytes::new(alloc);
    let ended = close(alloc, sites, names, journals, lengths, &mut writer);
    *journal = wrong_journal(ended);
    let ending = end_of_close(ended);
    hand_over(writer.taken.as_slice(), ending, out, written, number)
}
