//! What the program's words ask for, done.
ghost use Rattle.std.specs.Prelude.{◌≡◌, ◌+◌, ◌≤◌, ℕ, List, false, length, map, IfOk, IfErr, OnErr};
ghost use Rattle.std.specs.Io.KnownBytes.{Appends};
ghost use Rattle.std.specs.Process.{exit_status};
ghost use Rattle.clap.specs.Words.{kind_of};
ghost use Rattle.clap.specs.declared.error.kind.ErrorKind.TheVariants.{OutOfMemory};
ghost use Rattle.rb_lines.specs.declared.limits.TheConstants.{MOST_READS};
ghost use Rattle.rb_cli.specs.declared.words.Words.{Words as TheWords};
ghost use Rattle.rb_cli.specs.Words.{AreReadAs, Ask, FailsByWords, IsAsUsual, IsInRange, as_asked};
ghost use Rattle.rbbank.specs.Asked.{DoesAsAsked, DoesLines};
ghost use Rattle.rbbank.specs.Statuses.{IsEndOf};

use crate::closing::close_books;
use crate::done::Done;
use crate::files_task::run_over_files;
use crate::on_disk::{RanOnDisk, run_on_disk, seal_on_disk};
use crate::task::{Task, run_task, well};
use crate::{end_of_task, report_bank, report_why};
use rb_branch::NoGate;
use rb_cli::{Words, read_words};
use rb_history::is_id;
use rb_lines::{Sink, Source};
use rb_run_threads::run_threads;
use rb_runs::Explained;
use std::process::ExitCode;
use std::sync::Wait;
use std::thread::Threads;

/// What was done, and the status that the program ends with.
#[derive(Drop)]
pub struct Ended {
    pub done: Done,
    pub code: ExitCode,
}

/// A task with the lines of these files, or of the reader if there is none.
fn do_lines<S: Source, W: Sink>(
    rt: &HostRuntime,
    task: Task,
    files: &[&str],
    reader: &mut Explained<S>,
    writer: &mut W,
) -> Ended
    requires unread { S.calls reader.old.source ≡ 0 }
    requires fresh { W.failed writer.old ≡ false }
    ensures done { (text : List ℕ) × Appends (W.contents writer.old) (W.contents writer.new) text
        × DoesLines task (length files.now) (S.remaining reader.old.source) (S.remaining reader.new.source)
        result.done text }
    ensures status { IsEndOf result.done (exit_status result.code) }
    ensures calls { S.calls reader.new.source ≤ S.calls reader.old.source + MOST_READS }
{
    if files.is_empty() {
        let ran = run_task(rt.alloc(), task, reader, writer);
        let code = end_of_task(rt, ran);
        report_why(rt, reader.why.take());
        let done = Done::Lines(ran);
        return Ended { done, code };
    }
    let ran = run_over_files(rt, task, files, writer);
    let code = ran.code;
    let done = Done::Files(ran);
    Ended { done, code }
}

/// A site ran, or its journal was sealed.
fn of_site(ran: RanOnDisk) -> Ended
    ensures code { result.code ≡ ran.code }
    ensures done { result.done ≡ Done.Site ran }
{
    let code = ran.code;
    let done = Done::Site(ran);
    Ended { done, code }
}

/// Does what the words ask for. Tellers, a seal, closing the books and a task with files read nothing from the reader.
fn do_asked<H: Threads + Wait + Sync, S: Source, W: Sink>(
    rt: &HostRuntime,
    handle: &H,
    asked: Words<'_>,
    reader: &mut Explained<S>,
    writer: &mut W,
) -> Ended
    requires range { IsInRange (as_asked asked) }
    requires unread { S.calls reader.old.source ≡ 0 }
    requires fresh { W.failed writer.old ≡ false }
    ensures done { (text : List ℕ) × Appends (W.contents writer.old) (W.contents writer.new) text
        × DoesAsAsked asked.entry (S.remaining reader.old.source) (S.remaining reader.new.source) result.done text }
    ensures status { IsEndOf result.done (exit_status result.code) }
    ensures calls { S.calls reader.new.source ≤ S.calls reader.old.source + MOST_READS }
{
    match asked {
        Words::Script(files) => do_lines(rt, Task::Script, &files, reader, writer),
        Words::Histories(files) => do_lines(rt, Task::Histories, &files, reader, writer),
        Words::Audit(files) => do_lines(rt, Task::Audit, &files, reader, writer),
        Words::Migrate(files) => do_lines(rt, Task::Migrate, &files, reader, writer),
        Words::Threads {
            sites,
            tellers,
            seed,
        } => {
            let ran = run_threads(handle, rt.alloc(), sites, tellers, seed, NoGate, writer);
            let code = end_of_task(rt, well(ran));
            let done = Done::Threads(ran);
            Ended { done, code }
        }
        Words::Site {
            me,
            journal,
            is_new,
            resend,
            record,
            bank,
        } => match bank {
            Some(name) if !is_id(name) => {
                let code = report_bank(rt, name);
                let done = Done::BadBank;
                Ended { done, code }
            }
            _ => of_site(run_on_disk(
                rt,
                &mut reader.source,
                me,
                journal,
                is_new,
                resend,
                record,
                bank,
            )),
        },
        Words::Seal { me, journal } => of_site(seal_on_disk(rt, me, journal)),
        Words::Close {
            sites,
            accounts,
            journals,
        } => {
            let ran = close_books(rt, sites, &accounts, &journals, writer);
            let code = ran.code;
            let done = Done::Closed(ran);
            Ended { done, code }
        }
    }
}

/// Does what the words after the program's name ask for, from this reader to this writer and by the files that they
/// name. The handle starts tellers' threads, and waits for them. If the words ask for nothing, the error says so, and
/// nothing is read or written.
pub fn do_words<H: Threads + Wait + Sync, S: Source, W: Sink>(
    rt: &HostRuntime,
    handle: &H,
    words: &[&str],
    reader: &mut Explained<S>,
    writer: &mut W,
) -> Result<Ended, clap::Error>
    requires unread { S.calls reader.old.source ≡ 0 }
    requires fresh { W.failed writer.old ≡ false }
    ensures done { IfOk result (λ ended. (asked : TheWords) × AreReadAs (map (λ word. word.now) words.entry.now) asked
        × IsAsUsual (map (λ word. word.now) words.entry.now) asked
        × (text : List ℕ) × Appends (W.contents writer.old) (W.contents writer.new) text
        × DoesAsAsked asked (S.remaining reader.old.source) (S.remaining reader.new.source) ended.done text) }
    ensures status { IfOk result (λ ended. IsEndOf ended.done (exit_status ended.code)) }
    // Words in their usual spelling are refused for want of memory alone.
    ensures unasked { IfErr result
        (λ e. (asked : TheWords) → Ask (map (λ word. word.now) words.entry.now) asked → kind_of e ≡ OutOfMemory) }
    // Something is done only for words that the command line takes. The error is one of those that these words may end
    // in, so help is answered only if they ask for it.
    ensures kinds { FailsByWords (map (λ word. word.now) words.entry.now) result }
    ensures untouched { OnErr result ((reader.new ≡ reader.old) × (writer.new ≡ writer.old)) }
    ensures calls { S.calls reader.new.source ≤ S.calls reader.old.source + MOST_READS }
{
    match read_words(rt.alloc(), words) {
        Ok(asked) => Ok(do_asked(rt, handle, asked, reader, writer)),
        Err(error) => Err(error),
    }
}
