//! `rbbank`: the sites of a bank, driven by a script or by tellers in threads, one site over its journal, audits and
//! migrations of the sites' histories, and the closing of its books.
//! Tests: tests/cases, words.cases; the program itself runs in the gate and on examples/.
#![tactic(auto)]

ghost use Rattle.std.specs.Prelude.{◌≡◌, ◌⊎◌, IfOk, MatchResult, string_bytes};
ghost use Rattle.std.specs.IoError.{error_kind};
ghost use Rattle.std.specs.Process.{exit_status};
ghost use Rattle.clap.specs.Words.{kind_of};
ghost use Rattle.rb_lines.specs.Messages.{status_of};
ghost use Rattle.rb_lines.specs.declared.fault.ScriptFault.TheVariants.{Write as NotWritten};
ghost use Rattle.rbbank.specs.Statuses.{IsEnd, IsEndOfTask, IsEndOfWords};
ghost use Rattle.rbbank.specs.Statuses.{IsReportedStatus, bank_message_of, status_of_unread};

mod closing;
mod do_words;
mod done;
mod files_on_disk;
mod files_task;
mod joined;
mod journal_inputs;
mod on_disk;
mod patient;
mod same_file;
mod task;
mod why;

use clap::error::ErrorKind;
use do_words::{Ended, do_words};
use patient::Patient;
use rb_lines::{FromReader, ScriptFault, ToWriter, message, status};
use rb_runs::Explained;
use std::alloc::{AllocError, Global};
use std::process::ExitCode;
use std::sync::Wait;
use std::thread::Threads;
use std::{env, io};

/// The status if no world has the histories, or the books can't be closed.
pub(crate) const FAULT_FOUND: u8 = 1;

/// The status if the words are wrong.
const WRONG_WORDS: u8 = 2;

/// The status if memory runs out.
const NO_MEMORY: u8 = 4;

pub(crate) fn out_of_memory(rt: &HostRuntime) -> ExitCode
    ensures { exit_status result ≡ 4 }
{
    let _ = rt.eprintln("rbbank: out of memory");
    ExitCode::from(NO_MEMORY)
}

/// Says this line, if there was memory for it, and ends with this status; else says that memory ran out.
pub(crate) fn print_line(rt: &HostRuntime, line: Result<String, AllocError>, status: u8) -> ExitCode
    ensures { MatchResult line (λ _. exit_status result ≡ status) (λ _. exit_status result ≡ 4) }
{
    match line {
        Ok(line) => {
            let _ = rt.eprintln(line.as_str());
            ExitCode::from(status)
        }
        Err(AllocError) => out_of_memory(rt),
    }
}

/// Says why a script, its histories, an audit, a migration or a run of threads stopped, or that closing the books
/// couldn't write its line.
pub(crate) fn report_fault(rt: &HostRuntime, fault: ScriptFault) -> ExitCode
    ensures { IsReportedStatus (status_of fault) (exit_status result) }
{
    print_line(rt, message(rt.alloc(), fault), status(fault))
}

/// Says, after the line that says which line a run stopped at, why that line is bad.
pub(crate) fn report_why(rt: &HostRuntime, why: Option<String>) {
    if let Some(why) = why {
        let _ = rt.eprintln(why.as_str());
    }
}

/// Writes help or the version, which was asked for, to standard output.
fn show(rt: &HostRuntime, asked: &clap::Error) -> ExitCode
    ensures { (exit_status result ≡ 0) ⊎ IsReportedStatus (status_of NotWritten) (exit_status result) }
{
    if rt.print(asked).is_err() {
        return report_fault(rt, ScriptFault::Write);
    }
    ExitCode::SUCCESS
}

/// Says what is wrong with the words. Help or the version that was asked for goes to standard output, and nothing is
/// wrong if it is written.
fn report_words(rt: &HostRuntime, error: clap::Error) -> ExitCode
    ensures { IsEndOfWords (kind_of error) (exit_status result) }
{
    match error.kind() {
        ErrorKind::OutOfMemory => out_of_memory(rt),
        ErrorKind::DisplayHelp | ErrorKind::DisplayVersion => show(rt, &error),
        _ => {
            let _ = rt.eprint(&error);
            ExitCode::from(WRONG_WORDS)
        }
    }
}

/// Says why the words can't be read: there is no memory, or one of them isn't UTF-8.
fn report_unread(rt: &HostRuntime, error: io::Error) -> ExitCode
    ensures { exit_status result ≡ status_of_unread (error_kind error) }
{
    match error.kind() {
        io::ErrorKind::OutOfMemory => out_of_memory(rt),
        _ => {
            let _ = rt.eprintln("error: invalid UTF-8 was detected in one or more arguments");
            ExitCode::from(WRONG_WORDS)
        }
    }
}

/// How a task with the lines of standard input, or a run of threads, ends the program.
pub(crate) fn end_of_task(rt: &HostRuntime, ran: Result<bool, ScriptFault>) -> ExitCode
    ensures { IsEndOfTask ran (exit_status result) }
{
    match ran {
        Ok(true) => ExitCode::SUCCESS,
        Ok(false) => ExitCode::from(FAULT_FOUND),
        Err(fault) => report_fault(rt, fault),
    }
}

/// The text about a name that no bank may have.
fn bank_message(alloc: Global, name: &str) -> Result<String, AllocError>
    ensures { IfOk result (λ text. string_bytes text ≡ bank_message_of name.now) }
{
    format!(in alloc; "rbbank: bank {name}: 1 to 64 of A-Z a-z 0-9 . _ : -")
}

/// Says that no bank may have the name.
pub(crate) fn report_bank(rt: &HostRuntime, name: &str) -> ExitCode
    ensures { IsReportedStatus 2 (exit_status result) }
{
    print_line(rt, bank_message(rt.alloc(), name), WRONG_WORDS)
}

/// Does what the words ask for, between standard input and output. The handle starts threads, and waits for them.
fn run<H: Threads + Wait + Sync>(rt: &HostRuntime, handle: &H) -> ExitCode
    ensures { IsEnd (exit_status result) }
{
    let alloc = rt.alloc();
    let given = match env::args(rt) {
        Ok(given) => given,
        Err(error) => return report_unread(rt, error),
    };
    let Ok(words) = given.skip(1).collect::<Vec<String>>(alloc) else {
        return out_of_memory(rt);
    };
    let Ok(views) = words
        .iter()
        .map(|word| word.as_str())
        .collect::<Vec<&str>>(alloc)
    else {
        return out_of_memory(rt);
    };
    let mut reader = Explained::new(FromReader::new(Patient::new(*rt, rt.reader())));
    let mut writer = ToWriter::new(io::writer(rt));
    match do_words(rt, handle, views.as_slice(), &mut reader, &mut writer) {
        Ok(Ended { done: _, code }) => code,
        Err(error) => report_words(rt, error),
    }
}

fn main(rt: HostRuntime) -> ExitCode {
    run(&rt, &rt)
}
