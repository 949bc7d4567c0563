//! A site over a file of the operating system.
ghost use Rattle.std.specs.Prelude.{◌≡◌, ◌⊎◌, ◌≤◌, Err, IfOk, IfSome, None, string_bytes, true};
ghost use Rattle.std.specs.Process.{exit_status};
ghost use Rattle.rb_lines.specs.declared.limits.TheConstants.{MOST_READS};
ghost use Rattle.rb_run_site.specs.declared.fault.SiteFault.TheVariants.{Read as NotRead};
ghost use Rattle.rb_history.specs.Ids.{is_id};
ghost use Rattle.rbbank.specs.OnDisk.{IsJournalMessage, IsRunOn, IsSealOn, bank_name_of, fault_of_open, most_of};
ghost use Rattle.rbbank.specs.OnDisk.{run_asked};
ghost use Rattle.rbbank.specs.Statuses.{IsEndOfSite};

use crate::{print_line, report_why};
use rb_cli::Record;
use rb_history::BankName;
use rb_journal::{Disk, OpenError, open_disk};
use rb_lines::Source;
use rb_run_site::{
    AllEvents, Changes, Ran, Records, SiteFault, run_site, seal_site, site_message, site_status,
};
use std::alloc::{AllocError, Global};
use std::io;
use std::io::Stdout;
use std::process::ExitCode;

/// The outcome of a site over a file: the file and standard output, if the file was opened; how many lines were
/// answered, or why the run stopped; and the status that the program ends with.
#[derive(Drop)]
pub struct RanOnDisk {
    pub disk: Option<Disk<HostRuntime, Stdout>>,
    pub ended: Result<u64, SiteFault>,
    pub code: ExitCode,
}

/// Why a journal isn't opened.
fn not_opened(error: &OpenError) -> SiteFault
    ensures { result ≡ fault_of_open error.now }
{
    match error {
        OpenError::NoFile => SiteFault::NoJournal,
        OpenError::NotEmpty => SiteFault::JournalThere,
        OpenError::IsErrors => SiteFault::Journal,
        OpenError::Failed(error) => match error.kind() {
            io::ErrorKind::WouldBlock => SiteFault::InUse,
            io::ErrorKind::OutOfMemory => SiteFault::OutOfMemory,
            _ => SiteFault::Journal,
        },
    }
}

/// The system's error, if it is why a journal isn't opened.
fn system_error(error: &OpenError) -> Option<io::Error> {
    match error {
        OpenError::Failed(error) => Some(*error),
        _ => None,
    }
}

/// The text about a journal that failed: which it is, and why. Only one that is full failed without an error of the
/// system's.
fn journal_message(
    alloc: Global,
    journal: &str,
    why: Option<io::Error>,
) -> Result<String, AllocError>
    ensures { IfOk result (λ text. IsJournalMessage journal.now (string_bytes text)) }
{
    let why = match why {
        Some(why) => why,
        None => io::Error::from(io::ErrorKind::FileTooLarge),
    };
    let reason = format!(in alloc; "{why}")?;
    let mut text = site_message(alloc, SiteFault::Journal)?;
    text.push_str(": ")?;
    text.push_str(journal)?;
    text.push_str(": ")?;
    text.push_str(reason.as_str())?;
    Ok(text)
}

/// How a run of a site over this file ends the program. If the file failed, this is the system's error.
fn end_of_site(
    rt: &HostRuntime,
    journal: &str,
    ended: Result<u64, SiteFault>,
    why: Option<io::Error>,
) -> ExitCode
    ensures { IsEndOfSite ended (exit_status result) }
{
    let alloc = rt.alloc();
    match ended {
        Ok(_) => ExitCode::SUCCESS,
        Err(SiteFault::Journal) => print_line(
            rt,
            journal_message(alloc, journal, why),
            site_status(SiteFault::Journal),
        ),
        Err(fault) => print_line(rt, site_message(alloc, fault), site_status(fault)),
    }
}

/// Says why a journal isn't opened, unless it would be written into the journal.
fn report_unopened(rt: &HostRuntime, journal: &str, error: &OpenError) -> RanOnDisk
    ensures none { result.disk ≡ None }
    ensures ended { result.ended ≡ Err (fault_of_open error.now) }
    ensures status { IsEndOfSite result.ended (exit_status result.code) }
{
    let ended = Err(not_opened(error));
    let code = match error {
        OpenError::IsErrors => ExitCode::from(site_status(SiteFault::Journal)),
        _ => end_of_site(rt, journal, ended, system_error(error)),
    };
    RanOnDisk {
        disk: None,
        ended,
        code,
    }
}

/// How many of the last entries have what they sent put out again: this many, or all.
fn most_resent(resend: Option<u32>) -> usize
    ensures { result ≡ most_of resend }
{
    match resend {
        Some(most) => most as usize,
        None => usize::MAX,
    }
}

/// The bank of this name, or one without a name.
fn bank_named(name: Option<&str>) -> BankName
    requires { IfSome name (λ name. is_id name.now ≡ true) }
    ensures { result ≡ bank_name_of name.entry }
{
    let mut bank = BankName::none();
    if let Some(name) = name {
        bank.set(name);
    }
    bank
}

/// Runs a site of this bank that records the events of `M`, as `run_on_disk` does.
fn run_recording<S: Source, M: Records>(
    rt: &HostRuntime,
    reader: &mut S,
    me: u8,
    journal: &str,
    is_new: bool,
    resend: Option<u32>,
    bank: BankName,
) -> RanOnDisk
    requires { S.calls reader.old ≡ 0 }
    ensures ran { IsRunOn
        (record { all = M.ALL; me = me; bank = bank; most = most_of resend; input = S.remaining reader.old })
        journal.now is_new (S.remaining reader.new) result.disk result.ended }
    ensures unread { result.disk ≡ None → reader.new ≡ reader.old }
    ensures status { IsEndOfSite result.ended (exit_status result.code) }
    ensures read { result.ended ≡ Err NotRead → (S.failed reader.new ≡ true) ⊎ (S.calls reader.new ≡ MOST_READS) }
    ensures calls { S.calls reader.new ≤ MOST_READS }
{
    match open_disk(rt, journal, is_new, rt.stdout()) {
        Ok((disk, bytes)) => {
            let mut why = None;
            let Ran { host, ended } = run_site::<S, Disk<HostRuntime, Stdout>, M>(
                rt.alloc(),
                reader,
                disk,
                bytes,
                me,
                bank,
                most_resent(resend),
                &mut why,
            );
            let code = end_of_site(rt, journal, ended, host.error());
            report_why(rt, why);
            RanOnDisk {
                disk: Some(host),
                ended,
                code,
            }
        }
        Err(error) => report_unopened(rt, journal, &error),
    }
}

/// Runs a site from this reader to standard output, over its journal on the disk, which is made if it is a new one.
/// The messages that its last `resend` entries sent are put out again, or those that all of them sent. All events are
/// recorded, or those that change the site. If its bank has a name, each message has it.
pub fn run_on_disk<S: Source>(
    rt: &HostRuntime,
    reader: &mut S,
    me: u8,
    journal: &str,
    is_new: bool,
    resend: Option<u32>,
    recorded: Record,
    bank: Option<&str>,
) -> RanOnDisk
    requires unread { S.calls reader.old ≡ 0 }
    requires bank { IfSome bank (λ name. is_id name.now ≡ true) }
    ensures ran { IsRunOn (run_asked me resend recorded bank.entry (S.remaining reader.old))
        journal.now is_new (S.remaining reader.new) result.disk result.ended }
    ensures unread { result.disk ≡ None → reader.new ≡ reader.old }
    ensures status { IsEndOfSite result.ended (exit_status result.code) }
    ensures read { result.ended ≡ Err NotRead → (S.failed reader.new ≡ true) ⊎ (S.calls reader.new ≡ MOST_READS) }
    ensures calls { S.calls reader.new ≤ MOST_READS }
{
    let bank = bank_named(bank);
    match recorded {
        Record::Changes => run_recording::<S, Changes>(
            rt, reader, me, journal, is_new, resend, bank,
        ),
        Record::All => run_recording::<S, AllEvents>(rt, reader, me, journal, is_new, resend, bank),
    }
}

/// Seals a site's journal on the disk, which has to be there.
pub fn seal_on_disk(rt: &HostRuntime, me: u8, journal: &str) -> RanOnDisk
    ensures sealed { IsSealOn me journal.now result.disk result.ended }
    ensures status { IsEndOfSite result.ended (exit_status result.code) }
{
    match open_disk(rt, journal, false, rt.stdout()) {
        Ok((disk, bytes)) => {
            let mut why = None;
            let Ran { host, ended } = seal_site(rt.alloc(), disk, bytes, me, &mut why);
            let code = end_of_site(rt, journal, ended, host.error());
            report_why(rt, why);
            RanOnDisk {
                disk: Some(host),
                ended,
                code,
            }
        }
        Err(error) => report_unopened(rt, journal, &error),
    }
}
