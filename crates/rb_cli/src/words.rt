//! The request of a command line.
ghost use Rattle.std.specs.Prelude.{◌≡◌, codes, map, option_map, IfErr, IfOk, IfSome, IsSome, Some};
ghost use Rattle.clap.specs.Words.{FailsBy, found_of, kind_of, rows_of, subcommand_rows_of};
ghost use Rattle.clap.specs.declared.error.kind.ErrorKind.TheVariants.{ArgumentConflict, OutOfMemory};
ghost use Rattle.rb_cli.specs.Words.{AreFit, AreReadAs, Ask, FailsByWords, FitsWithin, HasSwitchWord, IsAsUsual};
ghost use Rattle.rb_cli.specs.Words.{IsInRange, IsMatch, as_asked, choice_at, close_asked, conflict_of};
ghost use Rattle.rb_cli.specs.Words.{names_bank_to_seal, number_at, record_of, seals_bank, site_asked};
ghost use Rattle.rb_cli.specs.Words.{switch_at, texts_at, threads_asked, words_of_command};
ghost use Rattle.rb_cli.specs.Words.{words_of_matches};

use crate::command_line::{command_line, site as site_line};
use crate::{Record, texts};
use clap::error::ErrorKind;
use clap::{ArgMatches, Error};
use std::alloc::{AllocError, Global};

/// The most tellers of a run.
pub const MOST_TELLERS: u32 = 64;

/// A request to the program. The first four are done with the lines of these files, or of standard input if there is
/// none.
#[derive(Debug, Drop, PartialEq, Eq)]
pub enum Words<'a> {
    /// To answer the script.
    Script(Vec<&'a str>),
    /// To run the script, and write the histories of its sites.
    Histories(Vec<&'a str>),
    /// To audit the histories.
    Audit(Vec<&'a str>),
    /// To write the histories again, in the newest version of their lines.
    Migrate(Vec<&'a str>),
    /// To run 1 to `MOST_TELLERS` tellers at 2 to `MOST_SITES` sites. The first numbers of the tellers begin at the
    /// seed.
    Threads {
        sites: u8,
        tellers: u8,
        seed: u32,
    },
    /// To run this site, 0 to `MOST_SITES` - 1, whose history is kept in this file, which is made if it is a new one.
    /// The messages of its last `resend` entries, 0 to `MOST_HISTORY`, are written again first, or those of all. It
    /// records the events that `record` says. `bank` is the word given as the bank's name, whatever it is, if any is.
    Site {
        me: u8,
        journal: &'a str,
        is_new: bool,
        resend: Option<u32>,
        record: Record,
        bank: Option<&'a str>,
    },
    /// To seal the history that this site keeps in this file. No event is read.
    Seal {
        me: u8,
        journal: &'a str,
    },
    /// To close the books by the histories in these files, one or more, for a next bank of 2 to `MOST_SITES` sites, or
    /// of as many as before, with these accounts after the others.
    Close {
        sites: Option<u8>,
        accounts: Vec<&'a str>,
        journals: Vec<&'a str>,
    },
}

/// The number of an option, if it is given.
fn number(given: &ArgMatches, name: &str) -> Option<u32>
    requires { FitsWithin 0 4294967295 name.now (rows_of (found_of given.now)) }
    ensures { result ≡ number_at name.now (rows_of (found_of given.now)) }
{
    given.get_one(name)
}

/// Whether a switch is given.
fn switch(given: &ArgMatches, name: &str) -> bool
    requires { HasSwitchWord name.now (rows_of (found_of given.now)) }
    ensures { result ≡ switch_at name.now (rows_of (found_of given.now)) }
{
    given.get_flag(name)
}

/// Which events are recorded by the option's word.
fn record_named(word: &str) -> Record
    ensures { result ≡ record_of word.now }
{
    if word == "all" {
        Record::All
    } else {
        Record::Changes
    }
}

/// Which events are recorded, by the option for it or without it.
fn recorded(given: &ArgMatches) -> Record
    ensures { result ≡ choice_at (rows_of (found_of given.now)) }
{
    match given.get_str("record") {
        Some(word) => record_named(word),
        None => Record::Changes,
    }
}

/// The values of an option that may be given again, or of the words after the options, in order.
fn texts<'a>(alloc: Global, given: &ArgMatches<'a>, name: &str) -> Result<Vec<&'a str>, AllocError>
    ensures { IfOk result
        (λ texts. map (λ text. text.now) texts.items ≡ texts_at name.now (rows_of (found_of given.now))) }
{
    match given.get_strs(name) {
        Some(texts) => texts.to_vec(alloc),
        None => Ok(Vec::new(alloc)),
    }
}

/// The run of threads that its options ask for.
fn threads<'a>(given: &ArgMatches<'a>) -> Option<Words<'a>>
    requires { AreFit (codes "threads") (rows_of (found_of given.now)) }
    ensures { option_map as_asked result ≡ threads_asked (rows_of (found_of given.now)) }
{
    let sites = number(given, "sites")?;
    let tellers = number(given, "tellers")?;
    let seed = number(given, "seed")?;
    Some(Words::Threads {
        sites: sites as u8,
        tellers: tellers as u8,
        seed,
    })
}

/// The request of the options of `site`. With the switch for it the history is sealed, whatever else is given.
fn site<'a>(given: &ArgMatches<'a>) -> Option<Words<'a>>
    requires { AreFit (codes "site") (rows_of (found_of given.now)) }
    ensures { option_map as_asked result ≡ site_asked (rows_of (found_of given.now)) }
{
    let me = number(given, "me")?;
    let journal = given.get_str("journal")?;
    if switch(given, "seal") {
        return Some(Words::Seal {
            me: me as u8,
            journal,
        });
    }
    let is_new = switch(given, "new");
    let resend = number(given, "resend");
    let record = recorded(given);
    let bank = given.get_str("bank");
    Some(Words::Site {
        me: me as u8,
        journal,
        is_new,
        resend,
        record,
        bank,
    })
}

/// The books to close that the options and the words after them ask for.
fn close<'a>(alloc: Global, given: &ArgMatches<'a>) -> Result<Option<Words<'a>>, AllocError>
    requires { AreFit (codes "close") (rows_of (found_of given.now)) }
    ensures { IfOk result
        (λ words. option_map as_asked words ≡ Some (close_asked (rows_of (found_of given.now)))) }
{
    let sites = number(given, "sites").map(|n| n as u8);
    let accounts = texts(alloc, given, "account")?;
    let journals = texts(alloc, given, "journals")?;
    Ok(Some(Words::Close {
        sites,
        accounts,
        journals,
    }))
}

/// Whether the options of `site` name a bank to a seal.
fn names_bank_to_seal(given: &ArgMatches) -> bool
    requires { AreFit (codes "site") (rows_of (found_of given.now)) }
    ensures { result ≡ names_bank_to_seal (rows_of (found_of given.now)) }
{
    match given.get_str("bank") {
        Some(_) => switch(given, "seal"),
        None => false,
    }
}

/// Whether the command of this name, with its options, names a bank to a seal.
fn seals_bank(name: &str, given: &ArgMatches) -> bool
    requires { AreFit name.now (rows_of (found_of given.now)) }
    ensures { result ≡ seals_bank (Some (name.now, rows_of (found_of given.now))) }
{
    match name {
        "site" => names_bank_to_seal(given),
        _ => false,
    }
}

/// The error of words that name a bank to a seal, in the form of the errors of the command line.
fn conflict(alloc: Global) -> Result<Error, AllocError>
    ensures { IfOk result (λ e. kind_of e ≡ ArgumentConflict) }
{
    let mut site = site_line(alloc)?;
    site.error(ErrorKind::ArgumentConflict, texts::CONFLICT)
}

/// The request of the command of this name, with its options. `None` if there is no such command.
fn asked_of<'a>(
    alloc: Global,
    name: &str,
    given: &ArgMatches<'a>,
) -> Result<Option<Words<'a>>, AllocError>
    requires { AreFit name.now (rows_of (found_of given.now)) }
    ensures { IfOk result
        (λ asked. option_map as_asked asked ≡ words_of_command name.now (rows_of (found_of given.now))) }
{
    match name {
        "script" => Ok(Some(Words::Script(texts(alloc, given, "files")?))),
        "histories" => Ok(Some(Words::Histories(texts(alloc, given, "files")?))),
        "audit" => Ok(Some(Words::Audit(texts(alloc, given, "files")?))),
        "migrate" => Ok(Some(Words::Migrate(texts(alloc, given, "files")?))),
        "threads" => Ok(threads(given)),
        "site" => Ok(site(given)),
        "close" => close(alloc, given),
        _ => Ok(None),
    }
}

/// The request of the command that was met, with its options. It is refused if it names a bank to a seal.
fn asked_by<'a>(alloc: Global, matches: &ArgMatches<'a>) -> Result<Words<'a>, Error>
    requires asks { IsSome (words_of_matches (subcommand_rows_of matches.now)) }
    requires fit { IfSome (subcommand_rows_of matches.now) (λ met. AreFit met.0 met.1) }
    ensures ok { IfOk result (λ asked. Some (as_asked asked) ≡ words_of_matches (subcommand_rows_of matches.now)) }
    ensures kinds { FailsBy (conflict_of (subcommand_rows_of matches.now)) result }
{
    let Some((name, given)) = matches.subcommand() else {
        unreachable!()
    };
    if seals_bank(name, given) {
        return Err(conflict(alloc)?);
    }
    match asked_of(alloc, name, given)? {
        Some(asked) => Ok(asked),
        None => unreachable!(),
    }
}

/// What the command line finds in the words after the program's name: one of its commands, with the options that it
/// needs.
fn matched<'a>(alloc: Global, words: &'a [&'a str]) -> Result<ArgMatches<'a>, Error>
    ensures { IsMatch (map (λ word. word.now) words.entry.now) result }
{
    let command = command_line(alloc)?;
    command.try_get_matches_from(words)
}

/// The request of the words after the program's name. The error has the text to show: `ErrorKind::DisplayHelp` is help
/// that was asked for, `ErrorKind::DisplayVersion` the version.
pub fn read_words<'a>(alloc: Global, words: &'a [&'a str]) -> Result<Words<'a>, Error>
    // The words as the command line reads them.
    ensures ok { IfOk result (AreReadAs (map (λ word. word.now) words.entry.now)) }
    ensures ranges { IfOk result (λ asked. IsInRange (as_asked asked)) }
    // Ok comes only for words that the command line takes and that name no bank to a seal, and an error's kind is what
    // is wrong with the words, or out of memory: help and the version only if they ask for it.
    ensures kinds { FailsByWords (map (λ word. word.now) words.entry.now) result }
    // Words that ask for something, each option's name and value in a word of its own, are read as that, and refused
    // for want of memory alone.
    ensures usual { IfOk result (IsAsUsual (map (λ word. word.now) words.entry.now)) }
    ensures err { IfErr result
        (λ e. (asked : Words) → Ask (map (λ word. word.now) words.entry.now) asked → kind_of e ≡ OutOfMemory) }
{
    let matches = matched(alloc, words)?;
    asked_by(alloc, &matches)
}
