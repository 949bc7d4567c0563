//! The command line that the program takes.
ghost use Rattle.std.specs.Prelude.{◌≡◌, ◌≤◌, [], true, IfOk, List, fold, map};
ghost use Rattle.std.specs.List.{list_all};
ghost use Rattle.clap.specs.Words.{Rule, app_of, new_app, rule_of, with_rule};
ghost use Rattle.rb_cli.specs.Words.{IsCommandLine, IsSiteLine, close_line, files_line};
ghost use Rattle.rb_cli.specs.Words.{threads_line, top_line};

use crate::arguments::{files, journals, option, recorded, repeated, switch, with_numbers};
use crate::texts::Texts;
use crate::{MOST_TELLERS, texts};
use clap::{Arg, Command};
use rb_money::{MOST_HISTORY, MOST_SITES};
use std::alloc::{AllocError, Global};

/// The most sites of a bank.
const SITES: u32 = MOST_SITES as u32;

/// A command of the program, with its texts and its options.
fn part<'a>(
    alloc: Global,
    name: &'a str,
    texts: Texts,
    options: Vec<Arg<'a>>,
) -> Result<Command<'a>, AllocError>
    ensures { (rules : List Rule) → map rule_of options.entry.items ≡ rules
        → list_all (λ rule. rule.is_simple) rules ≡ true
        → IfOk result (λ command. app_of command ≡ fold with_rule (new_app name.entry.now) rules) }
{
    Command::new(alloc, name)
        .override_usage(texts.usage)
        .about(texts.about)
        .after_help(texts.help)
        .args(options)
}

/// A command over the lines of standard input, or of up to this many files.
fn task<'a>(
    alloc: Global,
    name: &'a str,
    texts: Texts,
    most: usize,
) -> Result<Command<'a>, AllocError>
    requires { 1 ≤ most }
    ensures { IfOk result (λ command. app_of command ≡ files_line name.entry.now most) }
{
    let options = vec![in alloc; files(alloc, most)]?;
    part(alloc, name, texts, options)
}

/// The command for a run of threads, with its options.
fn threads<'a>(alloc: Global) -> Result<Command<'a>, AllocError>
    ensures { IfOk result (λ command. app_of command ≡ threads_line) }
{
    let sites = option(alloc, "sites", "K", texts::SITES, true);
    let tellers = option(alloc, "tellers", "T", texts::TELLERS, true);
    let seed = option(alloc, "seed", "S", texts::SEED, true);
    let options = vec![in alloc;
        with_numbers(sites, 2, SITES),
        with_numbers(tellers, 1, MOST_TELLERS),
        with_numbers(seed, 0, u32::MAX),
    ]?;
    part(alloc, "threads", texts::THREADS, options)
}

/// The command for one site, with its options.
pub fn site<'a>(alloc: Global) -> Result<Command<'a>, AllocError>
    ensures { IfOk result (λ command. IsSiteLine (app_of command)) }
{
    let me = option(alloc, "me", "S", texts::ME, true);
    let resend = option(alloc, "resend", "N", texts::RESEND, false);
    let options = vec![in alloc;
        with_numbers(me, 0, SITES - 1),
        option(alloc, "journal", "FILE", texts::JOURNAL, true),
        switch(alloc, "new", texts::NEW),
        with_numbers(resend, 0, MOST_HISTORY),
        recorded(alloc),
        option(alloc, "bank", "NAME", texts::BANK, false),
        switch(alloc, "seal", texts::SEAL),
    ]?;
    part(alloc, "site", texts::SITE, options)
}

/// The command that closes the books, with its options and the files after them.
fn close<'a>(alloc: Global) -> Result<Command<'a>, AllocError>
    ensures { IfOk result (λ command. app_of command ≡ close_line) }
{
    let next = option(alloc, "sites", "N", texts::NEXT_SITES, false);
    let account = option(alloc, "account", "NAME", texts::ACCOUNT, false);
    let options = vec![in alloc;
        with_numbers(next, 2, SITES),
        repeated(account),
        journals(alloc),
    ]?;
    part(alloc, "close", texts::CLOSE, options)
}

/// The command line before its commands.
fn top<'a>(alloc: Global) -> Command<'a>
    ensures { app_of result ≡ record { top = top_line; subs = [] } }
{
    Command::new(alloc, "rbbank")
        .about(texts::ABOUT)
        .after_help(texts::EXAMPLES)
        .version(texts::VERSION)
        .no_binary_name(true)
        .subcommand_required(true)
}

/// The command line that the program takes.
pub fn command_line<'a>(alloc: Global) -> Result<Command<'a>, AllocError>
    ensures { IfOk result (λ command. IsCommandLine (app_of command)) }
{
    let parts = vec![in alloc;
        task(alloc, "script", texts::SCRIPT, 1)?,
        task(alloc, "histories", texts::HISTORIES, 1)?,
        task(alloc, "audit", texts::AUDIT, usize::MAX)?,
        task(alloc, "migrate", texts::MIGRATE, 1)?,
        threads(alloc)?,
        site(alloc)?,
        close(alloc)?,
    ]?;
    top(alloc).subcommands(parts)
}
