//! The options of the commands.
ghost use Rattle.std.specs.Prelude.{◌≡◌, ◌≤◌, None, codes, pos};
ghost use Rattle.clap.specs.Words.{rule_of};
ghost use Rattle.clap.specs.declared.builder.action.ArgAction.TheVariants.{Append};
ghost use Rattle.clap.specs.declared.builder.value_parser.ValueParser.TheVariants.{Signed};
ghost use Rattle.rb_cli.specs.Words.{IsRecordRule, files_rule, option_rule, repeated_rule, switch_rule, values_rule};
ghost use Rattle.rb_cli.specs.Words.{within};

use crate::texts;
use clap::builder::ValueParser;
use clap::{Arg, ArgAction, value_parser};
use std::alloc::Global;

/// An option with one value, which may have to be given.
pub fn option<'a>(
    alloc: Global,
    name: &'a str,
    value: &'a str,
    help: &'a str,
    required: bool,
) -> Arg<'a>
    ensures { rule_of result ≡ option_rule name.entry.now None required }
{
    Arg::new(alloc, name)
        .long(name)
        .value_name(value)
        .help(help)
        .required(required)
}

/// The numbers from the least to the most.
fn numbers<'a>(least: u32, most: u32) -> ValueParser<'a>
    ensures { result ≡ Signed (pos least) (pos most) }
{
    value_parser!(u32).range(least as i64..=most as i64)
}

/// The option with numbers from the least to the most.
pub fn with_numbers<'a>(option: Arg<'a>, least: u32, most: u32) -> Arg<'a>
    ensures { rule_of result ≡ record (rule_of option.entry) { parser = within least most } }
{
    option.value_parser(numbers(least, most))
}

/// The option, which may be given any number of times.
pub fn repeated<'a>(option: Arg<'a>) -> Arg<'a>
    ensures { rule_of result ≡ record (rule_of option.entry) { action = Some Append } }
{
    option.action(ArgAction::Append)
}

/// An option without a value.
pub fn switch<'a>(alloc: Global, name: &'a str, help: &'a str) -> Arg<'a>
    ensures { rule_of result ≡ switch_rule name.entry.now }
{
    Arg::new(alloc, name)
        .long(name)
        .help(help)
        .action(ArgAction::SetTrue)
}

/// The files that the sites' histories are kept in.
pub fn journals<'a>(alloc: Global) -> Arg<'a>
    ensures { rule_of result ≡ values_rule (codes "journals") }
{
    Arg::new(alloc, "journals")
        .value_name("JOURNAL")
        .help(texts::JOURNALS)
        .required(true)
        .num_args(1..)
}

/// Up to this many files, whose lines are taken in place of standard input.
pub fn files<'a>(alloc: Global, most: usize) -> Arg<'a>
    requires some { 1 ≤ most }
    ensures rule { rule_of result ≡ files_rule most }
{
    Arg::new(alloc, "files")
        .value_name("FILE")
        .help(texts::FILES)
        .num_args(1..=most)
}

/// Which events the site records.
pub fn recorded<'a>(alloc: Global) -> Arg<'a>
    ensures { IsRecordRule (rule_of result) }
{
    let words: &'a [&'a str] = &["changes", "all"];
    let option = option(alloc, "record", "WHICH", texts::RECORD, false);
    option
        .value_parser(ValueParser::Names(words))
        .hide_possible_values(true)
}
