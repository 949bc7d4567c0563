//! Why a line isn't taken, in the program's words.
ghost use Rattle.std.specs.Prelude.{◌≡◌, ◌≢◌, ◌⊎◌, ◌<◌, ◌≤◌, codes, length, None};
ghost use Rattle.rb_history.specs.Configurations.{config_on};
ghost use Rattle.rb_capi.specs.Copies.{Copies};
ghost use Rattle.rb_capi.specs.Why.{TellsWhy, reason_line};
ghost use Rattle.rb_capi.specs.declared.why.TheConstants.{CONFIG, ENTRY};

use crate::copy::copy_text;
use rb_history::{BankName, LineFault, open_config, read_line};
use rb_lines::{LINE_LIMIT, first_feed, text_on};
use rb_money::Config;
use rb_reasons::{Expected, reason_at_site, reason_of};
use std::alloc::Global;

/// A line that should have been a configuration.
pub const CONFIG: u8 = 0;

/// A line that should have been a command of a bank.
pub const COMMAND: u8 = 1;

/// A line that should have been an event of a site, or a question to it.
pub const EVENT: u8 = 2;

/// A line that should have been an entry of a history.
pub const ENTRY: u8 = 3;

/// What is said of a line that is an entry.
pub const OF_ENTRY: &[u8] =
    b"it is an entry: another site's, of an id that is there, or not as a site writes it";

/// Whether a line is an entry, of whichever site, and isn't too long for one.
fn is_entry(alloc: Global, config: &Config, line: &[u8]) -> bool {
    match text_on(line) {
        Some(text) => line.len() <= LINE_LIMIT && read_line(alloc, config, text).is_ok(),
        None => false,
    }
}

/// The first line of a reason, without the two spaces in front of it.
fn reason_line(reason: &[u8]) -> &[u8]
    ensures { result.now ≡ reason_line reason.now }
{
    reason
        .get(2..first_feed(reason).unwrap_or(0))
        .unwrap_or(b"")
}

/// Copies why the reader doesn't take the line, under a configuration if it needs one.
fn copy_reason(
    alloc: Global,
    expected: Expected,
    config: Option<&Config>,
    line: &[u8],
    out: &mut [u8],
) -> usize
    ensures { TellsWhy (length line.now) out.old out.new result }
{
    match reason_of(alloc, expected, config, line) {
        Some(reason) => copy_text(reason_line(reason.as_bytes()), out),
        None => copy_text(b"out of memory", out),
    }
}

/// Copies why a site of the bank doesn't take the line.
fn copy_reason_at_site(alloc: Global, config: &Config, line: &[u8], out: &mut [u8]) -> usize
    ensures { TellsWhy (length line.now) out.old out.new result }
{
    match reason_at_site(alloc, config, &BankName::none(), line) {
        Some(reason) => copy_text(reason.as_bytes(), out),
        None => copy_text(b"out of memory", out),
    }
}

/// Copies why a line wasn't taken to the beginning of `out`, as much of it as fits: how many bytes it has. It is one
/// line, as `column 47: 25 is out of range: ..`; the column counts characters, from 1. `kind` says what the line should
/// have been, and `config` is the line of the bank's configuration, which isn't read if the line should be one.
///
/// The text is `no such kind of line`, `no configuration` or `out of memory` if that is so; of an entry it says why it
/// may be that it isn't taken.
#[unsafe(no_mangle)]
pub extern "C" fn rbbank_error(
    alloc: Global,
    kind: u8,
    config: &[u8],
    line: &[u8],
    out: &mut [u8],
) -> usize
    ensures no_kind { ENTRY < kind → Copies (codes "no such kind of line") out.old out.new result }
    ensures no_config { CONFIG < kind → kind ≤ ENTRY → config_on config.now ≡ None
        → Copies (codes "no configuration") out.old out.new result
        ⊎ Copies (codes "out of memory") out.old out.new result }
    ensures reason { kind ≤ ENTRY → (kind ≡ CONFIG) ⊎ (config_on config.now ≢ None)
        → TellsWhy (length line.now) out.old out.new result }
{
    if kind == CONFIG {
        return copy_reason(alloc, Expected::Config, None, line, out);
    }
    if ENTRY < kind {
        return copy_text(b"no such kind of line", out);
    }
    let config = match open_config(alloc, config) {
        Ok(config) => config,
        Err(LineFault::Bad) => return copy_text(b"no configuration", out),
        Err(LineFault::OutOfMemory) => return copy_text(b"out of memory", out),
    };
    match kind {
        COMMAND => copy_reason(alloc, Expected::Command, Some(&config), line, out),
        EVENT => copy_reason_at_site(alloc, &config, line, out),
        _ if is_entry(alloc, &config, line) => copy_text(OF_ENTRY, out),
        _ => copy_reason(alloc, Expected::Entry, Some(&config), line, out),
    }
}
