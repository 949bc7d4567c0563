//! Tests of worlds, and of undoing a tail of operations. `whole_run` (refused.rt) runs each worked row by `World::run`,
//! and tests/cases.py by the program.
ghost use Rattle.std.specs.Prelude.{◌≡◌, ◌<◌, All, IfOk, IsTrue, length};
ghost use Rattle.rb_ledger.specs.Records.{records_of};
ghost use Rattle.rb_site.specs.Worlds.{IsCommand};

use crate::checks::holds;
use crate::rows::row_named;
use rb_history::{LineFault, open_command, read_config, write_reply};
use rb_ledger::Ledger;
use rb_money::{Config, Place};
use rb_shadow::Shadow;
use rb_site::{Reply, WorldEvent};
use rb_undo::{UndoLog, UndoParts};
use rb_world::World;
use std::alloc::{AllocError, Global};
use std::test::Fail;

/// The commands on the lines after the configuration's, read as the program reads a script's.
fn commands(alloc: Global, config: &Config, script: &str) -> Result<Vec<WorldEvent>, LineFault>
    ensures { IfOk result (λ events. All IsCommand events.items) }
{
    let mut events = Vec::new(alloc);
    for line in script.lines().skip(1) {
        let mut event = WorldEvent::Deliver(0, 0);
        open_command(alloc, config, line.as_bytes(), &mut event)?;
        match events.push(event) {
            Ok(()) => {}
            Err(_) => return Err(LineFault::OutOfMemory),
        }
    }
    Ok(events)
}

/// The configuration on the first line.
pub fn config_of(alloc: Global, script: &str) -> Result<Config, LineFault> {
    let first = script.lines().next().ok_or(LineFault::Bad)?;
    read_config(alloc, first)
}

/// The world of a script before any event, and its events.
pub fn opened(alloc: Global, script: &str) -> Result<(World, Vec<WorldEvent>), LineFault>
    ensures { IfOk result (λ it. All IsCommand it.1.items) }
{
    let config = config_of(alloc, script)?;
    let events = commands(alloc, &config, script)?;
    Ok((World::open(alloc, config)?, events))
}

/// The lines of replies.
pub fn text_of(alloc: Global, replies: &[Reply]) -> Result<String, AllocError> {
    let mut text = String::new(alloc);
    for reply in replies {
        text.push_str(write_reply(alloc, reply)?.as_str())?;
    }
    Ok(text)
}

/// The entry at a position, its record, how often it is cancelled, and the first that cancels it.
type Answers = (Option<Shadow>, Option<UndoParts>, Option<u32>, Option<u32>);

fn answers_at(ledger: &Ledger, position: u32) -> Answers {
    (
        ledger.entry(position),
        ledger.record(position),
        ledger.count(position),
        ledger.first_cancel(position),
    )
}

/// The balance as of a position, if there is one, and the cents that its operation moved.
fn balance_at(ledger: &Ledger, position: u32, place: Place) -> (Option<u64>, Option<i64>) {
    let then = if position <= ledger.len() {
        ledger.balance_after(position, place)
    } else {
        None
    };
    (then, ledger.moved(position, place))
}

/// Whether two ledgers answer each look-up of a position alike.
fn same_at(ledger: &Ledger, other: &Ledger, position: u32) -> bool {
    let mut same = answers_at(ledger, position) == answers_at(other, position);
    for number in 0..3u16 {
        let place = Place(number);
        same = same & (balance_at(ledger, position, place) == balance_at(other, position, place));
    }
    same
}

/// Whether two ledgers answer each look-up alike.
pub fn same_answers(ledger: &Ledger, other: &Ledger) -> bool {
    let mut same = (ledger.len() == other.len())
        & (ledger.clock().deps() == other.clock().deps())
        & (ledger.red_row() == other.red_row());
    for number in 0..3u8 {
        let place = Place(u16::from(number));
        same = same
            & (ledger.balance(place) == other.balance(place))
            & (ledger.blue_row(number) == other.blue_row(number));
    }
    for position in 0..ledger.len() + 2 {
        same = same & same_at(ledger, other, position);
    }
    same
}

/// Applies operations. Whether none was refused.
fn applied(ledger: &mut Ledger, shadows: &[Shadow]) -> bool {
    for shadow in shadows {
        match ledger.apply(*shadow) {
            Ok(undo) => undo.seal(),
            Err(_) => return false,
        }
    }
    true
}

/// Whether a ledger answers as one that applied just as many of the operations.
fn is_after(alloc: Global, ledger: &Ledger, shadows: &[Shadow]) -> bool {
    let prefix = shadows.get(..ledger.len() as usize).unwrap_or(&[]);
    match Ledger::open(alloc, ledger.config()) {
        Ok(mut other) => applied(&mut other, prefix) && same_answers(ledger, &other),
        Err(_) => false,
    }
}

/// Applies an operation, and keeps the record to undo it. Whether neither was refused.
pub fn apply_next(ledger: &mut Ledger, log: &mut UndoLog, shadow: &Shadow) -> bool
    requires { log.old.parts ≡ records_of ledger.old.settings ledger.old.entries }
    ensures { IsTrue result → log.new.parts ≡ records_of ledger.new.settings ledger.new.entries }
{
    let Ok(undo) = ledger.apply(*shadow) else {
        return false;
    };
    if let Err(undo) = log.push(undo) {
        undo.seal();
        return false;
    }
    true
}

/// Applies operations, and keeps the record to undo each. Whether none was refused.
fn apply_all(ledger: &mut Ledger, log: &mut UndoLog, shadows: &[Shadow]) -> bool
    requires { log.old.parts ≡ records_of ledger.old.settings ledger.old.entries }
    ensures { IsTrue result → log.new.parts ≡ records_of ledger.new.settings ledger.new.entries }
{
    'shadows: for shadow in shadows {
        if !apply_next(ledger, log, shadow) {
            return false;
        }
    }
    true
}

/// Undoes the last operation, if there is one. Whether there was.
pub fn undo_last(ledger: &mut Ledger, log: &mut UndoLog) -> bool
    requires { log.old.parts ≡ records_of ledger.old.settings ledger.old.entries }
    ensures records { log.new.parts ≡ records_of ledger.new.settings ledger.new.entries }
    ensures shorter { IsTrue result → length log.new.parts < length log.old.parts }
{
    match log.pop() {
        Some(undo) => {
            ledger.undo(undo);
            true
        }
        None => false,
    }
}

/// Undoes all operations backwards. Whether at each length the ledger answers as one that applied no
/// more.
fn undo_all(alloc: Global, ledger: &mut Ledger, log: &mut UndoLog, shadows: &[Shadow]) -> bool
    requires { log.old.parts ≡ records_of ledger.old.settings ledger.old.entries }
{
    let mut same = true;
    'undos: while undo_last(ledger, log) {
        same = same & is_after(alloc, ledger, shadows);
    }
    same & ledger.is_empty()
}

/// Whether a ledger with these operations answers, at each length on the way back, as one that applied
/// no more.
fn there_and_back(alloc: Global, config: &Config, shadows: &[Shadow]) -> Result<bool, AllocError> {
    let mut ledger = Ledger::open(alloc, config)?;
    let mut log = UndoLog::new(alloc);
    let same = apply_all(&mut ledger, &mut log, shadows)
        && undo_all(alloc, &mut ledger, &mut log, shadows);
    log.close();
    Ok(same)
}

/// The operations that site 0 applied in a script.
pub fn applied_at_first(alloc: Global, script: &str) -> Result<Vec<Shadow>, LineFault> {
    let (mut world, events) = opened(alloc, script)?;
    let ran = world.run(events.as_slice()).is_ok();
    let reports = world.close();
    match reports.first() {
        Some(report) if ran => Ok(report.entries.copy_from(alloc, 0)?),
        _ => Err(LineFault::OutOfMemory),
    }
}

#[test]
fn tail_back(rt: HostRuntime) -> Result<(), Fail> {
    let alloc = rt.alloc();
    for name in [
        "two_cancels_of_one_withdrawal",
        "cancelled_deposit_later",
        "batch_all_or_nothing",
        "interest_stays",
        "transfer_and_cancel",
    ] {
        let script = row_named(name)?.script;
        let applied = applied_at_first(alloc, script)?;
        let config = config_of(alloc, script)?;
        holds(
            &rt,
            name,
            there_and_back(alloc, &config, applied.as_slice())?,
        );
        holds(&rt, name, !applied.is_empty());
    }
    Ok(())
}
