//! A bank: all sites of a configuration with their messages.
ghost use Rattle.std.specs.Prelude.{◌≡◌, ◌≢◌, ◌⊎◌, ◌↔◌, None, Some, MatchResult, pos};
ghost use Rattle.rb_money.specs.Settings.{Settings};
ghost use Rattle.rb_site.specs.declared.world_event.WorldEvent.{WorldEvent as CommandOf};
ghost use Rattle.rb_history.specs.declared.fault.LineFault.TheVariants.{Bad};
ghost use Rattle.rb_history.specs.Configurations.{config_on};
ghost use Rattle.rb_history.specs.OnLines.{command_on};
ghost use Rattle.rb_capi.specs.Banks.{SeenBank, first_bank, kept_answer, next_bank};
ghost use Rattle.rb_capi.specs.Copies.{Copies};

use crate::copy::copy_text;
use crate::handles::{BankHandle, Handle};
use crate::statuses::{BAD_LINE, NO_MEMORY, NONE, OK};
use rb_history::{LineFault, append_reply, open_command, open_config};
use rb_world::{LeanWorld, WorldEvent};
use std::alloc::Global;
use std::marker::Model;

/// What a `BankHandle` keeps: the sites of a bank with their messages, and the line of the last answer.
pub struct Bank {
    world: LeanWorld,
    answer: Vec<u8>,
}

impl Model for Bank {
    ghost use Rattle.rb_capi.specs.Banks.{SeenBank};

    ghost Value = { SeenBank };

    ghost view = { λ b. record { world = b.world; answer = b.answer.items } };
}

impl Drop for Bank {
    fn drop(self) {
        let Bank { world, answer: _ } = self;
        let _reports = world.close();
    }
}

/// The bank of the configuration on a line, before any event.
fn open(alloc: Global, config: &[u8]) -> Result<Bank, LineFault>
    ensures { MatchResult result
        (λ bank. (s : Settings) × (config_on config.now ≡ Some s) × (bank ≡ first_bank s))
        (λ why. why ≡ Bad → config_on config.now ≡ None) }
{
    let config = open_config(alloc, config)?;
    match LeanWorld::open_keeping(alloc, config) {
        Ok(world) => Ok(Bank {
            world,
            answer: Vec::new(alloc),
        }),
        Err(_) => Err(LineFault::OutOfMemory),
    }
}

impl Bank {
    /// Gives the bank the command on a line, and keeps the line of its reply.
    fn answer_line(&mut self, alloc: Global, line: &[u8]) -> Result<(), LineFault>
        ensures { MatchResult result
            (λ _. (command : CommandOf) × (command_on self.old.world.settings line.now ≡ Some command)
            × (self.new ≡ next_bank self.old command))
            (λ why. why ≡ Bad → (command_on self.old.world.settings line.now ≡ None) × (self.new ≡ self.old)) }
    {
        let mut command = WorldEvent::Deliver(0, 0);
        open_command(alloc, self.world.config(), line, &mut command)?;
        let Ok(reply) = self.world.step(command) else {
            return Err(LineFault::OutOfMemory);
        };
        self.answer.clear();
        match append_reply(&mut self.answer, &reply) {
            Ok(()) => Ok(()),
            Err(_) => Err(LineFault::OutOfMemory),
        }
    }
}

/// Opens the bank of the configuration on a line, before any event. A bank that was kept there before is ended.
///
/// Statuses: 0; 2 if the line is no configuration; 4 for want of memory. After 2 and 4 there is no bank.
#[unsafe(no_mangle)]
pub extern "C" fn rbbank_open(alloc: Global, bank: &mut BankHandle, config: &[u8]) -> i32
    ensures opened { result ≡ pos 0 → (s : Settings) × (config_on config.now ≡ Some s)
        × (bank.new.value ≡ Some (first_bank s)) }
    ensures bad { result ≡ pos 2 → config_on config.now ≡ None }
    ensures empty { result ≢ pos 0 → bank.new.value ≡ None }
    ensures statuses { (result ≡ pos 0) ⊎ ((result ≡ pos 2) ⊎ (result ≡ pos 4)) }
{
    bank.clear(alloc);
    let opened = match open(alloc, config) {
        Ok(opened) => opened,
        Err(LineFault::Bad) => return BAD_LINE,
        Err(LineFault::OutOfMemory) => return NO_MEMORY,
    };
    match Box::new(alloc, opened) {
        Ok(opened) => {
            bank.put(opened);
            OK
        }
        Err(_) => NO_MEMORY,
    }
}

/// Gives the bank the command on a line, and keeps the line of its reply, with its line feed, as the answer.
///
/// Statuses: 0; 1 if there is no bank; 2 if the line is no command, and then nothing has changed, the kept answer
/// included; 4 for want of memory, which ends the bank.
#[unsafe(no_mangle)]
pub extern "C" fn rbbank_answer(alloc: Global, bank: &mut BankHandle, line: &[u8]) -> i32
    ensures answered { result ≡ pos 0 → (old : SeenBank) × (command : CommandOf) × (bank.old.value ≡ Some old)
        × (command_on old.world.settings line.now ≡ Some command) × (bank.new.value ≡ Some (next_bank old command)) }
    ensures none { (result ≡ pos 1) ↔ (bank.old.value ≡ None) }
    ensures bad { result ≡ pos 2 → (old : SeenBank) × (bank.old.value ≡ Some old)
        × (command_on old.world.settings line.now ≡ None) × (bank.new.value ≡ bank.old.value) }
    ensures ended { result ≡ pos 4 → bank.new.value ≡ None }
    ensures still_none { bank.old.value ≡ None → bank.new.value ≡ None }
    ensures statuses { (result ≡ pos 0) ⊎ ((result ≡ pos 1) ⊎ ((result ≡ pos 2) ⊎ (result ≡ pos 4))) }
{
    let Some(mut kept) = bank.take(alloc) else {
        return NONE;
    };
    match kept.answer_line(alloc, line) {
        Ok(()) => {
            bank.put(kept);
            OK
        }
        Err(LineFault::Bad) => {
            bank.put(kept);
            BAD_LINE
        }
        Err(LineFault::OutOfMemory) => NO_MEMORY,
    }
}

/// Copies the kept answer to the beginning of `out`, as much of it as fits: how many bytes the whole answer has. That
/// is 0 if there is no bank or nothing was answered.
#[unsafe(no_mangle)]
pub extern "C" fn rbbank_reply(alloc: Global, bank: &mut BankHandle, out: &mut [u8]) -> usize
    ensures copied { Copies (kept_answer bank.old.value) out.old out.new result }
    ensures same { bank.new.value ≡ bank.old.value }
{
    let Some(kept) = bank.take(alloc) else {
        return copy_text(&[], out);
    };
    let n = copy_text(kept.answer.as_slice(), out);
    bank.put(kept);
    n
}

/// Ends the bank, if there is one.
#[unsafe(no_mangle)]
pub extern "C" fn rbbank_close(alloc: Global, bank: &mut BankHandle)
    ensures { bank.new.value ≡ None }
{
    bank.clear(alloc);
}
