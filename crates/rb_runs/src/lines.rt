//! The lines of a run, one at a time: the first that isn't skipped opens a value, which takes each later one.
ghost use Rattle.std.specs.Prelude.{◌≡◌, ◌++◌, ◌+◌, ◌^◌, ◌<◌, List, ℕ, None, Some, false, IfSome, MatchResult, length};
ghost use Rattle.std.specs.Prelude.{string_bytes};
ghost use Rattle.rb_history.specs.declared.fault.LineFault.TheVariants.{Bad, OutOfMemory as NoMemory};
ghost use Rattle.rb_lines.specs.Lines.{is_blank, is_long};
ghost use Rattle.rb_lines.specs.declared.fault.ScriptFault.TheVariants.{BadConfig, OutOfMemory};
ghost use Rattle.rb_reasons.specs.Reasons.{IsReason};
ghost use Rattle.rb_runs.specs.TakesLines.{StopsAt, TakesLine, first_lines};

use crate::takes_lines::TakesLines;
use rb_history::LineFault;
use rb_lines::{Responder, ScriptFault, is_blank};
use rb_money::Config;
use rb_reasons::{Expected, reason_of};
use std::alloc::Global;

/// The state of a run over its lines: what the configuration opened, once there is one, the number of the next line,
/// from 1, the number of answers so far, and the reason of the line that stopped it. It can't be dropped: it is closed,
/// or gives what was opened.
pub struct Lines<T> {
    pub opened: Option<T>,
    pub number: u64,
    pub count: u64,
    pub why: Option<String>,
}

/// Why the reader refused a line, if that is its fault, and memory suffices to say it.
#[inline(never)]
fn reason(
    alloc: Global,
    fault: LineFault,
    expected: Expected,
    config: Option<&Config>,
    line: &[u8],
) -> Option<String>
    ensures { IfSome result (λ s. IsReason (length line.now) (string_bytes s)) }
{
    match fault {
        LineFault::Bad => reason_of(alloc, expected, config, line),
        LineFault::OutOfMemory => None,
    }
}

/// The fault of a run that stops at a line: `wrong` if the line is not what it should be.
fn fault_at(why: LineFault, wrong: ScriptFault) -> ScriptFault
    ensures line { why ≡ Bad → result ≡ wrong }
    ensures memory { why ≡ NoMemory → result ≡ OutOfMemory }
{
    match why {
        LineFault::Bad => wrong,
        LineFault::OutOfMemory => ScriptFault::OutOfMemory,
    }
}

impl<T: TakesLines> Lines<T> {
    /// Before the first line.
    pub fn new() -> Lines<T>
        ensures { result ≡ first_lines }
    {
        Lines {
            opened: None,
            number: 1,
            count: 0,
            why: None,
        }
    }

    /// The run goes on with what the configuration on a line opens, and a value before it is ended. An `Err` buffers
    /// nothing.
    #[inline(never)]
    fn open(&mut self, alloc: Global, line: &[u8], buffered: &mut Vec<u8>) -> Result<(), LineFault>
        requires count { self.old.count < 2 ^ 63 }
        requires short { is_long line.now ≡ false }
        requires some { is_blank line.now ≡ false }
        ensures { MatchResult result
            (λ _. (new : T) × (answers : ℕ)
            × (self.new ≡ record self.old { opened = Some new; count = self.old.count + answers }) × (text : List ℕ)
            × (buffered.new.items ≡ buffered.old.items ++ text)
            × TakesLine T.rest T.made None (Some new) line.now text answers)
            (λ why. (buffered.new.items ≡ buffered.old.items)
            × (why ≡ Bad → StopsAt (T.rest None) line.now (λ n. BadConfig n))) }
    {
        let (opened, answers) = T::open(alloc, line, buffered)?;
        self.count += answers;
        if let Some(before) = self.opened.replace(opened) {
            before.close();
        }
        Ok(())
    }

    /// The value that the configuration opened, if there is one.
    pub fn into_opened(self) -> Option<T>
        ensures { result ≡ self.opened }
    {
        let Lines {
            opened,
            number: _,
            count: _,
            why: _,
        } = self;
        opened
    }

    /// Ends what was opened, and gives the reason of the line that stopped the run.
    pub fn close(self) -> Option<String>
        ensures { result ≡ self.why }
    {
        let Lines {
            opened,
            number: _,
            count: _,
            why,
        } = self;
        if let Some(opened) = opened {
            opened.close();
        }
        why
    }
}

impl<T: TakesLines> Responder for Lines<T> {
    ghost use Rattle.rb_runs.specs.TakesLines.{lines_are_run, lines_state};

    ghost state = { lines_state T.rest };

    ghost Made = { T.Made };

    ghost made = { λ s ls. T.made s.opened s.number ls };

    fn number(&self) -> u64 {
        self.number
    }

    fn answer_line(
        &mut self,
        alloc: Global,
        line: &[u8],
        buffered: &mut Vec<u8>,
    ) -> Result<(), ScriptFault> {
        let number = self.number;
        self.number = number + 1;
        if is_blank(line) {
            return Ok(());
        }
        let Some(opened) = &mut self.opened else {
            let Err(why) = self.open(alloc, line, buffered) else {
                return Ok(());
            };
            self.why = reason(alloc, why, Expected::Config, None, line);
            return Err(fault_at(why, ScriptFault::BadConfig { line: number }));
        };
        match opened.take(alloc, line, buffered) {
            Ok(answers) => self.count += answers,
            Err(why) => {
                self.why = reason(alloc, why, T::EXPECTED, Some(opened.config()), line);
                return Err(fault_at(why, ScriptFault::BadLine { line: number }));
            }
        }
        Ok(())
    }

    fn end(&self) -> Result<u64, ScriptFault> {
        match self.opened {
            Some(_) => Ok(self.count),
            None => Err(ScriptFault::NoConfig),
        }
    }

    ghost is_run_state = { λ s. lines_are_run T.rest T.made T.takes s };
}
