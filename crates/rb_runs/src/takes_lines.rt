//! The trait of a type that takes the lines of a run.
ghost use Rattle.std.specs.Prelude.{◌≡◌, ◌++◌, ℕ, List, Option, None, Some, false, MatchResult};
ghost use Rattle.rb_history.specs.declared.fault.LineFault.TheVariants.{Bad};
ghost use Rattle.rb_lines.specs.Answers.{LinesOutcome};
ghost use Rattle.rb_lines.specs.Lines.{is_blank, is_long};
ghost use Rattle.rb_lines.specs.declared.fault.ScriptFault.TheVariants.{BadConfig, BadLine};
ghost use Rattle.rb_runs.specs.TakesLines.{StopsAt, TakesAll, TakesLine};

use rb_history::LineFault;
use rb_money::Config;
use rb_reasons::Expected;
use std::alloc::Global;

/// A type that the configuration of a run opens, and that takes each later line.
pub trait TakesLines {
    // The outcome of the lines to come, the first of which has this number: before the configuration, and once it
    // opened a value.
    ghost rest: { Option Self → ℕ → List (List ℕ) → LinesOutcome };

    // The kind of value that lines make, beside their answers, and the value that they make.
    ghost Made: { Type 0 } = { Unit {0} };

    ghost made: { Option Self → ℕ → List (List ℕ) → Made };

    /// The reader of each later line.
    const EXPECTED: Expected;

    /// Opens the configuration on a line, adds its answer to `buffered`, and says how many that is: 0 or 1. An `Err`
    /// adds nothing.
    fn open(alloc: Global, line: &[u8], buffered: &mut Vec<u8>) -> Result<(Self, u64), LineFault>
        requires short { is_long line.now ≡ false }
        requires some { is_blank line.now ≡ false }
        ensures { MatchResult result
            (λ new. (text : List ℕ) × (buffered.new.items ≡ buffered.old.items ++ text)
            × TakesLine rest made None (Some new.0) line.now text new.1)
            (λ why. (buffered.new.items ≡ buffered.old.items)
            × (why ≡ Bad → StopsAt (rest None) line.now (λ n. BadConfig n))) };

    /// Takes a later line, adds its answer to `buffered`, and says how many that is: 0 or 1. An `Err` adds nothing, and
    /// the run ends with it.
    fn take(&mut self, alloc: Global, line: &[u8], buffered: &mut Vec<u8>) -> Result<u64, LineFault>
        requires short { is_long line.now ≡ false }
        requires some { is_blank line.now ≡ false }
        ensures { MatchResult result
            (λ answers. (text : List ℕ) × (buffered.new.items ≡ buffered.old.items ++ text)
            × TakesLine rest made (Some self.old) (Some self.new) line.now text answers)
            (λ why. (buffered.new.items ≡ buffered.old.items)
            × (why ≡ Bad → StopsAt (rest (Some self.old)) line.now (λ n. BadLine n))) };

    /// The configuration by which it reads.
    fn config(&self) -> &Config;

    /// Ends the value.
    fn close(self);

    ghost takes: { TakesAll rest made };
}
