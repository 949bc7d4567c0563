//! The trait of a type that answers the lines of a run.
ghost use Rattle.std.specs.Prelude.{◌≡◌, ◌∷◌, ◌++◌, ◌^◌, ◌<◌, ◌≤◌, ℕ, List, length, MatchResult, OnOk};
ghost use Rattle.rb_lines.specs.Answers.{AnswersLine, EndsAtLine, EndsWith, IsRunState, RunState};
ghost use Rattle.rb_lines.specs.declared.limits.TheConstants.{LINE_LIMIT};

use crate::fault::ScriptFault;
use std::alloc::Global;

/// A type that answers the lines of a run, one after another.
pub trait Responder {
    // The outcome of the lines to come, the number of the first of them, and how many were answered.
    ghost state: { Self → RunState };

    // The kind of value that lines make of a responder, beside their answers, and the value that they make of it.
    ghost Made: { Type 0 } = { Unit {0} };

    ghost made: { Self → List (List ℕ) → Made };

    /// The number of the next line, from 1.
    fn number(&self) -> u64
        ensures { result ≡ (state self.now).number };

    /// Takes one line, which isn't too long, and adds its answer to `buffered`. An `Err` adds nothing, and the run ends
    /// with it.
    fn answer_line(
        &mut self,
        alloc: Global,
        line: &[u8],
        buffered: &mut Vec<u8>,
    ) -> Result<(), ScriptFault>
        requires short { length line.now ≤ LINE_LIMIT }
        requires number { (state self.old).number < 2 ^ 63 }
        requires count { (state self.old).count < 2 ^ 63 }
        ensures answered { MatchResult result
            (λ _. (text : List ℕ) × (buffered.new.items ≡ buffered.old.items ++ text)
            × AnswersLine (state self.old) (state self.new) line.now text)
            (λ fault. (buffered.new.items ≡ buffered.old.items) × EndsAtLine (state self.old) line.now fault) }
        ensures made { OnOk result ((ls : List (List ℕ)) → made self.old (line.now ∷ ls) ≡ made self.new ls) };

    /// The end of the lines: how many were answered, or that there was no configuration.
    fn end(&self) -> Result<u64, ScriptFault>
        ensures { EndsWith (state self.now) result };

    // A line that is too long ends the run, and no line is no text and no bad line.
    ghost is_run_state: { (s : Self) → IsRunState (state s) };
}
