//! The line of a question, answered.
ghost use Rattle.std.specs.Prelude.{◌≡◌, ◌++◌, Some, None, false, Err, MatchResult, OnErr, OnOk};
ghost use Rattle.std.specs.Str.{is_utf8};
ghost use Rattle.rb_history.specs.Adds.{Adds};
ghost use Rattle.rb_history.specs.declared.question.Question.{Question as TheQuestion};
ghost use Rattle.rb_node.specs.Asked.{without_ids};
ghost use Rattle.rb_node.specs.LineAnswers.{question_on, question_text};

use crate::{Node, Records};
use rb_history::{LineFault, Question, read_question_to};
use rb_lines::{text_on, whole_or_none};
use std::alloc::AllocError;

impl<M: Records> Node<M> {
    /// The question on a line.
    #[tactic(auto, unfolding(crate::specs::LineAnswers::question_on))]
    fn question_of(&self, line: &[u8]) -> Result<Question, LineFault>
        ensures read { MatchResult result
            (λ question. question_on self.now.site.bank line.now ≡ Some question)
            (λ why. why ≡ LineFault.Bad → question_on self.now.site.bank line.now ≡ None) }
        ensures not_text { is_utf8 line.now ≡ false → result ≡ Err LineFault.Bad }
    {
        let text = text_on(line).ok_or(LineFault::Bad)?;
        read_question_to(self.alloc, self.site.bank(), text)
    }

    /// The text of the answer to a question.
    fn append_question_text(&self, out: &mut Vec<u8>, question: Question) -> Result<(), AllocError>
        ensures { Adds result out.old.items out.new.items
            (question_text self.now.site.bank (without_ids self.now.site) question) }
    {
        match question {
            Question::About => self.append_about(out),
            Question::Resend { entries } => self.append_resent(out, entries),
        }
    }

    /// Answers the question on a line.
    ///
    /// Errors: `Bad` if the line isn't a question; `OutOfMemory`. Each leaves the answers as they were.
    pub(crate) fn answer_question(
        &self,
        line: &[u8],
        answers: &mut Vec<u8>,
    ) -> Result<(), LineFault>
        ensures answered { OnOk result ((question : TheQuestion)
            × (question_on self.now.site.bank line.now ≡ Some question) × (answers.new.items ≡ answers.old.items
            ++ question_text self.now.site.bank (without_ids self.now.site) question)) }
        ensures bad { result ≡ Err LineFault.Bad → question_on self.now.site.bank line.now ≡ None }
        ensures not_text { is_utf8 line.now ≡ false → result ≡ Err LineFault.Bad }
        ensures err { OnErr result (answers.new.items ≡ answers.old.items) }
    {
        let question = self.question_of(line)?;
        let before = answers.len();
        let done = self.append_question_text(answers, question);
        Ok(whole_or_none(done, answers, before)?)
    }
}
