//! The answer to a question about the site.
ghost use Rattle.std.specs.Prelude.{◌++◌, codes, decimal, length};
ghost use Rattle.serde_json.specs.Data.{boolean};
ghost use Rattle.serde_json.specs.Written.{compact_text};
ghost use Rattle.rb_shadow.specs.Operations.{clock_of};
ghost use Rattle.rb_node.specs.Asked.{asked_state, without_ids};
ghost use Rattle.rb_history.specs.Adds.{Adds};
ghost use Rattle.rb_history.specs.Entries.{deps_json};
ghost use Rattle.rb_history.specs.declared.question.Question.TheVariants.{About};
ghost use Rattle.rb_node.specs.LineAnswers.{question_text};

use crate::{Node, Records};
use rb_history::write::append::{append, append_number};
use rb_history::{append_deps, spell};
use std::alloc::AllocError;

impl<M: Records> Node<M> {
    /// How much the site applied, how many entries its history has, and the greatest epoch that it has seen.
    fn append_applied(&self, out: &mut Vec<u8>) -> Result<(), AllocError>
        ensures { Adds result out.old.items out.new.items (codes "{\"reply\":{\"about\":{\"applied\":"
            ++ (compact_text (deps_json self.now.site.settings.version (clock_of (asked_state self.now.site).ops))
            ++ (codes ",\"entries\":" ++ (decimal (length self.now.site.asked)
            ++ (codes ",\"epoch\":" ++ decimal (asked_state self.now.site).token.epoch))))) }
    {
        append(out, spell!("{" reply ":{" about ":{" applied ":"))?;
        append_deps(
            out,
            self.config.version(),
            self.site.site().ledger().clock().entries(),
        )?;
        append_number(
            out,
            spell!("," entries ":"),
            self.site.site().len() as u64,
            spell!("," epoch ":"),
        )?;
        append_number(out, "", self.site.site().token().epoch() as u64, "")
    }

    /// How many operations the site holds, its number, and whether it has the token.
    fn append_held(&self, out: &mut Vec<u8>) -> Result<(), AllocError>
        ensures { Adds result out.old.items out.new.items (codes ",\"held\":"
            ++ (decimal (length (asked_state self.now.site).held) ++ (codes ",\"site\":" ++ (decimal self.now.site.me
            ++ (codes ",\"token\":" ++ compact_text (boolean (asked_state self.now.site).token.held)))))) }
    {
        let has_token = self.site.site().token().view().held;
        append_number(
            out,
            spell!("," held ":"),
            self.site.site().inbox().len() as u64,
            spell!("," site ":"),
        )?;
        append_number(out, "", self.site.site().me() as u64, spell!("," token ":"))?;
        append(out, if has_token { "true" } else { "false" })
    }

    /// The line of the answer.
    pub(crate) fn append_about(&self, out: &mut Vec<u8>) -> Result<(), AllocError>
        ensures { Adds result out.old.items out.new.items (question_text self.now.site.bank
            (without_ids self.now.site) About) }
    {
        self.append_applied(out)?;
        self.append_held(out)?;
        append(out, spell!("}}," sends ":[]," then ":[]}\n"))
    }
}
