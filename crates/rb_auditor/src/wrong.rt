//! The first entry that its site doesn't record: first by site, so that it doesn't depend on the order in which the
//! histories were read.
ghost use Rattle.std.specs.Prelude.{List, IfNone, IfSome};
ghost use Rattle.rb_site.specs.declared.message.Message.{Message};
ghost use Rattle.rb_auditor.specs.Findings.{IsFirstWrong};
ghost use Rattle.rb_auditor.specs.Kept.{AreJudged, AreWhole, histories_in};

use crate::notes::Notes;
use rb_money::Config;

/// The site, from 0, and the number, from 1, of the first entry by site that its site doesn't record.
pub fn first_wrong(config: &Config, notes: &[Notes]) -> Option<(u8, u32)>
    requires { (messages : List Message) × AreJudged config.now notes.now messages }
    ensures some { IfSome result (λ wrong. IsFirstWrong config.now (histories_in notes.now) wrong.0 wrong.1) }
    ensures none { IfNone result (AreWhole notes.now) }
{
    for site in 0..config.sites() {
        let kept = &notes[site as usize];
        if !kept.are_whole() {
            return Some((site, kept.steps.len() as u32 + 1));
        }
    }
    None
}
