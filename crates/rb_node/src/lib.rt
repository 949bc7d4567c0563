//! One site by lines: its configuration's line in, then the line of each event, and a line out for each; and the lines
//! of its history, which the caller keeps where it keeps its data.
//! Tests: tests/sites.py, tests/crash.py; examples/tools/check.py runs the rows of a site.
#![tactic(auto)]

mod about;
mod again;
mod asked_site;
mod erased_asked;
mod event_line;
mod fault;
mod kept_event;
mod kept_requests;
mod known_request;
mod node;
mod question;
mod records;
mod replay;
mod resend;
mod sent_entry;
mod step;

ghost use Rattle.rb_node.specs.Laws.{AnswersAreOne, AnswersAreReplayed, AnswersAreTheSame, ConfigsAreJournalLines};
ghost use Rattle.rb_node.specs.Laws.{EntriesAreJournalLines, IdsStayOnce, OtherBanksAreRefused};

pub use fault::{EntryFault, OpenFault};
pub use node::Node;
pub use records::{AllEvents, Changes, Records};

/// The line of a configuration and that of each entry are lines of a journal: each begins with `{` and has no line feed
/// in it.
pub fn lines_are_journal_lines()
    ensures configs { ConfigsAreJournalLines }
    ensures entries { EntriesAreJournalLines }
{
    rb_history::lines_are_single();
}

/// The entries that an answer recorded, read from their lines and replayed one after another, lead from the site before
/// it to the site after it.
pub fn replays_back()
    ensures { AnswersAreReplayed }
{
    rb_history::entries_are_read();
    rb_history::lines_are_single();
    rb_history::read_events_fit();
    rb_history::replies_fit();
}

/// A site has one answer to the line of an event: the site before it and the line determine the text, the lines of the
/// entries and the site after it.
pub fn answers_are_one()
    ensures { AnswersAreOne }
{}

/// A line of another bank is answered by refusal 26. It changes nothing and is never recorded.
pub fn other_banks_are_refused()
    ensures { OtherBanksAreRefused }
{}

/// No two entries of a site have one id, if its lines are answered: an answer leaves none where there were none. And an
/// answer to a line whose id an entry has is that entry's reply with its messages, once more, if it is the same
/// request, and else refusal 25; it changes nothing and records nothing.
pub fn asked_once()
    ensures once { IdsStayOnce }
    ensures same { AnswersAreTheSame }
{}
