//! The codec of lines, as JSON: of scripts, their configuration, commands and replies; of histories, their entries; and
//! the verdicts of an audit, or of closing the books. Histories themselves are rb_site's.
//!
//! They are written in [`write`]. There are two readers: `fast` reads in one pass a line as programs spell it, and
//! `read` the JSON value of any line. In `lines` a line is given to the first, and then to the second. Words, ids,
//! accounts and refusals are said once for both. The rest of the grammar is said in each: a reader of one text looks
//! for the member that comes next, and one of a value for a member by its key, in any order. When the readers of
//! commands and of histories became one, an application and a statement took 40 % more instructions (bench/README.md).
//! Refusals that were read once, over a trait of two sources, took as many as before, but 400 lines more, most of them
//! of proofs. So no more is shared than these words. Tests: tests/cases, tests/sites.py.
#![tactic(auto)]

mod accounts;
mod bank;
mod counts;
mod fast;
mod fault;
mod id;
mod keys;
mod labels;
mod lines;
mod on_line;
mod question;
mod read;
mod refusals;
pub mod write;

ghost use Rattle.rb_history.specs.Banks.{MessagesAreRead, OtherBanksAskNothing, QuestionsAreNoEvents, ReadEventsFit};
ghost use Rattle.rb_history.specs.Commands.{CommandsAreRead};
ghost use Rattle.rb_history.specs.ConfigLines.{ConfigsAreRead};
ghost use Rattle.rb_history.specs.Fits.{EntriesAreRead, EventsAreRead, ReadEntriesFit};
ghost use Rattle.rb_history.specs.Laws.{ReadConfigsAreConfigured};
ghost use Rattle.rb_history.specs.OneLine.{ConfigsAreLines, EntriesAreLines};
ghost use Rattle.rb_history.specs.Sites.{HeldNamesFitLines, ReadCommandsFit, RepliesFitLines};

pub use bank::BankName;
pub use fault::LineFault;
pub use id::{MOST_ID_BYTES, RequestId, is_id, may_be_asked, may_be_asked_by};
pub use lines::banked::read_event_to;
pub use lines::command::read_command;
pub use lines::entry::{read_asked_entry, read_entry, read_line};
pub use lines::migrated::append_migrated;
pub use on_line::{open_command, open_config};
pub use question::{Question, read_question_to};
pub use read::config::read_config;
pub use write::banked::append_sent_message;
pub use write::config::write_config;
pub use write::entry::{append_asked_line, append_line, append_line_with, write_line};
pub use write::event::append_event;
pub use write::reply::{append_reply, append_value, write_reply};
pub use write::shadow::append_deps;
pub use write::verdict::{limit_line, open_line, order_line, stuck_line, wrong_reply_line};

/// Each command is read from its JSON object.
pub fn commands_are_read()
    ensures { CommandsAreRead }
{}

/// Whatever a configuration's line is read as, nothing is wrong with it: all that a `Config` keeps.
pub fn read_configs_are_configured()
    ensures { ReadConfigsAreConfigured }
{}

/// The line that is written for a configuration is read as the configuration.
pub fn configs_are_read()
    ensures { ConfigsAreRead }
{}

/// The line that is written for an entry of a site of the configuration is read as the entry: if each of its places
/// is that of an account of the configuration or `Place::NOWHERE`, its reply isn't *out of memory*, and, in version 1,
/// the clock of a shadow that comes has 0 for each site past the eighth.
pub fn entries_are_read()
    ensures { EntriesAreRead }
{}

/// The line that is written for an event by itself is read as the event: if each of its places is that of an
/// account of the configuration or `Place::NOWHERE`, and, in version 1, the clock of a shadow that comes has 0 for each
/// site past the eighth.
pub fn events_are_read()
    ensures { EventsAreRead }
{}

/// Each message that a site sends is read by the sites of a bank of the same name, or of none, as that message.
pub fn messages_are_read()
    ensures { MessagesAreRead }
{}

/// Each entry that is read from a line is one that `entries_are_read` speaks of.
pub fn read_entries_fit()
    ensures { ReadEntriesFit }
{}

/// Each event to a bank that is read from a line is one that `events_are_read` speaks of.
pub fn read_events_fit()
    ensures { ReadEventsFit }
{}

/// No line is both a question and an event to a bank.
pub fn questions_are_no_events()
    ensures { QuestionsAreNoEvents }
{}

/// No line of another bank is an event or a question to a bank.
pub fn other_banks_ask_nothing()
    ensures { OtherBanksAskNothing }
{}

/// Each command that is read from a line is a delivery, or an event of a site's own that `events_are_read` speaks of.
pub fn read_commands_fit()
    ensures { ReadCommandsFit }
{}

/// Whatever its events, each reply of a site fits a line: its numbers fit their types, and it isn't *out of memory*. So
/// does the name of each operation that it holds.
pub fn replies_fit()
    ensures replies { RepliesFitLines }
    ensures held { HeldNamesFitLines }
{}

/// The text that is written for a configuration or an entry is one line: UTF-8 with no line feed in it.
pub fn lines_are_single()
    ensures configs { ConfigsAreLines }
    ensures entries { EntriesAreLines }
{}
