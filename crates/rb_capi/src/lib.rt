//! The core for C: a static library. A bank, all sites of a configuration or one of them, lies behind a handle that C
//! keeps, and answers lines by lines; whole scripts, audits, migrations and closings go from bytes to bytes.
//! Tests: bindings/check.py, by C, Rust and Python (`make bindings`).
#![tactic(auto)]

mod audit;
mod bank;
mod close;
mod copy;
mod ending;
mod handles;
mod journal;
mod journal_send;
mod journals;
mod kept_journal;
mod kept_site;
mod migrate;
mod names;
mod not_closed;
mod raw_box;
mod script;
mod sent;
mod site;
mod site_send;
mod slot;
mod statuses;
mod version;
mod why;

ghost use Rattle.rb_history.specs.Banks.{MessagesAreRead};

/// Each message that a site sends is read by every other site as that message: its line, one of `sends` on the line of
/// an answer, is the line of an event that is the message's receipt.
pub fn messages_are_read()
    ensures { MessagesAreRead }
{
    rb_history::messages_are_read();
}
