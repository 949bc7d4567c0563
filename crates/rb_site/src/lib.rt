//! Sites: their messages, events, replies and histories.
//! Tests: rb_tests, worlds.rt, refused.rt.
#![tactic(auto)]

mod batch;
mod batch_capacity;
mod entry;
mod event;
mod full_history;
mod keeps_entry;
mod message;
mod noted_reply;
mod recorded_ledger;
mod reply;
mod report;
mod report_lists;
mod same;
mod site;
mod state;
mod unrecorded;
mod world_event;

ghost use Rattle.rb_site.specs.Histories.{StuckIsFinal};
ghost use Rattle.rb_site.specs.Unchanging.{UnchangingEventsLeftOut};

pub use entry::Entry;
pub use event::Event;
pub use keeps_entry::{ErasedEntry, KeepsEntry};
pub use message::Message;
pub use reply::Reply;
pub use report::SiteReport;
pub use site::Site;
pub use world_event::WorldEvent;

/// The events of a site with their replies, in order.
pub type History = Vec<Entry>;

/// The messages that one event sends, in order.
pub type Posted = Vec<Message>;

/// Histories whose next entries are receipts of messages that no entry before sent are not one world's.
pub fn stuck_final()
    ensures { StuckIsFinal }
{}

/// Events that left a site as it was, but for its history, may be left out of the history: it leads to the same site,
/// with the same replies to the other events and the same messages.
pub fn unchanging_events_left_out()
    ensures { UnchangingEventsLeftOut }
{}
