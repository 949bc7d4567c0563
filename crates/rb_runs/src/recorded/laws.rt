//! A law on a script's histories: an audit accepts them.
ghost use Rattle.rb_runs.specs.RecordingLaws.{HistoriesAreAccepted};

use crate::audit::laws::inputs_are_read_back;
use rb_history::{
    messages_are_read, read_commands_fit, read_configs_are_configured, read_events_fit, replies_fit,
};

/// The histories of a script are one world's, and an audit takes the text that is written for them as just these, and
/// finds an order, unless a line of the text is too long.
pub fn histories_are_accepted()
    ensures { HistoriesAreAccepted }
{
    read_configs_are_configured();
    read_commands_fit();
    read_events_fit();
    messages_are_read();
    replies_fit();
    inputs_are_read_back();
}
