//! The world of a script whose histories are asked for, which its configuration opens.
//!
//! Only the histories are put out, so commands aren't answered, and the world keeps histories and no list of events.
use crate::script::world::{open_world, take_command};
use crate::takes_lines::TakesLines;
use rb_history::LineFault;
use rb_money::{Config, Refusal};
use rb_reasons::Expected;
use rb_site::{Entry, Reply};
use rb_world::{ErasedEvent, PlacedMessage, World};
use std::alloc::Global;

/// A world whose sites keep their histories. It keeps no list of its events.
pub type RecordingWorld = World<Entry, ErasedEvent, PlacedMessage>;

/// A script whose histories are asked for: its world, and the place of the last reply, which isn't put out.
pub struct Recorder {
    pub world: RecordingWorld,
    pub reply: Reply,
}

impl TakesLines for Recorder {
    ghost use Rattle.std.specs.Prelude.{Result};
    ghost use Rattle.rb_lines.specs.declared.fault.ScriptFault.{ScriptFault as TheFault};
    ghost use Rattle.rb_runs.specs.Inputs.{Input};
    ghost use Rattle.rb_runs.specs.RecordingSession.{recorder_makes, recorder_rest};
    ghost use Rattle.rb_runs.specs.Silent.{takes_unanswered, unanswered};

    ghost rest = { unanswered recorder_rest };

    ghost Made = { Result Input TheFault };

    ghost made = { recorder_rest };

    const EXPECTED: Expected = Expected::Command;

    fn open(
        alloc: Global,
        line: &[u8],
        _buffered: &mut Vec<u8>,
    ) -> Result<(Recorder, u64), LineFault> {
        let world = open_world(alloc, line)?;
        let reply = Reply::Refused(Refusal::NoSite);
        Ok((Recorder { world, reply }, 0))
    }

    #[inline(always)]
    fn take(
        &mut self,
        alloc: Global,
        line: &[u8],
        _buffered: &mut Vec<u8>,
    ) -> Result<u64, LineFault> {
        take_command(alloc, &mut self.world, &mut self.reply, line)?;
        Ok(0)
    }

    fn config(&self) -> &Config {
        self.world.config()
    }

    fn close(self) {
        let Recorder { world, reply: _ } = self;
        let _reports = world.close();
    }

    ghost takes = { takes_unanswered recorder_rest recorder_makes };
}
