//! The world of a script, which its configuration opens.
//!
//! One place has all replies, and a batch's names go into the memory of those before. A place for each command is
//! cleared and let go, 11 to 21 instructions, and names are taken and freed, 150 of 2,490 of a batch of two.
use crate::script::world::{open_world, take_command};
use crate::takes_lines::TakesLines;
use rb_history::{LineFault, append_reply};
use rb_money::{Config, Refusal};
use rb_reasons::Expected;
use rb_site::Reply;
use rb_world::LeanWorld;
use std::alloc::Global;

/// A script whose commands are answered: its world, and the place of the last reply.
pub struct Session {
    pub world: LeanWorld,
    pub reply: Reply,
}

impl TakesLines for Session {
    ghost use Rattle.rb_runs.specs.ScriptSession.{session_rest, session_takes};
    ghost use Rattle.rb_runs.specs.TakesLines.{makes_nothing};

    ghost rest = { session_rest };

    ghost made = { makes_nothing };

    const EXPECTED: Expected = Expected::Command;

    fn open(
        alloc: Global,
        line: &[u8],
        _buffered: &mut Vec<u8>,
    ) -> Result<(Session, u64), LineFault> {
        let world = open_world(alloc, line)?;
        let reply = Reply::Refused(Refusal::NoSite);
        Ok((Session { world, reply }, 0))
    }

    #[inline(always)]
    fn take(
        &mut self,
        alloc: Global,
        line: &[u8],
        buffered: &mut Vec<u8>,
    ) -> Result<u64, LineFault> {
        take_command(alloc, &mut self.world, &mut self.reply, line)?;
        append_reply(buffered, &self.reply)?;
        Ok(1)
    }

    fn config(&self) -> &Config {
        self.world.config()
    }

    fn close(self) {
        let Session { world, reply: _ } = self;
        let _reports = world.close();
    }

    ghost takes = { session_takes };
}
