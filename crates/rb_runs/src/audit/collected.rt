//! The auditor of an audit, which its configuration opens.
//!
//! The auditor reads each entry as its line comes, so no line is kept. Nothing is answered before the end.
use crate::entry::entry_of;
use crate::takes_lines::TakesLines;
use rb_auditor::Auditor;
use rb_history::{LineFault, open_config};
use rb_money::Config;
use rb_reasons::Expected;
use rb_site::{Entry, Event, Reply};
use std::alloc::Global;

/// An audit over its lines: its auditor, which has read each entry so far.
pub struct Collected {
    pub auditor: Auditor,
}

impl TakesLines for Collected {
    ghost use Rattle.std.specs.Prelude.{Result};
    ghost use Rattle.rb_lines.specs.declared.fault.ScriptFault.{ScriptFault as TheFault};
    ghost use Rattle.rb_runs.specs.Collects.{collected_makes, input_rest};
    ghost use Rattle.rb_runs.specs.Inputs.{Input};
    ghost use Rattle.rb_runs.specs.Silent.{takes_unanswered, unanswered};

    ghost rest = { unanswered input_rest };

    ghost Made = { Result Input TheFault };

    ghost made = { input_rest };

    const EXPECTED: Expected = Expected::Entry;

    fn open(
        alloc: Global,
        line: &[u8],
        _buffered: &mut Vec<u8>,
    ) -> Result<(Collected, u64), LineFault> {
        let config = open_config(alloc, line)?;
        let auditor = Auditor::open(alloc, config)?;
        Ok((Collected { auditor }, 0))
    }

    fn take(
        &mut self,
        alloc: Global,
        line: &[u8],
        _buffered: &mut Vec<u8>,
    ) -> Result<u64, LineFault> {
        let mut entry = Entry {
            event: Event::Pass(0),
            reply: Reply::Taken(0),
        };
        let site = entry_of(alloc, self.auditor.config(), line, &mut entry)?;
        self.auditor.take(site, &entry)?;
        Ok(0)
    }

    fn config(&self) -> &Config {
        self.auditor.config()
    }

    fn close(self) {
        let Collected { auditor } = self;
        auditor.close();
    }

    ghost takes = { takes_unanswered input_rest collected_makes };
}
