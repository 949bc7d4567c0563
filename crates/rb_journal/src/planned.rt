//! A file whose calls somebody else makes, as a program that has a loop of its own. Each call is noted, and is taken as
//! made well; whoever makes them makes them in their order, says so of each, and makes none after one that failed.
//!
//! The log of all calls that were noted is that of the file once they are made. Before that a crash leaves one of the
//! files that it might have left at some moment of that log: each moment of the calls is one of them.
ghost use Rattle.std.specs.Prelude.{◌≡◌, ◌++◌, length, map, true};
ghost use Rattle.rb_journal.specs.Calls.{content_of, output_of, kept_of, knows_disk, leaves, left_since, faults_of};
ghost use Rattle.rb_journal.specs.CallLaws.{now_counts, now_alone};
ghost use Rattle.rb_journal.specs.Planned.{made_event};

use crate::call::Call;
use crate::call_log::{CUT, CallLog, KEPT, PUT_OUT, SYNCED, WROTE};
use crate::{Host, HostError};
use std::alloc::Global;

/// A host whose calls its caller makes: those still to be made, the newest first, and logs of those made and of all.
#[derive(Drop)]
pub struct Planned {
    alloc: Global,
    calls: Vec<Call>,
    made: CallLog,
    log: CallLog,
    ghost known: { knows_disk log.events ≡ true },
    ghost agrees: { faults_of log.events ≡ 0 → log.events ≡ map made_event calls.items ++ made.events },
}

impl Planned {
    ghost use Rattle.std.specs.Prelude.{[], ◌∷◌, List, MatchOption};
    ghost use Rattle.rb_journal.specs.Calls.{NotedCall};
    ghost use Rattle.rb_journal.specs.Host.{Only};
    ghost use Rattle.rb_journal.specs.Planned.{found_event};
    ghost use Rattle.rb_journal.specs.PlannedFiles.{log_left, log_made, log_planned};

    /// A file that was opened and read, with these bytes, all of them on the disk. No call is to be made.
    pub fn new(alloc: Global, bytes: &[u8]) -> Planned
        ensures usable { faults_of (log_planned result) ≡ 0 }
        ensures content { content_of (log_planned result) ≡ bytes.now }
        ensures durable { Only bytes.now (leaves (log_planned result)) }
        ensures output { output_of (log_planned result) ≡ [] }
        ensures kept { kept_of (log_planned result) ≡ [] }
        ensures none { log_left result ≡ [] }
        ensures made { log_made result ≡ found_event bytes.now ∷ [] }
    {
        Planned {
            alloc,
            calls: Vec::new(alloc),
            made: CallLog::found(bytes),
            log: CallLog::found(bytes),
        }
    }

    /// The call that is to be made next.
    pub fn next(&self) -> Option<&Call>
        ensures { MatchOption result (log_left self.now ≡ [])
            (λ call. (later : List NotedCall) × (log_left self.now ≡ later ++ made_event call.now ∷ [])) }
    {
        self.calls.last()
    }

    /// Notes that the next call was made, and succeeded: says which it was.
    pub fn made(&mut self) -> Option<Call>
        ensures call { MatchOption result ((log_left self.old ≡ []) × (log_left self.new ≡ [])) (λ call.
            log_left self.old ≡ log_left self.new ++ made_event call ∷ []) }
        ensures made { MatchOption result (log_made self.new ≡ log_made self.old) (λ call.
            log_made self.new ≡ made_event call ∷ log_made self.old) }
        ensures same { log_planned self.new ≡ log_planned self.old }
    {
        let call = self.calls.pop()?;
        self.made.made(&call);
        Some(call)
    }
}

impl Host for Planned {
    ghost never_failed = { λ h. faults_of h.log.events ≡ 0 };

    ghost knows_disk = { λ h. knows_disk h.log.events ≡ true };

    ghost is_usable = { λ h. faults_of h.log.events ≡ 0 };

    ghost content = { λ h. content_of h.log.events };

    ghost output = { λ h. output_of h.log.events };

    ghost kept = { λ h. kept_of h.log.events };

    ghost may_leave = { λ h. leaves h.log.events };

    ghost reported = { λ h. h.made.events };

    ghost moment = { λ h. length h.log.events };

    ghost left_since = { λ h. left_since h.log.events };

    ghost faults = { λ h. faults_of h.log.events };

    ghost counts_now = { λ h t c known le left. now_counts h.log.events t c known le left };

    ghost only_now = { λ h c d left. now_alone h.log.events c d left };

    ghost is_known = { λ h _. h.known };

    fn write_again(&mut self, _bytes: &[u8]) -> Result<(), HostError> {
        Ok(())
    }

    fn write_at(&mut self, at: usize, bytes: &[u8]) -> Result<(), HostError> {
        let copy = bytes.to_vec(self.alloc)?;
        self.calls.insert(0, Call::Write { at, bytes: copy })?;
        self.log.tried(WROTE, at as u64, bytes, true)
    }

    fn cut(&mut self, len: usize) -> Result<(), HostError> {
        // A cut that can't be noted counts as failed: nothing more may be asked then.
        match self.calls.insert(0, Call::Cut { len }) {
            Ok(()) => self.log.tried(CUT, len as u64, &[], true),
            Err(failed) => {
                let _counted = self.log.tried(CUT, len as u64, &[], false);
                Err(HostError::from(failed))
            }
        }
    }

    fn keep(&mut self, lines: u64, bytes: &[u8]) -> Result<(), HostError> {
        let copy = bytes.to_vec(self.alloc)?;
        self.calls.insert(0, Call::Keep { lines, bytes: copy })?;
        self.log.tried(KEPT, 0, bytes, true)
    }

    fn sync(&mut self) -> Result<(), HostError> {
        self.calls.insert(0, Call::Sync)?;
        self.log.tried(SYNCED, 0, &[], true)
    }

    fn put_out(&mut self, bytes: &[u8]) -> Result<usize, HostError> {
        let copy = bytes.to_vec(self.alloc)?;
        self.calls.insert(0, Call::PutOut { bytes: copy })?;
        let _noted = self.log.tried(PUT_OUT, bytes.len() as u64, bytes, true);
        Ok(bytes.len())
    }
}
