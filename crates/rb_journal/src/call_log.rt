//! A list of calls on a file and an output, which only clauses read: each call by its kind, and what a host that keeps
//! the list then says of them.
ghost use Rattle.std.specs.Prelude.{◌≡◌, List, [], ◌∷◌};
ghost use Rattle.std.specs.Borrow.{ftrue};
ghost use Rattle.rb_journal.specs.Calls.{NotedCall, noted_call_of};

use crate::HostError;
use crate::call::Call;
use std::marker::{Model, PhantomData};

const FOUND: u64 = 0;

pub(crate) const WROTE: u64 = 1;

pub(crate) const CUT: u64 = 2;

pub(crate) const SYNCED: u64 = 3;

/// The number is how many of the bytes were put out.
pub(crate) const PUT_OUT: u64 = 4;

pub(crate) const OUTPUT_FAILED: u64 = 5;

pub(crate) const KEPT: u64 = 6;

const OPENED: u64 = 7;

/// A log of calls, for contracts to speak of: newest first. It takes no memory: nothing of it is there at run time.
#[derive(Drop)]
pub struct CallLog {
    marker: PhantomData<u8>,
    pub ghost events: { List NotedCall },
}

impl Model for CallLog {
    ghost also_owns = { λ _. ftrue };
}

impl CallLog {
    ghost use Rattle.std.specs.Prelude.{◌++◌, Ok, Err, if◌then◌else◌};
    ghost use Rattle.rb_journal.specs.Calls.{files_read};
    ghost use Rattle.rb_journal.specs.declared.host.HostError.TheVariants.{DiskFailed};
    ghost use Rattle.rb_journal.specs.Planned.{found_event, made_event, opened_event};

    /// No call yet.
    pub fn new() -> CallLog
        ensures { result.events ≡ [] }
    {
        CallLog {
            marker: PhantomData,
        }
    }

    /// The numbers are a call's kind, its number, and 1 for success.
    fn note(&mut self, _numbers: &[u64], _bytes: &[u8])
        ensures { self.new.events ≡ noted_call_of _numbers.now _bytes.now ∷ self.old.events }
    {}

    /// Notes a call of this kind that was tried, with its number and its bytes, and whether it succeeded.
    pub(crate) fn tried(
        &mut self,
        kind: u64,
        number: u64,
        bytes: &[u8],
        ok: bool,
    ) -> Result<(), HostError>
        ensures noted { self.new.events ≡ (kind, number, ok, bytes.now) ∷ self.old.events }
        ensures answer { result ≡ (if ok then Ok tt else Err DiskFailed) }
    {
        if ok {
            self.note(&[kind, number, 1], bytes);
            Ok(())
        } else {
            self.note(&[kind, number, 0], bytes);
            Err(HostError::DiskFailed)
        }
    }

    /// A file was opened, and these were its bytes.
    pub fn note_opened(&mut self, bytes: &[u8])
        ensures noted { self.new.events ≡ opened_event bytes.now ∷ self.old.events }
        ensures files { files_read self.new.events ≡ files_read self.old.events ++ bytes.now ∷ [] }
    {
        self.note(&[OPENED, 0, 1], bytes);
    }

    /// The bytes of the file are these, all of them on the disk.
    pub(crate) fn note_found(&mut self, bytes: &[u8])
        ensures { self.new.events ≡ found_event bytes.now ∷ self.old.events }
    {
        self.note(&[FOUND, 0, 1], bytes);
    }

    /// A file was opened, and these were its bytes, all of them on the disk.
    pub(crate) fn found(bytes: &[u8]) -> CallLog
        ensures { result.events ≡ found_event bytes.now ∷ [] }
    {
        let mut log = CallLog::new();
        log.note_found(bytes);
        log
    }

    /// Notes a call that was made, and succeeded.
    pub(crate) fn made(&mut self, call: &Call)
        ensures { self.new.events ≡ made_event call.now ∷ self.old.events }
    {
        match call {
            Call::Write { at, bytes } => self.note(&[WROTE, *at as u64, 1], bytes),
            Call::Cut { len } => self.note(&[CUT, *len as u64, 1], &[]),
            Call::Sync => self.note(&[SYNCED, 0, 1], &[]),
            Call::Keep { lines: _, bytes } => self.note(&[KEPT, 0, 1], bytes),
            Call::PutOut { bytes } => self.note(&[PUT_OUT, bytes.len() as u64, 1], bytes),
        }
    }
}
