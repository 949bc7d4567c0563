//! A file and an output, as the journal sees them: what is there, and what a crash may leave.
ghost use Rattle.std.specs.Prelude.{◌≡◌, ◌⊎◌, ◌+◌, ◌<◌, ◌≤◌, ◌++◌, List, ℕ, [], length, take, drop, IfOk, OnOk};
ghost use Rattle.rb_journal.specs.declared.host.HostError.TheVariants.{Memory};
ghost use Rattle.rb_journal.specs.Host.{Only, StepsFrom, Torn, Cut, IsWritten, Silent, Outputs, AddsPrefix, Elapses};
ghost use Rattle.rb_journal.specs.Host.{DiskCause, MayBeCut, OutputCause};
ghost use Rattle.rb_journal.specs.Lines.{recovered};
ghost use Rattle.rb_journal.specs.Calls.{NotedCall};

use std::alloc::{AllocError, AllocFailed};

/// Why a call of a host, or of a journal over it, fails.
#[derive(Clone, Copy, Debug, PartialEq, Eq)]
pub enum HostError {
    /// There was no memory.
    Memory,
    /// The file failed.
    DiskFailed,
    /// The output failed.
    OutputFailed,
    /// The file would have 2^60 bytes or more.
    Full,
}

impl From<AllocError> for HostError {
    ghost from_gives = { λ _ e. e ≡ Memory };

    fn from(_: AllocError) -> Self {
        HostError::Memory
    }
}

impl<T: Drop> From<AllocFailed<T>> for HostError {
    ghost from_gives = { λ _ e. e ≡ Memory };

    fn from(_: AllocFailed<T>) -> Self {
        HostError::Memory
    }
}

/// What a journal is kept in, and replies go out by: a file and an output. After an `Err` no further call may be made.
///
/// A file that is just opened was only read, maybe from the system's memory alone: it isn't known what a crash leaves.
/// So `write_again` is its first call, and before that nothing of it is changed.
pub trait Host {
    /// No call has failed.
    ghost never_failed: { Self → Type 0 };

    /// It is known what a crash leaves: the bytes that the file was opened with are or were all on the disk.
    ghost knows_disk: { Self → Type 0 };

    /// No call has failed, and it is known what a crash leaves.
    ghost is_usable: { Self → Type 0 };

    /// The bytes of the file, as a read would return them.
    ghost content: { Self → List ℕ };

    /// The bytes that were put out.
    ghost output: { Self → List ℕ };

    /// The bytes that were cut off the file and are kept beside it, all of them on the disk.
    ghost kept: { Self → List ℕ };

    /// The files that a crash at this moment may leave, if that is known.
    ghost may_leave: { Self → List ℕ → Type 0 };

    /// The calls that somebody else made and reported, of a host that makes none itself: no call of it changes them.
    ghost reported: { Self → List NotedCall } = { λ _. [] };

    /// The moment, as a number that doesn't fall.
    ghost moment: { Self → ℕ };

    /// The files that a crash at some moment from that one on might have left, during a call or between two,
    /// each with what was put out by that moment. Before it is known what a crash leaves no moment counts: it leaves
    /// what it might have left before the file was opened, and maybe some of the bytes that are written again.
    ghost left_since: { Self → ℕ → List ℕ → List ℕ → Type 0 };

    /// How often the file or the output has failed.
    ghost faults: { Self → ℕ };

    /// Writes the bytes of a file that was opened and read again, each in its place, and waits until they are on the
    /// disk, as is the file's name: an earlier process may have left them in the system's memory alone.
    fn write_again(&mut self, bytes: &[u8]) -> Result<(), HostError>
        requires opened { never_failed self.old }
        requires bytes { bytes.now ≡ content self.old }
        requires durable { knows_disk self.old → Only (content self.old) (may_leave self.old) }
        ensures usable { OnOk result (is_usable self.new) }
        ensures durable { OnOk result (Only (content self.old) (may_leave self.new)) }
        ensures known { knows_disk self.old → knows_disk self.new }
        ensures content { content self.new ≡ content self.old }
        ensures crash { (c : List ℕ) → may_leave self.new c → (c ≡ content self.old) ⊎ may_leave self.old c }
        ensures output { output self.new ≡ output self.old }
        ensures kept { kept self.new ≡ kept self.old }
        ensures reported { reported self.new ≡ reported self.old }
        ensures time { Elapses moment left_since self.old self.new
            (λ c d. (c ≡ content self.old) × (d ≡ output self.old)) }
        ensures cause { DiskCause (faults self.old) (faults self.new) result };

    /// Writes over what is there, and past the end. Until a sync, a crash may leave any bytes in the range of more than
    /// one; one byte is written or isn't, and at the end there may be a NUL in its place.
    fn write_at(&mut self, at: usize, bytes: &[u8]) -> Result<(), HostError>
        requires usable { is_usable self.old }
        requires place { at ≤ length (content self.old) }
        ensures usable { OnOk result (is_usable self.new) }
        ensures written { OnOk result (IsWritten (content self.old) at bytes.now (content self.new)) }
        ensures crash { StepsFrom (Torn at bytes.now) (may_leave self.old) (may_leave self.new) }
        ensures output { output self.new ≡ output self.old }
        ensures kept { kept self.new ≡ kept self.old }
        ensures reported { reported self.new ≡ reported self.old }
        ensures known { knows_disk self.old → knows_disk self.new }
        ensures time { Elapses moment left_since self.old self.new (Silent (may_leave self.new) (output self.old)) }
        ensures cause { DiskCause (faults self.old) (faults self.new) result };

    /// Cuts the file to a length. Bytes that are cut off are kept before, unless they are a bare gate.
    fn cut(&mut self, len: usize) -> Result<(), HostError>
        requires usable { is_usable self.old }
        requires place { len ≤ length (content self.old) }
        requires kept { MayBeCut (drop len (content self.old)) (kept self.old) }
        ensures usable { OnOk result (is_usable self.new) }
        ensures cut { OnOk result (content self.new ≡ take len (content self.old)) }
        ensures crash { StepsFrom (Cut len) (may_leave self.old) (may_leave self.new) }
        ensures output { output self.new ≡ output self.old }
        ensures kept { kept self.new ≡ kept self.old }
        ensures reported { reported self.new ≡ reported self.old }
        ensures known { knows_disk self.old → knows_disk self.new }
        ensures time { Elapses moment left_since self.old self.new (Silent (may_leave self.new) (output self.old)) }
        ensures cause { DiskCause (faults self.old) (faults self.new) result };

    /// Keeps bytes that are to be cut off, after this number of whole lines: they are added to the end of a file
    /// beside this one, and are on the disk after it.
    fn keep(&mut self, lines: u64, bytes: &[u8]) -> Result<(), HostError>
        requires usable { is_usable self.old }
        requires lines { lines ≡ length (recovered (content self.old)) }
        ensures usable { OnOk result (is_usable self.new) }
        ensures kept { OnOk result (kept self.new ≡ kept self.old ++ bytes.now) }
        ensures reported { reported self.new ≡ reported self.old }
        ensures known { knows_disk self.old → knows_disk self.new }
        ensures content { content self.new ≡ content self.old }
        ensures crash { (c : List ℕ) → may_leave self.new c → may_leave self.old c }
        ensures output { output self.new ≡ output self.old }
        ensures time { Elapses moment left_since self.old self.new (Silent (may_leave self.new) (output self.old)) }
        ensures cause { DiskCause (faults self.old) (faults self.new) result };

    /// After it, a crash leaves what is content.
    fn sync(&mut self) -> Result<(), HostError>
        requires { is_usable self.old }
        ensures usable { OnOk result (is_usable self.new) }
        ensures durable { OnOk result (Only (content self.old) (may_leave self.new)) }
        ensures content { content self.new ≡ content self.old }
        ensures crash { (c : List ℕ) → may_leave self.new c → may_leave self.old c }
        ensures output { output self.new ≡ output self.old }
        ensures kept { kept self.new ≡ kept self.old }
        ensures reported { reported self.new ≡ reported self.old }
        ensures known { knows_disk self.old → knows_disk self.new }
        ensures time { Elapses moment left_since self.old self.new (Silent (may_leave self.new) (output self.old)) }
        ensures cause { DiskCause (faults self.old) (faults self.new) result };

    /// Puts out some of the bytes, from the first on, and answers how many. A crash inside the call may have put out
    /// fewer or more.
    fn put_out(&mut self, bytes: &[u8]) -> Result<usize, HostError>
        requires usable { is_usable self.old }
        requires some { 0 < length bytes.now }
        ensures usable { OnOk result (is_usable self.new) }
        ensures count { IfOk result (λ n. (0 < n) × (n ≤ length bytes.now)) }
        ensures output { IfOk result (λ n. output self.new ≡ output self.old ++ take n bytes.now) }
        ensures output_some { AddsPrefix (output self.old) bytes.now (output self.new) }
        ensures kept { kept self.new ≡ kept self.old }
        ensures reported { reported self.new ≡ reported self.old }
        ensures known { knows_disk self.old → knows_disk self.new }
        ensures content { content self.new ≡ content self.old }
        ensures crash { (c : List ℕ) → may_leave self.new c → may_leave self.old c }
        ensures time { Elapses moment left_since self.old self.new
            (Outputs (may_leave self.old) (output self.old) bytes.now) }
        ensures cause { OutputCause (faults self.old) (faults self.new) result };

    /// This moment is one of those since an earlier one, if it is known what a crash leaves.
    ghost counts_now: { (host : Self) (t : ℕ) (c : List ℕ) → knows_disk host → t ≤ moment host → may_leave host c →
        left_since host t c (output host) };

    /// The only moment since this one is this one, and it doesn't count if it isn't known what a crash leaves.
    ghost only_now: { (host : Self) (c d : List ℕ) → left_since host (moment host) c d →
        knows_disk host × may_leave host c × (d ≡ output host) };

    /// Of each host that may be called it is known what a crash leaves.
    ghost is_known: { (host : Self) → is_usable host → knows_disk host };
}
