//! Lines that begin with `{`, and then a closed gate, a space. The gate is the place of the next batch's first byte:
//! the rest of a batch is written after it, with a closed gate of its own at its end, and synced; then the gate is
//! opened, by the one byte `{`, and synced. So a crash leaves all of a batch or none of it.
ghost use Rattle.std.specs.Prelude.{◌≡◌, ◌+◌, ◌<◌, ◌≤◌, ◌^◌, ◌++◌, [], List, ℕ, length, take, IfOk, IfErr};
ghost use Rattle.std.specs.Prelude.{◌↔◌, drop, OnOk, IsErrOf, IsTrue, MatchOption, MatchResult};
ghost use Rattle.std.specs.List.{concat};
ghost use Rattle.rb_journal.specs.Host.{Cut, IsWritten, LeavesOnly, Only, Outputs, Torn};
ghost use Rattle.rb_journal.specs.Host.{HasCause, IsDiskError, OutputCause};
ghost use Rattle.rb_journal.specs.Quiet.{Quiet};
ghost use Rattle.rb_journal.specs.Lines.{recovered, at_rest, IsBatch, IsDamaged, IsIntact, MayBeBehind};
ghost use Rattle.rb_journal.specs.Lines.{is_bare_gate, to_keep, what_is_cut};
ghost use Rattle.rb_journal.specs.Journal.{IsSettled, IsLeftAs, IsBeforeOrAfter, IsDurable, IsAppended};
ghost use Rattle.rb_journal.specs.Journal.{IsRepaired};

use crate::{Host, HostError};
use rb_lines::first_feed;

/// A batch is added only if the lines before it, and the batch without its first byte, are each shorter than this,
/// in bytes.
const MAX_LEN: usize = 1 << 60;

/// Lines that are on the disk, over a host whose file is at rest between two calls.
#[derive(Drop)]
pub struct Journal<H: Host> {
    pub host: H,
    /// The end of the lines, in bytes from the file's start: the place of the gate.
    pub end: usize,
}

impl<H: Host> Journal<H> {
    /// Opens a file that a crash may have left, whose bytes these are: it writes them again, so that all of them are on
    /// the disk, and repairs the end. It may crash too. `damaged_line` finds a file that no crash left, before it. An
    /// `Err` gives the host back: out of memory, or the file failed.
    pub fn open(mut host: H, bytes: &[u8]) -> Result<Journal<H>, (HostError, H)>
        requires opened { H.never_failed host }
        requires bytes { bytes.now ≡ H.content host }
        // It isn't known yet what a crash leaves, or it is the file.
        requires durable { H.knows_disk host → Only (H.content host) (H.may_leave host) }

        ensures settled { IfOk result (λ journal. IsSettled H.is_usable H.content H.may_leave journal) }
        ensures lines { IfOk result (λ journal. recovered (H.content journal.host) ≡ recovered bytes.now) }
        ensures output { IfOk result (λ journal. H.output journal.host ≡ H.output host) }
        ensures output_err { IfErr result (λ e. H.output e.1 ≡ H.output host) }
        ensures reported { IfOk result (λ journal. H.reported journal.host ≡ H.reported host) }

        // The bytes that are cut off are kept before, unless they are a bare gate.
        ensures kept { IfOk result (λ journal. H.kept journal.host ≡ H.kept host ++ what_is_cut bytes.now) }

        // A crash at any moment leaves the same lines, from when what was read is known to be on the disk.
        ensures any_moment { IfOk result (λ journal. LeavesOnly H.moment H.left_since host journal.host
            (IsLeftAs (recovered bytes.now) (H.output host))) }
        ensures any_moment_err { IfErr result (λ e. LeavesOnly H.moment H.left_since host e.1
            (IsLeftAs (recovered bytes.now) (H.output host))) }

        // And a file with some bytes cut off, or its lines with a byte after them: undamaged, if the file was.
        ensures repaired { IfOk result (λ journal. LeavesOnly H.moment H.left_since host journal.host
            (λ c _. IsRepaired bytes.now c × (IsIntact bytes.now → IsIntact c))) }
        ensures repaired_err { IfErr result (λ e. LeavesOnly H.moment H.left_since host e.1
            (λ c _. IsRepaired bytes.now c × (IsIntact bytes.now → IsIntact c))) }

        ensures cause { MatchResult result (λ journal. H.faults host ≤ H.faults journal.host)
            (λ e. IsDiskError (H.faults host) (H.faults e.1) e.0) }
    {
        let (lines, end) = count_lines(bytes);
        match repair(&mut host, bytes, lines, end) {
            Ok(()) => Ok(Journal { host, end }),
            Err(error) => Err((error, host)),
        }
    }

    /// Adds a batch of lines, with two writes and two syncs, whatever its size, and none if it is empty. For the first
    /// write the new gate is put at the batch's end, and then taken out again.
    /// At `Ok` all of it is on the disk: from then on each crash leaves a file that has it. At `Err`, open the file
    /// again.
    pub fn append(&mut self, batch: &mut Vec<u8>) -> Result<(), HostError>
        requires settled { IsSettled H.is_usable H.content H.may_leave self.old }
        requires lines { IsBatch batch.old.items }

        ensures settled { OnOk result (IsSettled H.is_usable H.content H.may_leave self.new) }
        ensures lines { OnOk result (recovered (H.content self.new.host) ≡ recovered (H.content self.old.host)
            ++ recovered batch.old.items) }
        ensures batch { batch.new.items ≡ batch.old.items }
        ensures output { H.output self.new.host ≡ H.output self.old.host }
        ensures reported { H.reported self.new.host ≡ H.reported self.old.host }

        // A crash at any moment of the call leaves the lines from before it, with all of the batch or none of it.
        ensures any_moment { LeavesOnly H.moment H.left_since self.old.host self.new.host
            (IsBeforeOrAfter (recovered (H.content self.old.host)) (recovered batch.old.items)
            (H.output self.old.host)) }

        // And a file that isn't damaged: the gate is closed, or the file is at rest with the batch.
        ensures appended { LeavesOnly H.moment H.left_since self.old.host self.new.host
            (λ c _. IsAppended (recovered (H.content self.old.host)) batch.old.items c × IsIntact c) }

        // It doesn't give up by itself.
        ensures cause { HasCause (H.faults self.old.host) (H.faults self.new.host)
            (H.faults self.old.host < H.faults self.new.host) ⊥ (2 ^ 60 ≤ self.old.end + length batch.old.items)
            (IsErrOf result) }
    {
        let len = batch.len();
        if len == 0 {
            return Ok(());
        }
        if self.end >= MAX_LEN || len > MAX_LEN {
            return Err(HostError::Full);
        }
        batch.push(b' ')?;
        let staged = write_synced(&mut self.host, self.end + 1, &batch[1..]);
        batch.truncate(len);
        staged?;
        write_synced(&mut self.host, self.end, &[b'{'])?;
        self.end += len;
        Ok(())
    }

    /// Adds a batch of lines, and puts out the reply once all of it is on the disk. At `Err`, open the file again.
    pub fn commit_and_put_out(&mut self, batch: &mut Vec<u8>, reply: &[u8]) -> Result<(), HostError>
        requires settled { IsSettled H.is_usable H.content H.may_leave self.old }
        requires lines { IsBatch batch.old.items }

        ensures settled { OnOk result (IsSettled H.is_usable H.content H.may_leave self.new) }
        ensures lines { OnOk result (recovered (H.content self.new.host) ≡ recovered (H.content self.old.host)
            ++ recovered batch.old.items) }
        ensures batch { batch.new.items ≡ batch.old.items }
        ensures output { OnOk result (H.output self.new.host ≡ H.output self.old.host ++ reply.now) }

        // Nothing is put out that a crash, at any moment of the call, takes back.
        ensures any_moment { LeavesOnly H.moment H.left_since self.old.host self.new.host
            (IsDurable (recovered (H.content self.old.host)) (recovered batch.old.items) (H.output self.old.host)
            reply.now) }
        ensures appended { LeavesOnly H.moment H.left_since self.old.host self.new.host
            (λ c _. IsAppended (recovered (H.content self.old.host)) batch.old.items c × IsIntact c) }

        // It doesn't give up by itself. If the output fails, the batch is on the disk all the same.
        ensures cause { HasCause (H.faults self.old.host) (H.faults self.new.host)
            (H.faults self.old.host < H.faults self.new.host) (H.faults self.old.host < H.faults self.new.host)
            (2 ^ 60 ≤ self.old.end + length batch.old.items) (IsErrOf result) }
        ensures kept { IsErrOf result HostError.OutputFailed →
            (recovered (H.content self.new.host) ≡ recovered (H.content self.old.host) ++ recovered batch.old.items)
            × Only (H.content self.new.host) (H.may_leave self.new.host) }
    {
        self.append(batch)?;
        put_out_all(&mut self.host, reply)
    }
}

// Puts out all of the bytes.
fn put_out_all<H: Host>(host: &mut H, bytes: &[u8]) -> Result<(), HostError>
    requires { H.is_usable host.old }

    ensures usable { OnOk result (H.is_usable host.new) }
    ensures output { OnOk result (H.output host.new ≡ H.output host.old ++ bytes.now) }
    ensures content { H.content host.new ≡ H.content host.old }
    ensures crash { (c : List ℕ) → H.may_leave host.new c → H.may_leave host.old c }
    ensures any_moment { LeavesOnly H.moment H.left_since host.old host.new
        (Outputs (H.may_leave host.old) (H.output host.old) bytes.now) }
    ensures cause { OutputCause (H.faults host.old) (H.faults host.new) result }
{
    let mut done = 0;
    while done < bytes.len() {
        done += host.put_out(&bytes[done..])?;
    }
    Ok(())
}

// Whether these bytes are nothing but a gate, or a NUL in its place.
fn is_bare_gate(rest: &[u8]) -> bool
    ensures { result ≡ is_bare_gate rest.now }
{
    matches!(rest, [] | [b' ' | 0])
}

// Keeps what comes after this number of lines, which end at `end`, unless it is a bare gate, and cuts it off.
fn cut_off<H: Host>(host: &mut H, lines: u64, end: usize, rest: &[u8]) -> Result<(), HostError>
    requires usable { H.is_usable host.old }
    requires lines { lines ≡ length (recovered (H.content host.old)) }
    requires end { end ≤ length (H.content host.old) }
    requires rest { rest.now ≡ drop end (H.content host.old) }
    requires durable { Only (H.content host.old) (H.may_leave host.old) }
    ensures quiet { Quiet H.Host (Cut end (H.content host.old)) host.old host.new result }
    ensures cut { OnOk result (H.content host.new ≡ take end (H.content host.old)) }
    ensures durable { OnOk result (Only (H.content host.new) (H.may_leave host.new)) }
    ensures kept { OnOk result (H.kept host.new ≡ H.kept host.old ++ to_keep rest.now) }
{
    if !is_bare_gate(rest) {
        host.keep(lines, rest)?;
    }
    host.cut(end)?;
    host.sync()
}

/// Writes bytes, and waits until they are on the disk.
#[tactic(auto, using(crate::proofs::Crash::torn_not))]
pub(crate) fn write_synced<H: Host>(host: &mut H, at: usize, bytes: &[u8]) -> Result<(), HostError>
    requires usable { H.is_usable host.old }
    requires place { at ≤ length (H.content host.old) }
    ensures quiet { Quiet H.Host (λ c. (d : List ℕ) × H.may_leave host.old d × Torn at bytes.now d c) host.old host.new
        result }
    ensures written { OnOk result (IsWritten (H.content host.old) at bytes.now (H.content host.new)) }
    ensures durable { OnOk result (Only (H.content host.new) (H.may_leave host.new)) }
    ensures kept { H.kept host.new ≡ H.kept host.old }
{
    host.write_at(at, bytes)?;
    host.sync()
}

// Repairs the end of a file of these bytes, with this number of lines and their end.
fn repair<H: Host>(host: &mut H, bytes: &[u8], lines: u64, end: usize) -> Result<(), HostError>
    requires opened { H.never_failed host.old }
    requires bytes { bytes.now ≡ H.content host.old }
    requires durable { H.knows_disk host.old → Only (H.content host.old) (H.may_leave host.old) }
    requires lines { lines ≡ length (recovered bytes.now) }
    requires within { end ≤ length bytes.now }
    requires end { end ≡ length (concat (recovered bytes.now)) }
    ensures quiet { Quiet H.Host (IsRepaired bytes.now) host.old host.new result }
    ensures at_rest { OnOk result (H.content host.new ≡ at_rest (recovered bytes.now)) }
    ensures durable { OnOk result (Only (H.content host.new) (H.may_leave host.new)) }
    ensures kept { OnOk result (H.kept host.new ≡ H.kept host.old ++ what_is_cut bytes.now) }
{
    host.write_again(bytes)?;
    cut_off(host, lines, end, &bytes[end..])?;
    // The cut has to be on the disk first: after a gate that is torn open, what was there would count.
    write_synced(host, end, &[b' '])
}

/// The number of lines in these bytes of a file, and their end, in bytes from its start.
pub fn count_lines(bytes: &[u8]) -> (u64, usize)
    ensures count { result.0 ≡ length (recovered bytes.now) }
    ensures few { result.0 ≤ length bytes.now }
    ensures within { result.1 ≤ length bytes.now }
    ensures length { result.1 ≡ length (concat (recovered bytes.now)) }
    ensures lines { take result.1 bytes.now ≡ concat (recovered bytes.now) }
{
    let mut count = 0;
    let mut end = 0;
    let mut rest = bytes;
    while let Some(last) = first_feed(rest) {
        if rest[0] != b'{' {
            break;
        }
        count += 1;
        end += last + 1;
        rest = &rest[last + 1..];
    }
    (count, end)
}

// Whether a crash may leave these bytes after lines: nothing, or a gate, a NUL in its place or a line's front first.
fn may_be_behind(rest: &[u8]) -> bool
    requires { recovered rest.now ≡ [] }
    ensures { IsTrue result ↔ MayBeBehind rest.now }
{
    rest.is_empty() || matches!(rest[0], b' ' | 0 | b'{')
}

/// The place of the damage in a file of these bytes, which has this number of lines and their end: the number, from 1,
/// of the line at whose place, or at that of the gate, is a byte that no crash leaves there. `None` if there is none.
pub fn damaged_line(bytes: &[u8], lines: u64, end: usize) -> Option<u64>
    requires lines { lines ≡ length (recovered bytes.now) }
    requires within { (lines ≤ length bytes.now) × (end ≤ length bytes.now) }
    requires end { end ≡ length (concat (recovered bytes.now)) }
    ensures { MatchOption result (IsIntact bytes.now)
        (λ n. IsDamaged bytes.now × (n ≡ length (recovered bytes.now) + 1)) }
{
    if may_be_behind(&bytes[end..]) {
        None
    } else {
        Some(lines + 1)
    }
}
