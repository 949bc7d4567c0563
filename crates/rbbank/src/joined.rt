//! Files as one input: of each after the first the lines after its first one, which has to be the first file's.
ghost use Rattle.std.specs.Prelude.{◌≡◌, ◌≢◌, ◌==◌, ◌+◌, ◌-◌, ◌^◌, ◌++◌, ◌∷◌, ◌<◌, ◌≤◌, ℕ, List, [], true, length, min};
ghost use Rattle.std.specs.Prelude.{IfOk, MatchOption, MatchResult, if◌then◌else◌, slice_get};
ghost use Rattle.std.specs.Option.{option_map_or};
ghost use Rattle.rb_lines.specs.Lines.{lines_of};
ghost use Rattle.rbbank.specs.Files.{AreJoined, AreNoInput, IsPlace, first_line, lines_behind, joined_lines};
ghost use Rattle.rbbank.specs.declared.joined.FilesFault.TheVariants.{OutOfMemory as NoMemory};

use crate::same_file::SameFile;
use rb_runs::{JournalFiles, split_line};
use std::alloc::{AllocError, Global};

/// Why files aren't one input. They are numbered from 0.
#[derive(Clone, Copy, Debug, PartialEq, Eq)]
pub enum FilesFault {
    /// The file can't be read.
    Unread { file: u64 },
    /// The first line of the file isn't the first file's.
    AnotherBank { file: u64 },
    /// A file is given twice.
    Same(SameFile),
    /// There was no memory to go on.
    OutOfMemory,
}

impl From<AllocError> for FilesFault {
    ghost from_gives = { λ _ fault. fault ≡ NoMemory };

    fn from(_: AllocError) -> FilesFault {
        FilesFault::OutOfMemory
    }
}

/// The lines of a file after its first one, if that is the input's.
fn behind_head<'a>(input: &[u8], file: &'a [u8]) -> Option<&'a [u8]>
    ensures { MatchOption result (first_line file.now ≢ first_line input.now)
        (λ rest. (first_line file.now ≡ first_line input.now) × (lines_of rest.now ≡ lines_behind file.now)) }
{
    if file.is_empty() {
        return if input.is_empty() { Some(file) } else { None };
    }
    if input.is_empty() {
        return None;
    }
    let (wanted, _) = split_line(input);
    let (head, rest) = split_line(file);
    if head == wanted { Some(rest) } else { None }
}

/// Whether the last line has a line feed, if there is a line.
fn is_ended(text: &[u8]) -> bool
    ensures { result ≡ option_map_or (λ byte. byte == 10) (slice_get text.now (length text.now - 1)) true }
{
    match text.last() {
        Some(byte) => *byte == b'\n',
        None => true,
    }
}

/// Adds lines after those of the input. If the last line there has no line feed, it is given one.
fn add_lines(input: &mut Vec<u8>, lines: &[u8]) -> Result<(), AllocError>
    ensures { IfOk result (λ _. lines_of input.new.items ≡ lines_of input.old.items ++ lines_of lines.now) }
{
    if !is_ended(input) {
        input.push(b'\n')?;
    }
    input.extend_from_slice(lines)
}

/// How many lines there are.
fn count_lines(text: &[u8]) -> u64
    ensures { result ≡ length (lines_of text.now) }
{
    let mut rest = text;
    let mut count = 0u64;
    'lines: while !rest.is_empty() {
        let (_, later) = split_line(rest);
        rest = later;
        count += 1;
    }
    count
}

/// The number of a line in its file, by its number among the file's lines in the input: each file but the first has one
/// line more, its first.
fn own_number(file: usize, number: u64) -> u64
    ensures { result ≡ (if file == 0 then number else min (number + 1) (2 ^ 64 - 1)) }
{
    if file == 0 {
        return number;
    }
    number.saturating_add(1)
}

/// Files as one input: its bytes, and how many lines of it are of each file.
#[derive(Drop)]
pub struct Joined {
    pub bytes: Vec<u8>,
    pub counts: Vec<u64>,
}

impl Joined {
    /// The first file alone.
    fn new(alloc: Global, bytes: Vec<u8>) -> Result<Joined, AllocError>
        ensures { IfOk result (λ joined. AreJoined (bytes.items ∷ []) joined) }
    {
        let counts = vec![in alloc; count_lines(&bytes)]?;
        Ok(Joined { bytes, counts })
    }

    /// Which file a line of the input is in, and the line's number there. Lines are numbered from 1.
    pub fn place_of(&self, line: u64) -> (u64, u64)
        ensures { (files : List (List ℕ)) → AreJoined files self.now → 1 ≤ line → line ≤ length (joined_lines files)
            → line < 2 ^ 64 - 1 → IsPlace files line result.0 result.1 }
    {
        let mut left = line;
        for file in 0..self.counts.len() {
            let count = self.counts[file];
            if left <= count {
                return (file as u64, own_number(file, left));
            }
            left -= count;
        }
        (0, left)
    }

    /// Adds the lines of a file.
    fn add(&mut self, lines: &[u8]) -> Result<(), AllocError>
        ensures lines { IfOk result
            (λ _. lines_of self.new.bytes.items ≡ lines_of self.old.bytes.items ++ lines_of lines.now) }
        ensures counts { IfOk result
            (λ _. self.new.counts.items ≡ self.old.counts.items ++ length (lines_of lines.now) ∷ []) }
    {
        self.counts.push(count_lines(lines))?;
        add_lines(&mut self.bytes, lines)
    }

    /// Adds the next file.
    fn take_next<F: JournalFiles>(&mut self, file: u64, files: &mut F) -> Result<(), FilesFault>
        requires taken { AreJoined (F.read files.old) self.old }
        requires some { 1 ≤ file }
        requires file { length (F.read files.old) ≡ file }
        ensures { MatchResult result
            (λ _. (length (F.read files.new) ≡ file + 1) × AreJoined (F.read files.new) self.new)
            (λ fault. AreNoInput (file + 1) (F.read files.new) fault) }
    {
        let Some(bytes) = files.read_next() else {
            return Err(FilesFault::Unread { file });
        };
        let Some(rest) = behind_head(&self.bytes, &bytes) else {
            return Err(FilesFault::AnotherBank { file });
        };
        self.add(rest)?;
        Ok(())
    }
}

/// Reads this number of files as one input.
pub fn join_files<F: JournalFiles>(
    alloc: Global,
    files: &mut F,
    count: u64,
) -> Result<Joined, FilesFault>
    requires some { 1 ≤ count }
    requires unread { F.read files.old ≡ [] }
    ensures { MatchResult result
        (λ joined. (length (F.read files.new) ≡ count) × AreJoined (F.read files.new) joined)
        (λ fault. AreNoInput count (F.read files.new) fault) }
{
    let Some(bytes) = files.read_next() else {
        return Err(FilesFault::Unread { file: 0 });
    };
    let mut joined = Joined::new(alloc, bytes)?;
    for file in 1..count {
        if let Err(fault) = joined.take_next(file, files) {
            return Err(fault);
        }
    }
    Ok(joined)
}
