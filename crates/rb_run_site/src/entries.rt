//! The entries of a journal's file, before anything of it is changed.
ghost use Rattle.std.specs.Prelude.{◌≡◌, ◌≤◌, ◌∷◌, ◌++◌, [], List, ℕ, length, take, MatchResult, MatchOption};
ghost use Rattle.std.specs.List.{concat};
ghost use Rattle.rb_journal.specs.Lines.{IsLine, recovered};
ghost use Rattle.rb_run_site.specs.Files.{BeginsWith, IsNew, IsNoJournal};

use crate::fault::SiteFault;

/// Whether a file without a whole line is a new journal, whose first line is to be `first`, with its line feed.
///
/// Errors: `Damaged` if it begins with a closed gate, and is longer than a crash of that line's write leaves it;
/// `AnotherJournal` if it begins with another byte.
fn check_new(bytes: &[u8], first: &[u8]) -> Result<(), SiteFault>
    requires { recovered bytes.now ≡ [] }
    ensures { MatchResult result (λ _. IsNew bytes.now first.now) (IsNoJournal bytes.now first.now) }
{
    let [gate, behind @ ..] = bytes else {
        return Ok(());
    };
    if *gate != b' ' && *gate != 0 {
        return Err(SiteFault::AnotherJournal);
    }
    if behind.len() > first.len() {
        return Err(SiteFault::Damaged { line: 1 });
    }
    Ok(())
}

/// Of the lines of a file, which end here, those after the line `first`, which has its line feed; `None` if the file is
/// a new journal: it has no whole line, and is empty, or begins with a closed gate and is no longer than a crash of the
/// first write leaves it.
///
/// Errors: `Damaged` if it begins so and is longer; else `AnotherJournal`.
pub fn entries_in<'a>(
    bytes: &'a [u8],
    end: usize,
    first: &[u8],
) -> Result<Option<&'a [u8]>, SiteFault>
    requires end { (end ≤ length bytes.now) × (take end bytes.now ≡ concat (recovered bytes.now)) }
    requires first { (line : List ℕ) × IsLine line × (first.now ≡ line ++ 10 ∷ []) }
    ensures { MatchResult result
        (λ found. MatchOption found (IsNew bytes.now first.now) (λ entries. BeginsWith bytes.now first.now entries.now))
        (IsNoJournal bytes.now first.now) }
{
    let lines = &bytes[..end];
    if lines.is_empty() {
        check_new(bytes, first)?;
        return Ok(None);
    }
    match lines.strip_prefix(first) {
        Some(entries) => Ok(Some(entries)),
        None => Err(SiteFault::AnotherJournal),
    }
}
