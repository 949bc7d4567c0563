//! Texts that are written whole or not at all.
ghost use Rattle.std.specs.Prelude.{◌≡◌, take, OnErr, OnOk};

/// What came of writing at the end of a text, whose first `before` bytes were there: an `Err` leaves only these.
#[inline(always)]
pub fn whole_or_none<T, E>(done: Result<T, E>, text: &mut Vec<u8>, before: usize) -> Result<T, E>
    ensures done { result ≡ done }
    ensures ok { OnOk result (text.new.items ≡ text.old.items) }
    ensures err { OnErr result (text.new.items ≡ take before text.old.items) }
{
    if done.is_err() {
        text.truncate(before);
    }
    done
}
