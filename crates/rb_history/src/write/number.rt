//! Lists of numbers, added at the end of bytes.
ghost use Rattle.std.specs.Prelude.{◌≡◌, ◌++◌, ℕ, [], codes, cond, decimal};
ghost use Rattle.serde_json.specs.Written.{compact_text};
ghost use Rattle.rb_history.specs.Adds.{Adds};
ghost use Rattle.rb_history.specs.Values.{list_json, number_json};

use crate::write::append::{append, make_space};
use crate::write::put::{put_if, put_number};
use std::alloc::AllocError;

/// The most bytes of a number and the comma before it.
const LISTED: usize = 21;

/// A number of at most 64 bits.
pub trait Number: Copy {
    ghost value: { Self → ℕ };

    /// The number, as one of 64 bits.
    fn wide(self) -> u64
        ensures { result ≡ value self };
}

impl Number for u8 {
    ghost value = { λ n. n };

    fn wide(self) -> u64 {
        self as u64
    }
}

impl Number for u32 {
    ghost value = { λ n. n };

    fn wide(self) -> u64 {
        self as u64
    }
}

/// A number, after a comma if that is wanted.
#[inline(always)]
fn append_listed_number(out: &mut Vec<u8>, comma: bool, n: u64) -> Result<(), AllocError>
    ensures { Adds result out.old.items out.new.items (cond comma (codes ",") [] ++ decimal n) }
{
    let at = out.len();
    make_space(out, &[0; LISTED])?;
    let space = out.as_mut_slice();
    let at = put_if(space, at, b',', comma);
    let at = put_number(space, at, n);
    out.truncate(at);
    Ok(())
}

/// A list of numbers.
pub fn append_numbers<N: Number>(out: &mut Vec<u8>, numbers: &[N]) -> Result<(), AllocError>
    ensures { Adds result out.old.items out.new.items (compact_text
        (list_json (λ n. number_json (N.value n)) numbers.now)) }
{
    append(out, "[")?;
    let mut comma = false;
    for number in numbers {
        append_listed_number(out, comma, (*number).wide())?;
        comma = true;
    }
    append(out, "]")
}
