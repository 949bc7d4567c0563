//! Pieces of a line, added at the end of bytes. An `Err` means out of memory: what was there stays, and more may
//! follow it.
ghost use Rattle.std.specs.Prelude.{◌≡◌, ◌≤◌, ◌+◌, ◌++◌, decimal, length, take, OnOk, OnErr};
ghost use Rattle.json.specs.Print.{quoted};
ghost use Rattle.rb_shadow.specs.NameText.{name_text};
ghost use Rattle.rb_history.specs.Adds.{Adds};
ghost use Rattle.rb_history.specs.declared.write.line.TheConstants.{SHORT};

pub use crate::write::line::SHORT;
use crate::write::line::{LINE, put_name_between, put_number_between};
use itoa::Buffer;
use rb_shadow::OpName;
use std::alloc::AllocError;

/// A text.
#[inline(always)]
pub fn append(out: &mut Vec<u8>, text: &str) -> Result<(), AllocError>
    ensures { Adds result out.old.items out.new.items text.now }
{
    out.extend_from_slice(text.as_bytes())
}

/// Three texts.
#[inline(always)]
pub fn append_three(
    out: &mut Vec<u8>,
    first: &str,
    second: &str,
    third: &str,
) -> Result<(), AllocError>
    ensures { Adds result out.old.items out.new.items (first.now ++ (second.now ++ third.now)) }
{
    append(out, first)?;
    append(out, second)?;
    append(out, third)
}

/// Makes space after the bytes that are there, by as many bytes as are given; their values don't matter.
#[inline(always)]
pub(crate) fn make_space(out: &mut Vec<u8>, blank: &[u8]) -> Result<(), AllocError>
    ensures ok { OnOk result ((take (length out.old.items) out.new.items ≡ out.old.items)
        × (length out.new.items ≡ length out.old.items + length blank.now)) }
    ensures err { OnErr result (out.new.items ≡ out.old.items) }
{
    out.extend_from_slice(blank)
}

/// A number between two texts.
#[inline(always)]
pub fn append_number(out: &mut Vec<u8>, front: &str, n: u64, back: &str) -> Result<(), AllocError>
    ensures { Adds result out.old.items out.new.items (front.now ++ (decimal n ++ back.now)) }
{
    if front.len() > SHORT || back.len() > SHORT {
        return append_three(out, front, Buffer::new().format(n), back);
    }
    let at = out.len();
    make_space(out, &[0; LINE])?;
    let end = put_number_between(out.as_mut_slice(), at, front, n, back);
    out.truncate(end);
    Ok(())
}

/// An operation's name in quotes, between two texts of at most [`SHORT`] bytes.
#[inline(always)]
pub fn append_named(
    out: &mut Vec<u8>,
    front: &str,
    name: OpName,
    back: &str,
) -> Result<(), AllocError>
    requires front { length front.now ≤ SHORT }
    requires back { length back.now ≤ SHORT }
    ensures { Adds result out.old.items out.new.items (front.now ++ (quoted (name_text name) ++ back.now)) }
{
    let at = out.len();
    make_space(out, &[0; LINE])?;
    let end = put_name_between(out.as_mut_slice(), at, front, name, back);
    out.truncate(end);
    Ok(())
}
