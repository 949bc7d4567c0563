//! Which version of the library this is.
ghost use Rattle.rb_capi.specs.Copies.{Copies};

use crate::copy::copy_text;

/// The version of the library and of its wrappers, by semantic versioning. It is said here:
/// bindings/declarations.py compares Rust's with it, and the others read it.
pub const VERSION: &str = "2.0.0";

/// Copies the library's version, such as `2.0.0`, to the beginning of `out`, as much of it as fits: how many bytes it
/// has.
#[unsafe(no_mangle)]
pub extern "C" fn rbbank_version(out: &mut [u8]) -> usize
    ensures { Copies VERSION.now out.old out.new result }
{
    copy_text(VERSION.as_bytes(), out)
}
