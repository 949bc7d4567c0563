//! The first line feed of some bytes.
ghost use Rattle.std.specs.Prelude.{◌≡◌, ◌==◌, ◌≤◌, length};
ghost use Rattle.std.specs.List.{position};
ghost use Rattle.rb_lines.specs.Lines.{line_len};

use memchr::memchr;

/// The bytes before the first line feed, or all of them.
pub(crate) fn line_length(bytes: &[u8]) -> usize
    ensures length { result ≡ line_len bytes.now }
    ensures within { result ≤ length bytes.now }
{
    match memchr(b'\n', bytes) {
        Some(found) => found,
        None => bytes.len(),
    }
}

/// The place of the first line feed.
pub fn first_feed(bytes: &[u8]) -> Option<usize>
    ensures { result ≡ position (λ b. b == 10) bytes.now }
{
    let length = line_length(bytes);
    if length == bytes.len() {
        return None;
    }
    Some(length)
}
