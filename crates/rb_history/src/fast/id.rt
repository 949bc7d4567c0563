//! Ids, in one pass. `None` says nothing of a text.
ghost use Rattle.std.specs.Prelude.{◌≡◌, ◌≤◌, ◌++◌, IfSome, codes, length, take, true};
ghost use Rattle.std.specs.List.{list_all};
ghost use Rattle.rb_history.specs.Ids.{is_id, is_id_byte};

use crate::fast::scan::parse_prefix;
use crate::id::{MOST_ID_BYTES, is_id_byte};

/// How many bytes that an id may have the text begins with.
#[inline(always)]
fn id_len(text: &[u8]) -> usize
    ensures within { result ≤ length text.now }
    ensures bytes { list_all is_id_byte (take result text.now) ≡ true }
{
    let mut len = 0;
    while len < text.len() && is_id_byte(text[len]) {
        len += 1;
    }
    len
}

/// The id after a text that ends with its first quote, and what follows its last.
pub fn parse_id_behind<'a>(text: &'a str, front: &str) -> Option<(&'a str, &'a str)>
    ensures { IfSome result (λ p. (is_id p.0.now ≡ true)
        × (text.now ≡ front.now ++ (p.0.now ++ (codes "\"" ++ p.1.now)))) }
{
    let text = parse_prefix(text, front)?;
    let bytes = text.as_bytes();
    let len = id_len(bytes);
    if len == 0 || len > MOST_ID_BYTES || len == bytes.len() || bytes[len] != b'"' {
        return None;
    }
    Some((&text[..len], &text[len + 1..]))
}
