//! Ids of requests, which the lines of an event and of its entry may have. No id is an empty text and not an `Option`,
//! so that one place serves line after line.
ghost use Rattle.std.specs.Prelude.{◌≡◌, [], ◌&&◌, true};
ghost use Rattle.std.specs.List.{list_all};
ghost use Rattle.rb_history.specs.Ids.{IsIdOrNone, is_id, is_id_byte, may_be_asked, may_have_id};

use rb_site::{Entry, Event, Reply};
use std::marker::Model;

/// The most bytes that an id has.
pub const MOST_ID_BYTES: usize = 64;

/// The id of a request, or none: 1 to [`MOST_ID_BYTES`] bytes of `A-Z a-z 0-9 . _ : -`, at the front of its space. It
/// takes no block of memory: one for each line that has an id took 250 instructions.
#[derive(Drop)]
pub struct RequestId {
    bytes: [u8; MOST_ID_BYTES],
    len: usize,
}

impl Model for RequestId {
    ghost use Rattle.std.specs.Prelude.{List, ℕ, ◌≤◌, take};
    ghost use Rattle.rb_history.specs.Ids.{IsIdOrNone};
    ghost use Rattle.rb_history.specs.declared.id.TheConstants.{MOST_ID_BYTES};

    ghost Value = { List ℕ };

    ghost view = { λ id. take id.len id.bytes };

    ghost invariant = { λ id. (id.len ≤ MOST_ID_BYTES) × IsIdOrNone (take id.len id.bytes) };
}

impl RequestId {
    /// No id.
    pub fn none() -> RequestId
        ensures { result ≡ [] }
    {
        RequestId {
            bytes: [0; MOST_ID_BYTES],
            len: 0,
        }
    }

    /// The bytes of the id; none if there is no id.
    pub fn as_bytes(&self) -> &[u8]
        ensures same { result.now ≡ self.now }
        ensures id { IsIdOrNone self.now }
    {
        &self.bytes[..self.len]
    }

    /// No id takes the place of what was there.
    pub fn clear(&mut self)
        ensures { self.new ≡ [] }
    {
        self.len = 0;
    }

    /// An id, or no id, takes the place of what was there.
    pub fn set(&mut self, text: &str)
        requires { IsIdOrNone text.now }
        ensures { self.new ≡ text.now }
    {
        let bytes = text.as_bytes();
        self.bytes[..bytes.len()].copy_from_slice(bytes);
        self.len = bytes.len();
    }
}

/// Whether an id may have the byte. The tests go down, since most are small letters and digits, which a colon follows.
#[inline(always)]
pub(crate) fn is_id_byte(b: u8) -> bool
    ensures { result ≡ is_id_byte b }
{
    if b >= b'a' {
        return b <= b'z';
    }
    if b >= b'0' {
        return b <= b':' || b'A' <= b && b <= b'Z' || b == b'_';
    }
    b == b'-' || b == b'.'
}

/// Whether each of the bytes is one that an id may have.
fn are_id_bytes(bytes: &[u8]) -> bool
    ensures { result ≡ list_all is_id_byte bytes.now }
{
    for b in bytes {
        if !is_id_byte(*b) {
            return false;
        }
    }
    true
}

/// Whether the text is an id.
pub fn is_id(text: &str) -> bool
    ensures { result ≡ is_id text.now }
{
    let bytes = text.as_bytes();
    1 <= bytes.len() && bytes.len() <= MOST_ID_BYTES && are_id_bytes(bytes)
}

/// Whether the event may have an id: a request, or a batch of them.
pub fn may_have_id(event: &Event) -> bool
    ensures { result ≡ may_have_id event.now }
{
    match event {
        Event::Submit(_) | Event::Batch(_) => true,
        Event::Receive(_) | Event::Apply(_) | Event::Pass(_) => false,
        Event::Balance(_) | Event::AsOf(_, _) | Event::Statement(_) => false,
    }
}

/// Whether the entry of an event and its reply may have an id: the event may, and wasn't refused.
pub fn may_be_asked_by(event: &Event, reply: &Reply) -> bool
    ensures { result ≡ may_be_asked (record { event = event.now; reply = reply.now }) }
{
    match reply {
        Reply::Refused(_) => false,
        _ => may_have_id(event),
    }
}

/// Whether the entry may have an id.
pub fn may_be_asked(entry: &Entry) -> bool
    ensures { result ≡ may_be_asked entry.now }
{
    may_be_asked_by(&entry.event, &entry.reply)
}
