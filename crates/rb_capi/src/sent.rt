//! The messages of an answer, one by one.
ghost use Rattle.std.specs.Prelude.{◌≡◌, ◌^◌, IfOk, map, option_map};
ghost use Rattle.serde_json.specs.View.{view};
ghost use Rattle.rb_history.specs.Values.{number_below};
ghost use Rattle.rb_capi.specs.Sends.{IsMessage, IsOnLine, IsSentAs, json_on, messages_in};
ghost use Rattle.rb_capi.specs.Sends.{kept_messages, messages_on, addressee_of};

use rb_lines::text_on;
use rb_runs::split_line;
use serde_json::Value;
use std::alloc::{AllocError, Global};

/// In place of a site's number: each other site.
const EACH_OTHER_SITE: u8 = 255;

/// A message's line, without a line feed, and which site it is for.
#[derive(Drop)]
pub struct Sent {
    pub text: String,
    pub to: u8,
}

/// A message that is looked for on a line.
#[derive(Drop)]
enum OnLine {
    /// It is this one.
    Found(Sent),
    /// It isn't among the messages of the line, of which this is the number.
    Behind(usize),
}

/// The value on a line, if it is one. `Err` means out of memory.
fn json_on(alloc: Global, line: &[u8]) -> Result<Option<Value>, AllocError>
    ensures { IfOk result (λ value. option_map view value ≡ json_on line.now) }
{
    let Some(text) = text_on(line) else {
        return Ok(None);
    };
    match Value::from_str(alloc, text) {
        Ok(value) => Ok(Some(value)),
        Err(error) => {
            if error.is_memory() {
                return Err(AllocError);
            }
            Ok(None)
        }
    }
}

/// A number below 2^8.
fn byte(value: &Value) -> Option<u8>
    ensures { result ≡ number_below (2 ^ 8) (view value.now) }
{
    match value.as_u64() {
        Some(n) if n < 256 => Some(n as u8),
        _ => None,
    }
}

/// The site that a message is for.
fn addressee_of(message: &Value) -> u8
    ensures { result ≡ addressee_of (view message.now) }
{
    let Some(token) = message.get("token") else {
        return EACH_OTHER_SITE;
    };
    let Some(site) = token.get(1usize) else {
        return EACH_OTHER_SITE;
    };
    byte(site).unwrap_or(EACH_OTHER_SITE)
}

/// A message as it is sent. `Err` means out of memory.
fn make_sent(alloc: Global, message: &Value) -> Result<Sent, AllocError>
    ensures { IfOk result (IsSentAs (view message.now)) }
{
    let text = message.to_string(alloc)?;
    Ok(Sent {
        text,
        to: addressee_of(message),
    })
}

/// The messages of an answer.
fn messages_in(answer: &Value) -> &[Value]
    ensures { map view result.now ≡ messages_in (view answer.now) }
{
    let Some(sends) = answer.get("sends") else {
        return &[];
    };
    match sends.as_array() {
        Some(messages) => messages.as_slice(),
        None => &[],
    }
}

/// Looks for the message of this index on a line. `Err` means out of memory.
fn on_line(alloc: Global, line: &[u8], index: usize) -> Result<OnLine, AllocError>
    ensures { IfOk result (IsOnLine (messages_on line.now) index) }
{
    let Some(answer) = json_on(alloc, line)? else {
        return Ok(OnLine::Behind(0));
    };
    let messages = messages_in(&answer);
    if index < messages.len() {
        let sent = make_sent(alloc, &messages[index])?;
        return Ok(OnLine::Found(sent));
    }
    Ok(OnLine::Behind(messages.len()))
}

/// The message of this index on the lines of a text, if there is one. `Err` means out of memory.
pub fn find_message(alloc: Global, text: &[u8], index: usize) -> Result<Option<Sent>, AllocError>
    ensures { IfOk result (IsMessage (kept_messages text.now) index) }
{
    let mut rest = text;
    let mut left = index;
    'lines: while !rest.is_empty() {
        let (line, later) = split_line(rest);
        match on_line(alloc, line, left)? {
            OnLine::Found(sent) => return Ok(Some(sent)),
            OnLine::Behind(messages) => left -= messages,
        }
        rest = later;
    }
    Ok(None)
}
