//! JSON values: numbers, names, kinds, lists of a known length and sizes of objects. `None` means that a value is
//! nothing of the kind.
ghost use Rattle.std.specs.Prelude.{◌≡◌, ◌^◌, option_map};
ghost use Rattle.serde_json.specs.Read.{read};
ghost use Rattle.serde_json.specs.View.{view};
ghost use Rattle.rb_history.specs.Fields.{label_at, six_of};
ghost use Rattle.rb_history.specs.Lines.{GivesAs};
ghost use Rattle.rb_history.specs.Values.{number_below, name_at, pair_of, size_of, three_of};

use crate::fault::LineFault;
use crate::labels::label_of_word;
use rb_shadow::{Label, OpName, read_name};
use serde_json::Value;
use std::alloc::Global;

/// The JSON value that a line is: `Bad` if it isn't one, `OutOfMemory` if there was no memory to read it.
///
/// This is a call, and so is `command`: what needs no value takes none of the 17 KB that they have on the stack.
#[inline(never)]
pub fn read_value(alloc: Global, line: &str) -> Result<Value, LineFault>
    ensures { GivesAs view result (read line.now) }
{
    match Value::from_str(alloc, line) {
        Ok(value) => Ok(value),
        Err(error) if error.is_memory() => Err(LineFault::OutOfMemory),
        Err(_) => Err(LineFault::Bad),
    }
}

/// A number below 2^8.
pub fn byte(value: &Value) -> Option<u8>
    ensures { result ≡ number_below (2 ^ 8) (view value.now) }
{
    match value.as_u64() {
        Some(n) if n < 256 => Some(n as u8),
        _ => None,
    }
}

/// A number below 2^32.
pub fn word(value: &Value) -> Option<u32>
    ensures { result ≡ number_below (2 ^ 32) (view value.now) }
{
    match value.as_u64() {
        Some(n) if n < 0x1_0000_0000 => Some(n as u32),
        _ => None,
    }
}

/// A number below 2^64.
pub fn long(value: &Value) -> Option<u64>
    ensures { result ≡ number_below (2 ^ 64) (view value.now) }
{
    value.as_u64()
}

/// An operation's name.
pub fn name(value: &Value) -> Option<OpName>
    ensures { result ≡ name_at (view value.now) }
{
    let text = value.as_str()?;
    read_name(text)
}

/// The kind that a value is.
pub fn label(value: &Value) -> Option<Label>
    ensures { result ≡ label_at (view value.now) }
{
    let word = value.as_str()?;
    label_of_word(word)
}

/// The two items of a list of two.
#[tactic(auto, using(crate::proofs::Shapes::no_pair))]
pub fn pair(value: &Value) -> Option<(&Value, &Value)>
    ensures { option_map (λ p. (view p.0.now, view p.1.now)) result ≡ pair_of (view value.now) }
{
    let items = value.as_array()?;
    if items.len() == 2 {
        Some((&items[0], &items[1]))
    } else {
        None
    }
}

/// The three items of a list of three.
#[tactic(auto, using(crate::proofs::Shapes::no_three))]
pub fn three(value: &Value) -> Option<(&Value, &Value, &Value)>
    ensures { option_map (λ p. (view p.0.now, view p.1.now, view p.2.now)) result ≡ three_of (view value.now) }
{
    let items = value.as_array()?;
    if items.len() == 3 {
        Some((&items[0], &items[1], &items[2]))
    } else {
        None
    }
}

/// The six items of a list of six.
#[tactic(auto, using(crate::proofs::Shapes::no_six))]
pub fn six(value: &Value) -> Option<(&Value, &Value, &Value, &Value, &Value, &Value)>
    ensures { option_map (λ p. (
      view p.0.now,
      view p.1.now,
      view p.2.now,
      view p.3.now,
      view p.4.now,
      view p.5.now,
    )) result ≡ six_of (view value.now) }
{
    let items = value.as_array()?;
    if items.len() == 6 {
        Some((
            &items[0], &items[1], &items[2], &items[3], &items[4], &items[5],
        ))
    } else {
        None
    }
}

/// How many members an object has.
pub fn size(value: &Value) -> usize
    ensures { result ≡ size_of (view value.now) }
{
    match value.as_object() {
        Some(members) => members.len(),
        None => 0,
    }
}
