//! Short texts, put into space that is there.
ghost use Rattle.std.specs.Prelude.{◌≤◌, ◌+◌, ◌++◌, decimal, length};
ghost use Rattle.json.specs.Print.{quoted};
ghost use Rattle.serde_json.specs.Written.{compact_text};
ghost use Rattle.rb_history.specs.Placed.{Placed};
ghost use Rattle.rb_history.specs.Replies.{made_json};
ghost use Rattle.rb_history.specs.declared.write.line.TheConstants.{LINE, SHORT};
ghost use Rattle.rb_shadow.specs.NameText.{name_text};

use crate::keys::spell;
use crate::write::put::{put_name, put_number, put_text, put_word};
use rb_shadow::{Label, OpName};

/// The memory that is taken for a reply with neither names nor rows, in bytes.
pub const LINE: usize = 64;

/// The most bytes of the text before a number or a name, and of the one after it.
pub const SHORT: usize = 20;

/// Puts a number between two texts.
#[inline(always)]
pub fn put_number_between(space: &mut [u8], at: usize, front: &str, n: u64, back: &str) -> usize
    requires front { length front.now ≤ SHORT }
    requires back { length back.now ≤ SHORT }
    requires space { at + LINE ≤ length space.old }
    ensures { Placed space.old space.new at (front.now ++ (decimal n ++ back.now)) result }
{
    let at = put_text(space, at, front);
    let at = put_number(space, at, n);
    put_text(space, at, back)
}

/// Puts an operation's name in quotes between two texts.
#[inline(always)]
pub fn put_name_between(space: &mut [u8], at: usize, front: &str, name: OpName, back: &str) -> usize
    requires front { length front.now ≤ SHORT }
    requires back { length back.now ≤ SHORT }
    requires space { at + LINE ≤ length space.old }
    ensures { Placed space.old space.new at (front.now ++ (quoted (name_text name) ++ back.now)) result }
{
    let at = put_text(space, at, front);
    let at = put_name(space, at, name);
    put_text(space, at, back)
}

/// Puts the object of an operation that was made: its kind and its name.
#[inline(always)]
pub fn put_made(space: &mut [u8], at: usize, name: OpName, kind: Label) -> usize
    requires { at + LINE ≤ length space.old }
    ensures { Placed space.old space.new at (compact_text (made_json name kind)) result }
{
    let at = put_text(space, at, spell!("{" kind ":\""));
    let at = put_word(space, at, kind);
    let at = put_text(space, at, spell!("\"," name ":"));
    let at = put_name(space, at, name);
    put_text(space, at, "}")
}
