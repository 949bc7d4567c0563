//! Replies. A reply with neither names nor rows is put into [`LINE`] bytes, for which space is made once, so that its
//! parts are put without a test of the capacity each; the others grow name by name, and row by row.
ghost use Rattle.std.specs.Prelude.{◌≡◌, ◌≤◌, ◌+◌, ◌++◌, [], codes, cond, length, IfOk, OnOk, OnErr, string_bytes};
ghost use Rattle.serde_json.specs.Written.{compact_text};
ghost use Rattle.rb_history.specs.Adds.{Adds};
ghost use Rattle.rb_history.specs.Placed.{Placed};
ghost use Rattle.rb_history.specs.Replies.{IsShortReply, line, reply_json};
ghost use Rattle.rb_history.specs.declared.write.line.TheConstants.{LINE};
ghost use Rattle.rb_history.specs.Values.{name_json, list_json, one_json};

use crate::keys::spell;
use crate::write::append::{append, make_space};
use crate::write::line::{LINE, put_made, put_name_between, put_number_between};
use crate::write::put::{put_if, put_name};
use crate::write::refusal::put_refusal;
use crate::write::statement::append_statement;
use rb_lines::whole_or_none;
use rb_shadow::OpName;
use rb_site::Reply;
use std::alloc::{AllocError, Global};

/// The most bytes of a name in quotes and the comma before it.
const LISTED: usize = 18;

/// A name, after a comma if that is wanted.
#[inline(always)]
pub fn append_listed_name(out: &mut Vec<u8>, comma: bool, name: OpName) -> Result<(), AllocError>
    ensures { Adds result out.old.items out.new.items (cond comma (codes ",") [] ++ compact_text (name_json name)) }
{
    let at = out.len();
    make_space(out, &[0; LISTED])?;
    let space = out.as_mut_slice();
    let at = put_if(space, at, b',', comma);
    let at = put_name(space, at, name);
    out.truncate(at);
    Ok(())
}

/// A list of names, as the one member of an object.
#[inline(never)]
fn append_names(out: &mut Vec<u8>, names: &[OpName]) -> Result<(), AllocError>
    ensures { Adds result out.old.items out.new.items
        (compact_text (one_json (codes "names") (list_json name_json names.now))) }
{
    append(out, spell!("{" names ":["))?;
    let mut comma = false;
    for name in names {
        append_listed_name(out, comma, *name)?;
        comma = true;
    }
    append(out, "]}")
}

/// Puts the object of a reply, which is a short one.
#[inline(always)]
#[tactic(auto, unfolding(json::specs::Print::escape_byte))]
fn put_reply(space: &mut [u8], at: usize, reply: &Reply) -> usize
    requires short { IsShortReply reply.now }
    requires space { at + LINE ≤ length space.old }
    ensures { Placed space.old space.new at (compact_text (reply_json reply.now)) result }
{
    match reply {
        Reply::Made { name, kind } => put_made(space, at, *name, *kind),
        Reply::Held(name) => put_name_between(space, at, spell!("{" held ":"), *name, "}"),
        Reply::Already(name) => put_name_between(space, at, spell!("{" already ":"), *name, "}"),
        Reply::Taken(epoch) => put_number_between(
            space,
            at,
            spell!("{" taken ":"),
            *epoch as u64,
            "}",
        ),
        Reply::Stale(epoch) => put_number_between(
            space,
            at,
            spell!("{" stale ":"),
            *epoch as u64,
            "}",
        ),
        Reply::Applied(name) => put_name_between(space, at, spell!("{" applied ":"), *name, "}"),
        Reply::Passed(epoch) => put_number_between(
            space,
            at,
            spell!("{" passed ":"),
            *epoch as u64,
            "}",
        ),
        Reply::Balance(cents) => put_number_between(
            space,
            at,
            spell!("{" balance ":"),
            *cents,
            "}",
        ),
        Reply::Refused(refusal) => put_refusal(space, at, refusal),
        Reply::Names(_) | Reply::Statement(_) => unreachable!(),
    }
}

/// The object of a reply, which is a short one.
#[inline(always)]
fn append_short(out: &mut Vec<u8>, reply: &Reply) -> Result<(), AllocError>
    requires { IsShortReply reply.now }
    ensures { Adds result out.old.items out.new.items (compact_text (reply_json reply.now)) }
{
    let at = out.len();
    make_space(out, &[0; LINE])?;
    let end = put_reply(out.as_mut_slice(), at, reply);
    out.truncate(end);
    Ok(())
}

/// The JSON object of a reply. An `Err` means out of memory: what was there stays, and more may follow it.
pub fn append_value(out: &mut Vec<u8>, reply: &Reply) -> Result<(), AllocError>
    ensures { Adds result out.old.items out.new.items (compact_text (reply_json reply.now)) }
{
    match reply {
        Reply::Names(names) => append_names(out, names.as_slice()),
        Reply::Statement(shown) => append_statement(out, shown),
        _ => append_short(out, reply),
    }
}

/// The line of a reply, with its line feed.
#[inline(always)]
fn append_reply_line(out: &mut Vec<u8>, reply: &Reply) -> Result<(), AllocError>
    ensures { Adds result out.old.items out.new.items (line reply.now) }
{
    append_value(out, reply)?;
    append(out, "\n")
}

/// Adds the line of a reply, with its line feed. An `Err` means out of memory, and adds nothing.
pub fn append_reply(out: &mut Vec<u8>, reply: &Reply) -> Result<(), AllocError>
    ensures ok { OnOk result (out.new.items ≡ out.old.items ++ line reply.now) }
    ensures err { OnErr result (out.new.items ≡ out.old.items) }
{
    let before = out.len();
    whole_or_none(append_reply_line(out, reply), out, before)
}

/// The line of a reply, with its line feed. An `Err` means out of memory.
pub fn write_reply(alloc: Global, reply: &Reply) -> Result<String, AllocError>
    ensures { IfOk result (λ s. string_bytes s ≡ line reply.now) }
{
    let mut bytes = Vec::new(alloc);
    append_reply(&mut bytes, reply)?;
    match String::from_utf8(bytes) {
        Ok(text) => Ok(text),
        Err(_) => unreachable!(),
    }
}
