//! The verdict: the line that an audit, or closing the books, answers.
ghost use Rattle.std.specs.Prelude.{◌≡◌, ◌++◌, map, true, IfOk};
ghost use Rattle.serde_json.specs.Written.{compact_text};
ghost use Rattle.rb_history.specs.Adds.{Adds};
ghost use Rattle.rb_history.specs.Values.{list_json, name_json};
ghost use Rattle.rb_history.specs.Verdicts.{limit_json, open_json, order_json, stuck_json, verdict_line};
ghost use Rattle.rb_history.specs.Verdicts.{wrong_reply_json};
ghost use Rattle.rb_money.specs.Settings.{is_account_name};

use crate::keys::spell;
use crate::write::append::{append, append_number, append_three};
use crate::write::number::append_numbers;
use crate::write::reply::append_listed_name;
use rb_shadow::OpName;
use std::alloc::{AllocError, Global};

fn append_order(out: &mut Vec<u8>, order: &[u8]) -> Result<(), AllocError>
    ensures { Adds result out.old.items out.new.items (compact_text (order_json order.now)) }
{
    append(out, spell!("{" order ":"))?;
    append_numbers(out, order)?;
    append(out, "}")
}

fn append_stuck(out: &mut Vec<u8>, next: &[u32]) -> Result<(), AllocError>
    ensures { Adds result out.old.items out.new.items (compact_text (stuck_json next.now)) }
{
    append(out, spell!("{" fault ":" stuck "," next ":"))?;
    append_numbers(out, next)?;
    append(out, "}")
}

fn append_wrong_reply(out: &mut Vec<u8>, site: u8, event: u32) -> Result<(), AllocError>
    ensures { Adds result out.old.items out.new.items (compact_text (wrong_reply_json site event)) }
{
    append_number(
        out,
        spell!("{" event ":"),
        event as u64,
        spell!("," fault ":" reply "," site ":"),
    )?;
    append_number(out, "", site as u64, "}")
}

/// A list of names, after a text.
fn append_list(out: &mut Vec<u8>, front: &str, names: &[OpName]) -> Result<(), AllocError>
    ensures { Adds result out.old.items out.new.items (front.now ++ compact_text (list_json name_json names.now)) }
{
    append_three(out, front, "[", "")?;
    let mut comma = false;
    for name in names {
        append_listed_name(out, comma, *name)?;
        comma = true;
    }
    append(out, "]")
}

fn append_open(out: &mut Vec<u8>, lacks: &[Vec<OpName>]) -> Result<(), AllocError>
    ensures { Adds result out.old.items out.new.items
        (compact_text (open_json (map (λ names. names.items) lacks.now))) }
{
    append(out, spell!("{" fault ":" open "," lacks ":["))?;
    let mut comma = "";
    for names in lacks {
        append_list(out, comma, names.as_slice())?;
        comma = ",";
    }
    append(out, "]}")
}

fn append_limit(out: &mut Vec<u8>, name: &str) -> Result<(), AllocError>
    requires { is_account_name name.now ≡ true }
    ensures { Adds result out.old.items out.new.items (compact_text (limit_json name.now)) }
{
    append_three(
        out,
        spell!("{" account ":\""),
        name,
        spell!("\"," fault ":" limit "}"),
    )
}

/// The line of an order: the sites, from 0, in the order in which their entries were taken. With its
/// line feed. `Err` means out of memory.
pub fn order_line(alloc: Global, order: &[u8]) -> Result<Vec<u8>, AllocError>
    ensures { IfOk result (λ line. line.items ≡ verdict_line (order_json order.now)) }
{
    let mut line = Vec::new(alloc);
    append_order(&mut line, order)?;
    append(&mut line, "\n")?;
    Ok(line)
}

/// The line that reports the number, from 1, of each site's next entry, if none of them can be taken.
/// With its line feed. `Err` means out of memory.
pub fn stuck_line(alloc: Global, next: &[u32]) -> Result<Vec<u8>, AllocError>
    ensures { IfOk result (λ line. line.items ≡ verdict_line (stuck_json next.now)) }
{
    let mut line = Vec::new(alloc);
    append_stuck(&mut line, next)?;
    append(&mut line, "\n")?;
    Ok(line)
}

/// The line that reports the first wrong reply, by its site, from 0, and the entry's number, from 1. With
/// its line feed. `Err` means out of memory.
pub fn wrong_reply_line(alloc: Global, site: u8, event: u32) -> Result<Vec<u8>, AllocError>
    ensures { IfOk result (λ line. line.items ≡ verdict_line (wrong_reply_json site event)) }
{
    let mut line = Vec::new(alloc);
    append_wrong_reply(&mut line, site, event)?;
    append(&mut line, "\n")?;
    Ok(line)
}

/// The line that reports a bank that is open: of each site the operations that it lacks, of each home and of the red
/// ones the first. With its line feed. `Err` means out of memory.
pub fn open_line(alloc: Global, lacks: &[Vec<OpName>]) -> Result<Vec<u8>, AllocError>
    ensures { IfOk result (λ line. line.items ≡ verdict_line (open_json (map (λ names. names.items) lacks.now))) }
{
    let mut line = Vec::new(alloc);
    append_open(&mut line, lacks)?;
    append(&mut line, "\n")?;
    Ok(line)
}

/// The line that reports the account, by its name, that has more than it may start with. With its line feed. `Err`
/// means out of memory.
pub fn limit_line(alloc: Global, name: &str) -> Result<Vec<u8>, AllocError>
    requires { is_account_name name.now ≡ true }
    ensures { IfOk result (λ line. line.items ≡ verdict_line (limit_json name.now)) }
{
    let mut line = Vec::new(alloc);
    append_limit(&mut line, name)?;
    append(&mut line, "\n")?;
    Ok(line)
}
