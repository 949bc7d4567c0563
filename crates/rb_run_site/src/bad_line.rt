//! The answers to lines that are no events.
ghost use Rattle.std.specs.Prelude.{◌≡◌, ◌++◌, codes, decimal, IfSome, List, None, OnErr, OnOk, option_map, Some, ℕ};
ghost use Rattle.std.specs.Prelude.{string_bytes};
ghost use Rattle.json.specs.Print.{quoted};
ghost use Rattle.rb_history.specs.Adds.{Adds};
ghost use Rattle.rb_node.specs.Answers.{line_of};
ghost use Rattle.rb_run_site.specs.Journals.{AddsBadLine, bad_json};

use rb_history::spell;
use rb_history::write::append::{append_number, append_three};
use rb_lines::whole_or_none;
use serde_json::Value;
use std::alloc::{AllocError, Global};

/// A word for what is bad about a line, the line's number, and a key with the reason in quotes, if there is one.
fn append_parts(
    out: &mut Vec<u8>,
    word: &str,
    number: u64,
    key: &str,
    why: &str,
) -> Result<(), AllocError>
    ensures { Adds result out.old.items out.new.items (codes "{\"bad\":\"" ++ (word.now ++ (codes "\",\"line\":"
        ++ (decimal number ++ (key.now ++ (why.now ++ codes "}\n")))))) }
{
    append_three(out, spell!("{" bad ":\""), word, spell!("\"," line ":"))?;
    append_number(out, "", number, key)?;
    append_three(out, why, "}\n", "")
}

/// Adds what `append_parts` adds, all of it or nothing: out of memory leaves what was there.
fn append_whole(
    out: &mut Vec<u8>,
    word: &str,
    number: u64,
    key: &str,
    why: &str,
) -> Result<(), AllocError>
    ensures ok { OnOk result (out.new.items ≡ out.old.items ++ (codes "{\"bad\":\"" ++ (word.now
        ++ (codes "\",\"line\":" ++ (decimal number ++ (key.now ++ (why.now ++ codes "}\n"))))))) }
    ensures err { OnErr result (out.new.items ≡ out.old.items) }
{
    let before = out.len();
    whole_or_none(append_parts(out, word, number, key, why), out, before)
}

/// The reason in quotes, if there is one, and memory for it.
fn quoted(alloc: Global, why: Option<String>) -> Option<String>
    ensures { IfSome result (λ text. (said : List ℕ) × (option_map string_bytes why ≡ Some said)
        × (string_bytes text ≡ quoted said)) }
{
    Value::String(why?).to_string(alloc).ok()
}

/// Adds the answer to a line that is no event, with the reason, if there is one and memory for it. `Err` means out of
/// memory: nothing is added.
pub fn append_bad_line(
    alloc: Global,
    out: &mut Vec<u8>,
    number: u64,
    why: Option<String>,
) -> Result<(), AllocError>
    ensures ok { OnOk result (AddsBadLine number (option_map string_bytes why) out.old.items out.new.items) }
    ensures err { OnErr result (out.new.items ≡ out.old.items) }
{
    match quoted(alloc, why) {
        Some(text) => append_whole(out, "line", number, spell!("," why ":"), &text),
        None => append_whole(out, "line", number, "", ""),
    }
}

/// Adds the answer to a line that is too long. `Err` means out of memory: nothing is added.
pub fn append_long_line(out: &mut Vec<u8>, number: u64) -> Result<(), AllocError>
    ensures ok { OnOk result (out.new.items ≡ out.old.items ++ line_of (bad_json (codes "long") number None)) }
    ensures err { OnErr result (out.new.items ≡ out.old.items) }
{
    append_whole(out, "long", number, "", "")
}
