//! Questions that a site answers beside events.
ghost use Rattle.std.specs.Prelude.{◌≡◌, ◌+◌, codes, option_map};
ghost use Rattle.serde_json.specs.Find.{get};
ghost use Rattle.serde_json.specs.View.{view};
ghost use Rattle.rb_money.specs.declared.limits.TheConstants.{MOST_HISTORY};
ghost use Rattle.rb_history.specs.declared.question.Question.TheVariants.{Resend};
ghost use Rattle.rb_history.specs.Banks.{question_beside, question_named, question_to};
ghost use Rattle.rb_history.specs.Lines.{Gives};
ghost use Rattle.rb_history.specs.Questions.{about_at, question_asked, question_of, question_of_line};
ghost use Rattle.rb_history.specs.Values.{number_below};

use crate::bank::BankName;
use crate::fault::LineFault;
use crate::keys::key;
use crate::read::banked::has_bank;
use crate::read::value::{read_value, size};
use rb_money::MOST_HISTORY;
use serde_json::Value;
use std::alloc::Global;

/// A question that a site answers. It is no event: nothing changes, and nothing is recorded.
#[derive(Clone, Copy, Debug, PartialEq, Eq)]
pub enum Question {
    /// About the site: how much it applied and holds.
    About,
    /// For the messages of the last entries, once more: of this number of entries, 0 to [`MOST_HISTORY`].
    Resend { entries: u32 },
}

/// A question about the site, from its word.
fn about(value: &Value) -> Option<Question>
    ensures { result ≡ about_at (view value.now) }
{
    match value.as_str() {
        Some(word) if word == key!(site) => Some(Question::About),
        _ => None,
    }
}

/// A question for the messages of the last entries, from their number.
fn resend(value: &Value) -> Option<Question>
    ensures { result ≡ option_map Resend (number_below (MOST_HISTORY + 1) (view value.now)) }
{
    match value.as_u64() {
        Some(n) if n <= MOST_HISTORY as u64 => Some(Question::Resend { entries: n as u32 }),
        _ => None,
    }
}

/// A question, by a key of an object that may have others.
fn asked_by_key(value: &Value) -> Option<Question>
    ensures { result ≡ question_asked (get (codes "about") (view value.now)) (get (codes "resend") (view value.now)) }
{
    if let Some(what) = value.get(key!(about)) {
        return about(what);
    }
    resend(value.get(key!(resend))?)
}

/// A question, from an object of one member.
fn asked(value: &Value) -> Option<Question>
    ensures { result ≡ question_of (view value.now) }
{
    if size(value) != 1 {
        return None;
    }
    asked_by_key(value)
}

/// A question beside a bank's name, from an object of two members.
fn asked_beside(value: &Value) -> Option<Question>
    ensures { result ≡ question_beside (view value.now) }
{
    if size(value) != 2 {
        return None;
    }
    asked_by_key(value)
}

/// A question to the bank of a name, by itself or beside the name.
fn asked_named(bank: &BankName, value: &Value) -> Option<Question>
    ensures { result ≡ question_named bank.now (view value.now) }
{
    if let Some(question) = asked(value) {
        return Some(question);
    }
    match has_bank(bank, value) {
        Some(true) => asked_beside(value),
        _ => None,
    }
}

/// The question that a line is to a bank without a name: `Bad` if it isn't one, `OutOfMemory` if there was no memory to
/// read it.
fn read_question(alloc: Global, line: &str) -> Result<Question, LineFault>
    ensures { Gives result (question_of_line line.now) }
{
    let value = read_value(alloc, line)?;
    asked(&value).ok_or(LineFault::Bad)
}

/// The question that a line is to a bank: `Bad` if it isn't one, `OutOfMemory` if there was no memory to read it.
///
/// To a bank with a name, it may have the name beside it, as the member `"bank"`.
pub fn read_question_to(alloc: Global, bank: &BankName, line: &str) -> Result<Question, LineFault>
    ensures { Gives result (question_to bank.now line.now) }
{
    if bank.as_bytes().is_empty() {
        return read_question(alloc, line);
    }
    let value = read_value(alloc, line)?;
    asked_named(bank, &value).ok_or(LineFault::Bad)
}
