//! Refusals, put into space that is there.
ghost use Rattle.std.specs.Prelude.{◌≤◌, ◌+◌, length};
ghost use Rattle.serde_json.specs.Written.{compact_text};
ghost use Rattle.rb_history.specs.Placed.{Placed};
ghost use Rattle.rb_history.specs.Replies.{refusal_json, behind_json, batch_json, cause_json};
ghost use Rattle.rb_history.specs.declared.write.line.TheConstants.{LINE};

use crate::keys::spell;
use crate::write::line::put_number_between;
use crate::write::put::{put_byte, put_small, put_text};
use rb_money::{Cause, Refusal};

/// Too few red operations applied: how many are needed, and how many the site has seen.
#[inline(never)]
#[tactic(auto, unfolding(json::specs::Print::escape_byte))]
fn put_behind(space: &mut [u8], at: usize, seen: u32, needed: u32) -> usize
    requires { at + LINE ≤ length space.old }
    ensures { Placed space.old space.new at (compact_text (behind_json seen needed)) result }
{
    let at = put_text(space, at, spell!("{" needed ":"));
    let at = put_small(space, at, needed);
    let at = put_text(space, at, spell!("," refused ":9," seen ":"));
    let at = put_small(space, at, seen);
    put_text(space, at, "}")
}

/// The cause that stopped a batch.
#[tactic(auto, unfolding(json::specs::Print::escape_byte))]
fn put_cause(space: &mut [u8], at: usize, cause: Cause) -> usize
    requires { at + 10 ≤ length space.old }
    ensures text { Placed space.old space.new at (compact_text (cause_json cause)) result }
    ensures short { result ≤ at + 10 }
{
    match cause {
        Cause::Declined => put_text(space, at, spell!(declined)),
        Cause::Refused(number) => put_byte(space, at, number),
    }
}

/// A batch refused: what stopped it, and at which request.
#[inline(never)]
#[tactic(auto, unfolding(json::specs::Print::escape_byte))]
fn put_batch(space: &mut [u8], at: usize, index: u8, cause: Cause) -> usize
    requires { at + LINE ≤ length space.old }
    ensures { Placed space.old space.new at (compact_text (batch_json index cause)) result }
{
    let at = put_text(space, at, spell!("{" cause ":"));
    let at = put_cause(space, at, cause);
    let at = put_text(space, at, spell!("," index ":"));
    let at = put_byte(space, at, index);
    put_text(space, at, spell!("," refused ":13}"))
}

/// Puts the object of a refusal: its number, and what it holds besides.
#[tactic(auto, unfolding(json::specs::Print::escape_byte))]
pub fn put_refusal(space: &mut [u8], at: usize, refusal: &Refusal) -> usize
    requires { at + LINE ≤ length space.old }
    ensures { Placed space.old space.new at (compact_text (refusal_json refusal.now)) result }
{
    match refusal {
        Refusal::AlreadyCancelled { position } => {
            put_number_between(
                space,
                at,
                spell!("{" position ":"),
                *position as u64,
                spell!("," refused ":6}"),
            )
        }
        Refusal::RedBehind { seen, needed } => put_behind(space, at, *seen, *needed),
        Refusal::BatchRefused { index, cause } => put_batch(space, at, *index, *cause),
        Refusal::BadMessage { why } => {
            put_number_between(
                space,
                at,
                spell!("{" refused ":17," why ":"),
                *why as u64,
                "}",
            )
        }
        _ => put_number_between(
            space,
            at,
            spell!("{" refused ":"),
            refusal.number() as u64,
            "}",
        ),
    }
}
