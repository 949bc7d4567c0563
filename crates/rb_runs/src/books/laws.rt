//! Laws of closing a bank's books.
ghost use Rattle.rb_runs.specs.BookLaws.{AnswersArePeriods, CarriedForward, ClosedBalancesAgree, NextIsConfigured};
ghost use Rattle.rb_runs.specs.BookLaws.{OpenListsAreLacking, PeriodsAreOne};

use crate::audit::laws::inputs_are_read_back;
use rb_history::{configs_are_read, lines_are_single};
use rb_world::laws_always_hold;

/// If the histories are one world's and the books may be closed, any two sites have equal balances, and each has
/// applied every operation that any site made, and no other.
pub fn closed_balances_agree()
    ensures { ClosedBalancesAgree }
{
    laws_always_hold();
}

/// An `open` line of one world's histories: each name of a site's list is of an operation that some site made and this
/// one hasn't applied. Of each such operation the list has the name, or an earlier one of its home or of the red ones.
/// All lists are empty if and only if the books may be closed.
pub fn open_lists_are_lacking()
    ensures { OpenListsAreLacking }
{
    laws_always_hold();
}

/// If the histories are one world's and the books may be closed, each account of the next bank starts with its
/// balance: its start and the deltas of the applied operations, without cancellations and what they cancel. An added
/// account starts with 0, so the sum over all accounts stays. It is the same at every site.
pub fn carried_forward()
    ensures { CarriedForward }
{
    laws_always_hold();
}

/// If nothing is wrong with the next bank's sites and accounts, it is a configuration, and its line is read as it.
pub fn next_is_configured()
    ensures { NextIsConfigured }
{
    configs_are_read();
    lines_are_single();
    inputs_are_read_back();
}

/// Any number of periods, each a closed world of the configuration that the one before gave, and a world after them
/// are one bank: a balance is the first bank's start and the deltas of all that is kept, whichever site of each world
/// is asked. It is never negative.
pub fn periods_are_one()
    ensures { PeriodsAreOne }
{
    laws_always_hold();
}

/// The histories for which the next configuration's line is answered are such a period, and the line is that of the
/// configuration after it, whichever site is asked.
pub fn answers_are_periods()
    ensures { AnswersArePeriods }
{}
