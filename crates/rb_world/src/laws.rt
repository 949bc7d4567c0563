//! The laws of worlds: of every world that a bank's own events lead to, and of any `World` at hand. A law of a `World`
//! says nothing of the steps that led to it, so it rests on few definitions. Nothing here runs.
ghost use Rattle.rb_world.specs.Laws.{Agreement, Always, CanCatchUp, Clocks, ExactReversal, Funds, Headline};
ghost use Rattle.rb_world.specs.Laws.{NeverNegative, NeverStuck, OneToken, OtherLaws, RedBlue};
ghost use Rattle.rb_world.specs.Laws.{TrustsItsOwn, ValidLists};

use crate::{KeepsEvent, KeepsMessage, World};
use rb_site::KeepsEntry;

/// All laws hold of every world that a bank's own events lead to, in any configuration of 1 to `MOST_SITES` sites.
pub fn laws_always_hold()
    ensures headline { Always Headline }
    ensures others { Always OtherLaws }
{}

impl<E: KeepsEntry, R: KeepsEvent, M: KeepsMessage> World<E, R, M> {
    /// All laws hold, whatever happened: a world is the run of its events.
    pub fn laws_hold(&self)
        ensures headline { Headline self.now.settings self.now.world }
        ensures others { OtherLaws self.now.settings self.now.world }
    {
        let _ = &self.config;
    }

    /// At each site applying any accepted operation and undoing it, or undoing all operations after any position,
    /// leaves the exact operations and undo records of before.
    pub fn exact_reversal(&self)
        ensures { ExactReversal self.now.settings self.now.world }
    {
        self.laws_hold();
    }

    /// At most one site has the token, whatever token messages are repeated.
    pub fn one_token(&self)
        ensures { OneToken self.now.settings self.now.world }
    {
        self.laws_hold();
    }

    /// The operations made are a RedBlue order; each site's list is a causal serialization of some of them, and has all
    /// that were made there. After "Defining RedBlue consistency" of the published paper.
    pub fn red_blue(&self)
        ensures { RedBlue self.now.settings self.now.world }
    {
        self.laws_hold();
    }

    /// The names that a site applied are those of a clock.
    pub fn clocks(&self)
        ensures { Clocks self.now.settings self.now.world }
    {
        self.laws_hold();
    }

    /// Sites that applied the same operations agree.
    pub fn agreement(&self)
        ensures { Agreement self.now.settings self.now.world }
    {
        self.laws_hold();
    }

    /// Each balance has its source, in every part of the operations made that has the past of each of its own: the
    /// start, if none of the part is red, or what the last red one of the part left after its past, which isn't
    /// negative. The balance is no less than that.
    pub fn funds(&self)
        ensures { Funds self.now.settings self.now.world }
    {
        self.laws_hold();
    }

    /// Each site's list is valid, so that a ledger may hold it.
    pub fn valid_lists(&self)
        ensures { ValidLists self.now.settings self.now.world }
    {
        self.laws_hold();
    }

    /// No balance at a site is negative.
    pub fn never_negative(&self)
        ensures { NeverNegative self.now.settings self.now.world }
    {
        self.laws_hold();
    }

    /// While its history isn't full, a site holds or knows an operation that was made and whose past it has applied,
    /// when it is delivered, and applies it when it is held and is to be applied.
    pub fn never_stuck(&self)
        ensures { NeverStuck self.now.settings self.now.world }
    {
        self.laws_hold();
    }

    /// No delivery is refused as a bad message or as a conflict.
    pub fn trusts_its_own(&self)
        ensures { TrustsItsOwn self.now.settings self.now.world }
    {
        self.laws_hold();
    }

    /// While a site's history may have that many entries more, two events for each operation that it lacks bring it all
    /// that was made.
    pub fn can_catch_up(&self)
        ensures { CanCatchUp self.now.settings self.now.world }
    {
        self.laws_hold();
    }
}
