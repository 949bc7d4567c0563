//! Crashes are invisible: sites that crash and restart from their disks have the histories of sites that never crash.
//!
//! A site records events in memory, writes them to its disk, and reports them: their replies and messages go out. It
//! reports only what is on the disk, and a crash takes only what isn't. So nobody knows of what a crash takes: the
//! sites' histories are those of a world in which nothing crashed, and all laws of this crate hold of it but
//! `refused_receive`, which is of one site. And what was reported, to a client or to another site, is in the site's
//! history for good.
//!
//! Nothing here runs. The contract of each function is a law: specs/Crashes.antt says what a site with a disk is and
//! what may happen at it, specs/Interleaved.antt how steps of single sites make up a world's, specs/CrashLaws.antt the
//! laws. The last three say that these say something: crashes do take events away, and both promises would fail if a
//! crash took what was reported.
ghost use Rattle.rb_world.specs.Interleaved.{InterleavedStepsLead};
ghost use Rattle.rb_world.specs.CrashLaws.{AfterSteps, AllLawsHold, HidesCrashes, CrashesLoseEvents, DeeperCrashesShow};
ghost use Rattle.rb_world.specs.CrashLaws.{ForgetsTheReported, HeadlineHolds, KeepsTheReported, ReportsTheDurable};

use crate::laws_always_hold;

/// Whatever crashed when, the sites' histories are one world's, in which nothing crashed.
pub fn crashes_are_invisible()
    ensures { AfterSteps HidesCrashes }
{}

/// At 1 to `MOST_SITES` sites, in a world with just these sites and just the messages that they sent, operations are
/// undone exactly, sites that applied the same operations agree, each serialization extends the RedBlue order, and no
/// balance is negative. The other laws hold as well of such a world in which nothing crashed (`all`).
pub fn headline_holds()
    ensures headline { AfterSteps HeadlineHolds }
    ensures all { AfterSteps AllLawsHold }
{
    laws_always_hold();
}

/// The reports of a site, each an event with its reply and its messages, are a prefix of its history and of its reports
/// at any later time.
pub fn nothing_reported_is_lost()
    ensures { AfterSteps KeepsTheReported }
{}

/// At each site what is reported is on the disk, what is on the disk was recorded, and the history is within its limit.
pub fn reports_the_durable()
    ensures { AfterSteps ReportsTheDurable }
{}

/// Steps of single sites, each of which may happen at its site alone, lead from world to world in whatever order they
/// are taken, if each message that is delivered was reported before by some site. So what a run of one site says of
/// its own steps is enough for the laws of the worlds that such runs make up.
pub fn interleaved_steps_lead()
    ensures { InterleavedStepsLead }
{}

/// A restart from fewer events than were reported, which is no step of a world, loses some of what was reported:
/// `nothing_reported_is_lost` rests on that bound of a crash.
pub fn crash_forgets_the_reported()
    ensures { ForgetsTheReported }
{}

/// Crashes do take events away: if histories may have two entries, some crash takes one from a site that has
/// reported another.
pub fn crashes_lose_events()
    ensures { CrashesLoseEvents }
{}

/// If two sites may pass the token, a site that restarts from fewer events than it reported can leave histories that
/// are no world's: `crashes_are_invisible` rests on that bound too.
pub fn deeper_crash_shows()
    ensures { DeeperCrashesShow }
{}
