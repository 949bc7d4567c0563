//! One site as a process: the lines of its events in, a line out for each, and its history in a journal that survives
//! crashes. Nothing is put out that a crash takes back.
//! Tests: tests/sites.py, tests/crash.py; examples/tools/check.py runs the rows of a site.
#![tactic(auto)]

mod bad_line;
mod begin;
mod entries;
mod fault;
mod first_line;
mod opening;
mod replay;
mod responder;
mod run;
mod seal;
mod why;

ghost use Rattle.rb_run_site.specs.Asking.{AskedOnce, AskingIsServing, SameAnswer};
ghost use Rattle.rb_run_site.specs.OtherBanks.{OtherBanksChangeNothing};
ghost use Rattle.rb_run_site.specs.Restarts.{NewJournalsAreTaken, RestartedRunsAreOne, RestartsAreTaken, RestartsGoOn};

pub use begin::open_on_line;
pub use fault::{SiteFault, site_message, site_status};
pub use opening::Opened;
pub use rb_node::{AllEvents, Changes, Records};
pub use responder::SiteResponder;
pub use run::{Ran, run_site};
pub use seal::seal_site;

/// However often a site ran and crashed, each run over the file that the crash before it left: the next run starts with
/// the very site that all turns led to whose entries are in the file, and all turns are one run of a site that doesn't
/// crash. So what the site answers is what it would have answered without the crashes, after the same events. And that
/// file is never at fault, nor is one that a crash left before the configuration's line was there.
pub fn restart_goes_on()
    ensures site { RestartsGoOn }
    ensures run { RestartedRunsAreOne }
    ensures taken { RestartsAreTaken }
    ensures new { NewJournalsAreTaken }
{
    rb_history::read_configs_are_configured();
    rb_history::configs_are_read();
    rb_node::replays_back();
    rb_node::asked_once();
}

/// However often a site ran and crashed, no two entries of its journal have one id: a request that is sent again and
/// again with its id is made at most once. A line whose id an entry has is answered by the entry's reply with its
/// messages, once more, or, if it is another request, by refusal 25, and nothing is recorded. And but for such lines a
/// site whose requests have ids answers as one whose requests have none, and has the same entries.
pub fn asked_again()
    ensures once { AskedOnce }
    ensures same { SameAnswer }
    ensures serving { AskingIsServing }
{
    rb_history::read_configs_are_configured();
    rb_history::configs_are_read();
    rb_node::replays_back();
    rb_node::asked_once();
}

/// However often a site ran and crashed, a line of another bank was answered by refusal 26, changed nothing and left no
/// entry.
pub fn other_banks_change_nothing()
    ensures { OtherBanksChangeNothing }
{
    rb_node::other_banks_are_refused();
}
