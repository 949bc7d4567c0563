//! A journal of lines that survives crashes: a batch of lines is on the disk before anything that rests on it is put
//! out, and a crash at any moment leaves all of a batch or none of it.
//!
//! [`Journal`] keeps lines over a [`Host`], which is a file and an output in one: [`Disk`] is a file of the operating
//! system, [`Planned`] one whose calls a program with a loop of its own makes. `rbbank site` keeps its history so.
//!
//! [`serve`] answers the lines of a reader by a [`JournaledResponder`], whose state is the run of a journal's lines:
//! what a read brings is answered, its entries go to the disk together, and then the answers are put out. So nothing
//! is put out that a crash takes back.
//!
//! A journal can be sealed ([`is_sealed`]): it is then never written again.
//! Tests: tests/sites.py, tests/crash.py, tests/disk.py.
#![tactic(auto)]

mod alone;
mod batch;
mod call;
mod call_log;
mod disk;
mod fault;
mod group;
mod host;
mod input;
mod journal;
mod long;
mod named_file;
mod open_error;
mod planned;
mod responder;
mod run;
mod seal;
mod spare;
mod streams;
mod waiting;
mod work;

pub use alone::answer_alone;
pub use batch::LineBatch;
pub use call::Call;
pub use call_log::CallLog;
pub use disk::{Disk, open_disk};
pub use fault::ServeFault;
pub use host::{Host, HostError};
pub use input::Input;
pub use journal::{Journal, count_lines, damaged_line};
pub use open_error::OpenError;
pub use planned::Planned;
pub use responder::JournaledResponder;
pub use run::serve;
pub use seal::is_sealed;
