//! Replies of a site.
ghost use Rattle.std.specs.Prelude.{◌≡◌, ◌↔◌, true, IfOk, IsTrue};
ghost use Rattle.rb_site.specs.Notes.{IsNoted, shows_change};

use crate::same::{same_in, same_label, same_refusal, same_value};
use rb_kit::List;
use rb_money::Refusal;
use rb_shadow::{Label, OpName};
use rb_statements::Statement;
use std::alloc::{AllocError, Global};

/// An answer of the site.
#[derive(Debug, Drop)]
pub enum Reply {
    /// A request's operation was made, of this kind.
    Made { name: OpName, kind: Label },
    /// A batch's operations were made.
    Names(List<OpName>),
    /// The received operation is held until it is applied.
    Held(OpName),
    /// The received operation is held or applied here already.
    Already(OpName),
    /// The token came, with this epoch.
    Taken(u32),
    /// A token message came whose epoch, this one, is not above what was seen here.
    Stale(u32),
    /// The held operation was applied.
    Applied(OpName),
    /// The token was sent to another site, with this epoch.
    Passed(u32),
    /// The account's balance in cents.
    Balance(u64),
    /// The account's statement.
    Statement(Statement),
    /// The event was refused.
    Refused(Refusal),
}

impl Reply {
    /// An equal reply. `Err` means out of memory.
    pub fn try_copy(&self, alloc: Global) -> Result<Reply, AllocError>
        ensures { IfOk result (λ copy. copy ≡ self.now) }
    {
        match self {
            Reply::Names(names) => {
                let names = names.try_copy(alloc)?;
                Ok(Reply::Names(names))
            }
            Reply::Statement(statement) => {
                let statement = statement.try_copy(alloc)?;
                Ok(Reply::Statement(statement))
            }
            Reply::Made { .. }
            | Reply::Held(_)
            | Reply::Already(_)
            | Reply::Taken(_)
            | Reply::Stale(_)
            | Reply::Applied(_)
            | Reply::Passed(_)
            | Reply::Balance(_)
            | Reply::Refused(_) => Ok(self.again(None)),
        }
    }

    /// An equal reply, from the copy that was noted. This takes no memory.
    pub fn again(&self, noted: Option<Reply>) -> Reply
        requires { IsNoted true self.now noted }
        ensures { result ≡ self.now }
    {
        if let Some(noted) = noted {
            return noted;
        }
        match self {
            Reply::Made { name, kind } => Reply::Made {
                name: *name,
                kind: *kind,
            },
            Reply::Held(name) => Reply::Held(*name),
            Reply::Already(name) => Reply::Already(*name),
            Reply::Taken(epoch) => Reply::Taken(*epoch),
            Reply::Stale(epoch) => Reply::Stale(*epoch),
            Reply::Applied(name) => Reply::Applied(*name),
            Reply::Passed(epoch) => Reply::Passed(*epoch),
            Reply::Balance(cents) => Reply::Balance(*cents),
            Reply::Refused(why) => Reply::Refused(*why),
            Reply::Names(_) | Reply::Statement(_) => unreachable!(),
        }
    }

    /// Whether the reply shows that the site has changed. A refusal does only if fewer shadows are held than before:
    /// then one that can't be applied was let go.
    pub(crate) fn shows_change(&self, fewer: bool) -> bool
        ensures { result ≡ shows_change fewer self.now }
    {
        match self {
            Reply::Already(_) | Reply::Stale(_) | Reply::Balance(_) | Reply::Statement(_) => false,
            Reply::Refused(_) => fewer,
            _ => true,
        }
    }

    /// Whether the two are equal.
    pub fn same(&self, other: &Reply) -> bool
        ensures { IsTrue result ↔ (self.now ≡ other.now) }
    {
        match self {
            Reply::Made { name, kind } => {
                same_in!(other, Reply::Made { name: it, kind: its } => same_value(name, it) && same_label(kind, its))
            }
            Reply::Names(names) => same_in!(other, Reply::Names(it) => names.same(it)),
            Reply::Held(name) => same_in!(other, Reply::Held(it) => same_value(name, it)),
            Reply::Already(name) => same_in!(other, Reply::Already(it) => same_value(name, it)),
            Reply::Taken(epoch) => same_in!(other, Reply::Taken(it) => *epoch == *it),
            Reply::Stale(epoch) => same_in!(other, Reply::Stale(it) => *epoch == *it),
            Reply::Applied(name) => same_in!(other, Reply::Applied(it) => same_value(name, it)),
            Reply::Passed(epoch) => same_in!(other, Reply::Passed(it) => *epoch == *it),
            Reply::Balance(cents) => same_in!(other, Reply::Balance(it) => *cents == *it),
            Reply::Statement(statement) => {
                same_in!(other, Reply::Statement(it) => statement.same(it))
            }
            Reply::Refused(why) => same_in!(other, Reply::Refused(it) => same_refusal(why, it)),
        }
    }
}
