//! The messages of one call on their way to links. At run time there is the number of those that no link took, and no
//! list: that is of snapshots of what it was before, which take no memory.
ghost use Rattle.std.specs.Prelude.{◌≡◌, ◌<◌, ◌++◌, ◌∷◌, [], length};
ghost use Rattle.rb_branch.specs.Postings.{refusals};
ghost use Rattle.rb_branch.specs.declared.limits.TheConstants.{MOST_TRIES};

use rb_site::Message;
use std::marker::Model;
use std::snapshot::Snapshot;

/// What was given to links, in order, and how many of them refused it or weren't there. Clients see the former.
#[cycle(posting)]
#[derive(Drop)]
pub(crate) struct Posting {
    tries: Tries,
    unsent: u32,
}

/// Nothing, or one more than before: a message that was given to the link of a site, and whether the link took it.
#[cycle(posting)]
#[derive(Drop)]
enum Tries {
    Nothing,
    OneMore(Snapshot<Posting>, Snapshot<usize>, Snapshot<Message>, Snapshot<bool>),
}

impl Model for Posting {
    ghost use Rattle.std.specs.Prelude.{List, length};
    ghost use Rattle.std.proofs.Common.{arith, length-append};
    ghost use Rattle.rb_branch.specs.Postings.{IsPosting, Tried};

    ghost Value = { List Tried };

    ghost use Rattle.rb_branch.specs.Tries.{tries_of};

    ghost view = { λ p. tries_of p.tries };

    ghost invariant = { λ p. IsPosting (tries_of p.tries) p.unsent };

    ghost size = { length };

    ghost size_decreases = { λ p h. Prim.grind (arith, length-append) };
}

impl Posting {
    /// Nothing was given to any link yet.
    pub(crate) fn new() -> Posting
        ensures { result ≡ [] }
    {
        Posting {
            tries: Tries::Nothing,
            unsent: 0,
        }
    }

    /// Notes that a message was given to the link of a site, and whether the link took it.
    pub(crate) fn note(&mut self, to: usize, message: &Message, took: bool)
        requires { length self.old < MOST_TRIES }
        ensures { self.new ≡ self.old ++ (record { to = to; message = message.now; took = took }) ∷ [] }
    {
        self.tries = Tries::OneMore(
            Snapshot::of(self),
            Snapshot::of(&to),
            Snapshot::of(message),
            Snapshot::of(&took),
        );
        if !took {
            self.unsent += 1;
        }
    }

    /// How many links refused a message or weren't there, once for each message.
    pub(crate) fn unsent(&self) -> u32
        ensures { result ≡ refusals self.now }
    {
        self.unsent
    }
}
