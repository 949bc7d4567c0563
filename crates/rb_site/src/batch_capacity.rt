//! Memory for the answer to a batch. It is taken before the batch is committed, and to fill it can't fail: so a batch
//! that was made is answered and sent.
ghost use Rattle.std.specs.Prelude.{◌≡◌, ◌+◌, ◌≤◌, ◌++◌, [], IfOk, length, map, vec_len, vec_capacity};
ghost use Rattle.rb_scratch.specs.Batches.{names_of_all};
ghost use Rattle.rb_site.specs.Capacities.{IsCapacityFor};
ghost use Rattle.rb_site.specs.States.{Says};

use crate::noted_reply::NotedReply;
use crate::{Message, Reply};
use rb_kit::List;
use rb_money::Refusal;
use rb_shadow::{OpName, Shadow};
use std::alloc::{AllocError, Global};
use std::marker::Model;
use std::mem;

/// Memory for the answer to a batch: for the names, and for their copy in a history that keeps replies.
/// Clients see for how many operations it is enough, and whether the history keeps replies.
#[derive(Drop)]
pub struct BatchCapacity {
    most: usize,
    keeps: bool,
    names: Vec<OpName>,
    noted: Vec<OpName>,
}

impl Model for BatchCapacity {
    ghost use Rattle.std.specs.Prelude.{◌≡◌, ◌≤◌, [], true, vec_capacity};
    ghost use Rattle.rb_site.specs.Capacities.{BatchCapacityFor};

    ghost Value = { BatchCapacityFor };

    ghost view = { λ r. record { most = r.most; keeps = r.keeps } };

    ghost invariant = { λ r. (r.names.items ≡ []) × (r.noted.items ≡ []) × (r.most ≤ vec_capacity r.names)
        × (r.keeps ≡ true → r.most ≤ vec_capacity r.noted) };
}

impl BatchCapacity {
    /// Memory for up to `most` operations, and for as many messages after those sent. If the reply before has names,
    /// theirs is used. `Err` means out of memory.
    pub fn open(
        alloc: Global,
        before: &mut Reply,
        most: usize,
        keeps: bool,
        sent: &mut Vec<Message>,
    ) -> Result<BatchCapacity, AllocError>
        ensures ok { IfOk result (λ room. IsCapacityFor room keeps most
            × (vec_len sent.new + most ≤ vec_capacity sent.new)) }
        ensures sent { sent.new.items ≡ sent.old.items }
    {
        let mut names = spare_names(alloc, before);
        names.reserve(most)?;
        let mut noted = Vec::new(alloc);
        if keeps {
            noted.reserve(most)?;
        }
        sent.reserve(most)?;
        Ok(BatchCapacity {
            most,
            keeps,
            names,
            noted,
        })
    }

    /// The answer that names the operations, each of which is sent. There is memory for them.
    pub fn filled(self, made: &[Shadow], sent: &mut Vec<Message>) -> NotedReply
        requires few { length made.now ≤ self.most }
        requires room { vec_len sent.old + length made.now ≤ vec_capacity sent.old }
        ensures answer { Says self.keeps result (Reply.Names (names_of_all made.now)) }
        ensures sent { sent.new.items ≡ sent.old.items ++ map Message.Shadow made.now }
    {
        let BatchCapacity {
            most: _,
            keeps,
            names,
            noted,
        } = self;
        send(sent, made);
        let noted = if keeps {
            Some(Reply::Names(List::new(with_names(noted, made))))
        } else {
            None
        };
        NotedReply {
            reply: Reply::Names(List::new(with_names(names, made))),
            noted,
        }
    }
}

/// An empty list of names, in the memory of those that the reply has, if it has any. The reply is then another.
#[inline(always)]
fn spare_names(alloc: Global, before: &mut Reply) -> Vec<OpName>
    ensures { result.items ≡ [] }
{
    match mem::replace(before, Reply::Refused(Refusal::BadBatch)) {
        Reply::Names(names) => {
            let mut names = names.into_vec();
            names.clear();
            names
        }
        _ => Vec::new(alloc),
    }
}

/// Each operation's name, in spare capacity.
fn with_names(mut names: Vec<OpName>, made: &[Shadow]) -> Vec<OpName>
    requires empty { names.items ≡ [] }
    requires room { length made.now ≤ vec_capacity names }
    ensures { result.items ≡ names_of_all made.now }
{
    for shadow in made {
        names.push_reserved(shadow.name);
    }
    names
}

/// Adds the message that sends each operation, in spare capacity.
fn send(sent: &mut Vec<Message>, made: &[Shadow])
    requires { vec_len sent.old + length made.now ≤ vec_capacity sent.old }
    ensures { sent.new.items ≡ sent.old.items ++ map Message.Shadow made.now }
{
    for shadow in made {
        sent.push_reserved(Message::Shadow(*shadow));
    }
}
