//! The answer of a site to one event.
ghost use Rattle.std.specs.Prelude.{◌≡◌, true, None};
ghost use Rattle.rb_site.specs.Notes.{is_plain};
ghost use Rattle.rb_site.specs.States.{Says, noting, plain};

use crate::Reply;

/// The answer to one event: a reply, and its copy if it holds memory and the history keeps replies.
#[derive(Drop)]
pub struct NotedReply {
    pub reply: Reply,
    pub noted: Option<Reply>,
}

impl NotedReply {
    /// Puts the reply in the place of another, and what is noted of it where nothing was.
    #[inline(always)]
    pub fn put(self, reply: &mut Reply, noted: &mut Option<Reply>)
        requires { noted.old ≡ None }
        ensures { noting reply.new noted.new ≡ self }
    {
        *reply = self.reply;
        if let Some(kept) = self.noted {
            *noted = Some(kept);
        }
    }
}

/// Puts a reply that holds no memory in the place of another.
#[inline(always)]
pub fn give(place: &mut Reply, reply: Reply)
    requires { is_plain reply ≡ true }
    ensures { Says true (plain place.new) reply }
{
    *place = reply;
}
