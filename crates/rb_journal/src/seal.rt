//! A journal that is never written again: the closed gate after its lines becomes the seal, a TAB. It is one byte, as
//! blank to a reader as the gate, and no crash of an append or of a repair leaves it. So a file is sealed or it isn't,
//! and a copy from before isn't.
ghost use Rattle.std.specs.Prelude.{◌≡◌, ◌≢◌, ◌<◌, ◌≤◌, ◌↔◌, [], IfErr, IfOk, IsTrue, MatchResult};
ghost use Rattle.rb_journal.specs.Host.{IsDiskError, LeavesOnly, Only};
ghost use Rattle.rb_journal.specs.Lines.{recovered, sealed, IsSealed};
ghost use Rattle.rb_journal.specs.Journal.{IsSealedOrNot, IsSettled};

use crate::journal::{count_lines, write_synced};
use crate::{Host, HostError, Journal};

/// Whether a file of these bytes is sealed: lines, and after them the seal and nothing else.
pub fn is_sealed(bytes: &[u8]) -> bool
    ensures { IsTrue result ↔ IsSealed bytes.now }
{
    let Some(b'\t') = bytes.last() else {
        return false;
    };
    let (_, end) = count_lines(bytes);
    end > 0 && bytes[end..] == [b'\t']
}

impl<H: Host> Journal<H> {
    /// Seals a journal that has a line: `is_sealed` of its file from then on. It is one write of one byte, and one
    /// sync. An `Err` gives the host back, whose file is sealed or isn't: open it again.
    pub fn seal(self) -> Result<H, (HostError, H)>
        requires settled { IsSettled H.is_usable H.content H.may_leave self }
        requires lines { recovered (H.content self.host) ≢ [] }

        ensures usable { IfOk result (λ host. H.is_usable host) }
        ensures sealed { IfOk result (λ host. H.content host ≡ sealed (recovered (H.content self.host))) }
        ensures is_sealed { IfOk result (λ host. IsSealed (H.content host)) }
        ensures durable { IfOk result (λ host. Only (H.content host) (H.may_leave host)) }
        ensures output { MatchResult result (λ host. H.output host ≡ H.output self.host)
            (λ e. H.output e.1 ≡ H.output self.host) }

        // A crash at any moment leaves the file as it was, or sealed.
        ensures any_moment { IfOk result (λ host. LeavesOnly H.moment H.left_since self.host host
            (IsSealedOrNot (H.content self.host) (H.output self.host))) }
        ensures any_moment_err { IfErr result (λ e. LeavesOnly H.moment H.left_since self.host e.1
            (IsSealedOrNot (H.content self.host) (H.output self.host))) }

        // It doesn't give up by itself.
        ensures cause { MatchResult result (λ host. H.faults self.host ≤ H.faults host)
            (λ e. IsDiskError (H.faults self.host) (H.faults e.1) e.0) }
    {
        let Journal { mut host, end } = self;
        match write_synced(&mut host, end, &[b'\t']) {
            Ok(()) => Ok(host),
            Err(error) => Err((error, host)),
        }
    }
}
