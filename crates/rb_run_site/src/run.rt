//! One site between a reader and a host: a whole run.
ghost use Rattle.std.specs.Prelude.{◌≡◌, ◌+◌, ◌<◌, ◌≤◌, ◌^◌, ◌⊎◌, [], true, length, Err};
ghost use Rattle.std.specs.Io.KnownBytes.{IsAtEnd};
ghost use Rattle.rb_journal.specs.Host.{LeavesOnly, Only};
ghost use Rattle.rb_journal.specs.Journal.{IsSettled};
ghost use Rattle.rb_journal.specs.Lines.{IsSealed, recovered};
ghost use Rattle.rb_lines.specs.Buffers.{Counts};
ghost use Rattle.rb_lines.specs.declared.limits.TheConstants.{MOST_READS};
ghost use Rattle.rb_journal.specs.Ends.{EndsAtRest, IsFull};
ghost use Rattle.rb_journal.specs.declared.fault.ServeFault.TheVariants.{Journal as JournalStopped};
ghost use Rattle.rb_journal.specs.declared.fault.ServeFault.TheVariants.{Read as ReadStopped, Write as WriteStopped};
ghost use Rattle.rb_journal.specs.Run.{served_input};
ghost use Rattle.rb_run_site.specs.Ends.{AnswersAll, AnswersBehind, IsAtRest, IsFullBehind, RunsTo};
ghost use Rattle.rb_run_site.specs.Openings.{IsOpeningCause, IsToBegin};
ghost use Rattle.rb_run_site.specs.Runs.{IsNewOrAnswered, IsSiteRun};
ghost use Rattle.rb_run_site.specs.Files.{IsUndamaged};
ghost use Rattle.rb_run_site.specs.Journals.{SiteAnswers, journal_head, journal_of};
ghost use Rattle.rb_run_site.specs.Steps.{IsRunOfSteps};
ghost use Rattle.rb_run_site.specs.Starts.{IsJournalOf};
ghost use Rattle.rb_run_site.specs.declared.fault.SiteFault.TheVariants.{Journal as DiskFailed, Read as NotRead};
ghost use Rattle.rb_run_site.specs.declared.fault.SiteFault.TheVariants.{Sealed, Write as NotWritten};

use crate::fault::SiteFault;
use crate::opening::{Opened, open_site};
use crate::responder::settings_are_configured;
use rb_history::BankName;
use rb_journal::{Host, Journal, ServeFault, is_sealed, serve};
use rb_lines::{Buffers, Source};
use rb_node::Records;
use std::alloc::Global;

/// The outcome of a run: the host that it ran over, and how many lines were answered, or why it stopped.
pub struct Ran<H: Host> {
    pub host: H,
    pub ended: Result<u64, SiteFault>,
}

/// Adds the configuration's line to a journal that doesn't have it yet, puts out what is sent again, and answers the
/// lines.
fn go_on<S: Source, H: Host, M: Records>(
    alloc: Global,
    opened: &mut Opened<M>,
    number: u64,
    journal: &mut Journal<H>,
    buffers: &mut Buffers,
    reader: &mut S,
) -> Result<u64, ServeFault>
    requires settled { IsSettled H.is_usable H.content H.may_leave journal.old }
    requires begins { IsToBegin (recovered (H.content journal.old.host)) opened.old.responder.node.site
        opened.old.first.items }
    requires journal { IsJournalOf (recovered (H.content journal.old.host)) opened.old.responder.node.site }
    requires counted { Counts (S.calls reader.old) buffers.old.reads }
    requires end { buffers.old.ended ≡ true → IsAtEnd (S.remaining reader.old) }
    requires buffered { buffers.old.buffered.items ≡ [] }
    requires number { number + length buffers.old.pending < 2 ^ 63 }
    ensures settled { EndsAtRest result → IsSettled H.is_usable H.content H.may_leave journal.new }
    ensures text { EndsAtRest result → AnswersAll M.ALL opened.old.responder.node.site opened.old.sends.items number
        (served_input buffers.old.pending (S.remaining reader.old)) (S.remaining reader.new)
        (H.output journal.old.host) (recovered (H.content journal.new.host)) (H.output journal.new.host) result }
    ensures any_moment { LeavesOnly H.moment H.left_since journal.old.host journal.new.host
        (IsNewOrAnswered M.ALL (recovered (H.content journal.old.host)) opened.old.responder.node.site
        opened.old.sends.items number (served_input buffers.old.pending (S.remaining reader.old))
        (H.output journal.old.host)) }
    ensures read { result ≡ Err ReadStopped → (S.failed reader.new ≡ true) ⊎ (S.calls reader.new ≡ MOST_READS) }
    ensures write { result ≡ Err WriteStopped → H.faults journal.old.host < H.faults journal.new.host }
    ensures journal { result ≡ Err JournalStopped → (H.faults journal.old.host < H.faults journal.new.host)
        ⊎ IsFull (SiteAnswers M.ALL) number (served_input buffers.old.pending (S.remaining reader.old))
        opened.old.responder.node.site (journal_of opened.old.responder.node.site) }
    ensures calls { S.calls reader.new ≤ MOST_READS }
{
    settings_are_configured(&opened.responder.node);
    journal.commit_and_put_out(&mut opened.first, &opened.sends)?;
    // All that was sent again is given back before the first read of events.
    opened.sends = Vec::new(alloc);
    serve(
        alloc,
        &mut opened.responder,
        journal,
        buffers,
        number,
        reader,
    )
}

/// Runs an opened site over a file, whose bytes these are. They are given back before the first read of events.
fn run_opened<S: Source, H: Host, M: Records>(
    alloc: Global,
    mut opened: Opened<M>,
    number: u64,
    buffers: &mut Buffers,
    reader: &mut S,
    host: H,
    bytes: Vec<u8>,
) -> Ran<H>
    requires opened { H.never_failed host }
    requires bytes { bytes.items ≡ H.content host }
    requires durable { H.knows_disk host → Only (H.content host) (H.may_leave host) }
    requires begins { IsToBegin (recovered bytes.items) opened.responder.node.site opened.first.items }
    requires journal { IsJournalOf (recovered bytes.items) opened.responder.node.site }
    requires undamaged { IsUndamaged bytes.items (journal_head opened.responder.node.site.settings) }
    requires counted { Counts (S.calls reader.old) buffers.old.reads }
    requires end { buffers.old.ended ≡ true → IsAtEnd (S.remaining reader.old) }
    requires buffered { buffers.old.buffered.items ≡ [] }
    requires number { number + length buffers.old.pending < 2 ^ 63 }
    ensures ended { RunsTo
        (λ end. AnswersAll M.ALL opened.responder.node.site opened.sends.items number
        (served_input buffers.old.pending (S.remaining reader.old)) (S.remaining reader.new) (H.output host)
        (recovered (H.content result.host)) (H.output result.host) end
        × IsAtRest (H.content result.host) (H.may_leave result.host))
        (λ _. ⊥) result.ended }
    ensures any_moment { LeavesOnly H.moment H.left_since host result.host
        (IsNewOrAnswered M.ALL (recovered bytes.items) opened.responder.node.site opened.sends.items number
        (served_input buffers.old.pending (S.remaining reader.old)) (H.output host)) }
    ensures read { result.ended ≡ Err NotRead → (S.failed reader.new ≡ true) ⊎ (S.calls reader.new ≡ MOST_READS) }
    ensures write { result.ended ≡ Err NotWritten → H.faults host < H.faults result.host }
    ensures journal { result.ended ≡ Err DiskFailed → (H.faults host < H.faults result.host)
        ⊎ IsFull (SiteAnswers M.ALL) number (served_input buffers.old.pending (S.remaining reader.old))
        opened.responder.node.site (journal_of opened.responder.node.site) }
    ensures calls { S.calls reader.new ≤ MOST_READS }
{
    match Journal::open(host, &bytes) {
        Ok(mut journal) => {
            drop(bytes);
            let ended = go_on(alloc, &mut opened, number, &mut journal, buffers, reader);
            opened.close();
            let Journal { host, end: _ } = journal;
            match ended {
                Ok(count) => Ran {
                    host,
                    ended: Ok(count),
                },
                Err(fault) => Ran {
                    host,
                    ended: Err(SiteFault::from(fault)),
                },
            }
        }
        Err((error, host)) => {
            opened.close();
            Ran {
                host,
                ended: Err(SiteFault::from(ServeFault::from(error))),
            }
        }
    }
}

/// Runs site `me` (0 to 15) of the configuration that the reader's first line has, over the file of the host, whose
/// bytes these are. If the bank has a name, each message has it, and a line of another bank is refused. The messages of
/// the last `resend` entries of its journal are put out again; then each line of the reader is an event, answered by
/// a line. `M` says which events are recorded: all, or those that change the site. The bytes and what is put out again
/// are given back before the first event is read, so a site that runs holds its history and what one read brings. A
/// file that is sealed is refused before that.
pub fn run_site<S: Source, H: Host, M: Records>(
    alloc: Global,
    reader: &mut S,
    host: H,
    bytes: Vec<u8>,
    me: u8,
    bank: BankName,
    resend: usize,
    why: &mut Option<String>,
) -> Ran<H>
    requires opened { H.never_failed host }
    requires bytes { bytes.items ≡ H.content host }
    // It isn't known yet what a crash leaves, or it is the file.
    requires durable { H.knows_disk host → Only (H.content host) (H.may_leave host) }
    requires unread { S.calls reader.old ≡ 0 }

    // The site that the input and the journal say has answered the lines after the configuration, as the end says,
    // and then the file is whole lines and a closed gate, all of it on the disk. Or the run stopped in the opening: the
    // host is as it was, and the fault comes only for its cause, by the input's first line and the file's lines.
    ensures ended { RunsTo
        (λ end. AnswersBehind
        (record { all = M.ALL; me = me; bank = bank; most = resend; input = S.remaining reader.old })
        (S.remaining reader.new) (record { file = bytes.items; output = H.output host })
        (recovered (H.content result.host)) (H.output result.host) end
        × IsAtRest (H.content result.host) (H.may_leave result.host))
        (λ fault. (result.host ≡ host)
        × IsOpeningCause me bank (S.remaining reader.old) (S.remaining reader.new) bytes.items fault)
        result.ended }

    // A crash at any moment since it is known what one leaves leaves a journal that some first lines of the input have,
    // and nothing was put out that it takes back. It is the file as it was, or one that isn't damaged.
    ensures any_moment { LeavesOnly H.moment H.left_since host result.host
        (IsSiteRun (record { all = M.ALL; me = me; bank = bank; most = resend; input = S.remaining reader.old })
        (record { file = bytes.items; output = H.output host })) }

    // And that is a run of steps of a site with a disk, as the laws of worlds whose sites crash have them.
    ensures steps { LeavesOnly H.moment H.left_since host result.host
        (IsRunOfSteps (record { all = M.ALL; me = me; bank = bank; most = resend; input = S.remaining reader.old })
        (record { file = bytes.items; output = H.output host })) }

    // A site whose journal is sealed never goes on: nothing is read, and nothing is changed.
    ensures sealed { IsSealed bytes.items → (result.ended ≡ Err Sealed) × (result.host ≡ host)
        × (reader.new ≡ reader.old) }

    // A failed read, a failed write and a failed journal are reported only for their causes, and at most `MOST_READS`
    // are made.
    ensures read { result.ended ≡ Err NotRead → (S.failed reader.new ≡ true) ⊎ (S.calls reader.new ≡ MOST_READS) }
    ensures write { result.ended ≡ Err NotWritten → H.faults host < H.faults result.host }
    ensures journal { result.ended ≡ Err DiskFailed → (H.faults host < H.faults result.host)
        ⊎ IsFullBehind (record { all = M.ALL; me = me; bank = bank; most = resend; input = S.remaining reader.old })
        (recovered bytes.items) }
    ensures calls { S.calls reader.new ≤ MOST_READS }
{
    if is_sealed(&bytes) {
        return Ran {
            host,
            ended: Err(SiteFault::Sealed),
        };
    }
    let mut buffers = Buffers::new(alloc);
    match open_site::<S, M>(alloc, &mut buffers, reader, &bytes, me, bank, resend, why) {
        Ok((opened, number)) => run_opened(
            alloc,
            opened,
            number,
            &mut buffers,
            reader,
            host,
            bytes,
        ),
        Err(fault) => Ran {
            host,
            ended: Err(fault),
        },
    }
}
