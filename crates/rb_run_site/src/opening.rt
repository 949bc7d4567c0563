//! A site is opened before anything of its file changes: its configuration is read, and the journal's entries are
//! replayed. So a file with a bad line or a wrong reply, or one that is damaged, stays as it was.
ghost use Rattle.std.specs.Prelude.{◌≡◌, ◌+◌, ◌⊎◌, ◌<◌, ◌^◌, ◌≤◌, [], List, ℕ, true, false, length, Err, IfErr, IfOk};
ghost use Rattle.std.specs.Prelude.{IfSome};
ghost use Rattle.std.specs.Prelude.{MatchResult};
ghost use Rattle.std.specs.Io.KnownBytes.{IsAtEnd};
ghost use Rattle.rb_node.specs.Asked.{first_asked};
ghost use Rattle.rb_lines.specs.Buffers.{Counts};
ghost use Rattle.rb_lines.specs.declared.limits.TheConstants.{MOST_READS};
ghost use Rattle.rb_run_site.specs.Faults.{IsOpeningFault};
ghost use Rattle.rb_run_site.specs.Openings.{EndsFile, EndsNode, EndsOver, IsOpeningCause, OpensFile};
ghost use Rattle.rb_run_site.specs.Openings.{OpensSite};
ghost use Rattle.rb_run_site.specs.Starts.{IsOf, WaitsBehind};
ghost use Rattle.rb_run_site.specs.declared.fault.SiteFault.TheVariants.{Read as NotRead};

use crate::entries::entries_in;
use crate::fault::SiteFault;
use crate::first_line::first_line;
use crate::replay::replay_all;
use crate::responder::{SiteResponder, settings_are_configured};
use crate::why::{reason_of_config, reason_of_journal};
use rb_history::BankName;
use rb_journal::{count_lines, damaged_line};
use rb_lines::{Buffers, Source, ToBytes};
use rb_node::{Node, OpenFault, Records};
use std::alloc::Global;

/// A site before its first event line.
pub struct Opened<M: Records> {
    pub responder: SiteResponder<M>,
    /// The configuration's line with its line feed, if the journal doesn't have it yet; else nothing.
    pub first: Vec<u8>,
    /// The lines of what is sent again.
    pub sends: Vec<u8>,
}

impl<M: Records> Opened<M> {
    /// Closes the site.
    pub fn close(self) {
        let Opened {
            responder,
            first: _,
            sends: _,
        } = self;
        responder.close();
    }
}

/// The site of the configuration on a line, before any event.
pub fn open_node<M: Records>(
    alloc: Global,
    line: &[u8],
    number: u64,
    me: u8,
    bank: BankName,
) -> Result<Node<M>, SiteFault>
    ensures { MatchResult result
        (λ node. IsOf line.now me bank node.site × (node.site ≡ first_asked node.site.settings me bank))
        (EndsNode line.now number me) }
{
    match Node::open(alloc, line, me, bank) {
        Ok(node) => Ok(node),
        Err(OpenFault::BadConfig) => Err(SiteFault::BadConfig { line: number }),
        Err(OpenFault::NoSite) => Err(SiteFault::NoSite),
        Err(OpenFault::OutOfMemory) => Err(SiteFault::OutOfMemory),
    }
}

/// Replays the file's entries at a site before any event.
pub fn replay_file<M: Records>(
    alloc: Global,
    node: &mut Node<M>,
    bytes: &[u8],
    resend: usize,
    sends: &mut Vec<u8>,
) -> Result<Vec<u8>, SiteFault>
    requires first { node.old.site ≡ first_asked node.old.site.settings node.old.site.me node.old.site.bank }
    requires none { sends.old.items ≡ [] }
    ensures { MatchResult result
        (λ first. OpensFile node.old.site node.new.site bytes.now first.items sends.new.items resend)
        (EndsFile node.old.site bytes.now) }
{
    settings_are_configured(node);
    let first = node.config_line()?;
    let (lines, end) = count_lines(bytes);
    match entries_in(bytes, end, &first)? {
        Some(entries) => {
            // The configuration's line isn't one of an entry.
            let skipped = (lines as usize).saturating_sub(1).saturating_sub(resend);
            replay_all(node, entries, skipped, sends)?;
            match damaged_line(bytes, lines, end) {
                Some(line) => Err(SiteFault::Damaged { line }),
                None => Ok(Vec::new(alloc)),
            }
        }
        None => Ok(first),
    }
}

/// Opens site `me` of the configuration on a line, of this number, of the bank of the name, with the history in the
/// file of these bytes. `why` becomes the reason of a fault that has one, if memory suffices to say it.
pub fn open_over<M: Records>(
    alloc: Global,
    line: &[u8],
    number: u64,
    bytes: &[u8],
    me: u8,
    bank: BankName,
    resend: usize,
    why: &mut Option<String>,
) -> Result<Opened<M>, SiteFault>
    ensures { MatchResult result
        (λ opened. OpensSite line.now me bank resend bytes.now opened.responder.node.site opened.first.items
        opened.sends.items)
        (EndsOver me bank bytes.now number line.now) }
{
    let mut node = match open_node(alloc, line, number, me, bank) {
        Ok(node) => node,
        Err(fault) => {
            *why = reason_of_config(alloc, line, fault);
            return Err(fault);
        }
    };
    let mut sends = Vec::new(alloc);
    match replay_file(alloc, &mut node, bytes, resend, &mut sends) {
        Ok(first) => {
            let responder = SiteResponder::new(alloc, node);
            Ok(Opened {
                responder,
                first,
                sends,
            })
        }
        Err(fault) => {
            *why = reason_of_journal(alloc, &node, bytes, fault);
            node.close();
            Err(fault)
        }
    }
}

/// Reads the configuration, and opens site `me` of it, of the bank of the name, with the history in the file.
///
/// The number of the line after the configuration's comes with it. `why` becomes the reason of a fault that has one,
/// if memory suffices to say it.
pub fn open_site<S: Source, M: Records>(
    alloc: Global,
    buffers: &mut Buffers,
    reader: &mut S,
    bytes: &[u8],
    me: u8,
    bank: BankName,
    resend: usize,
    why: &mut Option<String>,
) -> Result<(Opened<M>, u64), SiteFault>
    requires unread { S.calls reader.old ≡ 0 }
    requires pending { buffers.old.pending ≡ [] }
    requires buffered { buffers.old.buffered.items ≡ [] }
    requires reads { buffers.old.reads ≡ MOST_READS }
    requires going { buffers.old.ended ≡ false }
    ensures counted { Counts (S.calls reader.new) buffers.new.reads }
    ensures end { buffers.new.ended ≡ true → IsAtEnd (S.remaining reader.new) }
    ensures buffered { IfOk result (λ _. buffers.new.buffered.items ≡ []) }
    ensures number { IfOk result (λ r. r.1 + length buffers.new.pending < 2 ^ 63) }
    ensures opened { IfOk result (λ r. (config : List ℕ) × OpensSite config me bank resend bytes.now
        r.0.responder.node.site r.0.first.items r.0.sends.items
        × IfSome (S.remaining reader.old) (WaitsBehind config r.1 buffers.new.pending (S.remaining reader.new))) }
    ensures only { IfErr result IsOpeningFault }
    ensures cause { IfErr result (IsOpeningCause me bank (S.remaining reader.old) (S.remaining reader.new) bytes.now) }
    ensures read { result ≡ Err NotRead → (S.failed reader.new ≡ true) ⊎ (S.calls reader.new ≡ MOST_READS) }
    ensures calls { S.calls reader.new ≤ MOST_READS }
{
    let mut nothing = ToBytes::new(alloc);
    let (n, number) = first_line(buffers, reader, &mut nothing)?;
    let line = &buffers.pending.as_slice()[..n];
    let opened = open_over(alloc, line, number, bytes, me, bank, resend, why)?;
    buffers.skip_line(n);
    Ok((opened, number + 1))
}
