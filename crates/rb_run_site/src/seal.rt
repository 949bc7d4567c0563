//! A journal is sealed by a site that is started with it: by its own configuration, and with all of its entries.
ghost use Rattle.std.specs.Prelude.{◌≡◌, ◌≢◌, ◌<◌, [], Err, IfErr, IfOk, MatchResult};
ghost use Rattle.rb_journal.specs.Host.{IsDiskError, LeavesOnly, Only};
ghost use Rattle.rb_journal.specs.Lines.{IsIntact, IsSealed, recovered, sealed};
ghost use Rattle.rb_run_site.specs.Faults.{IsOpeningFault};
ghost use Rattle.rb_run_site.specs.Seals.{HasSealed, IsSealCause, IsSealRun, SealsTo, StartsAlone};
ghost use Rattle.rb_run_site.specs.declared.fault.SiteFault.TheVariants.{Journal as DiskFailed, Sealed};

use crate::fault::SiteFault;
use crate::opening::open_site;
use crate::run::Ran;
use rb_history::BankName;
use rb_journal::{Host, HostError, Journal, ServeFault, count_lines, is_sealed};
use rb_lines::{Buffers, FromBytes};
use rb_node::AllEvents;
use std::alloc::Global;

/// Starts site `me` of the configuration that a journal's first line has, with the journal's entries, and closes it.
fn replay_alone(
    alloc: Global,
    bytes: &[u8],
    me: u8,
    why: &mut Option<String>,
) -> Result<(), SiteFault>
    ensures { MatchResult result
        (λ _. StartsAlone me bytes.now × IsIntact bytes.now)
        (λ fault. IsOpeningFault fault × IsSealCause me bytes.now fault) }
{
    let (_, end) = count_lines(bytes);
    let mut reader = FromBytes::new(&bytes[..end]);
    let mut buffers = Buffers::new(alloc);
    let bank = BankName::none();
    let (opened, _number) = open_site::<FromBytes, AllEvents>(
        alloc,
        &mut buffers,
        &mut reader,
        bytes,
        me,
        bank,
        0,
        why,
    )?;
    opened.close();
    Ok(())
}

/// Opens a journal that has a line and isn't damaged, whose file's bytes these are, and seals it.
fn seal_file<H: Host>(host: H, bytes: &[u8]) -> Result<H, (HostError, H)>
    requires opened { H.never_failed host }
    requires bytes { bytes.now ≡ H.content host }
    requires durable { H.knows_disk host → Only (H.content host) (H.may_leave host) }
    requires lines { recovered bytes.now ≢ [] }
    requires intact { IsIntact bytes.now }
    ensures sealed { IfOk result (λ new. H.content new ≡ sealed (recovered bytes.now)) }
    ensures is_sealed { IfOk result (λ new. IsSealed (H.content new)) }
    ensures durable { IfOk result (λ new. Only (H.content new) (H.may_leave new)) }
    ensures output { MatchResult result (λ new. H.output new ≡ H.output host) (λ e. H.output e.1 ≡ H.output host) }
    ensures any_moment { IfOk result (λ new. LeavesOnly H.moment H.left_since host new
        (IsSealRun bytes.now (H.output host))) }
    ensures any_moment_err { IfErr result (λ e. LeavesOnly H.moment H.left_since host e.1
        (IsSealRun bytes.now (H.output host))) }
    ensures cause { IfErr result (λ e. IsDiskError (H.faults host) (H.faults e.1) e.0) }
{
    Journal::open(host, bytes)?.seal()
}

/// Seals the journal of site `me`, over the file of the host, whose bytes these are: no later run goes on with it. No
/// input is read, and nothing is put out: the configuration is the journal's own first line, and its entries are
/// replayed before anything is changed. `Ok` is 0, as no line is answered. `why` becomes the reason of a fault that has
/// one, if memory suffices to say it.
pub fn seal_site<H: Host>(
    alloc: Global,
    host: H,
    bytes: Vec<u8>,
    me: u8,
    why: &mut Option<String>,
) -> Ran<H>
    requires opened { H.never_failed host }
    requires bytes { bytes.items ≡ H.content host }
    // It isn't known yet what a crash leaves, or it is the file.
    requires durable { H.knows_disk host → Only (H.content host) (H.may_leave host) }

    // The site starts with the journal, and then the file is sealed, all of it on the disk. Or the host is as it was,
    // and the fault comes only for its cause, which is one of a start whose input is the journal's own lines.
    ensures ended { SealsTo (HasSealed me bytes.items (H.content result.host) (H.may_leave result.host))
        (λ fault. (result.host ≡ host) × IsSealCause me bytes.items fault) result.ended }

    // A journal is sealed once.
    ensures sealed { IsSealed bytes.items → (result.ended ≡ Err Sealed) × (result.host ≡ host) }

    // A crash at any moment leaves it sealed or not.
    ensures any_moment { LeavesOnly H.moment H.left_since host result.host (IsSealRun bytes.items (H.output host)) }
    ensures output { H.output result.host ≡ H.output host }

    // A failed journal is reported only for its cause.
    ensures journal { result.ended ≡ Err DiskFailed → H.faults host < H.faults result.host }
{
    if is_sealed(&bytes) {
        return Ran {
            host,
            ended: Err(SiteFault::Sealed),
        };
    }
    match replay_alone(alloc, &bytes, me, why) {
        Ok(()) => match seal_file(host, &bytes) {
            Ok(host) => Ran { host, ended: Ok(0) },
            Err((error, host)) => Ran {
                host,
                ended: Err(SiteFault::from(ServeFault::from(error))),
            },
        },
        Err(fault) => Ran {
            host,
            ended: Err(fault),
        },
    }
}
