//! The search for an order. Entries are taken in rounds, from each site as many as can be, and none is ever given back:
//! to take one only adds messages that were sent, so what could be taken before still can. So once no entry can be
//! taken, no order has those that are left, and nothing has to be tried a second way.
ghost use Rattle.std.specs.Prelude.{◌≡◌, ◌⊎◌, ◌<◌, IfOk, IfErr, OnOk, MatchBool, length};
ghost use Rattle.rb_auditor.specs.declared.audit_fault.AuditFault.TheVariants.{OutOfMemory as NoMemory};
ghost use Rattle.rb_auditor.specs.Certificates.{Certifies};
ghost use Rattle.rb_auditor.specs.Findings.{IsFound, Refutes, lists_of};
ghost use Rattle.rb_auditor.specs.Kept.{AreJudged, histories_in};
ghost use Rattle.rb_auditor.specs.Progress.{AllRest, IsFurther, Rests};

use crate::message_list::MessageList;
use crate::notes::Notes;
use crate::taking::Taking;
use crate::whole::read_all;
use crate::wrong::first_wrong;
use crate::{AuditFault, Certificate};
use rb_money::Config;
use rb_site::History;
use std::alloc::{AllocError, Global};

/// An order in which a world could have recorded these histories, one for each site: what an `Auditor` of their entries
/// finds.
///
/// Errors: `WrongReply` or `Stuck` if no world has them, `OutOfMemory` if there was no memory to find out.
pub fn audit(
    alloc: Global,
    config: &Config,
    histories: &[History],
) -> Result<Certificate, AuditFault>
    requires { length histories.now ≡ config.now.sites }
    ensures certified { IfOk result (Certifies config.now (lists_of histories.now)) }
    ensures found { IfErr result (λ why. (why ≡ NoMemory) ⊎ IsFound config.now (lists_of histories.now) why) }
    ensures refuted { IfErr result (Refutes config.now (lists_of histories.now)) }
{
    match read_all(alloc, config, histories) {
        Ok(read) => read.finish(),
        Err(_) => Err(AuditFault::OutOfMemory),
    }
}

/// An order for the histories of these notes, or why there isn't one.
pub fn find(
    alloc: Global,
    config: &Config,
    notes: &[Notes],
    messages: &MessageList,
) -> Result<Certificate, AuditFault>
    requires { AreJudged config.now notes.now messages.now.items }
    ensures certified { IfOk result (Certifies config.now (histories_in notes.now)) }
    ensures found { IfErr result (IsFound config.now (histories_in notes.now)) }
    ensures refuted { IfErr result (Refutes config.now (histories_in notes.now)) }
{
    if let Some((site, event)) = first_wrong(config, notes) {
        return Err(AuditFault::WrongReply { site, event });
    }
    let Ok(mut taking) = Taking::open(alloc, config, notes, messages) else {
        return Err(AuditFault::OutOfMemory);
    };
    let Ok(()) = take_all(&mut taking) else {
        return Err(AuditFault::OutOfMemory);
    };
    if taking.is_done() {
        return Ok(taking.close());
    }
    match taking.next(alloc) {
        Ok(next) => Err(AuditFault::Stuck { next }),
        Err(_) => Err(AuditFault::OutOfMemory),
    }
}

/// Takes entries until none can be taken.
fn take_all(taking: &mut Taking<'_>) -> Result<(), AllocError>
    ensures same { OnOk result ((taking.new.settings ≡ taking.old.settings)
        × (taking.new.histories ≡ taking.old.histories)) }
    ensures rest { OnOk result (AllRest taking.new) }
{
    'rounds: loop {
        if !take_round(taking)? {
            return Ok(());
        }
    }
}

/// One round: from each site, from 0, as many entries as can be taken. Answers whether any was.
fn take_round(taking: &mut Taking<'_>) -> Result<bool, AllocError>
    ensures { IfOk result (λ took. MatchBool took (IsFurther taking.old taking.new) ((taking.new ≡ taking.old)
        × AllRest taking.old)) }
{
    let mut took = false;
    for site in 0..taking.sites() {
        if take_site(taking, site)? {
            took = true;
        }
    }
    Ok(took)
}

/// From one site as many entries as can be taken. Answers whether any was.
fn take_site(taking: &mut Taking<'_>, site: usize) -> Result<bool, AllocError>
    requires { site < length taking.old.histories }
    ensures { IfOk result (λ took. MatchBool took (IsFurther taking.old taking.new) ((taking.new ≡ taking.old)
        × Rests taking.old site)) }
{
    let mut took = false;
    'entries: loop {
        if !taking.take(site)? {
            return Ok(took);
        }
        took = true;
    }
}
