//! The line that an audit answers.
ghost use Rattle.std.specs.Prelude.{IfOk};
ghost use Rattle.rb_runs.specs.Audit.{IsFaultLine, ReportsVerdict};

use rb_auditor::{AuditFault, Auditor};
use rb_history::{order_line, stuck_line, wrong_reply_line};
use std::alloc::{AllocError, Global};

/// The line that reports a fault. `Err` means out of memory.
pub fn fault_line(alloc: Global, fault: AuditFault) -> Result<Vec<u8>, AllocError>
    ensures { IfOk result (λ line. IsFaultLine fault line.items) }
{
    match fault {
        AuditFault::WrongReply { site, event } => wrong_reply_line(alloc, site, event),
        AuditFault::Stuck { next } => stuck_line(alloc, next.as_slice()),
        AuditFault::OutOfMemory => Err(AllocError),
    }
}

/// The line that reports what the auditor finds, and whether the histories have an order. `Err` means out of memory.
pub fn answer(alloc: Global, auditor: Auditor) -> Result<(bool, Vec<u8>), AllocError>
    ensures { IfOk result
        (λ found. ReportsVerdict found.0 (record { settings = auditor.settings; histories = auditor.histories })
        found.1.items) }
{
    match auditor.finish() {
        Ok(order) => Ok((true, order_line(alloc, order.as_slice())?)),
        Err(fault) => Ok((false, fault_line(alloc, fault)?)),
    }
}
